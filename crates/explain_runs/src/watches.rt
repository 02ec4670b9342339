//! Values that are watched: global variables, N. of sets, statistics and attributes.

ghost use Rattle.std.specs.Prelude.{◌≡◌};

use crate::guide::Guide;
use crate::looks::{attribute, figure, mean, time, value};
use explain_texts::Part::{Bytes, Capitals, Count, Whole, Words};
use explain_texts::{Made, Page};
use ss_base::{FaultyRead, FaultyWrite, Mode, Owner, Value};
use ss_engine::Session;
use ss_names::{Meaning, NameId};
use ss_program::expression::{Fold, SetQuery, Variable};
use std::alloc::Global;

/// What is watched.
#[derive(Clone, Copy, Debug, PartialEq, Eq)]
enum Watched {
    /// A global variable, by its number, and its mode.
    Variable(usize, Mode),
    /// N. of a set, by its number, and its owner.
    Count(usize, i64),
    /// A statistic, by its number, of an entity.
    Figure(Fold, usize, i64),
    /// A mean, by its number, of an entity.
    Mean(usize, i64),
    /// A field of a class, both by their numbers, of an entity.
    Attribute(usize, usize, i64),
}

/// A value that is watched, with how it is written and what was shown of it last.
#[derive(Drop)]
pub struct Watch {
    name: Page<'static>,
    watched: Watched,
    shown: Page<'static>,
}

// A name, and the number in parentheses after it.
fn split(word: &[u8]) -> Option<(&[u8], Option<i64>)> {
    let Some(open) = word.iter().position(|byte| *byte == b'(') else {
        return Some((word, None));
    };
    let (name, rest) = word.split_at(open);
    let [b'(', inner @ .., b')'] = rest else {
        return None;
    };
    let digits = str::from_utf8(inner).ok()?;
    Some((name, Some(digits.parse::<i64>().ok()?)))
}

// What a meaning is as something that can be watched, with the number after its name.
fn watched_of(guide: &Guide<'_>, meaning: Meaning, number: Option<i64>) -> Option<Watched> {
    // the owner or the entity: the number, or 0 for what THE SYSTEM has
    let entity = match (guide.names.owner_of(meaning), number) {
        (Owner::System, None) => 0,
        (Owner::Class(_), Some(number)) => number,
        _ => return None,
    };
    match meaning {
        Meaning::Variable {
            variable: Variable::Global { number },
            mode,
        } => Some(Watched::Variable(number, mode)),
        Meaning::Class { variable, .. } => Some(Watched::Variable(variable, Mode::Integer)),
        Meaning::Count { count } => Some(Watched::Variable(count.variable, Mode::Integer)),
        Meaning::Attribute { class, field, .. } => Some(Watched::Attribute(class, field, entity)),
        Meaning::OfSet {
            query: SetQuery::MemberCount,
            set,
        } => Some(Watched::Count(set, entity)),
        Meaning::Statistic { fold, statistic } => Some(match fold {
            Some(fold) => Watched::Figure(fold, statistic, entity),
            None => Watched::Mean(statistic, entity),
        }),
        _ => None,
    }
}

// A watch of this name, if it names what can be watched.
fn watch_of(guide: &Guide<'_>, word: &[u8]) -> Made<Option<Watch>> {
    let name = Page::of(guide.alloc, "{}", &[Capitals(word)])?;
    let Some((spelling, number)) = split(name.bytes()) else {
        return Ok(None);
    };
    let Some(NameId(place)) = guide.names.find(spelling) else {
        return Ok(None);
    };
    let meaning = guide.names.meanings.values().get(place).copied();
    match meaning.and_then(|meaning| watched_of(guide, meaning, number)) {
        Some(watched) => Ok(Some(Watch {
            name,
            watched,
            shown: Page::of(guide.alloc, "", &[])?,
        })),
        None => Ok(None),
    }
}

/// The watches of names with commas between. The name is answered that can't be watched, if there is one.
pub fn watches_of<'a>(guide: &Guide<'_>, words: &'a [u8]) -> Made<Result<Vec<Watch>, &'a [u8]>> {
    let mut watches = Vec::new(guide.alloc);
    for word in words.split(|byte| *byte == b',') {
        match watch_of(guide, word)? {
            Some(watch) => watches.push(watch)?,
            None => return Ok(Err(word)),
        }
    }
    Ok(Ok(watches))
}

// A value as it is written.
fn page_of_value(alloc: Global, value: &Value) -> Made<Page<'static>> {
    match value {
        Value::Whole(number) => Page::of(alloc, "{}", &[Whole(*number)]),
        Value::Text(text) => Page::of(alloc, "{}", &[Bytes(text.bytes())]),
    }
}

// A value as it is written. Empty where there is none.
fn value_page(alloc: Global, found: Option<Value>) -> Made<Page<'static>> {
    match found {
        Some(value) => page_of_value(alloc, &value),
        None => Page::of(alloc, "", &[]),
    }
}

// A mean with three decimals, the others cut off. Empty where there is none.
fn mean_page(alloc: Global, found: Option<(i128, i64)>) -> Made<Page<'static>> {
    let Some((sum, number)) = found else {
        return Page::of(alloc, "", &[]);
    };
    let divisor = u128::from(number.unsigned_abs()).max(1);
    let size = sum.unsigned_abs();
    let above = u64::try_from(size / divisor).unwrap_or(u64::MAX);
    let rest = (size % divisor).saturating_mul(1000) / divisor;
    let rest = u64::try_from(rest).unwrap_or(0);
    let (first, second, third) = (Count(rest / 100), Count(rest / 10 % 10), Count(rest % 10));
    let sign = Words(if sum < 0 { "-" } else { "" });
    let parts = [sign, Count(above), first, second, third];
    Page::of(alloc, "{}{}.{}{}{}", &parts)
}

// The present value of what is watched, as it is written. Empty where there is none.
fn present<R: FaultyRead, W: FaultyWrite>(
    alloc: Global,
    session: &mut Session<R, W>,
    watched: Watched,
) -> Made<Page<'static>>
    ensures { session.new ≡ session.old }
{
    match watched {
        Watched::Variable(number, mode) => {
            value_page(alloc, value(session.machine(), number, mode))
        }
        Watched::Count(set, owner) => {
            value_page(alloc, session.member_count(set, owner).map(Value::Whole))
        }
        Watched::Figure(fold, statistic, entity) => {
            let found = figure(session.machine(), fold, statistic, entity);
            value_page(alloc, found.map(Value::Whole))
        }
        Watched::Mean(statistic, entity) => {
            mean_page(alloc, mean(session.machine(), statistic, entity))
        }
        Watched::Attribute(class, field, entity) => {
            value_page(alloc, attribute(session.machine(), class, field, entity))
        }
    }
}

// Adds bytes, and one after them.
fn add_bytes(page: &mut Page<'_>, bytes: &[u8], end: u8) -> Made<()> {
    page.text.extend_from_slice(bytes)?;
    page.text.push(end)?;
    Ok(())
}

/// Adds a line `time,name,value` for each watch that has another value than was shown last.
pub fn add_changes<R: FaultyRead, W: FaultyWrite>(
    page: &mut Page<'_>,
    session: &mut Session<R, W>,
    watches: &mut Vec<Watch>,
) -> Made<()>
    ensures { session.new ≡ session.old }
{
    let alloc = page.alloc();
    for watch in watches.iter_mut() {
        let written = present(alloc, session, watch.watched)?;
        if written.text != watch.shown.text {
            let now = value_page(alloc, Some(Value::Whole(time(session.machine()))))?;
            add_bytes(page, now.bytes(), b',')?;
            add_bytes(page, watch.name.bytes(), b',')?;
            add_bytes(page, written.bytes(), b'\n')?;
            watch.shown = written;
        }
    }
    Ok(())
}
