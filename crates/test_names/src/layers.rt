//! Values, notices, statistics and pictures, each by a call or two.

use ss_base::{Alpha, FaultKind, Mode, Refused, Value, div_f, minus, mod_f, plus, times};
use ss_events::{Key, Pending, Tie, TieShape};
use ss_picture::{Field, Item, Picture};
use ss_stats::Totals;
use std::alloc::{AllocError, Global};
use std::test::Fail;

#[test]
fn numbers_are_calculated(rt: HostRuntime) {
    assert_eq!(rt; times(6, 7), Ok(42));
    assert_eq!(rt; plus(i64::MAX, 1), Err(FaultKind::Overflow));
    assert_eq!(rt; minus(i64::MIN, 1), Err(FaultKind::Overflow));
    assert_eq!(rt; div_f(7, 0), Err(FaultKind::ZeroDivisor));
    assert_eq!(rt; div_f(-7, 2), Ok(-3));
    assert_eq!(rt; mod_f(-7, 2), Ok(-1));
}

#[test]
fn faults_have_numbers_and_words(rt: HostRuntime) {
    assert_eq!(rt; FaultKind::BadCount.number(), 22);
    assert_eq!(rt; FaultKind::BadCount.text(), "BAD COUNT");
    assert_eq!(rt; Refused::from(AllocError), Refused::Memory);
}

// Whether these bytes are a text, and it has them but for the blanks at their end.
fn is_kept(bytes: &[u8], kept: &[u8]) -> bool {
    match Alpha::of(bytes) {
        Some(text) => text.bytes() == kept,
        None => false,
    }
}

#[test]
fn texts_are_short(rt: HostRuntime) {
    assert!(rt; is_kept(b"ABCDEFGHIJKLMNOP   ", b"ABCDEFGHIJKLMNOP"));
    assert_eq!(rt; Alpha::of(b"ABCDEFGHIJKLMNOPQ"), None);
    assert_eq!(rt; Value::Whole(0).mode(), Mode::Integer);
    assert_eq!(rt; Value::Text(Alpha::empty()).mode(), Mode::Alpha);
}

// Schedules a notice of the only class at a time, where the ties are that class's.
fn schedule(alloc: Global, pending: &mut Pending, time: i64, notice: i64) -> Result<(), Refused> {
    let tie = Tie {
        value: Value::Whole(time),
        high: true,
    };
    let key = Key::of(alloc, time, 0, &[tie])?;
    if !pending.fits(&key) {
        return Err(Refused::Fault(FaultKind::WrongClass));
    }
    pending.schedule(key, notice)
}

// A list of one class of notices, with one tie.
fn of_one_class(alloc: Global) -> Result<Pending, AllocError> {
    let shape = TieShape {
        mode: Mode::Integer,
        high: true,
    };
    let shapes = Vec::from_array(alloc, [shape])?;
    let classes = Vec::from_array(alloc, [shapes])?;
    Pending::new(alloc, &classes)
}

// What is next, what is taken out, whether 1 and 2 are scheduled then, and the answer to a cancelling of 2.
type Next = (
    Option<(i64, i64)>,
    Option<(i64, i64)>,
    [bool; 2],
    Result<(), FaultKind>,
);

fn next(pending: &mut Pending) -> Next {
    let least = pending.least();
    let taken = pending.take();
    let scheduled = [pending.is_scheduled(1), pending.is_scheduled(2)];
    (least, taken, scheduled, pending.cancel(2))
}

// What a scheduling answers, and how many comparisons and moves it makes.
type Scheduled = (Result<(), Refused>, u64, u64);

fn scheduled(alloc: Global, pending: &mut Pending, time: i64, notice: i64) -> Scheduled {
    let answer = schedule(alloc, pending, time, notice);
    (answer, pending.comparisons(), pending.moves())
}

// What is next in a list, before 1 and 2 are scheduled, then, and at last; what scheduling them answers, and 1 once more.
fn answers(
    alloc: Global,
    mut pending: Pending,
) -> ([Next; 3], [Scheduled; 2], Result<(), Refused>) {
    let before = next(&mut pending);
    let first = scheduled(alloc, &mut pending, 5, 1);
    let second = scheduled(alloc, &mut pending, 9, 2);
    let again = schedule(alloc, &mut pending, 7, 1);
    let after = next(&mut pending);
    let last = next(&mut pending);
    ([before, after, last], [first, second], again)
}

// 1 is compared with none, and put into a place. 2 is compared with 1, and stays after it.
#[test]
fn the_earliest_notice_is_next(rt: HostRuntime) -> Result<(), Fail> {
    let none = (None, None, [false; 2], Err(FaultKind::NotScheduled));
    let first = (Some((5, 1)), Some((5, 1)), [false, true], Ok(()));
    let twice = Refused::Fault(FaultKind::AlreadyScheduled);
    let (nexts, scheduled, again) = answers(rt.alloc(), of_one_class(rt.alloc())?);
    assert_eq!(rt; nexts, [none, first, none]);
    assert_eq!(rt; scheduled, [(Ok(()), 0, 1), (Ok(()), 1, 1)]);
    assert_eq!(rt; again, Err(twice));
    Ok(())
}

#[test]
fn a_tally_counts_and_sums(rt: HostRuntime) {
    let mut totals = Totals::tally();
    let noted = [totals.note(0, 4), totals.note(0, -2), totals.note(0, 7)];
    assert_eq!(rt; noted, [Ok(()); 3]);
    assert_eq!(rt; (totals.number(0), totals.sum(0)), (3, Ok(9)));
    assert_eq!(rt; (totals.maximum(), totals.minimum()), (7, -2));
}

// 2 for 5 units of time, and 4 for 5 more.
#[test]
fn an_accumulation_goes_by_time(rt: HostRuntime) {
    let mut totals = Totals::accumulate(0, 2);
    assert_eq!(rt; totals.note(5, 4), Ok(()));
    assert_eq!(rt; (totals.number(10), totals.sum(10)), (10, Ok(30)));
}

// 3 for 4 units of time.
#[test]
fn a_reset_begins_anew(rt: HostRuntime) {
    let mut totals = Totals::accumulate(0, 2);
    totals.reset(6, 3);
    assert_eq!(rt; (totals.number(10), totals.sum(10)), (4, Ok(12)));
    assert_eq!(rt; totals.mean(10), (12, 4));
}

// A picture of one field, two wide, with this number in it.
fn filled(alloc: Global, picture: &Picture, number: i64) -> Result<Vec<u8>, AllocError> {
    match picture.fields() {
        [field] if field.width == 2 && field.decimals == 0 => picture.fill(
            alloc,
            &[Item::Is(Value::Whole(number))],
        ),
        _ => Err(AllocError),
    }
}

#[test]
fn a_number_goes_to_the_right(rt: HostRuntime) -> Result<(), Fail> {
    let picture = Picture::of(rt.alloc(), b"A**")?;
    let field = Field {
        width: 2,
        decimals: 0,
    };
    assert_eq!(rt; picture.fields(), [field].as_slice());
    assert_eq!(rt;
        filled(rt.alloc(), &picture, 7)?.as_slice(),
        b"A 7".as_slice()
    );
    Ok(())
}
