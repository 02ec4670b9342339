//! Counts that don't fit: values that are given, and fields of a PRINT.

use crate::statements::{Listed, statements_of};
use explain_pages::Part::{Bytes, Count, Line, Words};
use explain_pages::{Made, Page, Part, line_bytes};
use ss_base::{Name, PictureLine};
use ss_names::Names;
use ss_names_uses::CountNeed;
use ss_picture::Picture;
use ss_tree::expression::Function;
use ss_tree::program::Program;
use ss_tree::statement::Statement;
use std::alloc::Global;

/// How many values are wanted, of what, and the words for that.
type Wanted = (usize, Option<Name>, &'static str);

// How many values are wanted, at most where it says so.
fn wanted_of(names: &Names, need: &CountNeed) -> Option<Wanted> {
    match need {
        CountNeed::Arguments(Function::One(_)) => Some((1, None, "this function takes ")),
        CountNeed::Arguments(Function::Two(_)) => Some((2, None, "this function takes ")),
        CountNeed::Given(routine) => {
            let count = names.routines.get(routine)?.given;
            Some((count, Some(*routine), "this routine is GIVEN "))
        }
        CountNeed::Yielded(routine) => {
            let count = names.routines.get(routine)?.yielding;
            Some((count, Some(*routine), "this routine is YIELDING "))
        }
        CountNeed::Attributes(class) => {
            let number = names.classes.place(class)?;
            let count = names.attributes_of(number).len();
            Some((count, Some(*class), "this event notice HAS attributes: "))
        }
    }
}

fn counted(count: usize) -> Part<'static> {
    Count(count as u64)
}

/// Whether a count of values in a line is wrong, which is then explained.
pub fn explain_arguments(
    page: &mut Page<'_>,
    names: &Names,
    line: u32,
    found: usize,
    need: &CountNeed,
) -> Made<bool> {
    let Some((count, name, words)) = wanted_of(names, need) else {
        return Ok(false);
    };
    let at_most = matches!(need, CountNeed::Attributes(_));
    if found == count || (at_most && found < count) {
        return Ok(false);
    }
    let parts = [Words(words), counted(count), counted(found)];
    let words = "{}{}, and here are {}";
    match &name {
        Some(name) => page.name(line, name.bytes(), words, &parts)?,
        None => page.in_line(line, words, &parts)?,
    }
    let cure = if at_most {
        "Give fewer values, or give the event notice another attribute by EVERY .. HAS."
    } else {
        "Give as many values as it takes, with commas between, or change the head of the routine."
    };
    page.cure(cure, &[])?;
    Ok(true)
}

fn field_count(alloc: Global, pictures: &[PictureLine]) -> Made<usize> {
    let mut count: usize = 0;
    for line in pictures {
        let picture = Picture::of(alloc, line.bytes())?;
        count = count.saturating_add(picture.fields().len());
    }
    Ok(count)
}

// The first field with decimals of a line.
fn decimals_in(line: &[u8]) -> Option<&[u8]> {
    let point = line
        .windows(3)
        .position(|three| three == b"*.*".as_slice())?
        .saturating_add(1);
    let before = line.get(..point)?.iter().rev();
    let whole = before.take_while(|byte| **byte == b'*').count();
    let after = line.iter().skip(point.saturating_add(1));
    let part = after.take_while(|byte| **byte == b'*').count();
    let end = point.saturating_add(1).saturating_add(part);
    line.get(point.saturating_sub(whole)..end)
}

// A word of which there are so many.
fn plural(count: usize, one: &'static str, several: &'static str) -> &'static str {
    if count == 1 { one } else { several }
}

// What helps where a PRINT has so many values and fields.
fn field_cure(items: usize, fields: usize) -> &'static str {
    if items > fields {
        "Write a field of asterisks for each value into the pictures, with blanks between, or leave a value out."
    } else if items < fields {
        "A field is a row of asterisks. Name a value for each after WITH, with commas between, or take asterisks out of the pictures."
    } else {
        "A field with decimals, as **.*, prints a MEAN alone: name a MEAN for it, or leave its period out."
    }
}

// Shows the lines of the pictures of a PRINT in this line. Between the two there may be lines with more values.
fn show_pictures(page: &mut Page<'_>, pictures: &[PictureLine], line: u32) -> Made<()> {
    let text = page.about;
    let mut next = line.saturating_add(1);
    for picture in pictures {
        let mut near = next..next.saturating_add(100);
        let found = near.find(|line| line_bytes(text, *line) == picture.bytes());
        let line = found.unwrap_or(next);
        page.show(line)?;
        next = line.saturating_add(1);
    }
    Ok(())
}

/// A PRINT: how many values it has, and its pictures.
type Print<'a> = (usize, &'a [PictureLine]);

// Says how many fields and values a PRINT has.
fn explain_print(page: &mut Page<'_>, line: u32, print: Print<'_>, fields: usize) -> Made<()> {
    let (items, pictures) = print;
    let values = plural(items, " value, and ", " values, and ");
    let shown = plural(fields, " field in its pictures", " fields in its pictures");
    let parts = [
        Line(line),
        counted(items),
        Words(values),
        counted(fields),
        Words(shown),
    ];
    page.line("line {}, PRINT: {}{}{}{}", &parts)?;
    page.show(line)?;
    show_pictures(page, pictures, line)?;
    let decimals = pictures
        .iter()
        .find_map(|picture| decimals_in(picture.bytes()));
    match decimals {
        Some(field) if items > fields => page.cure(
            "{} is one field, for a MEAN alone. For two numbers write a blank or a colon between the asterisks, as **:**.",
            &[Bytes(field)],
        ),
        _ => page.cure(field_cure(items, fields), &[]),
    }
}

// Explains the first PRINT of a line that has not as many fields as values, or else the last.
fn explain_prints(page: &mut Page<'_>, all: &[Listed<'_>], line: u32) -> Made<()> {
    let mut last: Option<Print<'_>> = None;
    for one in all {
        match one.statement {
            Statement::Print {
                line: here,
                items,
                pictures,
            } if here.0 == line => {
                let fields = field_count(page.alloc(), pictures.as_slice())?;
                let print = (items.len(), pictures.as_slice());
                if items.len() != fields {
                    return explain_print(page, line, print, fields);
                }
                last = Some(print);
            }
            _ => {}
        }
    }
    match last {
        Some((items, pictures)) => explain_print(page, line, (items, pictures), items),
        None => page.show(line),
    }
}

/// Explains a PRINT whose fields don't fit its values: 77.
pub fn explain_fields(page: &mut Page<'_>, program: &Program, line: u32) -> Made<()> {
    let all = statements_of(page.alloc(), &program.sections)?;
    explain_prints(page, all.as_slice(), line)
}
