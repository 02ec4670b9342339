//! The text that shows a list of instructions.

ghost use Rattle.std.specs.Prelude.{◌≡◌, ◌++◌, length, decimal, IfOk, OnOk};
ghost use Rattle.ss_code_listing.specs.Listing.{AreLines, IsLine, without_feeds};

use crate::detail::{Detail, Part};
use crate::values::detail_of;
use itoa::Buffer;
use ss_base::Value;
use ss_code_instructions::address::Address;
use ss_code_instructions::instruction::Instruction;
use std::alloc::{AllocError, Global};

// The columns that the numbers of instructions and their names take.
const NUMBER_WIDTH: usize = 7;

const NAME_WIDTH: usize = 24;

/// What a listing shows addresses by: the constants, and how many global variables come before them.
#[derive(Clone, Copy)]
struct AddressNames<'a> {
    constants: &'a [Value],
    globals: usize,
}

// A number.
fn add_number(text: &mut Vec<u8>, number: usize) -> Result<(), AllocError>
    ensures { OnOk result (text.new.items ≡ text.old.items ++ decimal number) }
{
    text.extend_from_slice(Buffer::new().format(number).as_bytes())
}

// Blanks from one column up to another.
fn add_blanks(text: &mut Vec<u8>, from: usize, to: usize) -> Result<(), AllocError> {
    for _column in from..to {
        text.push(b' ')?;
    }
    Ok(())
}

// A constant.
fn add_constant(text: &mut Vec<u8>, value: &Value) -> Result<(), AllocError> {
    match value {
        Value::Whole(number) => text.extend_from_slice(Buffer::new().format(*number).as_bytes()),
        Value::Text(alpha) => {
            text.push(b'"')?;
            text.extend_from_slice(alpha.bytes())?;
            text.push(b'"')?;
            Ok(())
        }
    }
}

// Where a value lies.
fn add_address(
    text: &mut Vec<u8>,
    names: AddressNames,
    address: Address,
) -> Result<(), AllocError> {
    let number = address.number as usize;
    if address.mask != 0 {
        text.extend_from_slice(b"local ")?;
        return add_number(text, number);
    }
    if number < names.globals {
        text.extend_from_slice(b"global ")?;
        return add_number(text, number);
    }
    match names.constants.get(number - names.globals) {
        None => add_number(text, number),
        Some(value) => add_constant(text, value),
    }
}

// One of the things that an instruction works on.
fn add_part(
    text: &mut Vec<u8>,
    names: AddressNames,
    place: usize,
    part: Part,
) -> Result<(), AllocError> {
    match part {
        Part::Nothing => Ok(()),
        Part::From(address) => add_address(text, names, address),
        Part::To(address) => {
            text.extend_from_slice(b"to ")?;
            add_address(text, names, address)
        }
        Part::Of(word, number) => {
            text.extend_from_slice(word.as_bytes())?;
            text.push(b' ')?;
            add_number(text, number as usize)
        }
        Part::Else(skip) => {
            text.extend_from_slice(b"else to ")?;
            add_number(text, place.saturating_add(1).saturating_add(skip as usize))
        }
        Part::Back(back) => {
            text.extend_from_slice(b"back to ")?;
            add_number(text, place.saturating_sub(back as usize))
        }
        Part::Word(word) => text.extend_from_slice(word.as_bytes()),
    }
}

// What an instruction is called, and what it works on.
fn add_detail(
    text: &mut Vec<u8>,
    names: AddressNames,
    place: usize,
    detail: &Detail,
) -> Result<(), AllocError> {
    let name = detail.name.as_bytes();
    text.extend_from_slice(name)?;
    let mut is_first = true;
    for part in &detail.parts {
        if let Part::Nothing = part {
            continue;
        }
        if is_first {
            add_blanks(text, name.len(), NAME_WIDTH)?;
        } else {
            text.extend_from_slice(b", ")?;
        }
        is_first = false;
        add_part(text, names, place, *part)?;
    }
    Ok(())
}

// Bytes but for line feeds.
fn add_words(text: &mut Vec<u8>, words: &[u8]) -> Result<(), AllocError>
    ensures { OnOk result (text.new.items ≡ text.old.items ++ without_feeds words.now) }
{
    for word in words {
        if *word != b'\n' {
            text.push(*word)?;
        }
    }
    Ok(())
}

// A line: its number, a blank, and these words.
fn add_line(text: &mut Vec<u8>, place: usize, words: &[u8]) -> Result<(), AllocError>
    ensures { OnOk result (IsLine text.old.items place text.new.items) }
{
    add_number(text, place)?;
    text.push(b' ')?;
    add_words(text, words)?;
    text.push(b'\n')?;
    Ok(())
}

// What comes after the number of an instruction and a blank: what it is called, and what it works on, in their columns.
fn words_of(
    alloc: Global,
    names: AddressNames,
    place: usize,
    instruction: &Instruction,
) -> Result<Vec<u8>, AllocError> {
    let mut words = Vec::new(alloc);
    add_blanks(&mut words, Buffer::new().format(place).len(), NUMBER_WIDTH)?;
    add_detail(&mut words, names, place, &detail_of(instruction))?;
    Ok(words)
}

/// A line for each instruction: its number from 0, a blank, what it is called, and what it works on. The error comes where
/// memory was refused.
pub fn listing(
    alloc: Global,
    instructions: &[Instruction],
    constants: &[Value],
    globals: usize,
) -> Result<Vec<u8>, AllocError>
    ensures { IfOk result (λ text. AreLines (length instructions.now) text.items) }
{
    let names = AddressNames { constants, globals };
    let mut text = Vec::new(alloc);
    for (place, instruction) in instructions.iter().enumerate() {
        let words = words_of(alloc, names, place, instruction)?;
        add_line(&mut text, place, &words)?;
    }
    Ok(text)
}
