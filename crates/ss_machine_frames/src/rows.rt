//! The rows in which values lie.

ghost use Rattle.std.specs.Prelude.{◌≡◌, [], ◌∷◌, ◌++◌, ◌+◌, ◌<◌, ◌≤◌, ◌^◌, length, Some, slice_get, OnOk, OnErr};
ghost use Rattle.ss_machine_frames.specs.Rows.{TwoRows, place_at, with_number, with_text, with_last, cleared, AreGrown, IsTurned, IsMovedDown, AreYielded};

use ss_base::{Alpha, Mode, Value};
use ss_code_instructions::address::Address;
use std::alloc::{AllocError, Global};
use std::marker::Model;

/// The values of a run: whole numbers in one row, texts in another, of the same length. The global variables come first, then
/// the constants, then the frames of open calls. Of each place only the row of its mode matters.
#[derive(Drop)]
pub struct Rows {
    numbers: Vec<i64>,
    texts: Vec<Alpha>,
}

impl Model for Rows {
    ghost use Rattle.std.specs.Prelude.{◌≡◌, length};
    ghost use Rattle.ss_machine_frames.specs.Rows.{TwoRows};

    ghost Value = { TwoRows };

    ghost view = { λ r. record { numbers = r.numbers.items; texts = r.texts.items } };

    ghost invariant = { λ r. length r.texts.items ≡ length r.numbers.items };
}

/// The place of an address, where the frame begins here.
#[inline(always)]
pub fn place_of(frame: usize, address: &Address) -> usize
    requires { place_at frame address.now < 2 ^ 64 }
    ensures { result ≡ place_at frame address.now }
{
    (frame & address.mask) + address.number
}

// So many items of a row from a place on change their order.
fn turn<T>(row: &mut [T], from: usize, count: usize)
    requires { from + count ≤ length row.old }
    ensures { IsTurned row.old row.new from count }
{
    row[from..from + count].reverse();
}

// So many items of a row from a place on go down to another one.
fn move_down<T: Copy>(row: &mut [T], from: usize, to: usize, count: usize)
    requires down { to ≤ from }
    requires within { from + count ≤ length row.old }
    ensures { IsMovedDown row.old row.new from to count }
{
    for i in 0..count {
        row[to + i] = row[from + i];
    }
}

// Variables of these modes, from a place on, hold 0 or the empty text.
#[inline(always)]
fn clear_rows(numbers: &mut [i64], texts: &mut [Alpha], from: usize, modes: &[Mode])
    requires long { length texts.old ≡ length numbers.old }
    requires within { from + length modes.now ≤ length numbers.old }
    ensures { record { numbers = numbers.new; texts = texts.new } ≡ cleared (record { numbers = numbers.old; texts = texts.old }) from modes.now }
{
    let mut place = from;
    for mode in modes {
        match mode {
            Mode::Integer => numbers[place] = 0,
            Mode::Alpha => texts[place] = Alpha::empty(),
        }
        place += 1;
    }
}

impl Rows {
    /// No place yet.
    pub fn new(alloc: Global) -> Rows
        ensures { result ≡ record { numbers = []; texts = [] } }
    {
        Rows {
            numbers: Vec::new(alloc),
            texts: Vec::new(alloc),
        }
    }

    /// How many places there are.
    #[inline(always)]
    pub fn len(&self) -> usize
        ensures numbers { result ≡ length self.now.numbers }
        ensures texts { result ≡ length self.now.texts }
        ensures small { result < 2 ^ 63 }
    {
        self.numbers.as_slice().len()
    }

    // One place more, which holds this number and this text.
    fn push_both(&mut self, number: i64, text: Alpha) -> Result<(), AllocError>
        ensures ok { OnOk result (self.new ≡ record { numbers = self.old.numbers ++ number ∷ []; texts = self.old.texts ++ text ∷ [] }) }
        ensures err { OnErr result (self.new ≡ self.old) }
    {
        self.numbers.reserve(1)?;
        self.texts.reserve(1)?;
        self.numbers.push_reserved(number);
        self.texts.push_reserved(text);
        Ok(())
    }

    /// One place more, which holds a value. The error comes where memory was refused, and then nothing changes.
    pub fn push(&mut self, value: Value) -> Result<(), AllocError>
        ensures ok { OnOk result (self.new ≡ with_last self.old value) }
        ensures err { OnErr result (self.new ≡ self.old) }
    {
        match value {
            Value::Whole(number) => self.push_both(number, Alpha::empty()),
            Value::Text(text) => self.push_both(0, text),
        }
    }

    /// At least so many places. The error comes where memory was refused. Then there may be more places than before.
    #[inline(never)]
    pub fn lengthen(&mut self, count: usize) -> Result<(), AllocError>
        ensures grown { AreGrown self.old self.new }
        ensures even { length self.new.texts ≡ length self.new.numbers }
        ensures room { OnOk result (count ≤ length self.new.numbers) }
        ensures small { OnOk result (count < 2 ^ 63) }
        ensures most { OnOk result (length self.old.numbers ≤ count → length self.new.numbers ≡ count) }
    {
        let _ = &self.numbers;
        while self.len() < count {
            self.push_both(0, Alpha::empty())?;
        }
        Ok(())
    }

    /// At least so many places, as `lengthen`. Where there are as many, nothing changes.
    #[inline(always)]
    pub fn reach(&mut self, count: usize) -> Result<(), AllocError>
        ensures grown { AreGrown self.old self.new }
        ensures even { length self.new.texts ≡ length self.new.numbers }
        ensures room { OnOk result (count ≤ length self.new.numbers) }
        ensures small { OnOk result (length self.new.numbers < 2 ^ 63) }
    {
        if self.len() < count {
            self.lengthen(count)?;
        }
        Ok(())
    }

    /// The number at a place.
    #[inline(always)]
    pub fn number_at(&self, place: usize) -> i64
        requires { place < length self.now.numbers }
        ensures { slice_get self.now.numbers place ≡ Some result }
    {
        self.numbers[place]
    }

    /// A number goes to a place.
    #[inline(always)]
    pub fn set_number_at(&mut self, place: usize, number: i64)
        requires { place < length self.old.numbers }
        ensures { self.new ≡ with_number self.old place number }
    {
        self.numbers[place] = number;
    }

    /// The text at a place.
    #[inline(always)]
    pub fn text_at(&self, place: usize) -> Alpha
        requires { place < length self.now.numbers }
        ensures { slice_get self.now.texts place ≡ Some result }
    {
        self.texts[place]
    }

    /// A text goes to a place.
    #[inline(always)]
    pub fn set_text_at(&mut self, place: usize, text: Alpha)
        requires { place < length self.old.numbers }
        ensures { self.new ≡ with_text self.old place text }
    {
        self.texts[place] = text;
    }

    /// The number at an address.
    #[inline(always)]
    pub fn number(&self, frame: usize, address: &Address) -> i64
        requires { place_at frame address.now < length self.now.numbers }
        ensures { slice_get self.now.numbers (place_at frame address.now) ≡ Some result }
    {
        self.numbers[place_of(frame, address)]
    }

    /// A number goes to an address.
    #[inline(always)]
    pub fn set_number(&mut self, frame: usize, address: &Address, number: i64)
        requires { place_at frame address.now < length self.old.numbers }
        ensures { self.new ≡ with_number self.old (place_at frame address.now) number }
    {
        self.numbers[place_of(frame, address)] = number;
    }

    /// The text at an address.
    #[inline(always)]
    pub fn text(&self, frame: usize, address: &Address) -> Alpha
        requires { place_at frame address.now < length self.now.numbers }
        ensures { slice_get self.now.texts (place_at frame address.now) ≡ Some result }
    {
        self.texts[place_of(frame, address)]
    }

    /// A text goes to an address.
    #[inline(always)]
    pub fn set_text(&mut self, frame: usize, address: &Address, text: Alpha)
        requires { place_at frame address.now < length self.old.numbers }
        ensures { self.new ≡ with_text self.old (place_at frame address.now) text }
    {
        self.texts[place_of(frame, address)] = text;
    }

    /// Variables of these modes, from a place on, hold 0 or the empty text.
    #[inline(always)]
    pub fn clear(&mut self, from: usize, modes: &[Mode])
        requires { from + length modes.now ≤ length self.old.numbers }
        ensures { self.new ≡ cleared self.old from modes.now }
    {
        clear_rows(&mut self.numbers, &mut self.texts, from, modes);
    }

    /// So many values from a place on go down to another one, the first of them on top.
    pub fn yield_down(&mut self, from: usize, to: usize, count: usize)
        requires down { to ≤ from }
        requires within { from + count ≤ length self.old.numbers }
        ensures { AreYielded self.old self.new from to count }
    {
        turn(&mut self.numbers, from, count);
        turn(&mut self.texts, from, count);
        move_down(&mut self.numbers, from, to, count);
        move_down(&mut self.texts, from, to, count);
    }
}
