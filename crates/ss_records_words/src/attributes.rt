// The values of attributes, in two words of a block each. A whole number has the first alone: the second is neither
// read nor written.
ghost use Rattle.std.specs.Prelude.{◌≡◌, ◌+◌, ◌^◌, ◌<◌};
ghost use Rattle.ss_records_blocks.specs.Cells.{IsNumber, word_at};
ghost use Rattle.ss_records_words.specs.Reading.{value_at, IsValuePut};

use crate::words;
use ss_base::{Alpha, Mode, Value};
use ss_records_blocks::{BlockPlace, Blocks};

/// The value in a word and the next.
#[inline(always)]
pub fn value(blocks: &Blocks, place: BlockPlace, k: usize, mode: Mode) -> Value
    requires first { IsNumber (word_at blocks.now.cells place.at k) }
    requires second { IsNumber (word_at blocks.now.cells place.at (k + 1)) }
    requires room { k + 1 < 2 ^ 64 }
    ensures { result ≡ value_at mode blocks.now.cells place.at k }
{
    match mode {
        Mode::Integer => words::whole_in(blocks.number(place, k)),
        Mode::Alpha => Value::Text(text(blocks, place, k)),
    }
}

/// The whole number in a word.
#[inline(always)]
pub fn whole(blocks: &Blocks, place: BlockPlace, k: usize) -> i64
    requires { IsNumber (word_at blocks.now.cells place.at k) }
    ensures { Value.Whole result ≡ value_at Mode.Integer blocks.now.cells place.at k }
{
    blocks.number(place, k).cast_signed()
}

/// The text in a word and the next.
#[inline(never)]
pub fn text(blocks: &Blocks, place: BlockPlace, k: usize) -> Alpha
    requires first { IsNumber (word_at blocks.now.cells place.at k) }
    requires second { IsNumber (word_at blocks.now.cells place.at (k + 1)) }
    requires room { k + 1 < 2 ^ 64 }
    ensures { Value.Text result ≡ value_at Mode.Alpha blocks.now.cells place.at k }
{
    let first = blocks.number(place, k);
    let second = blocks.number(place, k + 1);
    words::text_in(first, second)
}

/// Writes a value into a word and the next.
#[inline(always)]
pub fn set_value(blocks: &mut Blocks, place: BlockPlace, k: usize, value: Value)
    requires first { IsNumber (word_at blocks.old.cells place.at k) }
    requires second { IsNumber (word_at blocks.old.cells place.at (k + 1)) }
    requires room { k + 1 < 2 ^ 64 }
    ensures written { IsValuePut blocks.old.cells blocks.new.cells place.at k value }
    ensures touches { (blocks.new.touches ≡ blocks.old.touches) × (blocks.new.total ≡ blocks.old.total) }
{
    match value {
        Value::Whole(number) => set_whole(blocks, place, k, number),
        Value::Text(text) => set_text(blocks, place, k, text),
    }
}

/// Writes a whole number into a word.
#[inline(always)]
pub fn set_whole(blocks: &mut Blocks, place: BlockPlace, k: usize, number: i64)
    requires first { IsNumber (word_at blocks.old.cells place.at k) }
    requires second { IsNumber (word_at blocks.old.cells place.at (k + 1)) }
    ensures written { IsValuePut blocks.old.cells blocks.new.cells place.at k (Value.Whole number) }
    ensures touches { (blocks.new.touches ≡ blocks.old.touches) × (blocks.new.total ≡ blocks.old.total) }
{
    blocks.set_number(place, k, words::whole_word(number));
}

// Writes a text into a word and the next.
#[inline(never)]
fn set_text(blocks: &mut Blocks, place: BlockPlace, k: usize, text: Alpha)
    requires first { IsNumber (word_at blocks.old.cells place.at k) }
    requires second { IsNumber (word_at blocks.old.cells place.at (k + 1)) }
    requires room { k + 1 < 2 ^ 64 }
    ensures written { IsValuePut blocks.old.cells blocks.new.cells place.at k (Value.Text text) }
    ensures touches { (blocks.new.touches ≡ blocks.old.touches) × (blocks.new.total ≡ blocks.old.total) }
{
    let both = words::text_words(text);
    blocks.set_number(place, k, both.first);
    blocks.set_number(place, k + 1, both.second);
}
