// What the two words of a value mean: a whole number is the 64 bits of the first, a text is its bytes with zeros after them.
ghost use Rattle.std.specs.Prelude.{◌≡◌, ◌≤◌, ◌++◌, length, take};
ghost use Rattle.std.specs.Int.{w64, cast_signed, from_be_bytes, to_be_bytes};
ghost use Rattle.ss_base.specs.Room.{before_zero};
ghost use Rattle.ss_records_words.specs.Reading.{value_of_words};

use ss_base::{Alpha, Mode, TEXT_LIMIT, Value};

/// The words of a text: its first eight bytes, and the eight after them.
#[derive(Clone, Copy)]
pub struct TextWords {
    pub first: u64,
    pub second: u64,
}

/// The first word of a whole number. The second may be any.
#[inline(always)]
pub fn whole_word(number: i64) -> u64
    ensures { cast_signed w64 result ≡ number }
{
    number.cast_unsigned()
}

/// The whole number of a first word.
#[inline(always)]
pub fn whole_in(word: u64) -> Value
    ensures { result ≡ Value.Whole (cast_signed w64 word) }
{
    Value::Whole(word.cast_signed())
}

/// The words of a text.
pub fn text_words(text: Alpha) -> TextWords
    ensures { value_of_words Mode.Alpha result.first result.second ≡ Value.Text text }
{
    let bytes = text.bytes();
    let mut room = [0u8; TEXT_LIMIT];
    room[..bytes.len()].copy_from_slice(bytes);
    let first = word_of(&room[..8]);
    let second = word_of(&room[8..]);
    TextWords { first, second }
}

// The word of eight bytes.
fn word_of(bytes: &[u8]) -> u64
    requires { length bytes.now ≡ 8 }
    ensures { result ≡ from_be_bytes w64 bytes.now }
{
    let mut word = [0u8; 8];
    word.copy_from_slice(bytes);
    u64::from_be_bytes(word)
}

/// The text of two words.
pub fn text_in(first: u64, second: u64) -> Alpha
    ensures { Value.Text result ≡ value_of_words Mode.Alpha first second }
{
    let bytes = bytes_of(first, second);
    match Alpha::of(used(&bytes)) {
        Some(text) => text,
        None => Alpha::empty(),
    }
}

// The bytes of two words.
fn bytes_of(first: u64, second: u64) -> [u8; TEXT_LIMIT]
    ensures { result ≡ to_be_bytes w64 first ++ to_be_bytes w64 second }
{
    let mut bytes = [0u8; TEXT_LIMIT];
    bytes[..8].copy_from_slice(&first.to_be_bytes());
    bytes[8..].copy_from_slice(&second.to_be_bytes());
    bytes
}

// The bytes before the first zero.
fn used(bytes: &[u8]) -> &[u8]
    ensures { result.now ≡ before_zero bytes.now }
{
    &bytes[..end(bytes)]
}

// Where the first zero is.
fn end(bytes: &[u8]) -> usize
    ensures within { result ≤ length bytes.now }
    ensures value { take result bytes.now ≡ before_zero bytes.now }
{
    for (i, b) in bytes.iter().enumerate() {
        if *b == 0 {
            return i;
        }
    }
    bytes.len()
}
