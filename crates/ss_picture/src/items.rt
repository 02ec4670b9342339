ghost use Rattle.std.specs.Prelude.{◌≡◌, ℕ, length, nat_le};
ghost use Rattle.ss_picture.specs.Pictures.{at_right as right, at_left as left, shown_characters};
ghost use Rattle.ss_picture.specs.Suited.{IsSuitedItem};
ghost use Rattle.ss_picture.specs.declared.items.Item.TheVariants.{Is};

use crate::means::fill_mean;
use itoa::Buffer;
use ss_base::Value;

/// What a field of a line shows.
#[derive(Clone, Copy, Debug, PartialEq, Eq)]
pub enum Item {
    /// A value, in a field without decimals: a number at the right, a text at the left.
    Is(Value),
    /// A mean, as a sum and the number by which it is divided.
    ///
    /// It is rounded to the decimals of its field, to none in a field without any; a half goes away
    /// from zero. Where the number is 0 the mean is zero.
    Mean(i128, i64),
}

// Writes an item to its field, which has so many decimals.
pub(crate) fn fill_field(field: &mut [u8], decimals: usize, item: &Item)
    requires { IsSuitedItem decimals item.now }
    ensures { field.new ≡ shown_characters field.old decimals item.now }
{
    match item {
        Item::Is(value) => fill_value(field, value),
        Item::Mean(sum, number) => fill_mean(field, decimals, *sum, *number),
    }
}

// Writes a value to its field: a whole number to the right end, a text to the left.
#[tactic(auto, using(crate::proofs::Decimal::whole_text_is_signed_decimal))]
fn fill_value(field: &mut [u8], value: &Value)
    ensures { (decimals : ℕ) → field.new ≡ shown_characters field.old decimals (Is value.now) }
{
    match value {
        Value::Whole(number) => at_right(field, Buffer::new().format(*number).as_bytes()),
        Value::Text(text) => at_left(field, text.bytes()),
    }
}

// Writes a text to the right end of a field. Where it doesn't fit, the field stays as it is.
fn at_right(field: &mut [u8], text: &[u8])
    ensures { field.new ≡ right field.old text.now }
{
    if !has_room(field, text) {
        return;
    }
    let blanks = field.len() - text.len();
    field[..blanks].fill(b' ');
    field[blanks..].copy_from_slice(text);
}

// Writes a text to the left end of a field. Where it doesn't fit, the field stays as it is.
fn at_left(field: &mut [u8], text: &[u8])
    ensures { field.new ≡ left field.old text.now }
{
    if !has_room(field, text) {
        return;
    }
    let end = text.len();
    field[..end].copy_from_slice(text);
    field[end..].fill(b' ');
}

// Whether a text fits in a field.
fn has_room(field: &[u8], text: &[u8]) -> bool
    ensures { result ≡ nat_le (length text.now) (length field.now) }
{
    text.len() <= field.len()
}
