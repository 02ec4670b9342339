ghost use Rattle.std.specs.Prelude.{◌≡◌, ℕ, ◌+◌, ◌*◌, ◌/◌, ◌^◌, ◌<◌, ◌≤◌, ◌++◌, length, unsigned_abs};
ghost use Rattle.ss_picture.specs.Numerals.{fraction_text, last_digits, mean_text, mean_units, sign_of, with_sign};
ghost use Rattle.ss_picture.specs.Pictures.{at_right};
ghost use Rattle.ss_picture.specs.Suited.{IsMean};

use itoa::Buffer;

// Writes a mean, rounded to so many decimals, to the right end of a field. Where it doesn't fit, the field stays as it is.
pub(crate) fn fill_mean(field: &mut [u8], decimals: usize, sum: i128, number: i64)
    requires decimals { decimals ≤ 9 }
    requires mean { IsMean sum number }
    ensures { field.new ≡ at_right field.old (mean_text decimals sum number) }
{
    let units = units_of(decimals, sum, number);
    let scale = scale_of(decimals);
    let mut buffer = Buffer::new();
    let whole = buffer.format(units / scale).as_bytes();
    let fraction = (units % scale) as u64;
    fill_decimal(field, sign(sum, units), whole, decimals, fraction);
}

// The sign of a mean that is so many units from zero, by its sum.
fn sign(sum: i128, units: u128) -> &'static [u8]
    ensures value { result.now ≡ sign_of (with_sign sum units) }
    ensures short { length result.now ≤ 1 }
{
    if 0 <= sum || units == 0 { b"" } else { b"-" }
}

// How many units of its last decimal a mean is from zero.
fn units_of(decimals: usize, sum: i128, number: i64) -> u128
    requires decimals { decimals ≤ 9 }
    requires mean { IsMean sum number }
    ensures { result ≡ unsigned_abs (mean_units decimals sum number) }
{
    if number == 0 {
        return 0;
    }
    divided(sum.unsigned_abs(), number as u128, scale_of(decimals))
}

// How many units of the last decimal are one.
fn scale_of(decimals: usize) -> u128
    requires { decimals ≤ 9 }
    ensures value { result ≡ 10 ^ decimals }
    ensures some { 0 < result }
    ensures small { result ≤ 10 ^ 9 }
{
    10u128.pow(decimals as u32)
}

// A size divided by a number, in units of which so many are one, and rounded: of two that are as near the greater. The whole
// part is scaled apart from the rest, so that no product is too large.
fn divided(size: u128, number: u128, scale: u128) -> u128
    requires some { 0 < number }
    requires number { number < 2 ^ 63 }
    requires size { size ≤ 2 ^ 63 * number }
    requires scale { scale ≤ 10 ^ 9 }
    ensures { result ≡ (2 * size * scale + number) / (2 * number) }
{
    let whole = size / number;
    let rest = size % number;
    let rounded = (2 * rest * scale + number) / (2 * number);
    whole * scale + rounded
}

// Writes a number with decimals to the right end of a field: its sign, the digits before the period, and after it so many
// digits of `fraction`. Where it doesn't fit, the field stays as it is.
fn fill_decimal(field: &mut [u8], sign: &[u8], whole: &[u8], decimals: usize, fraction: u64)
    requires sign { length sign.now ≤ 1 }
    requires whole { length whole.now ≤ 40 }
    requires decimals { decimals ≤ 9 }
    ensures { field.new ≡ at_right field.old (sign.now ++ (whole.now ++ fraction_text decimals fraction)) }
{
    let width = sign.len() + whole.len() + fraction_width(decimals);
    if field.len() < width {
        return;
    }
    let blanks = field.len() - width;
    field[..blanks].fill(b' ');
    write_signed(&mut field[blanks..], sign, whole, decimals, fraction);
}

// How wide a period and so many decimals are; no decimals have no period.
fn fraction_width(decimals: usize) -> usize
    requires { decimals ≤ 9 }
    ensures value { (n : ℕ) → result ≡ length (fraction_text decimals n) }
    ensures small { result ≤ 10 }
{
    if decimals == 0 { 0 } else { decimals + 1 }
}

// Writes a sign, digits, and a period and decimals, to a place that they fill.
fn write_signed(place: &mut [u8], sign: &[u8], whole: &[u8], decimals: usize, fraction: u64)
    requires { length place.old ≡ length (sign.now ++ (whole.now ++ fraction_text decimals fraction)) }
    ensures { place.new ≡ sign.now ++ (whole.now ++ fraction_text decimals fraction) }
{
    let end = sign.len();
    place[..end].copy_from_slice(sign);
    write_decimal(&mut place[end..], whole, decimals, fraction);
}

// Writes digits, and a period and decimals, to a place that they fill.
fn write_decimal(place: &mut [u8], whole: &[u8], decimals: usize, fraction: u64)
    requires { length place.old ≡ length (whole.now ++ fraction_text decimals fraction) }
    ensures { place.new ≡ whole.now ++ fraction_text decimals fraction }
{
    let end = whole.len();
    place[..end].copy_from_slice(whole);
    write_fraction(&mut place[end..], decimals, fraction);
}

// Writes a period and decimals to a place that they fill.
fn write_fraction(place: &mut [u8], decimals: usize, fraction: u64)
    requires { length place.old ≡ length (fraction_text decimals fraction) }
    ensures { place.new ≡ fraction_text decimals fraction }
{
    if decimals == 0 {
        return;
    }
    place[0] = b'.';
    write_digits(&mut place[1..], fraction);
}

// Fills a place with the last digits of a number.
fn write_digits(place: &mut [u8], number: u64)
    ensures { place.new ≡ last_digits (length place.old) number }
{
    let mut left = number;
    let mut end = place.len();
    while end > 0 {
        end -= 1;
        place[end] = b'0' + (left % 10) as u8;
        left /= 10;
    }
}
