ghost use Rattle.std.specs.Prelude.{◌≡◌};
ghost use Rattle.ss_base.specs.Arithmetic.{plus_of, minus_of, times_of, quotient_of, remainder_of};

use crate::fault::FaultKind;

/// The sum of two numbers. Overflow where it does not fit 64 bits.
pub fn plus(x: i64, y: i64) -> Result<i64, FaultKind>
    ensures { result ≡ plus_of x y }
{
    x.checked_add(y).ok_or(FaultKind::Overflow)
}

/// The difference of two numbers. Overflow where it does not fit 64 bits.
pub fn minus(x: i64, y: i64) -> Result<i64, FaultKind>
    ensures { result ≡ minus_of x y }
{
    x.checked_sub(y).ok_or(FaultKind::Overflow)
}

/// The product of two numbers. Overflow where it does not fit 64 bits.
pub fn times(x: i64, y: i64) -> Result<i64, FaultKind>
    ensures { result ≡ times_of x y }
{
    x.checked_mul(y).ok_or(FaultKind::Overflow)
}

/// The quotient of two numbers, cut towards zero. ZeroDivisor where `y` is 0, and Overflow where the
/// quotient does not fit 64 bits, which is that of -2^63 and -1 alone.
pub fn div_f(x: i64, y: i64) -> Result<i64, FaultKind>
    ensures { result ≡ quotient_of x y }
{
    if y == 0 {
        return Err(FaultKind::ZeroDivisor);
    }
    x.checked_div(y).ok_or(FaultKind::Overflow)
}

/// What the quotient of two numbers leaves over, with the sign of `x`. ZeroDivisor where `y` is 0.
pub fn mod_f(x: i64, y: i64) -> Result<i64, FaultKind>
    ensures { result ≡ remainder_of x y }
{
    if y == 0 {
        return Err(FaultKind::ZeroDivisor);
    }
    Ok(x.wrapping_rem(y))
}
