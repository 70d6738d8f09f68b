// Decimal number texts.
ghost use Rattle.std.specs.Prelude.{◌≡◌, ◌<◌, ◌^◌, unsigned_abs, IfOk};
ghost use Rattle.num_text.specs.NumberText.{number_of};

use crate::parts::{
    are_digits, begins_with_minus, behind_sign, read_exponent, split_exponent, split_point,
};
use crate::value::value_of;
use thiserror::Error;

/// Why a text isn't read as a number.
#[derive(Clone, Copy, Debug, PartialEq, Eq, Error)]
pub enum NumberError {
    /// The text isn't a number text.
    #[error("not a number")]
    NotNumber,
    /// The value isn't whole.
    #[error("not a whole number")]
    Fraction,
    /// The value is whole, and above 2^63 - 1 in absolute value.
    #[error("a number above 2^63 - 1 in absolute value")]
    TooWide,
}

/// The value of a number text: an optional sign, digits with at most one point among, before or
/// behind them, and optionally `e` or `E` with an exponent, which is an optional sign and digits.
pub fn read_number(text: &[u8]) -> Result<i64, NumberError>
    ensures value { result ≡ number_of text.now }
    ensures within { IfOk result (λ v. unsigned_abs v < 2 ^ 63) }
{
    let (mantissa, exponent) = split_exponent(behind_sign(text));
    let (whole, behind) = split_point(mantissa);
    let Some(exponent) = read_exponent(exponent) else {
        return Err(NumberError::NotNumber);
    };
    if are_digits(whole, behind) {
        value_of(begins_with_minus(text), whole, behind, exponent)
    } else {
        Err(NumberError::NotNumber)
    }
}

#[cfg(test)]
mod tests;
