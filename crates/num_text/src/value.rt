// The value of digits with a point and an exponent.
ghost use Rattle.std.specs.Prelude.{◌≡◌, ◌+◌, ◌-◌, ◌*◌, ◌^◌, ◌<◌, ◌≤◌, ◌-ℤ◌, ◌++◌, pos, true, min, length, take, drop};
ghost use Rattle.std.specs.List.{list_all};
ghost use Rattle.std.specs.Char.{is_ascii_digit};
ghost use Rattle.num_text.specs.NumberText.{digits_after, digits_number, fitting, unless_fraction, whole_of, with_sign};
ghost use Rattle.num_text.specs.Held.{held};

use crate::number::NumberError;
use crate::parts::Exponent;

// 10^20 is above every number of 64 bits.
const MOST_ZEROS: u64 = 20;

// The number of some digits behind those that gave `start`.
fn number_after(start: u64, digits: &[u8]) -> u64
    ensures { result ≡ held (digits_after start digits.now) }
{
    let mut number = start;
    for &digit in digits {
        number = number
            .saturating_mul(10)
            .saturating_add(u64::from(digit.saturating_sub(b'0')));
    }
    number
}

fn number_of_both(front: &[u8], back: &[u8]) -> u64
    ensures { result ≡ held (digits_number (front.now ++ back.now)) }
{
    number_after(number_after(0, front), back)
}

fn fitted(negative: bool, number: u64) -> Result<i64, NumberError>
    ensures { result ≡ fitting negative number }
{
    if number > i64::MAX as u64 {
        return Err(NumberError::TooWide);
    }
    let value = number as i64;
    if negative { Ok(-value) } else { Ok(value) }
}

// The value of a number with another one past the point.
fn whole_value(negative: bool, number: u64, past: u64) -> Result<i64, NumberError>
    ensures { result ≡ unless_fraction negative number past }
{
    if past == 0 {
        fitted(negative, number)
    } else {
        Err(NumberError::Fraction)
    }
}

// The value where the point moves to the front by some places.
fn value_below(negative: bool, whole: &[u8], behind: &[u8], places: u64) -> Result<i64, NumberError>
    ensures { result ≡ unless_fraction negative (digits_number (take (length whole.now - places) whole.now)) (digits_number (drop (length whole.now - places) whole.now ++ behind.now)) }
{
    let point = whole.len().saturating_sub(places as usize);
    let (before, past) = whole.split_at(point);
    whole_value(
        negative,
        number_after(0, before),
        number_of_both(past, behind),
    )
}

// The value where the point moves to the back by some places, and digits stand there.
fn value_within(
    negative: bool,
    whole: &[u8],
    behind: &[u8],
    places: usize,
) -> Result<i64, NumberError>
    requires { places ≤ length behind.now }
    ensures { result ≡ unless_fraction negative (digits_number (whole.now ++ take places behind.now)) (digits_number (drop places behind.now)) }
{
    let (before, past) = behind.split_at(places);
    whole_value(
        negative,
        number_of_both(whole, before),
        number_after(0, past),
    )
}

// The value where the point moves behind the last digit and over some zeros.
fn value_past(negative: bool, whole: &[u8], behind: &[u8], zeros: u64) -> Result<i64, NumberError>
    ensures { result ≡ fitting negative (digits_number (whole.now ++ behind.now) * 10 ^ min zeros 20) }
{
    let power = 10u64.saturating_pow(zeros.min(MOST_ZEROS) as u32);
    fitted(
        negative,
        number_of_both(whole, behind).saturating_mul(power),
    )
}

/// The value of the digits before and behind the point, where it is whole and fits.
pub fn value_of(
    negative: bool,
    whole: &[u8],
    behind: &[u8],
    exponent: Exponent<'_>,
) -> Result<i64, NumberError>
    requires digits { list_all is_ascii_digit (whole.now ++ behind.now) ≡ true }
    requires exponent_digits { list_all is_ascii_digit exponent.digits.now ≡ true }
    requires room { length whole.now + length behind.now + length exponent.digits.now < 2 ^ 64 }
    ensures { result ≡ whole_of negative (digits_number (whole.now ++ behind.now)) (with_sign exponent.entry.negative (digits_number exponent.entry.digits.now) -ℤ pos (length behind.now)) }
{
    let power = number_after(0, exponent.digits);
    let places = behind.len() as u64;
    if exponent.negative {
        value_below(negative, whole, behind, power)
    } else if power <= places {
        value_within(negative, whole, behind, power as usize)
    } else {
        value_past(negative, whole, behind, power - places)
    }
}
