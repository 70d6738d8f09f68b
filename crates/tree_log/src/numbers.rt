// Numbers in their one spelling.
ghost use Rattle.std.specs.Prelude.{◌≡◌, ◌<◌, ◌≤◌, ◌^◌, IfSome, unsigned_abs};
ghost use Rattle.std.specs.List.{list_all};
ghost use Rattle.std.specs.Char.{is_ascii_digit};
ghost use Rattle.num_text.specs.NumberText as text;
ghost use Rattle.tree_log.specs.LineWords as words;

use num_text::read_number;

fn are_all_digits(bytes: &[u8]) -> bool
    ensures { result ≡ list_all is_ascii_digit bytes.now }
{
    bytes.iter().all(|b| b.is_ascii_digit())
}

// One digit, or more that don't begin with 0.
fn are_canonical_digits(bytes: &[u8]) -> bool
    ensures { result ≡ text.is_canonical_digits bytes.now }
{
    match bytes {
        [] => false,
        [byte] => byte.is_ascii_digit(),
        [first, _, ..] => *first != b'0' && are_all_digits(bytes),
    }
}

// A minus or none and such digits, and no minus before 0.
fn is_canonical(bytes: &[u8]) -> bool
    ensures { result ≡ text.is_canonical bytes.now }
{
    match bytes {
        [b'-', digits @ ..] => are_canonical_digits(digits) && digits != b"0".as_slice(),
        _ => are_canonical_digits(bytes),
    }
}

// The number whose decimal text this is, None where it is none or too wide.
fn integer(bytes: &[u8]) -> Option<i64>
    ensures { result ≡ words.integer_of bytes.now }
{
    if !is_canonical(bytes) {
        return None;
    }
    match read_number(bytes) {
        Ok(number) => Some(number),
        Err(_) => None,
    }
}

/// The count below a limit whose decimal text this is.
pub(crate) fn below(limit: u32, bytes: &[u8]) -> Option<u32>
    ensures value { result ≡ words.below_of limit bytes.now }
    ensures limit { IfSome result (λ n. n < limit) }
{
    let number = integer(bytes)?;
    if number < 0 || number >= i64::from(limit) {
        return None;
    }
    Some(number as u32)
}

/// The number within ± a limit whose decimal text this is.
pub(crate) fn within(most: u64, bytes: &[u8]) -> Option<i64>
    ensures value { result ≡ words.within_of most bytes.now }
    ensures limit { IfSome result (λ z. unsigned_abs z ≤ most) }
{
    let number = integer(bytes)?;
    if number.unsigned_abs() > most {
        return None;
    }
    Some(number)
}

/// The number within ±1,000,000 whose decimal text this is.
pub(crate) fn point_number(bytes: &[u8]) -> Option<i32>
    ensures value { result ≡ words.within_of 1000000 bytes.now }
    ensures limit { IfSome result (λ z. unsigned_abs z ≤ 1000000) }
{
    let number = within(1_000_000, bytes)?;
    Some(number as i32)
}
