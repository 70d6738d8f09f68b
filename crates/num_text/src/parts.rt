// The parts of a number text.
ghost use Rattle.std.specs.Prelude.{◌≡◌, ◌≤◌, ◌++◌, true, length, position, option_map, unwrap_or, IfSome};
ghost use Rattle.std.specs.List.{list_all, before_first, after_first};
ghost use Rattle.std.specs.Char as char;
ghost use Rattle.num_text.specs.NumberText as text;
ghost use Rattle.num_text.specs.Parts.{exponent_value};

/// The exponent of a number text: its sign and its digits, of which there are none where the text
/// has no exponent.
#[derive(Clone, Copy)]
pub struct Exponent<'a> {
    pub negative: bool,
    pub digits: &'a [u8],
}

pub fn begins_with_minus(bytes: &[u8]) -> bool
    ensures { result ≡ text.begins_with_minus bytes.now }
{
    match bytes {
        [b'-', ..] => true,
        _ => false,
    }
}

pub fn behind_sign(bytes: &[u8]) -> &[u8]
    ensures { result.now ≡ text.behind_sign bytes.now }
{
    match bytes {
        [b'+', unsigned @ ..] => unsigned,
        [b'-', unsigned @ ..] => unsigned,
        _ => bytes,
    }
}

fn is_exponent_mark(byte: u8) -> bool
    ensures { result ≡ text.is_exponent_mark byte }
{
    byte == b'e' || byte == b'E'
}

fn first_exponent_mark(bytes: &[u8]) -> Option<usize>
    ensures { result ≡ position text.is_exponent_mark bytes.now }
{
    bytes.iter().position(|b| is_exponent_mark(*b))
}

fn first_point(bytes: &[u8]) -> Option<usize>
    ensures { result ≡ position text.is_point bytes.now }
{
    bytes.iter().position(|b| *b == b'.')
}

/// The bytes before the first exponent mark, and those behind it where there is one.
pub fn split_exponent(bytes: &[u8]) -> (&[u8], Option<&[u8]>)
    ensures before { result.0.now ≡ before_first text.is_exponent_mark bytes.now }
    ensures behind { option_map (λ b. b.now) result.1 ≡ text.exponent_text bytes.now }
{
    match first_exponent_mark(bytes) {
        Some(place) => (&bytes[..place], Some(&bytes[place + 1..])),
        None => (bytes, None),
    }
}

/// The bytes before the first point, and those behind it.
pub fn split_point(bytes: &[u8]) -> (&[u8], &[u8])
    ensures before { result.0.now ≡ before_first text.is_point bytes.now }
    ensures behind { result.1.now ≡ after_first text.is_point bytes.now }
{
    match first_point(bytes) {
        Some(place) => (&bytes[..place], &bytes[place + 1..]),
        None => (bytes, &[]),
    }
}

fn are_all_digits(bytes: &[u8]) -> bool
    ensures { result ≡ list_all char.is_ascii_digit bytes.now }
{
    bytes.iter().all(|b| b.is_ascii_digit())
}

fn are_some_digits(bytes: &[u8]) -> bool
    ensures { result ≡ text.is_digits bytes.now }
{
    !bytes.is_empty() && are_all_digits(bytes)
}

/// Whether two texts together are one digit or more.
pub fn are_digits(front: &[u8], back: &[u8]) -> bool
    ensures { result ≡ text.is_digits (front.now ++ back.now) }
{
    if front.is_empty() {
        are_some_digits(back)
    } else {
        are_all_digits(front) && are_all_digits(back)
    }
}

/// The exponent that stands behind an exponent mark, or none where there is no mark.
pub fn read_exponent(behind: Option<&[u8]>) -> Option<Exponent<'_>>
    ensures value { option_map exponent_value result ≡ text.exponent_of (option_map (λ b. b.now) behind.entry) }
    ensures digits { IfSome result (λ e. list_all char.is_ascii_digit e.digits.now ≡ true) }
    ensures room { IfSome result (λ e. length e.digits.now ≤ unwrap_or (option_map (λ b. length b.now) behind.entry) 0) }
{
    let Some(bytes) = behind else {
        return Some(Exponent {
            negative: false,
            digits: &[],
        });
    };
    let digits = behind_sign(bytes);
    if are_some_digits(digits) {
        Some(Exponent {
            negative: begins_with_minus(bytes),
            digits,
        })
    } else {
        None
    }
}
