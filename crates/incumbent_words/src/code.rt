// A value as the code that stands in a word: larger values have larger codes, and no value has the largest.
ghost use Rattle.std.specs.Prelude.{◌≡◌, ◌<◌, ◌≤◌, ◌^◌, true, false, IfSome};
ghost use Rattle.incumbent_words.specs.Codes.{code, code_of, IsCode, IsValue};

/// The code of no value, which is above all others.
pub const NO_VALUE: u64 = u64::MAX;

const MIDDLE: i64 = 1 << 60;

/// The code of a value.
pub fn encode(value: i64) -> u64
    requires { IsValue value }
    ensures value { result ≡ code value }
    ensures range { result ≤ 2 ^ 61 }
{
    (value + MIDDLE) as u64
}

/// The value of a code.
pub fn decode(word: u64) -> Option<i64>
    requires { IsCode word }
    ensures value { code_of result ≡ word }
    ensures range { IfSome result IsValue }
{
    if word == NO_VALUE {
        None
    } else {
        Some(word as i64 - MIDDLE)
    }
}

/// Whether the value, within 2^60 of 0, is less than the best one. None is above every value.
pub fn beats(value: i64, best: Option<i64>) -> bool
    requires { IsValue value }
    ensures less { result ≡ true → code value < code_of best }
    ensures most { result ≡ false → code_of best ≤ code value }
{
    match best {
        Some(best) => value < best,
        None => true,
    }
}
