// What the fields of a line say.
ghost use Rattle.std.specs.Prelude.{◌≡◌, codes, bytes_eq};
ghost use Rattle.changes_reader.specs.Values as spec;

use crate::ChangesKind;
use int_model::Rhs;
use num_text::{NumberError, read_number};

/// The greatest number of scenarios.
const MAX_SCENARIOS: i64 = 64;

// The whole number of a text. The kind of one that is too wide is the caller's.
fn whole(text: &[u8], too_wide: ChangesKind) -> Result<i64, ChangesKind>
    ensures { result ≡ spec.whole too_wide text.now }
{
    match read_number(text) {
        Ok(number) => Ok(number),
        Err(NumberError::NotNumber) => Err(ChangesKind::Number),
        Err(NumberError::Fraction) => Err(ChangesKind::Fraction),
        Err(NumberError::TooWide) => Err(too_wide),
    }
}

/// The number of scenarios that a text says.
pub(crate) fn count_of(text: &[u8]) -> Result<u32, ChangesKind>
    ensures { result ≡ spec.count_of text.now }
{
    let count = whole(text, ChangesKind::Magnitude)?;
    if count < 0 {
        return Err(ChangesKind::Magnitude);
    }
    if count > MAX_SCENARIOS {
        return Err(ChangesKind::TooMany);
    }
    Ok(count as u32)
}

/// The number of a scenario that a text says, below the number of scenarios.
pub(crate) fn scenario_of(text: &[u8], count: u32) -> Result<u32, ChangesKind>
    ensures { result ≡ spec.scenario_of count text.now }
{
    let scenario = whole(text, ChangesKind::NoScenario)?;
    if scenario < 0 || scenario >= i64::from(count) {
        return Err(ChangesKind::NoScenario);
    }
    Ok(scenario as u32)
}

/// The number that a text sets, None where it says `undefined`.
pub(crate) fn value_of(text: &[u8]) -> Result<Option<i64>, ChangesKind>
    ensures { result ≡ spec.value_of text.now }
{
    if text == b"undefined".as_slice() {
        return Ok(None);
    }
    Ok(Some(whole(text, ChangesKind::Magnitude)?))
}

/// The right-hand side that a text sets: a number, `inf` or `-inf`, and None where it says `undefined`.
pub(crate) fn rhs_of(text: &[u8]) -> Result<Option<Rhs>, ChangesKind>
    ensures { result ≡ spec.rhs_of text.now }
{
    if text == b"inf".as_slice() {
        return Ok(Some(Rhs::Inf));
    }
    if text == b"-inf".as_slice() {
        return Ok(Some(Rhs::MinusInf));
    }
    match value_of(text)? {
        Some(number) => Ok(Some(Rhs::Value(number))),
        None => Ok(None),
    }
}
