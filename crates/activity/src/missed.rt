// Whether a row is missed by every point of a box.
ghost use Rattle.std.specs.Prelude.{◌≡◌, ◌≤◌, length};
ghost use Rattle.int_model.specs.Programs.{AreTerms};
ghost use Rattle.int_model.specs.RowSums.{misses_ends};

use crate::{least, most, sums};
use int_model::{Ends, PointBox};

/// Whether the sum of a row lies above its upper end, or below its lower end, everywhere in the box. A
/// row's terms are columns, which rise, and coefficients.
pub fn misses(terms: &[(u32, i64)], ends: Ends, bounds: &PointBox) -> bool
    requires few { length bounds.now ≤ 1000 }
    requires row { AreTerms 0 (length bounds.now) terms.now }
    ensures { result ≡ misses_ends terms.now ends bounds.now }
{
    let lows = bounds.lows();
    let highs = bounds.highs();
    match (ends.lower, ends.upper) {
        (None, None) => false,
        (None, Some(upper)) => upper < least(terms, lows, highs),
        (Some(lower), None) => most(terms, lows, highs) < lower,
        (Some(lower), Some(upper)) => {
            let (least, most) = sums(terms, lows, highs);
            upper < least || most < lower
        }
    }
}
