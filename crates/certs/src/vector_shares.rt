// The shares of a certificate's vectors.
ghost use Rattle.std.specs.Prelude.{◌≡◌, ◌<◌, length, slice_get, Some};
ghost use Rattle.dual_bounds.specs.Shared.{AreShares};
ghost use Rattle.dual_bounds.specs.Vectors.{Multipliers};
ghost use Rattle.certs.specs.Shared.{HaveShares, shares_at};
ghost use Rattle.certs.specs.Verdicts.{AllRowsBelow};

use crate::Vectors;
use dual_bounds::Shares;
use int_model::Model;

/// The shares of a certificate's vectors, summed once for all scenarios that are judged by it.
#[derive(Drop)]
pub struct VectorShares {
    first: Shares,
    second: Shares,
}

// The shares of vector k, none where there are no more than k.
fn shares_of(model: &Model, vectors: &Vectors, k: usize) -> Shares
    requires { AllRowsBelow (length model.now.rows) vectors.now }
    ensures { (v : Multipliers) → slice_get vectors.now k ≡ Some v → AreShares model.now v.entries result }
{
    match vectors.get(k) {
        Some(vector) => Shares::of(model, vector),
        None => Shares::none(),
    }
}

impl VectorShares {
    /// The shares of these vectors, from one pass over the rows of each one's entries. It takes no memory.
    pub fn of(model: &Model, vectors: &Vectors) -> VectorShares
        requires { AllRowsBelow (length model.now.rows) vectors.now }
        ensures { HaveShares model.now vectors.now result }
    {
        let _few = vectors.len();
        VectorShares {
            first: shares_of(model, vectors, 0),
            second: shares_of(model, vectors, 1),
        }
    }

    /// The shares of vector k, which is 0 or 1.
    pub fn get(&self, k: u32) -> &Shares
        ensures { result.now ≡ shares_at self.now k }
    {
        if k == 0 { &self.first } else { &self.second }
    }
}
