// Levels raised by verdicts.
ghost use Rattle.std.specs.Prelude.{◌≡◌, ◌≤◌, true, false, Some, None, length, vec_capacity, All};
ghost use Rattle.tighten.specs.Steps.{IsStep};
ghost use Rattle.scenario_changes.specs.Problems as problems;
ghost use Rattle.certs.specs.Trees.{of_live, raised};
ghost use Rattle.certs.specs.Verdicts.{AllRowsBelow};

use crate::{Cert, Level, Levels, VectorShares, Verdicts, judge, live_level};
use int_model::PointBox;
use live_sets::LiveSet;
use scenario_changes::Problem;

/// Puts the level of each live scenario, raised by its verdict, into the list, and None for the others.
/// False where a verdict isn't valid, is missing or is one too many. It takes no memory: the list has room
/// for all scenarios.
///
/// Its time is that of one [`judge`] for each live scenario, and of one pass over the rows of the vectors.
#[tactic(auto, using(crate::proofs::RaiseLaws::raise_short, crate::proofs::RaiseLaws::raise_missing, crate::proofs::RaiseLaws::raise_bad))]
pub fn raise(
    problem: &Problem,
    bounds: &PointBox,
    live: LiveSet,
    levels: &Levels,
    cert: &Cert,
    verdicts: &Verdicts,
    out: &mut Vec<Option<Level>>,
    scratch: &mut PointBox,
) -> bool
    requires room { length (problems.problem problem.now).scenarios ≤ vec_capacity out.old }
    requires columns { length bounds.now ≡ length problem.now.model.columns }
    requires steps { All (IsStep problem.now.model) cert.now.steps }
    requires vectors { AllRowsBelow (length problem.now.model.rows) cert.now.vectors }
    requires scratch { length scratch.old ≡ length problem.now.model.columns }
    ensures scratch { length scratch.new ≡ length problem.now.model.columns }
    ensures room { vec_capacity out.new ≡ vec_capacity out.old }
    ensures yes { result ≡ true → raised bounds.now cert.now (problems.problem problem.now).scenarios (of_live live 0 levels.now) verdicts.now ≡ Some out.new.items }
    ensures many { result ≡ true → length out.new.items ≡ length (problems.problem problem.now).scenarios }
    ensures no { result ≡ false → raised bounds.now cert.now (problems.problem problem.now).scenarios (of_live live 0 levels.now) verdicts.now ≡ None }
{
    out.clear();
    let shares = VectorShares::of(problem.model(), &cert.vectors);
    let mut rest = verdicts.as_slice();
    for k in 0..problem.count() {
        if k as usize >= levels.len() {
            return false;
        }
        match live_level(live, levels, k) {
            None => out.push_reserved(None),
            Some(level) => match rest.split_first() {
                None => return false,
                Some((verdict, others)) => match judge(
                    problem, k, bounds, cert, &shares, *verdict, scratch,
                ) {
                    None => return false,
                    Some(more) => {
                        out.push_reserved(Some(level.greater_level(more)));
                        rest = others;
                    }
                },
            },
        }
    }
    rest.is_empty()
}
