// The probe of a node.
ghost use Rattle.std.specs.Prelude.{◌≡◌, ◌<◌, length, All, IfOk};
ghost use Rattle.std.specs.Arc.{arc_value};
ghost use Rattle.scenario_changes.specs.Problems.{problem as posed};
ghost use Rattle.bb_core.specs.Shared.{work_of};
ghost use Rattle.node_work.specs.Probes.{EachLive, IsGoodProbe, IsBestVerdict, HasAscent};

use crate::Probe;
use crate::bounding::{Bounding, bound_all};
use crate::dives::dive_open;
use crate::hints::hint_of;
use crate::remaining::Remaining;
use crate::splits::split_of;
use crate::standings::Standings;
use crate::steps::steps_over;
use crate::verdicts::judge_live;
use bb_core::Work;
use certs::{Cert, Steps, Vectors};
use scenario_changes::Problem;
use std::alloc::{AllocError, Global};

/// Tightens, bounds and judges the live scenarios of a node.
///
/// The probe is a good one. Over the scenarios whose replay isn't empty and that no row misses, the total
/// of its first vector is at least that of the vector without entries, and greater where some neighbour of
/// that has a greater one. The level of the verdict of each of them is at least the bound of each vector.
#[inline(never)]
pub fn probe(alloc: Global, problem: &Problem, work: &Work) -> Result<Probe, AllocError>
    requires columns { length (arc_value work.now.bounds) ≡ length problem.now.model.columns }
    requires live { All (λ s. s < length (posed problem.now).scenarios) work.now.live }
    ensures good { IfOk result (λ r. IsGoodProbe (posed problem.now) (work_of work.now) r.cert r.verdicts r.found.items) }
    ensures ascent { IfOk result (λ r. HasAscent (posed problem.now) (arc_value work.now.bounds) r.cert work.now.live) }
    ensures best { IfOk result (λ r. EachLive (IsBestVerdict (posed problem.now) (arc_value work.now.bounds) r.cert) work.now.live r.verdicts) }
{
    let steps = steps_over(alloc, problem, work.live, &work.bounds)?;
    let mut cert = Cert {
        steps: Steps::from_vec(steps),
        vectors: Vectors::new(alloc),
    };
    let remaining = Remaining::new(alloc, problem, work.live, &work.bounds, &cert)?;
    let mut standings = Standings::new(alloc, problem, work, &remaining)?;
    let bounding = bound_all(alloc, problem, work, &remaining, &mut standings)?;
    let found = dive_open(
        alloc,
        problem,
        work,
        &remaining,
        &standings,
        &bounding.first,
    )?;
    standings.lower_by(problem, &found);
    let split = split_of(alloc, problem, &remaining, &standings, &bounding)?;
    let Bounding {
        vectors,
        first,
        second: _,
    } = bounding;
    let hint = hint_of(alloc, &vectors, first)?;
    cert.vectors = vectors;
    let judgement = judge_live(alloc, problem, work, &cert, &remaining, found)?;
    Ok(Probe {
        cert,
        verdicts: judgement.verdicts,
        found: judgement.found,
        split,
        hint,
    })
}
