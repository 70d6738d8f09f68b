// The climb: rounds of coordinate descent on the augmented Lagrangian, with corrections in between.
ghost use Rattle.std.specs.Prelude.{◌≡◌, ◌<◌, ◌≤◌, length, false, IfOk, Some, None};
ghost use Rattle.int_model.specs.Boxes.{is_empty};
ghost use Rattle.dual_bounds.specs.Vectors.{RowsBelow};
ghost use Rattle.scenario_changes.specs.Problems.{problem as problem_of_scenarios};
ghost use Rattle.dual_climb.specs.Climbs.{IsNear};

use crate::best::Best;
use crate::correction::Correction;
use crate::entries::{multipliers_of, vector_of};
use crate::points::{MOST_BITS, near_point, starting_point};
use crate::relaxation::Relaxation;
use crate::state::{Start, State};
use crate::sums::{fraction_bits, multiplier_limit, row_sums};
use dual_bounds::Vector;
use int_model::{NearPoint, PointBox};
use scenario_changes::Problem;
use std::alloc::{AllocError, Global};

/// A correction stands before every so many rounds.
const ROUNDS_PER_CORRECTION: u32 = 20;

/// Totals are made after every so many rounds.
const ROUNDS_PER_TOTAL: u32 = 5;

/// One pass of so many goes over all columns; the others pass over those that rest.
const PASSES_PER_WHOLE: u32 = 3;

/// From this round on a climb may end for slowness.
const FIRST_SLOW_ROUND: u32 = 40;

/// A climb of so many passes is a patient one: its first penalties are smaller, and it doesn't end for slowness.
/// That costs passes, and brings the bound to that of the linear relaxation.
const PATIENT_PASSES: u32 = 300;

/// The first penalties of a patient climb are divided by this.
const PATIENT_DIVISOR: i64 = 8;

/// No total is above this, so a climb for which this is enough goes on to its end.
const MOST_TOTAL: i128 = 1 << 120;

/// Good multipliers for scenario s in a box that isn't empty, from a start: at most so many passes over the
/// free columns, which end where the bound reaches the cut. The point is one near which the linear
/// relaxation is least; it has one number for each column, within the box.
///
/// The vector has the scale of the start. Where no column is free, where activities leave too few bits
/// after the point, or where the start already reaches the cut, there is no pass, and it is the start
/// without the entries that count for nothing in the scenario. Multipliers so large that a reduced cost
/// might leave its type are lowered first.
pub fn climb(
    alloc: Global,
    problem: &Problem,
    s: u32,
    bounds: &PointBox,
    start: &Vector,
    near: Option<&NearPoint>,
    passes: u32,
    cut: Option<i64>,
) -> Result<(Vector, NearPoint), AllocError>
    requires scenario { s < length (problem_of_scenarios problem.now).scenarios }
    requires columns { length bounds.now ≡ length problem.now.model.columns }
    requires occupied { is_empty bounds.now ≡ false }
    ensures scale { IfOk result (λ r. r.0.scale ≡ start.now.scale) }
    ensures rows { IfOk result (λ r. RowsBelow (length problem.now.model.rows) r.0.entries) }
    ensures near { IfOk result (λ r. IsNear bounds.now r.1) }
{
    let model = problem.model();
    let relaxation = Relaxation::new(
        alloc,
        model,
        problem.costs(s),
        problem.ends(s),
        start.scale(),
        bounds.lows(),
        bounds.highs(),
    )?;
    let limit = multiplier_limit(&relaxation);
    let mut multipliers = multipliers_of(alloc, &relaxation, limit, start)?;
    let mut point = starting_point(alloc, &relaxation, &multipliers, near)?;
    let enough = total_enough(&relaxation, start.scale(), problem.constant(), cut);
    let limits = Limits {
        passes,
        enough,
        multiplier: limit,
    };
    let fraction = ascend(
        alloc,
        &relaxation,
        start.scale(),
        limits,
        &mut multipliers,
        &mut point,
    )?;
    let vector = vector_of(alloc, model, start.scale(), &mut multipliers)?;
    Ok((
        vector,
        near_point(alloc, bounds, &relaxation, &point, fraction)?,
    ))
}

/// How many passes there may be, the total that is enough, and the most that a multiplier may be.
#[derive(Clone, Copy)]
struct Limits {
    passes: u32,
    enough: i128,
    multiplier: i64,
}

impl Limits {
    // Whether there are many passes.
    fn is_patient(&self) -> bool {
        self.passes >= PATIENT_PASSES
    }

    // Whether a climb with this total some rounds earlier is to end for slowness.
    fn is_too_slow(&self, pass: u32, best: &Best, earlier: i128) -> bool {
        pass >= FIRST_SLOW_ROUND && !self.is_patient() && best.is_slow(earlier)
    }
}

// The total above which the bound reaches the cut: the bound is the total with the fixed columns' cost, over
// the scale, rounded up, and the constant. All numbers are below 2^84.
fn total_enough(relaxation: &Relaxation, scale: u32, constant: i64, cut: Option<i64>) -> i128 {
    match cut {
        Some(cut) => {
            let below = i128::from(cut)
                .wrapping_sub(i128::from(constant))
                .wrapping_sub(1);
            below
                .wrapping_mul(i128::from(scale))
                .wrapping_sub(relaxation.fixed_cost())
        }
        None => MOST_TOTAL,
    }
}

// Climbs from these multipliers and this point to better ones. Answers how many bits the numbers of the point
// then have after the point.
fn ascend(
    alloc: Global,
    relaxation: &Relaxation,
    scale: u32,
    limits: Limits,
    multipliers: &mut [i64],
    point: &mut [i64],
) -> Result<u32, AllocError>
    requires multipliers { length multipliers.old ≡ relaxation.now.rows }
    requires point { length point.old ≡ relaxation.now.columns }
    ensures multipliers { length multipliers.new ≡ length multipliers.old }
    ensures point { length point.new ≡ length point.old }
{
    let total = relaxation.total(multipliers);
    let sums = row_sums(alloc, relaxation)?;
    let Some(fraction) = fraction_bits(&sums) else {
        return Ok(MOST_BITS);
    };
    if relaxation.count() == 0 || total > limits.enough {
        return Ok(MOST_BITS);
    }
    let start = Start {
        scale,
        fraction,
        limit: limits.multiplier,
        divisor: if limits.is_patient() {
            PATIENT_DIVISOR
        } else {
            1
        },
        multipliers,
        point,
    };
    let mut state = State::new(alloc, relaxation, &sums, start)?;
    let mut best = Best::new(alloc, total, multipliers, limits.enough, scale)?;
    let mut correction = Correction::new(alloc, relaxation)?;
    run(
        alloc,
        relaxation,
        limits,
        &mut state,
        &mut best,
        &mut correction,
    )?;
    multipliers.copy_from_slice(best.multipliers());
    point.copy_from_slice(state.point());
    Ok(fraction)
}

// The rounds of a climb, and a last correction.
fn run(
    alloc: Global,
    relaxation: &Relaxation,
    limits: Limits,
    state: &mut State,
    best: &mut Best,
    correction: &mut Correction,
) -> Result<(), AllocError>
    requires state { state.old ≡ relaxation.now }
    requires best { best.old ≡ relaxation.now.rows }
    requires correction { correction.old ≡ relaxation.now.rows }
    ensures state { state.new ≡ state.old }
    ensures best { best.new ≡ best.old }
{
    rounds(alloc, relaxation, limits, state, best, correction)?;
    if !best.is_enough() {
        try_correction(alloc, relaxation, state, best, correction)?;
    }
    Ok(())
}

// The rounds of a climb.
fn rounds(
    alloc: Global,
    relaxation: &Relaxation,
    limits: Limits,
    state: &mut State,
    best: &mut Best,
    correction: &mut Correction,
) -> Result<(), AllocError>
    requires state { state.old ≡ relaxation.now }
    requires best { best.old ≡ relaxation.now.rows }
    requires correction { correction.old ≡ relaxation.now.rows }
    ensures state { state.new ≡ state.old }
    ensures best { best.new ≡ best.old }
    ensures correction { correction.new ≡ correction.old }
{
    let mut earlier = best.total();
    let mut has_moved = false;
    let mut still = false;
    for pass in 0..limits.passes {
        if pass > 0 && pass % ROUNDS_PER_CORRECTION == 0 {
            try_from_correction(alloc, relaxation, state, best, correction)?;
            if best.is_enough() || limits.is_too_slow(pass, best, earlier) {
                return Ok(());
            }
            earlier = best.total();
        }
        let is_whole = !has_moved || pass % PASSES_PER_WHOLE == 0;
        has_moved = state.pass(relaxation, is_whole);
        let is_still = is_whole && !has_moved;
        if (pass + 1) % ROUNDS_PER_TOTAL == 0 || pass + 1 == limits.passes || is_still {
            let total = relaxation.total(state.multipliers());
            best.try_round(total, state.multipliers());
            if best.is_enough() || best.is_idle() {
                return Ok(());
            }
        }
        let same = state.adapt();
        if is_still && same {
            if still {
                return Ok(());
            }
            still = true;
        }
    }
    Ok(())
}

// Tries a correction. One that is the best so far is where the climb goes on.
fn try_from_correction(
    alloc: Global,
    relaxation: &Relaxation,
    state: &mut State,
    best: &mut Best,
    correction: &mut Correction,
) -> Result<(), AllocError>
    requires state { state.old ≡ relaxation.now }
    requires best { best.old ≡ relaxation.now.rows }
    requires correction { correction.old ≡ relaxation.now.rows }
    ensures state { state.new ≡ state.old }
    ensures best { best.new ≡ best.old }
    ensures correction { correction.new ≡ correction.old }
{
    if try_correction(alloc, relaxation, state, best, correction)? {
        state.restart(best.multipliers());
    }
    Ok(())
}

// Tries a correction. Whether it is the best so far.
fn try_correction(
    alloc: Global,
    relaxation: &Relaxation,
    state: &State,
    best: &mut Best,
    correction: &mut Correction,
) -> Result<bool, AllocError>
    requires state { state.now ≡ relaxation.now }
    requires best { best.old ≡ relaxation.now.rows }
    requires correction { correction.old ≡ relaxation.now.rows }
    ensures best { best.new ≡ best.old }
    ensures correction { correction.new ≡ correction.old }
{
    if !correction.correct(alloc, relaxation, state)? {
        return Ok(false);
    }
    let total = relaxation.total(correction.multipliers());
    Ok(best.offer(total, correction.multipliers()))
}
