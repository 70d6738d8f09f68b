// Where a box is split, by a point near which a relaxation is least.
ghost use Rattle.std.specs.Prelude.{◌≡◌, ◌<◌, length};

use crate::bounding::Bounding;
use crate::climbs::Climb;
use crate::peeling::peel;
use crate::remaining::Remaining;
use crate::standings::Standings;
use crate::wide::split_wide;
use branching::Branch;
use dual_bounds::Vector;
use int_model::{Model, NearPoint, PointBox};
use scenario_changes::Problem;
use std::alloc::{AllocError, Global};

// One, and the least distance from a whole number that counts, as near numbers.
pub(crate) const ONE: i64 = 1 << 14;

const LEAST: i64 = 1 << 8;

/// The multiplier of each row.
pub(crate) fn multipliers(
    alloc: Global,
    rows: u32,
    vector: &Vector,
) -> Result<Vec<i64>, AllocError> {
    let mut all = vec![in alloc; 0; rows as usize]?;
    for &(row, multiplier) in vector.entries() {
        if let Some(place) = all.get_mut(row as usize) {
            *place = multiplier;
        }
    }
    Ok(all)
}

// The sum of the coefficients of a column times the multipliers of their rows, all without signs. It
// stops at the type's end, which no model within the limits reaches.
fn mass(model: &Model, column: u32, multipliers: &[i64]) -> u128
    requires { column < length model.now.columns }
{
    let mut sum: u128 = 0;
    for &(row, coefficient) in model.column_terms(column) {
        if let Some(multiplier) = multipliers.get(row as usize) {
            let product = u128::from(coefficient.unsigned_abs()).saturating_mul(u128::from(
                multiplier.unsigned_abs(),
            ));
            sum = sum.saturating_add(product);
        }
    }
    sum
}

// The number below a near number at which an interval is split, and how far the near number is from a
// whole one. None where it is too near to one, or where a part would be without numbers.
fn fraction(near: i64, low: i32, high: i32) -> Option<(i32, u128)> {
    let part = near.rem_euclid(ONE);
    let distance = part.min(ONE.saturating_sub(part));
    let floor = near.div_euclid(ONE);
    if distance <= LEAST || floor < i64::from(low) || floor >= i64::from(high) {
        return None;
    }
    match i32::try_from(floor) {
        Ok(value) => Some((value, u128::from(distance.unsigned_abs()))),
        Err(_) => None,
    }
}

// A split at a column whose near number isn't whole: at that of the greatest distance from a whole number
// times its mass, the first one of these. None where all near numbers are whole.
fn split_near(
    alloc: Global,
    problem: &Problem,
    part: &PointBox,
    near: &NearPoint,
    vector: &Vector,
) -> Result<Option<Branch>, AllocError> {
    let model = problem.model();
    let multipliers = multipliers(alloc, model.rows(), vector)?;
    let lows = part.lows();
    let highs = part.highs();
    let mut best = None;
    let mut greatest: u128 = 0;
    for column in 0..model.columns() {
        let j = column as usize;
        let Some(number) = near.get(j) else {
            break;
        };
        if j >= lows.len() || j >= highs.len() {
            break;
        }
        if let Some((value, distance)) = fraction(*number, lows[j], highs[j]) {
            // One more, so that columns of no mass differ by their distances.
            let mass = mass(model, column, &multipliers).saturating_add(1);
            let weight = mass.saturating_mul(distance);
            if best.is_none() || weight > greatest {
                best = Some(Branch { column, value });
                greatest = weight;
            }
        }
    }
    Ok(best)
}

// The same by one of the vectors of a node, where its scenario is still open.
fn split_by(
    alloc: Global,
    problem: &Problem,
    remaining: &Remaining,
    standings: &Standings,
    climb: &Option<Climb>,
    vector: Option<&Vector>,
) -> Result<Option<Branch>, AllocError> {
    let Some(climb) = climb else {
        return Ok(None);
    };
    let Some(vector) = vector else {
        return Ok(None);
    };
    if !standings.is_open(climb.scenario) {
        return Ok(None);
    }
    match remaining.part(climb.scenario) {
        Some(part) => split_near(alloc, problem, part, &climb.near, vector),
        None => Ok(None),
    }
}

/// Where to split: near the end of the first or else of the second climb, or else so that one part is dear
/// for every scenario that is open, or else at a wide column. It is a hint, of which nothing is promised.
pub(crate) fn split_of(
    alloc: Global,
    problem: &Problem,
    remaining: &Remaining,
    standings: &Standings,
    bounding: &Bounding,
) -> Result<Option<Branch>, AllocError> {
    let first = bounding.vectors.get(0);
    if let Some(branch) = split_by(alloc, problem, remaining, standings, &bounding.first, first)? {
        return Ok(Some(branch));
    }
    let second = bounding.vectors.get(1);
    if let Some(branch) = split_by(
        alloc,
        problem,
        remaining,
        standings,
        &bounding.second,
        second,
    )? {
        return Ok(Some(branch));
    }
    if let Some(vector) = first {
        if let Some(branch) = peel(alloc, problem, remaining, standings, vector)? {
            return Ok(Some(branch));
        }
    }
    match &bounding.first {
        Some(climb) => split_wide(alloc, problem, remaining, standings, climb),
        None => Ok(None),
    }
}
