// The claims of a run.
ghost use Rattle.std.specs.Prelude.{◌≡◌, IfOk, MatchOption};
ghost use Rattle.scenario_changes.specs.Problems.{problem as posed};
ghost use Rattle.certs.specs.Claims.{claim_of};
ghost use Rattle.alone_run.specs.Steps.{AreClaims};

use certs::Level;
use finder::Finder;
use int_model::Point;
use open_pool::Pool;
use scenario_changes::{Answer, Answers, Problem};
use std::alloc::{AllocError, Global};

/// The claim on each scenario that the finder's best point and the least level over the scenario's ends
/// allow.
pub(crate) fn claims(
    alloc: Global,
    problem: &Problem,
    pool: &Pool<'_>,
    finder: &Finder<'_>,
) -> Result<Answers, AllocError>
    requires pool { pool.now.problem ≡ posed problem.now }
    requires finder { finder.now.problem ≡ problem.now }
    ensures { IfOk result (AreClaims (posed problem.now) pool.now finder.now) }
{
    let mut answers = Vec::new(alloc);
    for s in 0..problem.count() {
        let bound = pool.end_level(s);
        answers.push(claim(alloc, finder.best(s), bound)?)?;
    }
    Ok(Answers::from_vec(answers))
}

// The claim that a best point with its value and a bound allow.
fn claim(alloc: Global, best: Option<(&[i32], i64)>, bound: Level) -> Result<Answer, AllocError>
    ensures { IfOk result (λ a. MatchOption best.entry (a ≡ claim_of None bound) (λ r. a ≡ claim_of (Some (r.0.now, r.1)) bound)) }
{
    match best {
        None => Ok(without_point(bound)),
        Some((x, value)) => {
            let point = Point::from_vec(x.to_vec(alloc)?);
            Ok(with_point(point, value, bound))
        }
    }
}

fn without_point(bound: Level) -> Answer
    ensures { result ≡ claim_of None bound }
{
    match bound {
        Level::Inf => Answer::Infeasible,
        Level::Value(bound) => Answer::Limit { best: None, bound },
    }
}

fn with_point(point: Point, value: i64, bound: Level) -> Answer
    ensures { result ≡ claim_of (Some (point, value)) bound }
{
    match bound {
        Level::Inf => Answer::Optimal { point, value },
        Level::Value(bound) => {
            if value <= bound {
                Answer::Optimal { point, value }
            } else {
                Answer::Limit {
                    best: Some((point, value)),
                    bound,
                }
            }
        }
    }
}
