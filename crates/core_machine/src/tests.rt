ghost use Rattle.int_model.specs.Limits.{IsBound};

use super::*;
use bb_core::{Cuts, Outcome, Settlement, Work};
use certs::{Cert, Level, Levels, Steps, Vectors, Verdict, Verdicts};
use dual_bounds::Vector;
use int_model::{ColumnPart, Direction, Model, Name, Parts, Point, PointBox, Row, RowSense, Terms};
use live_sets::LiveSet;
use scenario_changes::{Changes, Problem};
use std::alloc::{AllocError, Global};
use std::process::Abort;
use std::sync::Arc;
use std::test::Fail;

fn name(alloc: Global, letter: u8) -> Result<Name, AllocError> {
    let mut bytes = Vec::new(alloc);
    bytes.push(letter)?;
    Ok(Name::from_vec(bytes))
}

fn column(alloc: Global, letter: u8, cost: i64) -> Result<ColumnPart, AllocError> {
    Ok(ColumnPart {
        name: name(alloc, letter)?,
        cost,
        low: Some(0),
        high: Some(3),
        implied: false,
    })
}

// min -3x - 2y, x and y in 0..3, 2x + y at most 4.
fn cap(alloc: Global) -> Result<Parts, AllocError> {
    let row = Row {
        name: name(alloc, b'c')?,
        sense: RowSense::L,
        rhs: 4,
        range: None,
        terms: Terms::from_vec(vec![in alloc; (0, 2), (1, 1)]?),
    };
    Ok(Parts {
        columns: vec![in alloc; column(alloc, b'x', -3)?, column(alloc, b'y', -2)?]?,
        rows: vec![in alloc; row]?,
        constant: 0,
        direction: Direction::Min,
    })
}

// No columns, and one row whose sum is to be at least 0.
fn no_columns(alloc: Global) -> Result<Parts, AllocError> {
    let row = Row {
        name: name(alloc, b'r')?,
        sense: RowSense::G,
        rhs: 0,
        range: None,
        terms: Terms::from_vec(Vec::new(alloc)),
    };
    Ok(Parts {
        columns: Vec::new(alloc),
        rows: vec![in alloc; row]?,
        constant: 0,
        direction: Direction::Min,
    })
}

// The base alone.
fn base(rt: &impl Abort, alloc: Global, parts: Parts) -> Result<Problem, Fail> {
    let model = Model::build(alloc, parts)?;
    let changes = Changes::new(alloc, &model)?;
    assert!(rt; changes.fits(&model));
    Ok(Problem::new(alloc, model, changes)?)
}

fn level(alloc: Global, value: i64) -> Result<Arc<Levels>, AllocError> {
    let levels = vec![in alloc; Level::Value(value)]?;
    Ok(Arc::new(alloc, Levels::from_vec(levels))?)
}

fn work(alloc: Global, node: u32, bounds: Arc<PointBox>, value: i64) -> Result<Work, AllocError> {
    Ok(Work {
        node,
        bounds,
        live: LiveSet::full(1),
        levels: level(alloc, value)?,
        hint: None,
        cuts: Cuts::from_vec(Vec::new(alloc)),
    })
}

// ---- the model without columns

// The root ends by its one point.
fn at_point(alloc: Global) -> Result<Settlement, AllocError> {
    let bounds = Arc::new(alloc, PointBox::from_ends(alloc, &[], &[])?)?;
    Ok(Settlement {
        work: work(alloc, 0, bounds, 0)?,
        cert: Cert {
            steps: Steps::from_vec(Vec::new(alloc)),
            vectors: Vectors::new(alloc),
        },
        verdicts: Verdicts::from_vec(vec![in alloc; Verdict::Point]?),
        outcome: Outcome::Close,
    })
}

fn empty_point(alloc: Global) -> Event {
    Event::Offer {
        actor: 0,
        scenario: 0,
        point: Point::from_vec(Vec::new(alloc)),
    }
}

#[test]
fn one_actor_ends_by_a_point(rt: HostRuntime) -> Result<(), Fail> {
    let alloc = rt.alloc();
    let problem = base(&rt, alloc, no_columns(alloc)?)?;
    let events = vec![in alloc;
        Event::Claim { actor: 0, node: 0 },
        empty_point(alloc),
        Event::Note { actor: 0 },
        Event::Settle {
            actor: 0,
            settlement: at_point(alloc)?
        },
    ]?;
    let state = State::run(alloc, &problem, 1, events)?;
    assert!(rt; state.is_finished());
    assert_eq!(rt; state.word(0), Some(0));
    Ok(())
}

#[test]
fn claims_and_settlements_may_come_too_early(rt: HostRuntime) -> Result<(), Fail> {
    let alloc = rt.alloc();
    let problem = base(&rt, alloc, no_columns(alloc)?)?;
    let mut state = State::begin(alloc, &problem, 1)?;
    state.step(&problem, Event::Claim { actor: 0, node: 0 })?;
    let again = state.step(&problem, Event::Claim { actor: 0, node: 0 });
    assert_eq!(rt; again, Err(StepError::NotAllowed));
    state.step(&problem, empty_point(alloc))?;
    let settlement = at_point(alloc)?;
    let early = state.step(
        &problem,
        Event::Settle {
            actor: 0,
            settlement,
        },
    );
    assert_eq!(rt; early, Err(StepError::NotAllowed));
    assert!(rt; !state.is_finished());
    Ok(())
}

// ---- two actors

// The numbers from low to high in column 0, and all in column 1.
fn part(alloc: Global, low: i32, high: i32) -> Result<Arc<PointBox>, AllocError>
    requires low { IsBound low }
    requires high { IsBound high }
{
    let lows = [low, 0];
    let highs = [high, 3];
    Ok(Arc::new(alloc, PointBox::from_ends(alloc, &lows, &highs)?)?)
}

// Half of a multiplier of -3: the bound is -7 at the root and at both children.
fn cert(alloc: Global) -> Result<Cert, Fail> {
    let mut vectors = Vectors::new(alloc);
    vectors.push(Vector::new(alloc, 2, &[(0, -3)])?);
    Ok(Cert {
        steps: Steps::from_vec(Vec::new(alloc)),
        vectors,
    })
}

fn settle(alloc: Global, actor: u32, work: Work, outcome: Outcome) -> Result<Event, Fail> {
    Ok(Event::Settle {
        actor,
        settlement: Settlement {
            work,
            cert: cert(alloc)?,
            verdicts: Verdicts::from_vec(vec![in alloc; Verdict::Bound(0)]?),
            outcome,
        },
    })
}

// The root is split at x <= 1.
fn split(alloc: Global, actor: u32) -> Result<Event, Fail> {
    let outcome = Outcome::Split {
        stay: LiveSet::full(1),
        column: 0,
        value: 1,
        left: part(alloc, 0, 1)?,
        right: part(alloc, 2, 3)?,
        left_levels: level(alloc, -7)?,
        right_levels: level(alloc, -7)?,
        left_hint: None,
        right_hint: None,
    };
    settle(
        alloc,
        actor,
        work(alloc, 0, part(alloc, 0, 3)?, -15)?,
        outcome,
    )
}

// The child with x <= 1 ends.
fn close(alloc: Global, actor: u32) -> Result<Event, Fail> {
    settle(
        alloc,
        actor,
        work(alloc, 1, part(alloc, 0, 1)?, -7)?,
        Outcome::Close,
    )
}

// The point (1, 2) has the value -7.
fn offer(alloc: Global, actor: u32) -> Result<Event, AllocError> {
    Ok(Event::Offer {
        actor,
        scenario: 0,
        point: Point::from_vec(vec![in alloc; 1, 2]?),
    })
}

fn ends_at_the_optimum(
    rt: &impl Abort,
    alloc: Global,
    problem: &Problem,
    events: Vec<Event>,
) -> Result<(), Fail> {
    let state = State::run(alloc, problem, 2, events)?;
    assert!(rt; state.is_finished());
    assert_eq!(rt; state.word(0), Some(-7));
    Ok(())
}

#[test]
fn two_actors_end_alike_in_each_order(rt: HostRuntime) -> Result<(), Fail> {
    let alloc = rt.alloc();
    let problem = base(&rt, alloc, cap(alloc)?)?;
    let split_first = vec![in alloc;
        Event::Claim { actor: 0, node: 0 },
        split(alloc, 0)?,
        offer(alloc, 1)?,
        Event::Note { actor: 1 },
        Event::Claim { actor: 0, node: 1 },
        close(alloc, 0)?,
        Event::Sweep { node: 2 },
    ]?;
    ends_at_the_optimum(&rt, alloc, &problem, split_first)?;
    let offer_first = vec![in alloc;
        offer(alloc, 1)?,
        Event::Look {
            actor: 0,
            scenario: 0
        },
        Event::Note { actor: 0 },
        Event::Claim { actor: 1, node: 0 },
        split(alloc, 1)?,
        Event::Claim { actor: 0, node: 2 },
        Event::GiveBack { actor: 0 },
        Event::Sweep { node: 2 },
        Event::Sweep { node: 1 },
    ]?;
    ends_at_the_optimum(&rt, alloc, &problem, offer_first)?;
    let side_by_side = vec![in alloc;
        Event::Claim { actor: 1, node: 0 },
        Event::GiveBack { actor: 1 },
        Event::Claim { actor: 0, node: 0 },
        offer(alloc, 0)?,
        split(alloc, 0)?,
        Event::Claim { actor: 1, node: 1 },
        Event::Note { actor: 0 },
        Event::Sweep { node: 2 },
        close(alloc, 1)?,
    ]?;
    ends_at_the_optimum(&rt, alloc, &problem, side_by_side)
}
