// Runs on small problems whose answers are known, and a turn beside another finder.
ghost use Rattle.std.specs.Prelude.{◌≡◌, ◌<◌, ◌≤◌, All, IsTrue, length};
ghost use Rattle.finder.specs.Found.{scenario_count};

use super::*;
use bb_core::{Cuts, Outcome, Work};
use certs::{Level, Levels};
use finder::{BestPoints, Finder};
use incumbent_words::Words;
use int_model::{ColumnPart, Direction, Model, Name, Parts, PointBox, Rhs, Row, RowSense, Terms};
use live_sets::LiveSet;
use open_pool::Pool;
use scenario_changes::{Answer, Changes, Problem};
use std::alloc::{AllocError, Global};
use std::process::Abort;
use std::sync::Arc;
use std::test::Fail;

// An answer without its point.
#[derive(Clone, Copy, Debug, PartialEq, Eq)]
enum Told {
    Nothing,
    Infeasible,
    Optimal(i64),
    Limit(Option<i64>, i64),
}

fn told_of(answer: Option<&Answer>) -> Told {
    match answer {
        None => Told::Nothing,
        Some(Answer::Infeasible) => Told::Infeasible,
        Some(Answer::Optimal { value, .. }) => Told::Optimal(*value),
        Some(Answer::Limit { best, bound }) => match best {
            None => Told::Limit(None, *bound),
            Some((_, value)) => Told::Limit(Some(*value), *bound),
        },
    }
}

fn name_of(alloc: Global, letter: u8) -> Result<Name, AllocError> {
    Ok(Name::from_vec(vec![in alloc; letter]?))
}

fn column(alloc: Global, letter: u8, cost: i64, high: i64) -> Result<ColumnPart, AllocError> {
    Ok(ColumnPart {
        name: name_of(alloc, letter)?,
        cost,
        low: Some(0),
        high: Some(high),
        implied: false,
    })
}

fn parts_of(
    alloc: Global,
    columns: Vec<ColumnPart>,
    sense: RowSense,
    rhs: i64,
    terms: Vec<(u32, i64)>,
) -> Result<Parts, AllocError> {
    let row = Row {
        name: name_of(alloc, b'r')?,
        sense,
        rhs,
        range: None,
        terms: Terms::from_vec(terms),
    };
    Ok(Parts {
        columns,
        rows: vec![in alloc; row]?,
        constant: 0,
        direction: Direction::Min,
    })
}

// The least -3x - 2y for x and y in 0..3 with 2x + y at most 4.
fn capacity(alloc: Global) -> Result<Model, Fail> {
    let columns = vec![in alloc; column(alloc, b'x', -3, 3)?, column(alloc, b'y', -2, 3)?]?;
    let terms = vec![in alloc; (0, 2), (1, 1)]?;
    let parts = parts_of(alloc, columns, RowSense::L, 4, terms)?;
    Ok(Model::build(alloc, parts)?)
}

// The base, and scenarios with the right-hand side 2, the cost -5 of x, and x at least 3.
fn capacities(rt: &impl Abort, alloc: Global) -> Result<Problem, Fail> {
    let model = capacity(alloc)?;
    let mut changes = Changes::new(alloc, &model)?;
    changes.set_num_scenarios(4)?;
    changes.select(1)?;
    changes.set_rhs(0, Some(Rhs::Value(2)))?;
    changes.select(2)?;
    changes.set_obj(0, Some(-5))?;
    changes.select(3)?;
    changes.set_lb(0, Some(3))?;
    assert!(rt; changes.fits(&model));
    Ok(Problem::new(alloc, model, changes)?)
}

// An even sum of three numbers 0 or 1 that is to be 3.
fn odd_sum(alloc: Global) -> Result<Problem, Fail> {
    let mut columns = Vec::new(alloc);
    for letter in [b'x', b'y', b'z'] {
        columns.push(column(alloc, letter, 0, 1)?)?;
    }
    let terms = vec![in alloc; (0, 2), (1, 2), (2, 2)]?;
    let parts = parts_of(alloc, columns, RowSense::E, 3, terms)?;
    let model = Model::build(alloc, parts)?;
    let changes = Changes::new(alloc, &model)?;
    Ok(Problem::new(alloc, model, changes)?)
}

// No column, and a row that is at least 0, or in scenario 1 at least 1.
fn no_columns(rt: &impl Abort, alloc: Global) -> Result<Problem, Fail> {
    let columns = Vec::new(alloc);
    let terms = Vec::new(alloc);
    let parts = parts_of(alloc, columns, RowSense::G, 0, terms)?;
    let model = Model::build(alloc, parts)?;
    let mut changes = Changes::new(alloc, &model)?;
    changes.set_num_scenarios(2)?;
    changes.select(1)?;
    changes.set_rhs(0, Some(Rhs::Value(1)))?;
    assert!(rt; changes.fits(&model));
    Ok(Problem::new(alloc, model, changes)?)
}

// A run from the root.
fn solved(alloc: Global, problem: &Problem, nodes: u32) -> Result<Ended, AllocError>
    requires some { 0 < nodes }
    requires few { nodes ≤ 100001 }
{
    let count = problem.count();
    let (words, seat) = Words::make(alloc, count)?;
    let points = BestPoints::make(alloc, count, problem.model().columns())?;
    let finder = Finder::new(problem, seat, points);
    let pool = Pool::begin(alloc, problem, nodes)?;
    let ended = run_alone(alloc, problem, pool, &words, finder)?;
    Ok(ended)
}

// Whether a run claims these answers, in a tree of at most so many nodes.
fn has_claims(
    alloc: Global,
    problem: &Problem,
    nodes: u32,
    wanted: &[Told],
) -> Result<bool, AllocError>
    requires some { 0 < nodes }
    requires few { nodes ≤ 100001 }
{
    let ended = solved(alloc, problem, nodes)?;
    for (s, wanted) in wanted.iter().enumerate() {
        if told_of(ended.answers.get(s)) != *wanted {
            return Ok(false);
        }
    }
    Ok(ended.answers.len() == wanted.len() && ended.tree.len() <= nodes as usize)
}

#[test]
fn claims_are_known(rt: HostRuntime) -> Result<(), Fail> {
    let alloc = rt.alloc();
    let capacities = capacities(&rt, alloc)?;
    let optima = [
        Told::Optimal(-7),
        Told::Optimal(-4),
        Told::Optimal(-10),
        Told::Infeasible,
    ];
    assert!(rt; has_claims(alloc, &capacities, 100_001, &optima)?);
    let no_columns = no_columns(&rt, alloc)?;
    assert!(rt; has_claims(alloc, &no_columns, 1, &[Told::Optimal(0), Told::Infeasible])?);
    let odd_sum = odd_sum(alloc)?;
    assert!(rt; has_claims(alloc, &odd_sum, 1, &[Told::Limit(None, 0)])?);
    assert!(rt; has_claims(alloc, &odd_sum, 2, &[Told::Limit(None, 0)])?);
    assert!(rt; has_claims(alloc, &odd_sum, 15, &[Told::Infeasible])?);
    Ok(())
}

// The part of the box with x at 0, at the level -7.
fn side(alloc: Global) -> Result<Work, AllocError> {
    let bounds = PointBox::from_ends(alloc, &[0, 0], &[0, 3])?;
    let levels = Levels::from_vec(vec![in alloc; Level::Value(-7)]?);
    Ok(Work {
        node: 1,
        bounds: Arc::new(alloc, bounds)?,
        live: LiveSet::full(1),
        levels: Arc::new(alloc, levels)?,
        hint: None,
        cuts: Cuts::from_vec(Vec::new(alloc)),
    })
}

fn are_below(live: LiveSet, count: u32) -> bool
    ensures { IsTrue result → All (λ s. s < count) live }
{
    live.iter().all(|s| s < count)
}

// Whether a second finder closes a node by the value -7 that the first one has offered. No point of the
// node's box has a value below -6.
fn closes_by_the_word(rt: &impl Abort, alloc: Global, problem: &Problem) -> Result<bool, AllocError>
    requires scenarios { scenario_count problem.now ≡ 1 }
    requires columns { length problem.now.model.columns ≡ 2 }
{
    let (words, mut master) = Words::make(alloc, 1)?;
    let member = words.member(alloc, &mut master)?;
    let mut first = Finder::new(problem, master, BestPoints::make(alloc, 1, 2)?);
    let mut second = Finder::new(problem, member, BestPoints::make(alloc, 1, 2)?);
    assert!(rt; problem.meets(0, &[1, 2]));
    first.offer(&words, 0, &[1, 2]);
    let work = side(alloc)?;
    assert!(rt; work.bounds.lows().len() == 2);
    assert!(rt; work.levels.len() == 1);
    assert!(rt; are_below(work.live, 1));
    let (settlement, note) = turn(alloc, problem, &words, &mut second, work)?;
    let is_closed = matches!(settlement.outcome, Outcome::Close);
    Ok(is_closed && note.cap(0) == Some(-7))
}

#[test]
fn cuts_come_from_the_words(rt: HostRuntime) -> Result<(), Fail> {
    let alloc = rt.alloc();
    let model = capacity(alloc)?;
    let changes = Changes::new(alloc, &model)?;
    let problem = Problem::new(alloc, model, changes)?;
    assert!(rt; problem.count() == 1);
    assert!(rt; problem.model().columns() == 2);
    assert!(rt; closes_by_the_word(&rt, alloc, &problem)?);
    Ok(())
}
