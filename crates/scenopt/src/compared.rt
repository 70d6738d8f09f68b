// Small problems of every kind, whose answers on one shared tree are compared with those of the plain search.
use crate::solving::{MAX_NODES, solved};
use int_model::{ColumnPart, Direction, Model, Name, Parts, Rhs, Row, RowSense, Terms};
use plain_search::answers_of;
use scenario_changes::{Answer, Changes, Problem};
use std::alloc::{AllocError, Global};
use std::test::Fail;

// Numbers that look random, by a multiplicative congruence.
#[derive(Drop)]
struct Draws {
    state: u64,
}

impl Draws {
    // A number below the count, 0 where that is 0.
    fn next(&mut self, count: u32) -> u32 {
        self.state = self
            .state
            .wrapping_mul(6_364_136_223_846_793_005)
            .wrapping_add(1_442_695_040_888_963_407);
        u32::try_from(self.state >> 33).unwrap_or(0) % count.max(1)
    }

    // A number between the two.
    fn between(&mut self, low: i64, high: i64) -> i64 {
        let width = u32::try_from(high.saturating_sub(low)).unwrap_or(0);
        low.saturating_add(i64::from(self.next(width.saturating_add(1))))
    }
}

fn name_of(alloc: Global, kind: u8, number: u32) -> Result<Name, AllocError> {
    let digit = b'0'.saturating_add(u8::try_from(number % 10).unwrap_or(0));
    Ok(Name::from_vec(vec![in alloc; kind, digit]?))
}

fn column_of(alloc: Global, draws: &mut Draws, number: u32) -> Result<ColumnPart, AllocError> {
    let low = draws.between(-2, 2);
    let high = low.saturating_add(draws.between(0, 3));
    Ok(ColumnPart {
        name: name_of(alloc, b'x', number)?,
        cost: draws.between(-4, 4),
        low: Some(low),
        high: Some(high),
        implied: false,
    })
}

fn terms_of(alloc: Global, draws: &mut Draws, columns: u32) -> Result<Terms, AllocError> {
    let mut terms = Vec::new(alloc);
    for column in 0..columns {
        let coefficient = draws.between(-3, 3);
        if coefficient != 0 {
            terms.push((column, coefficient))?;
        }
    }
    Ok(Terms::from_vec(terms))
}

fn row_of(alloc: Global, draws: &mut Draws, number: u32, columns: u32) -> Result<Row, AllocError> {
    let sense = match draws.next(3) {
        0 => RowSense::L,
        1 => RowSense::G,
        _ => RowSense::E,
    };
    let range = if draws.next(4) == 0 {
        Some(draws.between(-3, 3))
    } else {
        None
    };
    Ok(Row {
        name: name_of(alloc, b'r', number)?,
        sense,
        rhs: draws.between(-4, 6),
        range,
        terms: terms_of(alloc, draws, columns)?,
    })
}

fn model_of(alloc: Global, draws: &mut Draws) -> Result<Model, Fail> {
    let width = draws.next(4).saturating_add(1);
    let mut columns = Vec::new(alloc);
    for number in 0..width {
        columns.push(column_of(alloc, draws, number)?)?;
    }
    let mut rows = Vec::new(alloc);
    for number in 0..draws.next(4) {
        rows.push(row_of(alloc, draws, number, width)?)?;
    }
    let direction = if draws.next(2) == 0 {
        Direction::Min
    } else {
        Direction::Max
    };
    let parts = Parts {
        columns,
        rows,
        constant: draws.between(-3, 3),
        direction,
    };
    Ok(Model::build(alloc, parts)?)
}

// Changes some cost, bound and right-hand side of the selected scenario.
fn change(changes: &mut Changes, model: &Model, draws: &mut Draws) -> Result<(), Fail> {
    let column = draws.next(model.columns());
    changes.set_obj(column, Some(draws.between(-5, 5)))?;
    let column = draws.next(model.columns());
    changes.set_lb(column, Some(draws.between(-2, 2)))?;
    if model.rows() > 0 {
        let row = draws.next(model.rows());
        changes.set_rhs(row, Some(Rhs::Value(draws.between(-4, 6))))?;
    }
    Ok(())
}

fn problem_of(alloc: Global, seed: u64) -> Result<Option<Problem>, Fail> {
    let mut draws = Draws { state: seed };
    let model = model_of(alloc, &mut draws)?;
    let mut changes = Changes::new(alloc, &model)?;
    let count = draws.next(4);
    changes.set_num_scenarios(count)?;
    for s in 0..count {
        changes.select(s)?;
        change(&mut changes, &model, &mut draws)?;
    }
    if !changes.fits(&model) {
        return Ok(None);
    }
    Ok(Some(Problem::new(alloc, model, changes)?))
}

// An optimal value, None where a scenario is infeasible, or a limit.
#[derive(Clone, Copy, Debug, PartialEq, Eq)]
enum Told {
    Value(i64),
    Nothing,
    Limit,
}

fn verdict_of(answer: &Answer) -> Told {
    match answer {
        Answer::Infeasible => Told::Nothing,
        Answer::Optimal { value, .. } => Told::Value(*value),
        Answer::Limit { .. } => Told::Limit,
    }
}

// Whether both searches tell the same of each scenario.
fn agree(alloc: Global, problem: &Problem) -> Result<bool, AllocError> {
    let plain = answers_of(alloc, problem)?;
    let shared = solved(alloc, problem, MAX_NODES)?.answers;
    if plain.len() != shared.len() {
        return Ok(false);
    }
    for k in 0..plain.len() {
        let plain = plain.get(k).map(verdict_of);
        let shared = shared.get(k).map(verdict_of);
        if plain != shared {
            return Ok(false);
        }
    }
    Ok(true)
}

#[test]
fn one_tree_tells_what_the_plain_search_tells(rt: HostRuntime) -> Result<(), Fail> {
    let alloc = rt.alloc();
    for seed in 0..600 {
        if let Some(problem) = problem_of(alloc, seed)? {
            assert!(rt; agree(alloc, &problem)?, "at {seed}");
        }
    }
    Ok(())
}
