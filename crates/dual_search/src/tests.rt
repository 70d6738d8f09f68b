// What comes out of worked searches: the greatest totals, worked out by hand. `evaluate` tells the total
// of an answer.
ghost use Rattle.std.specs.Prelude.{◌≡◌, ◌<◌, length, All, IfOk, IsTrue};
ghost use Rattle.dual_bounds.specs.Vectors.{RowsBelow};

use crate::search;
use dual_bounds::{Vector, evaluate};
use int_model::{ColumnPart, Direction, Model, Name, Parts, PointBox, Rhs, Row, RowSense, Terms};
use live_sets::LiveSet;
use scenario_changes::{Changes, Problem};
use std::alloc::{AllocError, Global};
use std::process::Abort;
use std::test::Fail;

fn name_of(alloc: Global, byte: u8) -> Result<Name, AllocError> {
    let mut bytes = Vec::new(alloc);
    bytes.push(byte)?;
    Ok(Name::from_vec(bytes))
}

fn column(alloc: Global, byte: u8, cost: i64) -> Result<ColumnPart, AllocError> {
    Ok(ColumnPart {
        name: name_of(alloc, byte)?,
        cost,
        low: Some(0),
        high: Some(3),
        implied: false,
    })
}

fn row(
    alloc: Global,
    byte: u8,
    sense: RowSense,
    rhs: i64,
    first: (u32, i64),
    second: (u32, i64),
) -> Result<Row, AllocError> {
    Ok(Row {
        name: name_of(alloc, byte)?,
        sense,
        rhs,
        range: None,
        terms: Terms::from_vec(vec![in alloc; first, second]?),
    })
}

// Costs of -3 and -2, and 2x + y at most 4. Scenario 0 is the base, in scenario 1 the cost of y is -9,
// and scenario 2 has no row.
fn capacity(rt: &impl Abort, alloc: Global) -> Result<Problem, Fail> {
    let columns = vec![in alloc; column(alloc, b'x', -3)?, column(alloc, b'y', -2)?]?;
    let rows = vec![in alloc; row(alloc, b'c', RowSense::L, 4, (0, 2), (1, 1))?]?;
    let parts = Parts {
        columns,
        rows,
        constant: 0,
        direction: Direction::Min,
    };
    let model = Model::build(alloc, parts)?;
    let mut changes = Changes::new(alloc, &model)?;
    changes.set_num_scenarios(3)?;
    changes.select(1)?;
    changes.set_obj(1, Some(-9))?;
    changes.select(2)?;
    changes.set_rhs(0, Some(Rhs::Inf))?;
    assert!(rt; changes.fits(&model));
    Ok(Problem::new(alloc, model, changes)?)
}

// Costs of 1, 2, 2 and 3, x + y at least 4, and z + w equal to 5.
fn covering(rt: &impl Abort, alloc: Global) -> Result<Problem, Fail> {
    let columns = vec![in alloc;
        column(alloc, b'x', 1)?,
        column(alloc, b'y', 2)?,
        column(alloc, b'z', 2)?,
        column(alloc, b'w', 3)?,
    ]?;
    let rows = vec![in alloc;
        row(alloc, b'a', RowSense::G, 4, (0, 1), (1, 1))?,
        row(alloc, b'b', RowSense::E, 5, (2, 1), (3, 1))?,
    ]?;
    let parts = Parts {
        columns,
        rows,
        constant: 0,
        direction: Direction::Min,
    };
    let model = Model::build(alloc, parts)?;
    let changes = Changes::new(alloc, &model)?;
    assert!(rt; changes.fits(&model));
    Ok(Problem::new(alloc, model, changes)?)
}

fn are_below(live: LiveSet, count: u32) -> bool
    ensures { IsTrue result → All (λ s. s < count) live }
{
    live.iter().all(|s| s < count)
}

fn copies(alloc: Global, bounds: &PointBox, count: usize) -> Result<Vec<PointBox>, AllocError>
    ensures count { IfOk result (λ v. length v.items ≡ count) }
    ensures columns { IfOk result (λ v. All (λ b. length b ≡ length bounds.now) v.items) }
{
    let mut boxes = Vec::new(alloc);
    'copies: while boxes.len() < count {
        boxes.push(bounds.copy(alloc)?)?;
    }
    Ok(boxes)
}

// The total after a search, where all scenarios have the same box.
fn total_after(
    rt: &impl Abort,
    alloc: Global,
    problem: &Problem,
    live: LiveSet,
    bounds: &PointBox,
    start: &Vector,
) -> Result<i128, Fail>
    requires columns { length bounds.now ≡ length problem.now.model.columns }
    requires rows { RowsBelow (length problem.now.model.rows) start.now.entries }
{
    assert!(rt; are_below(live, problem.count()));
    let boxes = copies(alloc, bounds, live.count() as usize)?;
    let found = search(alloc, problem, live, &boxes, start)?;
    assert_eq!(rt; found.scale(), start.scale());
    let mut total: i128 = 0;
    for s in 0..problem.count() {
        if live.contains(s) {
            let (costs, ends) = (problem.costs(s), problem.ends(s));
            let sum = evaluate(problem.model(), costs, ends, &found, bounds);
            total = total.saturating_add(sum);
        }
    }
    Ok(total)
}

#[test]
fn totals_under_one_row(rt: HostRuntime) -> Result<(), Fail> {
    let alloc = rt.alloc();
    let problem = capacity(&rt, alloc)?;
    let bounds = PointBox::from_ends(alloc, &[0, 0], &[3, 3])?;
    assert_eq!(rt; problem.model().rows(), 1);
    assert_eq!(rt; problem.model().columns(), 2);
    let mut second = LiveSet::none();
    second.insert(1);
    let mut third = LiveSet::none();
    third.insert(2);
    let costs_alone = Vector::new(alloc, 1, &[])?;
    // -3 times 4 and nothing else is the best of scenario 0 at the scale 2, from each start.
    for (multiplier, total) in [(-1, -15), (-5, -15), (-1_000_000, -15)] {
        let start = Vector::new(alloc, 2, &[(0, multiplier)])?;
        let found = total_after(&rt, alloc, &problem, LiveSet::full(1), &bounds, &start)?;
        assert_eq!(rt; found, total, "from {multiplier}");
    }
    // Without the row nothing is gained.
    for (live, total) in [
        (LiveSet::none(), 0),
        (LiveSet::full(1), -8),
        (second, -29),
        (LiveSet::full(2), -37),
        (third, -15),
        (LiveSet::full(3), -52),
    ] {
        let found = total_after(&rt, alloc, &problem, live, &bounds, &costs_alone)?;
        assert_eq!(rt; found, total);
    }
    Ok(())
}

#[test]
fn totals_of_covering_rows(rt: HostRuntime) -> Result<(), Fail> {
    let alloc = rt.alloc();
    let problem = covering(&rt, alloc)?;
    assert_eq!(rt; problem.model().rows(), 2);
    assert_eq!(rt; problem.model().columns(), 4);
    // The least costs are 5 and 12. The second box holds one point, and the third one none that is feasible,
    // so there the multiplier of the second row goes to its end.
    for (low, high, total) in [
        ([0, 0, 0, 0], [3, 3, 3, 3], 17),
        ([2, 2, 3, 2], [2, 2, 3, 2], 18),
        ([2, 2, 2, 2], [2, 2, 2, 2], 1_099_511_627_792),
    ] {
        let bounds = PointBox::from_ends(alloc, &low, &high)?;
        let start = Vector::new(alloc, 1, &[])?;
        let found = total_after(&rt, alloc, &problem, LiveSet::full(1), &bounds, &start)?;
        assert_eq!(rt; found, total);
    }
    Ok(())
}
