ghost use Rattle.std.specs.Prelude.{◌≡◌, length};
ghost use Rattle.certs.specs.Shared.{HaveShares};
ghost use Rattle.certs.specs.Verdicts.{AllRowsBelow};
ghost use Rattle.tighten.specs.declared.step.RowEnd.TheVariants.{Upper};

use super::*;
use dual_bounds::Vector;
use int_model::{ColumnPart, Direction, Model, Name, Parts, PointBox, Rhs, Row, RowSense, Terms};
use scenario_changes::{ChangeError, Changes, Problem};
use std::alloc::{AllocError, Global};
use std::test::Fail;
use tighten::{RowEnd, Step};

fn name(alloc: Global, letter: u8) -> Result<Name, AllocError> {
    let mut bytes = Vec::new(alloc);
    bytes.push(letter)?;
    Ok(Name::from_vec(bytes))
}

fn column(alloc: Global, letter: u8, cost: i64) -> Result<ColumnPart, AllocError> {
    Ok(ColumnPart {
        name: name(alloc, letter)?,
        cost,
        low: Some(0),
        high: Some(3),
        implied: false,
    })
}

// min -3x - 2y, x and y in 0..3, 2x + y at most 4.
fn cap(alloc: Global) -> Result<Parts, AllocError> {
    let row = Row {
        name: name(alloc, b'c')?,
        sense: RowSense::L,
        rhs: 4,
        range: None,
        terms: Terms::from_vec(vec![in alloc; (0, 2), (1, 1)]?),
    };
    Ok(Parts {
        columns: vec![in alloc; column(alloc, b'x', -3)?, column(alloc, b'y', -2)?]?,
        rows: vec![in alloc; row]?,
        constant: 0,
        direction: Direction::Min,
    })
}

fn upper(column: u32) -> Step
    ensures { result ≡ record { row = 0; column = column; side = Upper } }
{
    Step {
        row: 0,
        column,
        side: RowEnd::Upper,
    }
}

// Scenarios 1 to 3: a smaller side, another cost, x fixed at 3. Scenario 0 is the base.
fn set_scenarios(changes: &mut Changes) -> Result<(), ChangeError> {
    changes.set_num_scenarios(4)?;
    changes.select(1)?;
    changes.set_rhs(0, Some(Rhs::Value(2)))?;
    changes.select(2)?;
    changes.set_obj(0, Some(-5))?;
    changes.select(3)?;
    changes.set_lb(0, Some(3))?;
    Ok(())
}

// Both columns are narrowed by the row; half of a multiplier of -3, and a multiplier of -2.
fn two_vectors(alloc: Global) -> Result<Cert, Fail> {
    let mut vectors = Vectors::new(alloc);
    vectors.push(Vector::new(alloc, 2, &[(0, -3)])?);
    vectors.push(Vector::new(alloc, 1, &[(0, -2)])?);
    Ok(Cert {
        steps: Steps::from_vec(vec![in alloc; upper(0), upper(1)]?),
        vectors,
    })
}

fn shares_of(problem: &Problem, cert: &Cert) -> VectorShares
    requires { AllRowsBelow (length problem.now.model.rows) cert.now.vectors }
    ensures { HaveShares problem.now.model cert.now.vectors result }
{
    VectorShares::of(problem.model(), &cert.vectors)
}

#[test]
fn judges_four_scenarios_at_the_root_box(rt: HostRuntime) -> Result<(), Fail> {
    let model = Model::build(rt.alloc(), cap(rt.alloc())?)?;
    let mut changes = Changes::new(rt.alloc(), &model)?;
    set_scenarios(&mut changes)?;
    assert!(rt; changes.fits(&model));
    let problem = Problem::new(rt.alloc(), model, changes)?;
    let bounds = PointBox::from_ends(rt.alloc(), &[0, 0], &[3, 3])?;
    let cert = two_vectors(rt.alloc())?;
    assert!(rt; cert.fits(&problem));
    assert_eq!(rt; problem.model().columns(), 2);
    let table = [
        (0, Verdict::Bound(0), Some(Level::Value(-7))),
        (1, Verdict::Bound(0), Some(Level::Value(-4))),
        (2, Verdict::Bound(1), Some(Level::Value(-10))),
        (3, Verdict::Empty, Some(Level::Inf)),
        (0, Verdict::Empty, None),
        (0, Verdict::Point, None),
        (0, Verdict::Misses(0), None),
        (0, Verdict::Farkas(0), None),
        (0, Verdict::Bound(2), None),
        (3, Verdict::Bound(0), None),
    ];
    let shares = shares_of(&problem, &cert);
    for (s, verdict, level) in table {
        let mut scratch = bounds.copy(rt.alloc())?;
        assert!(rt; s < problem.count());
        let found = judge(&problem, s, &bounds, &cert, &shares, verdict, &mut scratch);
        assert_eq!(rt; found, level);
    }
    Ok(())
}

#[test]
fn compares_levels(rt: HostRuntime) -> Result<(), Fail> {
    let low = Level::Value(3);
    assert!(rt; low < Level::Inf);
    assert!(rt; low.is_at_most(low));
    assert_eq!(rt; low.greater_level(Level::Inf), Level::Inf);
    assert_eq!(rt; low.lesser_level(Level::Value(-1)), Level::Value(-1));
    for (level, cap, reaches) in [
        (low, Some(3), true),
        (low, Some(4), false),
        (low, None, false),
        (Level::Inf, None, true),
    ] {
        assert_eq!(rt; level.reaches(cap), reaches);
    }
    Ok(())
}

#[test]
fn judges_at_a_root_box(rt: HostRuntime) -> Result<(), Fail> {
    let model = Model::build(rt.alloc(), cap(rt.alloc())?)?;
    let changes = Changes::new(rt.alloc(), &model)?;
    let problem = Problem::new(rt.alloc(), model, changes)?;
    let bounds = PointBox::from_ends(rt.alloc(), &[0, 0], &[3, 3])?;
    let mut scratch = bounds.copy(rt.alloc())?;
    assert_eq!(rt; problem.count(), 1);
    assert_eq!(rt; problem.model().rows(), 1);
    assert_eq!(rt; problem.model().columns(), 2);
    let mut vectors = Vectors::new(rt.alloc());
    vectors.push(Vector::new(rt.alloc(), 2, &[(0, -3)])?);
    let cert = Cert {
        steps: Steps::from_vec(vec![in rt.alloc(); upper(0), upper(1)]?),
        vectors,
    };
    assert!(rt; cert.fits(&problem));
    let shares = shares_of(&problem, &cert);
    let level = judge(
        &problem,
        0,
        &bounds,
        &cert,
        &shares,
        Verdict::Bound(0),
        &mut scratch,
    );
    assert_eq!(rt; level, Some(Level::Value(-7)));
    assert_eq!(rt; scratch.highs(), [2, 3].as_slice());
    assert_eq!(rt; start_level(&problem, 0), Level::Value(-15));
    assert!(rt; Level::Value(3) < Level::Inf);
    Ok(())
}

#[test]
fn lists_keep_their_items(rt: HostRuntime) -> Result<(), Fail> {
    let verdicts = Verdicts::from_vec(vec![in rt.alloc(); Verdict::Point, Verdict::Empty]?);
    assert_eq!(rt; verdicts.len(), 2);
    assert_eq!(rt; verdicts.get(1).copied(), Some(Verdict::Empty));
    assert_eq!(rt;
        verdicts.as_slice(),
        [Verdict::Point, Verdict::Empty].as_slice()
    );
    let levels = Levels::from_vec(vec![in rt.alloc(); Level::Inf]?);
    assert_eq!(rt; levels.len(), 1);
    assert_eq!(rt; levels.get(1).copied(), None);
    assert_eq!(rt; levels.as_slice(), [Level::Inf].as_slice());
    let leaf = Node::Leaf {
        cert: two_vectors(rt.alloc())?,
        verdicts,
    };
    let tree = Tree::from_vec(vec![in rt.alloc(); leaf]?);
    assert_eq!(rt; tree.len(), 1);
    assert!(rt; matches!(tree.get(0), Some(Node::Leaf { .. })));
    assert_eq!(rt; tree.as_slice().len(), 1);
    Ok(())
}
