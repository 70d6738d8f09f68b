// What no clause says: that a whole log is written, by a worked text.

use crate::write_log;
use certs::{Cert, Node, Steps, Tree, Vectors, Verdict, Verdicts};
use dual_bounds::Vector;
use int_model::{ColumnPart, Direction, Model, Name, Parts, Point, Row, RowSense, Terms};
use live_sets::LiveSet;
use scenario_changes::{Answer, Answers, Changes, Problem};
use std::alloc::{AllocError, Global};
use std::test::Fail;
use tighten::{RowEnd, Step};

fn name(alloc: Global, letter: u8) -> Result<Name, AllocError> {
    let mut bytes = Vec::new(alloc);
    bytes.push(letter)?;
    Ok(Name::from_vec(bytes))
}

fn column(alloc: Global, letter: u8, cost: i64) -> Result<ColumnPart, AllocError> {
    Ok(ColumnPart {
        name: name(alloc, letter)?,
        cost,
        low: Some(0),
        high: Some(3),
        implied: false,
    })
}

// Two columns and one row.
fn problem(alloc: Global) -> Result<Problem, Fail> {
    let row = Row {
        name: name(alloc, b'c')?,
        sense: RowSense::L,
        rhs: 4,
        range: None,
        terms: Terms::from_vec(vec![in alloc; (0, 2), (1, 1)]?),
    };
    let parts = Parts {
        columns: vec![in alloc; column(alloc, b'x', -3)?, column(alloc, b'y', -2)?]?,
        rows: vec![in alloc; row]?,
        constant: 0,
        direction: Direction::Min,
    };
    let model = Model::build(alloc, parts)?;
    let changes = Changes::new(alloc, &model)?;
    Ok(Problem::new(alloc, model, changes)?)
}

fn point(alloc: Global, x: i32, y: i32) -> Result<Point, AllocError> {
    Ok(Point::from_vec(vec![in alloc; x, y]?))
}

// An answer of each form.
fn answers(alloc: Global) -> Result<Answers, AllocError> {
    let optimal = Answer::Optimal {
        point: point(alloc, 1, 2)?,
        value: -7,
    };
    let bounded = Answer::Limit {
        best: None,
        bound: -9,
    };
    let between = Answer::Limit {
        best: Some((point(alloc, 0, -3)?, 5)),
        bound: -2,
    };
    let items = vec![in alloc; optimal, bounded, between, Answer::Infeasible]?;
    Ok(Answers::from_vec(items))
}

fn cert(alloc: Global) -> Result<Cert, Fail> {
    let steps = vec![in alloc;
        Step {
            row: 0,
            column: 1,
            side: RowEnd::Upper
        },
        Step {
            row: 0,
            column: 0,
            side: RowEnd::Lower
        },
    ]?;
    let mut vectors = Vectors::new(alloc);
    vectors.push(Vector::new(alloc, 2, &[(0, -3)])?);
    vectors.push(Vector::new(alloc, 0, &[])?);
    Ok(Cert {
        steps: Steps::from_vec(steps),
        vectors,
    })
}

fn bare(alloc: Global) -> Cert {
    Cert {
        steps: Steps::from_vec(Vec::new(alloc)),
        vectors: Vectors::new(alloc),
    }
}

// A split, a leaf and a node without a record.
fn tree(alloc: Global) -> Result<Tree, Fail> {
    let mut stay = LiveSet::none();
    stay.insert(3);
    stay.insert(1);
    let split = Node::Split {
        cert: cert(alloc)?,
        verdicts: Verdicts::from_vec(vec![in alloc; Verdict::Bound(0), Verdict::Farkas(1)]?),
        stay,
        child: 1,
        column: 0,
        value: -1,
    };
    let leaf = Node::Leaf {
        cert: bare(alloc),
        verdicts: Verdicts::from_vec(vec![in alloc;
            Verdict::Empty,
            Verdict::Misses(0),
            Verdict::Point,
        ]?),
    };
    Ok(Tree::from_vec(vec![in alloc; split, leaf, Node::Rest]?))
}

const TEXT: &[u8] =
    b"scenlog 1\nsize 4 2 1 3\nclaim optimal -7 1 2\nclaim limit none -9\nclaim limit 5 -2 0 -3\nclaim infeasible\nsplit 1 0 -1\nstay 1 3\nsteps 2 0 1 U 0 0 L\nvector 2 1 0 -3\nvector 0 0\nverdicts b0 f1\nleaf\nsteps 0\nverdicts e m0 p\nrest\nend\n";

#[test]
fn writes_a_log(rt: HostRuntime) -> Result<(), Fail> {
    let problem = problem(rt.alloc())?;
    let answers = answers(rt.alloc())?;
    let tree = tree(rt.alloc())?;
    let text = write_log(rt.alloc(), &problem, &answers, &tree)?;
    assert_eq!(rt; text.as_slice(), TEXT);
    Ok(())
}
