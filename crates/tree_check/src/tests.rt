// Logs that are accepted, and logs with one change that aren't.
use crate::{CheckError, check};
use certs::{Cert, Node, Steps, Tree, Vectors, Verdict, Verdicts};
use dual_bounds::Vector;
use int_model::{ColumnPart, Direction, Model, Name, Parts, Point, Rhs, Row, RowSense, Terms};
use live_sets::LiveSet;
use scenario_changes::{Answer, Answers, Changes, Problem};
use std::alloc::{AllocError, Global};
use std::process::Abort;
use std::test::Fail;
use tighten::{RowEnd, Step};
use tree_log::LogFile;

fn name_of(alloc: Global, letter: u8) -> Result<Name, AllocError> {
    Ok(Name::from_vec(vec![in alloc; letter]?))
}

fn column(alloc: Global, letter: u8, cost: i64, high: i64) -> Result<ColumnPart, AllocError> {
    Ok(ColumnPart {
        name: name_of(alloc, letter)?,
        cost,
        low: Some(0),
        high: Some(high),
        implied: false,
    })
}

fn model_of(
    alloc: Global,
    columns: Vec<ColumnPart>,
    sense: RowSense,
    rhs: i64,
    terms: Vec<(u32, i64)>,
) -> Result<Model, Fail> {
    let row = Row {
        name: name_of(alloc, b'r')?,
        sense,
        rhs,
        range: None,
        terms: Terms::from_vec(terms),
    };
    let parts = Parts {
        columns,
        rows: vec![in alloc; row]?,
        constant: 0,
        direction: Direction::Min,
    };
    Ok(Model::build(alloc, parts)?)
}

// The least -3x - 2y for x and y in 0..3 with 2x + y at most 4, and scenarios with the right-hand side 2, the
// cost -5 of x, and x at least 3.
fn capacities(rt: &impl Abort, alloc: Global) -> Result<Problem, Fail> {
    let columns = vec![in alloc; column(alloc, b'x', -3, 3)?, column(alloc, b'y', -2, 3)?]?;
    let model = model_of(
        alloc,
        columns,
        RowSense::L,
        4,
        vec![in alloc; (0, 2), (1, 1)]?,
    )?;
    let mut changes = Changes::new(alloc, &model)?;
    changes.set_num_scenarios(4)?;
    changes.select(1)?;
    changes.set_rhs(0, Some(Rhs::Value(2)))?;
    changes.select(2)?;
    changes.set_obj(0, Some(-5))?;
    changes.select(3)?;
    changes.set_lb(0, Some(3))?;
    assert!(rt; changes.fits(&model));
    Ok(Problem::new(alloc, model, changes)?)
}

// An even sum of three numbers 0 or 1 that is to be this.
fn even_sum(alloc: Global, rhs: i64) -> Result<Problem, Fail> {
    let mut columns = Vec::new(alloc);
    for letter in [b'x', b'y', b'z'] {
        columns.push(column(alloc, letter, 0, 1)?)?;
    }
    let terms = vec![in alloc; (0, 2), (1, 2), (2, 2)]?;
    let model = model_of(alloc, columns, RowSense::E, rhs, terms)?;
    let changes = Changes::new(alloc, &model)?;
    Ok(Problem::new(alloc, model, changes)?)
}

fn optimal(alloc: Global, x: i32, y: i32, value: i64) -> Result<Answer, AllocError> {
    let point = Point::from_vec(vec![in alloc; x, y]?);
    Ok(Answer::Optimal { point, value })
}

// One change of the log of the capacities.
#[derive(Clone, Copy, Debug, PartialEq, Eq)]
enum Change {
    Nothing,
    OneColumnMore,
    OneRowLess,
    OneAnswerLess,
    NoNode,
    NodeWithoutParent,
    PointOutsideTheRow,
    ValueTooLow,
    BoundAtTheValue,
    WeakVector,
    MissingVector,
    OneVerdictLess,
    VerdictOfNoRow,
    NothingRecorded,
}

// The claims, with the change.
fn answers_with(alloc: Global, change: Change) -> Result<Answers, AllocError> {
    let mut answers = Vec::new(alloc);
    if change == Change::BoundAtTheValue {
        let best = Some((Point::from_vec(vec![in alloc; 1, 2]?), -7));
        answers.push(Answer::Limit { best, bound: -7 })?;
    } else {
        answers.push(optimal(alloc, 1, 2, -7)?)?;
    }
    if change == Change::PointOutsideTheRow {
        answers.push(optimal(alloc, 1, 1, -5)?)?;
    } else {
        answers.push(optimal(alloc, 0, 2, -4)?)?;
    }
    let value = if change == Change::ValueTooLow {
        -11
    } else {
        -10
    };
    answers.push(optimal(alloc, 2, 0, value)?)?;
    if change != Change::OneAnswerLess {
        answers.push(Answer::Infeasible)?;
    }
    Ok(Answers::from_vec(answers))
}

// The verdicts of the only node, with the change.
fn verdicts_with(alloc: Global, change: Change) -> Result<Verdicts, AllocError> {
    let mut verdicts = Vec::new(alloc);
    verdicts.push(Verdict::Bound(0))?;
    verdicts.push(Verdict::Bound(0))?;
    verdicts.push(Verdict::Bound(if change == Change::MissingVector {
        2
    } else {
        1
    }))?;
    if change == Change::VerdictOfNoRow {
        verdicts.push(Verdict::Misses(0))?;
    } else if change != Change::OneVerdictLess {
        verdicts.push(Verdict::Empty)?;
    }
    Ok(Verdicts::from_vec(verdicts))
}

fn step(row: u32, column: u32, side: RowEnd) -> Step {
    Step { row, column, side }
}

// The nodes, with the change.
fn tree_with(alloc: Global, change: Change) -> Result<Tree, Fail> {
    let mut nodes = Vec::new(alloc);
    if change == Change::NothingRecorded {
        nodes.push(Node::Rest)?;
    } else if change != Change::NoNode {
        let steps = vec![in alloc; step(0, 0, RowEnd::Upper), step(0, 1, RowEnd::Upper)]?;
        let mut vectors = Vectors::new(alloc);
        vectors.push(Vector::new(alloc, 2, &[(0, -3)])?);
        let multiplier = if change == Change::WeakVector { -1 } else { -2 };
        vectors.push(Vector::new(alloc, 1, &[(0, multiplier)])?);
        let cert = Cert {
            steps: Steps::from_vec(steps),
            vectors,
        };
        nodes.push(Node::Leaf {
            cert,
            verdicts: verdicts_with(alloc, change)?,
        })?;
    }
    if change == Change::NodeWithoutParent {
        nodes.push(Node::Rest)?;
    }
    Ok(Tree::from_vec(nodes))
}

// The log of the capacities, with the change.
fn log_with(alloc: Global, change: Change) -> Result<LogFile, Fail> {
    Ok(LogFile {
        columns: if change == Change::OneColumnMore {
            3
        } else {
            2
        },
        rows: if change == Change::OneRowLess { 0 } else { 1 },
        answers: answers_with(alloc, change)?,
        tree: tree_with(alloc, change)?,
    })
}

// What is wrong with a log, None where it is accepted.
fn fault(alloc: Global, problem: &Problem, log: LogFile) -> Option<CheckError> {
    check(alloc, problem, log).err()
}

#[test]
fn one_change_is_refused(rt: HostRuntime) -> Result<(), Fail> {
    let alloc = rt.alloc();
    let problem = capacities(&rt, alloc)?;
    let shape = |node| Some(CheckError::Shape { node });
    let cases = [
        (Change::Nothing, None),
        (Change::OneColumnMore, shape(0)),
        (Change::OneRowLess, shape(0)),
        (Change::OneAnswerLess, shape(0)),
        (Change::NoNode, shape(0)),
        (Change::NodeWithoutParent, shape(1)),
        (
            Change::PointOutsideTheRow,
            Some(CheckError::PointWrong { scenario: 1 }),
        ),
        (
            Change::ValueTooLow,
            Some(CheckError::PointWrong { scenario: 2 }),
        ),
        (
            Change::BoundAtTheValue,
            Some(CheckError::ClaimWrong { scenario: 0 }),
        ),
        (
            Change::WeakVector,
            Some(CheckError::Level {
                node: 0,
                scenario: 2,
            }),
        ),
        (Change::MissingVector, shape(0)),
        (Change::OneVerdictLess, shape(0)),
        (Change::VerdictOfNoRow, shape(0)),
        (
            Change::NothingRecorded,
            Some(CheckError::Level {
                node: 0,
                scenario: 0,
            }),
        ),
    ];
    for (change, wanted) in cases {
        let log = log_with(alloc, change)?;
        assert_eq!(rt; fault(alloc, &problem, log), wanted, "at {change:?}");
    }
    Ok(())
}

// A leaf with two steps that ends by this verdict.
fn leaf(alloc: Global, side: RowEnd, verdict: Verdict) -> Result<Node, AllocError> {
    let steps = vec![in alloc; step(0, 1, side), step(0, 2, side)]?;
    Ok(Node::Leaf {
        cert: Cert {
            steps: Steps::from_vec(steps),
            vectors: Vectors::new(alloc),
        },
        verdicts: Verdicts::from_vec(vec![in alloc; verdict]?),
    })
}

// The log of the even sum: a split of the first column, with the first child of this number, and two leaves.
fn split_log(alloc: Global, child: u32, last: Verdict) -> Result<LogFile, Fail> {
    let mut vectors = Vectors::new(alloc);
    vectors.push(Vector::new(alloc, 1, &[])?);
    let split = Node::Split {
        cert: Cert {
            steps: Steps::from_vec(Vec::new(alloc)),
            vectors,
        },
        verdicts: Verdicts::from_vec(vec![in alloc; Verdict::Bound(0)]?),
        stay: LiveSet::full(1),
        child,
        column: 0,
        value: 0,
    };
    let left = leaf(alloc, RowEnd::Lower, Verdict::Misses(0))?;
    let right = leaf(alloc, RowEnd::Upper, last)?;
    Ok(LogFile {
        columns: 3,
        rows: 1,
        answers: Answers::from_vec(vec![in alloc; Answer::Infeasible]?),
        tree: Tree::from_vec(vec![in alloc; split, left, right]?),
    })
}

#[test]
fn each_node_has_one_place(rt: HostRuntime) -> Result<(), Fail> {
    let alloc = rt.alloc();
    let odd = even_sum(alloc, 3)?;
    let shape = |node| Some(CheckError::Shape { node });
    let log = split_log(alloc, 1, Verdict::Misses(0))?;
    assert_eq!(rt; fault(alloc, &odd, log), None);
    let log = split_log(alloc, 1, Verdict::Bound(0))?;
    assert_eq!(rt; fault(alloc, &odd, log), shape(2));
    // The children would be past the last node.
    let log = split_log(alloc, 2, Verdict::Misses(0))?;
    assert_eq!(rt; fault(alloc, &odd, log), shape(0));
    // The row can't be met anywhere, so that no scenario may stay.
    let beyond = even_sum(alloc, 7)?;
    let log = split_log(alloc, 1, Verdict::Misses(0))?;
    assert_eq!(rt; fault(alloc, &beyond, log), shape(0));
    Ok(())
}
