// What no clause says: worked texts, and that a text is read at all.
ghost use Rattle.std.specs.Prelude.{length};
ghost use Rattle.int_model.specs.Limits.{IsNameLength};

use crate::{ChangesError, ChangesKind, MAX_BYTES, read_changes};
use int_model::{ColumnPart, Direction, Ends, Model, Name, Parts, Row, RowSense, Terms};
use scenario_changes::Problem;
use std::alloc::{AllocError, Global};
use std::process::Abort;
use std::test::Fail;

fn name_of(alloc: Global, text: &[u8]) -> Result<Name, AllocError>
    requires { IsNameLength (length text.now) }
{
    Ok(Name::from_vec(text.to_vec(alloc)?))
}

fn column(alloc: Global, name: &[u8], cost: i64) -> Result<ColumnPart, AllocError>
    requires { IsNameLength (length name.now) }
{
    Ok(ColumnPart {
        name: name_of(alloc, name)?,
        cost,
        low: Some(0),
        high: Some(3),
        implied: false,
    })
}

fn row(alloc: Global, name: &[u8], sense: RowSense, range: Option<i64>) -> Result<Row, AllocError>
    requires { IsNameLength (length name.now) }
{
    Ok(Row {
        name: name_of(alloc, name)?,
        sense,
        rhs: 4,
        range,
        terms: Terms::from_vec(vec![in alloc; (0, 2), (1, 1)]?),
    })
}

// x and y in 0..3 with the costs -3 and -2, and the sum 2x + y in a row of each sense, and in one with a range.
fn model(alloc: Global) -> Result<Model, Fail> {
    let columns = vec![in alloc; column(alloc, b"x", -3)?, column(alloc, b"y", -2)?]?;
    let rows = vec![in alloc;
        row(alloc, b"cap", RowSense::L, None)?,
        row(alloc, b"need", RowSense::G, None)?,
        row(alloc, b"just", RowSense::E, None)?,
        row(alloc, b"band", RowSense::L, Some(2))?,
    ]?;
    Ok(Model::build(
        alloc,
        Parts {
            columns,
            rows,
            constant: 0,
            direction: Direction::Min,
        },
    )?)
}

// The refusal of a text, None where its changes are read.
fn refusal(
    rt: &impl Abort,
    alloc: Global,
    model: &Model,
    text: &str,
) -> Result<Option<ChangesError>, Fail> {
    assert!(rt; text.len() <= MAX_BYTES);
    match read_changes(alloc, model, text.as_bytes()) {
        Ok(_) => Ok(None),
        Err(error) => Ok(Some(error)),
    }
}

// The problem of the model and the changes of a text, and the scenario that is selected.
fn problem(rt: &impl Abort, alloc: Global, text: &str) -> Result<(Problem, u32), Fail> {
    assert!(rt; text.len() <= MAX_BYTES);
    let model = model(alloc)?;
    let changes = read_changes(alloc, &model, text.as_bytes())?;
    let selected = changes.selected();
    Ok((Problem::new(alloc, model, changes)?, selected))
}

#[test]
fn reads_the_worked_changes(rt: HostRuntime) -> Result<(), Fail> {
    let text = "scenarios 4\nscenario 1\nrhs cap 2\nscenario 2\nobj x -5\nscenario 3\nlb x 3\n";
    let (problem, selected) = problem(&rt, rt.alloc(), text)?;
    assert_eq!(rt; selected, 3);
    assert_eq!(rt; problem.num_scenarios(), 4);
    let rows = [(0, 4), (1, 2), (2, 4), (3, 4)];
    for (scenario, upper) in rows {
        assert!(rt; scenario < problem.count());
        let ends = problem.ends(scenario);
        assert!(rt; !ends.is_empty());
        assert_eq!(rt;
            ends[0],
            Ends {
                lower: None,
                upper: Some(upper)
            },
            "at {scenario}"
        );
    }
    let columns = [(0, -3, 0), (1, -3, 0), (2, -5, 0), (3, -3, 3)];
    for (scenario, cost, low) in columns {
        assert!(rt; scenario < problem.count());
        assert_eq!(rt;
            problem.costs(scenario),
            [cost, -2].as_slice(),
            "at {scenario}"
        );
        assert_eq!(rt;
            problem.lows(scenario),
            [low, 0].as_slice(),
            "at {scenario}"
        );
    }
    Ok(())
}

#[test]
fn selects_back_and_forth(rt: HostRuntime) -> Result<(), Fail> {
    let text =
        "* two scenarios\r\nscenarios 2\r\n\r\n\tub x 1\r\nscenario 1\r\nub x 2\r\nname  b \r\nscenario 0\r\nub x 3\r\nub y undefined";
    let (problem, selected) = problem(&rt, rt.alloc(), text)?;
    assert_eq!(rt; selected, 0);
    assert_eq!(rt; problem.num_scenarios(), 2);
    assert!(rt; problem.count() == 2);
    assert_eq!(rt; problem.highs(0), [3, 3].as_slice());
    assert_eq!(rt; problem.highs(1), [2, 3].as_slice());
    assert_eq!(rt; problem.name(0), None);
    assert_eq!(rt; problem.name(1), Some(b"b".as_slice()));
    Ok(())
}

#[test]
fn removes_rows(rt: HostRuntime) -> Result<(), Fail> {
    let alloc = rt.alloc();
    let model = model(alloc)?;
    let bad = Some(ChangesError::Line {
        line: 2,
        kind: ChangesKind::BadRemoval,
    });
    let cases = [
        ("scenarios 1\nrhs cap inf", None),
        ("scenarios 1\nrhs cap -inf", bad),
        ("scenarios 1\nrhs need -inf", None),
        ("scenarios 1\nrhs need inf", bad),
        ("scenarios 1\nrhs just inf", bad),
        ("scenarios 1\nrhs just -inf", bad),
        ("scenarios 1\nrhs band inf", bad),
        ("scenarios 1\nrhs band -inf", bad),
        ("scenarios 1\nrhs band 1e18", None),
    ];
    for (text, wanted) in cases {
        assert_eq!(rt; refusal(&rt, alloc, &model, text)?, wanted, "at {text}");
    }
    Ok(())
}

#[test]
fn refuses_the_first_line(rt: HostRuntime) -> Result<(), Fail> {
    let alloc = rt.alloc();
    let model = model(alloc)?;
    let cases = [
        ("scenario 1\nrhs cap 2\n", 1, ChangesKind::Header),
        (
            "scenarios 4\nscenario 1\nrhs cost 1\n",
            3,
            ChangesKind::UnknownRow,
        ),
        ("scenarios 4\nscenario 1\nrhs cap\n", 3, ChangesKind::Fields),
        (
            "scenarios 4\nscenario 1\nrhs cap 2\nscenario 4\n",
            4,
            ChangesKind::NoScenario,
        ),
        ("scenarios 4\n\n* a line\nprice x 1\n", 4, ChangesKind::Word),
        ("scenarios 4\nobj x", 2, ChangesKind::Fields),
        ("scenarios 65\n", 1, ChangesKind::TooMany),
        ("scenarios 64\nscenario 64\n", 2, ChangesKind::NoScenario),
        ("scenarios 1\nscenarios 1 1\n", 2, ChangesKind::Header),
        ("scenarios 0\nobj z one\n", 2, ChangesKind::NoScenario),
        ("scenarios 1\nobj z one\n", 2, ChangesKind::UnknownColumn),
        (
            "scenarios 1\nobj x 1e9\nobj x 1000000001\n",
            3,
            ChangesKind::Magnitude,
        ),
        (
            "scenarios 1\nub x 1e6\nlb x -1000001\n",
            3,
            ChangesKind::Magnitude,
        ),
        ("scenarios 1\nlb x 0.5\n", 2, ChangesKind::Fraction),
        ("scenarios 1\nlb x inf\n", 2, ChangesKind::Number),
    ];
    for (text, line, kind) in cases {
        let wanted = Some(ChangesError::Line { line, kind });
        assert_eq!(rt; refusal(&rt, alloc, &model, text)?, wanted, "at {text}");
    }
    Ok(())
}

#[test]
fn names_have_255_bytes_at_most(rt: HostRuntime) -> Result<(), Fail> {
    let alloc = rt.alloc();
    let model = model(alloc)?;
    let mut text = String::from_str(alloc, "scenarios 1\nname ")?;
    for _ in 0..255u32 {
        text.push_str("n")?;
    }
    assert_eq!(rt; refusal(&rt, alloc, &model, text.as_str())?, None);
    text.push_str("n")?;
    let long = Some(ChangesError::Line {
        line: 2,
        kind: ChangesKind::LongName,
    });
    assert_eq!(rt; refusal(&rt, alloc, &model, text.as_str())?, long);
    Ok(())
}
