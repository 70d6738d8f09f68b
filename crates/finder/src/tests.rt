// What no clause says: worked values, and one call of each public function.
ghost use Rattle.std.specs.Prelude.{◌≡◌, ◌<◌, length, IfOk};
ghost use Rattle.finder.specs.Found.{scenario_count, IsSameHolder};

use super::*;
use incumbent_words::Words;
use int_model::{ColumnPart, Direction, Model, Name, Parts, Row, RowSense, Terms};
use scenario_changes::{Changes, Problem};
use std::alloc::{AllocError, Global};
use std::process::Abort;
use std::test::Fail;

fn column(alloc: Global, byte: u8, cost: i64) -> Result<ColumnPart, AllocError> {
    Ok(ColumnPart {
        name: Name::from_vec(vec![in alloc; byte]?),
        cost,
        low: Some(0),
        high: Some(3),
        implied: false,
    })
}

// The least -3x - 2y for x and y in 0..3 with 2x + y at most 4.
fn model(alloc: Global) -> Result<Model, Fail> {
    let columns = vec![in alloc; column(alloc, b'x', -3)?, column(alloc, b'y', -2)?]?;
    let row = Row {
        name: Name::from_vec(vec![in alloc; b'c']?),
        sense: RowSense::L,
        rhs: 4,
        range: None,
        terms: Terms::from_vec(vec![in alloc; (0, 2), (1, 1)]?),
    };
    let rows = vec![in alloc; row]?;
    Ok(Model::build(
        alloc,
        Parts {
            columns,
            rows,
            constant: 0,
            direction: Direction::Min,
        },
    )?)
}

fn problem(alloc: Global) -> Result<Problem, Fail> {
    let model = model(alloc)?;
    let changes = Changes::new(alloc, &model)?;
    Ok(Problem::new(alloc, model, changes)?)
}

// Offers a point that has to be feasible.
fn offer(rt: &impl Abort, problem: &Problem, words: &Words, finder: &mut Finder<'_>, x: &[i32])
    requires table { finder.old.seat.table ≡ words.now }
    requires problem { finder.old.problem ≡ problem.now }
    requires some { 0 < scenario_count problem.now }
    ensures { IsSameHolder finder.old finder.new }
{
    assert!(rt; problem.meets(0, x));
    finder.offer(words, 0, x);
}

// Whether the best point is this one.
fn has_best(finder: &Finder<'_>, x: &[i32], value: i64) -> bool
    requires { 0 < scenario_count finder.now.problem }
{
    match finder.best(0) {
        Some((point, best)) => point == x && best == value,
        None => false,
    }
}

// Two finders over the same words, for one scenario and two columns.
fn two_finders(
    alloc: Global,
    problem: &Problem,
) -> Result<(Words, Finder<'_>, Finder<'_>), AllocError>
    requires scenarios { scenario_count problem.now ≡ 1 }
    requires columns { length problem.now.model.columns ≡ 2 }
    ensures tables { IfOk result (λ r. (r.1.seat.table ≡ r.0) × (r.2.seat.table ≡ r.0)) }
    ensures problems { IfOk result (λ r. (r.1.problem ≡ problem.now) × (r.2.problem ≡ problem.now)) }
{
    let (words, mut seat) = Words::make(alloc, 1)?;
    let other = words.member(alloc, &mut seat)?;
    let first = Finder::new(problem, seat, BestPoints::make(alloc, 1, 2)?);
    let second = Finder::new(problem, other, BestPoints::make(alloc, 1, 2)?);
    Ok((words, first, second))
}

// Makes the second finder learn the first one's value from the word, and puts the two together.
fn learn_and_merge<'a>(
    rt: &impl Abort,
    alloc: Global,
    words: &Words,
    first: Finder<'a>,
    second: &mut Finder<'a>,
) -> Result<(), AllocError>
    requires first { first.seat.table ≡ words.now }
    requires second { second.old.seat.table ≡ words.now }
    requires problem { first.problem ≡ second.old.problem }
    requires some { 0 < scenario_count second.old.problem }
    ensures { second.new.problem ≡ second.old.problem }
{
    let learnt = second.look(words, 0);
    assert!(rt; learnt == Some(-7));
    let note = second.note(alloc, words)?;
    second.merge(words, first);
    second.absorb(words, note);
    Ok(())
}

// Whether the second of two finders has the first one's better point once they are merged.
fn has_the_better(rt: &impl Abort, alloc: Global, problem: &Problem) -> Result<bool, AllocError>
    requires scenarios { scenario_count problem.now ≡ 1 }
    requires columns { length problem.now.model.columns ≡ 2 }
{
    let (words, mut first, mut second) = two_finders(alloc, problem)?;
    offer(rt, problem, &words, &mut first, &[1, 2]);
    offer(rt, problem, &words, &mut first, &[2, 0]);
    offer(rt, problem, &words, &mut second, &[0, 3]);
    learn_and_merge(rt, alloc, &words, first, &mut second)?;
    Ok(has_best(&second, &[1, 2], -7))
}

#[test]
fn the_better_point_is_merged(rt: HostRuntime) -> Result<(), Fail> {
    let problem = problem(rt.alloc())?;
    assert!(rt; problem.count() == 1);
    assert!(rt; problem.model().columns() == 2);
    let better = has_the_better(&rt, rt.alloc(), &problem)?;
    assert!(rt; better);
    Ok(())
}
