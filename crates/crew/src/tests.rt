// Crews on small problems whose answers are known, with workers that are seen to work side by side.
ghost use Rattle.std.specs.Prelude.{◌<◌, ◌≤◌};

use super::*;
use incumbent_words::Words;
use int_model::{ColumnPart, Direction, Model, Name, Parts, Row, RowSense, Terms};
use open_pool::Pool;
use scenario_changes::{Answer, Changes, Problem};
use std::alloc::{AllocError, Global};
use std::sync::Wait;
use std::sync::atomic::{AtomicU64, Ordering};
use std::test::Fail;
use std::thread;
use std::thread::Threads;
use worker_gate::{Gate, GatePoint, OpenGate};

// Holds the worker of the second call at Claimed until another worker makes a later one, for at most a
// million turns.
#[derive(Drop)]
struct HoldGate {
    calls: AtomicU64,
    held: AtomicU64,
    later: AtomicU64,
    released: AtomicU64,
}

impl Gate for HoldGate {
    fn at<R: Wait + Sync>(&self, _rt: &R, worker: u32, point: GatePoint) {
        if point != GatePoint::Claimed {
            return;
        }
        let call = self.calls.fetch_add(1, Ordering::SeqCst);
        if call == 1 {
            self.held.store(u64::from(worker) + 1, Ordering::SeqCst);
            for _ in 0..1_000_000u32 {
                if self.later.load(Ordering::SeqCst) == 1 {
                    self.released.store(1, Ordering::SeqCst);
                    return;
                }
                thread::yield_now();
            }
        } else if call > 1 && self.held.load(Ordering::SeqCst) != u64::from(worker) + 1 {
            self.later.store(1, Ordering::SeqCst);
        }
    }
}

fn name_of(alloc: Global, letter: u8) -> Result<Name, AllocError> {
    Ok(Name::from_vec(vec![in alloc; letter]?))
}

fn column(alloc: Global, letter: u8) -> Result<ColumnPart, AllocError> {
    Ok(ColumnPart {
        name: name_of(alloc, letter)?,
        cost: -1,
        low: Some(0),
        high: Some(1),
        implied: false,
    })
}

// The least -x - y - z for x, y and z in 0..1 with 2x + 2y + 2z as the row wants.
fn even_sum(alloc: Global, sense: RowSense) -> Result<Problem, Fail> {
    let row = Row {
        name: name_of(alloc, b'r')?,
        sense,
        rhs: 3,
        range: None,
        terms: Terms::from_vec(vec![in alloc; (0, 2), (1, 2), (2, 2)]?),
    };
    let parts = Parts {
        columns: vec![in alloc;
            column(alloc, b'x')?,
            column(alloc, b'y')?,
            column(alloc, b'z')?,
        ]?,
        rows: vec![in alloc; row]?,
        constant: 0,
        direction: Direction::Min,
    };
    let model = Model::build(alloc, parts)?;
    let changes = Changes::new(alloc, &model)?;
    Ok(Problem::new(alloc, model, changes)?)
}

// An answer without its point.
#[derive(Clone, Copy, Debug, PartialEq, Eq)]
enum Told {
    Nothing,
    Infeasible,
    Optimal(i64),
    Limit,
}

fn told_of(answer: Option<&Answer>) -> Told {
    match answer {
        None => Told::Nothing,
        Some(Answer::Infeasible) => Told::Infeasible,
        Some(Answer::Optimal { value, .. }) => Told::Optimal(*value),
        Some(Answer::Limit { .. }) => Told::Limit,
    }
}

// What a crew of so many workers tells of a problem's only scenario, in a tree of at most so many nodes.
fn crew_tells<G: Gate + Sync, R: Threads + Wait + Sync>(
    rt: &R,
    alloc: Global,
    problem: &Problem,
    nodes: u32,
    workers: u32,
    gate: &G,
) -> Result<Told, AllocError>
    requires some { 0 < nodes }
    requires few { nodes ≤ 100001 }
    requires some_workers { 0 < workers }
    requires few_workers { workers ≤ 64 }
{
    let (words, master) = Words::make(alloc, problem.count())?;
    let finders = finders_of(alloc, problem, &words, master, workers)?;
    let pool = Pool::begin(alloc, problem, nodes)?;
    let ended = run_crew(rt, alloc, problem, pool, &words, finders, gate)?;
    Ok(told_of(ended.answers.get(0)))
}

#[test]
fn two_workers_run_at_once(rt: HostRuntime) -> Result<(), Fail> {
    let alloc = rt.alloc();
    let gate = HoldGate {
        calls: AtomicU64::new(0),
        held: AtomicU64::new(0),
        later: AtomicU64::new(0),
        released: AtomicU64::new(0),
    };
    let problem = even_sum(alloc, RowSense::E)?;
    let told = crew_tells(&rt, alloc, &problem, 15, 2, &gate)?;
    assert_eq!(rt; told, Told::Infeasible);
    assert!(rt; gate.released.load(Ordering::SeqCst) == 1);
    Ok(())
}

// Whether a crew of so many workers tells what is known of both problems.
fn is_known<R: Threads + Wait + Sync>(rt: &R, alloc: Global, workers: u32) -> Result<bool, Fail>
    requires some_workers { 0 < workers }
    requires few_workers { workers ≤ 64 }
{
    let optimal = even_sum(alloc, RowSense::L)?;
    let infeasible = even_sum(alloc, RowSense::E)?;
    let first = crew_tells(rt, alloc, &optimal, 15, workers, &OpenGate)?;
    let second = crew_tells(rt, alloc, &infeasible, 15, workers, &OpenGate)?;
    let third = crew_tells(rt, alloc, &infeasible, 2, workers, &OpenGate)?;
    Ok(first == Told::Optimal(-1) && second == Told::Infeasible && third == Told::Limit)
}

#[test]
fn answers_are_known(rt: HostRuntime) -> Result<(), Fail> {
    assert!(rt; is_known(&rt, rt.alloc(), 2)?);
    assert!(rt; is_known(&rt, rt.alloc(), 64)?);
    Ok(())
}
