//! Solves a model's scenarios in one shared tree with one worker, so that `bench/run.py` can count and time.
//!
//! usage: solve_rounds MODEL CHANGES NODES
//!
//! CHANGES may be `-`, for the model alone. The tree has at most NODES nodes, from 1 to 100,001. Prints a line with
//! the number of nodes and with how many scenarios are optimal, infeasible and a limit, and a line with
//! the value of each scenario: `inf` where it is infeasible, `?` where it is a limit.
#![tactic(auto)]

ghost use Rattle.std.specs.Prelude.{◌<◌, ◌≤◌, IfSome};

mod solving;
mod told;

use crate::solving::{MAX_NODES, solved};
use crate::told::told;
use changes_reader::read_changes;
use int_model::Model;
use mps_reader::{MAX_BYTES, read_model};
use num_text::read_number;
use scenario_changes::{Changes, Problem};
use std::io::{Read, Write};
use std::process::ExitCode;
use std::{env, fs, io};

fn main(rt: HostRuntime) -> ExitCode {
    match run(&rt) {
        Ok(true) => ExitCode::SUCCESS,
        Ok(false) => ExitCode::from(1),
        Err(_) => ExitCode::from(2),
    }
}

// Whether the words and the texts were good.
fn run(rt: &HostRuntime) -> io::Result<bool> {
    let mut words = Vec::new(rt.alloc());
    for argument in env::args(rt)?.skip(1) {
        words.push(argument)?;
    }
    let [model, changes, nodes] = words.as_slice() else {
        return Ok(false);
    };
    let Some(nodes) = nodes_of(nodes.as_str()) else {
        return Ok(false);
    };
    let Some(problem) = problem_of(rt, model.as_str(), changes.as_str())? else {
        return Ok(false);
    };
    let ended = solved(rt.alloc(), &problem, nodes)?;
    let text = told(rt.alloc(), &problem, &ended)?;
    rt.stdout().write_all(&text)?;
    Ok(true)
}

// The number of nodes that a word tells, where a tree may have so many.
fn nodes_of(word: &str) -> Option<u32>
    ensures { IfSome result (λ n. (0 < n) × (n ≤ 100001)) }
{
    let Ok(nodes) = read_number(word.as_bytes()) else {
        return None;
    };
    if 1 <= nodes && nodes <= i64::from(MAX_NODES) {
        Some(nodes as u32)
    } else {
        None
    }
}

// The problem of two files, where their texts are one.
fn problem_of(rt: &HostRuntime, model: &str, changes: &str) -> io::Result<Option<Problem>> {
    let Some(model) = model_of(rt, model)? else {
        return Ok(None);
    };
    let Some(changes) = changes_of(rt, &model, changes)? else {
        return Ok(None);
    };
    if !changes.fits(&model) {
        return Ok(None);
    }
    let problem = Problem::new(rt.alloc(), model, changes)?;
    Ok(Some(problem))
}

// The bytes of a file, at most one more than a text may have.
fn bytes_of(rt: &HostRuntime, name: &str) -> io::Result<Vec<u8>> {
    let file = fs::open(rt, name)?;
    let mut bytes = Vec::new(rt.alloc());
    file.take(MAX_BYTES as u64 + 1).read_to_end(&mut bytes)?;
    Ok(bytes)
}

// The model of a file, where its text is one.
fn model_of(rt: &HostRuntime, name: &str) -> io::Result<Option<Model>> {
    let bytes = bytes_of(rt, name)?;
    if bytes.len() > MAX_BYTES {
        return Ok(None);
    }
    Ok(read_model(rt.alloc(), &bytes).ok())
}

// The changes of a file, where its text has some. There are none where its name is `-`.
fn changes_of(rt: &HostRuntime, model: &Model, name: &str) -> io::Result<Option<Changes>> {
    if name == "-" {
        return Ok(Some(Changes::new(rt.alloc(), model)?));
    }
    let bytes = bytes_of(rt, name)?;
    if bytes.len() > MAX_BYTES {
        return Ok(None);
    }
    Ok(read_changes(rt.alloc(), model, &bytes).ok())
}
