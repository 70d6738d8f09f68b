//! Searches a model's scenarios by `probe` and `decide` alone, so that `bench/node.py` can time a node.
//!
//! usage: node_rounds MODEL CHANGES NODES ROUNDS
//!
//! Each round works on at most NODES nodes, of the least level first. Prints the nodes that were worked on
//! and that were made in the last round, and a line for each scenario: the least value that was found, or
//! `-`, and whether no node is left that may have a lesser one (`closed` or `open`).
#![tactic(auto)]

mod nodes;
mod reached;
mod rounds;

use crate::rounds::repeat;
use changes_reader::read_changes;
use int_model::Model;
use mps_reader::{MAX_BYTES, read_model};
use num_text::read_number;
use scenario_changes::{Changes, Problem};
use std::io::{Read, Write};
use std::process::ExitCode;
use std::{env, fs, io};

fn main(rt: HostRuntime) -> ExitCode {
    match run(&rt) {
        Ok(true) => ExitCode::SUCCESS,
        Ok(false) => ExitCode::from(1),
        Err(_) => ExitCode::from(2),
    }
}

// Whether the words and the texts were good.
fn run(rt: &HostRuntime) -> io::Result<bool> {
    let mut words = Vec::new(rt.alloc());
    for argument in env::args(rt)?.skip(1) {
        words.push(argument)?;
    }
    let [model, changes, nodes, rounds] = words.as_slice() else {
        return Ok(false);
    };
    let Ok(nodes) = read_number(nodes.as_bytes()) else {
        return Ok(false);
    };
    let Ok(rounds) = read_number(rounds.as_bytes()) else {
        return Ok(false);
    };
    let Some(problem) = problem_of(rt, model.as_str(), changes.as_str())? else {
        return Ok(false);
    };
    let text = repeat(rt.alloc(), &problem, nodes, rounds)?;
    rt.stdout().write_all(&text)?;
    Ok(true)
}

// The problem of two files, where their texts are one.
fn problem_of(rt: &HostRuntime, model: &str, changes: &str) -> io::Result<Option<Problem>> {
    let Some(model) = model_of(rt, model)? else {
        return Ok(None);
    };
    let Some(changes) = changes_of(rt, &model, changes)? else {
        return Ok(None);
    };
    if !changes.fits(&model) {
        return Ok(None);
    }
    let problem = Problem::new(rt.alloc(), model, changes)?;
    Ok(Some(problem))
}

// The bytes of a file, at most one more than a text may have.
fn bytes_of(rt: &HostRuntime, name: &str) -> io::Result<Vec<u8>> {
    let file = fs::open(rt, name)?;
    let mut bytes = Vec::new(rt.alloc());
    file.take(MAX_BYTES as u64 + 1).read_to_end(&mut bytes)?;
    Ok(bytes)
}

// The model of a file, where its text is one.
fn model_of(rt: &HostRuntime, name: &str) -> io::Result<Option<Model>> {
    let bytes = bytes_of(rt, name)?;
    if bytes.len() > MAX_BYTES {
        return Ok(None);
    }
    Ok(read_model(rt.alloc(), &bytes).ok())
}

// The changes of a file, where its text has some.
fn changes_of(rt: &HostRuntime, model: &Model, name: &str) -> io::Result<Option<Changes>> {
    let bytes = bytes_of(rt, name)?;
    if bytes.len() > MAX_BYTES {
        return Ok(None);
    }
    Ok(read_changes(rt.alloc(), model, &bytes).ok())
}
