//! Repeats the climb of each scenario in the box of its bounds, so that `bench/climb.py` can time it and look
//! at the bounds that it reaches.
//!
//! usage: climb_rounds MODEL CHANGES PASSES ROUNDS
//!
//! Prints the bound of each scenario on a line of its own, `-` where there is none.
#![tactic(auto)]

mod rounds;

use crate::rounds::repeat;
use changes_reader::read_changes;
use int_model::Model;
use mps_reader::{MAX_BYTES, read_model};
use num_text::{read_number, write_number};
use scenario_changes::Problem;
use std::io::{Read, Write};
use std::process::ExitCode;
use std::{env, fs, io};

fn main(rt: HostRuntime) -> ExitCode {
    match run(&rt) {
        Ok(true) => ExitCode::SUCCESS,
        Ok(false) => ExitCode::from(1),
        Err(_) => ExitCode::from(2),
    }
}

// Whether the words and the texts were good.
fn run(rt: &HostRuntime) -> io::Result<bool> {
    let mut words = Vec::new(rt.alloc());
    for argument in env::args(rt)?.skip(1) {
        words.push(argument)?;
    }
    let [model, changes, passes, rounds] = words.as_slice() else {
        return Ok(false);
    };
    let Some(passes) = count_of(passes.as_bytes()) else {
        return Ok(false);
    };
    let Some(rounds) = count_of(rounds.as_bytes()) else {
        return Ok(false);
    };
    let Some(problem) = problem_of(rt, model.as_str(), changes.as_str())? else {
        return Ok(false);
    };
    let text = lines_of(rt, &problem, passes, rounds)?;
    rt.stdout().write_all(&text)?;
    Ok(true)
}

// A number of passes or rounds.
fn count_of(word: &[u8]) -> Option<u32> {
    match read_number(word) {
        Ok(number) => u32::try_from(number).ok(),
        Err(_) => None,
    }
}

// The bound of each scenario on a line.
fn lines_of(rt: &HostRuntime, problem: &Problem, passes: u32, rounds: u32) -> io::Result<Vec<u8>> {
    let mut text = Vec::new(rt.alloc());
    for s in 0..problem.count() {
        match repeat(rt.alloc(), problem, s, passes, rounds)? {
            Some(bound) => write_number(&mut text, bound)?,
            None => text.push(b'-')?,
        }
        text.push(b'\n')?;
    }
    Ok(text)
}

// The problem of two files, where their texts are a model and its changes.
fn problem_of(rt: &HostRuntime, model: &str, changes: &str) -> io::Result<Option<Problem>> {
    let Some(model) = model_of(rt, model)? else {
        return Ok(None);
    };
    let bytes = bytes_of(rt, changes)?;
    if bytes.len() > MAX_BYTES {
        return Ok(None);
    }
    let Ok(changes) = read_changes(rt.alloc(), &model, &bytes) else {
        return Ok(None);
    };
    Ok(Some(Problem::new(rt.alloc(), model, changes)?))
}

// The model of a file, where its text is one.
fn model_of(rt: &HostRuntime, name: &str) -> io::Result<Option<Model>> {
    let bytes = bytes_of(rt, name)?;
    if bytes.len() > MAX_BYTES {
        return Ok(None);
    }
    Ok(read_model(rt.alloc(), &bytes).ok())
}

// The bytes of a file, cut off where they are too many.
fn bytes_of(rt: &HostRuntime, name: &str) -> io::Result<Vec<u8>> {
    let file = fs::open(rt, name)?;
    let mut bytes = Vec::new(rt.alloc());
    file.take(MAX_BYTES as u64 + 1).read_to_end(&mut bytes)?;
    Ok(bytes)
}
