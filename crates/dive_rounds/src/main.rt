//! Repeats the dive into the root box of each scenario, so that `bench/dive.py` can rate and time it.
//!
//! usage: dive_rounds MODEL CHANGES NEAR ROUNDS
//!
//! NEAR is a file with a line of numbers for each scenario, a near point with 14 bits after the point, or
//! `-` for dives by costs. Prints a line for each scenario: `empty`, `stuck`, or the numbers of the point
//! that the last round found.
#![tactic(auto)]

mod rounds;

use crate::rounds::repeat;
use changes_reader::read_changes;
use int_model::{Model, NearPoint};
use mps_reader::{MAX_BYTES, read_model};
use num_text::{Lines, read_fields, read_number};
use scenario_changes::{Changes, Problem};
use std::alloc::{AllocError, Global};
use std::io::{Read, Write};
use std::process::ExitCode;
use std::{env, fs, io};

fn main(rt: HostRuntime) -> ExitCode {
    match run(&rt) {
        Ok(true) => ExitCode::SUCCESS,
        Ok(false) => ExitCode::from(1),
        Err(_) => ExitCode::from(2),
    }
}

// Whether the words and the texts were good.
fn run(rt: &HostRuntime) -> io::Result<bool> {
    let mut words = Vec::new(rt.alloc());
    for argument in env::args(rt)?.skip(1) {
        words.push(argument)?;
    }
    let [model, changes, near, rounds] = words.as_slice() else {
        return Ok(false);
    };
    let Ok(rounds) = read_number(rounds.as_bytes()) else {
        return Ok(false);
    };
    let Some(problem) = problem_of(rt, model.as_str(), changes.as_str())? else {
        return Ok(false);
    };
    let near = near_of(rt, near.as_str())?;
    let text = repeat(rt.alloc(), &problem, &near, rounds)?;
    rt.stdout().write_all(&text)?;
    Ok(true)
}

// The problem of two files, where their texts are one.
fn problem_of(rt: &HostRuntime, model: &str, changes: &str) -> io::Result<Option<Problem>> {
    let Some(model) = model_of(rt, model)? else {
        return Ok(None);
    };
    let Some(changes) = changes_of(rt, &model, changes)? else {
        return Ok(None);
    };
    if !changes.fits(&model) {
        return Ok(None);
    }
    let problem = Problem::new(rt.alloc(), model, changes)?;
    Ok(Some(problem))
}

// The bytes of a file, at most one more than a text may have.
fn bytes_of(rt: &HostRuntime, name: &str) -> io::Result<Vec<u8>> {
    let file = fs::open(rt, name)?;
    let mut bytes = Vec::new(rt.alloc());
    file.take(MAX_BYTES as u64 + 1).read_to_end(&mut bytes)?;
    Ok(bytes)
}

// The model of a file, where its text is one.
fn model_of(rt: &HostRuntime, name: &str) -> io::Result<Option<Model>> {
    let bytes = bytes_of(rt, name)?;
    if bytes.len() > MAX_BYTES {
        return Ok(None);
    }
    Ok(read_model(rt.alloc(), &bytes).ok())
}

// The changes of a file, where its text has some.
fn changes_of(rt: &HostRuntime, model: &Model, name: &str) -> io::Result<Option<Changes>> {
    let bytes = bytes_of(rt, name)?;
    if bytes.len() > MAX_BYTES {
        return Ok(None);
    }
    Ok(read_changes(rt.alloc(), model, &bytes).ok())
}

// The near points of a file's lines, none for `-`.
fn near_of(rt: &HostRuntime, name: &str) -> io::Result<Vec<NearPoint>> {
    let mut points = Vec::new(rt.alloc());
    if name.as_bytes() == b"-".as_slice() {
        return Ok(points);
    }
    let bytes = bytes_of(rt, name)?;
    for line in Lines::new(&bytes) {
        points.push(near_point(rt.alloc(), line)?)?;
    }
    Ok(points)
}

// The near point of a line. A field that is no number counts as 0.
fn near_point(alloc: Global, line: &[u8]) -> Result<NearPoint, AllocError> {
    let mut fields = Vec::new(alloc);
    read_fields(line, &mut fields)?;
    let mut numbers = Vec::new(alloc);
    for field in &fields {
        numbers.push(read_number(*field).unwrap_or(0))?;
    }
    Ok(NearPoint::from_vec(numbers))
}
