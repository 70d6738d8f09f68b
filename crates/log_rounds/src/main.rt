//! Reads a proof log and writes it again, so that `bench/tree_log.py` can time it.
//!
//! usage: log_rounds MODEL LOG load|read|copy
//!
//! MODEL is a model with the log's numbers of columns and rows. `load` prints how many bytes the log has, `read` reads
//! it too and prints how many nodes it has, and `copy` writes what was read.
#![tactic(auto)]

use mps_reader::read_model;
use num_text::write_number;
use scenario_changes::{Changes, Problem};
use std::io::{Read, Write};
use std::process::ExitCode;
use std::{env, fs, io};
use tree_log::{LogFile, read_log, write_log};

const MAX_LOG_BYTES: usize = 1_073_741_824;

fn main(rt: HostRuntime) -> ExitCode {
    match run(&rt) {
        Ok(true) => ExitCode::SUCCESS,
        Ok(false) => ExitCode::from(1),
        Err(_) => ExitCode::from(2),
    }
}

// Whether the words and the files were good.
fn run(rt: &HostRuntime) -> io::Result<bool> {
    let mut words = Vec::new(rt.alloc());
    for argument in env::args(rt)?.skip(1) {
        words.push(argument)?;
    }
    let [model, log, call] = words.as_slice() else {
        return Ok(false);
    };
    let bytes = bytes_of(rt, log.as_str(), MAX_LOG_BYTES)?;
    match call.as_bytes() {
        b"load" => print_count(rt, bytes.len()),
        b"read" => print_nodes(rt, &bytes),
        b"copy" => copy(rt, model.as_str(), &bytes),
        _ => Ok(false),
    }
}

// The first bytes of a file, one more than the most where it is longer.
fn bytes_of(rt: &HostRuntime, name: &str, most: usize) -> io::Result<Vec<u8>> {
    let file = fs::open(rt, name)?;
    let mut bytes = Vec::new(rt.alloc());
    file.take((most as u64).saturating_add(1))
        .read_to_end(&mut bytes)?;
    Ok(bytes)
}

fn print_count(rt: &HostRuntime, count: usize) -> io::Result<bool> {
    let mut text = Vec::new(rt.alloc());
    write_number(&mut text, i64::try_from(count).unwrap_or(i64::MAX))?;
    text.push(b'\n')?;
    rt.stdout().write_all(&text)?;
    Ok(true)
}

// The log that some bytes are the text of.
fn log_of(rt: &HostRuntime, bytes: &[u8]) -> Option<LogFile> {
    if bytes.len() > MAX_LOG_BYTES {
        return None;
    }
    read_log(rt.alloc(), bytes).ok()
}

fn print_nodes(rt: &HostRuntime, bytes: &[u8]) -> io::Result<bool> {
    match log_of(rt, bytes) {
        Some(log) => print_count(rt, log.tree.len()),
        None => Ok(false),
    }
}

fn copy(rt: &HostRuntime, name: &str, bytes: &[u8]) -> io::Result<bool> {
    let Some(problem) = problem_of(rt, name)? else {
        return Ok(false);
    };
    let Some(log) = log_of(rt, bytes) else {
        return Ok(false);
    };
    let model = problem.model();
    if log.columns != model.columns() || log.rows != model.rows() {
        return Ok(false);
    }
    let text = write_log(rt.alloc(), &problem, &log.answers, &log.tree)?;
    rt.stdout().write_all(&text)?;
    Ok(true)
}

// The model of a file, where its text is one, without changes.
fn problem_of(rt: &HostRuntime, name: &str) -> io::Result<Option<Problem>> {
    let bytes = bytes_of(rt, name, mps_reader::MAX_BYTES)?;
    if bytes.len() > mps_reader::MAX_BYTES {
        return Ok(None);
    }
    let Ok(model) = read_model(rt.alloc(), &bytes) else {
        return Ok(None);
    };
    let changes = Changes::new(rt.alloc(), &model)?;
    Ok(Some(Problem::new(rt.alloc(), model, changes)?))
}
