//! Repeats one call on the box of a model's columns, so that `bench/judge.py` can time it: the replay of a
//! certificate's steps, the sum of its vector, or the judging of a verdict, which does both.
//!
//! usage: judge_rounds MODEL replay|evaluate|judge ROUNDS
//!
//! Prints the sum of what the calls answered.
#![tactic(auto)]

mod rounds;

use crate::rounds::{Call, repeat};
use int_model::Model;
use mps_reader::{MAX_BYTES, read_model};
use num_text::{read_number, write_number};
use scenario_changes::{Changes, Problem};
use std::io::{Read, Write};
use std::process::ExitCode;
use std::{env, fs, io};

fn main(rt: HostRuntime) -> ExitCode {
    match run(&rt) {
        Ok(true) => ExitCode::SUCCESS,
        Ok(false) => ExitCode::from(1),
        Err(_) => ExitCode::from(2),
    }
}

// Whether the words and the model were good.
fn run(rt: &HostRuntime) -> io::Result<bool> {
    let mut words = Vec::new(rt.alloc());
    for argument in env::args(rt)?.skip(1) {
        words.push(argument)?;
    }
    let [name, call, rounds] = words.as_slice() else {
        return Ok(false);
    };
    let Some(call) = call_of(call.as_bytes()) else {
        return Ok(false);
    };
    let Ok(rounds) = read_number(rounds.as_bytes()) else {
        return Ok(false);
    };
    let Some(model) = model_of(rt, name.as_str())? else {
        return Ok(false);
    };
    let changes = Changes::new(rt.alloc(), &model)?;
    let problem = Problem::new(rt.alloc(), model, changes)?;
    let total = repeat(rt.alloc(), &problem, call, rounds)?;
    let mut text = Vec::new(rt.alloc());
    write_number(&mut text, total)?;
    text.push(b'\n')?;
    rt.stdout().write_all(&text)?;
    Ok(true)
}

fn call_of(word: &[u8]) -> Option<Call> {
    match word {
        b"replay" => Some(Call::Replay),
        b"evaluate" => Some(Call::Evaluate),
        b"judge" => Some(Call::Judge),
        _ => None,
    }
}

// The model of a file, where its text is one.
fn model_of(rt: &HostRuntime, name: &str) -> io::Result<Option<Model>> {
    let file = fs::open(rt, name)?;
    let mut bytes = Vec::new(rt.alloc());
    file.take(MAX_BYTES as u64 + 1).read_to_end(&mut bytes)?;
    if bytes.len() > MAX_BYTES {
        return Ok(None);
    }
    Ok(read_model(rt.alloc(), &bytes).ok())
}
