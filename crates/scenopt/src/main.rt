//! Solves bounded pure integer models from MPS files.
#![tactic(auto)]

#[cfg(test)]
mod compared;
mod host_desk;
mod input;
mod message;
mod printing;
mod reading;
mod run;
mod solving;
mod status;
mod telling;
#[cfg(test)]
mod tests;

use crate::host_desk::HostDesk;
use crate::run::scen_main;
use crate::status::Status;
use std::process::ExitCode;
use std::{env, io};
use worker_gate::OpenGate;

fn main(rt: HostRuntime) -> ExitCode {
    let mut desk = HostDesk::new(&rt);
    // Arguments that are no text are no command.
    let status = match words_of(&rt) {
        Ok(words) => scen_main(&rt, rt.alloc(), &words, &mut desk, &OpenGate),
        Err(error) if error.kind() == io::ErrorKind::OutOfMemory => Status::Memory,
        Err(_) => scen_main(&rt, rt.alloc(), &[], &mut desk, &OpenGate),
    };
    ExitCode::from(status.code())
}

// The arguments behind the first one, which is the program's own name.
fn words_of(rt: &HostRuntime) -> io::Result<Vec<String>> {
    let mut words = Vec::new(rt.alloc());
    for argument in env::args(rt)?.skip(1) {
        words.push(argument)?;
    }
    Ok(words)
}
