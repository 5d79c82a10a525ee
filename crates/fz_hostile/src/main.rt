//! The program `fz_hostile`, which only `tests/hostile` runs. It makes one public call on what some
//! files hold, and prints the answer. Where the call runs out of memory, it is made once more on
//! the same operands.
#![tactic(auto)]

mod checking;
mod judging;
mod loading;
mod outside;
mod reading;
mod sets;
mod splitting;
mod streaming;

use std::env;
use std::process::ExitCode;

/// The status where the call is made, whatever it answers.
const MADE: u8 = 0;

/// The status where the call isn't made, since the words or its operands can't be read.
const NOT_MADE: u8 = 7;

fn main(rt: HostRuntime) -> ExitCode {
    match run(&rt) {
        Some(()) => ExitCode::from(MADE),
        None => ExitCode::from(NOT_MADE),
    }
}

fn run(rt: &HostRuntime) -> Option<()> {
    let Ok(args) = env::args(rt) else {
        return None;
    };
    let words: Vec<String> = match args.collect(rt.alloc()) {
        Ok(words) => words,
        Err(_) => return None,
    };
    match words.as_slice() {
        [_, kind, call, operands @ ..] => make_call(rt, kind.as_str(), call.as_str(), operands),
        _ => None,
    }
}

/// Makes a call, by its name and the kind of its operands.
fn make_call(rt: &HostRuntime, kind: &str, call: &str, operands: &[String]) -> Option<()> {
    match kind {
        "sets" => sets::make_call(rt, call, operands),
        "text" => reading::make_call(rt, call, operands),
        "stream" => splitting::make_call(rt, call, operands),
        "model" => loading::make_call(rt, call, operands),
        "blocks" => judging::make_call(rt, call, operands),
        "check" => checking::make_call(rt, call, operands),
        "live" => streaming::make_call(rt, operands),
        _ => None,
    }
}
