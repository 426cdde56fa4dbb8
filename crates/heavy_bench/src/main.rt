//! Times the calls that a report is made of, over the records of standard input.
//!
//! `heavy_bench CALL K` prints a number: the nanoseconds that the call takes for each item, merge
//! or counter. `heavy_bench STAGE K` prints those that a stage of a report takes for all records.
#![tactic(auto)]

mod calls;
mod fault;
mod stages;
mod total;

use calls::{Call, nanoseconds};
use fault::BenchFault;
use stages::{Stage, stage_time};
use std::env;
use std::process::ExitCode;

/// What is timed.
#[derive(Clone, Copy)]
enum Timed {
    Call(Call),
    Stage(Stage),
}

impl Timed {
    /// The call or the stage with this name.
    fn of(name: &str) -> Option<Timed> {
        match (Call::of(name), Stage::of(name)) {
            (Some(call), _) => Some(Timed::Call(call)),
            (None, Some(stage)) => Some(Timed::Stage(stage)),
            (None, None) => None,
        }
    }
}

/// What the command line names, and its k.
fn request(rt: &HostRuntime) -> Result<(Timed, u64), BenchFault> {
    let Ok(mut words) = env::args(rt) else {
        return Err(BenchFault::Usage);
    };
    let (Some(_), Some(name), Some(k)) = (words.next(), words.next(), words.next()) else {
        return Err(BenchFault::Usage);
    };
    match (Timed::of(name.as_str()), k.as_str().parse::<u64>()) {
        (Some(timed), Ok(k)) => Ok((timed, k)),
        _ => Err(BenchFault::Usage),
    }
}

fn measured(rt: &HostRuntime) -> Result<u128, BenchFault> {
    match request(rt)? {
        (Timed::Call(call), k) => nanoseconds(rt, call, k),
        (Timed::Stage(stage), k) => stage_time(rt, stage, k),
    }
}

fn main(rt: HostRuntime) -> ExitCode {
    match measured(&rt) {
        Ok(time) => {
            let _ = println!(rt; "{time}");
            ExitCode::SUCCESS
        }
        Err(fault) => {
            let _ = eprintln!(rt; "heavy_bench: {fault}");
            ExitCode::from(2)
        }
    }
}
