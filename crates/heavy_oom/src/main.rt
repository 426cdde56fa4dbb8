//! Runs one public call, so that a test can refuse its requests for memory one by one.
//!
//! `heavy_oom CRATE CALL short|long` sets a call up with ample memory, marks where it begins and
//! where it ends, and prints what it answered and what the objects that were lent to it show before
//! and after. After a want of memory the same call is made again. The keys have 1 byte or 40.
#![tactic(auto)]

mod commands;
mod counters;
mod countmin;
mod lab;
mod monitors;
mod pool;
mod records;
mod saved;
mod show;
mod stream;
mod sums;

use lab::{Lab, Said};
use std::env;
use std::sync::Wait;
use std::test::Fail;
use std::thread::Threads;

/// Makes the call of this name.
fn call<R: Threads + Wait + Sync>(rt: &R, lab: &Lab, of: &str, name: &str) -> Result<Said, Fail> {
    match of {
        "hh_stream" => stream::call(lab, name),
        "hh_counters" => counters::call(lab, name),
        "hh_countmin" => countmin::call(lab, name),
        "hh_shared" => sums::call(lab, name),
        "hh_saved" => saved::call(lab, name),
        "hh_pool" => pool::call(rt, lab, name),
        "heavy" => commands::call(rt, lab, name),
        _ => Err(lab::no_such_call(name)),
    }
}

/// Makes the call, and once more where memory was refused.
fn tried<R: Threads + Wait + Sync>(rt: &R, lab: &Lab, of: &str, name: &str) -> Result<(), Fail> {
    if call(rt, lab, of, name)? == Said::Memory {
        let _again = call(rt, lab, of, name)?;
    }
    Ok(())
}

/// Gives the words of the command line.
fn words_of(host: &HostRuntime) -> Result<Vec<String>, Fail> {
    let mut words = Vec::new(host.alloc());
    for word in env::args(host)? {
        words.push(word)?;
    }
    Ok(words)
}

/// Makes the call that these words name.
fn named<R: Threads + Wait + Sync>(
    rt: &R,
    host: &HostRuntime,
    words: &[String],
) -> Result<(), Fail> {
    let [_, of, name, keys, ..] = words else {
        return Err(Fail::new("usage: heavy_oom CRATE CALL short|long"));
    };
    let lab = Lab::new(host, keys.as_str() == "long");
    tried(rt, &lab, of.as_str(), name.as_str())
}

fn main(rt: HostRuntime) -> Result<(), Fail> {
    named(&rt, &rt, &words_of(&rt)?)
}
