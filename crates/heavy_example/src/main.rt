//! An example of the library: two machines count what each address sent, in summaries of two
//! counters, and one of them merges both and tells of each address the least and the most it sent.
#![tactic(auto)]

mod callers;

use hh_counters::Summary;
use hh_stream::Key;
use std::alloc::Global;
use std::process::ExitCode;

/// Addresses with the megabytes that they sent.
const HERE: [(&str, u64); 3] = [("10.0.0.1", 5), ("10.0.0.2", 3), ("10.0.0.3", 2)];

const THERE: [(&str, u64); 2] = [("10.0.0.1", 40), ("10.0.0.4", 1)];

/// The summary of what was sent, with two counters.
fn summary_of(alloc: Global, sent: &[(&str, u64)]) -> Result<Summary, &'static str> {
    let mut summary = Summary::new(alloc, 2).map_err(|_| "k is not 1 to 65535")?;
    for (address, megabytes) in sent {
        let key = Key::new(alloc, address.as_bytes()).map_err(|_| "an address is no key")?;
        if *megabytes > 0 {
            let added = summary.add(&key, *megabytes);
            added.map_err(|_| "the total is too large, or memory ran out")?;
        }
    }
    Ok(summary)
}

fn report(rt: &HostRuntime) -> Result<(), &'static str> {
    let mut both = summary_of(rt.alloc(), &HERE)?;
    let other = summary_of(rt.alloc(), &THERE)?;
    both.merge(&other).map_err(|_| "the summaries don't merge")?;
    for i in 0..both.len() {
        let (key, low) = both.entry(i);
        let (address, slack) = (str::from_utf8(key.bytes()).unwrap_or("?"), both.slack());
        let line = println!(rt; "{address} sent at least {low} MB, and at most {slack} MB more");
        line.map_err(|_| "output could not be written")?;
    }
    Ok(())
}

fn main(rt: HostRuntime) -> ExitCode {
    match report(&rt) {
        Ok(()) => ExitCode::SUCCESS,
        Err(fault) => {
            let _ = eprintln!(rt; "heavy_example: {fault}");
            ExitCode::FAILURE
        }
    }
}
