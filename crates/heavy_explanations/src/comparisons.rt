//! Where a saved summary and records differ.

use crate::escaped::Name;
use hh_commands::Outside;
use hh_faults::Totals;
use hh_records::pointed;
use std::alloc::Global;
use std::fmt::{self, Display};

/// A weight with `decimals` digits after its point, or `?` where there is no memory for them.
#[derive(Clone, Copy)]
struct Pointed {
    alloc: Global,
    weight: u64,
    decimals: u8,
}

impl Display for Pointed {
    fn fmt<W: fmt::Write>(&self, f: &mut fmt::Formatter<W>) -> fmt::Result {
        match pointed(self.alloc, u128::from(self.weight), self.decimals) {
            Ok(text) => text.as_slice().escape_ascii().fmt(f),
            Err(_) => f.write_str("?"),
        }
    }
}

/// Gives `weight` with `decimals` digits after its point.
fn pointed_by(rt: &HostRuntime, weight: u64, decimals: u8) -> Pointed {
    Pointed {
        alloc: rt.alloc(),
        weight,
        decimals,
    }
}

/// Prints what the key behind the certain ones weighs at most, with `decimals` digits after the
/// point, where counters had `memory` megabytes. What would do isn't known: it depends on the keys.
pub(crate) fn tell_next(rt: &HostRuntime, most: u64, decimals: u8, memory: u64) {
    let most = pointed_by(rt, most, decimals);
    let _ = eprintln!(rt;
        "  the next key weighs at most {most}: a --memory above {memory} leaves less open"
    );
}

/// Prints how many more keys can be heavy than those that are certain, where counters had `memory`
/// megabytes.
pub(crate) fn tell_uncertain(rt: &HostRuntime, uncertain: u64, memory: u64) {
    let keys = if uncertain == 1 { "key" } else { "keys" };
    let _ = eprintln!(rt;
        "  {uncertain} more {keys} can be heavy: a --memory above {memory} leaves fewer, and none \
        are left without --once"
    );
}

/// Prints two totals that differ, with `decimals` digits after the point.
pub(crate) fn tell_totals(rt: &HostRuntime, name: Name<'_>, totals: Totals, decimals: u8) {
    let summary = pointed_by(rt, totals.summary, decimals);
    let records = pointed_by(rt, totals.records, decimals);
    let _ = eprintln!(rt; "  {name} has {summary}, and the records have {records}");
}

/// Prints `words`, and then the bounds of a key in the file `name` and its weight in the records,
/// with `decimals` digits after the point.
pub(crate) fn tell_outside(
    rt: &HostRuntime,
    words: &str,
    name: Name<'_>,
    outside: &Outside,
    decimals: u8,
) {
    let key = outside.key.bytes().escape_ascii();
    let low = pointed_by(rt, outside.low, decimals);
    let high = pointed_by(rt, outside.high, decimals);
    let weight = pointed_by(rt, outside.weight, decimals);
    let _ = eprintln!(rt;
        "{words}{name} has \"{key}\" from {low} to {high}, and the records have {weight}"
    );
}
