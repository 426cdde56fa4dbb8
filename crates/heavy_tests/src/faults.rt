//! The texts of the libraries' own faults; those of the program are shown by runs of it.

use crate::fixtures::assert_same;
use heavy::{BadRecordCause, SinkFault, TextError, WriteFault};
use hh_counters::SummaryFault;
use hh_countmin::TableFault;
use hh_pool::{OptionsFault, RunError};
use hh_stream::StreamFault;
use std::fmt::Display;
use std::process::Abort;

const MEMORY: &str = "out of memory";

const K: &str = "k must be 1 to 65535";

const WIDTH: &str = "width must be 1 to 65536";

const TOTAL: &str = "the total would be above 2^63 - 1";

const OUTPUT: &str = "output could not be written";

/// Compares what each fault prints with the text beside it.
fn tell<T: Display>(rt: &(impl Abort + AllocGlobal), faults: &[(T, &str)]) {
    for (fault, text) in faults {
        let told = fault.to_string(rt.alloc()).expect(rt, "a text");
        assert_same(rt, told.as_str(), text);
    }
}

const STREAMS: [(StreamFault, &str); 8] = [
    (StreamFault::Empty, "a key has at least 1 byte"),
    (StreamFault::TooLong, "a key has at most 4096 bytes"),
    (StreamFault::ZeroWeight, "a weight is at least 1"),
    (StreamFault::TotalTooLarge, TOTAL),
    (StreamFault::NoPieces, "a cutting has at least 1 piece"),
    (
        StreamFault::TooManyPieces,
        "a cutting has at most 1024 pieces",
    ),
    (
        StreamFault::WrongSum,
        "the lengths do not add up to the number of items",
    ),
    (StreamFault::Memory, MEMORY),
];

const SUMMARIES: [(SummaryFault, &str); 4] = [
    (SummaryFault::BadK, K),
    (SummaryFault::DifferentK, "the summaries have different k"),
    (SummaryFault::TotalTooLarge, TOTAL),
    (SummaryFault::Memory, MEMORY),
];

const TABLES: [(TableFault, &str); 7] = [
    (TableFault::BadDepth, "depth must be 1 to 16"),
    (TableFault::BadCoefficient, "a coefficient is out of range"),
    (TableFault::BadWidth, WIDTH),
    (
        TableFault::DifferentFamily,
        "the tables have different hash families",
    ),
    (
        TableFault::DifferentWidth,
        "the tables have different widths",
    ),
    (TableFault::TotalTooLarge, TOTAL),
    (TableFault::Memory, MEMORY),
];

#[test]
fn faults_of_summaries(rt: HostRuntime) {
    tell(&rt, &STREAMS);
    tell(&rt, &SUMMARIES);
    tell(&rt, &TABLES);
}

const OPTIONS: [(OptionsFault, &str); 4] = [
    (OptionsFault::BadK, K),
    (OptionsFault::BadWorkers, "workers must be 1 to 64"),
    (OptionsFault::BadWidth, WIDTH),
    (
        OptionsFault::BadThreshold,
        "threshold must be p/q with 1 <= p <= q <= 4294967296 and p*(k+1) >= q",
    ),
];

const RUNS: [(RunError, &str); 2] = [
    (
        RunError::PlanMismatch,
        "the plan has another number of pieces than the cutting",
    ),
    (RunError::Memory, MEMORY),
];

#[test]
fn faults_of_analyses(rt: HostRuntime) {
    tell(&rt, &OPTIONS);
    tell(&rt, &RUNS);
}

const READS: [(TextError, &str); 4] = [
    (TextError::ReadFault, "input could not be read"),
    (TextError::NoColumn, "no such column"),
    (
        TextError::BadRecord {
            number: 7,
            cause: BadRecordCause::ZeroWeight,
        },
        "record 7: zero weight",
    ),
    (TextError::Memory, MEMORY),
];

const SINKS: [(SinkFault, &str); 1] = [(SinkFault, "the sink could not do what it was asked")];

const WRITES: [(WriteFault, &str); 1] = [(WriteFault { written: 3 }, OUTPUT)];

#[test]
fn faults_of_single_steps(rt: HostRuntime) {
    tell(&rt, &READS);
    tell(&rt, &SINKS);
    tell(&rt, &WRITES);
}
