//! What the commands do.

ghost use Rattle.std.specs.Prelude.{◌≡◌, ◌^◌};
ghost use Rattle.clap.specs.Words.{found_of};
ghost use Rattle.heavy_arguments.specs.CommandLine.{memory_of, name_of, workers_of};
ghost use Rattle.heavy_arguments.specs.Found.{IsNumber};

use crate::arguments::{MEMORY, ONCE_MEMORY, SUMMARY_WORKERS, TOP_MEMORY, WORKERS};
use clap::ArgMatches;

/// What a command does that reads its records once.
#[derive(Clone, Copy, Debug, PartialEq, Eq)]
pub enum Pass {
    /// Saves their summary.
    Summarise,
    /// Saves their table.
    Table,
    /// Prints fewer records, by a saved summary.
    Condense,
    /// Prints the heavy keys of a saved summary.
    Confirm,
}

/// What a command does.
#[derive(Clone, Copy, Debug, PartialEq, Eq)]
pub enum Verb {
    /// Prints the heavy keys of records.
    Report,
    /// Prints the greatest keys of records.
    Top,
    /// Reads records once.
    Pass(Pass),
    /// Merges saved files.
    Merge,
    /// Prints what a saved file says of keys.
    Ask,
    /// Prints all keys of a saved summary.
    List,
    /// Prints what is in a saved file.
    Describe,
}

impl Verb {
    /// Gives what the command `name` does. `clap` takes these names alone.
    pub fn of(name: &str) -> Verb
        ensures { (verb : Verb) → name.now ≡ name_of verb → result ≡ verb }
    {
        match name {
            "top" => Verb::Top,
            "summarise" => Verb::Pass(Pass::Summarise),
            "table" => Verb::Pass(Pass::Table),
            "merge" => Verb::Merge,
            "ask" => Verb::Ask,
            "list" => Verb::List,
            "describe" => Verb::Describe,
            "condense" => Verb::Pass(Pass::Condense),
            "confirm" => Verb::Pass(Pass::Confirm),
            _ => Verb::Report,
        }
    }

    /// Whether records are read.
    pub fn reads_records(self) -> bool {
        matches!(self, Verb::Report | Verb::Top | Verb::Pass(_))
    }

    /// Gives the passes in which `workers` workers read the files of records: 0 if they read none,
    /// as they don't for a report by `one_reading`. Another needs two, or one if its keys are few,
    /// and so do the greatest keys. Where their counters grow they need a third, which is not
    /// counted.
    pub fn passes(self, one_reading: bool, workers: u64) -> u64 {
        match self {
            Verb::Report if one_reading => 0,
            Verb::Report | Verb::Top => 2,
            Verb::Pass(Pass::Summarise) => u64::from(workers != 1),
            Verb::Pass(_) => 1,
            Verb::Merge | Verb::Ask | Verb::List | Verb::Describe => 0,
        }
    }

    /// Gives how many workers read: the number that was given, or else the default.
    pub fn workers(self, found: &ArgMatches) -> u64
        ensures { IsNumber (found_of found.now) WORKERS.name.now (2 ^ 64)
            (workers_of self) result }
    {
        match self {
            Verb::Pass(Pass::Summarise) => SUMMARY_WORKERS.number(found),
            _ => WORKERS.number(found),
        }
    }

    /// Gives how many megabytes of a pipe are kept in memory or, where it is read `once`, of
    /// counters: the number that was given, or else the default.
    pub fn memory(self, once: bool, found: &ArgMatches) -> u64
        ensures { IsNumber (found_of found.now) MEMORY.name.now (2 ^ 64)
            (memory_of self once) result }
    {
        match (self, once) {
            (Verb::Top, _) => TOP_MEMORY.number(found),
            (_, true) => ONCE_MEMORY.number(found),
            (_, false) => MEMORY.number(found),
        }
    }
}
