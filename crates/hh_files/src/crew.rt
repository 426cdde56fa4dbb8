//! Who works on files.

ghost use Rattle.std.specs.Prelude.{◌≡◌, true};
ghost use Rattle.hh_stream.specs.Ranges.{in_range};
ghost use Rattle.hh_workers.specs.Workers.{max_workers};

/// Workers, each of whom is a thread that `rt` starts.
#[derive(Drop)]
pub(crate) struct Crew<'a, R> {
    pub(crate) rt: &'a R,
    pub(crate) workers: u64,
    ghost few: { in_range workers max_workers ≡ true },
}
