//! What an analysis is asked for.

ghost use Rattle.std.specs.Prelude.{◌≡◌, ◌+◌, ◌*◌, ◌≤◌, ◌↔◌, IfOk, IsErrOf, true, false};
ghost use Rattle.hh_stream.specs.Ranges.{in_range};
ghost use Rattle.hh_summaries.specs.Counters.{max_k};
ghost use Rattle.hh_summaries.specs.Report.{is_threshold, IsShare};
ghost use Rattle.hh_countmin.specs.Family.{max_width, IsFamily};
ghost use Rattle.hh_workers.specs.Workers.{max_workers};

use hh_counters::{MAX_K, is_threshold};
use hh_countmin::{Family, MAX_WIDTH};
use hh_stream::{KeyHash, in_range};
use hh_workers::MAX_WORKERS;
use std::marker::Model;
use thiserror::Error;

/// How a stream is analysed: the k of its summaries, the threshold p/q of its report, the number of
/// workers, and the width and hash family of its table.
#[derive(Debug, Drop)]
pub struct Options {
    k: u64,
    p: u64,
    q: u64,
    workers: u64,
    width: u64,
    family: Family,
    // no number of an outcome depends on it
    hash: KeyHash,
}

impl Model for Options {
    ghost use Rattle.std.specs.Prelude.{◌≡◌, true};
    ghost use Rattle.hh_stream.specs.Ranges.{in_range};
    ghost use Rattle.hh_summaries.specs.Counters.{max_k};
    ghost use Rattle.hh_countmin.specs.Family.{max_width};
    ghost use Rattle.hh_summaries.specs.Report.{is_threshold};
    ghost use Rattle.hh_pool.specs.Settings.{Settings};
    ghost use Rattle.hh_workers.specs.Workers.{max_workers};

    ghost Value = { Settings };

    ghost view = { λ o. record {
      k = o.k;
      p = o.p;
      q = o.q;
      workers = o.workers;
      width = o.width;
      family = o.family;
    } };

    ghost invariant = { λ o.
        (in_range o.k max_k ≡ true) × (is_threshold o.k o.p o.q ≡ true)
        × (in_range o.workers max_workers ≡ true) × (in_range o.width max_width ≡ true) };
}

/// Why there are no such options.
#[derive(Clone, Copy, Debug, PartialEq, Eq, Error)]
pub enum OptionsFault {
    /// k is not 1 to 65,535.
    #[error("k must be 1 to 65535")]
    BadK,
    /// The number of workers is not 1 to [`MAX_WORKERS`].
    #[error("workers must be 1 to 64")]
    BadWorkers,
    /// The width is not 1 to 65,536.
    #[error("width must be 1 to 65536")]
    BadWidth,
    /// The threshold is not p/q with 1 <= p <= q <= [`MAX_Q`](hh_counters::MAX_Q), or it is below
    /// 1/(k + 1).
    #[error("threshold must be p/q with 1 <= p <= q <= 4294967296 and p*(k+1) >= q")]
    BadThreshold,
}

impl Options {
    /// The options with these parts. The report has the keys above p/q of the total weight. That is
    /// at least 1/(k + 1), since a key above it always has a counter. They take no memory. Keys are
    /// hashed by the words that all runs have: where others choose them,
    /// [`hashed_by`](Options::hashed_by) takes words of the run.
    ///
    /// The refusals are tested in the order BadK, BadWorkers, BadWidth, BadThreshold.
    pub fn new(
        k: u64,
        p: u64,
        q: u64,
        workers: u64,
        width: u64,
        family: Family,
    ) -> Result<Options, OptionsFault>
        ensures options { IfOk result (λ options. options ≡ record {
          k = k;
          p = p;
          q = q;
          workers = workers;
          width = width;
          family = family;
        }) }
        ensures bad_k { IsErrOf result OptionsFault.BadK ↔ (in_range k max_k ≡ false) }
        ensures bad_workers { IsErrOf result OptionsFault.BadWorkers
            ↔ ((in_range k max_k ≡ true) × (in_range workers max_workers ≡ false)) }
        ensures bad_width { IsErrOf result OptionsFault.BadWidth
            ↔ ((in_range k max_k ≡ true) × (in_range workers max_workers ≡ true)
            × (in_range width max_width ≡ false)) }
        ensures bad_threshold { IsErrOf result OptionsFault.BadThreshold
            ↔ ((in_range k max_k ≡ true) × (in_range workers max_workers ≡ true)
            × (in_range width max_width ≡ true)
            × (is_threshold k p q ≡ false)) }
    {
        if !in_range(k, MAX_K) {
            return Err(OptionsFault::BadK);
        }
        if !in_range(workers, MAX_WORKERS) {
            return Err(OptionsFault::BadWorkers);
        }
        if !in_range(width, MAX_WIDTH) {
            return Err(OptionsFault::BadWidth);
        }
        if !is_threshold(k, p, q) {
            return Err(OptionsFault::BadThreshold);
        }
        Ok(Options::within(k, p, q, workers, width, family))
    }

    /// [`new`](Options::new) of parts in their ranges, which refuses nothing.
    pub fn within(k: u64, p: u64, q: u64, workers: u64, width: u64, family: Family) -> Options
        requires k { in_range k max_k ≡ true }
        requires threshold { is_threshold k p q ≡ true }
        requires workers { in_range workers max_workers ≡ true }
        requires width { in_range width max_width ≡ true }
        ensures { result ≡ record {
          k = k;
          p = p;
          q = q;
          workers = workers;
          width = width;
          family = family;
        } }
    {
        Options {
            k,
            p,
            q,
            workers,
            width,
            family,
            hash: KeyHash::fixed(),
        }
    }

    /// Has keys hashed by `hash`, which decides how fast a key is found, and nothing of an
    /// outcome.
    pub fn hashed_by(self, hash: KeyHash) -> Options
        ensures { result ≡ self }
    {
        Options { hash, ..self }
    }

    pub(crate) fn hash(&self) -> KeyHash {
        self.hash
    }

    pub(crate) fn k(&self) -> u64
        ensures k { result ≡ self.now.k }
        ensures in_range { in_range self.now.k max_k ≡ true }
    {
        self.k
    }

    /// The p and q of the threshold.
    pub(crate) fn threshold(&self) -> (u64, u64)
        ensures p { result.0 ≡ self.now.p }
        ensures q { result.1 ≡ self.now.q }
        ensures share { IsShare self.now.p self.now.q }
        ensures enough { self.now.q ≤ self.now.p * (self.now.k + 1) }
    {
        (self.p, self.q)
    }

    pub(crate) fn workers(&self) -> u64
        ensures workers { result ≡ self.now.workers }
        ensures in_range { in_range self.now.workers max_workers ≡ true }
    {
        self.workers
    }

    pub(crate) fn width(&self) -> u64
        ensures width { result ≡ self.now.width }
        ensures in_range { in_range self.now.width max_width ≡ true }
    {
        self.width
    }

    pub(crate) fn family(&self) -> &Family
        ensures family { result.now ≡ self.now.family }
        ensures in_range { IsFamily self.now.family }
    {
        // Its contract says that the family is in range.
        let _depth = self.family.depth();
        &self.family
    }
}
