//! How much a tally keeps.

ghost use Rattle.std.specs.Prelude.{◌≡◌, ◌+◌, ◌*◌, ◌≤◌, true};
ghost use Rattle.hh_stream.specs.Ranges.{in_range};
ghost use Rattle.hh_summaries.specs.Counters.{max_k};
ghost use Rattle.hh_tally.specs.Tallies.{IsRoom, room_for};

/// The most keys for which there may be room.
pub const MAX_KEYS: usize = 16_777_216;

// The fewest keys for which `for_counters` makes room; `MOST_BYTES` is the most bytes that the keys
// may have together where they are more than `few`.
const LEAST_KEYS: usize = 4096;

const MOST_BYTES: usize = 4_194_304;

/// How much a [`Tally`](crate::Tally) keeps before it lowers its counters.
#[derive(Clone, Copy, Debug, PartialEq, Eq)]
pub struct Room {
    /// The most keys: `few` to [`MAX_KEYS`].
    pub keys: usize,
    /// The number of keys that are kept whatever bytes they have, at least 2.
    pub few: usize,
    /// The most bytes that the keys have where they are more than `few`.
    pub bytes: usize,
}

impl Room {
    /// Room in which no more is lost than a summary with `k` counters may lack: for 4,096 keys, or
    /// 2 (k + 1) where that is more, with up to 4 MiB of bytes. 2 (k + 1) keys are kept whatever
    /// bytes they have.
    pub fn for_counters(k: u64) -> Room
        requires { in_range k max_k ≡ true }
        ensures room { result ≡ room_for k }
        ensures fits { IsRoom result }
        ensures share { 2 * (k + 1) ≤ result.few }
    {
        let few = 2 * (k as usize + 1);
        Room {
            keys: few.max(LEAST_KEYS),
            few,
            bytes: MOST_BYTES,
        }
    }
}
