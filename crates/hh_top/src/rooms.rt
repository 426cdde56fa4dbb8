//! How much the tallies for the greatest keys keep, by the memory that there is.

ghost use Rattle.std.specs.Prelude.{◌≡◌, ◌+◌, ◌*◌, ◌/◌, ◌≤◌, max, min, true};
ghost use Rattle.hh_stream.specs.Ranges.{in_range};
ghost use Rattle.hh_summaries.specs.Counters.{max_k};
ghost use Rattle.hh_tally.specs.Tallies.{IsRoom};
ghost use Rattle.hh_top.specs.Rooms.{counted_in, once_room, shared_room, whole_room};

use hh_counters::MAX_K;
use hh_tally::{MAX_KEYS, Room};

// The least memory that a room is made for.
const LEAST_MEMORY: u64 = 256_000;

// How many bytes of memory a key takes whatever bytes it has, and as many once more, since half of
// those that are kept so are counted; how many it takes besides its own; and where tallies are
// merged.
const COUNTED_COST: u64 = 8000;

const KEY_COST: u64 = 128;

const MERGED_COST: u64 = 256;

/// How many keys are counted at most, where counters have `memory` bytes.
pub fn counted_in(memory: u64) -> u64
    ensures counted { result ≡ counted_in memory }
    ensures most { result ≤ max_k }
{
    (memory.max(LEAST_MEMORY) / COUNTED_COST - 1).min(MAX_K)
}

/// Room for the tally of one worker in `memory` bytes, a few more or less, where the tallies of
/// several are merged.
pub fn shared_room(memory: u64) -> Room
    ensures room { result ≡ shared_room memory }
    ensures fits { IsRoom result }
    ensures share { 2 * (counted_in memory + 1) ≤ result.few }
{
    let few = 2 * (counted_in(memory) as usize + 1);
    let memory = memory.max(LEAST_MEMORY);
    Room {
        keys: ((memory / MERGED_COST) as usize).min(2 * (MAX_K as usize + 1)),
        few,
        bytes: (memory / 4) as usize,
    }
}

/// Room for the tally of the one thread that makes a report with `k` counters by `memory` bytes, a
/// few more or less, and reads its records once.
pub fn once_room(k: u64, memory: u64) -> Room
    requires { in_range k max_k ≡ true }
    ensures room { result ≡ once_room k memory }
    ensures fits { IsRoom result }
    ensures share { k + 1 ≤ result.few / 2 }
{
    let few = 2 * (k as usize + 1);
    let memory = memory.max(LEAST_MEMORY);
    Room {
        keys: few.max(((memory / KEY_COST) as usize).min(MAX_KEYS)),
        few,
        bytes: (memory / 4) as usize,
    }
}

/// Room for the tally of the one worker who has all `memory` bytes, a few more or less.
pub fn whole_room(memory: u64) -> Room
    ensures room { result ≡ whole_room memory }
    ensures fits { IsRoom result }
    ensures share { 2 * (counted_in memory + 1) ≤ result.few }
{
    let few = 2 * (counted_in(memory) as usize + 1);
    let memory = memory.max(LEAST_MEMORY);
    Room {
        keys: ((memory / KEY_COST) as usize).min(MAX_KEYS),
        few,
        bytes: (memory / 4) as usize,
    }
}
