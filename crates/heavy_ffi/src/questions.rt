//! What the value of a handle tells of its keys.

ghost use Rattle.std.specs.Prelude.{◌≡◌, ◌≢◌, ◌∷◌, [], length, map, IfErr, IfOk, Ok};
ghost use Rattle.hh_commands.specs.Ask.{answer_of, key_fault, unless};
ghost use Rattle.hh_commands.specs.Files.{Refuses, SummaryRefused};
ghost use Rattle.hh_commands.specs.List.{ListsRows};
ghost use Rattle.hh_library.specs.Asked.{asked_of};
ghost use Rattle.hh_library.specs.Entries.{ListsEntries};
ghost use Rattle.heavy_ffi.specs.Items.{keys_of, shape_fault};
ghost use Rattle.heavy_ffi.specs.Outcomes.{AnswersAfter, AnswersOn, both_of, file_with};

use crate::fault::{Fault, tell};
use crate::handle::Heavy;
use crate::items::{keys_of, shape_fault};
use crate::room::{Bounds, DONE, USAGE, all_bounds, answer, answer_nothing};
use hh_commands::list_rows;
use hh_faults::ToolError;
use hh_library::{Accumulator, list_entries};
use hh_rows::Output;
use hh_saved::Place;
use std::alloc::Global;

/// Gives the least and the most that the weight of a key can be. After a refusal `bounds` is as it
/// was.
#[unsafe(no_mangle)]
pub extern "C" fn proved_ask(
    alloc: Global,
    heavy: &mut Heavy,
    key: &[u8],
    bounds: &mut Bounds,
    fault: &mut Fault,
) -> u32
    ensures answers { AnswersOn heavy.old.place.value
        (λ value all. map Ok (map both_of all)
        ≡ unless (key_fault 1 key.now) (answer_of value key.now) ∷ [])
        (λ value. Refuses (unless (key_fault 1 key.now) (answer_of value key.now)))
        result (bounds.old ∷ []) (bounds.new ∷ []) 1 fault.new }
    ensures kept { heavy.new.place.value ≡ heavy.old.place.value }
    ensures no_room { result ≢ 5 }
{
    let Some(mut value) = heavy.take(alloc) else {
        *fault = Fault::no_value();
        return USAGE;
    };
    let told = value.ask_key(alloc, key);
    heavy.put(value);
    match told {
        Ok((low, high)) => {
            *fault = Fault::none();
            *bounds = Bounds { low, high };
            DONE
        }
        Err(refusal) => tell(&refusal, fault),
    }
}

/// The least and the most that the weight of each key can be, where the keys end there.
fn bounds_of(
    alloc: Global,
    value: &mut Accumulator,
    keys: &[u8],
    ends: &[u64],
) -> Result<Vec<Bounds>, ToolError>
    ensures bounds { IfOk result (λ all.
        asked_of value.old (keys_of keys.now ends.now) ≡ Ok (map both_of all.items)) }
    ensures refused { IfErr result (Refuses (asked_of value.old (keys_of keys.now ends.now))) }
    ensures kept { value.new ≡ value.old }
{
    let keys = keys_of(alloc, keys, ends)?;
    let pairs = value.ask(alloc, &keys)?;
    Ok(all_bounds(alloc, &pairs)?)
}

/// Gives for each of many keys what `proved_ask` gives, in their order. The ends are tested first,
/// then the keys in order.
#[unsafe(no_mangle)]
pub extern "C" fn proved_ask_items(
    alloc: Global,
    heavy: &mut Heavy,
    keys: &[u8],
    ends: &[u64],
    out: &mut [Bounds],
    needed: &mut usize,
    fault: &mut Fault,
) -> u32
    ensures answers { AnswersAfter (shape_fault (length keys.now) ends.now [])
        (λ status. AnswersOn heavy.old.place.value
        (λ value all. asked_of value (keys_of keys.now ends.now) ≡ Ok (map both_of all))
        (λ value. Refuses (asked_of value (keys_of keys.now ends.now)))
        status out.old) result out.old out.new needed.new fault.new }
    ensures kept { heavy.new.place.value ≡ heavy.old.place.value }
    ensures no_bounds { result ≢ 0 → result ≢ 5 → needed.new ≡ 0 }
{
    if let Some(bad) = shape_fault(keys.len(), ends, &[]) {
        *needed = 0;
        *fault = bad;
        return USAGE;
    }
    let Some(mut value) = heavy.take(alloc) else {
        return answer_nothing(needed, fault);
    };
    let bounds = bounds_of(alloc, &mut value, keys, ends);
    heavy.put(value);
    answer(bounds, out, needed, fault)
}

/// Gives where the entries of a summary lie in its saved file, by rising key.
#[unsafe(no_mangle)]
pub extern "C" fn proved_entries(
    alloc: Global,
    heavy: &mut Heavy,
    out: &mut [Place],
    needed: &mut usize,
    fault: &mut Fault,
) -> u32
    ensures answers { AnswersOn heavy.old.place.value (λ value. ListsEntries (file_with value))
        (λ value. SummaryRefused (file_with value))
        result out.old out.new needed.new fault.new }
    ensures kept { heavy.new.place.value ≡ heavy.old.place.value }
    ensures no_entries { result ≢ 0 → result ≢ 5 → needed.new ≡ 0 }
{
    match heavy.saved(alloc) {
        Some(Ok(file)) => answer(list_entries(alloc, &file), out, needed, fault),
        Some(Err(refusal)) => answer(Err(refusal), out, needed, fault),
        None => answer_nothing(needed, fault),
    }
}

/// Gives the rows `key,low,high` of all keys of a summary that have a counter, by falling low and
/// then by rising key.
#[unsafe(no_mangle)]
pub extern "C" fn proved_list(
    alloc: Global,
    heavy: &mut Heavy,
    out: &mut [u8],
    needed: &mut usize,
    fault: &mut Fault,
) -> u32
    ensures answers { AnswersOn heavy.old.place.value (λ value. ListsRows 0 (file_with value))
        (λ value. SummaryRefused (file_with value))
        result out.old out.new needed.new fault.new }
    ensures kept { heavy.new.place.value ≡ heavy.old.place.value }
    ensures no_bytes { result ≢ 0 → result ≢ 5 → needed.new ≡ 0 }
{
    match heavy.saved(alloc) {
        Some(Ok(file)) => answer(
            list_rows(alloc, &file, &Output::plain(0)),
            out,
            needed,
            fault,
        ),
        Some(Err(refusal)) => answer(Err(refusal), out, needed, fault),
        None => answer_nothing(needed, fault),
    }
}
