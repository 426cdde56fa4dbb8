//! The calls that add to the value of a handle, or merge another into it.

ghost use Rattle.std.specs.Prelude.{◌≡◌, ◌≢◌, ◌∷◌, [], IfErr, IfSome, IsSome, None};
ghost use Rattle.std.specs.Prelude.{OnErr, OnOk, Some, length};
ghost use Rattle.hh_commands.specs.Files.{Refuses};
ghost use Rattle.hh_commands.specs.Merge.{merge_saved, merged_from};
ghost use Rattle.hh_library.specs.Add.{added_to};
ghost use Rattle.hh_library.specs.LaidOut.{AddRecordsRefused, AddsRecords, text_laid};
ghost use Rattle.hh_saved.specs.declared.saved.Saved.{Saved};
ghost use Rattle.heavy_ffi.specs.Changes.{Changes, ChangeRefused, LeavesChanged, bad_head, change_fault};
ghost use Rattle.heavy_ffi.specs.Faults.{IsTold, no_value};
ghost use Rattle.heavy_ffi.specs.Items.{items_of, keys_of, shape_fault};
ghost use Rattle.heavy_ffi.specs.Layouts.{Laid, LaidRefused, layout_fault};
ghost use Rattle.heavy_ffi.specs.Outcomes.{AnswersAfter, AnswersOn, Becomes, IsOutcome, TellsHeadOf};

use crate::fault::{Fault, tell};
use crate::handle::Heavy;
use crate::hash_words::HashWords;
use crate::items::{items_of, shape_fault};
use crate::layout::{LaidText, TextLayout};
use crate::room::{DONE, USAGE};
use hh_faults::ToolError;
use hh_library::{Accumulator, TextRecords, add_records};
use std::alloc::Global;

/// A change of the value that a handle has.
#[derive(Clone, Copy)]
pub(crate) enum Change<'a> {
    /// An item of a key and a weight more, as item 1.
    Item(&'a [u8], u64),
    /// Items more: keys, where they end, and their weights.
    Items(&'a [u8], &'a [u64], &'a [u64]),
    /// The records of a text more, whose keys are hashed by these words.
    Records(LaidText<'a>, HashWords),
    /// The bytes of a saved file, merged into the value as file 2.
    File(&'a [u8]),
}

impl Change<'_> {
    /// Makes the change of `value`. After a refusal that is as it was.
    fn make(self, alloc: Global, value: &mut Accumulator) -> Result<(), ToolError>
        requires { change_fault self ≡ None }
        ensures made { OnOk result (Changes self.entry value.old value.new) }
        ensures refused { IfErr result (ChangeRefused self.entry value.old) }
        ensures unchanged { OnErr result (value.new ≡ value.old) }
        ensures early { IfSome (bad_head self.entry) (λ refusal. result ≡ Err refusal) }
    {
        match self {
            Change::Item(key, weight) => value.add(alloc, 1, key, weight),
            Change::Items(keys, ends, weights) => {
                let items = items_of(alloc, keys, ends, weights)?;
                value.add_items(alloc, &items)
            }
            Change::Records(laid, hash) => {
                let layout = laid.layout_by(alloc, &hash)?;
                let text = laid.text;
                let layout = &layout;
                add_records(alloc, value, TextRecords { layout, text })
            }
            Change::File(file) => value.absorb(alloc, file),
        }
    }
}

/// Makes a `change` of the value that `heavy` has. After a refusal that is as it was.
fn make_change(alloc: Global, heavy: &mut Heavy, change: Change, fault: &mut Fault) -> u32
    requires { change_fault change ≡ None }
    ensures outcome { IfSome heavy.old.place.value (λ value. IsOutcome
        (LeavesChanged change.entry value) (ChangeRefused change.entry value)
        result (heavy.old.place.value ∷ []) (heavy.new.place.value ∷ []) 1 fault.new) }
    ensures early { IsSome heavy.old.place.value
        → IfSome (bad_head change.entry) (IsTold result fault.new) }
    ensures nothing { heavy.old.place.value ≡ None
        → (result ≡ 2) × (fault.new ≡ no_value) × (heavy.new.place.value ≡ None) }
    ensures no_room { result ≢ 5 }
{
    let Some(mut value) = heavy.take(alloc) else {
        *fault = Fault::no_value();
        return USAGE;
    };
    let made = change.make(alloc, &mut value);
    heavy.put(value);
    match made {
        Ok(()) => {
            *fault = Fault::none();
            DONE
        }
        Err(refusal) => tell(&refusal, fault),
    }
}

/// Adds one item, as item 1.
#[unsafe(no_mangle)]
pub extern "C" fn proved_update(
    alloc: Global,
    heavy: &mut Heavy,
    key: &[u8],
    weight: u64,
    fault: &mut Fault,
) -> u32
    ensures answers { AnswersOn heavy.old.place.value
        (λ value. Becomes (added_to value ((key.now, weight) ∷ [])))
        (λ value. Refuses (added_to value ((key.now, weight) ∷ [])))
        result (heavy.old.place.value ∷ []) (heavy.new.place.value ∷ []) 1 fault.new }
    ensures no_room { result ≢ 5 }
{
    make_change(alloc, heavy, Change::Item(key, weight), fault)
}

/// Adds items, in order: all of them or none. The ends are tested first, then the number of the
/// weights, then the items in order.
#[unsafe(no_mangle)]
pub extern "C" fn proved_update_items(
    alloc: Global,
    heavy: &mut Heavy,
    keys: &[u8],
    ends: &[u64],
    weights: &[u64],
    fault: &mut Fault,
) -> u32
    ensures answers { AnswersAfter (shape_fault (length keys.now) ends.now weights.now)
        (λ status. AnswersOn heavy.old.place.value
        (λ value. Becomes (added_to value (items_of keys.now ends.now weights.now)))
        (λ value. Refuses (added_to value (items_of keys.now ends.now weights.now)))
        status (heavy.old.place.value ∷ []))
        result (heavy.old.place.value ∷ []) (heavy.new.place.value ∷ []) 1 fault.new }
    ensures no_room { result ≢ 5 }
{
    if let Some(bad) = shape_fault(keys.len(), ends, weights) {
        *fault = bad;
        return USAGE;
    }
    make_change(alloc, heavy, Change::Items(keys, ends, weights), fault)
}

/// Adds the items of a text's records, in order: all of them or none. The layout is tested first,
/// then the records, and then that their items leave the total within its bound.
#[unsafe(no_mangle)]
pub extern "C" fn proved_update_records(
    alloc: Global,
    heavy: &mut Heavy,
    text: &[u8],
    layout: &TextLayout,
    columns: &[u8],
    ends: &[u64],
    fault: &mut Fault,
) -> u32
    ensures answers { AnswersAfter (layout_fault layout.now (length columns.now) ends.now)
        (λ status. AnswersOn heavy.old.place.value
        (λ value values. (new : Saved) × Laid layout.now (keys_of columns.now ends.now)
        (λ l. AddsRecords value (text_laid l text.now) new) × (values ≡ Some new ∷ []))
        (λ value. LaidRefused layout.now (keys_of columns.now ends.now)
        (λ l. AddRecordsRefused value (text_laid l text.now)))
        status (heavy.old.place.value ∷ []))
        result (heavy.old.place.value ∷ []) (heavy.new.place.value ∷ []) 1 fault.new }
    ensures no_room { result ≢ 5 }
{
    let laid = LaidText {
        text,
        layout,
        columns,
        ends,
    };
    if let Some(bad) = laid.test() {
        *fault = bad;
        return USAGE;
    }
    let hash = heavy.hash;
    make_change(alloc, heavy, Change::Records(laid, hash), fault)
}

/// Merges the value of a saved file into that which `heavy` has, as file 2.
#[unsafe(no_mangle)]
pub extern "C" fn proved_merge_saved(
    alloc: Global,
    heavy: &mut Heavy,
    file: &[u8],
    fault: &mut Fault,
) -> u32
    ensures answers { AnswersOn heavy.old.place.value
        (λ value. Becomes (merged_from 2 value (file.now ∷ [])))
        (λ value. Refuses (merged_from 2 value (file.now ∷ [])))
        result (heavy.old.place.value ∷ []) (heavy.new.place.value ∷ []) 1 fault.new }
    ensures early { IsSome heavy.old.place.value → TellsHeadOf 2 file.now result fault.new }
    ensures no_room { result ≢ 5 }
{
    make_change(alloc, heavy, Change::File(file), fault)
}

/// Merges `next`, which stays, into the value that `heavy` has, as file 2.
fn merge_value(alloc: Global, heavy: &mut Heavy, next: &mut Accumulator, fault: &mut Fault) -> u32
    ensures outcome { IfSome heavy.old.place.value (λ value. IsOutcome
        (Becomes (merge_saved 2 value next.old)) (Refuses (merge_saved 2 value next.old))
        result (heavy.old.place.value ∷ []) (heavy.new.place.value ∷ []) 1 fault.new) }
    ensures nothing { heavy.old.place.value ≡ None
        → (result ≡ 2) × (fault.new ≡ no_value) × (heavy.new.place.value ≡ None) }
    ensures kept { next.new ≡ next.old }
    ensures no_room { result ≢ 5 }
{
    let Some(mut value) = heavy.take(alloc) else {
        *fault = Fault::no_value();
        return USAGE;
    };
    let made = value.merge(alloc, next);
    heavy.put(value);
    match made {
        Ok(()) => {
            *fault = Fault::none();
            DONE
        }
        Err(refusal) => tell(&refusal, fault),
    }
}

/// Merges the value that `other` has and keeps into that which `heavy` has, as file 2.
#[unsafe(no_mangle)]
pub extern "C" fn proved_merge(
    alloc: Global,
    heavy: &mut Heavy,
    other: &mut Heavy,
    fault: &mut Fault,
) -> u32
    ensures answers { IfSome other.old.place.value (λ next. AnswersOn heavy.old.place.value
        (λ value. Becomes (merge_saved 2 value next))
        (λ value. Refuses (merge_saved 2 value next))
        result (heavy.old.place.value ∷ []) (heavy.new.place.value ∷ []) 1 fault.new) }
    ensures nothing { other.old.place.value ≡ None → (result ≡ 2) × (fault.new ≡ no_value)
        × (heavy.new.place.value ≡ heavy.old.place.value) }
    ensures kept { other.new.place.value ≡ other.old.place.value }
    ensures no_room { result ≢ 5 }
{
    let Some(mut next) = other.take(alloc) else {
        *fault = Fault::no_value();
        return USAGE;
    };
    let status = merge_value(alloc, heavy, &mut next, fault);
    other.put(next);
    status
}
