//! Handles: a value in memory, from when it is made to when it is given back.

ghost use Rattle.std.specs.Prelude.{◌≡◌, ◌≢◌, ◌≤◌, ◌⊎◌, ◌∷◌, [], IfErr, IfOk, IfSome, IsSome};
ghost use Rattle.std.specs.Prelude.{length, Err, None, Ok, Some, option_map};
ghost use mathlib.Core.Logic.{◌↔◌};
ghost use Rattle.hh_stream.specs.Weights.{max_key_len};
ghost use Rattle.hh_summaries.specs.Counters.{SummaryView};
ghost use Rattle.hh_countmin.specs.Table.{TableView};
ghost use Rattle.hh_saved.specs.Sizes.{most_summary_bytes, table_bytes};
ghost use Rattle.hh_saved.specs.Spelling.{Spells};
ghost use Rattle.hh_saved.specs.declared.format.Version.TheVariants as version;
ghost use Rattle.hh_saved.specs.declared.saved.Saved.TheVariants.{Cells, Counters};
ghost use Rattle.hh_faults.specs.declared.error.ToolError.TheVariants as tool;
ghost use Rattle.hh_commands.specs.Files.{Refuses, file_of};
ghost use Rattle.hh_commands.specs.Summarise.{bad_k};
ghost use Rattle.hh_commands.specs.Table.{bad_table};
ghost use Rattle.hh_library.specs.Add.{empty_of, empty_table_of};
ghost use Rattle.heavy_ffi.specs.Faults.{IsTold};
ghost use Rattle.heavy_ffi.specs.Outcomes.{AnswersOn, Becomes, IsOutcome, TellsHead};

use crate::fault::{Fault, tell};
use crate::hash_words::HashWords;
use crate::held::{Held, Place};
use crate::room::{DONE, answer, answer_nothing};
use hh_commands::file_of;
use hh_faults::ToolError;
use hh_library::{Accumulator, empty_summary, empty_table};
use hh_saved::Saved;
use hh_saved::laws::sizes_are_bounded;
use std::alloc::Global;
use std::mem;

/// A value in memory, or none, and the words by which its calls hash keys.
#[derive(Drop)]
#[repr(C)]
pub struct Heavy {
    pub place: Place,
    pub full: u64,
    pub hash: HashWords,
    ghost is: { (full ≡ 1) ↔ IsSome place.value },
}

impl Heavy {
    /// Makes a handle with no value, whose calls hash keys by these words.
    fn none(alloc: Global, hash: HashWords) -> Heavy
        ensures { result.place.value ≡ None }
    {
        Heavy {
            place: Place::of(Held::none(alloc)),
            full: 0,
            hash,
        }
    }

    /// Puts a value into the handle, whose calls hash keys as before.
    pub(crate) fn put(&mut self, value: Box<Accumulator>)
        ensures { self.new.place.value ≡ Some value.value }
    {
        *self = Heavy {
            place: Place::of(Held::of(value)),
            full: 1,
            hash: self.hash,
        };
    }

    /// Takes the value out, where there is one.
    pub(crate) fn take(&mut self, alloc: Global) -> Option<Box<Accumulator>>
        ensures left { self.new.place.value ≡ None }
        ensures taken { self.old.place.value ≡ option_map (λ b. b.value) result }
    {
        let none = Heavy::none(alloc, self.hash);
        let whole = mem::replace(self, none);
        if whole.full == 1 {
            Some(whole.place.into_held().into_box())
        } else {
            None
        }
    }

    /// Gives the saved file of the value, which stays, where there is one.
    pub(crate) fn saved(&mut self, alloc: Global) -> Option<Result<Vec<u8>, ToolError>>
        ensures kept { self.new.place.value ≡ self.old.place.value }
        ensures nothing { result ≡ None → self.old.place.value ≡ None }
        ensures saved { IfSome result (λ made. IfSome self.old.place.value (λ value.
            IfOk made (λ bytes. Spells version.Two bytes.items value))) }
        ensures some { IfSome result (λ made. IsSome self.old.place.value) }
        ensures refused { IfSome result (λ made. IfErr made (λ refusal. refusal ≡ tool.Memory)) }
    {
        let mut value = self.take(alloc)?;
        let made = value.save(alloc);
        self.put(value);
        Some(made)
    }
}

/// Makes a value in memory of its own, whose keys are hashed by `hash` from now on.
fn boxed(
    alloc: Global,
    made: Result<Saved, ToolError>,
    hash: &HashWords,
) -> Result<Box<Accumulator>, ToolError>
    ensures value { IfOk result (λ value. made ≡ Ok value.value) }
    ensures refused { IfErr result (λ refusal. (refusal ≡ tool.Memory) ⊎ (made ≡ Err refusal)) }
    ensures early { IfErr made (λ refusal. result ≡ Err refusal) }
{
    match Box::new(alloc, Accumulator::of(made?, hash.key_hash())) {
        Ok(value) => Ok(value),
        Err(_) => Err(ToolError::Memory),
    }
}

/// Puts a value that was made in place of what `heavy` has, or tells its refusal.
fn begin(
    alloc: Global,
    made: Result<Saved, ToolError>,
    hash: &HashWords,
    heavy: &mut Heavy,
    fault: &mut Fault,
) -> u32
    ensures outcome { IsOutcome (Becomes made) (λ refusal. Refuses made refusal)
        result (heavy.old.place.value ∷ []) (heavy.new.place.value ∷ []) 1 fault.new }
    ensures early { IfErr made (IsTold result fault.new) }
    ensures no_room { result ≢ 5 }
{
    match boxed(alloc, made, hash) {
        Ok(value) => {
            heavy.take(alloc);
            heavy.put(value);
            heavy.hash = *hash;
            *fault = Fault::none();
            DONE
        }
        Err(refusal) => tell(&refusal, fault),
    }
}

/// Makes the summary of no items, with k counters, in place of what `heavy` has. Its calls hash
/// keys by these words, which decide how fast they are found, and nothing else.
#[unsafe(no_mangle)]
pub extern "C" fn proved_new_summary(
    alloc: Global,
    heavy: &mut Heavy,
    k: u64,
    hash: &HashWords,
    fault: &mut Fault,
) -> u32
    ensures outcome { IsOutcome (Becomes (empty_of k)) (Refuses (empty_of k))
        result (heavy.old.place.value ∷ []) (heavy.new.place.value ∷ []) 1 fault.new }
    ensures bad_k { IfSome (bad_k k) (IsTold result fault.new) }
    ensures no_room { result ≢ 5 }
{
    let made = empty_summary(alloc, k);
    begin(alloc, made, hash, heavy, fault)
}

/// Makes the Count-Min table of no items, with the hash family that is drawn from the seed, in
/// place of what `heavy` has. The depth is tested first, then the width.
#[unsafe(no_mangle)]
pub extern "C" fn proved_new_table(
    alloc: Global,
    heavy: &mut Heavy,
    width: u64,
    depth: u64,
    seed: u64,
    fault: &mut Fault,
) -> u32
    ensures outcome { IsOutcome (Becomes (empty_table_of width depth seed))
        (Refuses (empty_table_of width depth seed))
        result (heavy.old.place.value ∷ []) (heavy.new.place.value ∷ []) 1 fault.new }
    ensures bad_table { IfSome (bad_table depth width) (IsTold result fault.new) }
    ensures no_room { result ≢ 5 }
{
    let made = empty_table(alloc, width, depth, seed);
    begin(alloc, made, &HashWords::fixed(), heavy, fault)
}

/// Puts the value of a saved file in place of what `heavy` has. Its calls hash keys by these words.
#[unsafe(no_mangle)]
pub extern "C" fn proved_load(
    alloc: Global,
    heavy: &mut Heavy,
    file: &[u8],
    hash: &HashWords,
    fault: &mut Fault,
) -> u32
    ensures outcome { IsOutcome (Becomes (file_of 1 file.now)) (Refuses (file_of 1 file.now))
        result (heavy.old.place.value ∷ []) (heavy.new.place.value ∷ []) 1 fault.new }
    ensures early { TellsHead file.now result fault.new }
    ensures no_room { result ≢ 5 }
{
    let made = file_of(alloc, 1, file);
    begin(alloc, made, hash, heavy, fault)
}

/// Gives the saved file of the value that `heavy` has and keeps.
#[unsafe(no_mangle)]
pub extern "C" fn proved_save(
    alloc: Global,
    heavy: &mut Heavy,
    out: &mut [u8],
    needed: &mut usize,
    fault: &mut Fault,
) -> u32
    ensures answers { AnswersOn heavy.old.place.value
        (λ value bytes. Spells version.Two bytes value) (λ value refusal. refusal ≡ tool.Memory)
        result out.old out.new needed.new fault.new }
    ensures kept { heavy.new.place.value ≡ heavy.old.place.value }
    ensures no_bytes { result ≢ 0 → result ≢ 5 → needed.new ≡ 0 }
    ensures enough { (s : SummaryView) → heavy.old.place.value ≡ Some (Counters s)
        → most_summary_bytes s.k max_key_len ≤ length out.old → result ≢ 5 }
    ensures exact { (t : TableView) → heavy.old.place.value ≡ Some (Cells t)
        → (result ≡ 0) ⊎ (result ≡ 5) → needed.new ≡ table_bytes t.width (length t.family.rows) }
{
    sizes_are_bounded();
    match heavy.saved(alloc) {
        Some(made) => answer(made, out, needed, fault),
        None => answer_nothing(needed, fault),
    }
}

/// Gives back the memory of the value that `heavy` has. It has none then.
#[unsafe(no_mangle)]
pub extern "C" fn proved_free(alloc: Global, heavy: &mut Heavy)
    ensures { heavy.new.place.value ≡ None }
{
    heavy.take(alloc);
}
