//! Saved files, merged.

ghost use Rattle.std.specs.Prelude.{◌≡◌, ◌<◌, Ok, Err, IfOk, IfErr, OnErr, OnOk, MatchResult, [], map, length, slice_index_or, vec_items};
ghost use Rattle.hh_saved.specs.Spelling.{Spells};
ghost use Rattle.hh_saved.specs.declared.format.Version.TheVariants as version;
ghost use Rattle.hh_saved.specs.declared.saved.Saved.{Saved};
ghost use Rattle.hh_saved.specs.declared.saved.Saved.TheVariants.{Counters, Cells};
ghost use Rattle.hh_faults.specs.declared.error.ToolError.{ToolError};
ghost use Rattle.hh_commands.specs.Files.{Refuses, StopsAtHead};
ghost use Rattle.hh_commands.specs.Merge.{merge_saved, merged_files};

use crate::files::{file_of, written};
use hh_counters::{Summary, SummaryFault};
use hh_countmin::laws::equal_families_are_one;
use hh_countmin::{Table, TableFault};
use hh_faults::{MergeCause, ToolError};
use hh_saved::Saved;
use std::alloc::Global;

/// Merges `other`, the summary of the file with this `number`, into `summary`. After an error
/// `summary` is as it was.
fn merge_counters(summary: &mut Summary, number: u64, other: &Summary) -> Result<(), ToolError>
    ensures merged { OnOk result
        (merge_saved number (Counters summary.old) (Counters other.now)
        ≡ Ok (Counters summary.new)) }
    ensures refused { IfErr result (λ fault.
        Refuses (merge_saved number (Counters summary.old) (Counters other.now)) fault) }
    ensures every_fault { (fault : ToolError)
        → merge_saved number (Counters summary.old) (Counters other.now) ≡ Err fault
        → result ≡ Err fault }
    ensures unchanged { OnErr result (summary.new ≡ summary.old) }
{
    let cause = match summary.merge(other) {
        Ok(()) => return Ok(()),
        Err(SummaryFault::DifferentK) => MergeCause::DifferentK,
        Err(SummaryFault::TotalTooLarge) => MergeCause::TotalTooLarge,
        Err(SummaryFault::Memory) => return Err(ToolError::Memory),
        // No merge answers this.
        Err(SummaryFault::BadK) => return Err(ToolError::BadK),
    };
    Err(ToolError::CannotMerge { number, cause })
}

/// Merges `other`, the table of the file with this `number`, into `table`. After an error `table`
/// is as it was.
fn merge_cells(table: &mut Table, number: u64, other: &Table) -> Result<(), ToolError>
    ensures merged { MatchResult result
        (λ _. merge_saved number (Cells table.old) (Cells other.now) ≡ Ok (Cells table.new))
        (λ fault. merge_saved number (Cells table.old) (Cells other.now) ≡ Err fault) }
    ensures unchanged { OnErr result (table.new ≡ table.old) }
{
    equal_families_are_one();
    let cause = match table.merge(other) {
        Ok(()) => return Ok(()),
        Err(TableFault::DifferentFamily) => MergeCause::DifferentFamily,
        Err(TableFault::DifferentWidth) => MergeCause::DifferentWidth,
        Err(TableFault::TotalTooLarge) => MergeCause::TotalTooLarge,
        Err(_) => unreachable!("no other fault of a merge"),
    };
    Err(ToolError::CannotMerge { number, cause })
}

/// Merges `next`, the value of the file with this `number`, into `merged`. After an error `merged`
/// is as it was.
pub fn merge_saved(merged: &mut Saved, number: u64, next: &Saved) -> Result<(), ToolError>
    ensures merged { OnOk result (merge_saved number merged.old next.now ≡ Ok merged.new) }
    ensures refused { IfErr result (λ fault.
        Refuses (merge_saved number merged.old next.now) fault) }
    ensures every_fault { (fault : ToolError)
        → merge_saved number merged.old next.now ≡ Err fault → result ≡ Err fault }
    ensures unchanged { OnErr result (merged.new ≡ merged.old) }
{
    match merged {
        Saved::Counters(summary) => match next {
            Saved::Counters(other) => merge_counters(summary, number, other),
            Saved::Cells(_) => Err(ToolError::MixedKinds { number }),
        },
        Saved::Cells(table) => match next {
            Saved::Counters(_) => Err(ToolError::MixedKinds { number }),
            Saved::Cells(other) => merge_cells(table, number, other),
        },
    }
}

/// Reads the first of `files` and merges each next one into it, in order. The bytes of a file are
/// tested only after those before it are merged, so that the first file that is refused decides
/// the error.
fn merge_files(alloc: Global, files: &[Vec<u8>]) -> Result<Saved, ToolError>
    requires { 0 < length files.now }
    ensures merged { IfOk result (λ saved. merged_files (map vec_items files.now) ≡ Ok saved) }
    ensures refused { IfErr result (λ fault.
        Refuses (merged_files (map vec_items files.now)) fault) }
    ensures early { StopsAtHead 1 (slice_index_or (map vec_items files.now) 0 []) result }
{
    let mut merged = file_of(alloc, 1, &files[0])?;
    for i in 1..files.len() {
        let number = i as u64 + 1;
        let next = file_of(alloc, number, &files[i])?;
        merge_saved(&mut merged, number, &next)?;
    }
    Ok(merged)
}

/// Merges saved files: the first with each next one, in order. There is at least one. The result is
/// the spelling in version 2 of a summary or a table, as the files are, which may be of either
/// version.
///
/// Files are numbered from 1, and the first one that is refused gives the error, with its number.
/// It is [`ToolError::BadFile`] if its bytes are no saved file, else [`ToolError::MixedKinds`] if
/// it is a table and the first file a summary, or the other way round, else
/// [`ToolError::CannotMerge`] if its k, hash family or width isn't that of the first file, or the
/// total of the files up to it is too large. [`ToolError::Memory`] can come at any of them.
pub fn merge_bytes(alloc: Global, files: &[Vec<u8>]) -> Result<Vec<u8>, ToolError>
    requires { 0 < length files.now }
    ensures merged { IfOk result (λ bytes. (saved : Saved)
        × (merged_files (map vec_items files.now) ≡ Ok saved)
        × Spells version.Two bytes.items saved) }
    ensures refused { IfErr result (λ fault.
        Refuses (merged_files (map vec_items files.now)) fault) }
    ensures early { StopsAtHead 1 (slice_index_or (map vec_items files.now) 0 []) result }
{
    let saved = merge_files(alloc, files)?;
    written(alloc, saved)
}
