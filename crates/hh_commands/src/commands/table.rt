//! Records counted in a saved table.

ghost use Rattle.std.specs.Prelude.{◌≡◌, [], true, IfOk, IfErr, IfSome, Err};
ghost use Rattle.hh_stream.specs.Ranges.{in_range};
ghost use Rattle.hh_countmin.specs.Family.{drawn_family, max_depth, max_width};
ghost use Rattle.hh_countmin.specs.Table.{empty_table, table_of};
ghost use Rattle.hh_saved.specs.declared.saved.Saved.TheVariants.{Cells};
ghost use Rattle.hh_commands.specs.Records.{SavesStream};
ghost use Rattle.hh_records.specs.Refusals.{RefusedAfter};
ghost use Rattle.hh_commands.specs.Table.{bad_table};

use crate::files::written;
use hh_countmin::{Family, MAX_DEPTH, MAX_WIDTH, Table};
use hh_faults::ToolError;
use hh_records::{ReadRecords, gather_in_turn};
use hh_saved::Saved;
use hh_stream::in_range;
use std::alloc::{AllocError, Global};

/// The table of no items, with the family that is drawn from the seed.
pub fn drawn_table(alloc: Global, width: u64, depth: u64, seed: u64) -> Result<Table, AllocError>
    requires depth { in_range depth max_depth ≡ true }
    requires width { in_range width max_width ≡ true }
    ensures table { IfOk result (λ table. table ≡ empty_table (drawn_family seed depth) width) }
    ensures none { IfOk result (λ table. table ≡ table_of (drawn_family seed depth) width []) }
{
    let family = Family::of_seed(alloc, seed, depth)?;
    Table::empty(alloc, family, width)
}

/// The saved Count-Min table of some records (Cormode and Muthukrishnan 2005), with the hash family
/// that is drawn from the seed.
///
/// Depth and width are tested, in this order, before anything is read.
pub fn table_bytes_from<R: ReadRecords>(
    alloc: Global,
    width: u64,
    depth: u64,
    seed: u64,
    records: R,
) -> Result<Vec<u8>, ToolError>
    ensures saved { IfOk result (λ bytes.
        SavesStream (λ xs. Cells (table_of (drawn_family seed depth) width xs))
        (R.known records) bytes.items) }
    ensures refused { IfErr result (λ fault.
        RefusedAfter (bad_table depth width) (R.known records) fault) }
    ensures bad_table { IfSome (bad_table depth width) (λ fault. result ≡ Err fault) }
{
    if !in_range(depth, MAX_DEPTH) {
        return Err(ToolError::BadDepth);
    }
    if !in_range(width, MAX_WIDTH) {
        return Err(ToolError::BadWidth);
    }
    let start = drawn_table(alloc, width, depth, seed)?;
    let table = gather_in_turn(alloc, start, records)?;
    written(alloc, Saved::Cells(table))
}
