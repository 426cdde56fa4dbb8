//! Tables that begin empty.

ghost use Rattle.std.specs.Prelude.{◌≡◌, IfErr, IfOk, IfSome, Ok, Err};
ghost use Rattle.hh_library.specs.Add.{empty_table_of};
ghost use Rattle.hh_commands.specs.Files.{Refuses};
ghost use Rattle.hh_commands.specs.Table.{bad_table};

use hh_commands::drawn_table;
use hh_countmin::{MAX_DEPTH, MAX_WIDTH};
use hh_faults::ToolError;
use hh_saved::Saved;
use hh_stream::in_range;
use std::alloc::Global;

/// The table of no items, with the hash family that is drawn from the seed. The depth is tested
/// first, and then the width.
pub fn empty_table(alloc: Global, width: u64, depth: u64, seed: u64) -> Result<Saved, ToolError>
    ensures value { IfOk result (λ saved. empty_table_of width depth seed ≡ Ok saved) }
    ensures refused { IfErr result (Refuses (empty_table_of width depth seed)) }
    ensures bad_table { IfSome (bad_table depth width) (λ fault. result ≡ Err fault) }
{
    if !in_range(depth, MAX_DEPTH) {
        return Err(ToolError::BadDepth);
    }
    if !in_range(width, MAX_WIDTH) {
        return Err(ToolError::BadWidth);
    }
    Ok(Saved::Cells(drawn_table(alloc, width, depth, seed)?))
}
