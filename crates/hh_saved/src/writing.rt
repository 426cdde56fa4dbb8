//! Writing a saved file.

ghost use Rattle.std.specs.Prelude.{◌≡◌, ◌++◌, IfOk, OnOk};
ghost use Rattle.std.specs.List.{flat_map, AllByRecursion};
ghost use Rattle.std.specs.Int.{w8, w16, w32, w64, to_be_bytes};
ghost use Rattle.hh_saved.specs.declared.saved.Saved.TheVariants.{Counters, Cells};
ghost use Rattle.hh_saved.specs.Spelling.{Spells, IsSaved, IsSavedKey, entry_bytes, pair_bytes, cells_bytes, sketch_bytes, grid_bytes};

use crate::format::{CELLS, COUNTERS, Version};
use crate::saved::Saved;
use hh_countmin::{Family, Table};
use hh_stream::Key;
use hh_summaries::Summary;
use std::alloc::{AllocError, Global};

/// The one spelling of the summary or table in version 2, which every value has.
pub fn write(alloc: Global, saved: &Saved) -> Result<Vec<u8>, AllocError>
    ensures { IfOk result (λ bytes. Spells Version.Two bytes.items saved.now) }
{
    let mut out = Vec::new(alloc);
    put_u32(&mut out, Version::Two.magic())?;
    match saved {
        Saved::Counters(summary) => {
            put_u8(&mut out, COUNTERS)?;
            put_summary(&mut out, summary)?;
        }
        Saved::Cells(table) => {
            put_u8(&mut out, CELLS)?;
            put_table(&mut out, table)?;
        }
    }
    Ok(out)
}

// ---- numbers, the highest byte first

fn put_u8(out: &mut Vec<u8>, number: u8) -> Result<(), AllocError>
    ensures { OnOk result (out.new.items ≡ out.old.items ++ to_be_bytes w8 number) }
{
    out.extend_from_slice(&number.to_be_bytes())
}

fn put_u16(out: &mut Vec<u8>, number: u16) -> Result<(), AllocError>
    ensures { OnOk result (out.new.items ≡ out.old.items ++ to_be_bytes w16 number) }
{
    out.extend_from_slice(&number.to_be_bytes())
}

fn put_u32(out: &mut Vec<u8>, number: u32) -> Result<(), AllocError>
    ensures { OnOk result (out.new.items ≡ out.old.items ++ to_be_bytes w32 number) }
{
    out.extend_from_slice(&number.to_be_bytes())
}

fn put_u64(out: &mut Vec<u8>, number: u64) -> Result<(), AllocError>
    ensures { OnOk result (out.new.items ≡ out.old.items ++ to_be_bytes w64 number) }
{
    out.extend_from_slice(&number.to_be_bytes())
}

// ---- a counter summary

fn put_summary(out: &mut Vec<u8>, summary: &Summary) -> Result<(), AllocError>
    ensures spelled { OnOk result
        (out.new.items ≡ out.old.items ++ sketch_bytes Version.Two summary.now) }
    ensures saved { OnOk result (IsSaved Version.Two (Counters summary.now)) }
{
    put_u16(out, summary.k() as u16)?;
    put_u64(out, summary.total())?;
    put_u16(out, summary.len() as u16)?;
    put_entries(out, summary)?;
    Ok(())
}

fn put_entries(out: &mut Vec<u8>, summary: &Summary) -> Result<(), AllocError>
    ensures spelled { OnOk result
        (out.new.items ≡ out.old.items ++ flat_map (entry_bytes Version.Two) summary.now.counters) }
    ensures keys { OnOk result
        (AllByRecursion (λ e. IsSavedKey Version.Two e.0) summary.now.counters) }
{
    for i in 0..summary.len() {
        let (key, counter) = summary.entry(i);
        put_entry(out, key, counter)?;
    }
    Ok(())
}

fn put_entry(out: &mut Vec<u8>, key: &Key, counter: u64) -> Result<(), AllocError>
    ensures spelled { OnOk result
        (out.new.items ≡ out.old.items ++ entry_bytes Version.Two (key.now, counter)) }
    ensures key { IsSavedKey Version.Two key.now }
{
    let bytes = key.bytes();
    put_u16(out, bytes.len() as u16)?;
    out.extend_from_slice(bytes)?;
    put_u64(out, counter)?;
    Ok(())
}

// ---- a Count-Min table

fn put_table(out: &mut Vec<u8>, table: &Table) -> Result<(), AllocError>
    ensures spelled { OnOk result (out.new.items ≡ out.old.items ++ grid_bytes table.now) }
    ensures saved { OnOk result (IsSaved Version.Two (Cells table.now)) }
{
    let family = table.family();
    put_u32(out, table.width() as u32)?;
    put_u8(out, family.depth() as u8)?;
    put_u64(out, family.z())?;
    put_rows(out, family)?;
    put_u64(out, table.total())?;
    put_cells(out, table.cells())?;
    Ok(())
}

fn put_rows(out: &mut Vec<u8>, family: &Family) -> Result<(), AllocError>
    ensures { OnOk result (out.new.items ≡ out.old.items ++ flat_map pair_bytes family.now.rows) }
{
    for r in 0..family.depth() {
        put_row(out, family.row(r))?;
    }
    Ok(())
}

fn put_row(out: &mut Vec<u8>, row: (u64, u64)) -> Result<(), AllocError>
    ensures { OnOk result (out.new.items ≡ out.old.items ++ pair_bytes row) }
{
    put_u64(out, row.0)?;
    put_u64(out, row.1)?;
    Ok(())
}

fn put_cells(out: &mut Vec<u8>, cells: &[u64]) -> Result<(), AllocError>
    ensures { OnOk result (out.new.items ≡ out.old.items ++ cells_bytes cells.now) }
{
    for cell in cells {
        put_u64(out, *cell)?;
    }
    Ok(())
}
