//! The calls of `hh_countmin` that no command of the program makes, and those that take no memory.

use crate::lab::{Lab, Said, marked, no_such_call, told};
use crate::show::{Cells, Numbers};
use hh_countmin::{Family, Table, TableFault};
use hh_stream::Key;
use std::alloc::AllocError;
use std::test::Fail;

/// The rows of the family.
const ROWS: [(u64, u64); 2] = [(1, 0), (3, 1)];

pub fn call(lab: &Lab, name: &str) -> Result<Said, Fail> {
    match name {
        "Family::from_parts" => from_parts(lab),
        "Family::draw" => told!(lab, Family::draw(lab.alloc, 7, 3), TableFault::Memory),
        "Table::new" => table_new(lab),
        "Table::from_cells" => table_from_cells(lab),
        "Table::add and merge" => table_added(lab),
        _ => readers(lab, name),
    }
}

fn readers(lab: &Lab, name: &str) -> Result<Said, Fail> {
    let a = lab.key(b'a')?;
    let family = family(lab)?;
    called(lab, name, &family, &table(lab)?, &a)
}

// Makes the call, with a family, an empty table of the same, and the key a.
fn called(lab: &Lab, name: &str, family: &Family, table: &Table, a: &Key) -> Result<Said, Fail> {
    match name {
        "Family::copy" => told!(lab, family.copy(), AllocError),
        "Family readers" => family_readers(lab, family, table.family(), a),
        "Table readers" => table_readers(lab, family, table, a),
        _ => Err(no_such_call(name)),
    }
}

fn from_parts(lab: &Lab) -> Result<Said, Fail> {
    let made = marked!(lab, Family::from_parts(lab.alloc, 256, &ROWS));
    lab.tell(made, TableFault::Memory)
}

fn family(lab: &Lab) -> Result<Family, Fail> {
    Ok(Family::from_parts(lab.alloc, 256, &ROWS)?)
}

// The empty table of four columns.
fn table(lab: &Lab) -> Result<Table, Fail> {
    Ok(Table::new(lab.alloc, family(lab)?, 4)?)
}

// The calls on a family that take no memory.
fn family_readers(lab: &Lab, family: &Family, other: &Family, a: &Key) -> Result<Said, Fail> {
    lab.begin();
    let is_one = family == other;
    let numbers = [
        family.depth(),
        family.z(),
        family.row(0).0,
        family.fingerprint(a),
        family.cell(0, a, 4),
    ];
    lab.end();
    let numbers = Numbers(&numbers);
    lab.answer(format_args!("{is_one} {numbers}"))
}

fn table_new(lab: &Lab) -> Result<Said, Fail> {
    let family = family(lab)?;
    told!(lab, Table::new(lab.alloc, family, 4), TableFault::Memory)
}

fn table_added(lab: &Lab) -> Result<Said, Fail> {
    let a = lab.key(b'a')?;
    add_to(lab, &mut table(lab)?, &a)
}

fn add_to(lab: &Lab, table: &mut Table, a: &Key) -> Result<Said, Fail> {
    add_and_merge(lab, table, &self::table(lab)?, a)
}

// Two tables of one family, of which the first takes an item and then the other, with no memory.
fn add_and_merge(lab: &Lab, table: &mut Table, other: &Table, a: &Key) -> Result<Said, Fail> {
    lab.begin();
    let is_added = table.add(a, 5).is_ok();
    let is_merged = table.merge(other).is_ok();
    lab.end();
    let cells = Cells(table);
    lab.answer(format_args!("{is_added} {is_merged} {cells}"))
}

fn table_from_cells(lab: &Lab) -> Result<Said, Fail> {
    let family = family(lab)?;
    from_cells(lab, family, vec![in lab.alloc; 0u64; 8]?)
}

// The table of cells that are there, without memory.
fn from_cells(lab: &Lab, family: Family, cells: Vec<u64>) -> Result<Said, Fail> {
    if !Table::fits(&family, 4, 0, cells.as_slice()) {
        return Err(Fail::new("two rows of four cells are a table of no items"));
    }
    let table = marked!(lab, Table::from_cells(family, 4, 0, cells));
    lab.answer(Cells(&table))
}

// The calls on a table that take no memory.
fn table_readers(lab: &Lab, parts: &Family, table: &Table, a: &Key) -> Result<Said, Fail> {
    lab.begin();
    let fits = Table::fits(parts, 4, 0, table.cells());
    let numbers = [
        table.family().depth(),
        table.total(),
        table.width(),
        table.estimate(a),
        table.cell_at(0, 0),
        table.cells().len() as u64,
    ];
    lab.end();
    let numbers = Numbers(&numbers);
    lab.answer(format_args!("{fits} {numbers}"))
}
