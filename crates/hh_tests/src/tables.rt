//! The worked rows on families and tables.

use crate::fixtures::{assert_same, key_of};
use hh_countmin::{Family, MODULUS, Table, TableFault};
use hh_stream::{Key, MAX_TOTAL};
use std::process::Abort;

// The family with these rows.
fn family_of(rt: &(impl Abort + AllocGlobal), z: u64, rows: &[(u64, u64)]) -> Family {
    Family::from_parts(rt.alloc(), z, rows).expect(rt, "a family")
}

// With these coefficients a short key's fingerprint is its bytes, each raised by one, as digits to
// the base 256, and the cells can be computed by hand.
fn plain_family(rt: &(impl Abort + AllocGlobal)) -> Family {
    family_of(rt, 256, &[(1, 0), (3, 1)])
}

// The fingerprint of a key.
fn fingerprint_of(rt: &(impl Abort + AllocGlobal), family: &Family, key: &[u8]) -> u64 {
    family.fingerprint(&key_of(rt, key))
}

// The fingerprint of a key, and its cells in two rows of width 4.
fn places_of(rt: &impl Abort, family: &Family, key: &Key) -> (u64, u64, u64) {
    assert!(rt; family.depth() == 2);
    let (first, second) = (family.cell(0, key, 4), family.cell(1, key, 4));
    (family.fingerprint(key), first, second)
}

// Keys, and where they fall.
const PLACES: [(&[u8], (u64, u64, u64)); 5] = [
    (b"a", (98, 2, 3)),
    (b"b", (99, 3, 2)),
    (b"c", (100, 0, 1)),
    (b"e", (102, 2, 3)),
    (b"ab", (25187, 3, 2)),
];

#[test]
fn short_keys_fall_on_cells(rt: HostRuntime) {
    let family = plain_family(&rt);
    for (bytes, places) in &PLACES {
        let key = key_of(&rt, bytes);
        assert_same(&rt, places_of(&rt, &family, &key), *places);
    }
}

#[test]
fn fingerprints_wrap_at_the_modulus(rt: HostRuntime) {
    let family = family_of(&rt, MODULUS - 1, &[(1, 0)]);
    assert_same(&rt, fingerprint_of(&rt, &family, b"ab"), 1);
    assert_same(&rt, fingerprint_of(&rt, &family, b"aba"), 97);
}

// The family of two rows that a seed draws.
fn drawn(rt: &(impl Abort + AllocGlobal), seed: u64) -> Family {
    Family::draw(rt.alloc(), seed, 2).expect(rt, "a family")
}

// The factor of a family, and its two rows.
fn parts_of(rt: &impl Abort, family: &Family) -> (u64, [(u64, u64); 2]) {
    assert!(rt; family.depth() == 2);
    (family.z(), [family.row(0), family.row(1)])
}

#[test]
fn seeds_draw_families(rt: HostRuntime) {
    let rows = [
        (1961435785107874384, 490517405503193563),
        (1568216229337355262, 2152610774340793925),
    ];
    let parts = parts_of(&rt, &drawn(&rt, 7));
    assert_same(&rt, parts, (9351779398707216, rows));
}

// Whether two seeds draw the same.
fn draw_the_same(rt: &(impl Abort + AllocGlobal), seed: u64, other: u64) -> bool {
    drawn(rt, seed) == drawn(rt, other)
}

#[test]
fn same_seeds_draw_the_same_family(rt: HostRuntime) {
    assert_same(&rt, draw_the_same(&rt, 7, 7), true);
    assert_same(&rt, draw_the_same(&rt, 7, 3), false);
}

// The depth of a family that is drawn with this one, or the fault.
fn depth_of(rt: &impl AllocGlobal, depth: u64) -> Result<u64, TableFault> {
    Ok(Family::draw(rt.alloc(), 7, depth)?.depth())
}

const DEPTHS: [(u64, Result<u64, TableFault>); 3] = [
    (0, Err(TableFault::BadDepth)),
    (16, Ok(16)),
    (17, Err(TableFault::BadDepth)),
];

#[test]
fn families_have_1_to_16_rows(rt: HostRuntime) {
    for (depth, expected) in &DEPTHS {
        assert_same(&rt, depth_of(&rt, *depth), *expected);
    }
}

// Whether the family is the plain one.
fn is_plain(rt: &(impl Abort + AllocGlobal), family: &Family) -> bool {
    *family == plain_family(rt)
}

#[test]
fn families_are_copied(rt: HostRuntime) {
    let copy = plain_family(&rt).copy().expect(&rt, "a copy");
    assert_same(&rt, is_plain(&rt, &copy), true);
}

// Factors and rows of no family, and why.
const NO_PARTS: [(u64, &[(u64, u64)], TableFault); 9] = [
    (256, &[], TableFault::BadDepth),
    (256, &[(1, 0); 17], TableFault::BadDepth),
    (0, &[], TableFault::BadDepth),
    (0, &[(0, 0); 17], TableFault::BadDepth),
    (256, &[(1, MODULUS)], TableFault::BadCoefficient),
    (256, &[(0, 0)], TableFault::BadCoefficient),
    (256, &[(MODULUS, 0)], TableFault::BadCoefficient),
    (0, &[(1, 0)], TableFault::BadCoefficient),
    (MODULUS, &[(1, 0)], TableFault::BadCoefficient),
];

#[test]
fn parts_of_no_family_are_refused(rt: HostRuntime) {
    for (z, rows, fault) in &NO_PARTS {
        let refused = Family::from_parts(rt.alloc(), *z, rows).err();
        assert_same(&rt, refused, Some(*fault));
    }
}

// The empty table of this family and this width.
fn empty_table(rt: &(impl Abort + AllocGlobal), family: Family, width: u64) -> Table {
    Table::new(rt.alloc(), family, width).expect(rt, "a table")
}

// A table of width 4 of these items.
fn table_of(rt: &(impl Abort + AllocGlobal), items: &[(&[u8], u64)]) -> Table {
    let mut table = empty_table(rt, plain_family(rt), 4);
    for (bytes, weight) in items {
        let added = table.add(&key_of(rt, bytes), *weight);
        added.expect(rt, "an item");
    }
    table
}

// The cells of a 5, e 2, b 1.
const CELLS: [u64; 8] = [0, 0, 7, 1, 0, 0, 1, 7];

// Asserts that the table has these cells and this total.
fn assert_cells(rt: &impl Abort, table: &Table, cells: &[u64], total: u64) {
    assert_same(rt, table.cells(), cells);
    assert_same(rt, table.total(), total);
}

// The estimate of this key.
fn estimate_of(rt: &(impl Abort + AllocGlobal), table: &Table, key: &[u8]) -> u64 {
    table.estimate(&key_of(rt, key))
}

#[test]
fn cells_hold_the_weights_that_fall_on_them(rt: HostRuntime) {
    let table = table_of(&rt, &[(b"a", 5), (b"e", 2), (b"b", 1)]);
    assert_cells(&rt, &table, &CELLS, 8);
    assert_same(&rt, estimate_of(&rt, &table, b"a"), 7);
    assert_same(&rt, estimate_of(&rt, &table, b"b"), 1);
}

// The last cell of a table of two rows of width 4.
fn last_cell(rt: &impl Abort, table: &Table) -> u64 {
    assert!(rt; table.family().depth() == 2 && table.width() == 4);
    table.cell_at(1, 3)
}

#[test]
fn tables_have_a_family_and_a_width(rt: HostRuntime) {
    let table = table_of(&rt, &[(b"a", 5), (b"e", 2)]);
    assert_same(&rt, last_cell(&rt, &table), 7);
    assert_same(&rt, is_plain(&rt, table.family()), true);
}

// Merges the table of an item into this one.
fn merge_item(rt: &(impl Abort + AllocGlobal), table: &mut Table, item: (&[u8], u64)) {
    let merged = table.merge(&table_of(rt, &[item]));
    merged.expect(rt, "a merge");
}

#[test]
fn merged_cells_hold_the_weights_of_all(rt: HostRuntime) {
    let mut table = table_of(&rt, &[(b"a", 5)]);
    merge_item(&rt, &mut table, (b"e", 2));
    merge_item(&rt, &mut table, (b"b", 1));
    assert_cells(&rt, &table, &CELLS, 8);
}

// What another table has: the addend of its second row, a width, and the weight of one item; and
// why it isn't merged into the plain table of a 5.
const UNLIKE: [(u64, u64, u64, TableFault); 7] = [
    (2, 4, 1, TableFault::DifferentFamily),
    (1, 5, 1, TableFault::DifferentWidth),
    (1, 4, MAX_TOTAL, TableFault::TotalTooLarge),
    (2, 5, 1, TableFault::DifferentFamily),
    (2, 4, MAX_TOTAL, TableFault::DifferentFamily),
    (1, 5, MAX_TOTAL, TableFault::DifferentWidth),
    (2, 5, MAX_TOTAL, TableFault::DifferentFamily),
];

// The table of the item y.
fn other_table(rt: &(impl Abort + AllocGlobal), addend: u64, width: u64, weight: u64) -> Table {
    let mut table = empty_table(rt, family_of(rt, 256, &[(1, 0), (3, addend)]), width);
    let added = table.add(&key_of(rt, b"y"), weight);
    added.expect(rt, "an item");
    table
}

#[test]
fn unlike_tables_are_not_merged(rt: HostRuntime) {
    let mut table = table_of(&rt, &[(b"a", 5)]);
    for (addend, width, weight, fault) in &UNLIKE {
        let merged = table.merge(&other_table(&rt, *addend, *width, *weight));
        assert_same(&rt, merged, Err(*fault));
        assert_cells(&rt, &table, &[0, 0, 5, 0, 0, 0, 0, 5], 5);
    }
}

// The width of a table of this width, or the fault.
fn width_of(rt: &(impl Abort + AllocGlobal), width: u64) -> Result<u64, TableFault> {
    Ok(Table::new(rt.alloc(), plain_family(rt), width)?.width())
}

const WIDTHS: [(u64, Result<u64, TableFault>); 3] = [
    (0, Err(TableFault::BadWidth)),
    (65_536, Ok(65_536)),
    (65_537, Err(TableFault::BadWidth)),
];

#[test]
fn widths_are_1_to_65536(rt: HostRuntime) {
    for (width, expected) in &WIDTHS {
        assert_same(&rt, width_of(&rt, *width), *expected);
    }
}

// What comes of one more item.
fn item_added(rt: &(impl Abort + AllocGlobal), table: &mut Table) -> Result<(), TableFault> {
    table.add(&key_of(rt, b"y"), 1)
}

// What comes of the table of one more item.
fn item_merged(rt: &(impl Abort + AllocGlobal), table: &mut Table) -> Result<(), TableFault> {
    table.merge(&table_of(rt, &[(b"y", 1)]))
}

// The cells of an item x that weighs as much as a table can hold. The fingerprint is 121, so it
// falls on cell 1, and by 3 * 121 + 1 on cell 0.
const FULL_CELLS: [u64; 8] = [0, MAX_TOTAL, 0, 0, MAX_TOTAL, 0, 0, 0];

#[test]
fn totals_stay_in_range(rt: HostRuntime) {
    let mut table = table_of(&rt, &[(b"x", MAX_TOTAL)]);
    let added = item_added(&rt, &mut table);
    assert_same(&rt, added, Err(TableFault::TotalTooLarge));
    assert_cells(&rt, &table, &FULL_CELLS, MAX_TOTAL);
    let merged = item_merged(&rt, &mut table);
    assert_same(&rt, merged, Err(TableFault::TotalTooLarge));
    assert_cells(&rt, &table, &FULL_CELLS, MAX_TOTAL);
}

#[test]
fn cells_fit_where_rows_sum_to_the_total(rt: HostRuntime) {
    let family = plain_family(&rt);
    let one_too_many = [0, 0, 7, 1, 0, 0, 1, 7, 0];
    assert!(rt; !Table::fits(&family, 4, 9, &CELLS));
    assert!(rt; !Table::fits(&family, 4, 8, &one_too_many));
}

// The table that is made of these cells.
fn made_of(rt: &impl Abort, family: Family, cells: Vec<u64>) -> Table {
    assert!(rt; Table::fits(&family, 4, 8, &cells));
    Table::from_cells(family, 4, 8, cells)
}

#[test]
fn cells_make_tables(rt: HostRuntime) {
    let cells = CELLS.to_vec(rt.alloc()).expect(&rt, "cells");
    let table = made_of(&rt, plain_family(&rt), cells);
    assert_same(&rt, estimate_of(&rt, &table, b"a"), 7);
}
