//! Count-Min tables.

ghost use Rattle.std.specs.Prelude.{◌≡◌, ◌≢◌, ◌+◌, ◌*◌, ◌<◌, ◌≤◌, ◌^◌, ◌↔◌, ◌==◌, [], ℕ, sum, length, slice_index, IfOk, IfErr, OnOk, OnErr, IsErr, IsErrOf, IsTrue, EachIndex, true, false};
ghost use Rattle.hh_stream.specs.Ranges.{in_range};
ghost use Rattle.hh_countmin.specs.Family.{max_width, modulus, coefficients_of, cell_of_fingerprint};
ghost use Rattle.hh_stream.specs.Weights.{max_total};
ghost use Rattle.hh_countmin.specs.Faults.{IsNewFault, IsMergeFault};
ghost use Rattle.hh_countmin.specs.Table.{FitsTable, row_at, cell_at, empty_table, grid_with, grid_sum, estimate_in, least_of_rows, raised, table_of};

use crate::family::{Family, MAX_WIDTH};
use crate::fault::TableFault;
use hh_stream::{Key, MAX_TOTAL, add_each, in_range};
use std::alloc::{AllocError, Global};
use std::marker::Model;

/// A Count-Min table (Cormode and Muthukrishnan 2005): rows of `width` cells, one row for each row
/// of its hash family. An item adds its weight to one cell of each row, so each row adds up to the
/// total, and the least of a key's cells is never below the key's weight. A table made by
/// [`from_cells`](Table::from_cells) promises as much as its cells do.
#[derive(Debug, Drop)]
pub struct Table {
    family: Family,
    width: u64,
    total: u64,
    // row by row
    cells: Vec<u64>,
}

impl Model for Table {
    ghost use Rattle.hh_countmin.specs.Table.{TableView, FitsTable};

    ghost Value = { TableView };

    ghost view = { λ table.
        record {
          family = table.family;
          width = table.width;
          total = table.total;
          cells = table.cells.items;
        } };

    ghost invariant = { λ table. FitsTable table.family table.width table.total table.cells.items };
}

impl Table {
    /// A table whose cells are all 0. The error is the first of `BadWidth` and `Memory` that holds.
    pub fn new(alloc: Global, family: Family, width: u64) -> Result<Table, TableFault>
        ensures table { IfOk result (λ table. table ≡ empty_table family width) }
        ensures bad_width { IsErrOf result TableFault.BadWidth
            ↔ (in_range width max_width ≡ false) }
        ensures faults { IfErr result IsNewFault }
    {
        if !in_range(width, MAX_WIDTH) {
            return Err(TableFault::BadWidth);
        }
        Ok(Table::empty(alloc, family, width)?)
    }

    /// [`new`](Table::new) for a width from 1 to [`MAX_WIDTH`], where only memory can be refused.
    pub fn empty(alloc: Global, family: Family, width: u64) -> Result<Table, AllocError>
        requires { in_range width max_width ≡ true }
        ensures table { IfOk result (λ table. table ≡ empty_table family width) }
        ensures none { IfOk result (λ table. table ≡ table_of family width []) }
    {
        let len = (family.depth() * width) as usize;
        let cells = vec![in alloc; 0; len]?;
        Ok(Table {
            family,
            width,
            total: 0,
            cells,
        })
    }

    /// Whether these are the parts of a table: the width is 1 to 65,536, the total is at most
    /// [`MAX_TOTAL`], and there are as many rows of `width` cells as the family has, each of which
    /// adds up to the total.
    pub fn fits(family: &Family, width: u64, total: u64, cells: &[u64]) -> bool
        ensures { IsTrue result ↔ FitsTable family.now width total cells.now }
    {
        in_range(width, MAX_WIDTH)
            && total <= MAX_TOTAL
            && cells.len() as u64 == family.depth() * width
            && rows_sum_to(cells, family.depth() as usize, width as usize, total)
    }

    /// The table with these cells, which lie row by row. That they are of some stream is not asked,
    /// and so nothing is promised of any: an estimate is not below a weight in a stream where the
    /// cells came from that stream.
    pub fn from_cells(family: Family, width: u64, total: u64, cells: Vec<u64>) -> Table
        requires { FitsTable family width total cells.items }
        ensures { result
            ≡ record { family = family; width = width; total = total; cells = cells.items } }
    {
        Table {
            family,
            width,
            total,
            cells,
        }
    }

    /// Adds an item's weight to the key's cell of each row. The one error is `TotalTooLarge`; the
    /// table is then as it was.
    pub fn add(&mut self, key: &Key, weight: u64) -> Result<(), TableFault>
        ensures added { OnOk result (self.new ≡ grid_with self.old (key.now, weight)) }
        ensures unchanged { OnErr result (self.new ≡ self.old) }
        ensures too_large { IsErr result ↔ (max_total < self.old.total + weight) }
        ensures fault { IfErr result (λ fault. fault ≡ TableFault.TotalTooLarge) }
    {
        if weight > MAX_TOTAL - self.total {
            return Err(TableFault::TotalTooLarge);
        }
        self.add_within(key.bytes(), weight);
        Ok(())
    }

    /// [`add`](Table::add) of the key with these bytes, where the total stays at most
    /// [`MAX_TOTAL`], so that nothing can be refused.
    pub fn add_within(&mut self, key: &[u8], weight: u64)
        requires { self.old.total + weight ≤ max_total }
        ensures { self.new ≡ grid_with self.old (key.now, weight) }
    {
        let fingerprint = self.family.fingerprint_of(key);
        raise_cells(
            &mut self.cells,
            &self.family,
            self.width,
            fingerprint,
            weight,
        );
        self.total += weight;
    }

    /// Adds the cells and the total of a table of the same family and width. The error is the first
    /// of `DifferentFamily`, `DifferentWidth` and `TotalTooLarge` that holds; the table is then as
    /// it was.
    pub fn merge(&mut self, other: &Table) -> Result<(), TableFault>
        ensures merged { OnOk result (self.new ≡ grid_sum self.old other.now) }
        ensures unchanged { OnErr result (self.new ≡ self.old) }

        ensures different_family { IsErrOf result TableFault.DifferentFamily
            ↔ (self.old.family ≢ other.now.family) }
        ensures different_width { IsErrOf result TableFault.DifferentWidth
            ↔ ((self.old.family ≡ other.now.family) × (self.old.width ≢ other.now.width)) }
        ensures too_large { IsErrOf result TableFault.TotalTooLarge
            ↔ ((self.old.family ≡ other.now.family) × (self.old.width ≡ other.now.width)
            × (max_total < self.old.total + other.now.total)) }
        ensures faults { IfErr result IsMergeFault }
    {
        if !are_one(&self.family, &other.family) {
            return Err(TableFault::DifferentFamily);
        }
        if self.width != other.width {
            return Err(TableFault::DifferentWidth);
        }
        if other.total > MAX_TOTAL - self.total {
            return Err(TableFault::TotalTooLarge);
        }
        add_each(&mut self.cells, &other.cells);
        self.total += other.total;
        Ok(())
    }

    /// The least of the key's cells: at least the key's weight among the items added.
    pub fn estimate(&self, key: &Key) -> u64
        ensures estimate { result ≡ estimate_in self.now key.now }
    {
        let fingerprint = self.family.fingerprint(key);
        least_cell(&self.cells, &self.family, self.width, fingerprint)
    }

    /// Cell `c` of row `r`.
    pub fn cell_at(&self, r: u64, c: u64) -> u64
        requires row { r < length self.now.family.rows }
        requires cell { c < self.now.width }
        ensures { result ≡ cell_at self.now.width self.now.cells r c }
    {
        self.cells[(r * self.width + c) as usize]
    }

    /// The cells, row by row.
    pub fn cells(&self) -> &[u64]
        ensures { result.now ≡ self.now.cells }
    {
        &self.cells
    }

    /// The sum of the weights of all items.
    pub fn total(&self) -> u64
        ensures total { result ≡ self.now.total }
        ensures fits { FitsTable self.now.family self.now.width self.now.total self.now.cells }
    {
        self.total
    }

    /// How many cells a row has.
    pub fn width(&self) -> u64
        ensures width { result ≡ self.now.width }
        ensures in_range { in_range result max_width ≡ true }
    {
        self.width
    }

    /// The hash family.
    pub fn family(&self) -> &Family
        ensures { result.now ≡ self.now.family }
    {
        &self.family
    }
}

// Whether two families are one.
fn are_one(family: &Family, other: &Family) -> bool
    ensures { IsTrue result ↔ (family.now ≡ other.now) }
{
    family == other
}

// The least of the cells that the fingerprint has in each row.
#[tactic(auto, using(crate::proofs::Estimates::some_rows))]
fn least_cell(cells: &[u64], family: &Family, width: u64, fingerprint: u64) -> u64
    requires all_cells { length cells.now ≡ length family.now.rows * width }
    requires width { in_range width max_width ≡ true }
    requires fingerprint { fingerprint < modulus }
    ensures { result
        ≡ least_of_rows family.now
        (λ r. cell_at width cells.now r
        (cell_of_fingerprint (coefficients_of family.now r) fingerprint width)) }
{
    let depth = family.depth();
    let mut least = cells[family.cell_of_fingerprint(0, fingerprint, width) as usize];
    for r in 1..depth {
        let cell = r * width + family.cell_of_fingerprint(r, fingerprint, width);
        least = least.min(cells[cell as usize]);
    }
    least
}

// Adds the weight to the cell that the fingerprint has in each row.
fn raise_cells(cells: &mut [u64], family: &Family, width: u64, fingerprint: u64, weight: u64)
    requires all_cells { length cells.old ≡ length family.now.rows * width }
    requires width { in_range width max_width ≡ true }
    requires fingerprint { fingerprint < modulus }
    requires room { EachIndex cells.old (λ i. slice_index cells.old i + weight < 2 ^ 64) }
    ensures { cells.new
        ≡ raised
        (λ r. cell_of_fingerprint (coefficients_of family.now r) fingerprint width) weight
        (length family.now.rows) width cells.old }
{
    for r in 0..family.depth() {
        let cell = r * width + family.cell_of_fingerprint(r, fingerprint, width);
        cells[cell as usize] += weight;
    }
}

// Whether each row adds up to the total.
fn rows_sum_to(cells: &[u64], depth: usize, width: usize, total: u64) -> bool
    requires { length cells.now ≡ depth * width }
    ensures { IsTrue result ↔ ((r : ℕ) → r < depth → sum (row_at width cells.now r) ≡ total) }
{
    for r in 0..depth {
        let start = r * width;
        if !sums_to(&cells[start..start + width], total) {
            return false;
        }
    }
    true
}

/// Whether the cells of a row add up to the total.
pub fn sums_to(cells: &[u64], total: u64) -> bool
    ensures { IsTrue result ↔ (sum cells.now ≡ total) }
{
    let mut left = total;
    for &cell in cells {
        if cell > left {
            return false;
        }
        left -= cell;
    }
    left == 0
}
