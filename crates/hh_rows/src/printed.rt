//! The rows of a report as they are printed: at most the first ones, and with shares of the total.

ghost use Rattle.std.specs.Prelude.{◌≡◌, Some, IfOk, OnOk, map};
ghost use Rattle.hh_rows.specs.Outputs.{with_row, with_rows};
ghost use Rattle.hh_rows.specs.Printed.{all_rows, millionths, printed_fields, printed_rows};
ghost use Rattle.hh_rows.specs.Printed.{report_columns, topmost};

use crate::output::Output;
use crate::row_writer::{Names, RowWriter};
use hh_counters::Heavy;
use hh_records::pointed;
use std::alloc::{AllocError, Global};

/// The columns of keys and their weights.
pub(crate) const WEIGHTS: Names = &[b"key", b"weight"];

const SHARES: Names = &[b"key", b"weight", b"share"];

/// Which rows of a report are printed, and how.
#[derive(Clone, Copy, Debug)]
pub struct RowOptions {
    /// The most rows to print, the first ones; without it all.
    pub top: Option<u64>,
    /// A row has a third column: its weight's share of the total in percent, rounded down, with
    /// four digits after the point.
    pub share: bool,
    /// How they are written.
    pub output: Output,
}

impl RowOptions {
    /// All rows, and no shares.
    pub fn all(output: Output) -> RowOptions
        ensures { result ≡ all_rows output }
    {
        RowOptions {
            top: None,
            share: false,
            output,
        }
    }
}

/// Gives the names of the columns of a report.
fn report_columns(options: &RowOptions) -> Names
    ensures { map (λ name. name.now) result.now ≡ report_columns options.now }
{
    if options.share { SHARES } else { WEIGHTS }
}

/// Gives the first `top` of `rows`, or all of them if there are fewer or `top` is `None`.
pub fn topmost<T>(top: Option<u64>, rows: &[T]) -> &[T]
    ensures { result.now ≡ topmost top rows.now }
{
    match top {
        Some(top) if top < rows.len() as u64 => &rows[..top as usize],
        _ => rows,
    }
}

/// Gives the share that `weight` has of `total` in millionths, rounded down. Of no total it is 0.
pub fn millionths(total: u64, weight: u64) -> u128
    ensures { result ≡ millionths total weight }
{
    if total == 0 {
        return 0;
    }
    u128::from(weight) * 1_000_000 / u128::from(total)
}

/// Writes a row after the others, as the options want it, with its share of a total.
fn push_printed(
    alloc: Global,
    rows: &mut RowWriter,
    total: u64,
    options: &RowOptions,
    row: &Heavy,
) -> Result<(), AllocError>
    ensures { OnOk result (rows.new
        ≡ with_row rows.old (printed_fields total options.now row.now)) }
{
    let weight = pointed(alloc, u128::from(row.weight), options.output.decimals)?;
    if !options.share {
        return rows.push(alloc, &[row.key.bytes(), weight.as_slice()]);
    }
    let share = pointed(alloc, millionths(total, row.weight), 4)?;
    rows.push(
        alloc,
        &[row.key.bytes(), weight.as_slice(), share.as_slice()],
    )
}

/// The text of what `before` has written, and of `rows` after it, as the options want each.
pub(crate) fn with_printed(
    alloc: Global,
    before: RowWriter,
    total: u64,
    options: &RowOptions,
    rows: &[Heavy],
) -> Result<Vec<u8>, AllocError>
    ensures { IfOk result (λ text. text.items
        ≡ (with_rows before (printed_fields total options.now) rows.now).text) }
{
    let mut all = before;
    for row in rows {
        push_printed(alloc, &mut all, total, options, row)?;
    }
    all.into_text()
}

/// The rows of a report as the options want them, with shares of this total. As
/// [`RowOptions::all`] of [`Output::plain`] they are those of
/// [`report_text`](crate::report_text).
pub fn printed_text(
    alloc: Global,
    total: u64,
    options: &RowOptions,
    rows: &[Heavy],
) -> Result<Vec<u8>, AllocError>
    ensures { IfOk result (λ text. text.items ≡ printed_rows total options.now rows.now) }
{
    let before = RowWriter::new(alloc, &options.output, report_columns(options))?;
    with_printed(alloc, before, total, options, topmost(options.top, rows))
}
