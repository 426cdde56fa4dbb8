//! The rows of changes.

ghost use Rattle.std.specs.Prelude.{◌≡◌, ◌<◌, ◌^◌, Ok, IfOk, IfErr, OnOk, map};
ghost use Rattle.hh_rows.specs.Outputs.{with_row, with_rows};
ghost use Rattle.hh_commands.specs.Files.{Refuses};
ghost use Rattle.hh_changes.specs.Printed.{change_columns, change_fields, changes_between};
ghost use Rattle.hh_changes.specs.Printed.{greatest_share, least_share, left_over};
ghost use Rattle.hh_changes.specs.Printed.{printed_changes, share_less, signed, summary_of};
ghost use Rattle.hh_changes.specs.Printed.{totals_of, whole};

use crate::changed::changes;
use crate::sides::Sides;
use hh_commands::file_of;
use hh_counters::Summary;
use hh_faults::ToolError;
use hh_records::pointed;
use hh_rows::{Names, RowOptions, RowWriter, millionths, topmost};
use hh_saved::Saved;
use hh_stream::Key;
use std::alloc::{AllocError, Global};

const BOUNDS: Names = &[b"key", b"least", b"greatest"];

const SHARES: Names = &[
    b"key",
    b"least",
    b"greatest",
    b"least_share",
    b"greatest_share",
];

/// Gives the names of the columns of changes.
fn change_columns(share: bool) -> Names
    ensures { map (λ name. name.now) result.now ≡ change_columns share }
{
    if share { SHARES } else { BOUNDS }
}

/// Writes the first number less the second, with `decimals` digits after the point, and with a
/// minus if it is below 0.
fn signed(alloc: Global, decimals: u8, numbers: (u128, u128)) -> Result<Vec<u8>, AllocError>
    ensures { IfOk result (λ text. text.items ≡ signed decimals numbers) }
{
    if numbers.0 >= numbers.1 {
        return pointed(alloc, numbers.0 - numbers.1, decimals);
    }
    let mut text = pointed(alloc, numbers.1 - numbers.0, decimals)?;
    text.insert(0, b'-')?;
    Ok(text)
}

/// Gives what a share is of: the `total`, and 1 if that is 0.
fn whole(total: u64) -> u128
    ensures whole { result ≡ whole total }
    ensures some { 0 < result }
    ensures bounded { result < 2 ^ 64 }
{
    u128::from(total.max(1))
}

/// Gives what is left of a weight's share of `total` that is rounded down to millionths.
fn left_over(total: u64, weight: u64) -> u128
    ensures left { result ≡ left_over total weight }
    ensures below { result < 2 ^ 64 }
{
    u128::from(weight) * 1_000_000 % whole(total)
}

/// Gives the share of a total that a weight has, less that of another, in millionths and rounded
/// down. Each of `first` and `second` is a total and a weight.
fn share_less(first: (u64, u64), second: (u64, u64)) -> (u128, u128)
    ensures less { result ≡ share_less first second }
{
    let (m, n) = (whole(first.0), whole(second.0));
    let (a, b) = (left_over(first.0, first.1), left_over(second.0, second.1));
    let carry = u128::from(a * n < b * m);
    (
        millionths(first.0, first.1),
        millionths(second.0, second.1) + carry,
    )
}

/// Gives the least and the greatest change of a key's share in millionths, rounded outward, where
/// the key weighs `old` in the older stream of `sides`, and `new` in the newer one.
fn share_bounds(sides: &Sides, old: (u64, u64), new: (u64, u64)) -> ((u128, u128), (u128, u128))
    ensures { result ≡ (
      least_share (totals_of sides.now) old new,
      greatest_share (totals_of sides.now) old new,
    ) }
{
    let (before, after) = (sides.old().total(), sides.newer().total());
    let least = share_less((after, new.0), (before, old.1));
    let fallen = share_less((before, old.0), (after, new.1));
    (least, (fallen.1, fallen.0))
}

/// Writes one number less another, in units of the last of `decimals` digits after the point.
fn change_text(alloc: Global, decimals: u8, new: u64, old: u64) -> Result<Vec<u8>, AllocError>
    ensures { IfOk result (λ text. text.items ≡ signed decimals (new, old)) }
{
    signed(alloc, decimals, (u128::from(new), u128::from(old)))
}

/// Writes the row of the key of `change` after the others, as `options` want it.
fn push_row(
    alloc: Global,
    rows: &mut RowWriter,
    sides: &Sides,
    options: &RowOptions,
    change: &(Key, u64),
) -> Result<(), AllocError>
    ensures { OnOk result (rows.new
        ≡ with_row rows.old (change_fields options.now sides.now change.now)) }
{
    let key = &change.0;
    let (old, new) = sides.bounds(key);
    let least = change_text(alloc, options.output.decimals, new.0, old.1)?;
    let greatest = change_text(alloc, options.output.decimals, new.1, old.0)?;
    if !options.share {
        return rows.push(alloc, &[key.bytes(), least.as_slice(), greatest.as_slice()]);
    }
    let shares = share_bounds(sides, old, new);
    let low = signed(alloc, 4, shares.0)?;
    let high = signed(alloc, 4, shares.1)?;
    rows.push(
        alloc,
        &[
            key.bytes(),
            least.as_slice(),
            greatest.as_slice(),
            low.as_slice(),
            high.as_slice(),
        ],
    )
}

/// The text of what `before` has written, and of the rows of `changes` after it.
fn with_changes(
    alloc: Global,
    before: RowWriter,
    sides: &Sides,
    options: &RowOptions,
    changes: &[(Key, u64)],
) -> Result<Vec<u8>, AllocError>
    ensures { IfOk result (λ text. text.items
        ≡ (with_rows before (change_fields options.now sides.now) changes.now).text) }
{
    let mut rows = before;
    for change in changes {
        push_row(alloc, &mut rows, sides, options, change)?;
    }
    rows.into_text()
}

/// The rows of these `changes` between the streams of `sides`, as `options` want them: for each key
/// `key,least,greatest`, the least and the greatest change of its weight, and with `share` those of
/// its share of the total in percent, rounded outward, with four digits after the point.
pub fn changes_text(
    alloc: Global,
    sides: &Sides,
    options: &RowOptions,
    changes: &[(Key, u64)],
) -> Result<Vec<u8>, AllocError>
    ensures { IfOk result (λ text. text.items
        ≡ printed_changes options.now sides.now changes.now) }
{
    let before = RowWriter::new(alloc, &options.output, change_columns(options.share))?;
    let first = topmost(options.top, changes);
    with_changes(alloc, before, sides, options, first)
}

/// The summary in the file with this `number`. If it holds a table, the error is `other`.
fn summary_of(
    alloc: Global,
    number: u64,
    other: ToolError,
    file: &[u8],
) -> Result<Summary, ToolError>
    ensures value { IfOk result (λ summary. summary_of number other file.now ≡ Ok summary) }
    ensures refused { IfErr result (Refuses (summary_of number other file.now)) }
{
    match file_of(alloc, number, file)? {
        Saved::Counters(summary) => Ok(summary),
        Saved::Cells(_) => Err(other),
    }
}

/// What changed between the streams of two saved summaries, of any two k: the rows of
/// [`changes_text`] for the keys whose weight surely changed or, if `all` are wanted, for all keys
/// with a counter in either. They come by falling distance of the change from 0, and then by rising
/// key. For every key that isn't listed the change may be 0.
///
/// The file `old` is tested first ([`ToolError::BadFile`], as file 1), and whether it holds a
/// summary ([`ToolError::NotCounters`]), and then the file `new`, as file 2
/// ([`ToolError::MixedKinds`] if it holds a table).
pub fn change_rows(
    alloc: Global,
    old: &[u8],
    new: &[u8],
    all: bool,
    options: &RowOptions,
) -> Result<Vec<u8>, ToolError>
    ensures rows { IfOk result (λ text.
        changes_between all options.now old.now new.now ≡ Ok text.items) }
    ensures refused { IfErr result (Refuses (changes_between all options.now old.now new.now)) }
{
    let old = summary_of(alloc, 1, ToolError::NotCounters, old)?;
    let new = summary_of(alloc, 2, ToolError::MixedKinds { number: 2 }, new)?;
    let sides = Sides::new(old, new);
    let changes = changes(alloc, &sides, all)?;
    Ok(changes_text(alloc, &sides, options, &changes)?)
}
