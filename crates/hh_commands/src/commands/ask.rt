//! What a saved file tells of keys.

ghost use Rattle.std.specs.Prelude.{◌≡◌, ◌<◌, Ok, Some, None, IfOk, IfErr, OnOk, MatchResult, map, vec_items};
ghost use Rattle.hh_summaries.specs.Counters.{slack as slack_in};
ghost use Rattle.hh_rows.specs.Outputs.{rows_in, with_row};
ghost use Rattle.hh_commands.specs.Bounds.{bounds_of};
ghost use Rattle.hh_commands.specs.Ask.{answer_fields, answer_of, answers_in, slack_of};
ghost use Rattle.hh_commands.specs.Ask.{asked_value, bad_key, bound_columns, bounds_fields};
ghost use Rattle.hh_commands.specs.Ask.{key_fault};
ghost use Rattle.hh_commands.specs.Files.{Refuses, StopsAtHead, file_of};

use crate::files::file_of;
use hh_counters::Summary;
use hh_faults::{KeyCause, ToolError};
use hh_records::pointed;
use hh_rows::{Names, Output, RowWriter};
use hh_saved::Saved;
use hh_stream::{Key, MAX_KEY_LEN};
use std::alloc::{AllocError, Global};

/// The columns of keys and their bounds.
pub(crate) const BOUNDS: Names = &[b"key", b"low", b"high"];

/// Tests whether `word` can be a key, which has 1 to 4,096 bytes. If not, the error is
/// [`ToolError::BadKey`] with this `number`.
pub fn check_key(number: u64, word: &[u8]) -> Result<(), ToolError>
    ensures { MatchResult result
        (λ _. key_fault number word.now ≡ None)
        (λ fault. key_fault number word.now ≡ Some fault) }
{
    let cause = if word.is_empty() {
        KeyCause::Empty
    } else if word.len() > MAX_KEY_LEN {
        KeyCause::TooLong
    } else {
        return Ok(());
    };
    Err(ToolError::BadKey { number, cause })
}

/// Reads the summary or table in `file` and tests that each of `words` can be a key. The file is
/// tested first, as file 1, and then the words in order, numbered from 1.
pub fn read_for_keys(alloc: Global, file: &[u8], words: &[Vec<u8>]) -> Result<Saved, ToolError>
    ensures value { IfOk result (λ saved. file_of 1 file.now ≡ Ok saved) }
    ensures keys { OnOk result (bad_key 1 (map vec_items words.now) ≡ None) }
    ensures refused { IfErr result (Refuses (asked_value file.now (map vec_items words.now))) }
    ensures early { StopsAtHead 1 file.now result }
{
    let saved = file_of(alloc, 1, file)?;
    for i in 0..words.len() {
        check_key(i as u64 + 1, &words[i])?;
    }
    Ok(saved)
}

/// How far a key's weight can be above its counter, which is one number for all keys: a summary's
/// slack. A table has none.
pub fn slack_of(saved: &Saved) -> u64
    ensures { result ≡ slack_of saved.now }
{
    match saved {
        Saved::Counters(summary) => summary.slack(),
        Saved::Cells(_) => 0,
    }
}

/// Gives the least and the most that `key` can weigh in the stream of `summary`: its counter, and
/// that and `slack`, which is the summary's.
pub fn bounds_in(summary: &Summary, slack: u64, key: &Key) -> (u64, u64)
    requires { slack ≡ slack_in summary.now.counters summary.now.total summary.now.k }
    ensures { result ≡ bounds_of summary.now key.now }
{
    let low = summary.get(key);
    // The contract of `k` bounds the total and so the counters: the sum can't overflow.
    let _k = summary.k();
    (low, low + slack)
}

/// Gives the least and the most that `key` can weigh, by what `saved` tells. `slack` is what
/// [`slack_of`] gives for it. By a table the least is always 0.
pub fn answer_of(saved: &Saved, slack: u64, key: &Key) -> (u64, u64)
    requires { slack ≡ slack_of saved.now }
    ensures { result ≡ answer_of saved.now key.now }
{
    match saved {
        Saved::Counters(summary) => bounds_in(summary, slack, key),
        Saved::Cells(table) => (0, table.estimate(key)),
    }
}

/// Writes the row of a key and its two numbers after the others, with `decimals` digits after the
/// point.
pub(crate) fn push_bounds(
    alloc: Global,
    rows: &mut RowWriter,
    key: &Key,
    bounds: (u64, u64),
    decimals: u8,
) -> Result<(), AllocError>
    ensures { OnOk result (rows.new ≡ with_row rows.old (bounds_fields decimals key.now bounds)) }
{
    let low = pointed(alloc, u128::from(bounds.0), decimals)?;
    let high = pointed(alloc, u128::from(bounds.1), decimals)?;
    rows.push(alloc, &[key.bytes(), low.as_slice(), high.as_slice()])
}

/// Makes a row `key,low,high` for each of `words`, in order. All must have passed [`check_key`].
fn answers_text(
    alloc: Global,
    saved: &Saved,
    words: &[Vec<u8>],
    output: &Output,
) -> Result<Vec<u8>, AllocError>
    requires { bad_key 1 (map vec_items words.now) ≡ None }
    ensures { IfOk result (λ text. text.items ≡ rows_in output.now bound_columns
        (λ word. answer_fields output.now saved.now word.items) words.now) }
{
    let slack = slack_of(saved);
    let mut rows = RowWriter::new(alloc, output, BOUNDS)?;
    for word in words {
        let key = Key::of_bytes(alloc, word)?;
        let answer = answer_of(saved, slack, &key);
        push_bounds(alloc, &mut rows, &key, answer, output.decimals)?;
    }
    rows.into_text()
}

/// What a saved file tells of keys: for each, in order, a row `key,low,high`, written as `output`
/// says. The key's weight in the stream is at least `low` and at most `high`. Of a
/// counter summary these are the key's counter, and that and the summary's slack; of a table 0 and
/// the key's estimate. The file doesn't keep how many digits after the point its records were read
/// with, so `output` says it again.
///
/// The file is tested first ([`ToolError::BadFile`], as file 1), and then the keys in order
/// ([`ToolError::BadKey`], numbered from 1), before any row is made.
pub fn ask_rows(
    alloc: Global,
    file: &[u8],
    keys: &[Vec<u8>],
    output: &Output,
) -> Result<Vec<u8>, ToolError>
    ensures rows { IfOk result (λ text.
        answers_in output.now file.now (map vec_items keys.now) ≡ Ok text.items) }
    ensures refused { IfErr result (λ fault.
        Refuses (answers_in output.now file.now (map vec_items keys.now)) fault) }
    ensures early { StopsAtHead 1 file.now result }
{
    let saved = read_for_keys(alloc, file, keys)?;
    Ok(answers_text(alloc, &saved, keys, output)?)
}
