//! What is in a saved file.

ghost use Rattle.std.specs.Prelude.{◌≡◌, Ok, IfOk, IfErr, OnOk};
ghost use Rattle.hh_rows.specs.Outputs.{with_row, with_rows};
ghost use Rattle.hh_commands.specs.Describe.{description, description_of, fact_fields};
ghost use Rattle.hh_commands.specs.Describe.{head_rows, version_number};
ghost use Rattle.hh_commands.specs.Files.{Refuses, StopsAtHead};

use crate::files::file_of;
use hh_faults::ToolError;
use hh_rows::{Names, Output, RowWriter};
use hh_saved::Saved;
use itoa::Buffer;
use std::alloc::{AllocError, Global};

/// The columns of what is in a saved file.
const VALUES: Names = &[b"name", b"value"];

/// The version of a saved file.
fn version_number(file: &[u8]) -> u64
    ensures { result ≡ version_number file.now }
{
    if file.starts_with(b"HHS1") { 1 } else { 2 }
}

/// Writes the row of a name and a number after the others.
fn push_fact(
    alloc: Global,
    rows: &mut RowWriter,
    name: &[u8],
    number: u64,
) -> Result<(), AllocError>
    ensures { OnOk result (rows.new ≡ with_row rows.old (fact_fields (name.now, number))) }
{
    let mut digits = Buffer::new();
    rows.push(alloc, &[name, digits.format(number).as_bytes()])
}

/// The rows that a description begins with.
fn head_rows(
    alloc: Global,
    output: &Output,
    version: u64,
    kind: &[u8],
) -> Result<RowWriter, AllocError>
    ensures { IfOk result (λ rows. rows ≡ head_rows output.now version kind.now) }
{
    let mut rows = RowWriter::new(alloc, output, VALUES)?;
    push_fact(alloc, &mut rows, b"version", version)?;
    rows.push(alloc, &[b"kind".as_slice(), kind])?;
    Ok(rows)
}

/// The text of the rows `head`, and of those of names and numbers after them.
fn with_facts(alloc: Global, head: RowWriter, facts: &[(&[u8], u64)]) -> Result<Vec<u8>, AllocError>
    ensures { IfOk result (λ text. text.items
        ≡ (with_rows head (λ f. fact_fields (f.0.now, f.1)) facts.now).text) }
{
    let mut rows = head;
    for (name, number) in facts {
        push_fact(alloc, &mut rows, name, *number)?;
    }
    rows.into_text()
}

/// The rows of a file of this version that holds this value.
fn description_of(
    alloc: Global,
    output: &Output,
    version: u64,
    saved: &Saved,
) -> Result<Vec<u8>, AllocError>
    ensures { IfOk result (λ text. text.items ≡ description_of output.now version saved.now) }
{
    match saved {
        Saved::Counters(summary) => {
            let head = head_rows(alloc, output, version, b"summary")?;
            let facts: [(&[u8], u64); 5] = [
                (b"k", summary.k()),
                (b"keys", summary.len() as u64),
                (b"total", summary.total()),
                (b"counters", summary.sum()),
                (b"slack", summary.slack()),
            ];
            with_facts(alloc, head, &facts)
        }
        Saved::Cells(table) => {
            let head = head_rows(alloc, output, version, b"table")?;
            let facts: [(&[u8], u64); 3] = [
                (b"depth", table.family().depth()),
                (b"width", table.width()),
                (b"total", table.total()),
            ];
            with_facts(alloc, head, &facts)
        }
    }
}

/// What is in a saved file, in rows `name,value`, written as `output` says, all numbers whole: its
/// version and its kind; of a summary k, how many keys have a counter, the total weight, the sum of
/// the counters, and how far a counter may be below its key's weight; of a table its depth, its
/// width and the total weight.
///
/// Other files are refused, as file 1 ([`ToolError::BadFile`]).
pub fn describe_file(alloc: Global, file: &[u8], output: &Output) -> Result<Vec<u8>, ToolError>
    ensures rows { IfOk result (λ rows. description output.now file.now ≡ Ok rows.items) }
    ensures refused { IfErr result (λ fault. Refuses (description output.now file.now) fault) }
    ensures early { StopsAtHead 1 file.now result }
{
    let saved = file_of(alloc, 1, file)?;
    let version = version_number(file);
    Ok(description_of(alloc, output, version, &saved)?)
}
