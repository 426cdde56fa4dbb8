//! The calls of `heavy` over the four records, and over a summary that was saved of them.

use crate::lab::{Lab, Said, no_such_call, told};
use heavy::{
    Method, TextError, ToolError, ask_bytes, confirm_bytes, merge_bytes, read_stream,
    summary_bytes, table_bytes,
};
use std::test::Fail;

pub fn call(lab: &Lab, name: &str) -> Result<Said, Fail> {
    over_records(lab, name, lab.records()?.as_slice())
}

// Makes the call over these records.
fn over_records(lab: &Lab, name: &str, text: &[u8]) -> Result<Said, Fail> {
    match name {
        "read_stream" => told!(lab, read_stream(lab.alloc, text), TextError::Memory),
        "summary_bytes" => summarised(lab, Method::MisraGries, text),
        "summary_bytes by Space-Saving" => summarised(lab, Method::SpaceSaving, text),
        "table_bytes" => told!(
            lab,
            table_bytes(lab.alloc, 4, 2, 7, text),
            ToolError::Memory
        ),
        _ => over_file(lab, name, summary(lab, text)?, text),
    }
}

fn summarised(lab: &Lab, method: Method, text: &[u8]) -> Result<Said, Fail> {
    told!(
        lab,
        summary_bytes(lab.alloc, 2, method, text),
        ToolError::Memory
    )
}

// The saved summary of these records.
fn summary(lab: &Lab, text: &[u8]) -> Result<Vec<u8>, Fail> {
    Ok(summary_bytes(lab.alloc, 2, Method::MisraGries, text)?)
}

// Makes the call over that summary, and these records.
fn over_file(lab: &Lab, name: &str, file: Vec<u8>, text: &[u8]) -> Result<Said, Fail> {
    match name {
        "ask_bytes" => asked(lab, file.as_slice()),
        "confirm_bytes" => confirmed(lab, file.as_slice(), text),
        "merge_bytes" => merged(lab, file),
        _ => Err(no_such_call(name)),
    }
}

// Asks for a key with a counter, and for one without.
fn asked(lab: &Lab, file: &[u8]) -> Result<Said, Fail> {
    let keys = vec![in lab.alloc; lab.bytes(b'a')?, lab.bytes(b'z')?]?;
    told!(
        lab,
        ask_bytes(lab.alloc, file, keys.as_slice()),
        ToolError::Memory
    )
}

fn confirmed(lab: &Lab, file: &[u8], text: &[u8]) -> Result<Said, Fail> {
    told!(lab, confirm_bytes(lab.alloc, file, text), ToolError::Memory)
}

// Merges the file with itself.
fn merged(lab: &Lab, file: Vec<u8>) -> Result<Said, Fail> {
    let files = [file.clone()?, file];
    told!(lab, merge_bytes(lab.alloc, &files), ToolError::Memory)
}
