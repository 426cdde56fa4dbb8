//! Where a bad record stands, and what is wrong with it.

use crate::columns::{Missing, column_place, missing_field};
use crate::escaped::{Name, print_about};
use crate::first_bytes::other_format;
use crate::record_place::{RecordPlace, Text, Texts};
use crate::samples::first_of;
use hh_faults::BadRecordCause;
use hh_records::LayoutWords;
use std::fmt::{self, Display};

/// What a weight has to be, and what may stand in its place.
const WEIGHT: &str = "a weight is a whole number from 1 on; is the first line a header? --header; \
    has it a point? --decimals";

/// What a weight has to be where it may have a point.
const DECIMAL: &str = "a weight has at most as many digits behind a point as --decimals says; \
    is the first line a header? --header";

/// Whether `layout` names a column.
fn names_columns(layout: &LayoutWords) -> bool {
    !layout.key.is_empty() || layout.weight.is_some()
}

/// Says what a record of this `layout` has to be, by what is wrong with one.
fn wanted(cause: BadRecordCause, layout: &LayoutWords) -> &'static str {
    let decimals = layout.decimals;
    match cause {
        BadRecordCause::FieldCount if layout.format.is_json() => {
            "a record is an object with each member that --key and --weight name: a key is a text, \
            a number, true or false, and a weight is a number"
        }
        BadRecordCause::FieldCount if names_columns(layout) => {
            "a record has each column that --key and --weight name"
        }
        BadRecordCause::FieldCount => {
            "a record is key,weight or a key alone; --key and --weight choose columns"
        }
        BadRecordCause::EmptyKey | BadRecordCause::KeyTooLong => "a key has 1 to 4096 bytes",
        BadRecordCause::BadWeight if layout.format.is_json() => {
            "a weight is a whole number from 1 on, or with --decimals one with a point"
        }
        BadRecordCause::BadWeight if decimals > 0 => DECIMAL,
        BadRecordCause::BadWeight => WEIGHT,
        BadRecordCause::ZeroWeight if decimals > 0 => {
            "a weight is more than 0; --allow-zero takes 0"
        }
        BadRecordCause::ZeroWeight => "a weight is a whole number from 1 on; --allow-zero takes 0",
        BadRecordCause::TotalTooLarge if decimals > 0 => {
            "all weights together are at most 9223372036854775807 of the last decimal"
        }
        BadRecordCause::TotalTooLarge => "all weights together are at most 9223372036854775807",
    }
}

/// What a bad record has to be, or what it is.
#[derive(Clone, Copy)]
enum Verdict<'a> {
    Wanted(&'static str),
    /// A record with this number of fields, which doesn't have a column.
    Fields(u64, Missing<'a>),
}

impl<'a> Display for Verdict<'a> {
    fn fmt<W: fmt::Write>(&self, f: &mut fmt::Formatter<W>) -> fmt::Result {
        match self {
            Verdict::Wanted(text) => f.write_str(text),
            Verdict::Fields(1, missing) => write!(f, "it has 1 field, and {missing}"),
            Verdict::Fields(count, missing) => write!(f, "it has {count} fields, and {missing}"),
        }
    }
}

/// Whether the weight of a record of `text` is `-`.
fn weight_is_none(texts: Texts<'_>, text: Text<'_>, fields: &[Vec<u8>]) -> bool {
    let place = match &texts.records.layout.weight {
        Some(word) => column_place(texts, text, word),
        None => Some(1),
    };
    let Some(place) = place else {
        return false;
    };
    match fields.get(place) {
        Some(weight) => weight.as_slice() == b"-".as_slice(),
        None => false,
    }
}

/// Says what is wrong with a record of `text`, which has these `fields`.
fn verdict_on_fields<'a>(
    texts: Texts<'a>,
    text: Text<'_>,
    fields: &[Vec<u8>],
    cause: BadRecordCause,
) -> Verdict<'a> {
    let layout = &texts.records.layout;
    match cause {
        BadRecordCause::FieldCount if names_columns(layout) => {
            let count = fields.len() as u64;
            Verdict::Fields(count, missing_field(texts, text, count))
        }
        BadRecordCause::BadWeight if weight_is_none(texts, text, fields) => {
            Verdict::Wanted("--allow-zero takes a weight of -, as 0")
        }
        _ => Verdict::Wanted(wanted(cause, layout)),
    }
}

/// Says what is wrong with the record at `place`.
fn verdict_on<'a>(texts: Texts<'a>, place: &RecordPlace<'_>, cause: BadRecordCause) -> Verdict<'a> {
    let layout = &texts.records.layout;
    if layout.format.has_quotes() && matches!(place.begin(), [b'{' | b'[', ..]) {
        return Verdict::Wanted(
            "looks like JSON, and a record is CSV; --json reads an object a line",
        );
    }
    match texts.fields_of(place) {
        Some(fields) => verdict_on_fields(texts, place.text, &fields, cause),
        None => Verdict::Wanted(wanted(cause, layout)),
    }
}

/// Names the format that `text` begins as, where it is one that no command reads and the text can
/// be looked at again.
fn format_of(texts: Texts<'_>, text: Text<'_>) -> Option<&'static str> {
    let (bytes, _) = first_of(texts, text)?;
    other_format(&bytes)
}

/// Prints where a record stands, how it begins and what is wrong with it.
fn print_verdict(rt: &HostRuntime, place: &RecordPlace<'_>, verdict: Verdict<'_>) {
    let more = if place.is_cut() { ".." } else { "" };
    let _ = eprintln!(rt;
        "  {}, line {}, \"{}\"{more}: {verdict}",
        place.text.called(),
        place.line,
        place.begin().escape_ascii()
    );
}

/// Prints where a record stands, how it begins and what is wrong with it. Of a text in another
/// format it prints that.
fn tell_place(texts: Texts<'_>, place: &RecordPlace<'_>, cause: BadRecordCause) {
    match format_of(texts, place.text) {
        Some(format) => print_about(texts.rt, place.text.called(), " ", format),
        None => print_verdict(texts.rt, place, verdict_on(texts, place, cause)),
    }
}

/// Prints where a bad record stands and how it begins, where its text can be looked at again, and
/// what is wrong with it.
pub(crate) fn tell_record(texts: Texts<'_>, number: u64, cause: BadRecordCause) {
    match texts.place_of(number) {
        Some(place) => tell_place(texts, &place, cause),
        None => {
            let wanted = wanted(cause, &texts.records.layout);
            print_about(texts.rt, Name(b""), "", wanted);
        }
    }
}
