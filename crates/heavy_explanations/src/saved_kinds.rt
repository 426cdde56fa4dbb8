//! What saved files have in which they differ, so that they can't be merged.

use crate::escaped::{Name, print_about};
use crate::file_names::FileNames;
use crate::first_bytes::{begin_of, looks};
use heavy_host::is_standard;
use heavy_progress::Begin;
use hh_faults::MergeCause;
use std::fmt::{self, Display};

/// What a saved file is, by its first bytes.
#[derive(Clone, Copy)]
enum SavedKind {
    Summary { k: u16 },
    Table(TableSize),
}

/// How large a table is.
#[derive(Clone, Copy)]
struct TableSize {
    width: u32,
    depth: u8,
}

impl Display for SavedKind {
    fn fmt<W: fmt::Write>(&self, f: &mut fmt::Formatter<W>) -> fmt::Result {
        match self {
            SavedKind::Summary { k } => write!(f, "a summary with k {k}"),
            SavedKind::Table(size) => {
                write!(
                    f,
                    "a table of width {} and depth {}",
                    size.width, size.depth
                )
            }
        }
    }
}

/// Reads what a saved file with these first bytes is.
fn kind_in(bytes: &[u8]) -> Option<SavedKind> {
    match bytes {
        [b'H', b'H', b'S', _, 1, high, low, ..] => Some(SavedKind::Summary {
            k: u16::from_be_bytes([*high, *low]),
        }),
        [b'H', b'H', b'S', _, 2, a, b, c, d, depth, ..] => Some(SavedKind::Table(TableSize {
            width: u32::from_be_bytes([*a, *b, *c, *d]),
            depth: *depth,
        })),
        _ => None,
    }
}

/// Gives the first bytes of the spelling that a sealed file with these first bytes has, or all of
/// them where it isn't sealed.
fn unsealed(bytes: &[u8]) -> &[u8] {
    match bytes.strip_prefix(b"HVY1".as_slice()) {
        Some(rest) if !rest.is_empty() => &rest[1..],
        _ => bytes,
    }
}

/// Reads the number that stands `at` a place of `bytes`.
fn number_at(bytes: &[u8], at: usize) -> Option<u64> {
    match bytes.get(at..)? {
        [a, b, c, d, e, f, g, h, ..] => {
            Some(u64::from_be_bytes([*a, *b, *c, *d, *e, *f, *g, *h]))
        }
        _ => None,
    }
}

/// Reads the total of a saved file with these first bytes, which stands behind k, or behind the
/// coefficients of all rows.
fn total_in(bytes: &[u8]) -> Option<u64> {
    match kind_in(bytes)? {
        SavedKind::Summary { .. } => number_at(bytes, 7),
        SavedKind::Table(size) => number_at(bytes, 18 + 16 * usize::from(size.depth)),
    }
}

/// The saved files of a command line, as far as they can be looked at again.
#[derive(Clone, Copy)]
pub(crate) struct SavedFiles<'a> {
    pub(crate) rt: &'a HostRuntime,
    pub(crate) names: FileNames<'a>,
    /// The first bytes of standard input.
    pub(crate) begin: &'a Begin,
}

impl<'a> SavedFiles<'a> {
    /// Whether the file `number` is standard input, which one before it took.
    fn is_taken(self, number: u64) -> bool {
        is_standard(self.names.name(number))
            && (1..number).any(|before| is_standard(self.names.name(before)))
    }

    /// Gives the first bytes of the file `number`, where it is one of the disk or standard input.
    fn begin_of(self, number: u64) -> Option<Vec<u8>> {
        let name = self.names.name(number);
        if is_standard(name) {
            return Some(self.begin.of(0)?.bytes);
        }
        begin_of(self.rt, name)
    }

    /// Gives what the file `number` is.
    fn kind(self, number: u64) -> Option<SavedKind> {
        kind_in(unsealed(&self.begin_of(number)?))
    }

    /// Gives how many counters the first file has, where it is a summary.
    pub(crate) fn counters(self) -> Option<u64> {
        match self.kind(1)? {
            SavedKind::Summary { k } => Some(u64::from(k)),
            SavedKind::Table(_) => None,
        }
    }

    /// Gives the total of the file `number`.
    fn total(self, number: u64) -> Option<u64> {
        total_in(unsealed(&self.begin_of(number)?))
    }

    /// Adds up the totals of the files before the file `number`.
    fn total_before(self, number: u64) -> Option<u64> {
        let mut total = 0u64;
        for before in 1..number {
            total = total.saturating_add(self.total(before)?);
        }
        Some(total)
    }

    /// Prints what the file `number`, which is refused, looks like by its first bytes.
    pub(crate) fn tell_looks(self, number: u64) {
        let name = self.names.input(number);
        if self.is_taken(number) {
            print_about(self.rt, name, " ", "was taken by a file before it");
        } else if let Some(bytes) = self.begin_of(number) {
            print_about(self.rt, name, " ", looks(&bytes));
        }
    }

    /// Prints what the file `number` is, and what the first one is, where both can be looked at.
    pub(crate) fn tell_kinds(self, number: u64) {
        let (first, name) = (self.names.input(1), self.names.input(number));
        match (self.kind(1), self.kind(number)) {
            (Some(one), Some(other)) => {
                let _ = eprintln!(self.rt; "  {name} is {other}, and {first} is {one}");
            }
            _ => print_about(self.rt, name, "", ""),
        }
    }

    /// Prints the totals of the file `number` and of those before it, which are too large together.
    fn tell_total(self, number: u64) {
        let name = self.names.input(number);
        match (self.total(number), self.total_before(number)) {
            (Some(total), Some(before)) => {
                let _ = eprintln!(self.rt;
                    "  {name}: its total is {total}, and {before} before it: together they are \
                    above 9223372036854775807"
                );
            }
            _ => {
                let words = "with it the total is above 9223372036854775807";
                print_about(self.rt, name, ": ", words);
            }
        }
    }

    /// Prints a number of the file `number`, and the first file's, by the `word` for both.
    fn tell_numbers(self, number: u64, word: &str, one: u64, other: u64) {
        let (first, name) = (self.names.input(1), self.names.input(number));
        let _ = eprintln!(self.rt; "  {name}: {word} is {one}, and {other} in {first}");
    }

    /// Prints the depths of the table `number` and of the first one, or, where they are the same,
    /// that the seeds aren't.
    fn tell_families(self, number: u64, depth: u8, other: u8) {
        if depth == other {
            let (first, name) = (self.names.input(1), self.names.input(number));
            let _ = eprintln!(self.rt; "  {name}: its seed is another than that of {first}");
        } else {
            self.tell_numbers(number, "depth", u64::from(depth), u64::from(other));
        }
    }

    /// Prints why the file `number` isn't merged into those before it, by the `cause`, with the
    /// numbers of both sides.
    pub(crate) fn tell_unmerged(self, number: u64, cause: MergeCause) {
        match (cause, self.kind(number), self.kind(1)) {
            (MergeCause::TotalTooLarge, _, _) => self.tell_total(number),
            (_, Some(SavedKind::Summary { k }), Some(SavedKind::Summary { k: other })) => {
                self.tell_numbers(number, "k", u64::from(k), u64::from(other));
            }
            (_, Some(SavedKind::Table(one)), Some(SavedKind::Table(other))) => match cause {
                MergeCause::DifferentWidth => {
                    let (width, other) = (u64::from(one.width), u64::from(other.width));
                    self.tell_numbers(number, "width", width, other);
                }
                _ => self.tell_families(number, one.depth, other.depth),
            },
            _ => print_about(self.rt, self.names.input(number), "", ""),
        }
    }
}
