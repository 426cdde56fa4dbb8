//! Notes that a run prints at its end, on what was read and on few rows.

use crate::escaped::Name;
use crate::file_names::FileNames;
use crate::saved_kinds::SavedFiles;
use crate::thresholds::{MOST_COUNTERS, is_least};
use heavy_arguments::{Pass, Verb};
use heavy_progress::{FormatHints, LongRecord};
use heavy_requests::Asked;
use hh_records::{Format, LayoutWords};
use hh_rows::{Form, Share};
use std::fmt::{self, Display};

/// Whether no option says how records are parted: none of `layout`.
pub(crate) fn is_unparted(layout: &LayoutWords) -> bool {
    layout.delimiter.is_none()
        && layout.format == Format::Csv
        && layout.key.is_empty()
        && layout.weight.is_none()
}

/// Prints where records that were read look like another format.
pub(crate) fn print_format_hint(rt: &HostRuntime, hints: FormatHints) {
    if hints.are_objects() {
        let _ = rt.eprintln(
            "heavy: note: most lines begin with {: --json --key NAME reads objects",
        );
    } else if let Some((name, word)) = hints.delimiter() {
        let _ = eprintln!(rt;
            "heavy: note: no record has a second field, and most lines have a {name}: \
            --delimiter '{word}'"
        );
    }
}

/// Prints at the end of which of the inputs with these `names` a quote is open.
pub(crate) fn print_open(rt: &HostRuntime, open: Option<u64>, names: FileNames<'_>) {
    if let Some(number) = open {
        let name = names.input(number);
        let _ = eprintln!(rt; "heavy: note: a quote is open at the end of {name}");
    }
}

/// Prints how many records counted as the key `bad_as` since they could not be read, if any did.
pub(crate) fn print_bad(rt: &HostRuntime, bad: u64, bad_as: &Option<Vec<u8>>) {
    let Some(key) = bad_as else {
        return;
    };
    let key = Name(key);
    let _ = match bad {
        0 => Ok(()),
        1 => eprintln!(rt; "heavy: 1 record could not be read and counts as {key}"),
        _ => eprintln!(rt; "heavy: {bad} records could not be read and count as {key}"),
    };
}

/// Prints that the last record of an input began with a quote and is long, where one is so.
pub(crate) fn print_long(rt: &HostRuntime, long: Option<LongRecord>, names: FileNames<'_>) {
    if let Some(long) = long {
        let name = names.input(long.number);
        let (lines, bytes) = (long.size.lines, long.size.bytes);
        let s = if lines == 1 { "" } else { "s" };
        let _ = eprintln!(rt;
            "heavy: note: the last record of {name} begins with a quote and has {lines} line{s}, \
            {bytes} bytes: a quote that isn't closed takes all that follows"
        );
    }
}

/// How many keys a report has, as a sentence begins.
#[derive(Clone, Copy)]
struct KeysAbove(u64);

impl KeysAbove {
    /// Gives what `heavy top` shows, where there are none.
    fn and_top(self, top: u64) -> AndTop {
        AndTop {
            are_none: self.0 == 0,
            top,
        }
    }
}

impl Display for KeysAbove {
    fn fmt<W: fmt::Write>(&self, f: &mut fmt::Formatter<W>) -> fmt::Result {
        match self.0 {
            0 => f.write_str("no key weighs"),
            1 => f.write_str("1 key weighs"),
            number => write!(f, "{number} keys weigh"),
        }
    }
}

/// What `heavy top` shows, behind what else shows more, where there are no keys.
#[derive(Clone, Copy)]
struct AndTop {
    are_none: bool,
    top: u64,
}

impl Display for AndTop {
    fn fmt<W: fmt::Write>(&self, f: &mut fmt::Formatter<W>) -> fmt::Result {
        if self.are_none {
            write!(f, ", and {}", More::Top(self.top))
        } else {
            Ok(())
        }
    }
}

/// Prints that few keys are above the share of `k` counters, and what shows more: as many counters
/// as find keys of a tenth of it, as far as there may be as many, or the `top` greatest keys.
fn print_above_counters(rt: &HostRuntime, keys: KeysAbove, k: u64, top: u64) {
    let least = k.saturating_add(1);
    let next = least
        .saturating_mul(10)
        .saturating_sub(1)
        .min(MOST_COUNTERS);
    let greatest = keys.and_top(top);
    let _ = if k < next {
        eprintln!(rt;
            "heavy: note: {keys} more than 1/{least} of the total: --k {next} shows those above \
            1/{}{greatest}",
            next.saturating_add(1)
        )
    } else {
        eprintln!(rt;
            "heavy: note: {keys} more than 1/{least} of the total: {}",
            More::Top(top)
        )
    };
}

/// What shows more than the keys above a share.
#[derive(Clone, Copy)]
enum More {
    Threshold,
    Counters,
    /// The greatest keys, of this number.
    Top(u64),
}

impl Display for More {
    fn fmt<W: fmt::Write>(&self, f: &mut fmt::Formatter<W>) -> fmt::Result {
        match self {
            More::Threshold => f.write_str("a smaller --threshold shows more"),
            More::Counters => f.write_str("a larger --k with a smaller --threshold shows more"),
            More::Top(top) => write!(f, "`heavy top {top}` shows the greatest"),
        }
    }
}

/// Prints that few keys are above the `share`, and what shows more.
fn print_above(rt: &HostRuntime, keys: KeysAbove, share: &Share, k: u64, top: u64) {
    match share {
        Share::Text(word) => {
            let more = if !is_least(share, k) {
                More::Threshold
            } else if k < MOST_COUNTERS {
                More::Counters
            } else {
                More::Top(top)
            };
            let (word, greatest) = (Name(word), keys.and_top(top));
            let _ = match more {
                More::Top(_) => {
                    eprintln!(rt; "heavy: note: {keys} more than {word} of the total: {more}")
                }
                _ => eprintln!(rt;
                    "heavy: note: {keys} more than {word} of the total: {more}{greatest}"
                ),
            };
        }
        Share::OfCounters => print_above_counters(rt, keys, k, top),
    }
}

/// Prints that no key of the first of the saved `files` is above the `share`, and what `heavy top`
/// does. The summary has a k of its own, which isn't known where the file can't be looked at.
fn print_none_confirmed(files: SavedFiles<'_>, share: &Share, top: u64) {
    let (rt, none) = (files.rt, "heavy: note: no key weighs more than");
    let more = More::Top(top);
    let _ = match (share, files.counters()) {
        (Share::Text(word), _) => eprintln!(rt; "{none} {} of the total: {more}", Name(word)),
        (Share::OfCounters, Some(k)) => {
            eprintln!(rt; "{none} 1/{} of the total: {more}", k.saturating_add(1))
        }
        (Share::OfCounters, None) => eprintln!(rt; "{none} 1/(k+1) of the total: {more}"),
    };
}

/// Prints how many keys a report has, of which `rows` were written, where it has fewer than were
/// asked for or none, and what shows more; and where it has none, whether it `has_records`. Of
/// `confirm` it does so where there are none, with the k of the first of the saved `files`.
pub(crate) fn print_few_keys(files: SavedFiles<'_>, asked: &Asked, rows: u64, has_records: bool) {
    let (rt, is_confirmed) = (files.rt, asked.verb == Verb::Pass(Pass::Confirm));
    if asked.verb != Verb::Report && !is_confirmed {
        return;
    }
    let output = asked.rows.output;
    let has_header = output.has_names && output.form != Form::Json;
    let keys = rows.saturating_sub(u64::from(has_header));
    let top = asked.rows.top.unwrap_or(1);
    let share = &asked.options.threshold;
    if keys < top && !has_records {
        let _ = rt.eprintln("heavy: note: there are no records");
    } else if keys < top && !is_confirmed {
        print_above(rt, KeysAbove(keys), share, asked.options.k, top);
    } else if keys == 0 && top > 0 {
        print_none_confirmed(files, share, top);
    }
}
