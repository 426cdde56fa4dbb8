//! What is seen of texts by their first and their last bytes, once they are read.

use crate::first_bytes::{BEGIN, bytes_of};
use crate::record_place::{Text, Texts};
use heavy_progress::{Ending, Endings, Form, FormatHints, MOST_LAST};
use std::os::unix::fs::FileExt;

/// Gives the first bytes of `text`, where it can be looked at again, and whether they are all.
pub(crate) fn first_of(texts: Texts<'_>, text: Text<'_>) -> Option<(Vec<u8>, bool)> {
    if let Some(first) = texts.begin.of(text.number) {
        return Some((first.bytes, first.is_whole));
    }
    let bytes = bytes_of(texts.rt, text.file(texts.rt)?)?;
    let are_all = (bytes.len() as u64) < BEGIN;
    Some((bytes, are_all))
}

/// Gives what the first bytes of `texts` look like, whose records have this `form`.
pub(crate) fn format_hints(texts: Texts<'_>, form: Form) -> FormatHints {
    let mut hints = FormatHints::new();
    for place in 0..u64::MAX {
        let Some(text) = texts.text(place) else {
            break;
        };
        if let Some((bytes, are_all)) = first_of(texts, text) {
            hints.add(&bytes, are_all, form);
        }
    }
    hints
}

/// Says how `text` ends, where it is a file of the disk. `delimiter` stands between its fields.
fn ending_of(rt: &HostRuntime, text: Text<'_>, delimiter: u8) -> Option<Ending> {
    let file = text.file(rt)?;
    let from = file.metadata().ok()?.len().saturating_sub(MOST_LAST as u64);
    let mut bytes = vec![in rt.alloc(); 0u8; MOST_LAST].ok()?;
    let count = FileExt::read_at(&file, &mut bytes, from).ok()?;
    Some(Ending::of(bytes.get(..count)?, from == 0, delimiter))
}

/// Adds to `endings`, which has those of other inputs, how the `texts` end that are files of the
/// disk. `delimiter` stands between their fields.
pub(crate) fn with_files(mut endings: Endings, texts: Texts<'_>, delimiter: u8) -> Endings {
    for place in 0..u64::MAX {
        let Some(text) = texts.text(place) else {
            break;
        };
        if let Some(ending) = ending_of(texts.rt, text, delimiter) {
            endings = endings.with(text.number, ending);
        }
    }
    endings
}
