//! The calls that pass over the items or the records that a summary is of.

ghost use Rattle.std.specs.Prelude.{◌≡◌, ◌≢◌, length, Ok};
ghost use Rattle.std.proofs.Common.{inl};
ghost use Rattle.hh_commands.specs.Files.{Refuses};
ghost use Rattle.hh_library.specs.CountItems.{condensed_items, confirmed_items};
ghost use Rattle.hh_library.specs.LaidOut.{CondenseBoundedRefused, CondensesBounded};
ghost use Rattle.hh_library.specs.LaidOut.{ConfirmBoundedRefused, ConfirmsBounded, text_laid};
ghost use Rattle.heavy_ffi.specs.Items.{items_of, keys_of, shape_fault};
ghost use Rattle.heavy_ffi.specs.Layouts.{Laid, LaidRefused, layout_fault, share_given};
ghost use Rattle.heavy_ffi.specs.Outcomes.{AnswersAfter, AnswersOn, file_with};

use crate::fault::Fault;
use crate::file_call::{FileCall, answer_by_file};
use crate::handle::Heavy;
use crate::hash_words::HashWords;
use crate::items::{items_of, shape_fault};
use crate::layout::{LaidText, TextLayout, share_given};
use hh_faults::ToolError;
use hh_library::{TextRecords, condense_bounded, condense_items, confirm_bounded, confirm_items};
use std::alloc::Global;

/// Items whose keys are hashed by these words: keys, where they end, and their weights.
#[derive(Clone, Copy)]
struct Items<'a> {
    keys: &'a [u8],
    ends: &'a [u64],
    weights: &'a [u64],
    hash: HashWords,
}

/// The rows of a summary's keys above a share of items.
#[derive(Clone, Copy)]
struct ConfirmItems<'a> {
    items: Items<'a>,
    share: Option<(u64, u64)>,
}

impl<'a> FileCall for ConfirmItems<'a> {
    ghost bad = { λ c. shape_fault (length c.items.keys.now) c.items.ends.now c.items.weights.now };

    ghost gives = { λ c file rows. confirmed_items c.share file
        (items_of c.items.keys.now c.items.ends.now c.items.weights.now) ≡ Ok rows };

    ghost refuses = { λ c file. Refuses (confirmed_items c.share file
        (items_of c.items.keys.now c.items.ends.now c.items.weights.now)) };

    fn test(&self) -> Option<Fault> {
        shape_fault(self.items.keys.len(), self.items.ends, self.items.weights)
    }

    fn make_bytes(self, alloc: Global, file: &[u8]) -> Result<Vec<u8>, ToolError> {
        let Items {
            keys,
            ends,
            weights,
            hash,
        } = self.items;
        let items = items_of(alloc, keys, ends, weights)?;
        confirm_items(alloc, file, self.share, &items, hash.key_hash())
    }

    ghost memory = { λ call file. tt };
}

/// Gives the rows of a summary's keys above p/q of the total of items, which are those that were
/// summarised; where both are 0, above 1/(k + 1). The ends are tested first, then the number of the
/// weights, then the value's kind, then p/q, then the items in order, and then the totals.
#[unsafe(no_mangle)]
pub extern "C" fn proved_confirm_items(
    alloc: Global,
    heavy: &mut Heavy,
    keys: &[u8],
    ends: &[u64],
    weights: &[u64],
    p: u64,
    q: u64,
    out: &mut [u8],
    needed: &mut usize,
    fault: &mut Fault,
) -> u32
    ensures answers { AnswersAfter (shape_fault (length keys.now) ends.now weights.now)
        (λ status. AnswersOn heavy.old.place.value
        (λ value rows. confirmed_items (share_given p q) (file_with value)
        (items_of keys.now ends.now weights.now) ≡ Ok rows)
        (λ value. Refuses (confirmed_items (share_given p q) (file_with value)
        (items_of keys.now ends.now weights.now)))
        status out.old) result out.old out.new needed.new fault.new }
    ensures kept { heavy.new.place.value ≡ heavy.old.place.value }
    ensures no_bytes { result ≢ 0 → result ≢ 5 → needed.new ≡ 0 }
{
    let items = Items {
        keys,
        ends,
        weights,
        hash: heavy.hash,
    };
    let share = share_given(p, q);
    answer_by_file(
        alloc,
        heavy,
        ConfirmItems { items, share },
        out,
        needed,
        fault,
    )
}

/// The condensed rows of items, by a summary.
#[derive(Clone, Copy)]
struct CondenseItems<'a> {
    items: Items<'a>,
}

impl<'a> FileCall for CondenseItems<'a> {
    ghost bad = { λ c. shape_fault (length c.items.keys.now) c.items.ends.now c.items.weights.now };

    ghost gives = { λ c file rows. condensed_items file
        (items_of c.items.keys.now c.items.ends.now c.items.weights.now) ≡ Ok rows };

    ghost refuses = { λ c file. Refuses (condensed_items file
        (items_of c.items.keys.now c.items.ends.now c.items.weights.now)) };

    fn test(&self) -> Option<Fault> {
        shape_fault(self.items.keys.len(), self.items.ends, self.items.weights)
    }

    fn make_bytes(self, alloc: Global, file: &[u8]) -> Result<Vec<u8>, ToolError> {
        let Items {
            keys,
            ends,
            weights,
            hash,
        } = self.items;
        let items = items_of(alloc, keys, ends, weights)?;
        condense_items(alloc, file, &items, hash.key_hash())
    }

    ghost memory = { λ call file. tt };
}

/// Gives records that say the same to a confirmation as items: what each key of a summary weighs
/// there, and in one record what all other keys do. The ends are tested first, then the number of
/// the weights, then the value's kind, and then the items in order, of any total.
#[unsafe(no_mangle)]
pub extern "C" fn proved_condense_items(
    alloc: Global,
    heavy: &mut Heavy,
    keys: &[u8],
    ends: &[u64],
    weights: &[u64],
    out: &mut [u8],
    needed: &mut usize,
    fault: &mut Fault,
) -> u32
    ensures answers { AnswersAfter (shape_fault (length keys.now) ends.now weights.now)
        (λ status. AnswersOn heavy.old.place.value
        (λ value rows. condensed_items (file_with value)
        (items_of keys.now ends.now weights.now) ≡ Ok rows)
        (λ value. Refuses (condensed_items (file_with value)
        (items_of keys.now ends.now weights.now)))
        status out.old) result out.old out.new needed.new fault.new }
    ensures kept { heavy.new.place.value ≡ heavy.old.place.value }
    ensures no_bytes { result ≢ 0 → result ≢ 5 → needed.new ≡ 0 }
{
    let items = Items {
        keys,
        ends,
        weights,
        hash: heavy.hash,
    };
    answer_by_file(alloc, heavy, CondenseItems { items }, out, needed, fault)
}

/// The rows of a summary's keys above a share of the records of a text.
#[derive(Clone, Copy)]
struct ConfirmRecords<'a> {
    laid: LaidText<'a>,
    hash: HashWords,
    share: Option<(u64, u64)>,
}

impl<'a> FileCall for ConfirmRecords<'a> {
    ghost bad = { λ c. layout_fault c.laid.layout.now (length c.laid.columns.now)
        c.laid.ends.now };

    ghost gives = { λ c file rows. Laid c.laid.layout.now
        (keys_of c.laid.columns.now c.laid.ends.now)
        (λ l. ConfirmsBounded c.share l.decimals file (text_laid l c.laid.text.now) rows) };

    ghost refuses = { λ c file. LaidRefused c.laid.layout.now
        (keys_of c.laid.columns.now c.laid.ends.now)
        (λ l. ConfirmBoundedRefused c.share file (text_laid l c.laid.text.now)) };

    fn test(&self) -> Option<Fault> {
        self.laid.test()
    }

    fn make_bytes(self, alloc: Global, file: &[u8]) -> Result<Vec<u8>, ToolError> {
        let layout = self.laid.layout_by(alloc, &self.hash)?;
        let decimals = layout.decimals;
        let records = TextRecords {
            layout: &layout,
            text: self.laid.text,
        };
        confirm_bounded(alloc, file, self.share, decimals, records)
    }

    ghost memory = { λ call file. inl tt };
}

/// Gives the rows of a summary's keys above p/q of the total of a text's records, which are those
/// that were summarised; where both are 0, above 1/(k + 1). The layout is tested first, then the
/// value's kind, then p/q, then the records, then the totals, and then that no key is outside its
/// bounds.
#[unsafe(no_mangle)]
pub extern "C" fn proved_confirm_records(
    alloc: Global,
    heavy: &mut Heavy,
    text: &[u8],
    layout: &TextLayout,
    columns: &[u8],
    ends: &[u64],
    p: u64,
    q: u64,
    out: &mut [u8],
    needed: &mut usize,
    fault: &mut Fault,
) -> u32
    ensures answers { AnswersAfter (layout_fault layout.now (length columns.now) ends.now)
        (λ status. AnswersOn heavy.old.place.value
        (λ value rows. Laid layout.now (keys_of columns.now ends.now)
        (λ l. ConfirmsBounded (share_given p q) l.decimals (file_with value)
        (text_laid l text.now) rows))
        (λ value. LaidRefused layout.now (keys_of columns.now ends.now)
        (λ l. ConfirmBoundedRefused (share_given p q) (file_with value) (text_laid l text.now)))
        status out.old) result out.old out.new needed.new fault.new }
    ensures kept { heavy.new.place.value ≡ heavy.old.place.value }
    ensures no_bytes { result ≢ 0 → result ≢ 5 → needed.new ≡ 0 }
{
    let laid = LaidText {
        text,
        layout,
        columns,
        ends,
    };
    let (hash, share) = (heavy.hash, share_given(p, q));
    let call = ConfirmRecords { laid, hash, share };
    answer_by_file(alloc, heavy, call, out, needed, fault)
}

/// The condensed rows of the records of a text, by a summary.
#[derive(Clone, Copy)]
struct CondenseRecords<'a> {
    laid: LaidText<'a>,
    hash: HashWords,
}

impl<'a> FileCall for CondenseRecords<'a> {
    ghost bad = { λ c. layout_fault c.laid.layout.now (length c.laid.columns.now)
        c.laid.ends.now };

    ghost gives = { λ c file rows. Laid c.laid.layout.now
        (keys_of c.laid.columns.now c.laid.ends.now)
        (λ l. CondensesBounded l.decimals file (text_laid l c.laid.text.now) rows) };

    ghost refuses = { λ c file. LaidRefused c.laid.layout.now
        (keys_of c.laid.columns.now c.laid.ends.now)
        (λ l. CondenseBoundedRefused file (text_laid l c.laid.text.now)) };

    fn test(&self) -> Option<Fault> {
        self.laid.test()
    }

    fn make_bytes(self, alloc: Global, file: &[u8]) -> Result<Vec<u8>, ToolError> {
        let layout = self.laid.layout_by(alloc, &self.hash)?;
        let decimals = layout.decimals;
        let records = TextRecords {
            layout: &layout,
            text: self.laid.text,
        };
        condense_bounded(alloc, file, decimals, records)
    }

    ghost memory = { λ call file. inl tt };
}

/// Gives what `proved_condense_items` gives, of the records of a text, which may be a part of those
/// that were summarised. The layout is tested first, then the value's kind, then the records, of
/// any total, and then that no key is above its bound.
#[unsafe(no_mangle)]
pub extern "C" fn proved_condense_records(
    alloc: Global,
    heavy: &mut Heavy,
    text: &[u8],
    layout: &TextLayout,
    columns: &[u8],
    ends: &[u64],
    out: &mut [u8],
    needed: &mut usize,
    fault: &mut Fault,
) -> u32
    ensures answers { AnswersAfter (layout_fault layout.now (length columns.now) ends.now)
        (λ status. AnswersOn heavy.old.place.value
        (λ value rows. Laid layout.now (keys_of columns.now ends.now)
        (λ l. CondensesBounded l.decimals (file_with value) (text_laid l text.now) rows))
        (λ value. LaidRefused layout.now (keys_of columns.now ends.now)
        (λ l. CondenseBoundedRefused (file_with value) (text_laid l text.now)))
        status out.old) result out.old out.new needed.new fault.new }
    ensures kept { heavy.new.place.value ≡ heavy.old.place.value }
    ensures no_bytes { result ≢ 0 → result ≢ 5 → needed.new ≡ 0 }
{
    let laid = LaidText {
        text,
        layout,
        columns,
        ends,
    };
    let hash = heavy.hash;
    let call = CondenseRecords { laid, hash };
    answer_by_file(alloc, heavy, call, out, needed, fault)
}
