//! How C says where the keys and the weights of a text's records stand.

ghost use Rattle.std.specs.Prelude.{◌≡◌, None, IfErr, IfOk, length};
ghost use Rattle.heavy_ffi.specs.Items.{keys_of};
ghost use Rattle.heavy_ffi.specs.Layouts.{AreLayoutWords, IsLayout, LayoutRefused};
ghost use Rattle.heavy_ffi.specs.Layouts.{layout_fault, share_given};

use crate::fault::Fault;
use crate::hash_words::HashWords;
use crate::items::{keys_of, shape_fault};
use hh_faults::ToolError;
use hh_records::{Format, Layout, LayoutWords};
use std::alloc::{AllocError, Global};

/// How the records of a text are laid out, beside the words of their columns.
#[derive(Clone, Copy)]
#[repr(C)]
pub struct TextLayout {
    pub delimiter: u8,
    pub header: u8,
    pub allow_zero: u8,
    pub decimals: u8,
    pub has_weight: u32,
}

/// The kind of the fault of a layout's numbers.
const BAD_LAYOUT: u32 = 26;

/// The most digits that a weight may have after its point.
const MAX_DECIMALS: u8 = 9;

/// The fault of columns of `len` bytes in all that can't have these ends, or else of a layout that
/// has other numbers than it may have beside them.
fn layout_fault(layout: &TextLayout, len: usize, ends: &[u64]) -> Option<Fault>
    ensures { result ≡ layout_fault layout.now len ends.now }
{
    if let Some(bad) = shape_fault(len, ends, &[]) {
        return Some(bad);
    }
    let fits = layout.header <= 1
        && layout.allow_zero <= 1
        && layout.decimals <= MAX_DECIMALS
        && layout.has_weight <= 1
        && layout.has_weight as usize <= ends.len();
    if fits {
        return None;
    }
    Some(Fault {
        kind: BAD_LAYOUT,
        cause: 0,
        number: 0,
    })
}

/// A text, and how its records are laid out.
#[derive(Clone, Copy)]
pub(crate) struct LaidText<'a> {
    pub text: &'a [u8],
    pub layout: &'a TextLayout,
    pub columns: &'a [u8],
    pub ends: &'a [u64],
}

impl LaidText<'_> {
    /// Tells what is wrong with the layout's numbers, or with where its columns end.
    pub(crate) fn test(&self) -> Option<Fault>
        ensures { result ≡ layout_fault self.now.layout.now (length self.now.columns.now)
            self.now.ends.now }
    {
        layout_fault(self.layout, self.columns.len(), self.ends)
    }

    /// Gives the layout that numbers and columns say, whose keys are hashed by these words.
    pub(crate) fn layout_by(&self, alloc: Global, hash: &HashWords) -> Result<Layout, ToolError>
        requires { layout_fault self.now.layout.now (length self.now.columns.now)
            self.now.ends.now ≡ None }
        ensures layout { IfOk result
            (IsLayout self.now.layout.now (keys_of self.now.columns.now self.now.ends.now)) }
        ensures refused { IfErr result
            (LayoutRefused self.now.layout.now (keys_of self.now.columns.now self.now.ends.now)) }
    {
        layout_of(alloc, self.layout, self.columns, self.ends, hash)
    }
}

/// The words that a layout and its columns are: the last column is the weight's where it has one,
/// and the others are the key's.
fn words_of(
    alloc: Global,
    layout: &TextLayout,
    columns: &[u8],
    ends: &[u64],
) -> Result<LayoutWords, AllocError>
    requires { layout_fault layout.now (length columns.now) ends.now ≡ None }
    ensures { IfOk result (AreLayoutWords layout.now (keys_of columns.now ends.now)) }
{
    let mut key = keys_of(alloc, columns, ends)?;
    let weight = if layout.has_weight == 1 {
        key.pop()
    } else {
        None
    };
    Ok(LayoutWords {
        format: Format::Csv,
        delimiter: Some(Vec::from_slice(alloc, &[layout.delimiter])?),
        has_header: layout.header == 1,
        key,
        weight,
        until: Vec::new(alloc),
        prefix: None,
        allow_zero: layout.allow_zero == 1,
        decimals: layout.decimals,
        bad_as: None,
    })
}

/// The layout that numbers and columns say. Keys are hashed by these words.
fn layout_of(
    alloc: Global,
    layout: &TextLayout,
    columns: &[u8],
    ends: &[u64],
    hash: &HashWords,
) -> Result<Layout, ToolError>
    requires { layout_fault layout.now (length columns.now) ends.now ≡ None }
    ensures layout { IfOk result (IsLayout layout.now (keys_of columns.now ends.now)) }
    ensures refused { IfErr result
        (LayoutRefused layout.now (keys_of columns.now ends.now)) }
{
    let words = words_of(alloc, layout, columns, ends)?;
    let mut said = hh_records::layout_of(alloc, &words)?;
    said.hash = hash.key_hash();
    Ok(said)
}

/// The share p/q, or none where both are 0.
pub(crate) fn share_given(p: u64, q: u64) -> Option<(u64, u64)>
    ensures { result ≡ share_given p q }
{
    if p == 0 && q == 0 {
        return None;
    }
    Some((p, q))
}
