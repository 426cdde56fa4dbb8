//! What gives the bytes of files.

ghost use Rattle.std.specs.Prelude.{◌≡◌, ℕ, Bool, List, None, Option, false, IfErr, IfOk, IfSome};
ghost use Rattle.hh_faults.specs.declared.error.ToolError.{ToolError};
ghost use Rattle.heavy_answers.specs.Refusals.{IsUnkept};

use heavy_host::FileSource;
use heavy_inputs::{Inputs, OpenFile, OpenInput, Reader};
use hh_faults::ToolError;
use hh_pieces::ReadAt;
use hh_records::Layout;
use hh_stream::KeyHash;
use std::io::Read;

/// What gives the bytes of the files that a command line names, and of standard input, whose name
/// is `-`.
pub trait Host: FileSource {
    /// An input of records that is open.
    type Input: Drop;
    /// What reads an input once.
    type Reader: Read + Drop;
    /// What reads an input at any place, as often as is wanted.
    type File: ReadAt + Sync + Drop;

    // the bytes of an open input, where they are known
    ghost text: { Self.Input → Option (List ℕ) };

    // the input with this name is opened with these bytes, where they are known; standard input may
    // have been taken by an input before
    ghost opens: { Self → Bool → List ℕ → Option (List ℕ) → Type 0 };

    // the input with this name and number is not opened with this fault
    ghost unopened: { Self → List ℕ → ℕ → ToolError → Type 0 };

    /// Opens the input with this name. Its number is its place among the files of the command line,
    /// from 1 on, and 0 where it has none. Standard input is empty where one before took it.
    fn open(&self, name: &[u8], number: u64, is_taken: bool) -> Result<Self::Input, ToolError>
        ensures opened { IfOk result (λ input. opens self.now is_taken name.now (text input)) }
        ensures refused { IfErr result (unopened self.now name.now number) };

    /// Whether an open input can be read at any place as it is.
    fn is_disk_file(&self, input: &Self::Input) -> bool;

    /// What reads an open input once.
    fn reader(&self, input: Self::Input) -> Self::Reader
        ensures text { Self.Reader.remaining result ≡ text input };

    /// Makes what reads an open `input` at any place. If it can be read only once, it is read to
    /// its end here, and kept. A read that fails on the way is no error of this call: then
    /// [`is_whole`](Host::is_whole) is false. The error is that what was read can't be kept.
    fn source(&self, input: Self::Input) -> Result<Self::File, ToolError>
        ensures text { IfOk result (λ file. IfSome (text input) (λ bytes.
            IfSome (Self.File.bytes file) (λ known. known ≡ bytes))) }
        ensures refused { IfErr result IsUnkept };

    /// Whether all bytes of `file` could be read when it was made. If not, reading it fails after
    /// those that it has.
    fn is_whole(&self, file: &Self::File) -> bool
        ensures part { result ≡ false → Self.File.bytes file.now ≡ None };

    /// Watches how many bad records a reading by `layout` counts as its key, for the line on them
    /// that is printed at the end.
    fn watch_bad(&self, layout: &Layout);

    /// How keys are hashed in this run.
    fn hash(&self) -> KeyHash;
}

/// The machine that the program runs on. No contract knows the bytes of its files.
impl<'a> Host for Inputs<'a> {
    type Input = OpenInput;

    type Reader = Reader<'a>;

    type File = OpenFile<'a>;

    ghost use Rattle.std.specs.Prelude.{⊤};
    ghost use Rattle.heavy_host.specs.Opening.{FailsToOpen};

    ghost text = { λ _. None };

    ghost opens = { λ _ _ _ _. ⊤ };

    ghost unopened = { λ _. FailsToOpen };

    fn open(&self, name: &[u8], number: u64, is_taken: bool) -> Result<OpenInput, ToolError> {
        Inputs::open(*self, name, number, is_taken)
    }

    fn is_disk_file(&self, input: &OpenInput) -> bool {
        input.is_disk_file()
    }

    fn reader(&self, input: OpenInput) -> Reader<'a> {
        Inputs::reader(*self, input)
    }

    fn source(&self, input: OpenInput) -> Result<OpenFile<'a>, ToolError> {
        Inputs::source(*self, input)
    }

    fn is_whole(&self, file: &OpenFile<'a>) -> bool {
        file.is_whole()
    }

    fn watch_bad(&self, layout: &Layout) {
        self.notes.bad.watch(layout);
    }

    /// Words of this run, where the system has random numbers for them, and else those that all
    /// runs have.
    fn hash(&self) -> KeyHash {
        KeyHash::random(self.rt).unwrap_or(KeyHash::fixed())
    }
}
