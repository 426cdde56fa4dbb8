//! The files that the command line names.

ghost use Rattle.std.specs.Prelude.{◌≡◌, ◌⊎◌, ◌∷◌, ◌++◌, [], List, ℕ, Option, Some, None, Ok, Err};
ghost use Rattle.std.specs.Prelude.{IfOk, IfErr, OnOk, map, option_map};
ghost use Rattle.heavy_host.specs.Files.{AreRead, TellsFile};

use hh_faults::ToolError;
use std::alloc::{AllocError, Global};

/// Where files come from, each by its name.
pub trait FileSource {
    /// The file with this name has these bytes, or it can't be read.
    ghost gives: { Self → List ℕ → Option (List ℕ) → Type 0 };

    /// The bytes of the file with this name, or None where it can't be read.
    fn bytes(&self, name: &[u8]) -> Result<Option<Vec<u8>>, AllocError>
        ensures { IfOk result (λ file.
            gives self.now name.now (option_map (λ bytes. bytes.items) file)) };

    /// The memory that the bytes stand in.
    fn alloc(&self) -> Global;
}

/// The bytes of a file with its number, from 1 on. Where it can't be read, the error is
/// [`ToolError::FileFault`].
pub fn read_file<F: FileSource>(source: &F, number: u64, name: &[u8]) -> Result<Vec<u8>, ToolError>
    ensures read { IfOk result (λ bytes. F.gives source.now name.now (Some bytes.items)) }
    ensures fault { IfErr result (λ fault. (fault ≡ ToolError.Memory)
        ⊎ ((fault ≡ ToolError.FileFault number) × F.gives source.now name.now None)) }
{
    match source.bytes(name)? {
        Some(bytes) => Ok(bytes),
        None => Err(ToolError::FileFault { number }),
    }
}

/// Puts a file after others, if it was read.
fn push_file(files: &mut Vec<Vec<u8>>, file: Result<Vec<u8>, ToolError>) -> Result<(), ToolError>
    ensures pushed { OnOk result ((bytes : _) × (file ≡ Ok bytes)
        × (files.new.items ≡ files.old.items ++ bytes ∷ [])) }
    ensures fault { IfErr result (λ fault. (fault ≡ ToolError.Memory) ⊎ (file ≡ Err fault)) }
{
    match files.push(file?) {
        Ok(()) => Ok(()),
        Err(_) => Err(ToolError::Memory),
    }
}

/// The bytes of files, in order. If one can't be read, the error is [`ToolError::FileFault`] with
/// its number, from 1 on.
pub fn read_files<F: FileSource>(source: &F, names: &[Vec<u8>]) -> Result<Vec<Vec<u8>>, ToolError>
    ensures read { IfOk result (λ files. AreRead (F.gives source.now)
        (map (λ w. w.items) names.now) (map (λ f. f.items) files.items)) }
    ensures fault { IfErr result
        (TellsFile (F.gives source.now) (map (λ w. w.items) names.now)) }
{
    let mut files = Vec::new(source.alloc());
    for (i, name) in names.iter().enumerate() {
        push_file(&mut files, read_file(source, i as u64 + 1, name))?;
    }
    Ok(files)
}
