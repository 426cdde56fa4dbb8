//! How a file is replaced as a whole: a new one is written beside it, and takes its name.

ghost use Rattle.std.specs.Prelude.{◌≡◌, [], ℕ, Bool, List, Option, true, IfErr, IfOk, OnOk};
ghost use Rattle.std.specs.Io.KnownBytes.{Keeps};
ghost use Rattle.heavy_host.specs.Replacing.{IsReplaced, IsUnwritten};

use hh_faults::ToolError;
use std::io::{self, Write};

/// A file that a new one replaces.
pub trait Replaced {
    /// The new file while it is written.
    type New: Write + Drop;
    /// The new file once the disk has all its bytes.
    type Flushed: Drop;

    // the bytes of the file, where they are known; one that isn't there has none
    ghost holds: { Self → Option (List ℕ) };

    // the bytes of a new file, where they are known
    ghost text: { Self.Flushed → Option (List ℕ) };

    // whether no new file stands beside the file
    ghost is_alone: { Self → Bool };

    /// Makes an empty new file beside the file.
    fn create(&mut self) -> io::Result<Self::New>
        ensures empty { IfOk result (λ new. IsReplaced (holds self.old) (Self.New.contents new) []) }
        ensures kept { Keeps (holds self.old) (holds self.new) };

    /// Flushes `new` to the disk.
    fn flush(&self, new: Self::New) -> io::Result<Self::Flushed>
        ensures same { IfOk result (λ flushed. text flushed ≡ Self.New.contents new) };

    /// Gives `new` the file's name, in one step. The disk has all its bytes.
    fn put(&mut self, new: Self::Flushed) -> io::Result<()>
        ensures replaced { OnOk result (holds self.new ≡ text new) }
        ensures kept { IfErr result (λ _. Keeps (holds self.old) (holds self.new)) }
        ensures alone { OnOk result (is_alone self.new ≡ true) };

    /// Removes the new file, where one stands beside the file.
    fn remove(&mut self)
        ensures kept { Keeps (holds self.old) (holds self.new) }
        ensures alone { is_alone self.new ≡ true };

    /// Gives the fault that the `error` of one of these calls is.
    fn fault(&self, error: &io::Error) -> ToolError
        ensures unwritten { IsUnwritten result };
}

/// Writes `bytes` to a new file, and puts it in the place of `file`. A new file that can't be put
/// there is left beside it.
#[tactic(auto, using(crate::proofs::ReplacingLemmas::IsReplaced_written))]
fn write_new<R: Replaced>(file: &mut R, bytes: &[u8]) -> io::Result<()>
    ensures replaced { OnOk result (IsReplaced (R.holds file.old) (R.holds file.new) bytes.now) }
    ensures kept { IfErr result (λ _. Keeps (R.holds file.old) (R.holds file.new)) }
    ensures alone { OnOk result (R.is_alone file.new ≡ true) }
{
    let mut new = file.create()?;
    new.write_all(bytes)?;
    let flushed = file.flush(new)?;
    file.put(flushed)
}

/// Replaces `file` by a new one with these `bytes`, which the disk has before the new one takes the
/// name. Where that fails, the file is as it was, and no new one stands beside it.
pub fn replace<R: Replaced>(file: &mut R, bytes: &[u8]) -> Result<(), ToolError>
    ensures replaced { OnOk result (IsReplaced (R.holds file.old) (R.holds file.new) bytes.now) }
    ensures refused { IfErr result IsUnwritten }
    ensures kept { IfErr result (λ _. Keeps (R.holds file.old) (R.holds file.new)) }
    ensures alone { R.is_alone file.new ≡ true }
{
    match write_new(file, bytes) {
        Ok(()) => Ok(()),
        Err(error) => {
            file.remove();
            Err(file.fault(&error))
        }
    }
}
