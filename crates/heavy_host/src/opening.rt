//! How the inputs that the command line names are opened, each once.

ghost use Rattle.std.specs.Prelude.{◌≡◌, ◌⊎◌, IfErr};
ghost use Rattle.heavy_host.specs.Opening.{FailsToOpen, names_standard};

use crate::unread::Unread;
use hh_faults::ToolError;
use std::fs::File;
use std::io;

/// Whether `name` is that of standard input.
pub fn is_standard(name: &[u8]) -> bool
    ensures { result ≡ names_standard name.now }
{
    match name {
        [byte] => *byte == b'-',
        _ => false,
    }
}

/// Opens the file `name` with its `number`. Where it can't be opened, `unread` has the reason.
pub fn open_file(
    rt: &HostRuntime,
    name: &[u8],
    number: u64,
    unread: &Unread,
) -> Result<File, ToolError>
    ensures refused { IfErr result (λ fault.
        (fault ≡ ToolError.Memory) ⊎ (fault ≡ ToolError.FileFault number)) }
{
    let Ok(path) = str::from_utf8(name) else {
        return Err(ToolError::FileFault { number });
    };
    match File::open(rt, path) {
        Ok(file) => Ok(file),
        Err(error) if matches!(error.kind(), io::ErrorKind::OutOfMemory) => Err(ToolError::Memory),
        Err(error) => {
            unread.note(number, &error);
            Err(ToolError::FileFault { number })
        }
    }
}

/// What the name of an input stands for.
#[derive(Drop)]
pub enum Named {
    Standard,
    /// Standard input once more, of which the first one takes all.
    Nothing,
    File(File),
}

/// Opens the input `name` with its `number`. Standard input is empty where it `is_taken`. Where a
/// file can't be opened, `unread` has the reason.
pub fn open_input(
    rt: &HostRuntime,
    name: &[u8],
    number: u64,
    is_taken: bool,
    unread: &Unread,
) -> Result<Named, ToolError>
    ensures refused { IfErr result (FailsToOpen name.now number) }
{
    match (is_standard(name), is_taken) {
        (true, true) => Ok(Named::Nothing),
        (true, false) => Ok(Named::Standard),
        (false, _) => Ok(Named::File(open_file(rt, name, number, unread)?)),
    }
}
