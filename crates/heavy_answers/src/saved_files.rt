//! Saved files, of which sealed ones are opened.

ghost use Rattle.std.specs.Prelude.{◌≡◌, Ok, Some, IfErr, IfOk, map};
ghost use Rattle.hh_seals.specs.Opening.{unsealed};
ghost use Rattle.heavy_host.specs.Files.{AreRead};
ghost use Rattle.heavy_answers.specs.Answers.{gives_saved, opens_file};
ghost use Rattle.heavy_answers.specs.Refusals.{IsUnread, SealFails, SealsFail};
ghost use Rattle.heavy_requests.specs.Request.{first_file};

use crate::host::Host;
use crate::opening::push_to;
use heavy_host::read_file;
use heavy_requests::Asked;
use hh_faults::ToolError;
use hh_seals::unsealed;
use std::alloc::Global;

/// Opens the saved file in `bytes`, which has this `number`: the spelling that it seals, or all
/// bytes where it isn't sealed.
fn opened(alloc: Global, number: u64, bytes: &[u8]) -> Result<Vec<u8>, ToolError>
    ensures opened { IfOk result (λ file. unsealed bytes.now ≡ Ok file.items) }
    ensures refused { IfErr result (SealFails number bytes.now) }
{
    match unsealed(bytes) {
        Ok(spelling) => Ok(Vec::from_slice(alloc, spelling)?),
        Err(fault) => Err(ToolError::BadFile { number, fault }),
    }
}

/// Reads the first saved file that `asked` names, and opens it.
pub(crate) fn saved_file<H: Host>(host: &H, asked: &Asked) -> Result<Vec<u8>, ToolError>
    ensures read { IfOk result (λ file.
        gives_saved (H.gives host.now) (first_file asked.now) (Some file.items)) }
    ensures refused { IfErr result (IsUnread (H.gives host.now) asked.now) }
{
    let bytes = read_file(host, 1, asked.first_file())?;
    opened(host.alloc(), 1, &bytes)
}

/// Opens the saved `files`, in order. The error has the number of the first one whose seal is
/// wrong.
pub(crate) fn opened_files(alloc: Global, files: &[Vec<u8>]) -> Result<Vec<Vec<u8>>, ToolError>
    ensures opened { IfOk result (λ opened. AreRead opens_file
        (map (λ f. f.items) files.now) (map (λ f. f.items) opened.items)) }
    ensures refused { IfErr result (SealsFail (map (λ f. f.items) files.now)) }
{
    let mut saved = Vec::new(alloc);
    for (i, file) in files.iter().enumerate() {
        push_to(&mut saved, opened(alloc, i as u64 + 1, file)?)?;
    }
    Ok(saved)
}
