//! What the calls have in common that pass over items or records by the summary of a handle: each
//! is the call of the library on the value's saved file.

ghost use Rattle.std.specs.Prelude.{◌≡◌, ◌≢◌, ℕ, List, Option, None, IfErr, IfOk, IsOk};
ghost use Rattle.std.specs.Prelude.{MatchResult};
ghost use Rattle.hh_faults.specs.declared.error.ToolError.{ToolError};
ghost use Rattle.hh_faults.specs.declared.error.ToolError.TheVariants as tool;
ghost use Rattle.heavy_ffi.specs.declared.fault.Fault.{Fault as FaultView};
ghost use Rattle.heavy_ffi.specs.Outcomes.{AnswersAfter, AnswersOn, file_with};

use crate::fault::Fault;
use crate::handle::Heavy;
use crate::room::{USAGE, answer, answer_nothing};
use hh_faults::ToolError;
use std::alloc::Global;

/// A call on a saved file, with its other arguments.
pub(crate) trait FileCall: Drop {
    // what is wrong with its arguments
    ghost bad: { Self → Option FaultView };

    // what it gives by the file's bytes
    ghost gives: { Self → List ℕ → List ℕ → Type 0 };

    // what a refusal tells of them
    ghost refuses: { Self → List ℕ → ToolError → Type 0 };

    /// Tells what is wrong with the arguments.
    fn test(&self) -> Option<Fault>
        ensures { result ≡ bad self.now };

    /// Makes the bytes that the call gives, from the bytes of a saved `file`.
    fn make_bytes(self, alloc: Global, file: &[u8]) -> Result<Vec<u8>, ToolError>
        requires { bad self ≡ None }
        ensures given { IfOk result (λ bytes. gives self file.now bytes.items) }
        ensures refused { IfErr result (refuses self file.now) };

    // memory may be refused at any time
    ghost memory: { (call : Self) (file : List ℕ) → refuses call file tool.Memory };
}

/// What a call gives by a file that was made, or the refusal of either.
fn bytes_by<C: FileCall>(
    alloc: Global,
    call: C,
    file: Result<Vec<u8>, ToolError>,
) -> Result<Vec<u8>, ToolError>
    requires { C.bad call ≡ None }
    ensures given { IfOk result (λ bytes. IfOk file (λ file. C.gives call file.items bytes.items)) }
    ensures made { IfOk result (λ bytes. IsOk file) }
    ensures refused { IfErr result (λ refusal. MatchResult file
        (λ file. C.refuses call file.items refusal) (λ other. refusal ≡ other)) }
{
    match file {
        Ok(file) => call.make_bytes(alloc, &file),
        Err(refusal) => Err(refusal),
    }
}

/// The answer of a call on the saved file of the value that `heavy` has and keeps.
pub(crate) fn answer_by_file<C: FileCall>(
    alloc: Global,
    heavy: &mut Heavy,
    call: C,
    out: &mut [u8],
    needed: &mut usize,
    fault: &mut Fault,
) -> u32
    ensures answers { AnswersAfter (C.bad call) (λ status. AnswersOn heavy.old.place.value
        (λ value. C.gives call (file_with value)) (λ value. C.refuses call (file_with value))
        status out.old) result out.old out.new needed.new fault.new }
    ensures kept { heavy.new.place.value ≡ heavy.old.place.value }
    ensures no_bytes { result ≢ 0 → result ≢ 5 → needed.new ≡ 0 }
{
    if let Some(bad) = call.test() {
        *needed = 0;
        *fault = bad;
        return USAGE;
    }
    match heavy.saved(alloc) {
        Some(file) => answer(bytes_by(alloc, call, file), out, needed, fault),
        None => answer_nothing(needed, fault),
    }
}
