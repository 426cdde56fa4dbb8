//! The exit status of a run.

ghost use Rattle.std.specs.Prelude.{◌≡◌, IfErr, OnOk};
ghost use Rattle.std.specs.Process.{exit_status};
ghost use Rattle.hh_faults.specs.Status.{status_of};

use hh_faults::ToolError;
use std::process::ExitCode;

/// Gives the fault of an input that can't be read its `number`, where it has one.
pub fn numbered(fault: ToolError, number: u64) -> ToolError
    ensures { status_of result ≡ status_of fault }
{
    match fault {
        ToolError::ReadFault if number > 0 => ToolError::FileFault { number },
        _ => fault,
    }
}

/// Prints `fault`.
pub fn print_fault(rt: &HostRuntime, fault: &ToolError) {
    let _ = eprintln!(rt; "heavy: {fault}");
}

/// Prints `fault`, and gives its status.
pub fn status_after(rt: &HostRuntime, fault: ToolError) -> ExitCode
    ensures { exit_status result ≡ status_of fault }
{
    print_fault(rt, &fault);
    ExitCode::from(fault.status())
}

/// Gives the status of what came of what was asked for.
pub fn status_of(outcome: Result<(), ToolError>) -> ExitCode
    ensures done { OnOk outcome (exit_status result ≡ 0) }
    ensures refused { IfErr outcome (λ fault. exit_status result ≡ status_of fault) }
{
    match outcome {
        Ok(()) => ExitCode::SUCCESS,
        Err(fault) => ExitCode::from(fault.status()),
    }
}
