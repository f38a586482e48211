// How a program ends.
ghost use Rattle.std.specs.Prelude.{◌≡◌, is_ok, if◌then◌else◌};
ghost use Rattle.std.specs.Process.{exit_status};

use std::process::ExitCode;

// The status that a program ends with. An error is told first, behind the program's name.
pub fn end(rt: &HostRuntime, program: &str, outcome: anyhow::Result<()>) -> ExitCode
    ensures { exit_status result ≡ (if is_ok outcome then 0 else 1) }
{
    let Err(error) = outcome else {
        return ExitCode::SUCCESS;
    };
    // Where the message cannot be written, the status still tells.
    let _ = eprintln!(rt; "{program}: {error}");
    ExitCode::FAILURE
}
