ghost use Rattle.std.specs.Prelude.{◌≡◌, if◌then◌else◌, is_ok};
ghost use Rattle.std.specs.Process.{exit_status};

use std::fmt;
use std::process::ExitCode;

/// How a program ends: with 0, or with 1 where it failed, and then it says on standard error why.
pub fn ended<R: Eprint, F: fmt::Display + Drop>(rt: &R, outcome: Result<(), F>) -> ExitCode
    ensures { exit_status result ≡ (if is_ok outcome then 0 else 1) }
{
    let Err(failure) = outcome else {
        return ExitCode::SUCCESS;
    };
    // Where this cannot be written there is nothing left to say it to.
    let _ = rt.eprintln(failure);
    ExitCode::FAILURE
}
