//! The exit status after a command line that starts nothing.
ghost use Rattle.std.specs.Prelude.{◌≡◌, ◌⊎◌, true, false};
ghost use Rattle.std.specs.Process.{exit_status};
ghost use Rattle.clap.specs.Words.{kind_of};
ghost use Rattle.command_line.specs.Options.{status};
ghost use Rattle.command_line.specs.Options as options;

use clap::Error;
use clap::error::ErrorKind;
use std::io;
use std::process::ExitCode;

/// 0 after `--help` and `--version`, 1 if memory ran out, else 2.
pub fn status_of(error: &Error) -> ExitCode
    ensures { exit_status result ≡ status (kind_of error.now) }
{
    match error.kind() {
        ErrorKind::DisplayHelp | ErrorKind::DisplayVersion => ExitCode::SUCCESS,
        ErrorKind::OutOfMemory => ExitCode::FAILURE,
        _ => ExitCode::from(2),
    }
}

fn is_text(kind: ErrorKind) -> bool
    ensures { result ≡ options.is_text kind }
{
    matches!(kind, ErrorKind::DisplayHelp | ErrorKind::DisplayVersion)
}

/// Prints the help, the version or the fault, and returns the exit status. A fault is printed after the program's name.
/// If the help or the version cannot be printed, the status is 1; a fault keeps its status even if standard error is
/// closed.
pub fn report<R: Print + Eprint + AllocGlobal>(rt: &R, program: &str, error: &Error) -> ExitCode
    ensures fault { options.is_text (kind_of error.now) ≡ false
        → exit_status result ≡ status (kind_of error.now) }
    ensures text { options.is_text (kind_of error.now) ≡ true
        → (exit_status result ≡ 0) ⊎ (exit_status result ≡ 1) }
{
    if is_text(error.kind()) {
        return match error.print(rt) {
            Ok(()) => status_of(error),
            Err(_) => ExitCode::FAILURE,
        };
    }
    let _told = print_fault(rt, program, error);
    status_of(error)
}

/// Prints a fault with the program's name in place of clap's `error`.
fn print_fault<R: Eprint + AllocGlobal>(rt: &R, program: &str, error: &Error) -> io::Result<()> {
    let text = match format!(in rt.alloc(); "{error}") {
        Ok(text) => text,
        Err(_) => return eprintln!(rt; "{program}: out of memory"),
    };
    let fault = text.as_str();
    eprint!(rt;
        "{program}: {}",
        fault.strip_prefix("error: ").unwrap_or(fault)
    )
}
