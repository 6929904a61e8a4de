// Reads a model and formulas from standard input, and prints the listing: the verdict on each
// formula, and a path that shows it.
#![tactic(auto)]

use std::io;
use std::io::ErrorKind;
use std::process::ExitCode;

// Prints the listing of standard input. What went wrong is told in one line on standard error; a
// reader that has closed the output wants no more of it.
fn main(rt: HostRuntime) -> io::Result<ExitCode> {
    match listing::run(rt.alloc(), rt.stdin(), &mut rt.stdout()) {
        Ok(()) => Ok(ExitCode::SUCCESS),
        Err(error) if error.kind() == ErrorKind::BrokenPipe => Ok(ExitCode::SUCCESS),
        Err(error) => {
            eprintln!(rt; "actlw: {error}")?;
            Ok(ExitCode::FAILURE)
        }
    }
}
