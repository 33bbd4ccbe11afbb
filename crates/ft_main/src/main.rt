//! The program `ft4sh`: an SQL shell with full-text tables.
#![tactic(auto)]

use ft_program::process::run;
use std::io::{ErrorKind, Write};
use std::process::ExitCode;

// Why there are no words.
fn words_fault(kind: ErrorKind) -> &'static str {
    match kind {
        ErrorKind::OutOfMemory => "out of memory",
        _ => "arguments are not UTF-8",
    }
}

fn main(rt: HostRuntime) -> ExitCode {
    match run(&rt) {
        Ok(status) => ExitCode::from(status),
        Err(error) => {
            let _ = writeln!(rt.stderr(), "ft4sh: {}", words_fault(error.kind()));
            ExitCode::from(2)
        }
    }
}
