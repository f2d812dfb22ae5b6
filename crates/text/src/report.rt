// What a program tells of its failure, and the status that it ends with.
ghost use Rattle.std.specs.Prelude.{◌≡◌, is_ok, if◌then◌else◌};
ghost use Rattle.std.specs.Process.{exit_status};

use std::fmt::Display;
use std::process::ExitCode;

// Why a program stops; the usage where it helps, and the number that goes to standard output, if there is one.
#[derive(Drop)]
pub struct Report<E> {
    pub program: &'static str,
    pub reason: E,
    pub usage: Option<&'static str>,
    pub number: Option<u8>,
}

// The reason and the usage on standard error; the number on standard output.
fn tell<E: Display + Drop>(rt: &HostRuntime, report: &Report<E>) {
    let _ = eprintln!(rt; "{}: {}", report.program, report.reason);
    if let Some(usage) = report.usage {
        let _ = eprintln!(rt; "{usage}");
    }
    if let Some(number) = report.number {
        let _ = println!(rt; "{number}");
    }
}

// The status of a program with this outcome: 0, or 1 where it failed, which is told.
pub fn status<E: Display + Drop>(rt: &HostRuntime, outcome: Result<(), Report<E>>) -> ExitCode
    ensures { exit_status result ≡ (if is_ok outcome then 0 else 1) }
{
    match outcome {
        Ok(()) => ExitCode::SUCCESS,
        Err(report) => {
            tell(rt, &report);
            ExitCode::FAILURE
        }
    }
}
