// run FILE K: the place, the register and the digest of a program's state after K steps.
#![tactic(auto)]

mod failure;

ghost use Rattle.std.specs.Prelude.{◌^◌, ◌≤◌, IfOk};

use digests::Sha256;
use failure::Failure;
use std::env;
use std::process::ExitCode;
use text::progress::Progress;
use text::report::{self, Report};
use text::{files, line, number};

const MOST_STEPS: u64 = 1 << 32;

// The program file and the number of steps.
fn arguments(rt: &HostRuntime) -> Result<(String, u64), Failure>
    ensures { IfOk result (λ call. call.1 ≤ 2 ^ 32) }
{
    let mut words = env::args(rt).map_err(Failure::Call)?.skip(1);
    let (Some(file), Some(steps), None) = (words.next(), words.next(), words.next()) else {
        return Err(Failure::Arguments);
    };
    let steps = number::parse(steps.as_bytes(), MOST_STEPS).ok_or(Failure::Steps)?;
    Ok((file, steps))
}

// The line to print.
fn answer(rt: &HostRuntime) -> Result<String, Failure> {
    let (path, steps) = arguments(rt)?;
    // A match, since the path goes into whichever error comes.
    match files::read(rt, path.as_str()) {
        Ok(file) => {
            let mut progress = Progress::new(rt, "run", steps);
            let line = line::after(rt.alloc(), &file, steps, &mut Sha256, &mut progress);
            line.map_err(|e| Failure::Program(path, e))
        }
        Err(e) => Err(Failure::File(path, e)),
    }
}

fn print_answer(rt: &HostRuntime) -> Result<(), Failure> {
    let line = answer(rt)?;
    println!(rt; "{line}").map_err(Failure::Output)
}

fn main(rt: HostRuntime) -> ExitCode {
    report::status(&rt, print_answer(&rt).map_err(Report::from))
}
