// referee: reads the lines of a case, and answers each by one line.
#![tactic(auto)]

mod failure;

use digests::Sha256;
use dispute::{Answer, Referee};
use failure::Failure;
use record::{Line, read_line};
use std::env;
use std::io::BufReader;
use std::process::ExitCode;
use text::report::{self, Report};

// Prints what became of a line, and how the case stands then.
fn print_answer(rt: &HostRuntime, answer: Answer, referee: &Referee) -> Result<(), Failure> {
    let line = record::answer(rt.alloc(), answer, &referee.case.phase)?;
    println!(rt; "{line}").map_err(Failure::Output)
}

// The referee takes no arguments.
fn no_arguments(rt: &HostRuntime) -> Result<(), Failure> {
    if env::args(rt)?.nth(1).is_some() {
        return Err(Failure::Arguments);
    }
    Ok(())
}

// Hears a case to the end of the input.
fn hear(rt: &HostRuntime) -> Result<(), Failure> {
    no_arguments(rt)?;
    let mut input = BufReader::new(rt.alloc(), rt.stdin())?;
    let mut line = Line::new(rt.alloc());
    if !read_line::<_, Failure>(&mut input, &mut line)? {
        return Err(Failure::NoCase);
    }
    let start = record::opening(rt.alloc(), &line)?.ok_or(Failure::NoCase)?;
    let mut referee = Referee::open(start);
    print_answer(rt, Ok(()), &referee)?;
    // It waits on input: its end ends the loop, never the count.
    for _ in 0..u64::MAX {
        if !read_line::<_, Failure>(&mut input, &mut line)? {
            return Ok(());
        }
        let (next, answer) = record::enter(rt.alloc(), referee, &mut Sha256, &line)?;
        referee = next;
        print_answer(rt, answer, &referee)?;
    }
    Ok(())
}

fn main(rt: HostRuntime) -> ExitCode {
    report::status(&rt, hear(&rt).map_err(Report::from))
}
