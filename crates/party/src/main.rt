// party FILE claimer N, party FILE doubter: plays a side of a case by its own run.
#![tactic(auto)]

mod failure;
mod input;
mod seat;

use digests::Sha256;
use failure::Failure;
use input::Exchange;
use parties::{Player, Role};
use seat::Seat;
use std::env;
use std::io::BufReader;
use std::process::ExitCode;
use text::report::{self, Report};
use text::{files, number, program};

fn claimer(n: &str) -> Result<Role, Failure> {
    number::parse(n.as_bytes(), 32)
        .filter(|n| *n >= 1)
        .map(|n| Role::Claimer(n as u8))
        .ok_or(Failure::Exponent)
}

// The program file and the side.
fn arguments(rt: &HostRuntime) -> Result<(String, Role), Failure> {
    let mut words = env::args(rt)?.skip(1);
    let (Some(file), Some(side), n, None) = (words.next(), words.next(), words.next(), words.next())
    else {
        return Err(Failure::Arguments);
    };
    let role = match (side.as_str(), n) {
        ("claimer", Some(n)) => claimer(n.as_str())?,
        ("doubter", None) => Role::Doubter,
        _ => return Err(Failure::Arguments),
    };
    Ok((file, role))
}

// The program in a file.
fn load(rt: &HostRuntime, path: String) -> Result<Vec<u32>, Failure> {
    // A match, since the path goes into whichever error comes.
    match files::read(rt, path.as_str()) {
        Ok(file) => program::load(rt.alloc(), &file).map_err(|e| Failure::Program(path, e)),
        Err(e) => Err(Failure::File(path, e)),
    }
}

// The party, before the record begins.
fn enlist(rt: &HostRuntime) -> Result<Seat<'_>, Failure> {
    let (path, role) = arguments(rt)?;
    let program = load(rt, path)?;
    // There is always one: N and the program's size were seen to before.
    let player = Player::new(rt.alloc(), &mut Sha256, role, program)?.ok_or(Failure::Exponent)?;
    Ok(Seat { rt, player })
}

// Plays to the end of the case or of the record.
fn play(rt: &HostRuntime) -> Result<(), Failure> {
    let mut seat = enlist(rt)?;
    seat.speak()?;
    let mut input = BufReader::new(rt.alloc(), rt.stdin())?;
    let mut exchange = Exchange::new(rt.alloc());
    // It waits on input: the record ends the loop, never the count.
    for number in (1..u64::MAX).step_by(2) {
        if !exchange.read(&mut input)? {
            return Ok(());
        }
        if number == 1 && seat.opens(&exchange)? {
            continue;
        }
        seat.follow(&exchange, number)?;
        if seat.is_over() {
            return Ok(());
        }
    }
    Ok(())
}

fn main(rt: HostRuntime) -> ExitCode {
    report::status(&rt, play(&rt).map_err(Report::from))
}
