// Why there is no line.
ghost use Rattle.std.specs.Prelude.{◌≡◌};
ghost use Rattle.run.specs.Failures.{is_usage, number_of};

use std::io;
use text::program::LoadError;
use text::report::Report;
use thiserror::Error;

const USAGE: &str =
    "usage: run FILE K    (FILE: a program, K: a number of steps from 0 to 4294967296)";

#[derive(Debug, Drop, Error)]
pub enum Failure {
    #[error("the arguments cannot be read: {0}")]
    Call(io::Error),
    #[error("a program file and a number of steps are wanted")]
    Arguments,
    #[error("K is no number from 0 to 4294967296")]
    Steps,
    #[error("{0}: {1}")]
    File(String, io::Error),
    #[error("{0}: {1}")]
    Program(String, LoadError),
    #[error("the line cannot be printed: {0}")]
    Output(io::Error),
}

impl Failure {
    // Whether the call was wrong.
    fn is_usage(&self) -> bool
        ensures { result ≡ is_usage self.now }
    {
        !matches!(self, Failure::Program(_, _) | Failure::Output(_))
    }

    // The rules give a bad program's number, and no other failure's.
    fn number(&self) -> Option<u8>
        ensures { result ≡ number_of self.now }
    {
        match self {
            Failure::Program(_, e) => e.number(),
            _ => None,
        }
    }
}

impl From<Failure> for Report<Failure> {
    fn from(failure: Failure) -> Report<Failure> {
        Report {
            program: "run",
            usage: failure.is_usage().then_some(USAGE),
            number: failure.number(),
            reason: failure,
        }
    }
}
