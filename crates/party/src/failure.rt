// Why a party stops before its case is over.
use std::alloc::AllocError;
use std::io;
use text::program::LoadError;
use text::report::Report;
use thiserror::Error;

const USAGE: &str =
    "usage: party FILE claimer N, or party FILE doubter    (FILE: a program, N: from 1 to 32; the record of the case on standard input)";

#[derive(Debug, Drop, Error)]
pub(crate) enum Failure {
    #[error("a program file and a side are wanted")]
    Arguments,
    #[error("N is no number from 1 to 32")]
    Exponent,
    #[error("there is no memory for the run")]
    NoMemory(#[from] AllocError),
    #[error("{0}: {1}")]
    File(String, io::Error),
    #[error("{0}: {1}")]
    Program(String, LoadError),
    #[error("line {0} of the record and its answer cannot be a referee's")]
    Record(u64),
    #[error("the record cannot be read: {0}")]
    Input(#[from] io::Error),
    #[error("the message cannot be printed: {0}")]
    Output(io::Error),
}

impl Failure {
    // Whether the call was wrong.
    fn is_usage(&self) -> bool {
        matches!(
            self,
            Failure::Arguments | Failure::Exponent | Failure::File(_, _)
        )
    }

    // The rules give a bad program's number, and no other failure's.
    fn number(&self) -> Option<u8> {
        match self {
            Failure::Program(_, e) => e.number(),
            _ => None,
        }
    }
}

impl From<Failure> for Report<Failure> {
    fn from(failure: Failure) -> Report<Failure> {
        Report {
            program: "party",
            usage: failure.is_usage().then_some(USAGE),
            number: failure.number(),
            reason: failure,
        }
    }
}
