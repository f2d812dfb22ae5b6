// Why the referee stops.
use std::alloc::AllocError;
use std::io;
use text::report::Report;
use thiserror::Error;

const USAGE: &str =
    "usage: referee    (lines on standard input: case DIGEST, then claimer HEX, doubter HEX, day D)";

#[derive(Debug, Drop, Error)]
pub(crate) enum Failure {
    #[error("no arguments are wanted")]
    Arguments,
    #[error("the first line is not `case` and a digest of 64 hexadecimal digits")]
    NoCase,
    #[error("there is no memory for a line")]
    NoMemory(#[from] AllocError),
    #[error("the lines cannot be read: {0}")]
    Input(#[from] io::Error),
    #[error("the answer cannot be printed: {0}")]
    Output(io::Error),
}

impl From<Failure> for Report<Failure> {
    fn from(failure: Failure) -> Report<Failure> {
        let usage = matches!(failure, Failure::Arguments | Failure::NoCase);
        Report {
            program: "referee",
            usage: usage.then_some(USAGE),
            number: None,
            reason: failure,
        }
    }
}
