// What is read of the record.
use crate::failure::Failure;
use record::{Line, read_line};
use std::alloc::Global;
use std::io::{BufReader, Stdin};

// A line of the record, and the referee's answer to it.
#[derive(Drop)]
pub(crate) struct Exchange {
    pub(crate) line: Line,
    pub(crate) answer: Line,
}

impl Exchange {
    // Nothing has been read.
    pub(crate) fn new(heap: Global) -> Exchange {
        Exchange {
            line: Line::new(heap),
            answer: Line::new(heap),
        }
    }

    // Reads the next one; false at the end of the record, as `read_line` says it of a line.
    pub(crate) fn read(&mut self, input: &mut BufReader<Stdin>) -> Result<bool, Failure> {
        let more = read_line::<_, Failure>(input, &mut self.line)?;
        Ok(more && read_line::<_, Failure>(input, &mut self.answer)?)
    }
}
