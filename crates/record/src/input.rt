// Lines as they are read from an input.
ghost use Rattle.std.specs.Prelude.{◌≡◌, ◌-◌, ◌^◌, ◌<◌, false, [], length, drop, IfOk, IfSome, Some, slice_get};
ghost use Rattle.record.specs.Held.{ReadsLine, nothing};

use crate::Line;
use std::alloc::AllocError;
use std::io;
use std::io::BufRead;

// The next byte of an input; none at its end.
fn next_byte<R: BufRead>(input: &mut R) -> io::Result<Option<u8>>
    ensures { IfOk result (λ byte. IfSome (R.remaining input.old) (λ xs. (byte ≡ slice_get xs 0) × (R.remaining input.new ≡ Some (drop 1 xs)))) }
{
    let byte = input.fill_buf()?.first().copied();
    if byte.is_some() {
        input.consume(1);
    }
    Ok(byte)
}

// After 2^64 - 1 bytes with no line feed, of which no input has so many, the input reads as ended.
// Apart from `read_line`, which with this inside took a tenth longer over a line without end.
#[cold]
#[inline(never)]
fn gives_up(line: &mut Line) -> bool
    ensures end { result ≡ false }
    ensures line { line.new ≡ nothing }
{
    line.clear();
    false
}

// Reads a line; false at the end of the input. The last line may lack its line feed.
// A bool and no Option of the line, which the caller holds and lends again.
// It goes byte by byte, since of a line that is too long no more is held.
pub fn read_line<R: BufRead, E: From<io::Error> + From<AllocError>>(
    input: &mut R,
    line: &mut Line,
) -> Result<bool, E>
    ensures known { IfOk result (λ more. IfSome (R.remaining input.old) (λ xs. length xs < 2 ^ 64 - 1 → ReadsLine xs (R.remaining input.new) more line.new)) }
    ensures end { IfOk result (λ more. more ≡ false → line.new ≡ nothing) }
{
    line.clear();
    // It waits on input: the line ends the loop, never the count.
    for _ in 0..u64::MAX {
        match next_byte(input)? {
            Some(b'\n') => return Ok(true),
            Some(byte) => line.push(byte)?,
            None => return Ok(!line.is_empty()),
        }
    }
    Ok(gives_up(line))
}
