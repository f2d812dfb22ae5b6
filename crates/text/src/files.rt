// Files that the programs read.
ghost use Rattle.std.specs.Prelude.{◌≤◌, IfOk, vec_len};

use machine::WORDS;
use std::io::Read;
use std::rt::Files;
use std::{fs, io};

// One word more than a program has: whoever has read so much knows that a file is too long.
const MOST: usize = 4 * (WORDS + 1);

// The bytes of a file, or its first 262,148 where it has more.
pub fn read<R: Files + Alloc>(rt: &R, path: &str) -> io::Result<Vec<u8, R::A>>
    ensures { IfOk result (λ v. vec_len v ≤ 262148) }
{
    let file = fs::open(rt, path)?;
    let mut bytes = Vec::new(rt.alloc());
    file.take(MOST as u64).read_to_end(&mut bytes)?;
    // Behind take nothing is left to cut off: it stands since the bound is proved by it.
    bytes.truncate(MOST);
    Ok(bytes)
}
