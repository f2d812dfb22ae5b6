// A shown step as bytes, the body of message 6: numbers high byte first, digests as they are.
ghost use Rattle.std.specs.Prelude.{◌≡◌, Some};
ghost use Rattle.witness.specs.Wire.{parse, opening_from, opening_bytes, witness_bytes};

use crate::Witness;
use merkle::{LEVELS, Opening};

// A word (4 bytes) and sixteen digests (32 each).
const OPENING: usize = 516;

// Place and register (4 bytes each), the memory's digest (32), and two openings.
const LENGTH: usize = 1072;

// The opening in its bytes.
fn opening(bytes: &[u8; OPENING]) -> Opening
    ensures { result ≡ opening_from bytes.now }
{
    let (word, siblings) = bytes.split_first_chunk::<4>().unwrap();
    Opening {
        word: u32::from_be_bytes(*word),
        siblings: *siblings.as_chunks::<32>().0.as_array::<LEVELS>().unwrap(),
    }
}

// The bytes of an opening.
fn bytes_of(opening: &Opening) -> [u8; OPENING]
    ensures { result ≡ opening_bytes opening.now }
{
    let mut bytes = [0; OPENING];
    bytes[0..4].copy_from_slice(&opening.word.to_be_bytes());
    bytes[4..516].copy_from_slice(opening.siblings.as_flattened());
    bytes
}

impl Witness {
    // The witness in the body of a message, where it is 1,072 bytes long.
    // No TryFrom: of a body of another length there is nothing more to say.
    pub fn from_bytes(bytes: &[u8]) -> Option<Witness>
        ensures { result ≡ parse 6 bytes.now }
    {
        let (place, rest) = bytes.split_first_chunk::<4>()?;
        let (register, rest) = rest.split_first_chunk::<4>()?;
        let (memory, rest) = rest.split_first_chunk::<32>()?;
        let (instruction, rest) = rest.split_first_chunk::<OPENING>()?;
        let operand = rest.as_array::<OPENING>()?;
        Some(Witness {
            place: u32::from_be_bytes(*place),
            register: u32::from_be_bytes(*register),
            memory: *memory,
            instruction: opening(instruction),
            operand: opening(operand),
        })
    }

    // The body of a message that shows this; it is read as it was meant. Named like the numbers' own `to_be_bytes`.
    pub fn to_bytes(&self) -> [u8; LENGTH]
        ensures value { result ≡ witness_bytes self.now }
        ensures reads { parse 6 result ≡ Some self.now }
    {
        self.shape();
        // Each part at its place, since the library joins arrays only on the heap.
        let mut bytes = [0; LENGTH];
        bytes[0..4].copy_from_slice(&self.place.to_be_bytes());
        bytes[4..8].copy_from_slice(&self.register.to_be_bytes());
        bytes[8..40].copy_from_slice(&self.memory);
        let openings = [bytes_of(&self.instruction), bytes_of(&self.operand)];
        bytes[40..1072].copy_from_slice(openings.as_flattened());
        bytes
    }
}
