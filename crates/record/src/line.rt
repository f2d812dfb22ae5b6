// A line as it comes in, byte by byte, of which no more is held than the longest line has.
ghost use Rattle.std.specs.Prelude.{◌≡◌, [], ◌∷◌, ◌++◌, length, OnOk, OnErr, Some, IsTrue, ◌↔◌, ◌==◌};
ghost use Rattle.std.specs.Option.{option_map};
ghost use Rattle.merkle.specs.Bytes.{Bytes};
ghost use Rattle.record.specs.Held.{Holds, nothing, bounded, pushed, whole_line};

use std::alloc::{AllocError, Global};
use std::marker::Model;

// A step in hexadecimal after the word and a space, and a CR.
const LONGEST: usize = 2155;

// The bytes of a line so far, up to the longest line's, and whether there were more.
// A flag beside the buffer, so that a line that is too long leaves it to the next.
#[derive(Drop)]
pub struct Line {
    bytes: Vec<u8>,
    long: bool,
}

impl Model for Line {
    ghost use Rattle.std.specs.Prelude.{◌≡◌, ◌≤◌, IsTrue, vec_items, vec_len};
    ghost use Rattle.record.specs.Held.{Held};

    ghost Value = { Held };

    ghost view = { λ l. record { first = vec_items l.bytes; long = l.long } };

    ghost invariant = { λ l. (vec_len l.bytes ≤ 2155) × (IsTrue l.long → vec_len l.bytes ≡ 2155) };
}

impl Line {
    #[tactic(auto, unfolding(crate::specs::Held::holding))]
    pub fn new(heap: Global) -> Line
        ensures value { result ≡ nothing }
        ensures holds { Holds result [] }
    {
        Line {
            bytes: Vec::new(heap),
            long: false,
        }
    }

    // Another line begins.
    #[tactic(auto, unfolding(crate::specs::Held::holding))]
    pub fn clear(&mut self)
        ensures value { self.new ≡ nothing }
        ensures holds { Holds self.new [] }
    {
        self.bytes.clear();
        self.long = false;
    }

    // The line goes on with a byte.
    pub fn push(&mut self, byte: u8) -> Result<(), AllocError>
        ensures value { OnOk result (self.new ≡ pushed self.old byte) }
        ensures holds { OnOk result ((bs : Bytes) → Holds self.old bs → Holds self.new (bs ++ byte ∷ [])) }
        ensures failed { OnErr result (self.new ≡ self.old) }
    {
        if self.bytes.len() < LONGEST {
            self.bytes.push(byte)?;
        } else {
            self.long = true;
        }
        Ok(())
    }

    // Whether nothing of it has come.
    pub fn is_empty(&self) -> bool
        ensures value { IsTrue result ↔ whole_line self.now ≡ Some [] }
        ensures holds { (bs : Bytes) → Holds self.now bs → result ≡ (length bs == 0) }
    {
        self.bytes.is_empty()
    }

    // The whole line; none where it is too long.
    pub(crate) fn text(&self) -> Option<&[u8]>
        ensures value { option_map (λ x. x.now) result ≡ whole_line self.now }
        ensures holds { (bs : Bytes) → Holds self.now bs → option_map (λ x. x.now) result ≡ bounded bs }
    {
        if self.long { None } else { Some(&self.bytes) }
    }
}
