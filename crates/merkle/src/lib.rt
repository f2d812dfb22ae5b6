// Digests of a memory of words, over any digest of byte strings: what is digested, the memory's own digest, and openings of single words.
#![tactic(auto)]

ghost use Rattle.std.specs.Prelude.{◌≡◌, ℕ, List};
ghost use Rattle.merkle.specs.Bytes.{Whole};

mod opening;
mod preimage;
pub mod shape;
mod tree;

pub use opening::Opening;
pub use preimage::{Preimage, state_digest, state_preimage};
pub use tree::memory_digest;

pub type Digest = [u8; 32];

// How often the words of a memory are joined in pairs, and so how many siblings stand beside a way up.
pub const LEVELS: usize = 16;

// A digest of byte strings, and what it has seen of them: how many, or which, as an implementation chooses.
pub trait Digester {
    ghost hash: { List ℕ → List ℕ };

    ghost Seen: { Type 0 };

    // No one fact: each call that digests adds other strings, and has a clause on them.
    ghost seen: { Self → Seen };

    ghost adds: { Seen → List ℕ → Seen };

    fn digest(&mut self, bytes: &[u8]) -> Digest
        ensures value { result ≡ hash bytes.now }
        ensures seen { seen self.new ≡ adds (seen self.old) bytes.now };

    ghost whole: { Whole hash };
}
