// Digests to test with: a weak one, and one that counts.
ghost use Rattle.std.specs.Prelude.{◌≡◌, ℕ, ◌+◌, ◌%◌, ◌^◌};
ghost use Rattle.std.specs.List.{fold};
ghost use Rattle.checks.specs.Weak.{weak, weak_whole};

use merkle::{Digest, Digester};

// The sum of the bytes, modulo 256.
fn sum(bytes: &[u8]) -> u8
    ensures { result ≡ fold (λ s x. (s + x) % 256) 0 bytes.now }
{
    bytes.iter().fold(0, |sum, byte| sum.wrapping_add(*byte))
}

// A digest under which collisions are everywhere.
#[derive(Clone, Copy)]
pub struct Weak;

impl Digester for Weak {
    ghost hash = { weak };

    ghost Seen = { Unit {0} };

    ghost seen = { λ _. tt };

    ghost adds = { λ _ _. tt };

    ghost whole = { weak_whole };

    fn digest(&mut self, bytes: &[u8]) -> Digest {
        [sum(bytes); 32]
    }
}

// Any digest, and how often it was asked, modulo 2^64.
#[derive(Drop)]
pub struct Counted<D> {
    pub inner: D,
    pub count: u64,
}

impl<D: Digester> Digester for Counted<D> {
    ghost hash = { D.Digester.hash };

    ghost Seen = { ℕ };

    ghost seen = { λ s. s.count };

    ghost adds = { λ n _. (n + 1) % 2 ^ 64 };

    ghost whole = { D.Digester.whole };

    fn digest(&mut self, bytes: &[u8]) -> Digest {
        self.count = self.count.wrapping_add(1);
        self.inner.digest(bytes)
    }
}
