// SHA-256 as the digest of words, pairs and states.
#![tactic(auto)]

ghost use Rattle.sha256.specs.Sha256.{sha256 as hashed};
ghost use Rattle.digests.specs.Bytes.{sha256_digest};

use merkle::{Digest, Digester};

// Remembers nothing of what it has digested.
#[derive(Clone, Copy)]
pub struct Sha256;

impl Digester for Sha256 {
    ghost hash = { hashed };

    ghost Seen = { Unit {0} };

    ghost seen = { λ _. tt };

    ghost adds = { λ _ _. tt };

    ghost whole = { sha256_digest };

    fn digest(&mut self, bytes: &[u8]) -> Digest {
        sha256::digest(bytes)
    }
}
