// The three kinds of strings that are digested, and their digests.
ghost use Rattle.std.specs.Prelude.{◌≡◌};
ghost use Rattle.merkle.specs.Bytes.{word_preimage, pair_preimage, state_preimage};
ghost use Rattle.merkle.specs.Tree.{parent_preimage};
ghost use Rattle.merkle.specs.Strings.{bytes_of};

use crate::{Digest, Digester};

// The first byte of what is digested for a word, for two digests that are joined, and for a state.
// Parts are written at their places below, since the library joins arrays only on the heap.
const WORD: &[u8; 1] = b"\x00";

const PAIR: &[u8; 1] = b"\x01";

const STATE: &[u8; 1] = b"\x02";

// A string that is digested.
#[derive(Clone, Copy)]
pub enum Preimage {
    Word([u8; 5]),
    Pair([u8; 65]),
    State([u8; 41]),
}

impl Preimage {
    pub fn as_bytes(&self) -> &[u8]
        ensures { result.now ≡ bytes_of self.now }
    {
        match self {
            Preimage::Word(bytes) => bytes,
            Preimage::Pair(bytes) => bytes,
            Preimage::State(bytes) => bytes,
        }
    }
}

pub(crate) fn word_preimage(word: u32) -> [u8; 5]
    ensures { result ≡ word_preimage word }
{
    let mut bytes = [0; 5];
    bytes[0..1].copy_from_slice(WORD);
    bytes[1..5].copy_from_slice(&word.to_be_bytes());
    bytes
}

pub(crate) fn pair_preimage(left: &Digest, right: &Digest) -> [u8; 65]
    ensures { result ≡ pair_preimage left.now right.now }
{
    let mut bytes = [0; 65];
    bytes[0..1].copy_from_slice(PAIR);
    bytes[1..33].copy_from_slice(left);
    bytes[33..65].copy_from_slice(right);
    bytes
}

// What is digested for the parent of node `index`, from the node's digest and its sibling's.
pub(crate) fn parent_preimage(index: u32, digest: &Digest, sibling: &Digest) -> [u8; 65]
    ensures { result ≡ parent_preimage index digest.now sibling.now }
{
    if index % 2 == 0 {
        pair_preimage(digest, sibling)
    } else {
        pair_preimage(sibling, digest)
    }
}

pub fn state_preimage(place: u32, register: u32, memory: &Digest) -> [u8; 41]
    ensures { result ≡ state_preimage place register memory.now }
{
    let mut bytes = [0; 41];
    bytes[0..1].copy_from_slice(STATE);
    bytes[1..5].copy_from_slice(&place.to_be_bytes());
    bytes[5..9].copy_from_slice(&register.to_be_bytes());
    bytes[9..41].copy_from_slice(memory);
    bytes
}

// This and the next two are no method of Preimage, which would wrap each of a memory's 131,071 strings.
pub(crate) fn word_digest<D: Digester>(digester: &mut D, word: u32) -> Digest
    ensures value { result ≡ D.hash (word_preimage word) }
    ensures seen { D.seen digester.new ≡ D.adds (D.seen digester.old) (word_preimage word) }
{
    digester.digest(&word_preimage(word))
}

pub(crate) fn pair_digest<D: Digester>(digester: &mut D, left: &Digest, right: &Digest) -> Digest
    ensures value { result ≡ D.hash (pair_preimage left.now right.now) }
    ensures seen { D.seen digester.new ≡ D.adds (D.seen digester.old) (pair_preimage left.now right.now) }
{
    digester.digest(&pair_preimage(left, right))
}

// The digest of a state, from its place, its register and its memory's digest.
pub fn state_digest<D: Digester>(
    digester: &mut D,
    place: u16,
    register: u32,
    memory: &Digest,
) -> Digest
    ensures value { result ≡ D.hash (state_preimage place register memory.now) }
    ensures seen { D.seen digester.new ≡ D.adds (D.seen digester.old) (state_preimage place register memory.now) }
{
    digester.digest(&state_preimage(u32::from(place), register, memory))
}
