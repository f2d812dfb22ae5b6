// Openings of single words.
ghost use Rattle.std.specs.Prelude.{◌≡◌, ℕ, ◌+◌, ◌/◌, ◌<◌, true, ◌⊎◌, length, if◌then◌else◌, Some, None, slice_set, bytes_eq};
ghost use Rattle.merkle.specs.Bytes.{word_preimage};
ghost use Rattle.merkle.specs.Tree.{root, root_from, parent_preimage, climb, way_preimages, opening_preimages, sibling as sibling_of};
ghost use Rattle.merkle.specs.Seen.{seen_all};
ghost use Rattle.merkle.specs.Strings.{bytes_of, two_bytes};
ghost use Rattle.merkle.specs.Collision.{difference as differing, or_else, last_difference, WayCollision};
ghost use Rattle.merkle.specs.Openings.{opened, preimages, well_formed, honest};

use crate::preimage::{parent_preimage, word_preimage};
use crate::tree::{node_digest, word_at};
use crate::{Digest, Digester, LEVELS, Preimage, shape};

// An opening of a place: the word there, and the digests of the siblings beside its way up, the lowest first.
#[derive(Clone, Copy)]
pub struct Opening {
    pub word: u32,
    pub siblings: [Digest; LEVELS],
}

// Two strings where they differ, else what was found before.
fn differ(
    one: Preimage,
    other: Preimage,
    before: Option<(Preimage, Preimage)>,
) -> Option<(Preimage, Preimage)>
    ensures { two_bytes result ≡ or_else (differing (bytes_of one) (bytes_of other)) (two_bytes before) }
{
    (one.as_bytes() != other.as_bytes())
        .then_some((one, other))
        .or(before)
}

// The node with the same parent as node `index`.
fn sibling(index: u16) -> usize
    ensures { result ≡ sibling_of index }
{
    let index = usize::from(index);
    if index % 2 == 0 { index + 1 } else { index - 1 }
}

// A node on the way up a tree: its index on its level, and its digest.
#[derive(Clone, Copy)]
struct Climber {
    index: u32,
    digest: Digest,
}

impl Climber {
    // At a word, and what is digested for it.
    fn at<D: Digester>(digester: &mut D, place: u32, word: u32) -> (Climber, Preimage)
        ensures index { result.0.index ≡ place }
        ensures value { result.0.digest ≡ D.hash (word_preimage word) }
        ensures string { bytes_of result.1 ≡ word_preimage word }
        ensures seen { D.seen digester.new ≡ D.adds (D.seen digester.old) (word_preimage word) }
    {
        let string = word_preimage(word);
        let digest = digester.digest(&string);
        let index = place;
        (Climber { index, digest }, Preimage::Word(string))
    }

    // A level up, beside this sibling, and what is digested there.
    fn up<D: Digester>(&mut self, digester: &mut D, sibling: &Digest) -> Preimage
        ensures index { self.new.index ≡ self.old.index / 2 }
        ensures value { self.new.digest ≡ D.hash (parent_preimage self.old.index self.old.digest sibling.now) }
        ensures string { bytes_of result ≡ parent_preimage self.old.index self.old.digest sibling.now }
        ensures seen { D.seen digester.new ≡ D.adds (D.seen digester.old) (parent_preimage self.old.index self.old.digest sibling.now) }
    {
        let string = parent_preimage(self.index, &self.digest, sibling);
        self.digest = digester.digest(&string);
        self.index /= 2;
        Preimage::Pair(string)
    }

    // The digest at the end of the way beside these siblings, the lowest first.
    fn climb<D: Digester>(mut self, digester: &mut D, siblings: &[Digest]) -> Digest
        ensures value { result ≡ climb D.hash self.index self.digest siblings.now }
        ensures seen { D.seen digester.new ≡ seen_all D.adds (D.seen digester.old) (way_preimages D.hash self.index self.digest siblings.now) }
    {
        for sibling in siblings {
            self.up(digester, sibling);
        }
        self.digest
    }
}

impl Opening {
    // The memory's digest that the opening gives at a place.
    pub fn climb<D: Digester>(&self, digester: &mut D, place: u16) -> Digest
        ensures value { result ≡ root_from D.hash place self.now.word self.now.siblings }
        ensures seen { D.seen digester.new ≡ seen_all D.adds (D.seen digester.old) (opening_preimages D.hash place self.now.word self.now.siblings) }
        ensures count { length (opening_preimages D.hash place self.now.word self.now.siblings) ≡ 17 }
    {
        let (climber, _) = Climber::at(digester, u32::from(place), self.word);
        climber.climb(digester, &self.siblings)
    }

    // The honest opening of a place. It gives the root, and with another word the root of the memory with that word.
    pub fn of<D: Digester>(digester: &mut D, memory: &[u32], place: u16) -> Opening
        ensures value { result ≡ honest D.hash place memory.now }
        ensures opens { opened D.hash place result ≡ root D.hash memory.now }
        ensures updates { (v : ℕ) → place < length memory.now → opened D.hash place (record { word = v; siblings = result.siblings }) ≡ root D.hash (slice_set memory.now place v) }
    {
        let mut siblings = [[0; 32]; LEVELS];
        // The node's own index, which halves from level to level.
        let mut index = place;
        for (level, beside) in siblings.iter_mut().enumerate() {
            *beside = node_digest(digester, memory, level as u32, sibling(index));
            index /= 2;
        }
        Opening {
            word: word_at(memory, usize::from(place)),
            siblings,
        }
    }

    // The word, where the opening gives this root at this place: an opening is not trusted about where it is.
    pub fn word_under<D: Digester>(
        &self,
        digester: &mut D,
        place: u16,
        memory: &Digest,
    ) -> Option<u32>
        ensures value { result ≡ (if bytes_eq (opened D.hash place self.now) memory.now then Some self.now.word else None) }
        ensures seen { D.seen digester.new ≡ seen_all D.adds (D.seen digester.old) (preimages D.hash place self.now) }
    {
        let root = self.climb(digester, place);
        (root == *memory).then_some(self.word)
    }

    // A word of 32 bits and sixteen digests, as the type says.
    pub fn shape(&self)
        ensures { well_formed self.now ≡ true }
    {
        shape::word(self.word);
        shape::digests(&self.siblings);
    }

    // The first two strings from the top down in which two openings differ.
    // Two openings of one place that give one root are the same, or these collide.
    pub fn difference<D: Digester>(
        digester: &mut D,
        place: u32,
        one: &Opening,
        other_place: u32,
        other: &Opening,
    ) -> Option<(Preimage, Preimage)>
        ensures value { two_bytes result ≡ last_difference (preimages D.hash place one.now) (preimages D.hash other_place other.now) }
        ensures binds { opened D.hash place one.now ≡ opened D.hash place other.now → (one.now ≡ other.now) ⊎ WayCollision D.hash (preimages D.hash place one.now) (preimages D.hash place other.now) }
    {
        one.shape();
        other.shape();
        let (mut way, word) = Climber::at(digester, place, one.word);
        let (mut other_way, other_word) = Climber::at(digester, other_place, other.word);
        let mut found = differ(word, other_word, None);
        for (sibling, other_sibling) in one.siblings.iter().zip(&other.siblings) {
            let pair = way.up(digester, sibling);
            let other_pair = other_way.up(digester, other_sibling);
            found = differ(pair, other_pair, found);
        }
        found
    }
}
