// Messages as bytes.
ghost use Rattle.std.specs.Prelude.{◌≡◌, ◌++◌, length, IfOk, if◌then◌else◌, Some, None, nat_eq};
ghost use Rattle.std.specs.Option.{option_map};
ghost use Rattle.merkle.specs.Bytes.{Hash};
ghost use Rattle.witness.specs.Laws.{machine};
ghost use Rattle.witness.specs.Wire.{parse};
ghost use Rattle.dispute.specs.declared.Message.TheVariants.{Middle, Step};
ghost use Rattle.dispute.specs.Bisection.{sized, claim_in, decode as decoded, encode as encoded, InClaim};

use crate::Message;
use merkle::Digest;
use std::alloc::{AllocError, Global};
use witness::Witness;

// A claim is about 2^n steps, n from 1 to 32.
const LEAST: u8 = 1;

const MOST: u8 = 32;

// A digest of 32 bytes.
fn digest(bytes: &[u8]) -> Option<Digest>
    ensures { result ≡ (if nat_eq (length bytes.now) 32 then Some bytes.now else None) }
{
    Digest::try_from(bytes).ok()
}

// A claim: n and the digest.
#[tactic(auto, unfolding(crate::specs::Bisection::sized, crate::specs::Bisection::claim_in))]
fn claim(body: &[u8]) -> Option<Message<Witness>>
    ensures { result ≡ claim_in body.now }
{
    let (n, claimed) = body.split_first()?;
    if !(LEAST..=MOST).contains(n) {
        return None;
    }
    Some(Message::Claim(*n, digest(claimed)?))
}

#[tactic(auto, unfolding(crate::specs::Bisection::sized))]
fn middle(body: &[u8]) -> Option<Message<Witness>>
    ensures { result ≡ sized 32 body.now (Middle body.now) }
{
    Some(Message::Middle(digest(body)?))
}

fn step(body: &[u8]) -> Option<Message<Witness>>
    ensures { result ≡ option_map Step (parse 6 body.now) }
{
    Some(Message::Step(Witness::from_bytes(body)?))
}

// Two strings as one.
fn joined(heap: Global, front: &[u8], back: &[u8]) -> Result<Vec<u8>, AllocError>
    ensures { IfOk result (λ v. v.items ≡ front.now ++ back.now) }
{
    [front, back].concat(heap)
}

impl Message<Witness> {
    // The message in a string, by its first byte, whose numbers are the rules'; none if it is no message.
    // No TryFrom: of what is no message there is nothing more to say, and the reverse needs an allocator.
    #[tactic(auto, unfolding(crate::specs::Bisection::decode, crate::specs::Bisection::body_of, crate::specs::Bisection::sized, witness::specs::Wire::parse))]
    pub fn decode(bytes: &[u8]) -> Option<Message<Witness>>
        ensures { (h : Hash) → result ≡ decoded (machine h) bytes.now }
    {
        let (kind, body) = bytes.split_first()?;
        match *kind {
            1 => claim(body),
            2 => body.is_empty().then_some(Message::Doubt),
            3 => middle(body),
            4 => body.is_empty().then_some(Message::Right),
            5 => body.is_empty().then_some(Message::Wrong),
            6 => step(body),
            _ => None,
        }
    }

    // The bytes of a message; they are read as it was meant.
    pub fn encode(&self, heap: Global) -> Result<Vec<u8>, AllocError>
        ensures value { IfOk result (λ v. ((h : Hash) → v.items ≡ encoded (machine h) self.now)) }
        ensures reads { IfOk result (λ v. ((h : Hash) → InClaim (machine h) self.now → decoded (machine h) v.items ≡ Some self.now)) }
    {
        match self {
            Message::Claim(n, claimed) => joined(heap, &[1, *n], claimed),
            Message::Doubt => joined(heap, &[2], &[]),
            Message::Middle(middle) => joined(heap, &[3], middle),
            Message::Right => joined(heap, &[4], &[]),
            Message::Wrong => joined(heap, &[5], &[]),
            Message::Step(witness) => joined(heap, &[6], &witness.to_bytes()),
        }
    }
}
