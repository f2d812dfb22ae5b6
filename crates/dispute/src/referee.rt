// The referee: a case by value, and what comes of a message or a day.
ghost use Rattle.std.specs.Prelude.{◌≡◌, ◌≤◌, length, IfSome};
ghost use Rattle.merkle.specs.Bytes.{Bytes, Hash, Whole};
ghost use Rattle.merkle.specs.Seen.{seen_all};
ghost use Rattle.witness.specs.Laws.{machine, Agree};
ghost use Rattle.dispute.specs.Referee.{opening, take, sent, day as begins, settle as settled};
ghost use Rattle.dispute.specs.Bisection.{InReach, bisection, decode};
ghost use Rattle.dispute.specs.Work.{strings, limit};
ghost use Rattle.dispute.specs.Promise.{Keeps};

use crate::{Answer, Case, Message, Phase, Refusal};
use merkle::{Digest, Digester};
use witness::Party;

// A case in the referee's hands: the steps in dispute are among the first 2^32. It goes by value: a refusal hands back the very case.
// A phase is an enum, which holds no fact of its own, so private functions ask for this one.
#[derive(Clone, Copy)]
pub struct Referee {
    pub case: Case<Phase>,
    ghost ok: { InReach case.phase },
}

impl Referee {
    // A case about runs from the state with this digest; the first day is 0.
    pub fn open(start: Digest) -> Referee
        ensures { (h : Hash) → result.case ≡ opening (bisection (machine h) start) }
    {
        Referee {
            case: Case::open(start),
        }
    }

    // The bytes that a case takes.
    pub const fn size() -> usize
        ensures { result ≤ 128 }
    {
        size_of::<Referee>()
    }

    // A day begins: the one that is on again, or the next.
    pub fn day(self, day: u64) -> (Referee, Answer)
        ensures value { (h : Hash) (g : Bytes) → (result.0.case, result.1) ≡ take (bisection (machine h) g) self.case (begins day) }
        ensures promise { (h : Hash) → Whole h → Keeps (machine h) self.case (begins day) result.0.case }
    {
        let (case, answer) = self.case.day(day);
        (Referee { case }, answer)
    }

    // A party has sent bytes. For a message that is refused nothing changes.
    // At most 53 strings are digested, 36 unless a store is shown, and case and answer rest on these alone.
    pub fn receive<D: Digester>(
        self,
        digester: &mut D,
        party: Party,
        bytes: &[u8],
    ) -> (Referee, Answer)
        ensures value { (g : Bytes) → (result.0.case, result.1) ≡ take (bisection (machine D.hash) g) self.case (sent party bytes.now) }
        ensures promise { Keeps (machine D.hash) self.case (sent party bytes.now) result.0.case }
        ensures seen { D.seen digester.new ≡ seen_all D.adds (D.seen digester.old) (strings D.hash self.case.phase party (decode (machine D.hash) bytes.now)) }
        ensures few { length (strings D.hash self.case.phase party (decode (machine D.hash) bytes.now)) ≤ limit (decode (machine D.hash) bytes.now) }
        ensures rests { (k : Hash) (g : Bytes) → Agree D.hash k (strings D.hash self.case.phase party (decode (machine D.hash) bytes.now)) → (result.0.case, result.1) ≡ take (bisection (machine k) g) self.case (sent party bytes.now) }
    {
        let Some(message) = Message::decode(bytes) else {
            return (self, Err(Refusal::Unreadable));
        };
        let phase = self.case.phase;
        if !phase.is_turn_of(party) {
            return (self, Err(Refusal::OutOfTurn));
        }
        let next = phase.after(digester, &message);
        self.settle(next)
    }

    // The case after a message in its turn, if the turn is for it; a new turn begins.
    fn settle(self, next: Option<Phase>) -> (Referee, Answer)
        requires { IfSome next InReach }
        ensures { (h : Hash) (g : Bytes) → (result.0.case, result.1) ≡ settled (bisection (machine h) g) self.case next }
    {
        let Some(phase) = next else {
            return (self, Err(Refusal::OutOfPlace));
        };
        let case = Case {
            since: self.case.day,
            phase,
            ..self.case
        };
        (Referee { case }, Ok(()))
    }
}
