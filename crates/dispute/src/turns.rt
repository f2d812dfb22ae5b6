// Whose turn it is, and what a turn makes of a message.
ghost use Rattle.std.specs.Prelude.{◌≡◌, ◌+◌, ◌^◌, ◌<◌, ◌≤◌, length, if◌then◌else◌, nat_le};
ghost use Rattle.merkle.specs.Bytes.{Bytes, Hash};
ghost use Rattle.merkle.specs.Seen.{seen_all};
ghost use Rattle.witness.specs.Laws.{machine};
ghost use Rattle.dispute.specs.Referee.{opponent as opponent_of, late as forfeited, may_move};
ghost use Rattle.dispute.specs.Bisection.{turn as turn_of, disputing as disputed, whole as whole_run, first_half, second_half, InReach, bisection, move as moved};
ghost use Rattle.dispute.specs.Work.{step_in, step_limit, move_strings};

use crate::{Dispute, Message, Phase};
use merkle::{Digest, Digester};
use witness::{Party, Witness};

// A turn that begins on day D ends when day D + TURN begins.
const TURN: u64 = 2;

// Not a method: Party stands in a crate below, which knows of no disputes.
fn opponent(party: Party) -> Party
    ensures { result ≡ opponent_of party }
{
    match party {
        Party::Claimer => Party::Doubter,
        Party::Doubter => Party::Claimer,
    }
}

impl Dispute {
    // The whole run is in dispute.
    fn whole(start: Digest, claimed: Digest) -> Dispute
        ensures { result ≡ whole_run start claimed }
    {
        Dispute {
            from: 0,
            agreed: start,
            disputed: claimed,
        }
    }

    // The first half stays in dispute, up to the digest in the middle.
    fn first_half(self, middle: Digest) -> Dispute
        ensures { result ≡ first_half self middle }
    {
        Dispute {
            disputed: middle,
            ..self
        }
    }

    // The second half, of 2^n steps, stays in dispute, from the digest in the middle on.
    fn second_half(self, n: u8, middle: Digest) -> Dispute
        requires { self.from + 2 ^ n < 4294967296 }
        ensures { result ≡ second_half n self middle }
    {
        Dispute {
            from: self.from + 2u32.pow(u32::from(n)),
            agreed: middle,
            ..self
        }
    }
}

impl Phase {
    // Whose turn it is; nobody's once the case is over.
    pub fn turn(&self) -> Option<Party>
        ensures { result ≡ turn_of self.now }
    {
        match self {
            Phase::Claiming(_) | Phase::Bisecting(_, _) | Phase::Proving(_) => Some(Party::Claimer),
            Phase::Doubting(_, _, _) | Phase::Answering(_, _, _) => Some(Party::Doubter),
            Phase::Over(_) => None,
        }
    }

    // Whether it is this party's turn.
    pub(crate) fn is_turn_of(&self, party: Party) -> bool
        ensures { result ≡ may_move (turn_of self.now) party }
    {
        self.turn() == Some(party)
    }

    // The phase after a turn that ran out: whoever let it run out has lost.
    fn late(self) -> Phase
        ensures { (h : Hash) (g : Bytes) → result ≡ forfeited (bisection (machine h) g) self }
    {
        self.turn()
            .map_or(self, |party| Phase::Over(opponent(party)))
    }

    // The phase when a day begins, in a turn that began on the day `since`.
    pub(crate) fn at_dawn(self, since: u64, day: u64) -> Phase
        ensures { (h : Hash) (g : Bytes) → result ≡ (if nat_le (since + 2) day then forfeited (bisection (machine h) g) self else self) }
    {
        if day.saturating_sub(since) >= TURN {
            self.late()
        } else {
            self
        }
    }

    // 2^n steps are in dispute.
    fn disputing(n: u8, dispute: Dispute) -> Phase
        ensures { result ≡ disputed n dispute }
    {
        if n == 0 {
            Phase::Proving(dispute)
        } else {
            Phase::Bisecting(n - 1, dispute)
        }
    }

    // The phase after a message in its turn; none where the turn is not for it.
    #[tactic(auto, unfolding(merkle::specs::Seen::seen_all))]
    pub(crate) fn after<D: Digester>(
        self,
        digester: &mut D,
        message: &Message<Witness>,
    ) -> Option<Phase>
        requires { InReach self }
        ensures value { result ≡ moved (machine D.hash) self message.now }
        ensures seen { D.seen digester.new ≡ seen_all D.adds (D.seen digester.old) (move_strings D.hash self message.now) }
        ensures few { length (move_strings D.hash self message.now) ≤ step_limit (step_in message.now) }
    {
        match (self, message) {
            (Phase::Claiming(start), Message::Claim(n, claimed)) => {
                Some(Phase::Doubting(start, *n, *claimed))
            }
            (Phase::Doubting(start, n, claimed), Message::Doubt) => {
                Some(Phase::disputing(n, Dispute::whole(start, claimed)))
            }
            (Phase::Bisecting(n, dispute), Message::Middle(middle)) => {
                Some(Phase::Answering(n, dispute, *middle))
            }
            (Phase::Answering(n, dispute, middle), Message::Right) => {
                Some(Phase::disputing(n, dispute.second_half(n, middle)))
            }
            (Phase::Answering(n, dispute, middle), Message::Wrong) => {
                Some(Phase::disputing(n, dispute.first_half(middle)))
            }
            (Phase::Proving(dispute), Message::Step(witness)) => {
                let winner = witness.judge(digester, &dispute.agreed, &dispute.disputed);
                Some(Phase::Over(winner))
            }
            _ => None,
        }
    }
}
