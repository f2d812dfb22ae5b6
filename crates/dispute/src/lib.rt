// The dispute: messages, turns and days, and the referee's answers.
#![tactic(auto)]

ghost use Rattle.std.specs.Prelude.{◌≡◌, Some, decimal};
ghost use Rattle.merkle.specs.Bytes.{Bytes, Hash};
ghost use Rattle.witness.specs.Laws.{machine};
ghost use Rattle.dispute.specs.Referee.{refusal_number, opening, take, day as begins};
ghost use Rattle.dispute.specs.Bisection.{bisection};
ghost use Rattle.dispute.specs.Promise.{Here, ClaimerSafe, DoubterSafe, ClaimerWins, DoubterWins, RightOneWins, ClaimerCan, DoubterCan, Reads, Ends, EndsAll, Few, FewInAll, StaysInRange, RefusesIn, DaysIn};

mod bytes;
mod referee;
mod turns;

use merkle::Digest;
pub use referee::Referee;
use std::error::Error;
use std::fmt;
use witness::Party;

// What the parties say; W is what is shown of a step.
#[derive(Clone, Copy)]
pub enum Message<W> {
    // the digest after 2^n steps
    Claim(u8, Digest),
    Doubt,
    // the digest in the middle of the steps in dispute
    Middle(Digest),
    Right,
    Wrong,
    Step(W),
}

// The steps in dispute: after `from` steps the digest `agreed` is common ground, and at their end `disputed` is not.
#[derive(Clone, Copy)]
pub struct Dispute {
    pub from: u32,
    pub agreed: Digest,
    pub disputed: Digest,
}

// Whose turn it is and for what, or who has won.
#[derive(Clone, Copy)]
pub enum Phase {
    // the claimer has to claim something about a run from the state with this digest
    Claiming(Digest),
    // the doubter has to doubt the digest after 2^n steps, or lets it stand: the digest at the start, n, and the claimed digest
    Doubting(Digest, u8, Digest),
    // 2^(n + 1) steps are in dispute, and the claimer has to name the digest in the middle
    Bisecting(u8, Dispute),
    // the doubter has to say whether that is right
    Answering(u8, Dispute, Digest),
    // one step is in dispute, and the claimer has to show it
    Proving(Dispute),
    Over(Party),
}

// A case: the day that is on, the day on which the turn began, and the phase.
#[derive(Clone, Copy)]
pub struct Case<P> {
    pub day: u64,
    pub since: u64,
    pub phase: P,
}

// Why something is turned away.
#[derive(Clone, Copy, Debug, PartialEq, Eq)]
pub enum Refusal {
    Unreadable,
    OutOfTurn,
    OutOfPlace,
    WrongDay,
}

// Something is taken, or turned away.
pub type Answer = Result<(), Refusal>;

// A refusal is printed by its number.
impl fmt::Display for Refusal {
    ghost output = { λ refusal. Some (decimal (refusal_number refusal)) };

    fn fmt<W: fmt::Write>(&self, f: &mut fmt::Formatter<W>) -> fmt::Result {
        write!(f, "{}", self.number())
    }
}

impl Error for Refusal {}

impl Refusal {
    // All of them, for whoever wants to know which one a text is.
    pub const ALL: [Refusal; 4] = [
        Refusal::Unreadable,
        Refusal::OutOfTurn,
        Refusal::OutOfPlace,
        Refusal::WrongDay,
    ];

    // The number by which it is answered; the rules give it, and it is what is printed.
    pub fn number(self) -> u8
        ensures { result ≡ refusal_number self }
    {
        match self {
            Refusal::Unreadable => 1,
            Refusal::OutOfTurn => 2,
            Refusal::OutOfPlace => 3,
            Refusal::WrongDay => 4,
        }
    }
}

impl Case<Phase> {
    // A case about runs from the state with this digest; the first day is 0.
    pub fn open(start: Digest) -> Case<Phase>
        ensures { (h : Hash) → result ≡ opening (bisection (machine h) start) }
    {
        Case {
            day: 0,
            since: 0,
            phase: Phase::Claiming(start),
        }
    }

    // A day begins: the one that is on again, or the next.
    #[tactic(auto, unfolding(crate::specs::Referee::take))]
    pub fn day(self, day: u64) -> (Case<Phase>, Answer)
        ensures { (h : Hash) (g : Bytes) → result ≡ take (bisection (machine h) g) self (begins day) }
    {
        if day == self.day {
            return (self, Ok(()));
        }
        if day.checked_sub(1) != Some(self.day) {
            return (self, Err(Refusal::WrongDay));
        }
        let phase = self.phase.at_dawn(self.since, day);
        (Case { day, phase, ..self }, Ok(()))
    }
}

// Who is right and keeps the rules does not lose, and has won in the end, whatever the other party sends or omits; and the rules can be kept.
pub fn right_one_wins()
    ensures claimer_safe { Here ClaimerSafe }
    ensures doubter_safe { Here DoubterSafe }
    ensures claimer_wins { Here ClaimerWins }
    ensures doubter_wins { Here DoubterWins }
    ensures wins { Here RightOneWins }
    ensures claimer_can { Here ClaimerCan }
    ensures doubter_can { Here DoubterCan }
{}

// A case ends, few messages are taken, a refusal changes nothing, a turn lasts as long as it should, the steps in dispute are within the run, and what is sent is read as it was meant.
pub fn case_has_limits()
    ensures ends { Here Ends }
    ensures ends_all { Here EndsAll }
    ensures few { Here Few }
    ensures few_in_all { Here FewInAll }
    ensures refuses { Here RefusesIn }
    ensures days { Here DaysIn }
    ensures range { Here StaysInRange }
    ensures reads { Here Reads }
{}
