// A party at play: its role, its own run, and the case as the record has it.
ghost use Rattle.std.specs.Prelude.{◌≡◌, ◌/◌, ◌^◌, ◌≤◌, max, IfOk, IsTrue, vec_len, MatchOption, OnOk, ◌≢◌};
ghost use Rattle.merkle.specs.Bytes.{Bytes, Hash};
ghost use Rattle.witness.specs.Laws.{machine};
ghost use Rattle.dispute.specs.Referee.{opening};
ghost use Rattle.dispute.specs.Bisection.{bisection, game};
ghost use Rattle.record.specs.Record.{entered, held};
ghost use Rattle.history.specs.Keeping.{spacing};
ghost use Rattle.parties.specs.Parties.{own, span_of, in_range, strategy, Plays};

use crate::Role;
use dispute::{Answer, Message, Phase, Referee};
use history::History;
use machine::Watch;
use merkle::{Digest, Digester};
use record::{Entry, admit};
use std::alloc::{AllocError, Global};
use witness::Witness;

#[derive(Drop)]
pub struct Player {
    pub role: Role,
    pub history: History,
    pub referee: Referee,
    ghost ok: { IsTrue (in_range role) },
}

// 2^n.
fn power(n: u8) -> u64
    requires { 2 ^ n ≤ 4294967296 }
    ensures { result ≡ 2 ^ n }
{
    2u64.pow(u32::from(n))
}

impl Player {
    // A party to a case about the run of a program, which its own start opens.
    // None where n is not from 1 to 32, or the program has another size than 65,536 words.
    pub fn new<D: Digester>(
        heap: Global,
        digester: &mut D,
        role: Role,
        program: Vec<u32>,
    ) -> Result<Option<Player>, AllocError>
        ensures { IfOk result (λ o. MatchOption o (IsTrue (in_range role) → vec_len program ≢ 65536) (λ x. (x.role ≡ role) × (x.history.program ≡ program) × (x.referee.case ≡ opening (game (machine D.hash) (own x.history))))) }
    {
        if !role.is_in_range() {
            return Ok(None);
        }
        let Some(history) = History::new(heap, program) else {
            return Ok(None);
        };
        let start = history.digest_at(digester, 0)?;
        let referee = Referee::open(start);
        Ok(Some(Player {
            role,
            history,
            referee,
        }))
    }

    // The case is opened with this digest, whatever the own program's start is.
    pub fn open(&mut self, start: Digest)
        ensures case { (h : Hash) → self.new.referee.case ≡ opening (bisection (machine h) start) }
        ensures same { (self.new.role ≡ self.old.role) × (self.new.history ≡ self.old.history) }
    {
        self.referee = Referee::open(start);
    }

    // What comes of an entry: the case goes on as at the referee, and a refusal changes nothing.
    pub fn hear<D: Digester>(&mut self, digester: &mut D, entry: &Entry<Vec<u8>>) -> Answer
        ensures case { (g : Bytes) → (self.new.referee.case, result) ≡ entered (bisection (machine D.hash) g) self.old.referee.case (held entry.now) }
        ensures same { (self.new.role ≡ self.old.role) × (self.new.history ≡ self.old.history) }
    {
        let (next, answer) = admit(self.referee, digester, entry);
        self.referee = next;
        answer
    }

    // The steps that the case is about, once the party knows: the claimer from the beginning, the doubter when there is a claim; 0 before, for which nothing is kept.
    pub fn span(&self) -> u64
        ensures { result ≡ span_of self.now.role self.now.referee.case.phase }
    {
        match (self.role, self.referee.case.phase) {
            (Role::Claimer(n), _) | (Role::Doubter, Phase::Doubting(_, n, _)) => power(n),
            (Role::Doubter, _) => 0,
        }
    }

    // Keeps the states of the own run as far as the case goes.
    pub fn prepare<W: Watch>(&mut self, watch: &mut W) -> Result<(), AllocError>
        ensures program { self.new.history.program ≡ self.old.history.program }
        ensures kept { OnOk result (vec_len self.new.history.slices ≡ max (vec_len self.old.history.slices) (span_of self.old.role self.old.referee.case.phase / spacing)) }
        ensures same { (self.new.role ≡ self.old.role) × (self.new.referee ≡ self.old.referee) }
    {
        let steps = self.span();
        self.history.extend(steps, watch)
    }

    // What the strategy of the role has the party send now, if anything.
    // Apart from `say`, whose promise would have to be shown at each arm.
    #[tactic(auto, using(crate::proofs::Owns::own_run))]
    fn strategy<D: Digester>(
        &self,
        digester: &mut D,
    ) -> Result<Option<Message<Witness>>, AllocError>
        ensures { IfOk result (λ m. m ≡ strategy (machine D.hash) (own self.now.history) self.now.role self.now.referee.case.phase) }
    {
        let history = &self.history;
        let phase = self.referee.case.phase;
        match (self.role, phase) {
            (Role::Claimer(n), Phase::Claiming(_)) => {
                let claimed = history.digest_at(digester, power(n))?;
                Ok(Some(Message::Claim(n, claimed)))
            }
            (Role::Claimer(_), Phase::Bisecting(k, dispute)) => {
                let middle = history.digest_at(digester, u64::from(dispute.from) + power(k))?;
                Ok(Some(Message::Middle(middle)))
            }
            (Role::Claimer(_), Phase::Proving(dispute)) => {
                let witness = history.witness_at(digester, u64::from(dispute.from))?;
                Ok(Some(Message::Step(witness)))
            }
            (Role::Doubter, Phase::Doubting(_, n, claimed)) => {
                let own = history.digest_at(digester, power(n))?;
                Ok((claimed != own).then_some(Message::Doubt))
            }
            (Role::Doubter, Phase::Answering(k, dispute, middle)) => {
                let own = history.digest_at(digester, u64::from(dispute.from) + power(k))?;
                if middle == own {
                    Ok(Some(Message::Right))
                } else {
                    Ok(Some(Message::Wrong))
                }
            }
            _ => Ok(None),
        }
    }

    // What the party has to send now, if anything.
    #[tactic(auto, using(crate::proofs::Played::machine_plays))]
    pub fn say<D: Digester>(&self, digester: &mut D) -> Result<Option<Message<Witness>>, AllocError>
        ensures value { IfOk result (λ m. m ≡ strategy (machine D.hash) (own self.now.history) self.now.role self.now.referee.case.phase) }
        ensures promise { IfOk result (λ m. Plays (machine D.hash) self.now.role self.now.referee.case m) }
    {
        self.strategy(digester)
    }
}
