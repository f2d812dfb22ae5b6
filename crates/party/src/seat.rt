// A party at its seat: what it reads in the record, and what it prints.
use crate::failure::Failure;
use crate::input::Exchange;
use digests::Sha256;
use dispute::{Answer, Message, Phase, Refusal};
use merkle::Digester;
use parties::{Player, Role, collision};
use record::{Entry, Line};
use text::hex;
use text::progress::Progress;
use witness::Party;

#[derive(Drop)]
pub(crate) struct Seat<'a> {
    pub(crate) rt: &'a HostRuntime,
    pub(crate) player: Player,
}

impl Seat<'_> {
    // Prints what the party has to send now, if anything.
    pub(crate) fn speak(&mut self) -> Result<(), Failure> {
        let mut progress = Progress::new(self.rt, "party", self.player.span());
        self.player.prepare(&mut progress)?;
        let Some(message) = self.player.say(&mut Sha256)? else {
            return Ok(());
        };
        let bytes = message.encode(self.rt.alloc())?;
        let digits = hex::encode(self.rt.alloc(), &bytes)?;
        let side = self.player.role.side();
        println!(self.rt; "{side} {digits}").map_err(Failure::Output)
    }

    // Whether a line is this answer, as the case stands.
    fn reads(&self, line: &Line, answer: Answer) -> Result<bool, Failure> {
        let phase = &self.player.referee.case.phase;
        Ok(record::is_answer(self.rt.alloc(), line, answer, phase)?)
    }

    // Whether the answer refuses, as the case stands.
    fn refuses(&self, answer: &Line) -> Result<bool, Failure> {
        for refusal in Refusal::ALL {
            if self.reads(answer, Err(refusal))? {
                return Ok(true);
            }
        }
        Ok(false)
    }

    // The first line of a record may open the case; true where the answer takes it.
    pub(crate) fn opens(&mut self, exchange: &Exchange) -> Result<bool, Failure> {
        let Some(start) = record::opening(self.rt.alloc(), &exchange.line)? else {
            return Ok(false);
        };
        if let Phase::Claiming(own) = &self.player.referee.case.phase {
            if *own != start {
                let _ = eprintln!(self.rt;
                    "party: the case is not about this program's start; going on by the own run"
                );
            }
        }
        self.player.open(start);
        self.reads(&exchange.answer, Ok(()))
    }

    // Prints the two strings with one digest by which the party has lost, if there are such.
    fn print_collision(&self, phase: &Phase, entry: &Entry<Vec<u8>>) -> Result<(), Failure> {
        let (Phase::Proving(dispute), Entry::Sent(_, bytes)) = (phase, entry) else {
            return Ok(());
        };
        let Some(Message::Step(shown)) = Message::decode(bytes) else {
            return Ok(());
        };
        let found = collision(&self.player.history, &mut Sha256, dispute, &shown)?;
        let Some((one, other)) = found else {
            return Ok(());
        };
        if Sha256.digest(one.as_bytes()) != Sha256.digest(other.as_bytes()) {
            return Ok(());
        }
        let one = hex::encode(self.rt.alloc(), one.as_bytes())?;
        let other = hex::encode(self.rt.alloc(), other.as_bytes())?;
        println!(self.rt; "collision {one} {other}").map_err(Failure::Output)
    }

    // What follows from a line of the record, which has this number, and its answer.
    pub(crate) fn follow(&mut self, exchange: &Exchange, number: u64) -> Result<(), Failure> {
        if self.refuses(&exchange.answer)? {
            return Ok(());
        }
        let entry = record::read(self.rt.alloc(), &exchange.line)?;
        let before = self.player.referee.case.phase;
        self.player
            .hear(&mut Sha256, &entry)
            .map_err(|_| Failure::Record(number))?;
        if !self.reads(&exchange.answer, Ok(()))? {
            return Err(Failure::Record(number));
        }
        match (self.player.referee.case.phase, self.player.role, &entry) {
            (Phase::Over(Party::Claimer), Role::Doubter, _) => {
                self.print_collision(&before, &entry)
            }
            (Phase::Over(_), _, _) => Ok(()),
            (_, _, Entry::Sent(_, _)) => self.speak(),
            _ => Ok(()),
        }
    }

    pub(crate) fn is_over(&self) -> bool {
        matches!(self.player.referee.case.phase, Phase::Over(_))
    }
}
