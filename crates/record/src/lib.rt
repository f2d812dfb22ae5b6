// The record of a case: its lines, read and printed.
#![tactic(auto)]

ghost use Rattle.std.specs.Prelude.{◌≡◌, IfOk, Some, string_bytes};
ghost use Rattle.std.specs.Str.Lines.{strip_carriage_return};
ghost use Rattle.merkle.specs.Bytes.{Bytes};
ghost use Rattle.witness.specs.Laws.{machine};
ghost use Rattle.dispute.specs.Bisection.{bisection};
ghost use Rattle.record.specs.Held.{entry_at, opening_at, answers_so};
ghost use Rattle.record.specs.Record.{entered, KeepsAt, message, day as day_in, entry_in, held, opening_in, standing as stands_so, answer_line, SentIsRead, DayIsRead, OpeningIsRead};

mod input;
mod line;

use dispute::{Answer, Phase, Referee, Refusal};
pub use input::read_line;
pub use line::Line;
use merkle::{Digest, Digester};
use std::alloc::{AllocError, Global};
use std::fmt;
use text::{hex, number};
use witness::Party;

// What a line of a record says; B holds the bytes that a party sent.
// A kind of line, and no Result: a faulty entry is entered, and answered, like any other.
#[derive(Drop)]
pub enum Entry<B> {
    Sent(Party, B),
    Day(u64),
    // it is answered by this refusal, whatever the case
    Faulty(Refusal),
}

// The line without a CR at its end.
fn without_cr(line: &[u8]) -> &[u8]
    ensures { result.now ≡ strip_carriage_return line.now }
{
    line.strip_suffix(b"\r").unwrap_or(line)
}

fn sent(heap: Global, party: Party, digits: &[u8]) -> Result<Entry<Vec<u8>>, AllocError>
    ensures { IfOk result (λ e. held e ≡ message party digits.now) }
{
    let bytes = hex::decode(heap, digits)?;
    Ok(bytes.map_or(
        Entry::Faulty(Refusal::Unreadable),
        |bytes| Entry::Sent(party, bytes),
    ))
}

fn day(digits: &[u8]) -> Entry<Vec<u8>>
    ensures { held result ≡ day_in digits.now }
{
    number::parse(digits, u64::MAX).map_or(Entry::Faulty(Refusal::WrongDay), Entry::Day)
}

// The entry in the text of a line: claimer HEX, doubter HEX, or day D.
fn parse(heap: Global, line: &[u8]) -> Result<Entry<Vec<u8>>, AllocError>
    ensures { IfOk result (λ e. held e ≡ entry_in line.now) }
{
    let line = without_cr(line);
    if let Some(digits) = line.strip_prefix(b"claimer ") {
        return sent(heap, Party::Claimer, digits);
    }
    if let Some(digits) = line.strip_prefix(b"doubter ") {
        return sent(heap, Party::Doubter, digits);
    }
    if let Some(digits) = line.strip_prefix(b"day ") {
        return Ok(day(digits));
    }
    Ok(Entry::Faulty(Refusal::Unreadable))
}

// The digest in a first line: case DIGEST.
fn opening_in(heap: Global, line: &[u8]) -> Result<Option<Digest>, AllocError>
    ensures { IfOk result (λ o. o ≡ opening_in line.now) }
{
    let Some(digits) = without_cr(line).strip_prefix(b"case ") else {
        return Ok(None);
    };
    let Some(bytes) = hex::decode(heap, digits)? else {
        return Ok(None);
    };
    Ok(Digest::try_from(bytes.as_slice()).ok())
}

// The digest that a first line opens a case with, if it does.
pub fn opening(heap: Global, line: &Line) -> Result<Option<Digest>, AllocError>
    ensures { IfOk result (λ o. o ≡ opening_at line.now) }
{
    let Some(text) = line.text() else {
        return Ok(None);
    };
    opening_in(heap, text)
}

// The entry in a line after the first; one that is too long is no message.
pub fn read(heap: Global, line: &Line) -> Result<Entry<Vec<u8>>, AllocError>
    ensures { IfOk result (λ e. held e ≡ entry_at line.now) }
{
    let Some(text) = line.text() else {
        return Ok(Entry::Faulty(Refusal::Unreadable));
    };
    parse(heap, text)
}

// What comes of an entry at the referee: it takes a message or a day, and a faulty one is refused.
pub fn admit<D: Digester>(
    referee: Referee,
    digester: &mut D,
    entry: &Entry<Vec<u8>>,
) -> (Referee, Answer)
    ensures { (g : Bytes) → (result.0.case, result.1) ≡ entered (bisection (machine D.hash) g) referee.case (held entry.now) }
{
    match entry {
        Entry::Sent(party, bytes) => referee.receive(digester, *party, bytes),
        Entry::Day(day) => referee.day(*day),
        Entry::Faulty(refusal) => (referee, Err(*refusal)),
    }
}

// What comes of a line at the referee.
pub fn enter<D: Digester>(
    heap: Global,
    referee: Referee,
    digester: &mut D,
    line: &Line,
) -> Result<(Referee, Answer), AllocError>
    ensures value { IfOk result (λ p. ((g : Bytes) → (p.0.case, p.1) ≡ entered (bisection (machine D.hash) g) referee.case (entry_at line.now))) }
    ensures promise { IfOk result (λ p. KeepsAt (machine D.hash) referee.case (entry_at line.now) p.0.case) }
{
    let entry = read(heap, line)?;
    Ok(admit(referee, digester, &entry))
}

// How a case stands in this phase.
#[derive(Clone, Copy)]
struct Standing<'a>(&'a Phase);

// Whose turn it is, or who has won.
impl fmt::Display for Standing<'_> {
    ghost output = { λ s. Some (stands_so s.0.now) };

    fn fmt<W: fmt::Write>(&self, f: &mut fmt::Formatter<W>) -> fmt::Result {
        if let Phase::Over(winner) = self.0 {
            return write!(f, "won {winner}");
        }
        let party = self.0.turn().unwrap();
        write!(f, "turn {party}")
    }
}

// The line of an answer: the outcome, and how the case stands then.
pub fn answer(heap: Global, answer: Answer, phase: &Phase) -> Result<String, AllocError>
    ensures { IfOk result (λ s. string_bytes s ≡ answer_line answer phase.now) }
{
    let standing = Standing(phase);
    match answer {
        Ok(()) => format!(in heap; "taken {standing}"),
        Err(refusal) => format!(in heap; "{refusal} {standing}"),
    }
}

// Whether a line is this answer, with the case standing so.
pub fn is_answer(
    heap: Global,
    line: &Line,
    answer: Answer,
    phase: &Phase,
) -> Result<bool, AllocError>
    ensures { IfOk result (λ b. b ≡ answers_so line.now answer phase.now) }
{
    let wanted = crate::answer(heap, answer, phase)?;
    Ok(
        line.text()
            .is_some_and(|text| without_cr(text) == wanted.as_bytes()),
    )
}

// Lines that were made of bytes, a day or a digest are read as these again.
pub fn lines_are_read()
    ensures sent { SentIsRead }
    ensures day { DayIsRead }
    ensures opening { OpeningIsRead }
{}
