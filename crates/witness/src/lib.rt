// The last step of a dispute: what is shown of it, and who wins by it.
#![tactic(auto)]

ghost use Rattle.std.specs.Prelude.{◌≡◌, ◌^◌, ◌<◌, ◌≤◌, true, ◌&&◌, ltb, ◌⊎◌, [], ◌∷◌, ◌++◌, length, if◌then◌else◌, Some, None};
ghost use Rattle.merkle.specs.Bytes.{Hash};
ghost use Rattle.merkle.specs.Seen.{seen_all};
ghost use Rattle.merkle.specs.Strings.{two_bytes};
ghost use Rattle.machine.specs.Machine.{State, stores as storing, step, digest};
ghost use Rattle.witness.specs.Witness.{Valid, Collides, witness as shown, accepts, verdict, shaped, root_next, next_part, state_part, state_fits, store_part, instruction_of, digested, first_difference, Found};
ghost use Rattle.witness.specs.Name.{name};
ghost use Rattle.witness.specs.Laws.{Agree, MachineLawful};
ghost use Rattle.witness.specs.declared.Party.TheVariants.{Claimer};

mod wire;

use machine::{Cpu, Instruction, place_of};
use merkle::{
    Digest, Digester, Opening, Preimage, memory_digest, shape, state_digest, state_preimage,
};
use std::fmt;

#[derive(Clone, Copy, Debug, PartialEq, Eq)]
pub enum Party {
    Claimer,
    Doubter,
}

impl fmt::Display for Party {
    ghost output = { λ party. Some (name party) };

    fn fmt<W: fmt::Write>(&self, f: &mut fmt::Formatter<W>) -> fmt::Result {
        f.write_str(match self {
            Party::Claimer => "claimer",
            Party::Doubter => "doubter",
        })
    }
}

// What is shown of a step: place, register, the memory's digest, and openings of the place and of the instruction's place.
#[derive(Clone, Copy)]
pub struct Witness {
    pub place: u32,
    pub register: u32,
    pub memory: Digest,
    pub instruction: Opening,
    pub operand: Opening,
}

// The place, where it is one of the memory's.
fn low_place(place: u32) -> Option<u16>
    ensures { result ≡ (if ltb place 65536 then Some place else None) }
{
    u16::try_from(place).ok()
}

impl Witness {
    // What an honest party shows of the next step; it is accepted from the state's digest to the next state's.
    pub fn of<D: Digester>(digester: &mut D, cpu: Cpu, memory: &[u32]) -> Witness
        ensures value { result ≡ shown D.hash (record { cpu = cpu; memory = memory.now }) }
        ensures complete { length memory.now ≡ 65536 → accepts D.hash (digest D.hash (record { cpu = cpu; memory = memory.now })) result (digest D.hash (step (record { cpu = cpu; memory = memory.now }))) ≡ true }
    {
        let root = memory_digest(digester, memory);
        let instruction = Opening::of(digester, memory, cpu.place);
        let operand = Opening::of(digester, memory, place_of(instruction.word));
        Witness {
            place: u32::from(cpu.place),
            register: cpu.register,
            memory: root,
            instruction,
            operand,
        }
    }

    // Numbers of 32 bits and digests of 32 bytes, as the type says; a number's range is known once it is read.
    fn shape(&self)
        ensures place { self.now.place < 2 ^ 32 }
        ensures rest { shaped self.now ≡ true }
    {
        let _place = self.place;
        let _register = self.register;
        shape::digest(&self.memory);
        self.instruction.shape();
        self.operand.shape();
    }

    // Place and register, where they and the memory's digest give the digest at the beginning.
    fn cpu_under<D: Digester>(&self, digester: &mut D, start: &Digest) -> Option<Cpu>
        ensures value { result ≡ (if ltb self.now.place 65536 && state_fits D.hash start.now self.now then Some (record { place = self.now.place; register = self.now.register }) else None) }
        ensures seen { D.seen digester.new ≡ seen_all D.adds (D.seen digester.old) (if ltb self.now.place 65536 then state_part self.now ∷ [] else []) }
    {
        let place = low_place(self.place)?;
        let digest = state_digest(digester, place, self.register, &self.memory);
        let register = self.register;
        (digest == *start).then_some(Cpu { place, register })
    }

    // The memory's digest after the step: for a store from the second opening, with the register in place of the word.
    fn root_next<D: Digester>(&self, digester: &mut D, instruction: Instruction) -> Digest
        requires { instruction ≡ instruction_of self.now }
        ensures value { result ≡ root_next D.hash self.now }
        ensures seen { D.seen digester.new ≡ seen_all D.adds (D.seen digester.old) (store_part D.hash self.now) }
    {
        if !instruction.stores() {
            return self.memory;
        }
        let stored = Opening {
            word: self.register,
            ..self.operand
        };
        stored.climb(digester, place_of(self.instruction.word))
    }

    // The digest of the next state; only what was checked is handed on.
    fn next_digest<D: Digester>(
        &self,
        digester: &mut D,
        cpu: Cpu,
        instruction: Instruction,
        operand: u32,
    ) -> Digest
        requires cpu { cpu ≡ record { place = self.now.place; register = self.now.register } }
        requires instruction { instruction ≡ instruction_of self.now }
        requires operand { operand ≡ self.now.operand.word }
        ensures value { result ≡ D.hash (next_part D.hash self.now) }
        ensures seen { D.seen digester.new ≡ seen_all D.adds (D.seen digester.old) (store_part D.hash self.now ++ (next_part D.hash self.now ∷ [])) }
    {
        let root = self.root_next(digester, instruction);
        let mut next = cpu;
        next.execute(instruction, operand);
        state_digest(digester, next.place, next.register, &root)
    }

    // Who wins: the claimer where everything fits the digest at the beginning and gives the one at the end.
    // Test by test, and what does not fit is the doubter's win. Apart from `judge`, which would have to show what follows at each of five ends.
    fn decide<D: Digester>(&self, digester: &mut D, start: &Digest, end: &Digest) -> Party
        ensures value { result ≡ verdict D.hash start.now self.now end.now }
        ensures seen { D.seen digester.new ≡ seen_all D.adds (D.seen digester.old) (digested D.hash start.now self.now) }
    {
        self.shape();
        let Some(cpu) = self.cpu_under(digester, start) else {
            return Party::Doubter;
        };
        let Some(word) = self
            .instruction
            .word_under(digester, cpu.place, &self.memory)
        else {
            return Party::Doubter;
        };
        let Some(operand) = self
            .operand
            .word_under(digester, place_of(word), &self.memory)
        else {
            return Party::Doubter;
        };
        let next = self.next_digest(digester, cpu, Instruction::decode(word), operand);
        if next != *end {
            return Party::Doubter;
        }
        Party::Claimer
    }

    // Who wins by the step that is shown, between the digests at its beginning and at its end.
    // At most 36 strings are digested, 53 where the instruction stores, and the answer rests on these alone.
    // Where the claimer wins from the digest of a state, the end is the next state's digest, or a collision is at hand.
    pub fn judge<D: Digester>(&self, digester: &mut D, start: &Digest, end: &Digest) -> Party
        ensures value { result ≡ verdict D.hash start.now self.now end.now }
        ensures seen { D.seen digester.new ≡ seen_all D.adds (D.seen digester.old) (digested D.hash start.now self.now) }
        ensures few { length (digested D.hash start.now self.now) ≤ (if storing (instruction_of self.now) then 53 else 36) }
        ensures rests { (k : Hash) → Agree D.hash k (digested D.hash start.now self.now) → result ≡ verdict k start.now self.now end.now }
        ensures sound { (s : State) → Valid s → start.now ≡ digest D.hash s → result ≡ Claimer → (end.now ≡ digest D.hash (step s)) ⊎ Found D.hash s self.now }
    {
        self.shape();
        self.decide(digester, start, end)
    }

    // The first two strings in which a witness differs from a party's own: the states', then the instructions' ways from the top down, then the other ways.
    // Where the claimer won against the truth, these are different strings with one digest.
    pub fn difference<D: Digester>(
        &self,
        digester: &mut D,
        own: &Witness,
    ) -> Option<(Preimage, Preimage)>
        ensures value { two_bytes result ≡ first_difference D.hash self.now own.now }
        ensures collides { (s : State) → own.now ≡ shown D.hash s → Found D.hash s self.now → Collides D.hash result }
    {
        let state = state_preimage(self.place, self.register, &self.memory);
        let own_state = state_preimage(own.place, own.register, &own.memory);
        if state != own_state {
            return Some((Preimage::State(state), Preimage::State(own_state)));
        }
        let on_the_way = Opening::difference(
            digester,
            self.place,
            &self.instruction,
            own.place,
            &own.instruction,
        );
        on_the_way.or_else(|| {
            Opening::difference(
                digester,
                u32::from(place_of(self.instruction.word)),
                &self.operand,
                u32::from(place_of(own.instruction.word)),
                &own.operand,
            )
        })
    }
}

// The machine is a lawful system: what disputes about its runs rest on.
pub fn machine_is_lawful()
    ensures { MachineLawful }
{}
