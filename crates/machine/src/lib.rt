// The machine: 65,536 words of 32 bits in a lent slice, a register, and the place of the next instruction.
#![tactic(auto)]

ghost use Rattle.std.specs.Prelude.{◌≡◌, ◌%◌, eqb, length, if◌then◌else◌, Some, None, Decides, slice_index};
ghost use Rattle.merkle.specs.Seen.{seen_all};
ghost use Rattle.machine.specs.declared.Instruction.TheVariants.{Halt};
ghost use Rattle.machine.specs.Machine.{instruction, decode as decoded, cpu_after, stores as stored, place_of, step as stepped, run as runs, digest as digests, digest_preimages};

use merkle::{Digest, Digester, memory_digest, state_digest};

// How many words a memory has.
pub const WORDS: usize = 65536;

// A memory of that size; at the public calls it is a lent slice.
type Memory = [u32; WORDS];

// An instruction with its place.
#[derive(Debug, Clone, Copy, PartialEq, Eq)]
pub enum Instruction {
    Load(u16),
    Store(u16),
    Add(u16),
    Subtract(u16),
    Jump(u16),
    JumpIfZero(u16),
    Set(u16),
    Halt,
}

// The place of the next instruction and the register.
#[derive(Debug, Default, Clone, Copy, PartialEq, Eq)]
pub struct Cpu {
    pub place: u16,
    pub register: u32,
}

// The place in a word that is an instruction.
pub fn place_of(word: u32) -> u16
    ensures { result ≡ place_of word }
{
    (word % 65536) as u16
}

impl Instruction {
    // The instruction of a number and a place; the numbers of the table stand here alone.
    fn numbered(number: u32, place: u16) -> Instruction
        ensures { result ≡ instruction number place }
    {
        match number {
            1 => Instruction::Load(place),
            2 => Instruction::Store(place),
            3 => Instruction::Add(place),
            4 => Instruction::Subtract(place),
            5 => Instruction::Jump(place),
            6 => Instruction::JumpIfZero(place),
            7 => Instruction::Set(place),
            _ => Instruction::Halt,
        }
    }

    // Whether it stores the register at its place.
    pub fn stores(self) -> bool
        ensures { result ≡ stored self }
    {
        matches!(self, Instruction::Store(_))
    }

    // A word as an instruction. No From: many words are read as Halt, so it is a reading and no conversion.
    #[tactic(auto, unfolding(crate::specs::Machine::decode))]
    pub fn decode(word: u32) -> Instruction
        ensures { result ≡ decoded word }
    {
        Instruction::numbered(word / 65536, place_of(word))
    }
}

impl Cpu {
    // Whether the next instruction halts the machine.
    fn has_halted(&self, memory: &Memory) -> bool
        ensures { Decides result (decoded (slice_index memory.now self.now.place) ≡ Halt) }
    {
        Instruction::decode(memory[usize::from(self.place)]) == Instruction::Halt
    }

    // What an instruction makes of place and register; `operand` is the word at its place.
    pub fn execute(&mut self, instruction: Instruction, operand: u32)
        ensures { self.new ≡ cpu_after instruction self.old operand }
    {
        let next = self.place.wrapping_add(1);
        match instruction {
            Instruction::Load(_) => {
                self.place = next;
                self.register = operand;
            }
            Instruction::Store(_) => self.place = next,
            Instruction::Add(_) => {
                self.place = next;
                self.register = self.register.wrapping_add(operand);
            }
            Instruction::Subtract(_) => {
                self.place = next;
                self.register = self.register.wrapping_sub(operand);
            }
            Instruction::Jump(target) => self.place = target,
            Instruction::JumpIfZero(target) => {
                self.place = if self.register == 0 { target } else { next };
            }
            Instruction::Set(value) => {
                self.place = next;
                self.register = u32::from(value);
            }
            Instruction::Halt => {}
        }
    }

    // One step.
    #[tactic(auto, unfolding(crate::specs::Machine::step))]
    fn step(&mut self, memory: &mut Memory)
        ensures { record { cpu = self.new; memory = memory.new } ≡ stepped (record { cpu = self.old; memory = memory.old }) }
    {
        let word = memory[usize::from(self.place)];
        let place = usize::from(place_of(word));
        let operand = memory[place];
        let instruction = Instruction::decode(word);
        if instruction.stores() {
            memory[place] = self.register;
        }
        self.execute(instruction, operand);
    }
}

// The state after so many steps; a machine that has halted is not run on.
#[tactic(auto, using(crate::proofs::Runs::halt_run, crate::proofs::Runs::run_more, crate::proofs::Runs::run_done))]
fn run_slice(memory: &mut Memory, cpu: Cpu, steps: u64) -> Cpu
    ensures { record { cpu = result; memory = memory.new } ≡ runs steps (record { cpu = cpu; memory = memory.old }) }
{
    let mut cpu = cpu;
    for _ in 0..steps {
        if cpu.has_halted(memory) {
            return cpu;
        }
        cpu.step(memory);
    }
    cpu
}

// Whoever is told, now and then, how many steps of a long run are done.
// A trait and no closure: a call of a closure would bring a `requires` to each public function that takes one.
pub trait Watch {
    fn done(&mut self, steps: u64);
}

// Nobody.
#[derive(Clone, Copy)]
pub struct Unwatched;

impl Watch for Unwatched {
    fn done(&mut self, _steps: u64) {}
}

// After so many steps a run tells whoever watches it.
const SLICE: usize = 1 << 24;

// Runs so many steps. A memory of another size than 65,536 words is refused and left as it is.
// The memory stands apart from place and register, since it is lent as a slice.
#[tactic(auto, using(crate::proofs::Runs::run_none, crate::proofs::Runs::run_some, crate::proofs::Runs::run_done))]
pub fn run<W: Watch>(memory: &mut [u32], cpu: Cpu, steps: u64, watch: &mut W) -> Option<Cpu>
    ensures cpu { result ≡ (if eqb (length memory.old) 65536 then Some (runs steps (record { cpu = cpu; memory = memory.old })).cpu else None) }
    ensures memory { memory.new ≡ (if eqb (length memory.old) 65536 then (runs steps (record { cpu = cpu; memory = memory.old })).memory else memory.old) }
{
    let memory = memory.as_mut_array::<WORDS>()?;
    let mut cpu = cpu;
    for done in (0..steps).step_by(SLICE) {
        let slice = (steps - done).min(SLICE as u64);
        cpu = run_slice(memory, cpu, slice);
        watch.done(done + slice);
    }
    Some(cpu)
}

// The digest of a state.
#[tactic(auto, using(merkle::proofs::Seen::seen_last))]
pub fn digest<D: Digester>(digester: &mut D, cpu: Cpu, memory: &[u32]) -> Digest
    ensures value { result ≡ digests D.hash (record { cpu = cpu; memory = memory.now }) }
    ensures seen { D.seen digester.new ≡ seen_all D.adds (D.seen digester.old) (digest_preimages D.hash (record { cpu = cpu; memory = memory.now })) }
{
    let root = memory_digest(digester, memory);
    state_digest(digester, cpu.place, cpu.register, &root)
}
