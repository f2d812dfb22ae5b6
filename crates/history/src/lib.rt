// The states that a party keeps of its own run: after each 2^20 steps, what has changed since the state before.
#![tactic(auto)]

ghost use Rattle.std.specs.Prelude.{◌≡◌, ◌+◌, ◌*◌, ◌/◌, ◌^◌, ◌<◌, ◌≤◌, max, true, is_ok, IfOk, if◌then◌else◌, vec_len, MatchOption, OnOk, ◌≢◌};
ghost use Rattle.machine.specs.Machine.{State, start, step, run as runs, digest as digests};
ghost use Rattle.witness.specs.Witness.{witness as shown, accepts};
ghost use Rattle.history.specs.Keeping.{Keeps, after, differing, patched, spacing};

use machine::{Cpu, Unwatched, WORDS, Watch, digest, run};
use merkle::{Digest, Digester};
use std::alloc::{AllocError, Global};
use std::marker::Model;
use witness::Witness;

// How many steps a slice of the run has.
const SPACING: u64 = 1 << 20;

// A word that changed, and its place.
#[derive(Clone, Copy)]
struct Change {
    place: u16,
    word: u32,
}

// A slice of the run: the processor at its end, and the words that then differ from those at its beginning.
#[derive(Drop)]
struct Slice {
    cpu: Cpu,
    changes: Vec<Change>,
}

// A program, and the first slices of its run.
#[derive(Drop)]
pub struct History {
    program: Vec<u32>,
    slices: Vec<Slice>,
    ghost size: { vec_len program ≡ 65536 },
    ghost kept: { Keeps program.items slices.items },
}

// The machine at some point of a program's run.
#[derive(Clone, Drop)]
struct Snapshot {
    cpu: Cpu,
    memory: Vec<u32>,
}

impl Model for Snapshot {
    ghost Value = { State };

    ghost view = { λ s. record { cpu = s.cpu; memory = s.memory.items } };

    ghost invariant = { λ s. vec_len s.memory ≡ 65536 };
}

impl Snapshot {
    // Runs so many steps.
    fn run_on(&mut self, steps: u64)
        ensures { self.new ≡ runs steps self.old }
    {
        self.cpu = run(&mut self.memory, self.cpu, steps, &mut Unwatched).unwrap();
    }

    // Goes from the beginning of a slice to its end.
    #[tactic(auto, using(crate::proofs::Patches::patched_more, crate::proofs::Patches::patched_all))]
    fn resume(&mut self, slice: &Slice)
        ensures { self.new ≡ after slice.now self.old }
    {
        for change in &slice.changes {
            self.memory[usize::from(change.place)] = change.word;
        }
        self.cpu = slice.cpu;
    }

    // The words that differ from those before.
    #[tactic(auto, using(crate::proofs::Patches::differing_same, crate::proofs::Patches::differing_more, crate::proofs::Patches::differing_all, crate::proofs::Patches::patched_differing))]
    fn changes_since(&self, before: &Snapshot) -> Result<Vec<Change>, AllocError>
        ensures words { IfOk result (λ v. v.items ≡ differing 0 before.now.memory self.now.memory) }
        ensures leads { IfOk result (λ v. patched v.items before.now.memory ≡ self.now.memory) }
    {
        let mut changes = Vec::new(*self.memory.allocator());
        // No zip with `before`: the proof that each place fits 16 bits does not close over it.
        for (place, word) in self.memory.iter().enumerate() {
            if before.memory[place] != *word {
                changes.push(Change {
                    place: place as u16,
                    word: *word,
                })?;
            }
        }
        Ok(changes)
    }

    // Becomes the same as another, in the memory that it has.
    fn copy_from(&mut self, other: &Snapshot)
        ensures { self.new ≡ other.now }
    {
        self.cpu = other.cpu;
        self.memory.copy_from_slice(&other.memory);
    }

    // Runs on to the end of the next slice, which it makes; `before` has the memory for a copy of the beginning.
    fn next_slice(&mut self, before: &mut Snapshot) -> Result<Slice, AllocError>
        ensures state { OnOk result (self.new ≡ runs spacing self.old) }
        ensures slice { IfOk result (λ x. after x self.old ≡ self.new) }
    {
        before.copy_from(self);
        self.run_on(SPACING);
        let changes = self.changes_since(before)?;
        let cpu = self.cpu;
        Ok(Slice { cpu, changes })
    }
}

impl History {
    // Of a program, with no slices yet. Another size than 65,536 words is refused.
    #[tactic(auto, using(crate::proofs::Slices::keeps_none))]
    pub fn new(heap: Global, program: Vec<u32>) -> Option<History>
        ensures { MatchOption result (vec_len program ≢ 65536) (λ h. (h.program ≡ program) × (vec_len h.slices ≡ 0)) }
    {
        if program.len() != WORDS {
            return None;
        }
        Some(History {
            program,
            slices: Vec::new(heap),
        })
    }

    // The state at the end of so many slices.
    #[tactic(auto, using(crate::proofs::Slices::resumed_all))]
    fn at_end_of(&self, slices: usize) -> Result<Snapshot, AllocError>
        requires { slices ≤ vec_len self.now.slices }
        ensures { IfOk result (λ s. s ≡ runs (slices * spacing) (start self.now.program.items)) }
    {
        // Not by clone, with which the proof of what is returned does not close.
        let memory = Vec::from_slice(*self.program.allocator(), &self.program)?;
        let mut state = Snapshot {
            cpu: Cpu::default(),
            memory,
        };
        for slice in &self.slices[..slices] {
            state.resume(slice);
        }
        Ok(state)
    }

    // Keeps one slice more; `state` is the one at the end of the others, and then at its end.
    #[tactic(auto, using(machine::proofs::Runs::run_add))]
    fn keep_next(&mut self, state: &mut Snapshot, before: &mut Snapshot) -> Result<(), AllocError>
        requires { state.old ≡ runs (vec_len self.old.slices * spacing) (start self.old.program.items) }
        ensures program { self.new.program ≡ self.old.program }
        ensures slices { vec_len self.new.slices ≡ (if is_ok result then vec_len self.old.slices + 1 else vec_len self.old.slices) }
        ensures state { OnOk result (state.new ≡ runs ((vec_len self.old.slices + 1) * spacing) (start self.old.program.items)) }
    {
        let slice = state.next_slice(before)?;
        self.slices.push(slice)?;
        Ok(())
    }

    // Keeps the slices of the run up to so many steps, and tells whoever watches how many steps are kept.
    // For want of memory there may be fewer.
    pub fn extend<W: Watch>(&mut self, steps: u64, watch: &mut W) -> Result<(), AllocError>
        ensures program { self.new.program ≡ self.old.program }
        ensures more { vec_len self.old.slices ≤ vec_len self.new.slices }
        ensures slices { OnOk result (vec_len self.new.slices ≡ max (vec_len self.old.slices) (steps / spacing)) }
    {
        let wanted = steps / SPACING;
        let kept = self.slices.len();
        if wanted <= kept as u64 {
            return Ok(());
        }
        let mut state = self.at_end_of(kept)?;
        // Its memory serves every slice; only what is kept asks for more.
        let mut before = state.clone()?;
        for slice in kept as u64..wanted {
            self.keep_next(&mut state, &mut before)?;
            watch.done((slice + 1) * SPACING);
        }
        Ok(())
    }

    // The state after so many steps of the program: from the last slice before it that is kept.
    #[tactic(auto, using(machine::proofs::Runs::run_add))]
    pub fn state_at(&self, steps: u64) -> Result<(Cpu, Vec<u32>), AllocError>
        ensures size { IfOk result (λ s. vec_len s.1 ≡ 65536) }
        ensures state { IfOk result (λ s. record { cpu = s.0; memory = s.1.items } ≡ runs steps (start self.now.program.items)) }
    {
        let slices = (steps / SPACING).min(self.slices.len() as u64);
        let mut state = self.at_end_of(slices as usize)?;
        state.run_on(steps - slices * SPACING);
        let Snapshot { cpu, memory } = state;
        Ok((cpu, memory))
    }

    // The digest of the state after so many steps.
    pub fn digest_at<D: Digester>(&self, digester: &mut D, steps: u64) -> Result<Digest, AllocError>
        ensures { IfOk result (λ d. d ≡ digests D.hash (runs steps (start self.now.program.items))) }
    {
        let (cpu, memory) = self.state_at(steps)?;
        Ok(digest(digester, cpu, &memory))
    }

    // What an honest party shows of the step that follows so many steps; it is accepted between the digests of the states before and after that step.
    pub fn witness_at<D: Digester>(
        &self,
        digester: &mut D,
        steps: u64,
    ) -> Result<Witness, AllocError>
        ensures value { IfOk result (λ w. w ≡ shown D.hash (runs steps (start self.now.program.items))) }
        ensures complete { IfOk result (λ w. accepts D.hash (digests D.hash (runs steps (start self.now.program.items))) w (digests D.hash (step (runs steps (start self.now.program.items)))) ≡ true) }
    {
        let (cpu, memory) = self.state_at(steps)?;
        Ok(Witness::of(digester, cpu, &memory))
    }
}
