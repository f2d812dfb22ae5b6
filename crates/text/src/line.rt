// The line of a state.
ghost use Rattle.std.specs.Prelude.{◌≡◌, length, IfOk, string_bytes};
ghost use Rattle.machine.specs.Machine.{start, run as runs};
ghost use Rattle.text.specs.Text.{line, state_line};
ghost use Rattle.text.specs.Program.{Made, program as filled};

use crate::program::LoadError;
use crate::{hex, program};
use machine::{Cpu, Watch};
use merkle::{Digest, Digester};
use std::alloc::{AllocError, Global};

// PLACE REGISTER DIGEST.
fn of(heap: Global, cpu: Cpu, digest: &Digest) -> Result<String, AllocError>
    ensures { IfOk result (λ s. string_bytes s ≡ line cpu digest.now) }
{
    let digits = hex::encode(heap, digest)?;
    let Cpu { place, register } = cpu;
    format!(in heap; "{place} {register} {digits}")
}

// The line of the state after so many steps from the start. A slice and no array, since `run` takes one.
fn from_start<D: Digester, W: Watch>(
    heap: Global,
    memory: &mut [u32],
    steps: u64,
    digester: &mut D,
    watch: &mut W,
) -> Result<String, AllocError>
    requires { length memory.old ≡ 65536 }
    ensures { IfOk result (λ s. string_bytes s ≡ state_line D.hash (runs steps (start memory.old))) }
{
    let cpu = machine::run(memory, Cpu::default(), steps, watch).unwrap();
    let digest = machine::digest(digester, cpu, memory);
    of(heap, cpu, &digest)
}

// The line of a program's state after so many steps.
#[tactic(auto, using(crate::proofs::Wholes::program_whole))]
pub fn after<D: Digester, W: Watch>(
    heap: Global,
    file: &[u8],
    steps: u64,
    digester: &mut D,
    watch: &mut W,
) -> Result<String, LoadError>
    ensures { Made file.now (λ s. string_bytes s ≡ state_line D.hash (runs steps (start (filled file.now)))) result }
{
    let mut memory = program::load(heap, file)?;
    Ok(from_start(heap, &mut memory, steps, digester, watch)?)
}
