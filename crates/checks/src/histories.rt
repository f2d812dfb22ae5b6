// States that a history finds again.
use digests::Sha256;
use history::History;
use machine::{Cpu, Unwatched};
use merkle::Digester;
use std::alloc::Global;
use std::process::Abort;
use std::test::Fail;
use text::program;

// The instruction at place 4 stores itself, and moves on by one place in each turn: after the last place it adds, and later it jumps.
const MOVES: [u8; 28] = [
    0, 1, 0, 4, 0, 3, 0, 6, 0, 2, 0, 4, 0, 1, 0, 4, 0, 2, 4, 0, 0, 5, 0, 0, 0, 0, 0, 1,
];

fn memory(heap: Global) -> Result<Vec<u32>, Fail> {
    Ok(program::load(heap, &MOVES)?)
}

// The state after so many steps is the one that a run from the start gives, and so is its digest.
fn found(rt: &impl Abort, heap: Global, history: &History, steps: u64) -> Result<(), Fail> {
    let (cpu, words) = history.state_at(steps)?;
    let mut memory = memory(heap)?;
    let end = machine::run(&mut memory, Cpu::default(), steps, &mut Unwatched).ok_or_else(
        || Fail::new("refused"),
    )?;
    assert_eq!(rt; cpu, end);
    assert!(rt; words == memory);
    assert_eq!(rt;
        history.digest_at(&mut Sha256, steps)?,
        machine::digest(&mut Sha256, end, &memory)
    );
    Ok(())
}

#[test]
fn states_are_found(rt: HostRuntime) -> Result<(), Fail> {
    let heap = rt.alloc();
    let mut history = History::new(heap, memory(heap)?).ok_or_else(|| Fail::new("refused"))?;
    found(&rt, heap, &history, 1_048_577)?;
    history.extend(1_048_576, &mut Unwatched)?;
    history.extend(3_145_727, &mut Unwatched)?;
    for steps in [
        0, 1, 1_048_575, 1_048_576, 1_048_577, 2_097_151, 2_097_152, 2_097_153, 3_145_728,
    ] {
        found(&rt, heap, &history, steps)?;
    }
    Ok(())
}

// A program of another size is refused.
#[test]
fn short_program_has_no_history(rt: HostRuntime) -> Result<(), Fail> {
    let heap = rt.alloc();
    assert!(rt; History::new(heap, vec![in heap; 0; 65_535]?).is_none());
    Ok(())
}
