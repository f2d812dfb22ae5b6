// Single steps: what an honest party shows is accepted, and whatever is damaged is not; and a collision that the search finds.
use crate::digesters::{Counted, Weak};
use digests::Sha256;
use machine::{Cpu, Unwatched};
use merkle::{Digest, Digester, LEVELS, Opening};
use std::alloc::Global;
use std::test::Fail;
use text::program;
use witness::{Party, Witness};

// One step, as it was: the witness, and the digests at both ends.
#[derive(Clone, Copy)]
struct Step {
    witness: Witness,
    start: Digest,
    end: Digest,
}

fn one_step<D: Digester>(digester: &mut D, memory: &mut [u32], cpu: Cpu) -> Result<Step, Fail> {
    let start = machine::digest(digester, cpu, memory);
    let witness = Witness::of(digester, cpu, memory);
    let next = machine::run(memory, cpu, 1, &mut Unwatched).ok_or_else(|| Fail::new("refused"))?;
    let end = machine::digest(digester, next, memory);
    Ok(Step {
        witness,
        start,
        end,
    })
}

fn claimer_wins<D: Digester>(digester: &mut D, step: &Step) -> bool {
    step.witness.judge(digester, &step.start, &step.end) == Party::Claimer
}

// A memory whose first word is an instruction, with 5 at place 100.
fn memory(heap: Global, instruction: u32) -> Result<Vec<u32>, Fail> {
    let mut memory = program::load(heap, &instruction.to_be_bytes())?;
    if let Some(word) = memory.get_mut(100) {
        *word = 5;
    }
    Ok(memory)
}

// The step that stores 9 at place 100.
fn honest_store(heap: Global) -> Result<Step, Fail> {
    let mut memory = memory(heap, 0x0002_0064)?;
    let cpu = Cpu {
        place: 0,
        register: 9,
    };
    one_step(&mut Sha256, &mut memory, cpu)
}

// Each number from 0 to 8, and the largest; 36 digests, 53 for the store.
#[test]
fn honest_steps_are_accepted(rt: HostRuntime) -> Result<(), Fail> {
    for number in [0u32, 1, 2, 3, 4, 5, 6, 7, 8, 65535] {
        let mut memory = memory(rt.alloc(), number.wrapping_mul(65536).wrapping_add(100))?;
        let cpu = Cpu {
            place: 0,
            register: 9,
        };
        let step = one_step(&mut Sha256, &mut memory, cpu)?;
        let mut counted = Counted {
            inner: Sha256,
            count: 0,
        };
        assert!(rt; claimer_wins(&mut counted, &step), "the honest step wins");
        assert_eq!(rt; counted.count, if number == 2 { 53 } else { 36 });
        let other_end = Step {
            end: step.start,
            ..step
        };
        let stands = number == 0 || number > 7;
        assert_eq!(rt; claimer_wins(&mut Sha256, &other_end), stands);
    }
    Ok(())
}

// A jump where the register is 0, and the last place, after which comes 0.
#[test]
fn edges_are_accepted(rt: HostRuntime) -> Result<(), Fail> {
    let mut memory = memory(rt.alloc(), 0x0006_0064)?;
    let jump = one_step(&mut Sha256, &mut memory, Cpu::default())?;
    assert!(rt; claimer_wins(&mut Sha256, &jump));
    if let Some(word) = memory.get_mut(65535) {
        *word = 0x0007_0003;
    }
    let last = Cpu {
        place: 65535,
        register: 4,
    };
    let around = one_step(&mut Sha256, &mut memory, last)?;
    assert!(rt; claimer_wins(&mut Sha256, &around));
    Ok(())
}

fn with(step: &Step, witness: Witness) -> Step {
    Step { witness, ..*step }
}

// The opening with another word.
fn reworded(opening: &Opening, word: u32) -> Opening {
    Opening { word, ..*opening }
}

// The opening with another sibling on a level.
fn damaged(opening: &Opening, level: usize) -> Opening {
    let mut siblings = opening.siblings;
    if let Some(sibling) = siblings.get_mut(level) {
        *sibling = [7; 32];
    }
    Opening {
        siblings,
        ..*opening
    }
}

#[test]
fn damaged_fields_are_refused(rt: HostRuntime) -> Result<(), Fail> {
    let honest = honest_store(rt.alloc())?;
    let w = honest.witness;
    let other_word = reworded(&w.instruction, 0x0002_0065);
    let other_operand = reworded(&w.operand, 6);
    let instruction = w.instruction;
    let operand = w.operand;
    let damages = [
        Witness { place: 1, ..w },
        Witness { place: 65536, ..w },
        Witness { register: 8, ..w },
        Witness {
            memory: [0; 32],
            ..w
        },
        Witness {
            instruction: other_word,
            ..w
        },
        Witness {
            operand: other_operand,
            ..w
        },
        Witness {
            instruction: operand,
            ..w
        },
        Witness {
            operand: instruction,
            ..w
        },
    ];
    for damage in damages {
        assert!(rt; !claimer_wins(&mut Sha256, &with(&honest, damage)));
    }
    assert!(rt; claimer_wins(&mut Sha256, &honest));
    Ok(())
}

#[test]
fn damaged_siblings_are_refused(rt: HostRuntime) -> Result<(), Fail> {
    let honest = honest_store(rt.alloc())?;
    let w = honest.witness;
    for level in 0..LEVELS {
        let instruction = damaged(&w.instruction, level);
        let operand = damaged(&w.operand, level);
        let one = Witness { instruction, ..w };
        let other = Witness { operand, ..w };
        assert!(rt; !claimer_wins(&mut Sha256, &with(&honest, one)));
        assert!(rt; !claimer_wins(&mut Sha256, &with(&honest, other)));
    }
    Ok(())
}

// A witness comes back from its bytes.
#[test]
fn bytes_are_read_back(rt: HostRuntime) -> Result<(), Fail> {
    let honest = honest_store(rt.alloc())?;
    let bytes = honest.witness.to_bytes();
    assert_eq!(rt; &bytes[0..8], [0, 0, 0, 0, 0, 0, 0, 9].as_slice());
    assert_eq!(rt; &bytes[40..44], [0, 2, 0, 100].as_slice());
    assert_eq!(rt; &bytes[556..560], [0, 0, 0, 5].as_slice());
    let back = Witness::from_bytes(&bytes).ok_or_else(|| Fail::new("refused"))?;
    assert!(rt; back.to_bytes() == bytes);
    assert!(rt; claimer_wins(&mut Sha256, &with(&honest, back)));
    Ok(())
}

#[test]
fn other_lengths_are_refused(rt: HostRuntime) {
    assert!(rt; Witness::from_bytes(&[0; 1071]).is_none());
    assert!(rt; Witness::from_bytes(&[0; 1072]).is_some());
    assert!(rt; Witness::from_bytes(&[0; 1073]).is_none());
}

// Under the weak digest 1 and 256 are one word. 255 + 1 and 255 + 256 are not one sum: the claimer wins with a wrong step, and the search finds both words.
#[test]
fn collision_is_found(rt: HostRuntime) -> Result<(), Fail> {
    let mut memory = memory(rt.alloc(), 0x0003_0064)?;
    if let Some(word) = memory.get_mut(100) {
        *word = 256;
    }
    let cpu = Cpu {
        place: 0,
        register: 255,
    };
    let honest = one_step(&mut Weak, &mut memory, cpu)?;
    let own = honest.witness;
    let operand = reworded(&own.operand, 1);
    let cheat = Witness { operand, ..own };
    let end = merkle::state_digest(&mut Weak, 1, 256, &own.memory);
    assert!(rt; end != honest.end);
    let wrong = Step {
        witness: cheat,
        end,
        ..honest
    };
    assert!(rt; claimer_wins(&mut Weak, &wrong));
    assert!(rt; own.difference(&mut Weak, &own).is_none());
    let (one, other) = cheat
        .difference(&mut Weak, &own)
        .ok_or_else(|| Fail::new("nothing found"))?;
    assert_eq!(rt; one.as_bytes(), [0, 0, 0, 0, 1].as_slice());
    assert_eq!(rt; other.as_bytes(), [0, 0, 0, 1, 0].as_slice());
    Ok(())
}
