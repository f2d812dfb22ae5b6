// Program files.
ghost use Rattle.std.specs.Prelude.{◌≡◌, ◌-◌, ◌≤◌, ◌++◌, map, length, replicate, IfOk};
ghost use Rattle.text.specs.declared.program.LoadError.TheVariants.{NoMemory};
ghost use Rattle.text.specs.Program.{Made, program, refusal, word_in};

use machine::WORDS;
use std::alloc::{AllocError, Global};
use thiserror::Error;

// Why there is no program.
#[derive(Clone, Copy, Debug, PartialEq, Eq, Error)]
pub enum LoadError {
    #[error("the program file is not in whole words of 4 bytes")]
    NotWords,
    #[error("the program file has more than 65536 words")]
    TooLong,
    #[error("there is no memory for the program")]
    NoMemory,
}

impl LoadError {
    // The number that is printed for it, if the rules give it one.
    pub fn number(self) -> Option<u8>
        ensures { result ≡ refusal self }
    {
        match self {
            LoadError::NotWords | LoadError::TooLong => Some(5),
            LoadError::NoMemory => None,
        }
    }
}

// By hand, since the contract of `load` needs to know which it gives.
impl From<AllocError> for LoadError {
    ghost from_gives = { λ _ e. e ≡ NoMemory };

    fn from(_e: AllocError) -> LoadError {
        Self::NoMemory
    }
}

// A memory with these words at its front, and zeros.
fn filled(heap: Global, words: &[[u8; 4]]) -> Result<Vec<u32>, AllocError>
    requires { length words.now ≤ 65536 }
    ensures { IfOk result (λ v. v.items ≡ map word_in words.now ++ replicate (65536 - length words.now) 0) }
{
    let mut memory = Vec::with_capacity(heap, WORDS)?;
    memory.extend(words.iter().map(|word| u32::from_be_bytes(*word)))?;
    memory.resize(WORDS, 0)?;
    Ok(memory)
}

// The memory that a program file fills.
pub fn load(heap: Global, file: &[u8]) -> Result<Vec<u32>, LoadError>
    ensures { Made file.now (λ v. v.items ≡ program file.now) result }
{
    let (words, rest) = file.as_chunks::<4>();
    if !rest.is_empty() {
        return Err(LoadError::NotWords);
    }
    if words.len() > WORDS {
        return Err(LoadError::TooLong);
    }
    Ok(filled(heap, words)?)
}
