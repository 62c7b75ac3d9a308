//! What is told of files that are no program.

ghost use Rattle.std.specs.Prelude.{◌≡◌};
ghost use Rattle.c_compile.specs.declared.error.TextError.TheVariants.{Memory};

use crate::Cause;
use std::alloc::AllocError;
use thiserror::Error;

/// Why files are refused, in which of them, and on which line. Files are numbered from 0, lines from 1.
#[derive(Clone, Copy, Debug, PartialEq, Eq)]
pub struct Refusal {
    pub cause: Cause,
    pub unit: u8,
    pub line: u32,
}

/// Why files are not compiled.
#[derive(Clone, Copy, Debug, PartialEq, Eq, Error)]
pub enum CompileError {
    #[error("a file is refused")]
    Refused(Refusal),
    #[error("out of memory")]
    Memory,
}

/// Why a text is no source.
#[derive(Clone, Copy, Debug, PartialEq, Eq, Error)]
pub enum TextError {
    #[error("a text is refused")]
    Wrong { cause: Cause, line: u32 },
    #[error("out of memory")]
    Memory,
}

impl From<AllocError> for TextError {
    ghost from_gives = { λ _ e. e ≡ Memory };

    fn from(_e: AllocError) -> TextError {
        TextError::Memory
    }
}
