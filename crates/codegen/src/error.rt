//! Why no code is made.

ghost use Rattle.std.specs.Prelude.{◌≡◌};
ghost use Rattle.codegen.specs.declared.error.GenError.TheVariants.{Memory};

use std::alloc::AllocError;
use thiserror::Error;

/// Why no code is made.
#[derive(Clone, Copy, Debug, PartialEq, Eq, Error)]
pub enum GenError {
    /// In the full expression that begins at this token more values are pending at once than may be, and in none before it.
    #[error("more than 32 pending values")]
    TooComplex { unit: u8, token: u32 },
    /// There is no `main`.
    #[error("no main")]
    NoMain,
    /// `main` is not among the functions of which the compiler knows how their code is made.
    #[error("main is not covered")]
    NotCovered,
    /// The code would have 2^32 instructions or more.
    #[error("too much code")]
    TooLong,
    #[error("out of memory")]
    Memory,
}

impl From<AllocError> for GenError {
    ghost from_gives = { λ _ e. e ≡ Memory };

    fn from(_e: AllocError) -> GenError {
        GenError::Memory
    }
}
