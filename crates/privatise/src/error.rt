//! Why a program has no segment.

ghost use Rattle.std.specs.Prelude.{◌≡◌};
ghost use Rattle.privatise.specs.declared.error.SegError.TheVariants.{Memory};

use std::alloc::AllocError;
use thiserror::Error;

/// Why a program has no segment, and at which token of which unit. Both are numbered from 0.
#[derive(Clone, Copy, Debug, PartialEq, Eq, Error)]
pub enum SegError {
    /// With the object whose name or string this is the globals pass 315,392 bytes.
    #[error("globals too large")]
    TooLarge { unit: u8, token: u32 },
    /// No unit defines what this name names; or none defines `main`.
    #[error("name used but not defined")]
    Undefined { unit: u8, token: u32 },
    /// What this name names is defined before.
    #[error("name defined twice")]
    Twice { unit: u8, token: u32 },
    #[error("out of memory")]
    Memory,
}

impl From<AllocError> for SegError {
    ghost from_gives = { λ _ e. e ≡ Memory };

    fn from(_e: AllocError) -> SegError {
        SegError::Memory
    }
}
