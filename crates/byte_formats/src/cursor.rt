//! The bytes that are left to read.

ghost use Rattle.std.specs.Prelude.{◌≡◌};
ghost use Rattle.byte_formats.specs.declared.cursor.Unspelled.TheVariants.{Memory};

use std::alloc::{AllocError, AllocFailed};

/// Bytes that are read from their front: those that are left.
#[derive(Debug, Drop)]
pub struct Cursor<'a> {
    pub rest: &'a [u8],
}

/// Why a value wasn't read. What the cursor then stands at isn't told.
#[derive(Clone, Copy, Debug, PartialEq, Eq)]
pub enum Unspelled {
    /// The bytes spell none.
    Bad,
    /// Want of memory.
    Memory,
}

impl From<AllocError> for Unspelled {
    ghost from_gives = { λ _ e. e ≡ Memory };

    fn from(_error: AllocError) -> Unspelled {
        Unspelled::Memory
    }
}

impl<T: Drop> From<AllocFailed<T>> for Unspelled {
    ghost from_gives = { λ _ e. e ≡ Memory };

    fn from(_error: AllocFailed<T>) -> Unspelled {
        Unspelled::Memory
    }
}
