//! Why a text has no tokens.

ghost use Rattle.std.specs.Prelude.{◌≡◌};
ghost use Rattle.c_lex.specs.declared.error.LexError.TheVariants.{Memory};

use std::alloc::{AllocError, AllocFailed};
use thiserror::Error;

/// Why a text has no tokens: the cause, and the place of the first byte that offends, from 0 on.
#[derive(Clone, Copy, Debug, PartialEq, Eq, Error)]
pub enum LexError {
    /// A byte that begins no token, a byte that may not stand in a literal, a bad escape, an octal 8 or 9.
    #[error("bad byte")]
    BadByte { at: u32 },
    /// A number with a point or an exponent, by its first byte.
    #[error("floating point")]
    FloatLiteral { at: u32 },
    /// A word of C that this profile leaves out.
    #[error("word outside this profile")]
    OutWord { at: u32 },
    /// A number of 2^64 or more, by its first byte.
    #[error("number wider than 64 bits")]
    TooWide { at: u32 },
    /// A comment or a literal that isn't closed, by its first byte.
    #[error("unclosed")]
    Unclosed { at: u32 },
    /// The `#` of a directive that is none of this profile's, or that defines a name again.
    #[error("directive")]
    Directive { at: u32 },
    /// The token, or the use of the macro, that brings the 1,048,577th token.
    #[error("too many tokens")]
    TooMany { at: u32 },
    #[error("out of memory")]
    Memory,
}

impl From<AllocError> for LexError {
    ghost from_gives = { λ _ e. e ≡ Memory };

    fn from(_e: AllocError) -> LexError {
        LexError::Memory
    }
}

impl<T: Drop> From<AllocFailed<T>> for LexError {
    ghost from_gives = { λ _ e. e ≡ Memory };

    fn from(_e: AllocFailed<T>) -> LexError {
        LexError::Memory
    }
}
