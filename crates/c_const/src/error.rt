//! Why an expression is no constant.

ghost use Rattle.std.specs.Prelude.{◌≡◌};
ghost use Rattle.c_const.specs.declared.error.ConstError.TheVariants.{Memory};

use std::alloc::AllocError;
use thiserror::Error;

/// Why an expression or an initialiser has no constant value.
#[derive(Clone, Copy, Debug, PartialEq, Eq, Error)]
pub enum ConstError {
    /// The expression that begins with this token isn't constant (C11, 6.6).
    #[error("not a constant")]
    NotConstant { token: u32 },
    #[error("out of memory")]
    Memory,
}

impl From<AllocError> for ConstError {
    ghost from_gives = { λ _ e. e ≡ Memory };

    fn from(_e: AllocError) -> ConstError {
        ConstError::Memory
    }
}
