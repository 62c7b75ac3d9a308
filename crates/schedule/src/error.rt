//! Why a schedule was not read.

ghost use Rattle.std.specs.Prelude.{◌≡◌};
ghost use Rattle.schedule.specs.declared.error.SchedError.TheVariants.{Memory};

use std::alloc::{AllocError, AllocFailed};
use thiserror::Error;

/// Why a schedule was not read. Lines are numbered from 1, and every line counts.
#[derive(Debug, Drop, Error)]
pub enum SchedError {
    /// The first line that isn't in the grammar; 1 where the schedule's first line is missing or wrong.
    #[error("bad schedule line")]
    BadLine { line: u32 },
    /// The line of the event behind the greatest number of events.
    #[error("too many events")]
    TooMany { line: u32 },
    #[error("out of memory")]
    Memory,
}

impl From<AllocError> for SchedError {
    ghost from_gives = { λ _ e. e ≡ Memory };

    fn from(_e: AllocError) -> SchedError {
        SchedError::Memory
    }
}

impl<T: Drop> From<AllocFailed<T>> for SchedError {
    ghost from_gives = { λ _ e. e ≡ Memory };

    fn from(_e: AllocFailed<T>) -> SchedError {
        SchedError::Memory
    }
}
