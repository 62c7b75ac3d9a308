//! Why the program ends early.

use am_io::SayError;
use std::alloc::AllocError;
use thiserror::Error;

#[derive(Debug, Drop, Error)]
pub enum Stop {
    #[error("the words can't be read")]
    Arguments,
    #[error("no such word")]
    Words,
    #[error("a data file can't be read")]
    File,
    #[error("the output can't be written")]
    Output,
    #[error("out of memory")]
    Memory,
}

impl Stop {
    /// The exit status.
    pub(crate) fn status(&self) -> u8 {
        match self {
            Stop::Arguments | Stop::Words => 1,
            Stop::File => 2,
            Stop::Output => 10,
            Stop::Memory => 11,
        }
    }
}

impl From<AllocError> for Stop {
    fn from(_error: AllocError) -> Stop {
        Stop::Memory
    }
}

impl From<SayError> for Stop {
    fn from(error: SayError) -> Stop {
        match error {
            SayError::Failed => Stop::Output,
            SayError::Memory => Stop::Memory,
        }
    }
}
