//! Why there is no figure.
use std::alloc::AllocError;
use std::process::ExitCode;

#[derive(Clone, Copy, Debug)]
pub enum Failed {
    /// The words ask for none.
    Words,
    /// The output couldn't be written.
    Output,
    /// Memory ran out.
    Memory,
    /// What is measured refused what was made for it.
    Refused,
}

impl Failed {
    /// What the process ends with.
    pub(crate) fn code(self) -> ExitCode {
        ExitCode::from(match self {
            Failed::Words => 1,
            Failed::Output => 2,
            Failed::Memory => 3,
            Failed::Refused => 4,
        })
    }
}

impl From<AllocError> for Failed {
    fn from(_e: AllocError) -> Failed {
        Failed::Memory
    }
}
