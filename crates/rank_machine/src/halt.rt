//! How a run in the midst of a call ends.

use am_base::TrapCause;

/// Why a machine doesn't go on behind an instruction.
#[derive(Clone, Copy, Debug, PartialEq, Eq)]
pub enum Halt {
    /// `main` returned, and the rank is ended with this status.
    Returned(i32),
    /// The rank ended itself with this status.
    Exited(i32),
    Trapped(TrapCause),
    /// An operand, a function or an instruction isn't there. No code that goes on comes to it.
    Lost,
}

/// Why a run ends.
#[derive(Clone, Copy, Debug, PartialEq, Eq)]
pub enum Rest {
    Halted(Halt),
    /// It stands at a tick point that is no call of MPI, with no tick left.
    Paused,
    /// It stands at a call of MPI.
    Calls,
    /// The host has no memory left for what the next instruction prints.
    Memory,
}
