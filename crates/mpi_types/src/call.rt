//! The calls of MPI and their answers.

use crate::Sequence;
use am_base::{Bytes, MpiCall, TrapCause};

/// An MPI call that a rank stands at.
#[derive(Debug, Drop)]
pub struct Call {
    pub name: MpiCall,
    /// The values of its arguments, in order, as words.
    pub args: Sequence<u64>,
    /// Whether this is its second tick: receives and collectives take two.
    pub second: bool,
}

/// Bytes that a call writes from an address on.
#[derive(Debug, Drop)]
pub struct Write {
    pub address: u64,
    pub bytes: Bytes,
}

/// What an MPI call answers at one of its ticks.
#[derive(Debug, Drop)]
pub enum Answer {
    /// The same call has a second tick.
    Half,
    /// The call is done.
    Value {
        result: i32,
        /// What it writes into the rank's memory, one after another.
        writes: Sequence<Write>,
    },
    /// The rank is trapped.
    Trap {
        cause: TrapCause,
    },
    /// The rank is ended with this status.
    End {
        status: i32,
    },
}
