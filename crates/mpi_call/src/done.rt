//! What a call gives.

ghost use Rattle.std.specs.Prelude.{◌≡◌, pos, [], Some, None};

use am_base::TrapCause;
use collectives::SweepOut;
use mpi_rules::SendOut;
use mpi_types::{Hit, Sequence, Write};
use std::alloc::{AllocError, Global};

/// What a call gives that is no second tick, no Wait, no Waitall and no Test.
#[derive(Debug, Drop)]
pub struct Began {
    /// Its value, none just at the first of two ticks.
    pub answer: Option<i32>,
    pub send: Option<SendOut>,
    /// The message that a posted receive has met at once.
    pub hit: Option<Hit>,
    /// What joining a collective led to.
    pub sweep: Option<SweepOut>,
}

/// What a call gives that may have to wait.
#[derive(Clone, Copy, Debug, PartialEq, Eq)]
pub enum Finished {
    Answered(i32),
    /// A request has no message yet, or the collective isn't gathered. Nothing has changed.
    NotYet,
}

/// Why a call gives nothing.
#[derive(Clone, Copy, Debug, PartialEq, Eq)]
pub enum CallStop {
    /// The rank is trapped. Its memory and its MPI data are as they were.
    Trap(TrapCause),
    /// `MPI_Abort` ends the rank with this status. Nothing else has changed.
    End(i32),
    /// The host has no memory left. The rank's MPI data are only to be dropped.
    Memory,
}

impl From<AllocError> for CallStop {
    ghost use Rattle.std.specs.Prelude.{◌≡◌};
    ghost use Rattle.mpi_call.specs.declared.done.CallStop.TheVariants.{Memory};

    ghost from_gives = { λ _ e. e ≡ Memory };

    fn from(_error: AllocError) -> CallStop {
        CallStop::Memory
    }
}

/// What a call gives, before anything is written into the rank's memory.
#[derive(Debug, Drop)]
pub struct Done {
    pub answer: Option<i32>,
    pub writes: Sequence<Write>,
    pub send: Option<SendOut>,
    pub hit: Option<Hit>,
    pub sweep: Option<SweepOut>,
}

/// The answer 0 with these writes.
pub fn writing(writes: Sequence<Write>) -> Done
    ensures { result ≡ record { answer = Some (pos 0); writes = writes; send = None; hit = None; sweep = None } }
{
    Done {
        answer: Some(0),
        writes,
        send: None,
        hit: None,
        sweep: None,
    }
}

/// The answer 0, and nothing else.
pub fn quiet(alloc: Global) -> Done
    ensures { result ≡ record { answer = Some (pos 0); writes = []; send = None; hit = None; sweep = None } }
{
    writing(Sequence::new(alloc))
}
