//! The table of the causes by which a call traps, in the order of its checks.

ghost use Rattle.std.specs.Prelude.{◌≡◌};
ghost use Rattle.mpi_rules.specs.Faults.{cause_of, late_cause_of};

use am_base::TrapCause;

/// Which checks of a call fail, in the order in which they are made.
#[derive(Clone, Copy, Debug, PartialEq, Eq)]
pub struct Faults {
    /// The call may not be made now: before `MPI_Init` or after `MPI_Finalize`, one communicator or level too many, a
    /// negative colour.
    pub other: bool,
    /// The variable that holds the communicator isn't accessible.
    pub handle: bool,
    /// The number names no communicator of the rank, or one that may not be freed.
    pub comm: bool,
    /// The variable or the array that holds the requests isn't accessible.
    pub variable: bool,
    /// A number names no live request, one request stands twice, or there would be one request too many.
    pub request: bool,
    /// A count is negative, or a collective's bytes sent and received differ.
    pub count: bool,
    pub datatype: bool,
    pub operation: bool,
    pub root: bool,
    pub rank: bool,
    pub tag: bool,
    /// The bytes of a buffer aren't all in one accessible area.
    pub buffer: bool,
}

/// Which checks fail at the tick at which a call ends, behind all the others.
#[derive(Clone, Copy, Debug, PartialEq, Eq)]
pub struct LateFaults {
    /// A message is longer than the receive's room.
    pub long: bool,
    /// The members of a collective gave arguments that don't fit.
    pub mismatched: bool,
    /// Bytes that the call writes, or a buffer that it receives into, aren't accessible.
    pub address: bool,
}

impl Faults {
    /// The cause of the first check that fails.
    #[tactic(auto, unfolding(crate::specs::Faults::cause_of))]
    pub fn cause(&self) -> Option<TrapCause>
        ensures { result ≡ cause_of self.now }
    {
        if self.other {
            return Some(TrapCause::ErrOther);
        }
        if self.handle {
            return Some(TrapCause::BadAddress);
        }
        if self.comm {
            return Some(TrapCause::ErrComm);
        }
        if self.variable {
            return Some(TrapCause::BadAddress);
        }
        if self.request {
            return Some(TrapCause::ErrRequest);
        }
        if self.count {
            return Some(TrapCause::ErrCount);
        }
        if self.datatype {
            return Some(TrapCause::ErrType);
        }
        if self.operation {
            return Some(TrapCause::ErrOp);
        }
        if self.root {
            return Some(TrapCause::ErrRoot);
        }
        if self.rank {
            return Some(TrapCause::ErrRank);
        }
        if self.tag {
            return Some(TrapCause::ErrTag);
        }
        if self.buffer {
            return Some(TrapCause::ErrBuffer);
        }
        None
    }
}

impl LateFaults {
    /// The cause of the first check that fails.
    #[tactic(auto, unfolding(crate::specs::Faults::late_cause_of))]
    pub fn cause(&self) -> Option<TrapCause>
        ensures { result ≡ late_cause_of self.now }
    {
        if self.long {
            return Some(TrapCause::ErrTruncate);
        }
        if self.mismatched {
            return Some(TrapCause::CollectiveMismatch);
        }
        if self.address {
            return Some(TrapCause::BadAddress);
        }
        None
    }
}
