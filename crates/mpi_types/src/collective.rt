//! The kinds of collectives.

ghost use Rattle.std.specs.Prelude.{◌≡◌, ◌≢◌, MatchOption};
ghost use Rattle.mpi_types.specs.declared.collective.Collective.{Collective};
ghost use Rattle.mpi_types.specs.Tables.{collective_number, is_typed, is_reducing};

/// The calls in which all members of a communicator take part (MPI 3.1, chapter 5 and section 6.4.2, and this
/// profile's own `AMPI_Migrate`).
#[derive(Clone, Copy, Debug, PartialEq, Eq)]
pub enum Collective {
    Barrier,
    Bcast,
    Reduce,
    Allreduce,
    Scan,
    Gather,
    Scatter,
    Allgather,
    Alltoall,
    CommDup,
    CommSplit,
    Migrate,
}

impl Collective {
    /// Its number in images and packets, which is this profile's own.
    pub fn number(self) -> u8
        ensures { result ≡ collective_number self }
    {
        match self {
            Collective::Barrier => 1,
            Collective::Bcast => 2,
            Collective::Reduce => 3,
            Collective::Allreduce => 4,
            Collective::Scan => 5,
            Collective::Gather => 6,
            Collective::Scatter => 7,
            Collective::Allgather => 8,
            Collective::Alltoall => 9,
            Collective::CommDup => 10,
            Collective::CommSplit => 11,
            Collective::Migrate => 12,
        }
    }

    /// The collective of that number.
    pub fn of_number(number: u8) -> Option<Collective>
        ensures { MatchOption result ((c : Collective) → collective_number c ≢ number) (λ c. collective_number c ≡ number) }
    {
        Some(match number {
            1 => Collective::Barrier,
            2 => Collective::Bcast,
            3 => Collective::Reduce,
            4 => Collective::Allreduce,
            5 => Collective::Scan,
            6 => Collective::Gather,
            7 => Collective::Scatter,
            8 => Collective::Allgather,
            9 => Collective::Alltoall,
            10 => Collective::CommDup,
            11 => Collective::CommSplit,
            12 => Collective::Migrate,
            _ => return None,
        })
    }

    /// Whether its arguments have a datatype.
    pub fn is_typed(self) -> bool
        ensures { result ≡ is_typed self }
    {
        match self {
            Collective::Bcast
            | Collective::Reduce
            | Collective::Allreduce
            | Collective::Scan
            | Collective::Gather
            | Collective::Scatter
            | Collective::Allgather
            | Collective::Alltoall => true,
            Collective::Barrier
            | Collective::CommDup
            | Collective::CommSplit
            | Collective::Migrate => false,
        }
    }

    /// Whether its arguments have an operation (MPI 3.1, sections 5.9 and 5.11).
    pub fn is_reducing(self) -> bool
        ensures { result ≡ is_reducing self }
    {
        match self {
            Collective::Reduce | Collective::Allreduce | Collective::Scan => true,
            Collective::Barrier
            | Collective::Bcast
            | Collective::Gather
            | Collective::Scatter
            | Collective::Allgather
            | Collective::Alltoall
            | Collective::CommDup
            | Collective::CommSplit
            | Collective::Migrate => false,
        }
    }
}
