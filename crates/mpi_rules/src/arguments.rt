//! The arguments of calls, as they are meant, and what is known of a communicator.

use mpi_types::Collective;

/// The arguments of a send or of a receive (MPI 3.1, sections 3.2.1 and 3.2.4).
#[derive(Clone, Copy, Debug, PartialEq, Eq)]
pub struct MessageArgs {
    pub buffer: u64,
    pub count: i32,
    pub datatype: i32,
    /// The number in the communicator of the receiver, or of the sender.
    pub peer: i32,
    pub tag: i32,
    pub comm: i32,
}

/// Elements of a datatype that stand in a row from an address on.
#[derive(Clone, Copy, Debug, PartialEq, Eq)]
pub struct Elements {
    pub address: u64,
    pub count: i32,
    pub datatype: i32,
}

/// The arguments of a collective. A number that it doesn't have is 0.
#[derive(Clone, Copy, Debug, PartialEq, Eq)]
pub struct CollectiveArgs {
    pub kind: Collective,
    /// One block of what the member sends.
    pub sent: Elements,
    /// One block of what it receives.
    pub received: Elements,
    pub operation: i32,
    pub root: i32,
    pub colour: i32,
    pub key: i32,
    pub comm: i32,
    /// Where the number of a new communicator goes.
    pub made: u64,
}

/// What is known of the communicator that a number names. Where it names none, the rest is 0.
#[derive(Clone, Copy, Debug, PartialEq, Eq)]
pub struct CommFacts {
    pub known: bool,
    /// How many members it has.
    pub members: usize,
    /// The rank's own number in it.
    pub member: usize,
    /// How many levels its context has.
    pub depth: usize,
}
