//! What a rank has of MPI.

use crate::{Communicator, MatchBook, Message, Sequence, Sweep};

/// How far a rank is with MPI (MPI 3.1, section 8.7).
#[derive(Clone, Copy, Debug, PartialEq, Eq)]
pub enum Phase {
    /// Before `MPI_Init`.
    Before,
    Running,
    /// After `MPI_Finalize`.
    After,
}

/// What a request was that is complete and doesn't stand in the book.
#[derive(Clone, Copy, Debug, PartialEq, Eq)]
pub enum CompleteKind {
    /// Of a send, whose bytes are copied in its call.
    Send,
    /// Of a receive from `MPI_PROC_NULL` (MPI 3.1, section 3.11).
    NoProcess,
}

/// A complete request, by its number.
#[derive(Clone, Copy, Debug, PartialEq, Eq)]
pub struct CompleteRequest {
    pub number: u32,
    pub kind: CompleteKind,
}

/// What a rank keeps of MPI beside its book and its collectives.
#[derive(Debug, Drop)]
pub struct OwnData {
    pub phase: Phase,
    /// The number of the next request.
    pub next: u32,
    /// The complete requests that stand in no book, ascending by number.
    pub complete: Sequence<CompleteRequest>,
    /// Ascending by number.
    pub communicators: Sequence<Communicator>,
}

/// The data of MPI that a rank has. The book has the receives that were posted and the messages that have arrived.
#[derive(Debug, Drop)]
pub struct MpiState<B: MatchBook> {
    pub own: OwnData,
    pub sweep: Sweep,
    pub book: B,
}

/// Messages in order.
pub type MessageList = Sequence<Message>;

/// A message that came before its turn, with its number among those of its sender to the rank.
#[derive(Debug, Drop)]
pub struct HeldMessage {
    pub number: u64,
    pub message: Message,
}

/// The messages that a rank holds until those before them have come.
#[derive(Debug, Drop)]
pub struct Reorder {
    /// The number of the message that is expected next from each rank, in the order of ranks.
    pub expected: Sequence<u64>,
    /// Ascending by sender and number.
    pub held: Sequence<HeldMessage>,
}
