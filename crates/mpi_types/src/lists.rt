//! The lists that a book stands for.

ghost use Rattle.std.specs.Prelude.{◌≡◌, ◌↔◌, IsTrue, IfOk};

use crate::{Message, Posted, Sequence};
use std::alloc::{AllocError, Global};

/// A posted receive with the message that it got.
#[derive(Debug, Drop)]
pub struct MatchedPair {
    pub receive: Posted,
    pub message: Message,
}

impl MatchedPair {
    pub fn copied(&self, alloc: Global) -> Result<MatchedPair, AllocError>
        ensures { IfOk result (λ p. p ≡ self.now) }
    {
        let receive = self.receive.copied(alloc)?;
        let message = self.message.copied(alloc)?;
        Ok(MatchedPair { receive, message })
    }
}

/// What a book stands for.
#[derive(Debug, Drop)]
pub struct BookLists {
    /// The posted receives that have no message yet, in order of posting.
    pub posted: Sequence<Posted>,
    /// The receives that have their message and aren't completed yet, by request.
    pub matched: Sequence<MatchedPair>,
    /// The arrived messages that no receive has taken, in order of arrival.
    pub arrived: Sequence<Message>,
}

impl BookLists {
    ghost use Rattle.mpi_types.specs.Book.{IsNext, IsLive};

    /// Whether the number is greater than that of every live request, so that a receive of it may be posted.
    pub fn is_next(&self, request: u32) -> bool
        ensures { IsTrue result ↔ IsNext self.now request }
    {
        self.posted.as_slice().iter().all(|r| r.request < request)
            && self
                .matched
                .as_slice()
                .iter()
                .all(|p| p.receive.request < request)
    }

    /// Whether the request is live.
    pub fn is_live(&self, request: u32) -> bool
        ensures { IsTrue result ↔ IsLive self.now request }
    {
        self.posted.as_slice().iter().any(|r| r.request == request)
            || self
                .matched
                .as_slice()
                .iter()
                .any(|p| p.receive.request == request)
    }
}
