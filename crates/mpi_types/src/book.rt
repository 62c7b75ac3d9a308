//! What a book is, in which messages and receives meet.

ghost use Rattle.std.specs.Prelude.{◌≡◌, ◌↔◌, min, IsTrue, MatchOption, IfOk, OnErr};
ghost use Rattle.mpi_types.specs.Accepts.{Accepts};
ghost use Rattle.mpi_types.specs.First.{NoneOf, IsFirstOf};

use crate::{BookLists, Ctx, Hit, Message, Posted};
use std::alloc::{AllocError, Global};

/// What completing a request answers.
#[derive(Debug, Drop)]
pub enum Completion {
    /// The request has ended with this message.
    Done(Message),
    /// The request still waits for a message.
    NotYet,
}

/// Where one rank's posted receives and arrived messages meet (MPI 3.1, sections 3.5 and 3.7). A request is live from
/// its posting until its completion. How a book is kept is free.
pub trait MatchBook {
    ghost use Rattle.mpi_types.specs.declared.lists.BookLists.{BookLists};
    ghost use Rattle.mpi_types.specs.Book.{IsOrderly, IsSettled, IsLive, live_count, IsNext, IsMatched, IsWaiting, IsReceiveOf, IsMessageOf};
    ghost use Rattle.mpi_types.specs.Post.{Posts, Arrives, Completes};

    // The three lists that the book stands for.
    ghost held: { Self → BookLists };

    /// Posts a receive: it gets the first arrived message that it accepts, and waits where there is none.
    fn post(&mut self, receive: Posted) -> Result<Option<Hit>, AllocError>
        requires { IsNext (held self.old) receive.request }
        ensures ok { IfOk result (λ hit. Posts (held self.old) receive hit (held self.new)) }
        ensures err { OnErr result (held self.new ≡ held self.old) }
        ensures settled { IsSettled (held self.old) → IsSettled (held self.new) }
        ensures orderly { IsOrderly (held self.new) };

    /// Takes in a message: the first posted receive that accepts it gets it, and it is kept where there is none.
    fn arrive(&mut self, message: Message) -> Result<Option<Hit>, AllocError>
        ensures ok { IfOk result (λ hit. Arrives (held self.old) message hit (held self.new)) }
        ensures err { OnErr result (held self.new ≡ held self.old) }
        ensures settled { IsSettled (held self.old) → IsSettled (held self.new) }
        ensures orderly { IsOrderly (held self.new) };

    /// Ends a live request that has its message, and gives the message.
    fn complete(&mut self, request: u32) -> Completion
        requires { IsLive (held self.old) request }
        ensures ends { Completes (held self.old) request result (held self.new) }
        ensures settled { IsSettled (held self.old) → IsSettled (held self.new) }
        ensures orderly { IsOrderly (held self.new) };

    /// Whether the request is live.
    fn is_live(&self, request: u32) -> bool
        ensures told { IsTrue result ↔ IsLive (held self.now) request }
        ensures orderly { IsOrderly (held self.now) };

    /// How many requests are live, or the greatest `u32` where they are more.
    fn live(&self) -> u32
        ensures told { result ≡ min (live_count (held self.now)) u32.MAX }
        ensures orderly { IsOrderly (held self.now) };

    /// Whether a live request has its message.
    fn matched(&self, request: u32) -> bool
        requires { IsLive (held self.now) request }
        ensures told { IsTrue result ↔ IsMatched (held self.now) request }
        ensures orderly { IsOrderly (held self.now) };

    /// The receive of a live request.
    fn posted(&self, request: u32) -> &Posted
        requires { IsLive (held self.now) request }
        ensures told { IsReceiveOf (held self.now) request result.now }
        ensures orderly { IsOrderly (held self.now) };

    /// The message that a live request has.
    fn found(&self, request: u32) -> Option<&Message>
        requires { IsLive (held self.now) request }
        ensures told { MatchOption result (IsWaiting (held self.now) request) (λ m. IsMessageOf (held self.now) request m.now) }
        ensures orderly { IsOrderly (held self.now) };

    /// The first arrived message that a receive with this context, source and tag accepts.
    fn peek(&self, ctx: &Ctx, source: i32, tag: i32) -> Option<&Message>
        ensures { MatchOption result (NoneOf (Accepts ctx.now source tag) (held self.now).arrived)
            (λ m. IsFirstOf (Accepts ctx.now source tag) (held self.now).arrived m.now) };

    /// Copies the three lists out.
    fn lists(&self, alloc: Global) -> Result<BookLists, AllocError>
        ensures copied { IfOk result (λ l. l ≡ held self.now) }
        ensures orderly { IfOk result (λ l. IsOrderly l) };

    /// The book that stands for these lists.
    fn from_lists(alloc: Global, lists: BookLists) -> Result<Self, AllocError>
        requires { IsOrderly lists }
        ensures { IfOk result (λ book. held book ≡ lists) };
}
