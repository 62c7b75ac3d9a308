//! The plain book.

ghost use Rattle.std.specs.Prelude.{◌≡◌, []};

use crate::copies::{copied_messages, copied_pairs, copied_receives};
use crate::search::{
    first_accepted, first_accepting, first_for, is_posted, pair_at, place_of, put_pair, receive_at,
};
use mpi_types::{
    BookLists, Completion, Ctx, Hit, MatchBook, MatchedPair, Message, Posted, Sequence,
};
use std::alloc::{AllocError, Global};
use std::marker::Model;

/// A book kept as three lists. Each call goes through a list from its front.
#[derive(Debug, Drop)]
pub struct ListBook {
    alloc: Global,
    posted: Vec<Posted>,
    matched: Vec<MatchedPair>,
    arrived: Vec<Message>,
}

impl Model for ListBook {
    ghost use Rattle.mpi_types.specs.declared.lists.BookLists.{BookLists};
    ghost use Rattle.mpi_types.specs.Book.{IsOrderly};

    ghost Value = { BookLists };

    ghost view = { λ b. record { posted = b.posted.items; matched = b.matched.items; arrived = b.arrived.items } };

    ghost invariant = { λ b. IsOrderly (record { posted = b.posted.items; matched = b.matched.items; arrived = b.arrived.items }) };
}

impl ListBook {
    /// The book in which nothing is posted and nothing has arrived.
    pub fn new(alloc: Global) -> ListBook
        ensures { result ≡ record { posted = []; matched = []; arrived = [] } }
    {
        ListBook {
            alloc,
            posted: Vec::new(alloc),
            matched: Vec::new(alloc),
            arrived: Vec::new(alloc),
        }
    }
}

impl MatchBook for ListBook {
    ghost held = { λ b. b };

    fn post(&mut self, receive: Posted) -> Result<Option<Hit>, AllocError> {
        let Some(at) = first_for(&receive, self.arrived.as_slice()) else {
            self.posted.push(receive)?;
            return Ok(None);
        };
        self.matched.reserve(1)?;
        let message = self.arrived.remove(at);
        let hit = Hit {
            request: receive.request,
            sender: message.sender,
        };
        let place = self.matched.len();
        put_pair(&mut self.matched, place, MatchedPair { receive, message });
        Ok(Some(hit))
    }

    fn arrive(&mut self, message: Message) -> Result<Option<Hit>, AllocError> {
        let Some(at) = first_accepting(self.posted.as_slice(), &message) else {
            self.arrived.push(message)?;
            return Ok(None);
        };
        self.matched.reserve(1)?;
        let receive = self.posted.remove(at);
        let place = place_of(self.matched.as_slice(), receive.request);
        let hit = Hit {
            request: receive.request,
            sender: message.sender,
        };
        put_pair(&mut self.matched, place, MatchedPair { receive, message });
        Ok(Some(hit))
    }

    fn complete(&mut self, request: u32) -> Completion {
        match pair_at(self.matched.as_slice(), request) {
            Some(at) => {
                let MatchedPair {
                    receive: _,
                    message,
                } = self.matched.remove(at);
                Completion::Done(message)
            }
            None => Completion::NotYet,
        }
    }

    fn is_live(&self, request: u32) -> bool {
        match pair_at(self.matched.as_slice(), request) {
            Some(_) => true,
            None => is_posted(self.posted.as_slice(), request),
        }
    }

    fn live(&self) -> u32 {
        let count = self.posted.len() + self.matched.len();
        u32::try_from(count).unwrap_or(u32::MAX)
    }

    fn matched(&self, request: u32) -> bool {
        match pair_at(self.matched.as_slice(), request) {
            Some(_) => true,
            None => false,
        }
    }

    fn posted(&self, request: u32) -> &Posted {
        if let Some(at) = pair_at(self.matched.as_slice(), request) {
            return &self.matched[at].receive;
        }
        let at = receive_at(self.posted.as_slice(), request).unwrap();
        &self.posted[at]
    }

    fn found(&self, request: u32) -> Option<&Message> {
        let at = pair_at(self.matched.as_slice(), request)?;
        Some(&self.matched[at].message)
    }

    fn peek(&self, ctx: &Ctx, source: i32, tag: i32) -> Option<&Message> {
        let at = first_accepted(ctx, source, tag, self.arrived.as_slice())?;
        Some(&self.arrived[at])
    }

    fn lists(&self, alloc: Global) -> Result<BookLists, AllocError> {
        let posted = copied_receives(alloc, self.posted.as_slice())?;
        let matched = copied_pairs(alloc, self.matched.as_slice())?;
        let arrived = copied_messages(alloc, self.arrived.as_slice())?;
        Ok(BookLists {
            posted,
            matched,
            arrived,
        })
    }

    fn from_lists(alloc: Global, lists: BookLists) -> Result<ListBook, AllocError> {
        let BookLists {
            posted,
            matched,
            arrived,
        } = lists;
        Ok(ListBook {
            alloc,
            posted: posted.into_vec(),
            matched: matched.into_vec(),
            arrived: arrived.into_vec(),
        })
    }
}
