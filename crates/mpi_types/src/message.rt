//! Messages and posted receives.

ghost use Rattle.std.specs.Prelude.{◌≡◌, ◌↔◌, IsTrue, IfOk};
ghost use Rattle.mpi_types.specs.Accepts.{Accepts, IsAcceptedBy};

use crate::{ANY_SOURCE, ANY_TAG, Ctx};
use am_base::{Bytes, RankId};
use std::alloc::{AllocError, Global};

/// A message of one rank to another (MPI 3.1, section 3.2.3).
#[derive(Debug, Drop)]
pub struct Message {
    /// The rank that sent it, as numbered in the world.
    pub sender: RankId,
    pub ctx: Ctx,
    /// The sender's number in the communicator of that context.
    pub member: u16,
    pub tag: i32,
    pub body: Bytes,
}

impl Message {
    pub fn copied(&self, alloc: Global) -> Result<Message, AllocError>
        ensures { IfOk result (λ m. m ≡ self.now) }
    {
        let ctx = self.ctx.copied(alloc)?;
        let body = Bytes::from_slice(alloc, self.body.as_slice())?;
        Ok(Message {
            sender: self.sender,
            ctx,
            member: self.member,
            tag: self.tag,
            body,
        })
    }
}

/// A receive that a rank posted (MPI 3.1, section 3.7.2).
#[derive(Debug, Drop)]
pub struct Posted {
    /// The number of its request.
    pub request: u32,
    pub ctx: Ctx,
    /// The sender's number in the communicator, or `ANY_SOURCE`.
    pub source: i32,
    /// The message's tag, or `ANY_TAG`.
    pub tag: i32,
    /// How many bytes its buffer takes.
    pub room: u32,
    /// The buffer's address.
    pub buffer: u64,
}

impl Posted {
    /// Whether the receive accepts the message.
    pub fn accepts(&self, message: &Message) -> bool
        ensures { IsTrue result ↔ IsAcceptedBy self.now message.now }
    {
        accepts(&self.ctx, self.source, self.tag, message)
    }

    pub fn copied(&self, alloc: Global) -> Result<Posted, AllocError>
        ensures { IfOk result (λ p. p ≡ self.now) }
    {
        let ctx = self.ctx.copied(alloc)?;
        Ok(Posted {
            request: self.request,
            ctx,
            source: self.source,
            tag: self.tag,
            room: self.room,
            buffer: self.buffer,
        })
    }
}

/// Which posted receive has met a message of which rank.
#[derive(Clone, Copy, Debug, PartialEq, Eq)]
pub struct Hit {
    pub request: u32,
    pub sender: RankId,
}

/// Whether a receive with this context, source and tag accepts the message.
pub fn accepts(ctx: &Ctx, source: i32, tag: i32, message: &Message) -> bool
    ensures { IsTrue result ↔ Accepts ctx.now source tag message.now }
{
    ctx.is_same(&message.ctx)
        && (source == ANY_SOURCE || source == i32::from(message.member))
        && (tag == ANY_TAG || tag == message.tag)
}
