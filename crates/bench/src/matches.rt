//! Messages are matched behind a queue of others.
ghost use Rattle.std.specs.Prelude.{◌+◌, ◌≤◌, ◌≡◌, OnOk, IfOk};
ghost use Rattle.mpi_types.specs.Book.{IsNext};

use crate::failed::Failed;
use am_base::{Bytes, RankId};
use matcher::ListBook;
use mpi_types::{Completion, Ctx, MatchBook, Message, Posted};
use std::alloc::{AllocError, Global};

/// The tag of the messages in the queue, which no receive accepts.
const WAITING: i32 = 1;

/// The tag of the messages that are taken.
const TAKEN: i32 = 2;

/// How many matches of so many are made behind a queue of that length.
pub(crate) fn made_behind(alloc: Global, queue: u32, turns: u32) -> Result<u64, Failed> {
    Ok(matches_behind(alloc, queue, turns)? as u64)
}

fn matches_behind(alloc: Global, queue: u32, turns: u32) -> Result<u32, AllocError>
    ensures { IfOk result (λ count. count ≤ turns) }
{
    let mut book = filled(alloc, queue)?;
    let mut count = 0;
    for request in 0..turns {
        if is_matched(&mut book, alloc, request)? {
            count += 1;
        }
    }
    Ok(count)
}

/// A book in which so many messages have arrived.
fn filled(alloc: Global, queue: u32) -> Result<ListBook, AllocError>
    ensures { IfOk result (λ book. IsNext book 0) }
{
    let mut book = ListBook::new(alloc);
    for _turn in 0..queue {
        book.arrive(message(alloc, WAITING)?)?;
    }
    Ok(book)
}

/// Lets a message arrive behind the queue, posts the receive that takes it, and completes that.
fn is_matched(book: &mut ListBook, alloc: Global, request: u32) -> Result<bool, AllocError>
    requires { IsNext book.old request }
    ensures { OnOk result (IsNext book.new (request + 1)) }
{
    book.arrive(message(alloc, TAKEN)?)?;
    book.post(receive(alloc, request)?)?;
    let completion = book.complete(request);
    Ok(matches!(&completion, Completion::Done(_)))
}

fn message(alloc: Global, tag: i32) -> Result<Message, AllocError> {
    Ok(Message {
        sender: RankId(0),
        ctx: Ctx::world(alloc),
        member: 0,
        tag,
        body: Bytes::new(alloc),
    })
}

fn receive(alloc: Global, request: u32) -> Result<Posted, AllocError>
    ensures { IfOk result (λ r. r.request ≡ request) }
{
    Ok(Posted {
        request,
        ctx: Ctx::world(alloc),
        source: 0,
        tag: TAKEN,
        room: 0,
        buffer: 0,
    })
}
