//! What a request that is complete has, and its end.

ghost use Rattle.std.specs.Prelude.{◌≡◌, Some, None, true, pos, length, is_some, IfSome, option_map};
ghost use Rattle.mpi_types.specs.Book.{IsLive, IsOrderly};
ghost use Rattle.mpi_rules.specs.Data.{data_of, pair_of};
ghost use Rattle.mpi_rules.specs.Data as data_words;
ghost use Rattle.mpi_rules.specs.Requests as words;
ghost use Rattle.mpi_call.specs.Answers.{kept, data_in, Took};
ghost use Rattle.mpi_call.specs.Lawful.{AreApart};
ghost use Rattle.mpi_call.specs.Sizes as sizes;

use crate::state::complete_kind;
use am_base::Bytes;
use mpi_types::{
    CompleteKind, CompleteRequest, Completion, MatchBook, Message, MpiState, OwnData, Posted,
    Sequence, Status,
};
use std::alloc::Global;
use std::mem;

/// What a complete request has, but for the bytes that came: how many these are, its status, and its buffer with its room.
#[derive(Clone, Copy, Debug, PartialEq, Eq)]
pub struct Sizes {
    pub length: usize,
    pub status: Status,
    pub buffer: u64,
    pub room: u32,
}

/// Of a request with no message.
fn sizes_without(status: Status) -> Sizes
    ensures { result ≡ sizes.sizes_of (words.came_without status) }
{
    Sizes {
        length: 0,
        status,
        buffer: 0,
        room: 0,
    }
}

/// What `MPI_REQUEST_NULL` has.
pub fn null_sizes() -> Sizes
    ensures { result ≡ sizes.sizes_of (words.came_without words.empty_status) }
{
    sizes_without(Status::empty())
}

fn sizes_of_kind(kind: CompleteKind) -> Sizes
    ensures { result ≡ sizes.sizes_of (words.came_of_kind kind) }
{
    match kind {
        CompleteKind::Send => sizes_without(Status::empty()),
        CompleteKind::NoProcess => sizes_without(Status::of_no_process()),
    }
}

fn sizes_of_pair(receive: &Posted, message: &Message) -> Sizes
    ensures { result ≡ sizes.sizes_of (words.came_of_pair (record { receive = receive.now; message = message.now })) }
{
    Sizes {
        length: message.body.len(),
        status: Status::of_message(message),
        buffer: receive.buffer,
        room: receive.room,
    }
}

/// What a live request of the book has, if it has a message.
fn book_sizes<B: MatchBook>(book: &B, number: u32) -> Option<Sizes>
    requires { IsLive (B.held book.now) number }
    ensures { result ≡ option_map (λ p. sizes.sizes_of (words.came_of_pair p)) (pair_of number (B.held book.now).matched) }
{
    match book.found(number) {
        Some(message) => Some(sizes_of_pair(book.posted(number), message)),
        None => None,
    }
}

/// What a live request has, if it is complete.
#[tactic(auto, unfolding(mpi_rules::specs::Requests::completion))]
pub fn completion<B: MatchBook>(st: &MpiState<B>, number: u32) -> Option<Sizes>
    requires { data_words.is_live (data_of st.now.own st.now.sweep (B.held st.now.book)) number ≡ true }
    ensures { result ≡ option_map (λ c. sizes.sizes_of c) (words.completion (data_of st.now.own st.now.sweep (B.held st.now.book)) number) }
{
    match complete_kind(&st.own, number) {
        Some(kind) => Some(sizes_of_kind(kind)),
        None => book_sizes(&st.book, number),
    }
}

fn without(list: Sequence<CompleteRequest>, number: u32) -> Sequence<CompleteRequest>
    ensures { result ≡ data_words.without_complete number list }
{
    let mut all = list.into_vec();
    all.retain(|r| r.number != number);
    Sequence::from_vec(all)
}

fn end_complete(alloc: Global, own: &mut OwnData, number: u32)
    ensures { own.new ≡ data_words.own_without number own.old }
{
    let list = mem::replace(&mut own.complete, Sequence::new(alloc));
    own.complete = without(list, number);
}

fn body_of(message: Message) -> Bytes
    ensures { result ≡ message.body }
{
    let Message {
        sender: _,
        ctx,
        member: _,
        tag: _,
        body,
    } = message;
    drop(ctx);
    body
}

/// A live request of the book that has its message ends, and gives the message's bytes.
fn end_matched<B: MatchBook>(book: &mut B, number: u32) -> Bytes
    requires live { IsLive (B.held book.old) number }
    requires orderly { IsOrderly (B.held book.old) }
    requires found { is_some (pair_of number (B.held book.old).matched) ≡ true }
    ensures body { IfSome (pair_of number (B.held book.old).matched) (λ p. result ≡ p.message.body) }
    ensures lists { B.held book.new ≡ record (B.held book.old) { matched = data_words.without_pair number (B.held book.old).matched } }
{
    match book.complete(number) {
        Completion::Done(message) => body_of(message),
        Completion::NotYet => unreachable!(),
    }
}

/// A complete request ends, and gives the bytes that came.
#[tactic(auto, unfolding(mpi_rules::specs::Requests::completion, mpi_rules::specs::Data::without))]
pub fn take_body<B: MatchBook>(alloc: Global, st: &mut MpiState<B>, number: u32) -> Bytes
    requires live { data_words.is_live (data_in (kept st.old.own st.old.sweep (B.held st.old.book))) number ≡ true }
    requires apart { AreApart st.old.own (B.held st.old.book) }
    requires done { is_some (words.completion (data_in (kept st.old.own st.old.sweep (B.held st.old.book))) number) ≡ true }
    ensures { IfSome (words.completion (data_in (kept st.old.own st.old.sweep (B.held st.old.book))) number) (λ c. Took c (data_words.without number (data_in (kept st.old.own st.old.sweep (B.held st.old.book)))) (kept st.old.own st.old.sweep (B.held st.old.book)) result (kept st.new.own st.new.sweep (B.held st.new.book))) }
{
    match complete_kind(&st.own, number) {
        Some(_) => {
            end_complete(alloc, &mut st.own, number);
            Bytes::new(alloc)
        }
        None => end_matched(&mut st.book, number),
    }
}
