//! The calls of a book as values, and the law that books agree.

ghost use Rattle.std.specs.Prelude.{◌≡◌, ◌↔◌, List, IsTrue, IfOk, OnErr};
ghost use Rattle.mpi_types.specs.declared.calls.BookCall.{BookCall};
ghost use Rattle.mpi_types.specs.declared.calls.BookAnswer.{BookAnswer};
ghost use Rattle.std.specs.Option.{option_copied};
ghost use Rattle.mpi_types.specs.Book.{IsOrderly};
ghost use Rattle.mpi_types.specs.Calls.{MayAsk, IsPeeked, IsAsked, IsRun};

use crate::{BookLists, Completion, Ctx, Hit, MatchBook, Message, Posted};
use std::alloc::{AllocError, Global};

/// Which messages are asked for (MPI 3.1, section 3.2.3): as a receive with these values would take them.
#[derive(Debug, Drop)]
pub struct Envelope {
    pub ctx: Ctx,
    /// The sender's number in the communicator, or `ANY_SOURCE`.
    pub source: i32,
    /// The message's tag, or `ANY_TAG`.
    pub tag: i32,
}

/// A call of a book, as a value.
#[derive(Debug, Drop)]
pub enum BookCall {
    Post(Posted),
    Arrive(Message),
    Complete(u32),
    AskLive(u32),
    AskMatched(u32),
    AskReceive(u32),
    AskMessage(u32),
    Peek(Envelope),
    AskLists,
    AskCount,
}

/// What a call of a book answers.
#[derive(Debug, Drop)]
pub enum BookAnswer {
    /// Of a post or an arrival: who has met whom.
    Met(Option<Hit>),
    Completed(Completion),
    Live(bool),
    Matched(bool),
    Receive(Posted),
    Found(Option<Message>),
    Lists(BookLists),
    /// How many requests are live.
    Count(u32),
    /// The call's condition doesn't hold.
    Refused,
}

/// Makes the call where its condition holds.
pub fn ask<B: MatchBook>(
    book: &mut B,
    alloc: Global,
    call: BookCall,
) -> Result<BookAnswer, AllocError>
    ensures ok { IfOk result (λ answer. IsAsked (B.held book.old) call answer (B.held book.new)) }
    ensures err { OnErr result (B.held book.new ≡ B.held book.old) }
{
    let lists = book.lists(alloc)?;
    if !may_ask(&lists, &call) {
        return Ok(BookAnswer::Refused);
    }
    match call {
        BookCall::Post(receive) => {
            let hit = book.post(receive)?;
            Ok(BookAnswer::Met(hit))
        }
        BookCall::Arrive(message) => {
            let hit = book.arrive(message)?;
            Ok(BookAnswer::Met(hit))
        }
        BookCall::Complete(request) => Ok(BookAnswer::Completed(book.complete(request))),
        BookCall::AskLive(request) => Ok(BookAnswer::Live(book.is_live(request))),
        BookCall::AskMatched(request) => Ok(BookAnswer::Matched(book.matched(request))),
        BookCall::AskReceive(request) => {
            let receive = book.posted(request).copied(alloc)?;
            Ok(BookAnswer::Receive(receive))
        }
        BookCall::AskMessage(request) => {
            let message = copied_message(alloc, book.found(request))?;
            Ok(BookAnswer::Found(message))
        }
        BookCall::Peek(envelope) => {
            let message = peeked(book, alloc, &envelope)?;
            Ok(BookAnswer::Found(message))
        }
        BookCall::AskLists => Ok(BookAnswer::Lists(lists)),
        BookCall::AskCount => Ok(BookAnswer::Count(book.live())),
    }
}

/// Makes the calls, one after another. After an error the book is only to be dropped.
pub fn ask_all<B: MatchBook>(
    book: &mut B,
    alloc: Global,
    calls: Vec<BookCall>,
) -> Result<Vec<BookAnswer>, AllocError>
    ensures { IfOk result (λ answers. IsRun (B.held book.old) calls.items answers.items (B.held book.new)) }
{
    let mut answers = Vec::new(alloc);
    for call in calls {
        let answer = ask(book, alloc, call)?;
        answers.push(answer)?;
    }
    Ok(answers)
}

/// Whether the call's condition holds.
fn may_ask(lists: &BookLists, call: &BookCall) -> bool
    ensures { IsTrue result ↔ MayAsk lists.now call.now }
{
    match call {
        BookCall::Post(receive) => lists.is_next(receive.request),
        BookCall::Complete(request)
        | BookCall::AskMatched(request)
        | BookCall::AskReceive(request)
        | BookCall::AskMessage(request) => lists.is_live(*request),
        BookCall::Arrive(_)
        | BookCall::AskLive(_)
        | BookCall::Peek(_)
        | BookCall::AskLists
        | BookCall::AskCount => true,
    }
}

fn peeked<B: MatchBook>(
    book: &B,
    alloc: Global,
    envelope: &Envelope,
) -> Result<Option<Message>, AllocError>
    ensures { IfOk result (λ message. IsPeeked (B.held book.now) envelope.now message) }
{
    let found = book.peek(&envelope.ctx, envelope.source, envelope.tag);
    copied_message(alloc, found)
}

fn copied_message(alloc: Global, message: Option<&Message>) -> Result<Option<Message>, AllocError>
    ensures { IfOk result (λ copy. copy ≡ option_copied message.entry) }
{
    match message {
        Some(message) => {
            let copy = message.copied(alloc)?;
            Ok(Some(copy))
        }
        None => Ok(None),
    }
}

/// A law: two books that stand for the same lists give the same answers over every list of calls, and stand for the
/// same lists again.
pub fn books_agree<A: MatchBook, B: MatchBook>()
    ensures { (a a' : A) (b b' : B) (calls : List BookCall) (xs ys : List BookAnswer)
        → IsOrderly (A.held a) → A.held a ≡ B.held b
        → IsRun (A.held a) calls xs (A.held a') → IsRun (B.held b) calls ys (B.held b')
        → (xs ≡ ys) × (A.held a' ≡ B.held b') }
{}
