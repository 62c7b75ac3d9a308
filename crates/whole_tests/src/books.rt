//! `match`: calls of a book, one after another, and what they answer; and the tables of MPI's data. `post REQUEST CONTEXT
//! SOURCE TAG`, `arrive CONTEXT MEMBER TAG BYTE`, `complete R`, `live R`, `matched R`, `receive R`, `message R`, `peek CONTEXT
//! SOURCE TAG`, `lists`, `count`; `again` goes on with the book that is made of the lists. A message's sender is ten more than
//! its number.

use crate::cases::begins;
use crate::lines::{i32_at, u8_at, u32_at, word_at};
use crate::tables;
use am_base::{Bytes, RankId};
use matcher::ListBook;
use mpi_types::{
    BookAnswer, BookCall, Completion, Ctx, Envelope, Level, MatchBook, Message, Posted, ask,
    ask_all, books_agree,
};
use std::alloc::{AllocError, Global};

pub(crate) fn play(alloc: Global, out: &mut String, group: &[&str]) -> Result<(), AllocError> {
    books_agree::<ListBook, ListBook>();
    let mut book = ListBook::new(alloc);
    let played = play_on(alloc, &mut book, out, group);
    drop(book);
    played
}

fn play_on(
    alloc: Global,
    book: &mut ListBook,
    out: &mut String,
    group: &[&str],
) -> Result<(), AllocError> {
    for line in group {
        if begins(out, line)? {
            answer(alloc, book, out, line)?;
            out.push_str("\n")?;
        }
    }
    Ok(())
}

/// Makes the book that of its own lists, and calls it as often as there are calls in an empty list.
fn show_again(alloc: Global, book: &mut ListBook, out: &mut String) -> Result<(), AllocError> {
    let lists = book.lists(alloc)?;
    *book = ListBook::from_lists(alloc, lists)?;
    let answers = ask_all(book, alloc, Vec::new(alloc))?;
    write!(out, "made of its lists, {} answers", answers.len())
}

fn answer(
    alloc: Global,
    book: &mut ListBook,
    out: &mut String,
    line: &str,
) -> Result<(), AllocError> {
    if line == "again" {
        return show_again(alloc, book, out);
    }
    match call_of(alloc, line)? {
        Some(call) => show_asked(alloc, book, out, call),
        None => tables::answer(alloc, out, line),
    }
}

fn show_asked(
    alloc: Global,
    book: &mut ListBook,
    out: &mut String,
    call: BookCall,
) -> Result<(), AllocError> {
    let answer = ask(book, alloc, call)?;
    let shown = show_answer(out, &answer);
    drop(answer);
    shown
}

/// The context of that number: the world's, or that of a duplicate of the world.
pub(crate) fn context(alloc: Global, number: u32) -> Result<Ctx, AllocError> {
    let world = Ctx::world(alloc);
    if number == 0 {
        return Ok(world);
    }
    world.child(
        alloc,
        Level {
            position: number,
            colour: 0,
        },
    )
}

fn call_of(alloc: Global, line: &str) -> Result<Option<BookCall>, AllocError> {
    match word_at(line, 0) {
        "post" => post_of(alloc, line),
        "arrive" => arrival_of(alloc, line),
        "peek" => peek_of(alloc, line),
        "lists" => Ok(Some(BookCall::AskLists)),
        "count" => Ok(Some(BookCall::AskCount)),
        word => Ok(request_call(word, u32_at(line, 1))),
    }
}

fn request_call(word: &str, request: Option<u32>) -> Option<BookCall> {
    let request = request?;
    match word {
        "complete" => Some(BookCall::Complete(request)),
        "live" => Some(BookCall::AskLive(request)),
        "matched" => Some(BookCall::AskMatched(request)),
        "receive" => Some(BookCall::AskReceive(request)),
        "message" => Some(BookCall::AskMessage(request)),
        _ => None,
    }
}

fn post_of(alloc: Global, line: &str) -> Result<Option<BookCall>, AllocError> {
    let (Some(request), Some(number)) = (u32_at(line, 1), u32_at(line, 2)) else {
        return Ok(None);
    };
    let (Some(source), Some(tag)) = (i32_at(line, 3), i32_at(line, 4)) else {
        return Ok(None);
    };
    let ctx = context(alloc, number)?;
    Ok(Some(BookCall::Post(Posted {
        request,
        ctx,
        source,
        tag,
        room: 8,
        buffer: 64,
    })))
}

fn arrival_of(alloc: Global, line: &str) -> Result<Option<BookCall>, AllocError> {
    let (Some(number), Some(member)) = (u32_at(line, 1), u8_at(line, 2)) else {
        return Ok(None);
    };
    let (Some(tag), Some(byte)) = (i32_at(line, 3), u8_at(line, 4)) else {
        return Ok(None);
    };
    let message = message_of(alloc, number, member, tag, &[byte])?;
    Ok(Some(BookCall::Arrive(message)))
}

pub(crate) fn message_of(
    alloc: Global,
    number: u32,
    member: u8,
    tag: i32,
    body: &[u8],
) -> Result<Message, AllocError> {
    let ctx = context(alloc, number)?;
    let body = Bytes::from_slice(alloc, body)?;
    Ok(Message {
        sender: RankId(u16::from(member) + 10),
        ctx,
        member: u16::from(member),
        tag,
        body,
    })
}

fn peek_of(alloc: Global, line: &str) -> Result<Option<BookCall>, AllocError> {
    let (Some(number), Some(source), Some(tag)) = (
        u32_at(line, 1),
        i32_at(line, 2),
        i32_at(line, 3),
    ) else {
        return Ok(None);
    };
    let ctx = context(alloc, number)?;
    Ok(Some(BookCall::Peek(Envelope { ctx, source, tag })))
}

fn show_answer(out: &mut String, answer: &BookAnswer) -> Result<(), AllocError> {
    match answer {
        BookAnswer::Met(Some(hit)) => {
            write!(out, "request {} meets rank {}", hit.request, hit.sender.0)
        }
        BookAnswer::Met(None) => out.push_str("none met"),
        BookAnswer::Completed(Completion::Done(message)) => show_message(out, message),
        BookAnswer::Completed(Completion::NotYet) => out.push_str("not yet"),
        BookAnswer::Live(answer) | BookAnswer::Matched(answer) => write!(out, "{answer}"),
        BookAnswer::Receive(receive) => write!(out, "receive {}", receive.request),
        BookAnswer::Found(Some(message)) => show_message(out, message),
        BookAnswer::Found(None) => out.push_str("no message"),
        BookAnswer::Lists(lists) => {
            let (posted, matched) = (lists.posted.len(), lists.matched.len());
            write!(
                out,
                "{posted} posted, {matched} matched, {} arrived",
                lists.arrived.len()
            )
        }
        BookAnswer::Count(count) => write!(out, "{count} live"),
        BookAnswer::Refused => out.push_str("refused"),
    }
}

fn show_message(out: &mut String, message: &Message) -> Result<(), AllocError> {
    out.push_str("body")?;
    for byte in message.body.as_slice() {
        write!(out, " {byte}")?;
    }
    Ok(())
}
