//! The tables of MPI's data, for the word `match`: `datatype N`, `operation N`, `status MEMBER TAG BYTES`, `status empty`,
//! `status none`, `entry TIMES KIND ..`, `journal RANKS BOUND`, `accepts SOURCE TAG` for a message of member 2 with tag 7, `depth N`, `sequence N ..`.

ghost use Rattle.mpi_types.specs.Runs.{MayRepeat};

use crate::books::{context, message_of};
use crate::lines::{i32_at, no_case, number_at, show_bytes, u8_at, u16_at, u32_at, word_at};
use am_base::{Bytes, RankId};
use mpi_types::{
    Ctx, DEEPEST, Datatype, Entry, EntryRun, History, Level, Message, Operation, Posted, Sequence,
    Status, accepts, append_header, append_runs,
};
use std::alloc::{AllocError, Global};

pub(crate) fn answer(alloc: Global, out: &mut String, line: &str) -> Result<(), AllocError> {
    match word_at(line, 0) {
        "datatype" => show_datatype(out, i32_at(line, 1)),
        "operation" => show_operation(out, i32_at(line, 1)),
        "status" => show_status(alloc, out, line),
        "entry" => show_entry(alloc, out, line),
        "journal" => show_header(alloc, out, line),
        "accepts" => show_accepts(alloc, out, line),
        "depth" => show_depth(alloc, out, number_at(line, 1)),
        "sequence" => show_sequence(alloc, out, line),
        _ => no_case(out),
    }
}

fn show_datatype(out: &mut String, number: Option<i32>) -> Result<(), AllocError> {
    match Datatype::of_number(number.unwrap_or(0)) {
        Some(datatype) => {
            let (number, size) = (datatype.number(), datatype.size());
            write!(out, "{datatype:?}, number {number}, {size} bytes")
        }
        None => out.push_str("none"),
    }
}

fn show_operation(out: &mut String, number: Option<i32>) -> Result<(), AllocError> {
    match Operation::of_number(number.unwrap_or(0)) {
        Some(operation) => write!(out, "{operation:?}, number {}", operation.number()),
        None => out.push_str("none"),
    }
}

fn show_status(alloc: Global, out: &mut String, line: &str) -> Result<(), AllocError> {
    let status = match word_at(line, 1) {
        "empty" => Status::empty(),
        "none" => Status::of_no_process(),
        _ => {
            let (Some(member), Some(tag)) = (u8_at(line, 1), i32_at(line, 2)) else {
                return no_case(out);
            };
            let message = message_of(alloc, 0, member, tag, word_at(line, 3).as_bytes())?;
            Status::of_message(&message)
        }
    };
    write!(
        out,
        "source {}, tag {}, {} bytes",
        status.source, status.tag, status.bytes
    )
}

/// The journal's line of an entry that stands once, or of so many ticks.
fn show_entry(alloc: Global, out: &mut String, line: &str) -> Result<(), AllocError> {
    let Some(times) = number_at(line, 1) else {
        return no_case(out);
    };
    let rank = RankId(u16_at(line, 3).unwrap_or(0));
    match word_at(line, 2) {
        "tick" => show_run(alloc, out, Entry::Tick { rank }, times),
        "match" => {
            let entry = Entry::Match {
                rank,
                request: u32_at(line, 4).unwrap_or(0),
                sender: RankId(u16_at(line, 5).unwrap_or(0)),
            };
            show_run(alloc, out, entry, 1)
        }
        "gather" => show_run(alloc, out, Entry::Gather { rank }, 1),
        "commit" => show_run(alloc, out, Entry::Commit, 1),
        _ => no_case(out),
    }
}

fn show_run(alloc: Global, out: &mut String, entry: Entry, times: u64) -> Result<(), AllocError>
    requires { MayRepeat entry times }
{
    let mut history = History::new(alloc);
    history.push(EntryRun { entry, times })?;
    let mut text = Bytes::new(alloc);
    append_runs(&mut text, history.runs())?;
    show_bytes(out, text.as_slice())
}

/// The first line of a journal.
fn show_header(alloc: Global, out: &mut String, line: &str) -> Result<(), AllocError> {
    let (Some(ranks), Some(bound)) = (u16_at(line, 1), number_at(line, 2)) else {
        return no_case(out);
    };
    let mut text = Bytes::new(alloc);
    append_header(&mut text, ranks, bound)?;
    show_bytes(out, text.as_slice())
}

/// Whether a receive in the world, and one in a duplicate of it, accepts the message.
fn show_accepts(alloc: Global, out: &mut String, line: &str) -> Result<(), AllocError> {
    let (Some(source), Some(tag)) = (i32_at(line, 1), i32_at(line, 2)) else {
        return no_case(out);
    };
    let in_world = is_accepted_in_world(alloc, source, tag)?;
    let in_duplicate = is_accepted_in_duplicate(alloc, source, tag)?;
    write!(
        out,
        "in the world {in_world}, in a duplicate {in_duplicate}"
    )
}

fn is_accepted_in_world(alloc: Global, source: i32, tag: i32) -> Result<bool, AllocError> {
    let message = message_of(alloc, 0, 2, 7, b"body")?;
    let world = Ctx::world(alloc);
    Ok(accepts(&world, source, tag, &message))
}

fn is_accepted_in_duplicate(alloc: Global, source: i32, tag: i32) -> Result<bool, AllocError> {
    let message = message_of(alloc, 0, 2, 7, b"body")?;
    let copy = copied_message(alloc, &message);
    drop(message);
    let message = copy?;
    let receive = copied_receive(alloc, source, tag)?;
    Ok(receive.accepts(&message))
}

fn copied_message(alloc: Global, message: &Message) -> Result<Message, AllocError> {
    message.copied(alloc)
}

/// A copy of a receive in a duplicate of the world.
fn copied_receive(alloc: Global, source: i32, tag: i32) -> Result<Posted, AllocError> {
    let ctx = context(alloc, 1)?;
    let receive = Posted {
        request: 1,
        ctx,
        source,
        tag,
        room: 4,
        buffer: 0,
    };
    let copy = receive.copied(alloc);
    drop(receive);
    copy
}

/// A context so many levels deep, and whether it is that of its copy and of the world.
fn show_depth(alloc: Global, out: &mut String, depth: Option<u64>) -> Result<(), AllocError> {
    let mut ctx = Ctx::world(alloc);
    for _level in 0..depth.unwrap_or(0).min(99) {
        if ctx.depth() < DEEPEST {
            ctx = ctx.child(
                alloc,
                Level {
                    position: 3,
                    colour: -1,
                },
            )?;
        }
    }
    let copy = ctx.copied(alloc)?;
    let world = Ctx::world(alloc);
    write!(
        out,
        "{} levels, its copy's {}",
        ctx.levels().len(),
        ctx.is_same(&copy)
    )?;
    write!(out, ", the world's {}", ctx.is_same(&world))
}

fn show_sequence(alloc: Global, out: &mut String, line: &str) -> Result<(), AllocError> {
    let sequence = lengths_of(alloc, line)?;
    write!(
        out,
        "empty {}, {} lengths:",
        sequence.is_empty(),
        sequence.len()
    )?;
    for length in sequence.as_slice() {
        write!(out, " {length}")?;
    }
    Ok(())
}

fn lengths_of(alloc: Global, line: &str) -> Result<Sequence<usize>, AllocError> {
    let mut sequence = Sequence::new(alloc);
    for word in line.split(' ').skip(1) {
        sequence.push(word.len())?;
    }
    Ok(Sequence::from_vec(sequence.into_vec()))
}
