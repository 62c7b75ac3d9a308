//! `collect`: what the members of a communicator get from a collective. `join KIND ROOT OPERATION DATATYPE COUNT COLOUR KEY
//! HH ..` adds the argument of the next member, with kind, operation and datatype by their numbers, and its bytes; `member N`
//! shows what that member gets; `kind N`, `has DATATYPE OPERATION` show the tables.

use crate::cases::begins;
use crate::lines::{i32_at, no_case, show_hexadecimal, u8_at, u16_at, u32_at, word_at};
use am_base::Bytes;
use mpi_types::{Arg, Collective, Datatype, Operation, collected, copied_args};
use std::alloc::{AllocError, Global};

pub(crate) fn play(alloc: Global, out: &mut String, group: &[&str]) -> Result<(), AllocError> {
    let mut args = Vec::new(alloc);
    let played = play_on(alloc, &mut args, out, group);
    drop(args);
    played
}

fn play_on(
    alloc: Global,
    args: &mut Vec<Arg>,
    out: &mut String,
    group: &[&str],
) -> Result<(), AllocError> {
    for line in group {
        if begins(out, line)? {
            answer(alloc, args, out, line)?;
            out.push_str("\n")?;
        }
    }
    Ok(())
}

fn answer(
    alloc: Global,
    args: &mut Vec<Arg>,
    out: &mut String,
    line: &str,
) -> Result<(), AllocError> {
    match word_at(line, 0) {
        "join" => show_join(alloc, args, out, line),
        "member" => show_share(alloc, args.as_slice(), out, u16_at(line, 1)),
        "kind" => show_kind(out, u8_at(line, 1)),
        "has" => show_pair(out, u8_at(line, 1), u8_at(line, 2)),
        _ => no_case(out),
    }
}

fn show_join(
    alloc: Global,
    args: &mut Vec<Arg>,
    out: &mut String,
    line: &str,
) -> Result<(), AllocError> {
    let member = args.len().min(65_535) as u16;
    match argument(alloc, member, line)? {
        Some(argument) => {
            args.push(argument)?;
            write!(out, "member {member}")
        }
        None => no_case(out),
    }
}

fn argument(alloc: Global, member: u16, line: &str) -> Result<Option<Arg>, AllocError> {
    let Some(kind) = Collective::of_number(u8_at(line, 1).unwrap_or(0)) else {
        return Ok(None);
    };
    let body = body_of(alloc, line)?;
    Ok(Some(Arg {
        member,
        kind,
        root: i32_at(line, 2).unwrap_or(0),
        operation: u8_at(line, 3).unwrap_or(0),
        datatype: u8_at(line, 4).unwrap_or(0),
        count: u32_at(line, 5).unwrap_or(0),
        colour: i32_at(line, 6).unwrap_or(0),
        key: i32_at(line, 7).unwrap_or(0),
        body,
    }))
}

/// The bytes that stand as hexadecimal numbers behind the key.
fn body_of(alloc: Global, line: &str) -> Result<Bytes, AllocError> {
    let mut bytes = Bytes::new(alloc);
    for word in line.split(' ').skip(8) {
        bytes.push(u8::from_str_radix(word, 16).unwrap_or(0))?;
    }
    Ok(bytes)
}

fn show_share(
    alloc: Global,
    args: &[Arg],
    out: &mut String,
    member: Option<u16>,
) -> Result<(), AllocError> {
    match member {
        Some(member) if usize::from(member) < args.len() => {
            let copies = copied_args(alloc, args)?;
            let share = share_of(alloc, copies.as_slice(), member);
            drop(copies);
            show_bytes_of(out, share?)
        }
        _ => no_case(out),
    }
}

fn share_of(alloc: Global, args: &[Arg], member: u16) -> Result<Option<Bytes>, AllocError> {
    if usize::from(member) >= args.len() {
        return Ok(None);
    }
    collected(alloc, args, member)
}

fn show_bytes_of(out: &mut String, share: Option<Bytes>) -> Result<(), AllocError> {
    match share {
        Some(bytes) if bytes.is_empty() => out.push_str("nothing"),
        Some(bytes) => show_hexadecimal(out, bytes.as_slice()),
        None => out.push_str("mismatch"),
    }
}

fn show_kind(out: &mut String, number: Option<u8>) -> Result<(), AllocError> {
    match Collective::of_number(number.unwrap_or(0)) {
        Some(kind) => {
            let (number, is_typed, is_reducing) = (
                kind.number(),
                kind.is_typed(),
                kind.is_reducing(),
            );
            write!(
                out,
                "{kind:?}, number {number}, typed {is_typed}, reducing {is_reducing}"
            )
        }
        None => out.push_str("none"),
    }
}

/// Whether the datatype has the operation, and whether that is on bits.
fn show_pair(
    out: &mut String,
    datatype: Option<u8>,
    operation: Option<u8>,
) -> Result<(), AllocError> {
    let datatype = Datatype::of_byte(datatype.unwrap_or(0));
    let operation = Operation::of_byte(operation.unwrap_or(0));
    match (datatype, operation) {
        (Some(datatype), Some(operation)) => {
            let (has, is_on_bits) = (datatype.has(operation), operation.is_on_bits());
            write!(out, "{has}, on bits {is_on_bits}")
        }
        _ => out.push_str("none"),
    }
}
