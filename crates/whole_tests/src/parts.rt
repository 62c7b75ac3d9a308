//! Bytes of a rank's memory, for the word `memory`: they are shown, put, copied and filled by their offset from the rank's
//! first byte.

use crate::lines::{behind_first, no_case, number_at, show_bytes, u8_at, unescaped, word_at};
use rank_range::access::{copy, fill, view, write};
use rank_range::{BadAddress, FlatMem, Mem, base, place_of_bytes};
use std::alloc::{AllocError, Global};

pub(crate) fn answer(
    alloc: Global,
    memory: &mut FlatMem,
    out: &mut String,
    line: &str,
) -> Result<(), AllocError> {
    let Some(at) = number_at(line, 1) else {
        return no_case(out);
    };
    let address = address_of(memory, at);
    match (word_at(line, 0), number_at(line, 2)) {
        ("view", Some(count)) => show_view(memory, out, address, count),
        ("span", Some(count)) => show_span(memory, out, address, count),
        ("fill", Some(count)) => {
            let filled = fill(memory, address, count, u8_at(line, 3).unwrap_or(0));
            show_done(out, filled)
        }
        ("copy", Some(from)) => {
            let from = address_of(memory, from);
            let copied = copy(memory, address, from, number_at(line, 3).unwrap_or(0));
            show_done(out, copied)
        }
        ("write", _) => {
            let bytes = unescaped(alloc, behind_first(behind_first(line)))?;
            let written = write(memory, address, bytes.as_slice());
            show_done(out, written)
        }
        _ => no_case(out),
    }
}

fn address_of(memory: &FlatMem, at: u64) -> u64 {
    base(memory.rank()).wrapping_add(at)
}

fn show_done(out: &mut String, done: Result<(), BadAddress>) -> Result<(), AllocError> {
    match done {
        Ok(()) => out.push_str("done"),
        Err(error) => write!(out, "{error}"),
    }
}

fn show_view(
    memory: &FlatMem,
    out: &mut String,
    address: u64,
    count: u64,
) -> Result<(), AllocError> {
    match view(memory, address, count) {
        Ok(bytes) => {
            out.push_str("\"")?;
            show_bytes(out, bytes)?;
            out.push_str("\"")
        }
        Err(error) => write!(out, "{error}"),
    }
}

fn show_span(
    memory: &FlatMem,
    out: &mut String,
    address: u64,
    count: u64,
) -> Result<(), AllocError> {
    if count == 0 {
        return no_case(out);
    }
    match place_of_bytes(memory.rank(), memory.top(), address, count) {
        Ok(place) => write!(out, "{place:#x}"),
        Err(error) => write!(out, "{error}"),
    }
}
