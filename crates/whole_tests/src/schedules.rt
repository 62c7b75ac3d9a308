//! `schedule`: `read TEXT` shows the events as they are printed; `count TEXT` how many there are; `cuts TEXT` the answer
//! of each beginning, from which length on it comes; `make SEED COUNT RANKS PROCESSORS` the made events.

use crate::lines::{
    behind_first, no_case, number_at, show_bytes, u16_at, u32_at, unescaped, word_at,
};
use schedule::{Event, SchedError, make, print, read};
use std::alloc::{AllocError, Global};

/// What a text gives: so many events, or the line at which it is refused.
#[derive(Clone, Copy, PartialEq, Eq)]
enum Found {
    Events(usize),
    Bad(u32),
    Many(u32),
}

pub(crate) fn answer(alloc: Global, out: &mut String, line: &str) -> Result<(), AllocError> {
    match word_at(line, 0) {
        "read" => show_read(alloc, out, behind_first(line)),
        "count" => show_count(alloc, out, behind_first(line)),
        "cuts" => show_cuts(alloc, out, behind_first(line)),
        "make" => show_made(alloc, out, line),
        _ => no_case(out),
    }
}

/// Reads a text that is short enough.
fn read_short(alloc: Global, text: &[u8]) -> Result<Vec<Event>, SchedError> {
    if text.len() >= 1 << 32 {
        return Err(SchedError::TooMany { line: 0 });
    }
    read(alloc, text)
}

fn answer_of(alloc: Global, text: &[u8]) -> Result<Found, AllocError> {
    match read_short(alloc, text) {
        Ok(events) => Ok(Found::Events(events.len())),
        Err(SchedError::BadLine { line }) => Ok(Found::Bad(line)),
        Err(SchedError::TooMany { line }) => Ok(Found::Many(line)),
        Err(SchedError::Memory) => Err(AllocError),
    }
}

fn show_answer(out: &mut String, found: Found) -> Result<(), AllocError> {
    match found {
        Found::Events(count) => write!(out, "{count} events"),
        Found::Bad(line) => write!(out, "line {line} is bad"),
        Found::Many(line) => write!(out, "line {line} has an event too many"),
    }
}

fn show_read(alloc: Global, out: &mut String, text: &str) -> Result<(), AllocError> {
    let bytes = unescaped(alloc, text)?;
    match read_short(alloc, bytes.as_slice()) {
        Ok(events) => show_events(alloc, out, events.as_slice()),
        Err(SchedError::Memory) => Err(AllocError),
        Err(error) => write!(out, "{error}: {error:?}"),
    }
}

fn show_events(alloc: Global, out: &mut String, events: &[Event]) -> Result<(), AllocError> {
    let text = print(alloc, events)?;
    show_bytes(out, text.as_slice())
}

fn show_count(alloc: Global, out: &mut String, text: &str) -> Result<(), AllocError> {
    let bytes = unescaped(alloc, text)?;
    let found = answer_of(alloc, bytes.as_slice())?;
    show_answer(out, found)
}

fn show_cuts(alloc: Global, out: &mut String, text: &str) -> Result<(), AllocError> {
    let bytes = unescaped(alloc, text)?;
    let mut last = answer_of(alloc, &[])?;
    out.push_str("0 ")?;
    show_answer(out, last)?;
    for (at, _byte) in bytes.iter().enumerate() {
        let next = answer_of(alloc, &bytes.as_slice()[..at + 1])?;
        if next != last {
            write!(out, "; {} ", at + 1)?;
            show_answer(out, next)?;
            last = next;
        }
    }
    Ok(())
}

fn show_made(alloc: Global, out: &mut String, line: &str) -> Result<(), AllocError> {
    let (Some(seed), Some(count)) = (number_at(line, 1), u32_at(line, 2)) else {
        return no_case(out);
    };
    let (Some(ranks), Some(processors)) = (u16_at(line, 3), u16_at(line, 4)) else {
        return no_case(out);
    };
    if ranks == 0 || processors == 0 {
        return no_case(out);
    }
    let events = make(alloc, seed, count, ranks, processors)?;
    show_events(alloc, out, events.as_slice())
}
