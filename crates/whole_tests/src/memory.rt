//! `memory`: calls of a rank's memory, of the rank that the group's first line names (`rank R`). Offsets are from the
//! rank's first byte: `top T`, `accessible AT N`, `place AT WIDTH`, `load AT WIDTH`, `store AT WIDTH V`, `raw AT WIDTH`,
//! `put AT WIDTH V`, `page P`, `clean`, `view AT N`, `write AT TEXT`, `copy TO FROM N`, `fill AT N BYTE`, `span AT N`; `address
//! A N` takes an address.

ghost use Rattle.std.specs.Prelude.{◌≡◌, ◌+◌, ◌≤◌, true};
ghost use Rattle.rank_range.specs.Layout.{range_bytes};
ghost use Rattle.rank_range.specs.Numbers.{bytes_in};

use crate::cases::begins;
use crate::lines::{no_case, number_at, u16_at, u32_at, word_at};
use crate::parts;
use am_base::RankId;
use rank_range::{
    CONTROL_START, DESCRIPTORS_START, FlatMem, GLOBALS_START, HEAP_START, Mem, PAGE_BYTES, PAGES,
    RANGE_BYTES, STACK_START, Width, base, is_accessible, place_of, read_number, write_number,
};
use std::alloc::{AllocError, Global};

pub(crate) fn play(alloc: Global, out: &mut String, group: &[&str]) -> Result<(), AllocError> {
    let mut memory = FlatMem::fresh(alloc, rank_of(group))?;
    let played = play_on(alloc, &mut memory, out, group);
    drop(memory);
    played
}

fn play_on(
    alloc: Global,
    memory: &mut FlatMem,
    out: &mut String,
    group: &[&str],
) -> Result<(), AllocError> {
    for line in group {
        if begins(out, line)? {
            answer(alloc, memory, out, line)?;
            out.push_str("\n")?;
        }
    }
    Ok(())
}

/// The rank that a group's first line names; 0 where it names none.
pub(crate) fn rank_of(group: &[&str]) -> RankId {
    for line in group {
        if line.starts_with("rank ") {
            return RankId(u16_at(line, 1).unwrap_or(0));
        }
    }
    RankId(0)
}

fn answer(
    alloc: Global,
    memory: &mut FlatMem,
    out: &mut String,
    line: &str,
) -> Result<(), AllocError> {
    match word_at(line, 0) {
        "rank" => write!(
            out,
            "rank {}, base {:#x}",
            memory.rank().0,
            base(memory.rank())
        ),
        "layout" => show_layout(out),
        "number" => show_number(out, line),
        "top" => show_top(memory, out, u32_at(line, 1)),
        "address" => show_address(memory, out, line),
        "page" => show_page(memory, out, u32_at(line, 1)),
        "clean" => {
            memory.clean();
            out.push_str("cleaned")
        }
        "accessible" => show_accessible(memory, out, line),
        "view" | "write" | "copy" | "fill" | "span" => parts::answer(alloc, memory, out, line),
        _ => answer_number(memory, out, line),
    }
}

fn show_layout(out: &mut String) -> Result<(), AllocError> {
    write!(
        out,
        "{PAGES} pages of {PAGE_BYTES} bytes, {RANGE_BYTES:#x} in all: "
    )?;
    write!(
        out,
        "control {CONTROL_START:#x}, descriptors {DESCRIPTORS_START:#x}, "
    )?;
    write!(
        out,
        "globals {GLOBALS_START:#x}, heap {HEAP_START:#x}, stack {STACK_START:#x}"
    )
}

/// The width that a word says, in bytes.
pub(crate) fn width_at(line: &str, place: usize) -> Option<Width> {
    match word_at(line, place) {
        "1" => Some(Width::One),
        "2" => Some(Width::Two),
        "4" => Some(Width::Four),
        "8" => Some(Width::Eight),
        _ => None,
    }
}

/// Ten sevens, with a number behind the first, and the number that stands there then.
fn show_number(out: &mut String, line: &str) -> Result<(), AllocError> {
    let (Some(width), Some(value)) = (width_at(line, 1), number_at(line, 2)) else {
        return no_case(out);
    };
    let mut bytes = [7u8; 10];
    write_number(&mut bytes, 1, width, value);
    for byte in bytes {
        write!(out, "{byte:02x} ")?;
    }
    write!(out, "{:#x}", read_number(&bytes, 1, width))
}

fn show_top(memory: &mut FlatMem, out: &mut String, top: Option<u32>) -> Result<(), AllocError> {
    if let Some(top) = top {
        if STACK_START <= top && top <= RANGE_BYTES {
            memory.set_top(top);
        }
    }
    write!(out, "top {:#x}", memory.top())
}

fn show_page(memory: &FlatMem, out: &mut String, page: Option<u32>) -> Result<(), AllocError> {
    match page {
        Some(page) if page < PAGES => write!(out, "marked: {}", memory.dirty(page)),
        _ => no_case(out),
    }
}

fn show_address(memory: &FlatMem, out: &mut String, line: &str) -> Result<(), AllocError> {
    match (number_at(line, 1), number_at(line, 2)) {
        (Some(address), Some(count)) => {
            let first = memory.accessible(address, count);
            let second = is_accessible(memory.rank(), memory.top(), address, count);
            show_two(out, first, second)
        }
        _ => no_case(out),
    }
}

fn show_accessible(memory: &FlatMem, out: &mut String, line: &str) -> Result<(), AllocError> {
    match (number_at(line, 1), number_at(line, 2)) {
        (Some(at), Some(count)) => {
            let address = base(memory.rank()).wrapping_add(at);
            let first = memory.accessible(address, count);
            let second = is_accessible(memory.rank(), memory.top(), address, count);
            show_two(out, first, second)
        }
        _ => no_case(out),
    }
}

/// What two calls say, once where they agree.
fn show_two(out: &mut String, first: bool, second: bool) -> Result<(), AllocError> {
    if first == second {
        return write!(out, "{first}");
    }
    write!(out, "{first} and {second}")
}

fn answer_number(memory: &mut FlatMem, out: &mut String, line: &str) -> Result<(), AllocError> {
    let (Some(at), Some(width)) = (u32_at(line, 1), width_at(line, 2)) else {
        return no_case(out);
    };
    let address = base(memory.rank()).wrapping_add(u64::from(at));
    match (word_at(line, 0), number_at(line, 3)) {
        ("place", _) => match place_of(memory.rank(), memory.top(), address, width) {
            Ok(place) => write!(out, "{place:#x}"),
            Err(error) => write!(out, "{error}"),
        },
        ("load", _) => match memory.load(address, width) {
            Ok(value) => write!(out, "{value:#x}"),
            Err(error) => write!(out, "{error}"),
        },
        ("store", Some(value)) => match memory.store(address, width, value) {
            Ok(()) => out.push_str("stored"),
            Err(error) => write!(out, "{error}"),
        },
        ("raw", _) => show_raw(memory, out, at, width),
        ("put", Some(value)) => put_raw(memory, out, at, width, value),
        _ => no_case(out),
    }
}

/// Whether so many bytes lie in the range there.
pub(crate) fn is_within(at: u32, width: Width) -> bool
    ensures { result ≡ true → at + bytes_in width ≤ range_bytes }
{
    u64::from(at) + width.bytes() as u64 <= u64::from(RANGE_BYTES)
}

fn show_raw(memory: &FlatMem, out: &mut String, at: u32, width: Width) -> Result<(), AllocError> {
    if !is_within(at, width) {
        return no_case(out);
    }
    write!(out, "{:#x}", memory.raw(at, width))
}

fn put_raw(
    memory: &mut FlatMem,
    out: &mut String,
    at: u32,
    width: Width,
    value: u64,
) -> Result<(), AllocError> {
    if !is_within(at, width) {
        return no_case(out);
    }
    memory.set_raw(at, width, value);
    out.push_str("put")
}
