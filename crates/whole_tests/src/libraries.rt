//! `library`: calls of the C library on the memory of the rank that the group's first line names (`rank R`). A place is `g`, `h`
//! or `s` and an offset from the first byte of the globals, the heap or the data stack, or with a `-` how many bytes before that
//! area's end; elsewhere words are numbers. `top T`, `put PLACE TEXT`, `show PLACE N`, and a call by its name.

ghost use Rattle.std.specs.Prelude.{IsTrue, IfSome};
ghost use Rattle.c_lib.specs.Answers.{is_made};

use crate::cases::begins;
use crate::lines::{
    behind_first, no_case, number, number_at, show_bytes, u32_at, unescaped, word_at,
};
use crate::memory::rank_of;
use am_base::{LibCall, RankId};
use c_lib::call;
use rank_range::{
    FlatMem, GLOBALS_START, HEAP_START, LibStop, Mem, RANGE_BYTES, STACK_START, base,
};
use std::alloc::{AllocError, Global};

pub(crate) fn play(alloc: Global, out: &mut String, group: &[&str]) -> Result<(), AllocError> {
    let mut memory = FlatMem::fresh(alloc, rank_of(group))?;
    let played = play_on(alloc, &mut memory, out, group);
    drop(memory);
    played
}

fn play_on(
    alloc: Global,
    memory: &mut FlatMem,
    out: &mut String,
    group: &[&str],
) -> Result<(), AllocError> {
    for line in group {
        if begins(out, line)? {
            answer(alloc, memory, out, line)?;
            out.push_str("\n")?;
        }
    }
    Ok(())
}

fn answer(
    alloc: Global,
    memory: &mut FlatMem,
    out: &mut String,
    line: &str,
) -> Result<(), AllocError> {
    match word_at(line, 0) {
        "rank" => write!(out, "rank {}", memory.rank().0),
        "top" => set_top(memory, out, u32_at(line, 1)),
        "put" => put(alloc, memory, out, line),
        "show" => show(memory, out, line),
        name => match call_named(name) {
            Some(which) => show_call(alloc, memory, out, which, behind_first(line)),
            None => no_case(out),
        },
    }
}

fn set_top(memory: &mut FlatMem, out: &mut String, top: Option<u32>) -> Result<(), AllocError> {
    if let Some(top) = top {
        if STACK_START <= top && top <= RANGE_BYTES {
            memory.set_top(top);
        }
    }
    write!(out, "top {:#x}", memory.top())
}

/// The address that a place names, or the number that a word says.
fn word_of(rank: RankId, top: u32, word: &str) -> u64 {
    let Some((area, offset)) = word.split_at_checked(1) else {
        return 0;
    };
    let (start, end) = match area {
        "g" => (GLOBALS_START, HEAP_START),
        "h" => (HEAP_START, STACK_START),
        "s" => (STACK_START, top),
        "-" => return number(offset).unwrap_or(0).wrapping_neg(),
        _ => return number(word).unwrap_or(0),
    };
    let (area, at) = match offset.strip_prefix("-") {
        Some(before) => (end, number(before).unwrap_or(0).wrapping_neg()),
        None => (start, number(offset).unwrap_or(0)),
    };
    base(rank).wrapping_add(area as u64).wrapping_add(at)
}

fn put(
    alloc: Global,
    memory: &mut FlatMem,
    out: &mut String,
    line: &str,
) -> Result<(), AllocError> {
    let rest = behind_first(line);
    let text = unescaped(alloc, behind_first(rest))?;
    let address = word_of(memory.rank(), memory.top(), word_at(rest, 0));
    match memory.write(address, text.as_slice()) {
        Ok(()) => out.push_str("put"),
        Err(error) => write!(out, "{error}"),
    }
}

fn show(memory: &FlatMem, out: &mut String, line: &str) -> Result<(), AllocError> {
    let address = word_of(memory.rank(), memory.top(), word_at(line, 1));
    match memory.view(address, number_at(line, 2).unwrap_or(0)) {
        Ok(bytes) => show_bytes(out, bytes),
        Err(error) => write!(out, "{error}"),
    }
}

/// The call of that name, of those that this layer makes.
fn call_named(name: &str) -> Option<LibCall>
    ensures { IfSome result (λ which. IsTrue (is_made which)) }
{
    match name {
        "printf" => Some(LibCall::Printf),
        "puts" => Some(LibCall::Puts),
        "putchar" => Some(LibCall::Putchar),
        "memcpy" => Some(LibCall::Memcpy),
        "memset" => Some(LibCall::Memset),
        "memcmp" => Some(LibCall::Memcmp),
        "strlen" => Some(LibCall::Strlen),
        "strcmp" => Some(LibCall::Strcmp),
        "strcpy" => Some(LibCall::Strcpy),
        "atoi" => Some(LibCall::Atoi),
        "abs" => Some(LibCall::Abs),
        _ => None,
    }
}

fn show_call(
    alloc: Global,
    memory: &mut FlatMem,
    out: &mut String,
    which: LibCall,
    words: &str,
) -> Result<(), AllocError>
    requires { IsTrue (is_made which) }
{
    let mut args = Vec::new(alloc);
    for word in words.split(' ') {
        args.push(word_of(memory.rank(), memory.top(), word))?;
    }
    if args.len() < which.parameters().len() {
        return no_case(out);
    }
    match call(alloc, which, args.as_slice(), memory) {
        Ok(done) => {
            write!(out, "{}", done.value.cast_signed())?;
            if !done.text.is_empty() {
                out.push_str(", ")?;
                show_bytes(out, done.text.as_slice())?;
            }
            Ok(())
        }
        Err(LibStop::Trap(cause)) => show_bytes(out, cause.text()),
        Err(LibStop::Memory) => Err(AllocError),
    }
}
