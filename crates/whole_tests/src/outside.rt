//! `files`: files and sinks in memory, beside those that never fail. `add NAME TEXT`, `load NAME LIMIT`, `say TEXT`;
//! `fail-load N` and `fail-put N` name calls that fail, from 0 on, and `takes N` how much such a put still writes.

use crate::cases::begins;
use crate::lines::{behind_first, no_case, number_at, show_bytes, unescaped, word_at};
use am_io::{
    FileSink, Files, FsFiles, LoadError, MemFiles, MemSink, NullSink, SayError, Sink, SureFiles,
    SureSink, say,
};
use std::alloc::{AllocError, Global};

/// Files and sinks in memory.
#[derive(Drop)]
struct Outside {
    files: MemFiles,
    sure_files: SureFiles,
    sink: MemSink,
    sure_sink: SureSink,
}

pub(crate) fn play(alloc: Global, out: &mut String, group: &[&str]) -> Result<(), AllocError> {
    let mut outside = Outside {
        files: MemFiles::new(alloc),
        sure_files: SureFiles::new(alloc),
        sink: MemSink::new(alloc),
        sure_sink: SureSink::new(alloc),
    };
    let played = play_on(alloc, &mut outside, out, group);
    drop(outside);
    played
}

fn play_on(
    alloc: Global,
    outside: &mut Outside,
    out: &mut String,
    group: &[&str],
) -> Result<(), AllocError> {
    for line in group {
        if begins(out, line)? {
            answer(alloc, outside, out, line)?;
            out.push_str("\n")?;
        }
    }
    Ok(())
}

fn answer(
    alloc: Global,
    outside: &mut Outside,
    out: &mut String,
    line: &str,
) -> Result<(), AllocError> {
    let rest = behind_first(line);
    match (word_at(line, 0), number_at(line, 1)) {
        ("add", _) => {
            let text = unescaped(alloc, behind_first(rest))?;
            outside.files.add(word_at(line, 1), text.as_slice())?;
            outside.sure_files.add(word_at(line, 1), text.as_slice())?;
            out.push_str("added")
        }
        ("fail-load", Some(call)) => {
            outside.files.fail_at(call)?;
            out.push_str("will fail")
        }
        ("fail-put", Some(put)) => {
            outside.sink.fail_at(put)?;
            out.push_str("will fail")
        }
        ("takes", Some(count)) => {
            outside.sink.takes(count as usize);
            out.push_str("will take")
        }
        ("load", _) => show_load(alloc, outside, out, line),
        ("say", _) => show_say(alloc, outside, out, rest),
        _ => no_case(out),
    }
}

/// What a load gives.
fn show_loaded<F: Files>(
    alloc: Global,
    out: &mut String,
    files: &mut F,
    name: &str,
    limit: u64,
) -> Result<(), AllocError> {
    match files.load(alloc, name, limit) {
        Ok(bytes) => {
            out.push_str("\"")?;
            show_bytes(out, bytes.as_slice())?;
            out.push_str("\"")
        }
        Err(LoadError::Failed) => out.push_str("failed"),
        Err(LoadError::Memory) => Err(AllocError),
    }
}

fn show_load(
    alloc: Global,
    outside: &mut Outside,
    out: &mut String,
    line: &str,
) -> Result<(), AllocError> {
    let Some(limit) = number_at(line, 2) else {
        return no_case(out);
    };
    let name = word_at(line, 1);
    show_loaded(alloc, out, &mut outside.files, name, limit)?;
    write!(out, " in call {}", outside.files.calls())?;
    write!(out, " with {} faults, surely ", outside.files.faults())?;
    show_loaded(alloc, out, &mut outside.sure_files, name, limit)
}

/// Whether a piece was said.
fn said<K: Sink>(sink: &mut K, piece: &[u8]) -> Result<bool, AllocError> {
    match say(sink, piece) {
        Ok(()) => Ok(true),
        Err(SayError::Failed) => Ok(false),
        Err(SayError::Memory) => Err(AllocError),
    }
}

fn show_say(
    alloc: Global,
    outside: &mut Outside,
    out: &mut String,
    text: &str,
) -> Result<(), AllocError> {
    let piece = unescaped(alloc, text)?;
    let piece = piece.as_slice();
    let is_said = said(&mut outside.sink, piece)?;
    let is_surely_said = said(&mut outside.sure_sink, piece)?;
    let is_dropped = said(&mut NullSink, piece)?;
    write!(out, "{is_said} {is_surely_said} {is_dropped}: \"")?;
    show_bytes(out, outside.sink.bytes())?;
    write!(out, "\" in {} puts", outside.sink.puts())?;
    write!(out, " with {} faults, surely \"", outside.sink.faults())?;
    show_bytes(out, outside.sure_sink.bytes())?;
    out.push_str("\"")
}

/// Writes a file of the host and reads it back, as long as that is and up to one byte past a limit. A folder that isn't
/// there is a fault each time.
pub(crate) fn show_host<R: std::rt::Files>(
    rt: &R,
    alloc: Global,
    out: &mut String,
) -> Result<(), AllocError> {
    out.push_str("# The host: a file that is written in two pieces, and read back\n")?;
    show_written(rt, out, "written")?;
    show_written(rt, out, "no/such/folder")?;
    show_read(rt, alloc, out)?;
    out.push_str("\n")
}

fn show_written<R: std::rt::Files>(rt: &R, out: &mut String, name: &str) -> Result<(), AllocError> {
    let mut sink = FileSink::new(rt, name);
    let first = said(&mut sink, b"one ");
    let second = said(&mut sink, b"two");
    let faults = sink.faults();
    drop(sink);
    write!(
        out,
        "    said {}, {} with {faults} faults\n",
        first?, second?
    )
}

fn show_read<R: std::rt::Files>(rt: &R, alloc: Global, out: &mut String) -> Result<(), AllocError> {
    let mut files = FsFiles::new(rt);
    for (name, limit) in [
        ("written", 7),
        ("written", u64::MAX),
        ("written", 2),
        ("no/such", 9),
    ] {
        out.push_str("    ")?;
        show_loaded(alloc, out, &mut files, name, limit)?;
        write!(out, " with {} faults\n", files.faults())?;
    }
    Ok(())
}
