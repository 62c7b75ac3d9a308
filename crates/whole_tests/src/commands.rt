//! `words`: a command line behind `ampi`, and what it asks for.

use crate::lines::{show_bytes, unescaped};
use run_words::{Command, WordsError, journal_name, read_words};
use std::alloc::{AllocError, Global};

pub(crate) fn answer(alloc: Global, out: &mut String, line: &str) -> Result<(), AllocError> {
    let words = words_of(alloc, line)?;
    match read_words(alloc, &words) {
        Ok(command) => show_command(out, &command)?,
        Err(WordsError::Memory) => return Err(AllocError),
        Err(error) => write!(out, "{error}")?,
    }
    match journal_name(&words) {
        Some(name) => {
            out.push_str(", journal ")?;
            show_bytes(out, name.as_bytes())
        }
        None => out.push_str(", no journal"),
    }
}

fn show_command(out: &mut String, command: &Command) -> Result<(), AllocError> {
    for (at, file) in command.files.iter().enumerate() {
        if at > 0 {
            out.push_str(" ")?;
        }
        show_bytes(out, file.as_bytes())?;
    }
    write!(out, ", ranks {}, ticks {}", command.ranks, command.ticks)
}

/// The words behind the first one, with one blank between two.
fn words_of(alloc: Global, line: &str) -> Result<Vec<String>, AllocError> {
    let mut words = Vec::new(alloc);
    for word in line.split(' ').skip(1) {
        words.push(text_of(alloc, word)?)?;
    }
    Ok(words)
}

/// The text that a word stands for, and a question mark where its bytes are none.
fn text_of(alloc: Global, word: &str) -> Result<String, AllocError> {
    let bytes = unescaped(alloc, word)?;
    match String::from_utf8(bytes) {
        Ok(text) => Ok(text),
        Err(_) => String::from_str(alloc, "?"),
    }
}
