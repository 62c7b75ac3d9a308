//! A data file as groups of cases. Blank lines separate groups; a line that begins with `# ` is a comment.

use crate::word::Word;
use crate::{
    books, collectives, commands, fields, heaps, lexing, libraries, memory, names, outside,
    parsing, plans, schedules,
};
use std::alloc::{AllocError, Global};

/// The file's text, behind the word's name, with an answer under each case.
pub(crate) fn shown(alloc: Global, word: Word, text: &str) -> Result<String, AllocError> {
    let mut out = String::new(alloc);
    write!(out, "== {}\n", word.name())?;
    let mut group = Vec::new(alloc);
    for line in text.lines() {
        if line.is_empty() {
            play(alloc, &mut out, word, group.as_slice())?;
            out.push_str("\n")?;
            group.clear();
        } else {
            group.push(line)?;
        }
    }
    play(alloc, &mut out, word, group.as_slice())?;
    out.push_str("\n")?;
    Ok(out)
}

/// Plays a group. Memory, a heap and a book last as long as their group.
fn play(alloc: Global, out: &mut String, word: Word, group: &[&str]) -> Result<(), AllocError> {
    match word {
        Word::Files => outside::play(alloc, out, group),
        Word::Memory => memory::play(alloc, out, group),
        Word::Heap => heaps::play(alloc, out, group),
        Word::Library => libraries::play(alloc, out, group),
        Word::Match => books::play(alloc, out, group),
        Word::Collect => collectives::play(alloc, out, group),
        _ => {
            for line in group {
                if begins(out, line)? {
                    answer(alloc, out, word, line)?;
                    out.push_str("\n")?;
                }
            }
            Ok(())
        }
    }
}

/// Shows a line, and begins the answer if it is a case.
pub(crate) fn begins(out: &mut String, line: &str) -> Result<bool, AllocError> {
    out.push_str(line)?;
    out.push_str("\n")?;
    if line.starts_with("# ") {
        return Ok(false);
    }
    out.push_str("    ")?;
    Ok(true)
}

/// The answer of a case that stands by itself.
fn answer(alloc: Global, out: &mut String, word: Word, line: &str) -> Result<(), AllocError> {
    match word {
        Word::Fields => fields::answer(alloc, out, line),
        Word::Names => names::answer(alloc, out, line),
        Word::Words => commands::answer(alloc, out, line),
        Word::Lex => lexing::answer(alloc, out, line),
        Word::Parse => parsing::answer(alloc, out, line),
        Word::Schedule => schedules::answer(alloc, out, line),
        Word::Plans => plans::answer(alloc, out, line),
        Word::Files | Word::Memory | Word::Heap | Word::Library | Word::Match | Word::Collect => {
            Ok(())
        }
    }
}
