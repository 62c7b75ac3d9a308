//! `parse`: a source on a line, and its tree, or the first token that no unit goes on with, and why. Before the source may
//! stand `@`, so that the tree shows the numbers of its tokens; `?`, so that only a refusal is shown; or `~`, so that each
//! beginning of its tokens is parsed, and the numbers of the refused tokens are shown.

use crate::lines::unescaped;
use crate::trees::shown;
use c_lex::{LexError, Token, lex};
use c_parser::{ParseError, parse};
use std::alloc::{AllocError, Global};

/// What is shown of a source.
#[derive(Clone, Copy, PartialEq, Eq)]
enum Sight {
    Tree,
    NumberedTree,
    Refusal,
    Beginnings,
}

pub(crate) fn answer(alloc: Global, out: &mut String, line: &str) -> Result<(), AllocError> {
    let (sight, text) = sight_of(line);
    let source = unescaped(alloc, text)?;
    if source.len() >= 1 << 31 {
        return out.push_str("too long");
    }
    match lex(alloc, source.as_slice()) {
        Ok(tokens) => answer_tokens(alloc, out, sight, tokens.as_slice()),
        Err(LexError::Memory) => Err(AllocError),
        Err(error) => write!(out, "no tokens: {error}"),
    }
}

fn sight_of(line: &str) -> (Sight, &str) {
    if let Some(text) = line.strip_prefix("@ ") {
        return (Sight::NumberedTree, text);
    }
    if let Some(text) = line.strip_prefix("? ") {
        return (Sight::Refusal, text);
    }
    if let Some(text) = line.strip_prefix("~ ") {
        return (Sight::Beginnings, text);
    }
    (Sight::Tree, line)
}

fn answer_tokens(
    alloc: Global,
    out: &mut String,
    sight: Sight,
    tokens: &[Token],
) -> Result<(), AllocError> {
    match sight {
        Sight::Beginnings => show_beginnings(alloc, out, tokens),
        Sight::Refusal => match refusal(alloc, tokens)? {
            None => out.push_str("a unit"),
            Some(error) => write!(out, "{error}: {error:?}"),
        },
        Sight::Tree => show_unit(alloc, out, tokens, false),
        Sight::NumberedTree => show_unit(alloc, out, tokens, true),
    }
}

/// The tree, or why there is none.
fn show_unit(
    alloc: Global,
    out: &mut String,
    tokens: &[Token],
    has_numbers: bool,
) -> Result<(), AllocError> {
    if tokens.len() >= 1 << 32 {
        return out.push_str("too long");
    }
    match parse(alloc, tokens) {
        Ok(unit) => {
            let text = shown(alloc, &unit, has_numbers);
            drop(unit);
            match text {
                Ok(text) if text.is_empty() => out.push_str("no externals"),
                Ok(text) => out.push_str(text.as_str()),
                Err(error) => Err(error),
            }
        }
        Err(ParseError::Memory) => Err(AllocError),
        Err(error) => write!(out, "{error}: {error:?}"),
    }
}

/// Why tokens are no unit, if they are none.
fn refusal(alloc: Global, tokens: &[Token]) -> Result<Option<ParseError>, AllocError> {
    if tokens.len() >= 1 << 32 {
        return Ok(None);
    }
    match parse(alloc, tokens) {
        Ok(unit) => {
            drop(unit);
            Ok(None)
        }
        Err(ParseError::Memory) => Err(AllocError),
        Err(error) => Ok(Some(error)),
    }
}

/// The number of the token that isn't expected, if there is one.
fn unexpected(alloc: Global, tokens: &[Token]) -> Result<Option<u32>, AllocError> {
    match refusal(alloc, tokens)? {
        Some(ParseError::Unexpected { token }) => Ok(Some(token)),
        Some(_) | None => Ok(None),
    }
}

/// The number of the token that isn't expected behind each beginning but the empty one.
fn show_beginnings(alloc: Global, out: &mut String, tokens: &[Token]) -> Result<(), AllocError> {
    out.push_str("unexpected")?;
    for (at, _token) in tokens.iter().enumerate() {
        match unexpected(alloc, &tokens[..at + 1])? {
            Some(token) => write!(out, " {token}")?,
            None => out.push_str(" none")?,
        }
    }
    Ok(())
}
