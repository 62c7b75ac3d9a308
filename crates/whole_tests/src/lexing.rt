//! `lex`: a source on a line, and its tokens or the first byte that offends.

use crate::lines::{show_bytes, unescaped};
use c_lex::{Headers, Keyword, LexError, Mark, NumberType, Token, TokenKind, lex};
use std::alloc::{AllocError, Global};

pub(crate) fn answer(alloc: Global, out: &mut String, line: &str) -> Result<(), AllocError> {
    let source = unescaped(alloc, line)?;
    if source.len() >= 1 << 31 {
        return out.push_str("too long");
    }
    match lex(alloc, source.as_slice()) {
        Ok(tokens) => show_tokens(out, tokens.as_slice()),
        Err(LexError::Memory) => Err(AllocError),
        Err(error) => write!(out, "{error}: {error:?}"),
    }
}

/// Tokens with blanks between them. Where a token's line isn't that of the token before, or not 1 at the first one, it
/// stands there behind `@`; and so stand the headers in `<>` where there are others than before.
fn show_tokens(out: &mut String, tokens: &[Token]) -> Result<(), AllocError> {
    let mut line = 1;
    let mut headers = Headers {
        mpi: false,
        stdio: false,
        stdlib: false,
        strings: false,
    };
    write!(out, "{} tokens", tokens.len())?;
    for token in tokens {
        out.push_str(" ")?;
        if token.line != line {
            line = token.line;
            write!(out, "@{line} ")?;
        }
        if token.headers != headers {
            headers = token.headers;
            show_headers(out, headers)?;
        }
        show_kind(out, token)?;
    }
    Ok(())
}

/// The first letters of the headers, the third one of `stdio.h` and the fourth of `stdlib.h`.
fn show_headers(out: &mut String, headers: Headers) -> Result<(), AllocError> {
    out.push_str("<")?;
    if headers.mpi {
        out.push_str("m")?;
    }
    if headers.stdio {
        out.push_str("i")?;
    }
    if headers.stdlib {
        out.push_str("l")?;
    }
    if headers.strings {
        out.push_str("s")?;
    }
    out.push_str("> ")
}

/// A name behind `$`, a character by its value, a string by its bytes in quotes.
fn show_kind(out: &mut String, token: &Token) -> Result<(), AllocError> {
    let value = token.value;
    match token.kind {
        TokenKind::Keyword(keyword) => show_keyword(out, keyword),
        TokenKind::Name => show_text(out, "$", token.text.as_slice(), ""),
        TokenKind::Number(number_type) => show_number(out, value, number_type),
        TokenKind::Character => write!(out, "'{value}"),
        TokenKind::Text => show_text(out, "\"", token.text.as_slice(), "\""),
        TokenKind::Mark(mark) => show_mark(out, mark),
    }
}

fn show_keyword(out: &mut String, keyword: Keyword) -> Result<(), AllocError> {
    write!(out, "{keyword:?}")
}

fn show_number(out: &mut String, value: u64, number_type: NumberType) -> Result<(), AllocError> {
    write!(out, "{value}:{number_type:?}")
}

fn show_mark(out: &mut String, mark: Mark) -> Result<(), AllocError> {
    write!(out, "{mark:?}")
}

/// Bytes between two marks.
fn show_text(out: &mut String, front: &str, bytes: &[u8], back: &str) -> Result<(), AllocError> {
    out.push_str(front)?;
    show_bytes(out, bytes)?;
    out.push_str(back)
}
