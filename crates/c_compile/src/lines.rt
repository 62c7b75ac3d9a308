//! The lines of bytes and of tokens.

ghost use Rattle.std.specs.Prelude.{◌≡◌, ◌<◌, ◌^◌, length, IfOk};
ghost use Rattle.c_lex.specs.Blanks.{feeds_in};
ghost use Rattle.c_compile.specs.Lines as line_specs;
ghost use Rattle.c_compile.specs.Lines.{end_line};

use c_lex::Token;
use sqlite_items::Items;
use std::alloc::{AllocError, Global};

fn feeds_in(bytes: &[u8]) -> u32
    requires { length bytes.now < 2 ^ 31 }
    ensures same { result ≡ feeds_in bytes.now }
    ensures few { result < 2 ^ 31 }
{
    bytes.iter().filter(|byte| **byte == b'\n').count() as u32
}

/// The line of a byte, by its place.
pub fn line_of_byte(text: &[u8], at: usize) -> u32
    requires { length text.now < 2 ^ 31 }
    ensures { result ≡ line_specs.line_of_byte text.now at }
{
    let (front, _) = text.split_at(at.min(text.len()));
    1 + feeds_in(front)
}

/// The line of the last byte.
fn end_line(text: &[u8]) -> u32
    requires { length text.now < 2 ^ 31 }
    ensures { result ≡ end_line text.now }
{
    line_of_byte(text, text.len().saturating_sub(1))
}

/// The lines of the tokens of a text, and the line of its end.
pub fn lines_of(alloc: Global, text: &[u8], tokens: &[Token]) -> Result<Items<u32>, AllocError>
    requires { length text.now < 2 ^ 31 }
    ensures { IfOk result (λ found. found ≡ line_specs.lines_of text.now tokens.now) }
{
    let mut found = Items::new(alloc);
    for token in tokens {
        found.push(token.line)?;
    }
    found.push(end_line(text))?;
    Ok(found)
}

/// The line of a token.
pub fn line_in(lines: &[u32], token: u32) -> u32
    ensures { result ≡ line_specs.line_in lines.now token }
{
    match sqlite_items::at(lines, token as usize) {
        Some(line) => *line,
        None => 1,
    }
}
