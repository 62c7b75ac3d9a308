//! From a text to a source.

ghost use Rattle.std.specs.Prelude.{◌≡◌, ◌<◌, ◌^◌, length, IfOk, IfErr};
ghost use Rattle.c_lex.specs.Tokens.{AreTokens};
ghost use Rattle.c_compile.specs.Lines.{lines_of};
ghost use Rattle.c_compile.specs.Texts as texts;
ghost use Rattle.c_compile.specs.Texts.{IsSource, IsWhyNot};

use crate::Cause;
use crate::error::TextError;
use crate::known::known_in;
use crate::lines::{line_in, line_of_byte, lines_of};
use c_check::Source;
use c_lex::{LexError, Token, lex};
use c_parser::{ParseError, parse};
use sqlite_items::Items;
use std::alloc::Global;

/// The source that a text is.
pub fn source_of(alloc: Global, text: &[u8]) -> Result<Source, TextError>
    requires { length text.now < 2 ^ 31 }
    ensures ok { IfOk result (IsSource text.now) }
    ensures err { IfErr result (IsWhyNot text.now) }
{
    match lex(alloc, text) {
        Ok(tokens) => source_of_tokens(alloc, text, tokens.as_slice()),
        Err(error) => Err(told_by_lexer(text, error)),
    }
}

fn source_of_tokens(alloc: Global, text: &[u8], tokens: &[Token]) -> Result<Source, TextError>
    requires short { length text.now < 2 ^ 31 }
    requires tokens { AreTokens text.now tokens.now }
    ensures ok { IfOk result (IsSource text.now) }
    ensures err { IfErr result (IsWhyNot text.now) }
{
    let lines = lines_of(alloc, text, tokens)?;
    source_with_lines(alloc, text, tokens, lines)
}

fn source_with_lines(
    alloc: Global,
    text: &[u8],
    tokens: &[Token],
    lines: Items<u32>,
) -> Result<Source, TextError>
    requires tokens { AreTokens text.now tokens.now }
    requires lines { lines ≡ lines_of text.now tokens.now }
    ensures ok { IfOk result (IsSource text.now) }
    ensures err { IfErr result (IsWhyNot text.now) }
{
    match parse(alloc, tokens) {
        Ok(tree) => Ok(Source {
            tree,
            known: known_in(tokens),
            lines,
        }),
        Err(error) => {
            let told = told_by_parser(lines.as_slice(), error);
            drop(lines);
            Err(told)
        }
    }
}

fn told_by_lexer(text: &[u8], error: LexError) -> TextError
    requires { length text.now < 2 ^ 31 }
    ensures { result ≡ texts.told_by_lexer text.now error }
{
    match error {
        LexError::BadByte { at } => wrong_at(text, Cause::BadByte, at),
        LexError::FloatLiteral { at } => wrong_at(text, Cause::FloatLiteral, at),
        LexError::OutWord { at } => wrong_at(text, Cause::OutWord, at),
        LexError::TooWide { at } => wrong_at(text, Cause::TooWide, at),
        LexError::Unclosed { at } => wrong_at(text, Cause::Unclosed, at),
        LexError::Directive { at } => wrong_at(text, Cause::Directive, at),
        LexError::TooMany { at } => wrong_at(text, Cause::TooMany, at),
        LexError::Memory => TextError::Memory,
    }
}

fn wrong_at(text: &[u8], cause: Cause, at: u32) -> TextError
    requires { length text.now < 2 ^ 31 }
    ensures { result ≡ texts.wrong_at text.now cause at }
{
    TextError::Wrong {
        cause,
        line: line_of_byte(text, at as usize),
    }
}

fn told_by_parser(lines: &[u32], error: ParseError) -> TextError
    ensures { result ≡ texts.told_by_parser lines.now error }
{
    match error {
        ParseError::Unexpected { token } => TextError::Wrong {
            cause: Cause::Unexpected,
            line: line_in(lines, token),
        },
        ParseError::TooNested { token } => TextError::Wrong {
            cause: Cause::TooNested,
            line: line_in(lines, token),
        },
        ParseError::Memory => TextError::Memory,
    }
}
