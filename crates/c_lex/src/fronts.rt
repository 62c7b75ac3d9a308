//! What stands at the front of a text.

ghost use Rattle.std.specs.Prelude.{◌≡◌, ◌+◌, ◌<◌, ◌^◌, ℕ, length, IfOk, IfErr, IfSome};
ghost use Rattle.c_lex.specs.Blanks.{First};
ghost use Rattle.c_lex.specs.Faults.{Cause, IsBadToken};
ghost use Rattle.c_lex.specs.Tokens.{Fault, fault_of};
ghost use Rattle.c_lex.specs.Fronts.{IsSeen, HasFront, IsOneFront, TakesBytes};
ghost use Rattle.c_lex.specs.Reading.{is_other_byte};

use crate::LexError;
use crate::blanks::after_gap;
use crate::lexeme::Lexeme;
use crate::literals::character_literal_at;
use crate::marks::{begins_with, mark_at, mark_text};
use crate::numbers::{begins_fraction, is_digit, number_at};
use crate::strings::string_at;
use crate::token::TokenKind;
use crate::words::{starts_word, word_at};
use am_base::Bytes;
use std::alloc::Global;

/// What stands at the front of a text.
#[derive(Debug, Drop)]
pub enum Seen {
    /// Nothing: the text is empty.
    End,
    /// A blank that ends no line, a joined line or a comment.
    Gap,
    LineEnd,
    Token(Lexeme),
}

/// What stands at the front of the text, and the text behind it. The text stands at the place `at` of its source.
pub fn front_at(alloc: Global, at: u32, text: &[u8]) -> Result<(Seen, &[u8]), LexError>
    requires { at + length text.now < 2 ^ 31 }
    ensures seen { IfOk result (λ found. IsSeen text.now found.0 found.1.now) }
    ensures wrong { IfErr result (λ e. IfSome (fault_of e) (λ fault. (cause : Cause) × (k : ℕ) × IsBadToken text.now cause k × (fault ≡ Fault cause (at + k)))) }
{
    match text {
        [] => Ok((Seen::End, text)),
        [b'\n', rest @ ..] => Ok((Seen::LineEnd, rest)),
        [b'"', body @ ..] => string_at(alloc, at, body),
        [b'\'', body @ ..] => character_literal_at(alloc, at, body),
        [first, ..] if starts_word(*first) => word_at(alloc, at, text),
        [first, ..] if is_digit(10, *first) => number_at(alloc, at, text),
        _ => other_at(alloc, at, text),
    }
}

/// What stands at the front of a text that begins no word, no number and no literal, and isn't at its line's end.
fn other_at(alloc: Global, at: u32, text: &[u8]) -> Result<(Seen, &[u8]), LexError>
    requires other { First is_other_byte text.now }
    requires room { at + length text.now < 2 ^ 31 }
    ensures seen { IfOk result (λ found. IsSeen text.now found.0 found.1.now) }
    ensures wrong { IfErr result (λ e. IfSome (fault_of e) (λ fault. (cause : Cause) × (k : ℕ) × IsBadToken text.now cause k × (fault ≡ Fault cause (at + k)))) }
{
    if let Some(rest) = after_gap(text) {
        return Ok((Seen::Gap, rest));
    }
    if begins_with(b"/*", text) {
        return Err(LexError::Unclosed { at });
    }
    if begins_fraction(text) {
        return Err(LexError::FloatLiteral { at });
    }
    let Some(mark) = mark_at(text) else {
        return Err(LexError::BadByte { at });
    };
    let (_, rest) = text.split_at(mark_text(mark).len());
    let lexeme = Lexeme {
        kind: TokenKind::Mark(mark),
        value: 0,
        text: Bytes::new(alloc),
    };
    Ok((Seen::Token(lexeme), rest))
}

/// Laws: just one thing stands at the front of a text, and it takes some of the text's bytes.
pub fn one_front()
    ensures some { HasFront }
    ensures only { IsOneFront }
    ensures takes { TakesBytes }
{}
