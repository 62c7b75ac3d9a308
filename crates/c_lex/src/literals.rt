//! Characters and escapes.

ghost use Rattle.std.specs.Prelude.{◌≡◌, ℕ, ◌∷◌, ◌+◌, ◌<◌, ◌≤◌, ◌^◌, length, option_map, IfOk, IfErr, IfSome};
ghost use Rattle.std.specs.Option.{option_copied};
ghost use Rattle.c_lex.specs.Literals.{is_plain, char_value};
ghost use Rattle.c_lex.specs.Faults.{Cause, IsBadToken};
ghost use Rattle.c_lex.specs.Tokens.{Fault, fault_of};
ghost use Rattle.c_lex.specs.Fronts.{IsSeen};
ghost use Rattle.c_lex.specs.Reading.{digits_len, digits_at, letter_of, escape_at, character_at, in_literal, is_closed, begins_quote, after_quote};

use crate::LexError;
use crate::fronts::Seen;
use crate::lexeme::Lexeme;
use crate::numbers::{is_digit, number_of};
use crate::token::TokenKind;
use am_base::Bytes;
use std::alloc::Global;

/// Whether a byte stands for itself between these quotes.
fn is_plain(quote: u8, byte: u8) -> bool
    ensures { result ≡ is_plain quote byte }
{
    (32 <= byte && byte <= 126 && !(byte == quote || byte == b'\\')) || 128 <= byte
}

/// How many digits stand at the front, counted up to `most`.
fn digits_len(base: u8, most: usize, text: &[u8]) -> usize
    ensures { result ≡ digits_len base most text.now }
{
    text.iter()
        .take(most)
        .take_while(|byte| is_digit(base, **byte))
        .count()
}

/// The byte that these digits spell, up to `most` of them, and the text behind them.
#[tactic(auto, unfolding(crate::specs::Reading::digits_at))]
fn digits_at(base: u8, most: usize, text: &[u8]) -> Option<(u8, &[u8])>
    requires { 2 ≤ base }
    ensures { option_map (λ found. (found.0, found.1.now)) result ≡ digits_at base most text.now }
{
    let count = digits_len(base, most, text);
    if count == 0 {
        return None;
    }
    let (digits, rest) = text.split_at(count);
    let value = number_of(base, digits)?;
    if value > 255 {
        return None;
    }
    Some((value as u8, rest))
}

/// The byte that a letter behind a backslash stands for.
#[tactic(auto, unfolding(crate::specs::Reading::letter_of))]
fn letter_of(byte: u8) -> Option<u8>
    ensures { result ≡ letter_of byte }
{
    Some(match byte {
        b'n' => b'\n',
        b't' => b'\t',
        b'r' => b'\r',
        b'a' => 7,
        b'b' => 8,
        b'f' => 12,
        b'v' => 11,
        b'\\' | b'\'' | b'"' | b'?' => byte,
        _ => return None,
    })
}

/// The byte that an escape stands for, of which the backslash is taken, and the text behind it.
#[tactic(auto, unfolding(crate::specs::Reading::escape_at))]
fn escape_at(text: &[u8]) -> Option<(u8, &[u8])>
    ensures { option_map (λ found. (found.0, found.1.now)) result ≡ escape_at text.now }
{
    let (first, rest) = text.split_first()?;
    if let Some(byte) = letter_of(*first) {
        return Some((byte, rest));
    }
    if *first == b'x' {
        return digits_at(16, 2, rest);
    }
    digits_at(8, 3, text)
}

/// The byte that the text begins with between these quotes, by itself or as an escape, and the text behind it.
#[tactic(auto, unfolding(crate::specs::Reading::character_at))]
pub fn character_at(quote: u8, text: &[u8]) -> Option<(u8, &[u8])>
    ensures { option_map (λ found. (found.0, found.1.now)) result ≡ character_at quote text.now }
{
    match text {
        [first, rest @ ..] if is_plain(quote, *first) => Some((*first, rest)),
        [b'\\', rest @ ..] => escape_at(rest),
        _ => None,
    }
}

/// The text behind one byte of a literal, an escaped one with its backslash, where the literal doesn't end there.
#[tactic(auto, unfolding(crate::specs::Reading::in_literal))]
fn in_literal(quote: u8, text: &[u8]) -> Option<&[u8]>
    ensures { option_copied result ≡ in_literal quote text.now }
{
    match text {
        [first, ..] if *first == quote => None,
        [] | [b'\n', ..] | [b'\\'] | [b'\\', b'\n', ..] => None,
        [b'\\', _, rest @ ..] | [_, rest @ ..] => Some(rest),
    }
}

/// Whether the text begins with a quote.
fn begins_quote(quote: u8, text: &[u8]) -> bool
    ensures { result ≡ begins_quote quote text.now }
{
    matches!(text, [first, ..] if *first == quote)
}

/// Whether a literal is closed in its line, of which the first quote is taken.
pub fn is_closed(quote: u8, text: &[u8]) -> bool
    ensures { result ≡ is_closed quote text.now }
{
    let mut rest = text;
    'literal: while let Some(next) = in_literal(quote, rest) {
        rest = next;
    }
    begins_quote(quote, rest)
}

/// The text behind a quote.
#[tactic(auto, unfolding(crate::specs::Reading::after_quote))]
pub fn after_quote(quote: u8, text: &[u8]) -> Option<&[u8]>
    ensures { option_copied result ≡ after_quote quote text.now }
{
    match text {
        [first, rest @ ..] if *first == quote => Some(rest),
        _ => None,
    }
}

/// A signed char's value, as an int that is extended to 64 bits with its sign.
fn char_value(byte: u8) -> u64
    ensures { result ≡ char_value byte }
{
    if byte >= 128 {
        return u64::MAX - 255 + u64::from(byte);
    }
    u64::from(byte)
}

/// The character literal that begins at the place `at`, and the text behind it. Its first quote is taken.
pub fn character_literal_at(alloc: Global, at: u32, body: &[u8]) -> Result<(Seen, &[u8]), LexError>
    requires { at + (1 + length body.now) < 2 ^ 31 }
    ensures seen { IfOk result (λ found. IsSeen (39 ∷ body.now) found.0 found.1.now) }
    ensures wrong { IfErr result (λ e. IfSome (fault_of e) (λ fault. (cause : Cause) × (k : ℕ) × IsBadToken (39 ∷ body.now) cause k × (fault ≡ Fault cause (at + k)))) }
{
    if !is_closed(b'\'', body) {
        return Err(LexError::Unclosed { at });
    }
    let Some((byte, rest)) = character_at(b'\'', body) else {
        return Err(LexError::BadByte { at: at + 1 });
    };
    let Some(behind) = after_quote(b'\'', rest) else {
        let taken = (body.len() - rest.len()) as u32;
        return Err(LexError::BadByte { at: at + 1 + taken });
    };
    let lexeme = Lexeme {
        kind: TokenKind::Character,
        value: char_value(byte),
        text: Bytes::new(alloc),
    };
    Ok((Seen::Token(lexeme), behind))
}
