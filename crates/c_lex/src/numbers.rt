//! Whole numbers.

ghost use Rattle.std.specs.Prelude.{◌≡◌, ◌+◌, ◌*◌, ◌^◌, ◌<◌, ◌≤◌, ℕ, drop, length, IfOk, IfErr, IfSome};
ghost use Rattle.std.specs.List.{prefix_len};
ghost use Rattle.c_lex.specs.Blanks.{First};
ghost use Rattle.c_lex.specs.Literals.{digit_value, is_digit, is_run_digit, is_float_sign, begins_hexadecimal, begins_fraction, base_of, number_of, suits, IsFirstType};
ghost use Rattle.c_lex.specs.Lexemes.{number_token};
ghost use Rattle.c_lex.specs.Faults.{Cause, IsBadToken};
ghost use Rattle.c_lex.specs.Tokens.{Fault, fault_of};
ghost use Rattle.c_lex.specs.Fronts.{IsFront, IsSeen};
ghost use Rattle.c_lex.specs.Reading.{notation_of, in_64_bits};
ghost use Rattle.c_lex.specs.NumberVerdicts.{prefix_of, begins_so, digits_verdict};

use crate::LexError;
use crate::fronts::Seen;
use crate::lexeme::Lexeme;
use crate::suffixes::suffix_at;
use crate::token::{NumberType, TokenKind};
use am_base::Bytes;
use std::alloc::Global;

/// How a number is written.
#[derive(Clone, Copy, Debug, PartialEq, Eq)]
enum Notation {
    Decimal,
    Octal,
    Hexadecimal,
}

/// What a digit counts; what is no digit counts 16.
fn digit_value(byte: u8) -> u8
    ensures { result ≡ digit_value byte }
{
    match byte {
        b'0'..=b'9' => byte - b'0',
        b'a'..=b'f' => byte - 87,
        b'A'..=b'F' => byte - 55,
        _ => 16,
    }
}

pub fn is_digit(base: u8, byte: u8) -> bool
    ensures { result ≡ is_digit base byte }
{
    digit_value(byte) < base
}

impl Notation {
    fn base(self) -> u8
        ensures { result ≡ base_of self }
    {
        match self {
            Notation::Decimal => 10,
            Notation::Octal => 8,
            Notation::Hexadecimal => 16,
        }
    }

    /// Whether a sequence of digits goes on with this byte: an octal one with an 8 or a 9 too, to be refused.
    fn goes_on(self, byte: u8) -> bool
        ensures { result ≡ is_run_digit self byte }
    {
        match self {
            Notation::Hexadecimal => is_digit(16, byte),
            Notation::Octal | Notation::Decimal => is_digit(10, byte),
        }
    }

    /// Whether a sequence of digits that goes on with this byte is a floating constant.
    fn is_float_sign(self, byte: u8) -> bool
        ensures { result ≡ is_float_sign self byte }
    {
        match self {
            Notation::Hexadecimal => byte == b'.',
            Notation::Octal | Notation::Decimal => matches!(byte, b'.' | b'e' | b'E'),
        }
    }
}

/// Whether the text begins with `0x` and a hexadecimal digit.
fn begins_hexadecimal(text: &[u8]) -> bool
    ensures { result ≡ begins_hexadecimal text.now }
{
    match text {
        [b'0', b'x' | b'X', digit, ..] => is_digit(16, *digit),
        _ => false,
    }
}

/// Whether the text begins with a point and a digit.
pub fn begins_fraction(text: &[u8]) -> bool
    ensures { result ≡ begins_fraction text.now }
{
    match text {
        [b'.', digit, ..] => is_digit(10, *digit),
        _ => false,
    }
}

/// How the number is written that the text begins with.
fn notation_of(text: &[u8]) -> Notation
    ensures { result ≡ notation_of text.now }
{
    if begins_hexadecimal(text) {
        return Notation::Hexadecimal;
    }
    match text {
        [b'0', ..] => Notation::Octal,
        _ => Notation::Decimal,
    }
}

/// The text behind what stands before the digits.
fn behind_prefix(notation: Notation, text: &[u8]) -> &[u8]
    requires { notation ≡ notation_of text.now }
    ensures { result.now ≡ drop (prefix_of notation) text.now }
{
    match notation {
        Notation::Hexadecimal => &text[2..],
        Notation::Octal | Notation::Decimal => text,
    }
}

/// How many bytes the sequence of digits has.
fn run_len(notation: Notation, text: &[u8]) -> usize
    ensures { result ≡ prefix_len (is_run_digit notation) text.now }
{
    text.iter()
        .take_while(|byte| notation.goes_on(**byte))
        .count()
}

/// The number that goes on with this digit, where it has 64 bits at most.
fn next_value(base: u8, value: u64, digit: u8) -> Option<u64>
    ensures { result ≡ in_64_bits (base * value + digit_value digit) }
{
    let shifted = u128::from(base) * u128::from(value);
    let next = shifted + u128::from(digit_value(digit));
    if next > u64::MAX as u128 {
        return None;
    }
    Some(next as u64)
}

/// The number that these digits spell, where it has 64 bits at most.
pub fn number_of(base: u8, digits: &[u8]) -> Option<u64>
    requires { 2 ≤ base }
    ensures { result ≡ in_64_bits (number_of base digits.now) }
{
    let mut value = 0u64;
    for digit in digits {
        let Some(next) = next_value(base, value, *digit) else {
            return None;
        };
        value = next;
    }
    Some(value)
}

/// Whether a number so written may be of the type, and its value is one of the type's.
fn suits(
    notation: Notation,
    unsigned: bool,
    long: bool,
    value: u64,
    number_type: NumberType,
) -> bool
    ensures { result ≡ suits notation unsigned long value number_type }
{
    match number_type {
        NumberType::Int => !unsigned && !long && value < 1 << 31,
        NumberType::UnsignedInt => {
            (unsigned || !matches!(notation, Notation::Decimal)) && !long && value < 1 << 32
        }
        NumberType::Long => !unsigned && value < 1 << 63,
        NumberType::UnsignedLong => true,
    }
}

/// The first type that suits a number (C11, 6.4.4.1).
fn first_type(notation: Notation, unsigned: bool, long: bool, value: u64) -> NumberType
    ensures { IsFirstType (suits notation unsigned long value) result }
{
    if suits(notation, unsigned, long, value, NumberType::Int) {
        return NumberType::Int;
    }
    if suits(notation, unsigned, long, value, NumberType::UnsignedInt) {
        return NumberType::UnsignedInt;
    }
    if suits(notation, unsigned, long, value, NumberType::Long) {
        return NumberType::Long;
    }
    NumberType::UnsignedLong
}

/// The digits of a number, and the text behind them.
#[derive(Debug, Drop)]
struct Digits<'a> {
    notation: Notation,
    digits: &'a [u8],
    behind: &'a [u8],
}

fn digits_at(text: &[u8]) -> Digits
    requires { First (is_digit 10) text.now }
    ensures { IsFront text.now (digits_verdict result.notation result.digits.now result.behind.now) }
{
    let notation = notation_of(text);
    let body = behind_prefix(notation, text);
    let (digits, behind) = body.split_at(run_len(notation, body));
    Digits {
        notation,
        digits,
        behind,
    }
}

/// Whether the text goes on so that the digits before it are a floating constant.
fn goes_on_as_float(notation: Notation, behind: &[u8]) -> bool
    ensures { result ≡ begins_so (is_float_sign notation) behind.now }
{
    match behind {
        [first, ..] => notation.is_float_sign(*first),
        [] => false,
    }
}

/// How many of the digits are of the base, up to the first that isn't.
fn right_digits(base: u8, digits: &[u8]) -> usize
    ensures { result ≡ prefix_len (is_digit base) digits.now }
{
    digits
        .iter()
        .take_while(|byte| is_digit(base, **byte))
        .count()
}

fn number_lexeme(alloc: Global, value: u64, number_type: NumberType) -> Lexeme
    ensures { result ≡ number_token value number_type }
{
    Lexeme {
        kind: TokenKind::Number(number_type),
        value,
        text: Bytes::new(alloc),
    }
}

/// The number at the front of the text, and the text behind it.
pub fn number_at(alloc: Global, at: u32, text: &[u8]) -> Result<(Seen, &[u8]), LexError>
    requires digit { First (is_digit 10) text.now }
    requires room { at + length text.now < 2 ^ 31 }
    ensures seen { IfOk result (λ found. IsSeen text.now found.0 found.1.now) }
    ensures wrong { IfErr result (λ e. IfSome (fault_of e) (λ fault. (cause : Cause) × (k : ℕ) × IsBadToken text.now cause k × (fault ≡ Fault cause (at + k)))) }
{
    let Digits {
        notation,
        digits,
        behind,
    } = digits_at(text);
    if goes_on_as_float(notation, behind) {
        return Err(LexError::FloatLiteral { at });
    }
    let right = right_digits(notation.base(), digits);
    if right != digits.len() {
        return Err(LexError::BadByte {
            at: at + right as u32,
        });
    }
    let Some(value) = number_of(notation.base(), digits) else {
        return Err(LexError::TooWide { at });
    };
    let suffix = suffix_at(behind);
    let number_type = first_type(notation, suffix.unsigned, suffix.long, value);
    let lexeme = number_lexeme(alloc, value, number_type);
    let (_, rest) = behind.split_at(suffix.len);
    Ok((Seen::Token(lexeme), rest))
}
