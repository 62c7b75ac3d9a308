//! Punctuators.

ghost use Rattle.std.specs.Prelude.{◌≡◌, ℕ, List, find, length, drop, IfSome, IfNone};
ghost use Rattle.c_lex.specs.declared.token.Mark.{Mark as AMark};
ghost use Rattle.c_lex.specs.Words.{mark_text, IsMark};
ghost use Rattle.c_lex.specs.Reading.{begins_with};

use crate::token::Mark;

/// The punctuators of three bytes.
const THREE: [Mark; 2] = [Mark::ShiftLeftAssign, Mark::ShiftRightAssign];

/// The punctuators of two bytes.
const TWO: [Mark; 19] = [
    Mark::Arrow,
    Mark::PlusAssign,
    Mark::MinusAssign,
    Mark::StarAssign,
    Mark::SlashAssign,
    Mark::PercentAssign,
    Mark::AmpersandAssign,
    Mark::CaretAssign,
    Mark::BarAssign,
    Mark::OrOr,
    Mark::AndAnd,
    Mark::Equal,
    Mark::NotEqual,
    Mark::AtMost,
    Mark::AtLeast,
    Mark::ShiftLeft,
    Mark::ShiftRight,
    Mark::PlusPlus,
    Mark::MinusMinus,
];

/// The punctuators of one byte.
const ONE: [Mark; 24] = [
    Mark::OpenParen,
    Mark::CloseParen,
    Mark::OpenBracket,
    Mark::CloseBracket,
    Mark::OpenBrace,
    Mark::CloseBrace,
    Mark::Semicolon,
    Mark::Comma,
    Mark::Colon,
    Mark::Question,
    Mark::Dot,
    Mark::Assign,
    Mark::Bar,
    Mark::Caret,
    Mark::Ampersand,
    Mark::Less,
    Mark::Greater,
    Mark::Plus,
    Mark::Minus,
    Mark::Star,
    Mark::Slash,
    Mark::Percent,
    Mark::Tilde,
    Mark::Bang,
];

/// How a punctuator is spelled.
pub fn mark_text(mark: Mark) -> &'static [u8]
    ensures { result.now ≡ mark_text mark }
{
    match mark {
        Mark::OpenParen => b"(",
        Mark::CloseParen => b")",
        Mark::OpenBracket => b"[",
        Mark::CloseBracket => b"]",
        Mark::OpenBrace => b"{",
        Mark::CloseBrace => b"}",
        Mark::Semicolon => b";",
        Mark::Comma => b",",
        Mark::Colon => b":",
        Mark::Question => b"?",
        Mark::Dot => b".",
        Mark::Arrow => b"->",
        Mark::Assign => b"=",
        Mark::PlusAssign => b"+=",
        Mark::MinusAssign => b"-=",
        Mark::StarAssign => b"*=",
        Mark::SlashAssign => b"/=",
        Mark::PercentAssign => b"%=",
        Mark::AmpersandAssign => b"&=",
        Mark::CaretAssign => b"^=",
        Mark::BarAssign => b"|=",
        Mark::ShiftLeftAssign => b"<<=",
        Mark::ShiftRightAssign => b">>=",
        Mark::OrOr => b"||",
        Mark::AndAnd => b"&&",
        Mark::Bar => b"|",
        Mark::Caret => b"^",
        Mark::Ampersand => b"&",
        Mark::Equal => b"==",
        Mark::NotEqual => b"!=",
        Mark::Less => b"<",
        Mark::Greater => b">",
        Mark::AtMost => b"<=",
        Mark::AtLeast => b">=",
        Mark::ShiftLeft => b"<<",
        Mark::ShiftRight => b">>",
        Mark::Plus => b"+",
        Mark::Minus => b"-",
        Mark::Star => b"*",
        Mark::Slash => b"/",
        Mark::Percent => b"%",
        Mark::PlusPlus => b"++",
        Mark::MinusMinus => b"--",
        Mark::Tilde => b"~",
        Mark::Bang => b"!",
    }
}

/// The first of these punctuators that the text begins with.
fn first_mark(text: &[u8], marks: &[Mark]) -> Option<Mark>
    ensures { result ≡ find (λ m. begins_with (mark_text m) text.now) marks.now }
{
    marks
        .iter()
        .copied()
        .find(|mark| text.starts_with(mark_text(*mark)))
}

/// The punctuator that the text begins with, the longest one, where no comment begins.
pub fn mark_at(text: &[u8]) -> Option<Mark>
    ensures mark { IfSome result (λ m. IsMark text.now m (drop (length (mark_text m)) text.now)) }
    ensures none { IfNone result ((m : AMark) (rest : List ℕ) → IsMark text.now m rest → ⊥) }
{
    if begins_with(b"/*", text) {
        return None;
    }
    if begins_with(b"//", text) {
        return None;
    }
    if let Some(mark) = first_mark(text, &THREE) {
        return Some(mark);
    }
    if let Some(mark) = first_mark(text, &TWO) {
        return Some(mark);
    }
    first_mark(text, &ONE)
}

/// Whether the text begins with these bytes.
pub fn begins_with(bytes: &[u8], text: &[u8]) -> bool
    ensures { result ≡ begins_with bytes.now text.now }
{
    text.starts_with(bytes)
}
