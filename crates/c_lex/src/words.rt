//! Names, keywords and the words that are left out.

ghost use Rattle.std.specs.Prelude.{◌≡◌, ◌≢◌, ◌+◌, ◌<◌, ◌^◌, ℕ, find, length, IfOk, IfErr, IfSome, IfNone};
ghost use Rattle.std.specs.List.{prefix_len, list_any};
ghost use Rattle.std.specs.Str.{bytes_eq};
ghost use Rattle.c_lex.specs.declared.token.Keyword.{Keyword as AKeyword};
ghost use Rattle.c_lex.specs.Blanks.{First};
ghost use Rattle.c_lex.specs.Words.{starts_word, continues_word, keyword_text};
ghost use Rattle.c_lex.specs.Faults.{Cause, IsBadToken};
ghost use Rattle.c_lex.specs.Tokens.{Fault, fault_of};
ghost use Rattle.c_lex.specs.Fronts.{IsSeen};
ghost use Rattle.c_lex.specs.Reading.{is_out_word};
ghost use Rattle.c_lex.specs.WordVerdicts.{keyword_of, token_of_keyword};

use crate::LexError;
use crate::fronts::Seen;
use crate::lexeme::Lexeme;
use crate::token::{Keyword, TokenKind};
use am_base::Bytes;
use std::alloc::{AllocError, Global};

/// All keywords.
const KEYWORDS: [Keyword; 30] = [
    Keyword::Auto,
    Keyword::Break,
    Keyword::Case,
    Keyword::Char,
    Keyword::Const,
    Keyword::Continue,
    Keyword::Default,
    Keyword::Do,
    Keyword::Else,
    Keyword::Enum,
    Keyword::Extern,
    Keyword::For,
    Keyword::If,
    Keyword::Inline,
    Keyword::Int,
    Keyword::Long,
    Keyword::Register,
    Keyword::Restrict,
    Keyword::Return,
    Keyword::Short,
    Keyword::Signed,
    Keyword::Sizeof,
    Keyword::Static,
    Keyword::Struct,
    Keyword::Switch,
    Keyword::Typedef,
    Keyword::Unsigned,
    Keyword::Void,
    Keyword::Volatile,
    Keyword::While,
];

/// The words of C that this profile leaves out.
const OUT_WORDS: [&[u8]; 7] = [
    b"float",
    b"double",
    b"goto",
    b"union",
    b"_Bool",
    b"_Complex",
    b"_Imaginary",
];

pub fn starts_word(byte: u8) -> bool
    ensures { result ≡ starts_word byte }
{
    matches!(byte, b'a'..=b'z' | b'A'..=b'Z' | b'_')
}

fn continues_word(byte: u8) -> bool
    ensures { result ≡ continues_word byte }
{
    starts_word(byte) || byte.is_ascii_digit()
}

/// How many letters, digits and underscores the text begins with.
pub fn word_len(text: &[u8]) -> usize
    ensures { result ≡ prefix_len continues_word text.now }
{
    text.iter()
        .take_while(|byte| continues_word(**byte))
        .count()
}

/// How a keyword is spelled.
fn keyword_text(keyword: Keyword) -> &'static [u8]
    ensures { result.now ≡ keyword_text keyword }
{
    match keyword {
        Keyword::Auto => b"auto",
        Keyword::Break => b"break",
        Keyword::Case => b"case",
        Keyword::Char => b"char",
        Keyword::Const => b"const",
        Keyword::Continue => b"continue",
        Keyword::Default => b"default",
        Keyword::Do => b"do",
        Keyword::Else => b"else",
        Keyword::Enum => b"enum",
        Keyword::Extern => b"extern",
        Keyword::For => b"for",
        Keyword::If => b"if",
        Keyword::Inline => b"inline",
        Keyword::Int => b"int",
        Keyword::Long => b"long",
        Keyword::Register => b"register",
        Keyword::Restrict => b"restrict",
        Keyword::Return => b"return",
        Keyword::Short => b"short",
        Keyword::Signed => b"signed",
        Keyword::Sizeof => b"sizeof",
        Keyword::Static => b"static",
        Keyword::Struct => b"struct",
        Keyword::Switch => b"switch",
        Keyword::Typedef => b"typedef",
        Keyword::Unsigned => b"unsigned",
        Keyword::Void => b"void",
        Keyword::Volatile => b"volatile",
        Keyword::While => b"while",
    }
}

/// The first of these keywords that the word is.
fn first_keyword(word: &[u8], keywords: &[Keyword]) -> Option<Keyword>
    ensures { result ≡ find (λ k. bytes_eq (keyword_text k) word.now) keywords.now }
{
    keywords
        .iter()
        .copied()
        .find(|keyword| keyword_text(*keyword) == word)
}

/// The keyword that the word is.
#[tactic(auto, unfolding(crate::specs::WordVerdicts::keyword_of))]
pub fn keyword_of(word: &[u8]) -> Option<Keyword>
    ensures reads { result ≡ keyword_of word.now }
    ensures some { IfSome result (λ k. word.now ≡ keyword_text k) }
    ensures none { IfNone result ((k : AKeyword) → word.now ≢ keyword_text k) }
{
    first_keyword(word, &KEYWORDS)
}

/// The token that a word is.
fn word_lexeme(alloc: Global, word: &[u8]) -> Result<Lexeme, AllocError>
    ensures { IfOk result (λ l. l ≡ token_of_keyword (keyword_of word.now) word.now) }
{
    let Some(keyword) = keyword_of(word) else {
        return Ok(Lexeme {
            kind: TokenKind::Name,
            value: 0,
            text: Bytes::from_slice(alloc, word)?,
        });
    };
    Ok(Lexeme {
        kind: TokenKind::Keyword(keyword),
        value: 0,
        text: Bytes::new(alloc),
    })
}

/// The word at the front of the text, and the text behind it.
pub fn word_at(alloc: Global, at: u32, text: &[u8]) -> Result<(Seen, &[u8]), LexError>
    requires letter { First starts_word text.now }
    requires room { at + length text.now < 2 ^ 31 }
    ensures seen { IfOk result (λ found. IsSeen text.now found.0 found.1.now) }
    ensures wrong { IfErr result (λ e. IfSome (fault_of e) (λ fault. (cause : Cause) × (k : ℕ) × IsBadToken text.now cause k × (fault ≡ Fault cause (at + k)))) }
{
    let (word, rest) = text.split_at(word_len(text));
    if is_out_word(word) {
        return Err(LexError::OutWord { at });
    }
    let lexeme = word_lexeme(alloc, word)?;
    Ok((Seen::Token(lexeme), rest))
}

/// Whether the word is one of those that this profile leaves out.
pub fn is_out_word(word: &[u8]) -> bool
    ensures { result ≡ is_out_word word.now }
{
    is_one_of(word, &OUT_WORDS)
}

fn is_one_of(word: &[u8], words: &[&[u8]]) -> bool
    ensures { result ≡ list_any (λ other. bytes_eq word.now other.now) words.now }
{
    words.iter().any(|other| word == *other)
}
