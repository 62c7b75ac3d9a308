//! Directives.

ghost use Rattle.std.specs.Prelude.{◌≡◌, ◌⊎◌, ◌↔◌, ◌==◌, ◌+◌, ◌<◌, ◌^◌, ℕ, List, [], ◌∷◌, ◌++◌, length, IsTrue, MatchBool, IfOk, IfErr, IfSome, IfNone, codes};
ghost use Rattle.c_lex.specs.declared.token.Header.{Header as AHeader};
ghost use Rattle.c_lex.specs.Blanks.{First, NotFirst, IsLineEnd, AreGaps, IsOpenComment};
ghost use Rattle.c_lex.specs.Words.{starts_word, IsWord, IsName};
ghost use Rattle.c_lex.specs.Pieces.{header_name, IsHead, AreLexemes, AreSkipped};
ghost use Rattle.c_lex.specs.Tokens.{names_of};
ghost use Rattle.c_lex.specs.Fronts.{EndsWith};
ghost use Rattle.c_lex.specs.Progress.{NoGap, IsSkippedOnce, NamesHeader, IsNewDirective, TellsDirective, TellsBody};

use crate::LexError;
use crate::blanks::after_gap;
use crate::fronts::{Seen, front_at};
use crate::lexeme::Lexeme;
use crate::macros::Macros;
use crate::token::Header;
use crate::words::{is_out_word, keyword_of, starts_word, word_len};
use am_base::Bytes;
use std::alloc::Global;

const INCLUDE: &[u8] = b"include";

const DEFINE: &[u8] = b"define";

const PRAGMA: &[u8] = b"pragma";

/// A directive of this profile.
#[derive(Debug, Drop)]
pub enum Directive {
    Include(Header),
    Define { name: Bytes, body: Vec<Lexeme> },
    Pragma,
}

/// Whether the line ends here.
fn is_line_end(text: &[u8]) -> bool
    ensures { IsTrue result ↔ IsLineEnd text.now }
{
    matches!(text, [] | [b'\n', ..])
}

/// The text behind the blanks, joined lines and comments that it begins with.
fn after_gaps(text: &[u8]) -> &[u8]
    ensures gaps { AreGaps text.now result.now }
    ensures none { NoGap result.now }
{
    let mut rest = text;
    'gap: while let Some(next) = after_gap(rest) {
        rest = next;
    }
    rest
}

/// Whether a comment is open, where no gap begins.
fn is_open_comment(text: &[u8]) -> bool
    requires { NoGap text.now }
    ensures { IsTrue result ↔ IsOpenComment text.now }
{
    matches!(text, [b'/', b'*', ..])
}

/// The text behind one thing that a pragma skips. Nothing is skipped at the line's end, nor where a comment is open.
fn skip_once(text: &[u8]) -> Option<&[u8]>
    ensures some { IfSome result (λ rest. IsSkippedOnce text.now rest.now) }
    ensures none { IfNone result (IsLineEnd text.now ⊎ IsOpenComment text.now) }
{
    if let Some(rest) = after_gap(text) {
        return Some(rest);
    }
    if is_line_end(text) {
        return None;
    }
    if is_open_comment(text) {
        return None;
    }
    let (_, rest) = text.split_first()?;
    Some(rest)
}

/// The text behind all that a pragma skips.
fn after_skipped(text: &[u8]) -> &[u8]
    ensures skipped { AreSkipped text.now result.now }
    ensures ends { IsLineEnd result.now ⊎ IsOpenComment result.now }
{
    let mut rest = text;
    'skipped: while let Some(next) = skip_once(rest) {
        rest = next;
    }
    rest
}

/// The name of a header.
fn header_name(header: Header) -> &'static [u8]
    ensures { result.now ≡ header_name header }
{
    match header {
        Header::Mpi => b"mpi.h",
        Header::Stdio => b"stdio.h",
        Header::Stdlib => b"stdlib.h",
        Header::Strings => b"string.h",
    }
}

/// The word behind a `#`, gaps between them aside, and the text behind it.
fn head_of(text: &[u8]) -> (&[u8], &[u8])
    ensures is { First starts_word result.0.now → IsHead result.0.now (35 ∷ text.now) result.1.now }
    ensures only { (word rest : List ℕ) → IsHead word (35 ∷ text.now) rest → (word ≡ result.0.now) × (rest ≡ result.1.now) }
{
    let start = after_gaps(text);
    start.split_at(word_len(start))
}

/// The text behind these bytes.
fn after_bytes<'a>(bytes: &[u8], text: &'a [u8]) -> Option<&'a [u8]>
    ensures some { IfSome result (λ rest. text.now ≡ bytes.now ++ rest.now) }
    ensures none { IfNone result ((rest : List ℕ) → text.now ≡ bytes.now ++ rest → ⊥) }
{
    text.strip_prefix(bytes)
}

/// The text behind the header's name and the byte that closes it.
fn after_name<'a>(header: Header, close: u8, text: &'a [u8]) -> Option<&'a [u8]>
    ensures some { IfSome result (λ rest. text.now ≡ header_name header ++ close ∷ rest.now) }
    ensures none { IfNone result ((rest : List ℕ) → text.now ≡ header_name header ++ close ∷ rest → ⊥) }
{
    let behind = after_bytes(header_name(header), text)?;
    let (first, rest) = behind.split_first()?;
    if *first == close { Some(rest) } else { None }
}

/// The text behind the header's name, in `<>` or in quotes.
fn after_header<'a>(header: Header, text: &'a [u8]) -> Option<&'a [u8]>
    ensures some { IfSome result (λ rest. NamesHeader text.now header rest.now) }
    ensures none { IfNone result ((rest : List ℕ) → NamesHeader text.now header rest → ⊥) }
{
    let (open, name) = text.split_first()?;
    match *open {
        b'<' => after_name(header, b'>', name),
        b'"' => after_name(header, b'"', name),
        _ => None,
    }
}

/// The header that the text names first, and the text behind its name.
fn header_at(text: &[u8]) -> Option<(Header, &[u8])>
    ensures some { IfSome result (λ found. NamesHeader text.now found.0 found.1.now) }
    ensures none { IfNone result ((h : AHeader) (rest : List ℕ) → NamesHeader text.now h rest → ⊥) }
{
    if let Some(rest) = after_header(Header::Mpi, text) {
        return Some((Header::Mpi, rest));
    }
    if let Some(rest) = after_header(Header::Stdio, text) {
        return Some((Header::Stdio, rest));
    }
    if let Some(rest) = after_header(Header::Stdlib, text) {
        return Some((Header::Stdlib, rest));
    }
    let rest = after_header(Header::Strings, text)?;
    Some((Header::Strings, rest))
}

/// The name that the text begins with, and the text behind it.
fn name_at(text: &[u8]) -> Option<(&[u8], &[u8])>
    ensures some { IfSome result (λ found. IsWord text.now found.0.now found.1.now × IsName found.0.now) }
    ensures none { IfNone result ((word rest : List ℕ) → IsWord text.now word rest → IsName word → ⊥) }
{
    let (word, rest) = text.split_at(word_len(text));
    let (first, _) = word.split_first()?;
    if !starts_word(*first) {
        return None;
    }
    if is_out_word(word) {
        return None;
    }
    match keyword_of(word) {
        Some(_) => None,
        None => Some((word, rest)),
    }
}

/// Where the rest of a text stands in its source. The text stands at the place `at`.
pub fn place_of(at: u32, text: &[u8], rest: &[u8]) -> u32
    requires fits { at + length text.now < 2 ^ 31 }
    requires ends { EndsWith text.now rest.now }
    ensures { result + length rest.now ≡ at + length text.now }
{
    at + (text.len() - rest.len()) as u32
}

/// The `#include` that the text begins with, of which the word is taken, and the text from its line's end on.
fn include_at<'a>(
    at: u32,
    text: &'a [u8],
    behind: &'a [u8],
) -> Result<(Directive, &'a [u8]), LexError>
    requires fits { at + length text.now < 2 ^ 31 }
    requires head { IsHead (codes "include") text.now behind.now }
    ensures right { IfOk result (λ found. (names : List (List ℕ)) → IsNewDirective names text.now found.0 found.1.now) }
    ensures wrong { IfErr result (λ e. (names : List (List ℕ)) → TellsDirective names text.now at e) }
{
    let Some((header, rest)) = header_at(after_gaps(behind)) else {
        return Err(LexError::Directive { at });
    };
    let end = after_gaps(rest);
    if is_line_end(end) {
        return Ok((Directive::Include(header), end));
    }
    if is_open_comment(end) {
        return Err(LexError::Unclosed {
            at: place_of(at, text, end),
        });
    }
    Err(LexError::Directive { at })
}

/// The `#pragma` that the text begins with, of which the word is taken, and the text from its line's end on.
fn pragma_at<'a>(
    at: u32,
    text: &'a [u8],
    behind: &'a [u8],
) -> Result<(Directive, &'a [u8]), LexError>
    requires fits { at + length text.now < 2 ^ 31 }
    requires head { IsHead (codes "pragma") text.now behind.now }
    ensures right { IfOk result (λ found. (names : List (List ℕ)) → IsNewDirective names text.now found.0 found.1.now) }
    ensures wrong { IfErr result (λ e. (names : List (List ℕ)) → TellsDirective names text.now at e) }
{
    let end = after_skipped(behind);
    if is_line_end(end) {
        return Ok((Directive::Pragma, end));
    }
    Err(LexError::Unclosed {
        at: place_of(at, text, end),
    })
}

/// The tokens up to the line's end, and the text from there on.
fn body_at(alloc: Global, at: u32, text: &[u8]) -> Result<(Vec<Lexeme>, &[u8]), LexError>
    requires { at + length text.now < 2 ^ 31 }
    ensures right { IfOk result (λ found. AreLexemes text.now found.0.items found.1.now × IsLineEnd found.1.now) }
    ensures wrong { IfErr result (λ e. TellsBody text.now at e) }
{
    let mut body = Vec::new(alloc);
    let mut rest = text;
    'lexemes: loop {
        let (seen, behind) = front_at(alloc, place_of(at, text, rest), rest)?;
        match seen {
            Seen::End | Seen::LineEnd => return Ok((body, rest)),
            Seen::Gap => {}
            Seen::Token(lexeme) => body.push(lexeme)?,
        }
        rest = behind;
    }
}

/// The `#define` that the text begins with, of which the word is taken, and the text from its line's end on.
fn define_at<'a>(
    alloc: Global,
    macros: &Macros,
    at: u32,
    text: &'a [u8],
    behind: &'a [u8],
) -> Result<(Directive, &'a [u8]), LexError>
    requires fits { at + length text.now < 2 ^ 31 }
    requires head { IsHead (codes "define") text.now behind.now }
    ensures right { IfOk result (λ found. IsNewDirective (names_of macros.now) text.now found.0 found.1.now) }
    ensures wrong { IfErr result (λ e. TellsDirective (names_of macros.now) text.now at e) }
{
    let Some((word, rest)) = name_at(after_gaps(behind)) else {
        return Err(LexError::Directive { at });
    };
    if begins_parameters(rest) {
        return Err(LexError::Directive { at });
    }
    if macros.is_defined(word) {
        return Err(LexError::Directive { at });
    }
    let name = Bytes::from_slice(alloc, word)?;
    let (body, end) = body_at(alloc, place_of(at, text, rest), rest)?;
    Ok((Directive::Define { name, body }, end))
}

/// Whether a `(` follows.
fn begins_parameters(text: &[u8]) -> bool
    ensures { MatchBool result (First (λ b. b == 40) text.now) (NotFirst (λ b. b == 40) text.now) }
{
    matches!(text, [b'(', ..])
}

/// The directive that the text begins with, and the text from its line's end on. The text stands at the place `at` of its
/// source, and begins with a `#`.
pub fn directive_at<'a>(
    alloc: Global,
    macros: &Macros,
    at: u32,
    text: &'a [u8],
) -> Result<(Directive, &'a [u8]), LexError>
    requires fits { at + length text.now < 2 ^ 31 }
    requires hash { First (λ b. b == 35) text.now }
    ensures right { IfOk result (λ found. IsNewDirective (names_of macros.now) text.now found.0 found.1.now) }
    ensures wrong { IfErr result (λ e. TellsDirective (names_of macros.now) text.now at e) }
{
    let Some((_, behind)) = text.split_first() else {
        return Err(LexError::Directive { at });
    };
    let (word, behind) = head_of(behind);
    if word == INCLUDE {
        return include_at(at, text, behind);
    }
    if word == DEFINE {
        return define_at(alloc, macros, at, text, behind);
    }
    if word == PRAGMA {
        return pragma_at(at, text, behind);
    }
    Err(LexError::Directive { at })
}
