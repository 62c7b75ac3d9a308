//! Replacing macros by their tokens.

ghost use Rattle.std.specs.Prelude.{◌≡◌, ◌<◌, ◌≤◌, ◌∷◌, [], ◌++◌, ◌+◌, ◌==◌, length, drop, reverse, if◌then◌else◌, MatchOption, OnOk, OnErr, IsErrOf, map, false};
ghost use Rattle.std.specs.List.{AllByRecursion};
ghost use Rattle.c_lex.specs.Table.{names_in, IsTable};
ghost use Rattle.c_lex.specs.Tokens.{placed, most_tokens};
ghost use Rattle.c_lex.specs.Frames.{is_begun, ArePlaced, IsNext, BeginsWithin, IsAfter, Stand, Advances, IsRunning, rest_of, macro_becomes, is_empty_at, with_empty, with_place};

use crate::lexeme::Lexeme;
use crate::macros::ExpandError;
use crate::table::Table;
use crate::token::{Headers, Token};
use am_base::Bytes;
use std::alloc::{AllocError, Global};

/// The most tokens that a source may have.
const MOST_TOKENS: usize = 1 << 20;

/// A macro that is being replaced.
#[derive(Clone, Copy, Debug)]
struct Frame {
    pub number: usize,
    /// How many of its tokens are done, or begun.
    pub place: usize,
    /// How many tokens there were before it.
    pub start: usize,
}

/// What is known of a macro beside its definition.
#[derive(Clone, Copy, Debug)]
pub struct Mark {
    /// Its tokens come to nothing.
    pub is_empty: bool,
    /// Where its frame stands or stood, if it has had one.
    pub place: usize,
}

/// What to do with a token.
#[derive(Clone, Copy)]
enum Next {
    /// It stays as it is.
    Keep,
    /// It is replaced by no tokens.
    Skip,
    /// It is replaced by the tokens of this macro.
    Begin(usize),
}

/// Whether the macro is being replaced.
fn is_begun(frames: &[Frame], marks: &[Mark], number: usize) -> bool
    requires { number < length marks.now }
    ensures { result ≡ is_begun frames.now marks.now number }
{
    match frames.get(marks[number].place) {
        Some(frame) => frame.number == number,
        None => false,
    }
}

/// What to do with a token, where these macros are being replaced.
fn next_of(table: &Table, frames: &[Frame], marks: &[Mark], lexeme: &Lexeme) -> Next
    requires table { IsTable table.now }
    requires sizes { length (names_in table.now) ≡ length marks.now }
    requires within { AllByRecursion (λ frame. frame.number < length (names_in table.now)) (reverse frames.now) }
    requires placed { ArePlaced marks.now (reverse frames.now) }
    ensures { IsNext table.now marks.now frames.now lexeme.now result }
{
    let Some(number) = table.number_of(lexeme) else {
        return Next::Keep;
    };
    if is_begun(frames, marks, number) {
        return Next::Keep;
    }
    if marks[number].is_empty {
        Next::Skip
    } else {
        Next::Begin(number)
    }
}

/// Where a token is put.
#[derive(Clone, Copy)]
pub struct Site {
    pub line: u32,
    pub headers: Headers,
}

/// Refuses one more token where there are the most already.
fn check_room(out: &[Token]) -> Result<(), ExpandError>
    ensures ok { OnOk result (length out.now < most_tokens) }
    ensures many { IsErrOf result ExpandError.TooMany → most_tokens ≤ length out.now }
{
    if out.len() < MOST_TOKENS {
        Ok(())
    } else {
        Err(ExpandError::TooMany)
    }
}

/// Appends the token, unless that is one too many.
pub fn put(lexeme: Lexeme, site: Site, out: &mut Vec<Token>) -> Result<(), ExpandError>
    ensures ok { OnOk result (out.new.items ≡ out.old.items ++ placed site.line site.headers lexeme ∷ []) }
    ensures few { OnOk result (length out.old.items < most_tokens) }
    ensures many { IsErrOf result ExpandError.TooMany → most_tokens ≤ length out.old.items }
{
    check_room(out.as_slice())?;
    out.push(Token {
        kind: lexeme.kind,
        line: site.line,
        value: lexeme.value,
        text: lexeme.text,
        headers: site.headers,
    })?;
    Ok(())
}

/// Appends a copy of the token, unless that is one too many.
fn put_copy(
    alloc: Global,
    lexeme: &Lexeme,
    site: Site,
    out: &mut Vec<Token>,
) -> Result<(), ExpandError>
    ensures ok { OnOk result (out.new.items ≡ out.old.items ++ placed site.line site.headers lexeme.now ∷ []) }
    ensures few { OnOk result (length out.old.items < most_tokens) }
    ensures many { IsErrOf result ExpandError.TooMany → most_tokens ≤ length out.old.items }
{
    // Nothing is copied beyond the limit.
    check_room(out.as_slice())?;
    let text = Bytes::from_slice(alloc, lexeme.text.as_slice())?;
    let copy = Lexeme {
        kind: lexeme.kind,
        value: lexeme.value,
        text,
    };
    put(copy, site, out)
}

/// Begins to replace a macro.
fn begin(
    number: usize,
    start: usize,
    frames: &mut Vec<Frame>,
    marks: &mut [Mark],
) -> Result<(), AllocError>
    requires { number < length marks.old }
    ensures frames { OnOk result (frames.new.items ≡ frames.old.items ++ record { number = number; place = 0; start = start } ∷ []) }
    ensures marks { OnOk result (marks.new ≡ with_place marks.old number (length frames.old.items)) }
    ensures err { OnErr result (marks.new ≡ marks.old) }
{
    let place = frames.len();
    frames.push(Frame {
        number,
        place: 0,
        start,
    })?;
    marks[number] = Mark {
        is_empty: marks[number].is_empty,
        place,
    };
    Ok(())
}

/// Marks a macro as empty where its frame has given no token.
fn finish(frame: &Frame, count: usize, marks: &mut [Mark])
    requires { frame.now.number < length marks.old }
    ensures { marks.new ≡ (if frame.now.start == count then with_empty marks.old frame.now.number else marks.old) }
{
    if frame.start == count {
        marks[frame.number] = Mark {
            is_empty: true,
            place: marks[frame.number].place,
        };
    }
}

/// Does with a token what is to be done.
fn act(
    alloc: Global,
    next: Next,
    lexeme: &Lexeme,
    site: Site,
    frames: &mut Vec<Frame>,
    marks: &mut [Mark],
    out: &mut Vec<Token>,
) -> Result<(), ExpandError>
    requires { BeginsWithin next (length marks.old) }
    ensures ok { OnOk result (IsAfter next (placed site.line site.headers lexeme.now) frames.old.items marks.old out.old.items frames.new.items marks.new out.new.items) }
    ensures few { OnOk result (length out.old.items ≤ most_tokens → length out.new.items ≤ most_tokens) }
    ensures err { OnErr result (marks.new ≡ marks.old) }
    ensures many { IsErrOf result ExpandError.TooMany → (next ≡ Next.Keep) × (most_tokens ≤ length out.old.items) }
{
    match next {
        Next::Keep => put_copy(alloc, lexeme, site, out),
        Next::Skip => Ok(()),
        Next::Begin(number) => {
            begin(number, out.len(), frames, marks)?;
            Ok(())
        }
    }
}

/// One step: a macro ends, or its next token is put, skipped or begins to be replaced.
fn advance(
    alloc: Global,
    table: &Table,
    site: Site,
    frames: &mut Vec<Frame>,
    marks: &mut [Mark],
    out: &mut Vec<Token>,
) -> Result<(), ExpandError>
    requires table { IsTable table.now }
    requires sizes { length (names_in table.now) ≡ length marks.old }
    requires stand { Stand table.now marks.old frames.old.items (length out.old.items) }
    requires some { 0 < length frames.old.items }
    ensures ok { OnOk result (Advances table.now site.line site.headers frames.old.items out.old.items frames.new.items marks.new out.new.items) }
    ensures few { OnOk result (length out.old.items ≤ most_tokens → length out.new.items ≤ most_tokens) }
    ensures rest { OnErr result (Stand table.now marks.new [] 0) }
    ensures many { IsErrOf result ExpandError.TooMany → most_tokens < length out.old.items + length (rest_of table.now frames.old.items) }
{
    let Some(mut frame) = frames.pop() else {
        return Ok(());
    };
    let Some(lexeme) = table.token(frame.number, frame.place) else {
        finish(&frame, out.len(), marks);
        return Ok(());
    };
    frame.place += 1;
    frames.push(frame)?;
    let next = next_of(table, frames.as_slice(), marks, lexeme);
    act(alloc, next, lexeme, site, frames, marks, out)
}

/// Appends what a macro becomes where nothing is being replaced. It isn't known to be empty.
pub fn replace(
    alloc: Global,
    table: &Table,
    number: usize,
    site: Site,
    marks: &mut [Mark],
    out: &mut Vec<Token>,
) -> Result<(), ExpandError>
    requires table { IsTable table.now }
    requires sizes { length (names_in table.now) ≡ length marks.old }
    requires within { number < length (names_in table.now) }
    requires some { is_empty_at marks.old number ≡ false }
    requires rest { Stand table.now marks.old [] 0 }
    requires few { length out.old.items ≤ most_tokens }
    ensures ok { OnOk result (out.new.items ≡ out.old.items ++ map (placed site.line site.headers) (macro_becomes table.now number)) }
    ensures few { OnOk result (length out.new.items ≤ most_tokens) }
    ensures rest { Stand table.now marks.new [] 0 }
    ensures many { IsErrOf result ExpandError.TooMany → most_tokens < length out.old.items + length (macro_becomes table.now number) }
{
    let mut frames = Vec::new(alloc);
    begin(number, out.len(), &mut frames, marks)?;
    'frames: while !frames.is_empty() {
        advance(alloc, table, site, &mut frames, marks, out)?;
    }
    Ok(())
}
