//! What is told of a token that isn't read: whether it isn't expected or stands too deep.

ghost use Rattle.std.specs.Prelude.{◌≡◌, ◌≤◌, ◌<◌, ◌^◌, [], ◌∷◌, ◌++◌, take, length, IfOk, OnOk};
ghost use Rattle.c_grammar.specs.Reading.{IsFault, Gives};
ghost use Rattle.c_grammar.specs.Nests.{most};
ghost use Rattle.c_grammar.specs.ReadingStmt.{unit};
ghost use Rattle.c_grammar.specs.Brackets.{met, wanted_behind, closes_innermost};
ghost use Rattle.c_grammar.specs.Places.{kinds, plain};
ghost use Rattle.c_grammar.specs.Told.{limit, takes_token, IsTaken, has_place, placed, told, Settles};

use crate::LIMIT;
use crate::units::unit;
use am_base::Bytes;
use c_ast::Unit;
use c_grammar::{ParseError, sees_mark};
use c_lex::{Headers, Keyword, Mark, NumberType, Token, TokenKind};
use std::alloc::{AllocError, Global};

/// How deep tokens may nest where it is to be seen whether a token is expected: one that stands directly behind the limit stands
/// within this one.
const DEEPER: u8 = 68;

/// Kinds of tokens of which one can stand at each place of a unit.
const KINDS: [TokenKind; 12] = [
    TokenKind::Mark(Mark::Question),
    TokenKind::Number(NumberType::Int),
    TokenKind::Name,
    TokenKind::Keyword(Keyword::Int),
    TokenKind::Mark(Mark::Semicolon),
    TokenKind::Mark(Mark::OpenBrace),
    TokenKind::Mark(Mark::Star),
    TokenKind::Mark(Mark::OpenBracket),
    TokenKind::Mark(Mark::Comma),
    TokenKind::Mark(Mark::Colon),
    TokenKind::Mark(Mark::OpenParen),
    TokenKind::Keyword(Keyword::While),
];

/// One more token: an opening bracket wants the one that closes it, and a closing one ends the innermost.
fn meet(wanted: &mut Vec<Mark>, kind: TokenKind) -> Result<(), AllocError>
    ensures { OnOk result (wanted.new.items ≡ met kind wanted.old.items) }
{
    match kind {
        TokenKind::Mark(Mark::OpenParen) => wanted.push(Mark::CloseParen)?,
        TokenKind::Mark(Mark::OpenBracket) => wanted.push(Mark::CloseBracket)?,
        TokenKind::Mark(Mark::OpenBrace) => wanted.push(Mark::CloseBrace)?,
        TokenKind::Mark(Mark::CloseParen | Mark::CloseBracket | Mark::CloseBrace) => {
            let _innermost = wanted.pop();
        }
        _ => {}
    }
    Ok(())
}

/// The brackets that are wanted behind these tokens, the innermost last.
#[tactic(auto, unfolding(c_grammar::specs::Brackets::wanted_behind))]
fn wanted_behind(alloc: Global, tokens: &[Token]) -> Result<Vec<Mark>, AllocError>
    ensures { IfOk result (λ wanted. wanted.items ≡ wanted_behind [] tokens.now) }
{
    let mut wanted = Vec::new(alloc);
    let mut rest = tokens;
    'tokens: while let Some((token, others)) = rest.split_first() {
        meet(&mut wanted, token.kind)?;
        rest = others;
    }
    Ok(wanted)
}

/// Whether the token of this number closes the innermost bracket that is open before it.
#[tactic(auto, unfolding(c_grammar::specs::Brackets::closes_innermost))]
fn closes_innermost(alloc: Global, tokens: &[Token], token: u32) -> Result<bool, AllocError>
    ensures { IfOk result (λ closes. closes ≡ closes_innermost tokens.now token) }
{
    let Some((before, rest)) = tokens.split_at_checked(token as usize) else {
        return Ok(false);
    };
    let wanted = wanted_behind(alloc, before)?;
    let Some(innermost) = wanted.as_slice().last() else {
        return Ok(false);
    };
    Ok(sees_mark(*innermost, rest))
}

/// A token of this kind.
fn plain(alloc: Global, kind: TokenKind) -> Token
    ensures { result ≡ plain kind }
{
    Token {
        kind,
        line: 0,
        value: 0,
        text: Bytes::new(alloc),
        headers: Headers {
            mpi: false,
            stdio: false,
            stdlib: false,
            strings: false,
        },
    }
}

fn copy_of(alloc: Global, token: &Token) -> Result<Token, AllocError>
    ensures { IfOk result (λ copy. copy ≡ token.now) }
{
    let text = Bytes::from_slice(alloc, token.text.as_slice())?;
    Ok(Token {
        kind: token.kind,
        line: token.line,
        value: token.value,
        text,
        headers: token.headers,
    })
}

/// Copies the tokens.
fn copies_of(alloc: Global, tokens: &[Token]) -> Result<Vec<Token>, AllocError>
    ensures { IfOk result (λ copies. copies.items ≡ tokens.now) }
{
    let mut copies = Vec::new(alloc);
    let mut rest = tokens;
    'tokens: while let Some((token, others)) = rest.split_first() {
        copies.push(copy_of(alloc, token)?)?;
        rest = others;
    }
    Ok(copies)
}

/// Whether the reading took the token of this number.
fn takes_token(token: u32, read: Result<Unit, ParseError>) -> Result<bool, AllocError>
    ensures { IsTaken token read result }
{
    match read {
        Ok(unit) => {
            drop(unit);
            Ok(true)
        }
        Err(ParseError::Unexpected { token: other } | ParseError::TooNested { token: other }) => {
            Ok(token < other)
        }
        Err(ParseError::Memory) => Err(AllocError),
    }
}

/// Whether a token of this kind can stand behind the others, which are fewer than its number says.
fn can_stand(
    alloc: Global,
    trial: &mut Vec<Token>,
    token: u32,
    kind: TokenKind,
) -> Result<bool, AllocError>
    ensures same { OnOk result (trial.new.items ≡ trial.old.items) }
    ensures stands { IfOk result (λ stands. stands ≡ takes_token token (unit most limit (trial.old.items ++ plain kind ∷ []))) }
{
    trial.push(plain(alloc, kind))?;
    let Ok(total) = u32::try_from(trial.len()) else {
        return Err(AllocError);
    };
    let read = unit(alloc, total, trial.as_slice(), LIMIT);
    let _last = trial.pop();
    takes_token(token, read)
}

/// Whether a token can stand at this place within the limits.
#[tactic(auto, unfolding(c_grammar::specs::Told::has_place))]
fn has_place(alloc: Global, tokens: &[Token], token: u32) -> Result<bool, AllocError>
    ensures { IfOk result (λ has. has ≡ has_place tokens.now token) }
{
    let Some((before, _)) = tokens.split_at_checked(token as usize) else {
        return Err(AllocError);
    };
    let mut trial = copies_of(alloc, before)?;
    let mut rest: &[TokenKind] = &KINDS;
    'kinds: while let Some((kind, others)) = rest.split_first() {
        if can_stand(alloc, &mut trial, token, *kind)? {
            return Ok(true);
        }
        rest = others;
    }
    Ok(false)
}

/// The error for a token that nothing goes on with: a bracket that closes the innermost one has the nesting of its opener, and any
/// other token that of its place.
#[tactic(auto, unfolding(c_grammar::specs::Told::placed))]
fn placed(alloc: Global, tokens: &[Token], token: u32) -> ParseError
    ensures { IsFault result (placed tokens.now token) }
{
    match closes_innermost(alloc, tokens, token) {
        Err(_) => return ParseError::Memory,
        Ok(true) => return ParseError::Unexpected { token },
        Ok(false) => {}
    }
    match has_place(alloc, tokens, token) {
        Err(_) => ParseError::Memory,
        Ok(true) => ParseError::Unexpected { token },
        Ok(false) => ParseError::TooNested { token },
    }
}

/// The error for a token that was read as too deep: it is so if it is expected where there is more room.
#[tactic(auto, unfolding(c_grammar::specs::Told::told))]
fn told(alloc: Global, tokens: &[Token], token: u32) -> ParseError
    requires { length tokens.now < 2 ^ 32 }
    ensures { IsFault result (told tokens.now token) }
{
    match unit(alloc, tokens.len() as u32, tokens, DEEPER) {
        Ok(unit) => {
            drop(unit);
            ParseError::TooNested { token }
        }
        Err(ParseError::Memory) => ParseError::Memory,
        Err(ParseError::Unexpected { token: other }) if other == token => {
            placed(alloc, tokens, token)
        }
        Err(_) => ParseError::TooNested { token },
    }
}

/// What was read, or why it wasn't.
pub fn settled(
    alloc: Global,
    tokens: &[Token],
    read: Result<Unit, ParseError>,
) -> Result<Unit, ParseError>
    requires { length tokens.now < 2 ^ 32 }
    ensures { Settles tokens.now read result }
{
    match read {
        Err(ParseError::TooNested { token }) => Err(told(alloc, tokens, token)),
        Err(ParseError::Unexpected { token }) => Err(placed(alloc, tokens, token)),
        other => other,
    }
}
