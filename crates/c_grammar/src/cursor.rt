//! The tokens that are left, and what comes next.

ghost use Rattle.std.specs.Prelude.{◌≡◌, IfOk};
ghost use Rattle.c_grammar.specs.Words.{number_of};
ghost use Rattle.c_grammar.specs.Reading.{Gives, Unexpected, TooNested, sees_mark, sees_keyword, tail, behind, expect_mark, expect_keyword, expect_name, name_at_front};
ghost use Rattle.c_grammar.specs.ReadingDecl.{too_deep};
ghost use Rattle.c_grammar.specs.Nests.{state_of, seen, error_of};

use crate::error::ParseError;
use crate::scope::Scope;
use am_base::Bytes;
use c_ast::Name;
use c_lex::{Keyword, Mark, Token, TokenKind};
use std::alloc::{AllocError, Global};

/// The tokens that are left to read, of so many, and the names in scope.
#[derive(Drop)]
pub struct Cursor<'a> {
    pub total: u32,
    pub rest: &'a [Token],
    pub names: Scope,
}

/// Whether this punctuator comes next.
pub fn sees_mark(mark: Mark, tokens: &[Token]) -> bool
    ensures { result ≡ sees_mark mark tokens.now }
{
    match tokens {
        [
            Token {
                kind: TokenKind::Mark(found),
                ..
            },
            ..
        ] => *found == mark,
        _ => false,
    }
}

/// Whether this keyword comes next.
pub fn sees_keyword(keyword: Keyword, tokens: &[Token]) -> bool
    ensures { result ≡ sees_keyword keyword tokens.now }
{
    match tokens {
        [
            Token {
                kind: TokenKind::Keyword(found),
                ..
            },
            ..
        ] => *found == keyword,
        _ => false,
    }
}

/// The tokens behind the next one.
pub fn tail(tokens: &[Token]) -> &[Token]
    ensures { result.now ≡ tail tokens.now }
{
    match tokens {
        [_, rest @ ..] => rest,
        [] => tokens,
    }
}

/// The number of the first of these last tokens of so many.
pub fn number_of(total: u32, tokens: &[Token]) -> u32
    ensures { result ≡ number_of total tokens.now }
{
    match u32::try_from(tokens.len()) {
        Ok(len) => total.saturating_sub(len),
        Err(_) => 0,
    }
}

/// The name that comes next.
pub fn name_at_front(
    alloc: Global,
    total: u32,
    tokens: &[Token],
) -> Result<Option<Name>, AllocError>
    ensures { IfOk result (λ name. name ≡ name_at_front total tokens.now) }
{
    let Some((first, _)) = tokens.split_first() else {
        return Ok(None);
    };
    if !matches!(first.kind, TokenKind::Name) {
        return Ok(None);
    }
    let text = Bytes::from_slice(alloc, first.text.as_slice())?;
    Ok(Some(Name {
        token: number_of(total, tokens),
        text,
    }))
}

impl<'a> Cursor<'a> {
    /// The number of the next token.
    pub fn here(&self) -> u32
        ensures { result ≡ number_of self.now.total self.now.rest.now }
    {
        number_of(self.total, self.rest)
    }

    pub fn sees_mark(&self, mark: Mark) -> bool
        ensures { result ≡ sees_mark mark self.now.rest.now }
    {
        sees_mark(mark, self.rest)
    }

    pub fn sees_keyword(&self, keyword: Keyword) -> bool
        ensures { result ≡ sees_keyword keyword self.now.rest.now }
    {
        sees_keyword(keyword, self.rest)
    }

    /// Goes behind the next token.
    pub fn skip(&mut self)
        ensures total { self.new.total ≡ self.old.total }
        ensures behind { state_of self.new ≡ behind (state_of self.old) }
    {
        self.rest = tail(self.rest);
    }

    /// The error that the next token isn't expected.
    pub fn unexpected(&self) -> ParseError
        ensures { result ≡ error_of (Unexpected (number_of self.now.total self.now.rest.now)) }
    {
        ParseError::Unexpected { token: self.here() }
    }

    /// The error that the next token makes a chain too long.
    pub fn too_long(&self) -> ParseError
        ensures { result ≡ error_of (TooNested (number_of self.now.total self.now.rest.now)) }
    {
        ParseError::TooNested { token: self.here() }
    }

    /// The error that the next token stands too deep.
    #[tactic(auto, unfolding(crate::specs::ReadingDecl::too_deep))]
    pub fn too_deep(&self) -> ParseError
        ensures { result ≡ error_of (too_deep self.now.total (state_of self.now)) }
    {
        ParseError::TooNested { token: self.here() }
    }

    /// Takes this punctuator, which has to come next.
    #[tactic(auto, unfolding(crate::specs::Reading::expect_mark))]
    pub fn expect_mark(&mut self, mark: Mark) -> Result<(), ParseError>
        ensures total { self.new.total ≡ self.old.total }
        ensures reads { Gives (λ _. state_of self.new) result (expect_mark self.old.total mark (state_of self.old)) }
    {
        if !self.sees_mark(mark) {
            return Err(self.unexpected());
        }
        self.skip();
        Ok(())
    }

    /// Takes this keyword, which has to come next.
    #[tactic(auto, unfolding(crate::specs::Reading::expect_keyword))]
    pub fn expect_keyword(&mut self, keyword: Keyword) -> Result<(), ParseError>
        ensures total { self.new.total ≡ self.old.total }
        ensures reads { Gives (λ _. state_of self.new) result (expect_keyword self.old.total keyword (state_of self.old)) }
    {
        if !self.sees_keyword(keyword) {
            return Err(self.unexpected());
        }
        self.skip();
        Ok(())
    }

    /// Takes a name, which has to come next.
    #[tactic(auto, unfolding(crate::specs::Reading::expect_name))]
    pub fn expect_name(&mut self, alloc: Global) -> Result<Name, ParseError>
        ensures total { self.new.total ≡ self.old.total }
        ensures reads { Gives (seen self.new) result (expect_name self.old.total (state_of self.old)) }
    {
        let Some(name) = name_at_front(alloc, self.total, self.rest)? else {
            return Err(self.unexpected());
        };
        self.skip();
        Ok(name)
    }
}
