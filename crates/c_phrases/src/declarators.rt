//! Declarators, with a name or without one (C11, 6.7.6 and 6.7.7).

ghost use Rattle.std.specs.Prelude.{◌≡◌, [], Ok, length, IfOk};
ghost use Rattle.c_ast.specs.declared.declaration.Direct.TheVariants as direct;
ghost use Rattle.c_grammar.specs.Owns.{Open};
ghost use Rattle.c_grammar.specs.Grammar.{behind_pointers};
ghost use Rattle.c_grammar.specs.Reading.{Gives};
ghost use Rattle.c_grammar.specs.ReadingDecl.{qualifier_at, qualifiers, at_rest, pointers, size, sizes, stars, unnamed_from, unnamed, are_bare, starts_direct, direct_at, declarator_from, declarator, param_declarator};
ghost use Rattle.c_grammar.specs.Levels.{readers};
ghost use Rattle.c_grammar.specs.Nests.{Nests, most, state_of, seen};

use crate::ends::ended;
use crate::grammar::Grammar;
use am_base::Bytes;
use c_ast::{Abstract, Declarator, Direct, Expr, Name, Qualifier};
use c_grammar::{
    Cursor, Extent, OwnNames, ParseError, Phrase, ReadDeclarator, ReadDirect, ReadParam, Scope,
    Wanted, qualifier_of, sees_mark,
};
use c_lex::{Mark, Token, TokenKind};
use sqlite_items::{Boxed, Items};
use std::alloc::{AllocError, Global};

/// The qualifier that comes next.
fn qualifier_at(tokens: &[Token]) -> Option<Qualifier>
    ensures { result ≡ qualifier_at tokens.now }
{
    match tokens {
        [first, ..] => qualifier_of(first.kind),
        [] => None,
    }
}

/// Takes the qualifiers that come next.
fn qualifiers(alloc: Global, cursor: &mut Cursor<'_>) -> Result<Items<Qualifier>, ParseError>
    ensures total { cursor.new.total ≡ cursor.old.total }
    ensures reads { Gives (seen cursor.new) result
        (Ok ((qualifiers [] cursor.old.rest.now).0, at_rest (state_of cursor.old) (qualifiers [] cursor.old.rest.now).1)) }
{
    let mut all = Items::new(alloc);
    'qualifiers: while let Some(qualifier) = qualifier_at(cursor.rest) {
        all.push(qualifier)?;
        cursor.skip();
    }
    Ok(all)
}

/// Takes the pointers that come next, each with its qualifiers.
fn pointers(alloc: Global, cursor: &mut Cursor<'_>) -> Result<Items<Items<Qualifier>>, ParseError>
    ensures total { cursor.new.total ≡ cursor.old.total }
    ensures reads { Gives (seen cursor.new) result (Ok (pointers (length cursor.old.rest.now) [] (state_of cursor.old))) }
{
    let mut all = Items::new(alloc);
    'pointers: while cursor.sees_mark(Mark::Star) {
        cursor.skip();
        let found = qualifiers(alloc, cursor)?;
        all.push(found)?;
    }
    Ok(all)
}

/// Takes the stars that come next, and counts them.
fn stars(cursor: &mut Cursor<'_>) -> Result<u32, ParseError>
    ensures total { cursor.new.total ≡ cursor.old.total }
    ensures reads { Gives (seen cursor.new) result
        (Ok ((stars 0 cursor.old.rest.now).0, at_rest (state_of cursor.old) (stars 0 cursor.old.rest.now).1)) }
{
    let mut count: u32 = 0;
    'stars: while cursor.sees_mark(Mark::Star) {
        if count == u32::MAX {
            return Err(ParseError::Memory);
        }
        count += 1;
        cursor.skip();
    }
    Ok(count)
}

/// Whether no qualifier stands behind a pointer.
fn are_bare(pointers: &[Items<Qualifier>]) -> bool
    ensures { result ≡ are_bare pointers.now }
{
    let mut rest = pointers;
    'bare: while let [first, others @ ..] = rest {
        if !first.is_empty() {
            return false;
        }
        rest = others;
    }
    true
}

/// Whether a name or a `(` comes next.
fn starts_direct(tokens: &[Token]) -> bool
    ensures { result ≡ starts_direct tokens.now }
{
    match tokens {
        [first, ..] => matches!(first.kind, TokenKind::Name) || sees_mark(Mark::OpenParen, tokens),
        [] => false,
    }
}

/// What the parameters of a function bring, where these pointers are applied to it first.
fn behind_pointers(alloc: Global, pointers: &[Items<Qualifier>], own: OwnNames) -> OwnNames
    ensures { result ≡ behind_pointers pointers.now own }
{
    match pointers {
        [] => own,
        _ => own.settled(Scope::new(alloc)),
    }
}

/// A name as what a declarator declares.
fn named(alloc: Global, name: Name) -> Result<ReadDirect, AllocError>
    ensures { IfOk result (λ found. found ≡ record { tree = direct.Name name; name = name.text; own = Open }) }
{
    match Bytes::from_slice(alloc, name.text.as_slice()) {
        Ok(bytes) => Ok(ReadDirect {
            tree: Direct::Name(name),
            name: bytes,
            own: OwnNames::open(),
        }),
        Err(e) => {
            drop(name);
            Err(e)
        }
    }
}

/// A declarator in parentheses, of which the first has this number.
fn nested(alloc: Global, token: u32, found: ReadDeclarator) -> Result<ReadDirect, AllocError>
    ensures { IfOk result (λ outer. outer ≡ record { tree = direct.Nested token found.tree; name = found.name; own = found.own }) }
{
    let ReadDeclarator { tree, name, own } = found;
    match Boxed::new(alloc, tree) {
        Ok(inner) => Ok(ReadDirect {
            tree: Direct::Nested { token, inner },
            name,
            own,
        }),
        Err(e) => {
            drop(name);
            drop(own);
            Err(e)
        }
    }
}

impl<F: Fn(Global, &mut Cursor<'_>, u8, Wanted) -> Result<Phrase, ParseError>> Grammar<F> {
    /// Reads `[ cond ]` or `[ ]`.
    #[tactic(auto, unfolding(c_grammar::specs::ReadingDecl::size))]
    pub fn size(&self, cursor: &mut Cursor<'_>) -> Result<Option<Boxed<Expr>>, ParseError>
        requires { Nests self.now.room (F.pre self.now.parse) (F.post self.now.parse) }
        ensures total { cursor.new.total ≡ cursor.old.total }
        ensures reads { Gives (seen cursor.new) result (size cursor.old.total (readers cursor.old.total most self.now.room) (state_of cursor.old)) }
    {
        cursor.skip();
        if cursor.sees_mark(Mark::CloseBracket) {
            cursor.skip();
            return Ok(None);
        }
        let size = self.inner_expr(cursor, Extent::Cond)?;
        let size = ended(cursor, size, Mark::CloseBracket)?;
        Ok(Some(Boxed::new(self.alloc, size)?))
    }

    /// Reads the sizes of arrays that come next.
    #[tactic(auto, unfolding(c_grammar::specs::ReadingDecl::sizes))]
    fn sizes(&self, cursor: &mut Cursor<'_>) -> Result<Items<Option<Boxed<Expr>>>, ParseError>
        requires { Nests self.now.room (F.pre self.now.parse) (F.post self.now.parse) }
        ensures total { cursor.new.total ≡ cursor.old.total }
        ensures reads { Gives (seen cursor.new) result
            (sizes cursor.old.total (readers cursor.old.total most self.now.room) (length cursor.old.rest.now) [] (state_of cursor.old)) }
    {
        let mut all = Items::new(self.alloc);
        let mut count = cursor.rest.len();
        'sizes: while count > 0 && cursor.sees_mark(Mark::OpenBracket) {
            count -= 1;
            let size = self.size(cursor)?;
            all.push(size)?;
        }
        Ok(all)
    }

    /// Reads what is behind so many stars of a declarator without a name.
    fn unnamed_from(
        &self,
        cursor: &mut Cursor<'_>,
        pointers: u32,
    ) -> Result<Abstract<Boxed<Expr>>, ParseError>
        requires { Nests self.now.room (F.pre self.now.parse) (F.post self.now.parse) }
        ensures total { cursor.new.total ≡ cursor.old.total }
        ensures reads { Gives (seen cursor.new) result
            (unnamed_from cursor.old.total (readers cursor.old.total most self.now.room) pointers (state_of cursor.old)) }
    {
        let sizes = self.sizes(cursor)?;
        Ok(Abstract { pointers, sizes })
    }

    /// Reads a declarator without a name.
    #[tactic(auto, unfolding(c_grammar::specs::ReadingDecl::unnamed))]
    pub fn unnamed(&self, cursor: &mut Cursor<'_>) -> Result<Abstract<Boxed<Expr>>, ParseError>
        requires { Nests self.now.room (F.pre self.now.parse) (F.post self.now.parse) }
        ensures total { cursor.new.total ≡ cursor.old.total }
        ensures reads { Gives (seen cursor.new) result (unnamed cursor.old.total (readers cursor.old.total most self.now.room) (state_of cursor.old)) }
    {
        let pointers = stars(cursor)?;
        self.unnamed_from(cursor, pointers)
    }

    /// Reads a name or `( declarator )`.
    #[tactic(auto, unfolding(c_grammar::specs::ReadingDecl::direct_at))]
    fn direct(&self, cursor: &mut Cursor<'_>) -> Result<ReadDirect, ParseError>
        requires { Nests self.now.room (F.pre self.now.parse) (F.post self.now.parse) }
        ensures total { cursor.new.total ≡ cursor.old.total }
        ensures reads { Gives (seen cursor.new) result (direct_at cursor.old.total (readers cursor.old.total most self.now.room) (state_of cursor.old)) }
    {
        let token = cursor.here();
        if !cursor.sees_mark(Mark::OpenParen) {
            let name = cursor.expect_name(self.alloc)?;
            return Ok(named(self.alloc, name)?);
        }
        cursor.skip();
        let found = self.inner_declarator(cursor)?;
        match cursor.expect_mark(Mark::CloseParen) {
            Ok(()) => Ok(nested(self.alloc, token, found)?),
            Err(e) => {
                drop(found);
                Err(e)
            }
        }
    }

    /// Reads what is behind the pointers of a declarator, whose first token has this number.
    #[tactic(auto, unfolding(c_grammar::specs::ReadingDecl::declarator_from))]
    fn declarator_from(
        &self,
        cursor: &mut Cursor<'_>,
        token: u32,
        pointers: Items<Items<Qualifier>>,
    ) -> Result<ReadDeclarator, ParseError>
        requires { Nests self.now.room (F.pre self.now.parse) (F.post self.now.parse) }
        ensures total { cursor.new.total ≡ cursor.old.total }
        ensures reads { Gives (seen cursor.new) result
            (declarator_from cursor.old.total self.now.room (readers cursor.old.total most self.now.room) token pointers (state_of cursor.old)) }
    {
        let found = match self.direct(cursor) {
            Ok(found) => found,
            Err(e) => {
                drop(pointers);
                return Err(e);
            }
        };
        let ReadDirect {
            tree: direct,
            name,
            own,
        } = found;
        match self.suffixes(cursor, own) {
            Ok((suffixes, own)) => {
                let own = behind_pointers(self.alloc, pointers.as_slice(), own);
                let tree = Declarator {
                    token,
                    pointers,
                    direct,
                    suffixes,
                };
                Ok(ReadDeclarator { tree, name, own })
            }
            Err(e) => {
                drop(pointers);
                drop(direct);
                drop(name);
                Err(e)
            }
        }
    }

    /// Reads a declarator.
    #[tactic(auto, unfolding(c_grammar::specs::ReadingDecl::declarator))]
    pub fn declarator(&self, cursor: &mut Cursor<'_>) -> Result<ReadDeclarator, ParseError>
        requires { Nests self.now.room (F.pre self.now.parse) (F.post self.now.parse) }
        ensures total { cursor.new.total ≡ cursor.old.total }
        ensures reads { Gives (seen cursor.new) result
            (declarator cursor.old.total self.now.room (readers cursor.old.total most self.now.room) (state_of cursor.old)) }
    {
        let token = cursor.here();
        let pointers = pointers(self.alloc, cursor)?;
        self.declarator_from(cursor, token, pointers)
    }

    /// Reads a declarator with a name or without one.
    #[tactic(auto, unfolding(c_grammar::specs::ReadingDecl::param_declarator))]
    pub fn param_declarator(&self, cursor: &mut Cursor<'_>) -> Result<ReadParam, ParseError>
        requires { Nests self.now.room (F.pre self.now.parse) (F.post self.now.parse) }
        ensures total { cursor.new.total ≡ cursor.old.total }
        ensures reads { Gives (seen cursor.new) result
            (param_declarator cursor.old.total self.now.room (readers cursor.old.total most self.now.room) (state_of cursor.old)) }
    {
        let token = cursor.here();
        let pointers = pointers(self.alloc, cursor)?;
        if starts_direct(cursor.rest) {
            let found = self.declarator_from(cursor, token, pointers)?;
            return Ok(ReadParam::Named(found));
        }
        let is_bare = are_bare(pointers.as_slice());
        let count = pointers.len();
        drop(pointers);
        if !is_bare {
            return Err(cursor.unexpected());
        }
        let Ok(count) = u32::try_from(count) else {
            return Err(ParseError::Memory);
        };
        let found = self.unnamed_from(cursor, count)?;
        Ok(ReadParam::Unnamed(found))
    }
}
