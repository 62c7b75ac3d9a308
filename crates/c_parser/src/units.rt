//! Functions, declarations outside of them, and units.

ghost use Rattle.std.specs.Prelude.{◌≡◌, ◌<◌, [], ◌++◌, Ok, length, IfOk};
ghost use Rattle.c_grammar.specs.Names.{declared};
ghost use Rattle.c_grammar.specs.Owns.{own_names};
ghost use Rattle.c_grammar.specs.Reading.{Gives, tail};
ghost use Rattle.c_grammar.specs.Nests.{most, state_of, seen};
ghost use Rattle.c_grammar.specs.ReadingStmt.{left_to, function, external_behind, external, is_end, externals, unit};

use crate::statements::block_items;
use am_base::Bytes;
use c_ast::{External, Unit};
use c_grammar::{Cursor, OwnNames, ParseError, ReadDeclarator, ReadSpecs, Scope};
use c_lex::{Mark, Token};
use c_phrases::{bare, decl_from, declarator, leave, specs};
use sqlite_items::Items;
use std::alloc::Global;

/// Declares the name of a function, and goes behind the brace that opens its body, with its parameters in scope. The result is how
/// many names there are without them.
fn opened(
    alloc: Global,
    cursor: &mut Cursor<'_>,
    name: Bytes,
    own: OwnNames,
    is_typedef: bool,
) -> Result<usize, ParseError>
    ensures total { cursor.new.total ≡ cursor.old.total }
    ensures reads { Gives (λ _. state_of cursor.new) result (Ok (record { names = own_names own ++ declared cursor.old.names name is_typedef; rest = tail cursor.old.rest.now })) }
    ensures outer { IfOk result (λ outer. outer ≡ length (declared cursor.old.names name is_typedef)) }
{
    match cursor.names.declare(name, is_typedef) {
        Ok(()) => {}
        Err(_) => {
            drop(own);
            return Err(ParseError::Memory);
        }
    }
    let outer = cursor.names.len();
    cursor.names.reopen(own.into_names(alloc))?;
    cursor.skip();
    Ok(outer)
}

/// A function whose names, behind so many before it, are out of scope behind it.
fn left(cursor: &mut Cursor<'_>, outer: usize, external: External) -> Result<External, ParseError>
    ensures total { cursor.new.total ≡ cursor.old.total }
    ensures reads { Gives (λ _. state_of cursor.new) result (Ok (left_to outer (state_of cursor.old))) }
    ensures same { IfOk result (λ found. found ≡ external) }
{
    match leave(cursor, outer) {
        Ok(()) => Ok(external),
        Err(e) => {
            drop(external);
            Err(e)
        }
    }
}

/// Reads the body of a function: its parameters and its outermost block are one scope (C11, 6.2.1).
#[tactic(auto, unfolding(c_grammar::specs::ReadingStmt::function))]
fn function(
    alloc: Global,
    cursor: &mut Cursor<'_>,
    token: u32,
    specs: ReadSpecs,
    declarator: ReadDeclarator,
    limit: u8,
) -> Result<External, ParseError>
    ensures total { cursor.new.total ≡ cursor.old.total }
    ensures reads { Gives (seen cursor.new) result
        (function cursor.old.total most limit token specs declarator (state_of cursor.old)) }
{
    let ReadSpecs { specs, is_typedef } = specs;
    let ReadDeclarator { tree, name, own } = declarator;
    let outer = match opened(alloc, cursor, name, own, is_typedef) {
        Ok(outer) => outer,
        Err(e) => {
            drop(specs);
            drop(tree);
            return Err(e);
        }
    };
    match block_items(alloc, cursor, limit) {
        Ok(body) => {
            let external = External::Function {
                token,
                specs,
                declarator: tree,
                body,
            };
            left(cursor, outer, external)
        }
        Err(e) => {
            drop(specs);
            drop(tree);
            Err(e)
        }
    }
}

/// Reads a declaration outside all functions on from behind its specifiers.
#[tactic(auto, unfolding(c_grammar::specs::ReadingStmt::external_behind))]
fn external_behind(
    alloc: Global,
    cursor: &mut Cursor<'_>,
    token: u32,
    specs: ReadSpecs,
    limit: u8,
) -> Result<External, ParseError>
    requires { limit < 255 }
    ensures total { cursor.new.total ≡ cursor.old.total }
    ensures reads { Gives (seen cursor.new) result
        (external_behind cursor.old.total most limit token specs (state_of cursor.old)) }
{
    if cursor.sees_mark(Mark::Semicolon) {
        cursor.skip();
        let ReadSpecs { specs, .. } = specs;
        return Ok(External::Declaration(bare(alloc, token, specs)));
    }
    let declarator = match declarator(alloc, cursor, limit + 1) {
        Ok(declarator) => declarator,
        Err(e) => {
            drop(specs);
            return Err(e);
        }
    };
    if cursor.sees_mark(Mark::OpenBrace) {
        return function(alloc, cursor, token, specs, declarator, limit);
    }
    let declaration = decl_from(alloc, cursor, limit + 1, token, specs, declarator)?;
    Ok(External::Declaration(declaration))
}

/// Reads a declaration outside all functions, or a function (C11, 6.9).
#[tactic(auto, unfolding(c_grammar::specs::ReadingStmt::external))]
fn external(alloc: Global, cursor: &mut Cursor<'_>, limit: u8) -> Result<External, ParseError>
    requires { limit < 255 }
    ensures total { cursor.new.total ≡ cursor.old.total }
    ensures reads { Gives (seen cursor.new) result (external cursor.old.total most limit (state_of cursor.old)) }
{
    let token = cursor.here();
    let specs = specs(alloc, cursor, limit + 1)?;
    external_behind(alloc, cursor, token, specs, limit)
}

/// Whether no token is left.
fn is_end(tokens: &[Token]) -> bool
    ensures { result ≡ is_end tokens.now }
{
    matches!(tokens, [])
}

/// Reads all there is.
#[tactic(auto, unfolding(c_grammar::specs::ReadingStmt::externals))]
fn externals(
    alloc: Global,
    cursor: &mut Cursor<'_>,
    limit: u8,
) -> Result<Items<External>, ParseError>
    requires { limit < 255 }
    ensures { Gives (λ all. all) result
        (externals cursor.old.total most limit (length cursor.old.rest.now) [] (state_of cursor.old)) }
{
    let mut all = Items::new(alloc);
    let mut count = cursor.rest.len();
    'externals: while count > 0 {
        count -= 1;
        if is_end(cursor.rest) {
            return Ok(all);
        }
        let one = external(alloc, cursor, limit)?;
        all.push(one)?;
    }
    if is_end(cursor.rest) {
        return Ok(all);
    }
    Err(cursor.unexpected())
}

/// Reads a unit of so many tokens, which nest no deeper than the limit.
#[tactic(auto, unfolding(c_grammar::specs::ReadingStmt::unit))]
pub fn unit(alloc: Global, total: u32, tokens: &[Token], limit: u8) -> Result<Unit, ParseError>
    requires all { total ≡ length tokens.now }
    requires limit { limit < 255 }
    ensures { Gives (λ u. u) result (unit most limit tokens.now) }
{
    let mut cursor = Cursor {
        total,
        rest: tokens,
        names: Scope::new(alloc),
    };
    let found = externals(alloc, &mut cursor, limit);
    drop(cursor);
    match found {
        Ok(externals) => Ok(Unit { externals }),
        Err(e) => Err(e),
    }
}
