//! Initialisers, and declarations with them.

ghost use Rattle.std.specs.Prelude.{◌≡◌, Ok, [], length};
ghost use Rattle.c_grammar.specs.Reading.{Gives};
ghost use Rattle.c_grammar.specs.Nests.{most, state_of, seen};
ghost use Rattle.c_grammar.specs.ReadingStmt.{left_to, inits_go_on, inits_end, more_inits, inits, init, initialised, init_declarator, more_declared, all_declared, decl_from, decl_behind, decl};

use crate::levels::{declarator, expr, specs};
use c_ast::{Decl, Init, InitDeclarator, Specifier, Specs};
use c_grammar::{Cursor, Extent, ParseError, ReadDeclarator, ReadSpecs, sees_mark, tail};
use c_lex::{Mark, Token};
use sqlite_items::Items;
use std::alloc::Global;

/// Takes the names behind the first `len` ones out of scope.
#[tactic(auto, unfolding(c_grammar::specs::ReadingStmt::left_to))]
pub fn leave(cursor: &mut Cursor<'_>, len: usize) -> Result<(), ParseError>
    ensures total { cursor.new.total ≡ cursor.old.total }
    ensures reads { Gives (λ _. state_of cursor.new) result (Ok (left_to len (state_of cursor.old))) }
{
    if cursor.names.len() > len {
        let inner = cursor.names.close(len)?;
        drop(inner);
    }
    Ok(())
}

/// Whether a comma comes next, and behind it no brace that closes the list.
fn inits_go_on(tokens: &[Token]) -> bool
    ensures { result ≡ inits_go_on tokens.now }
{
    sees_mark(Mark::Comma, tokens) && !sees_mark(Mark::CloseBrace, tail(tokens))
}

/// Takes the brace that closes the list, and a comma before it.
#[tactic(auto, unfolding(c_grammar::specs::ReadingStmt::inits_end))]
fn inits_end(cursor: &mut Cursor<'_>, items: Items<Init>) -> Result<Items<Init>, ParseError>
    ensures total { cursor.new.total ≡ cursor.old.total }
    ensures reads { Gives (seen cursor.new) result (inits_end cursor.old.total items (state_of cursor.old)) }
{
    if cursor.sees_mark(Mark::Comma) {
        cursor.skip();
    }
    match cursor.expect_mark(Mark::CloseBrace) {
        Ok(()) => Ok(items),
        Err(e) => {
            drop(items);
            Err(e)
        }
    }
}

/// Reads the other initialisers of a list, and the brace that closes it.
#[cycle(inits)]
#[tactic(auto, unfolding(c_grammar::specs::ReadingStmt::more_inits))]
fn more_inits(
    alloc: Global,
    cursor: &mut Cursor<'_>,
    room: u8,
    items: Items<Init>,
) -> Result<Items<Init>, ParseError>
    ensures total { cursor.new.total ≡ cursor.old.total }
    ensures reads { Gives (seen cursor.new) result
        (more_inits cursor.old.total (init cursor.old.total most room) (length cursor.old.rest.now) items (state_of cursor.old)) }
{
    let mut items = items;
    let mut count = cursor.rest.len();
    'inits: while count > 0 {
        count -= 1;
        if !inits_go_on(cursor.rest) {
            return inits_end(cursor, items);
        }
        cursor.skip();
        let item = init(alloc, cursor, room)?;
        items.push(item)?;
    }
    Err(cursor.unexpected())
}

/// Reads what stands behind the brace that opens a list.
#[cycle(inits)]
#[tactic(auto, unfolding(c_grammar::specs::ReadingStmt::inits))]
fn inits(alloc: Global, cursor: &mut Cursor<'_>, room: u8) -> Result<Items<Init>, ParseError>
    ensures total { cursor.new.total ≡ cursor.old.total }
    ensures reads { Gives (seen cursor.new) result
        (inits cursor.old.total (init cursor.old.total most room) (state_of cursor.old)) }
{
    let first = init(alloc, cursor, room)?;
    let mut items = Items::new(alloc);
    match items.push(first) {
        Ok(()) => more_inits(alloc, cursor, room, items),
        Err(_) => {
            drop(items);
            Err(ParseError::Memory)
        }
    }
}

/// Reads an initialiser (C11, 6.7.9).
#[cycle(inits)]
#[tactic(auto, unfolding(c_grammar::specs::ReadingStmt::init))]
fn init(alloc: Global, cursor: &mut Cursor<'_>, room: u8) -> Result<Init, ParseError>
    ensures total { cursor.new.total ≡ cursor.old.total }
    ensures reads { Gives (seen cursor.new) result (init cursor.old.total most room (state_of cursor.old)) }
{
    if room == 0 {
        return Err(cursor.too_deep());
    }
    if !cursor.sees_mark(Mark::OpenBrace) {
        let value = expr(alloc, cursor, room, Extent::Assign)?;
        return Ok(Init::Value(value));
    }
    let token = cursor.here();
    cursor.skip();
    let items = inits(alloc, cursor, room - 1)?;
    Ok(Init::List { token, items })
}

/// Declares the name of a declarator, and reads its initialiser, if there is one: the name is in scope there (C11, 6.2.1).
#[tactic(auto, unfolding(c_grammar::specs::ReadingStmt::initialised))]
fn initialised(
    alloc: Global,
    cursor: &mut Cursor<'_>,
    room: u8,
    is_typedef: bool,
    declarator: ReadDeclarator,
) -> Result<InitDeclarator, ParseError>
    ensures total { cursor.new.total ≡ cursor.old.total }
    ensures reads { Gives (seen cursor.new) result
        (initialised cursor.old.total most room is_typedef declarator (state_of cursor.old)) }
{
    let ReadDeclarator { tree, name, own } = declarator;
    drop(own);
    match cursor.names.declare(name, is_typedef) {
        Ok(()) => {}
        Err(_) => {
            drop(tree);
            return Err(ParseError::Memory);
        }
    }
    if !cursor.sees_mark(Mark::Assign) {
        return Ok(InitDeclarator {
            declarator: tree,
            init: None,
        });
    }
    cursor.skip();
    match init(alloc, cursor, room) {
        Ok(init) => Ok(InitDeclarator {
            declarator: tree,
            init: Some(init),
        }),
        Err(e) => {
            drop(tree);
            Err(e)
        }
    }
}

/// Reads a declarator and its initialiser, if there is one.
#[tactic(auto, unfolding(c_grammar::specs::ReadingStmt::init_declarator))]
fn init_declarator(
    alloc: Global,
    cursor: &mut Cursor<'_>,
    room: u8,
    is_typedef: bool,
) -> Result<InitDeclarator, ParseError>
    ensures total { cursor.new.total ≡ cursor.old.total }
    ensures reads { Gives (seen cursor.new) result
        (init_declarator cursor.old.total most room is_typedef (state_of cursor.old)) }
{
    let declarator = declarator(alloc, cursor, room)?;
    initialised(alloc, cursor, room, is_typedef, declarator)
}

/// Reads the other declarators, and the semicolon.
#[tactic(auto, unfolding(c_grammar::specs::ReadingStmt::more_declared))]
fn more_declared(
    alloc: Global,
    cursor: &mut Cursor<'_>,
    room: u8,
    is_typedef: bool,
    declared: Items<InitDeclarator>,
) -> Result<Items<InitDeclarator>, ParseError>
    ensures total { cursor.new.total ≡ cursor.old.total }
    ensures reads { Gives (seen cursor.new) result
        (more_declared cursor.old.total most room is_typedef (length cursor.old.rest.now) declared (state_of cursor.old)) }
{
    let mut declared = declared;
    let mut count = cursor.rest.len();
    'declared: while count > 0 {
        count -= 1;
        if !cursor.sees_mark(Mark::Comma) {
            cursor.expect_mark(Mark::Semicolon)?;
            return Ok(declared);
        }
        cursor.skip();
        let one = init_declarator(alloc, cursor, room, is_typedef)?;
        declared.push(one)?;
    }
    Err(cursor.unexpected())
}

/// Reads what stands behind the first declarator.
#[tactic(auto, unfolding(c_grammar::specs::ReadingStmt::all_declared))]
fn all_declared(
    alloc: Global,
    cursor: &mut Cursor<'_>,
    room: u8,
    is_typedef: bool,
    declarator: ReadDeclarator,
) -> Result<Items<InitDeclarator>, ParseError>
    ensures total { cursor.new.total ≡ cursor.old.total }
    ensures reads { Gives (seen cursor.new) result
        (all_declared cursor.old.total most room is_typedef declarator (state_of cursor.old)) }
{
    let first = initialised(alloc, cursor, room, is_typedef, declarator)?;
    let mut declared = Items::new(alloc);
    match declared.push(first) {
        Ok(()) => more_declared(alloc, cursor, room, is_typedef, declared),
        Err(_) => {
            drop(declared);
            Err(ParseError::Memory)
        }
    }
}

/// Reads a declaration on from behind its first declarator.
#[tactic(auto, unfolding(c_grammar::specs::ReadingStmt::decl_from))]
pub fn decl_from(
    alloc: Global,
    cursor: &mut Cursor<'_>,
    room: u8,
    token: u32,
    specs: ReadSpecs,
    declarator: ReadDeclarator,
) -> Result<Decl, ParseError>
    ensures total { cursor.new.total ≡ cursor.old.total }
    ensures reads { Gives (seen cursor.new) result
        (decl_from cursor.old.total most room token specs declarator (state_of cursor.old)) }
{
    let ReadSpecs { specs, is_typedef } = specs;
    match all_declared(alloc, cursor, room, is_typedef, declarator) {
        Ok(declared) => Ok(Decl {
            token,
            specs,
            declared,
        }),
        Err(e) => {
            drop(specs);
            Err(e)
        }
    }
}

/// A declaration that is specifiers alone.
pub fn bare(alloc: Global, token: u32, specs: Specs<Specifier>) -> Decl
    ensures { result ≡ record { token = token; specs = specs; declared = [] } }
{
    Decl {
        token,
        specs,
        declared: Items::new(alloc),
    }
}

/// Reads a declaration on from behind its specifiers.
#[tactic(auto, unfolding(c_grammar::specs::ReadingStmt::decl_behind))]
fn decl_behind(
    alloc: Global,
    cursor: &mut Cursor<'_>,
    room: u8,
    token: u32,
    specs: ReadSpecs,
) -> Result<Decl, ParseError>
    ensures total { cursor.new.total ≡ cursor.old.total }
    ensures reads { Gives (seen cursor.new) result
        (decl_behind cursor.old.total most room token specs (state_of cursor.old)) }
{
    if cursor.sees_mark(Mark::Semicolon) {
        cursor.skip();
        let ReadSpecs { specs, .. } = specs;
        return Ok(bare(alloc, token, specs));
    }
    match declarator(alloc, cursor, room) {
        Ok(declarator) => decl_from(alloc, cursor, room, token, specs, declarator),
        Err(e) => {
            drop(specs);
            Err(e)
        }
    }
}

/// Reads a declaration (C11, 6.7).
#[tactic(auto, unfolding(c_grammar::specs::ReadingStmt::decl))]
pub fn decl(alloc: Global, cursor: &mut Cursor<'_>, room: u8) -> Result<Decl, ParseError>
    ensures total { cursor.new.total ≡ cursor.old.total }
    ensures reads { Gives (seen cursor.new) result (decl cursor.old.total most room (state_of cursor.old)) }
{
    let token = cursor.here();
    let specs = specs(alloc, cursor, room)?;
    decl_behind(alloc, cursor, room, token, specs)
}
