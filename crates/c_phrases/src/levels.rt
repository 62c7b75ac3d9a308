//! The rules tied together: each reads what stands one level further in by all of them.

ghost use Rattle.std.specs.Prelude.{◌≡◌};
ghost use Rattle.c_grammar.specs.Reading.{Gives};
ghost use Rattle.c_grammar.specs.Inner.{phrase_of};
ghost use Rattle.c_grammar.specs.Levels.{no_level, readers};
ghost use Rattle.c_grammar.specs.Nests.{Nests, most, state_of, seen};

use crate::grammar::Grammar;
use c_ast::{Abstract, Expr};
use c_grammar::{Cursor, Extent, ParseError, Phrase, ReadDeclarator, ReadParam, ReadSpecs, Wanted};
use sqlite_items::{Boxed, Items};
use std::alloc::Global;

/// A declarator without a name that takes no token.
pub fn nothing_unnamed(alloc: Global) -> Abstract<Boxed<Expr>>
    ensures { result ≡ Rattle.c_grammar.specs.Levels.nothing_unnamed }
{
    Abstract {
        pointers: 0,
        sizes: Items::new(alloc),
    }
}

/// Reads what takes no token, where there is no room.
pub fn without_room(
    alloc: Global,
    cursor: &mut Cursor<'_>,
    wanted: Wanted,
) -> Result<Phrase, ParseError>
    ensures total { cursor.new.total ≡ cursor.old.total }
    ensures reads { Gives (seen cursor.new) result (phrase_of (no_level cursor.old.total) wanted (state_of cursor.old)) }
{
    match wanted {
        Wanted::Unnamed => Ok(Phrase::Unnamed(nothing_unnamed(alloc))),
        Wanted::ParamDeclarator => Ok(Phrase::Param(ReadParam::Unnamed(nothing_unnamed(alloc)))),
        Wanted::Expr(_) | Wanted::Specs | Wanted::Declarator | Wanted::TypeInParens => {
            Err(cursor.too_deep())
        }
    }
}

/// Reads what is wanted at a place with so much room.
#[tactic(auto, unfolding(c_grammar::specs::Levels::readers))]
pub fn phrase(
    alloc: Global,
    cursor: &mut Cursor<'_>,
    room: u8,
    wanted: Wanted,
) -> Result<Phrase, ParseError>
    ensures total { cursor.new.total ≡ cursor.old.total }
    ensures reads { Gives (seen cursor.new) result (phrase_of (readers cursor.old.total most room) wanted (state_of cursor.old)) }
{
    if room == 0 {
        return without_room(alloc, cursor, wanted);
    }
    let grammar = Grammar {
        alloc,
        room: room - 1,
        parse: phrase,
    };
    match wanted {
        Wanted::Expr(extent) => Ok(Phrase::Expr(grammar.expr(cursor, extent)?)),
        Wanted::Specs => Ok(Phrase::Specs(grammar.specs(cursor)?)),
        Wanted::Declarator => Ok(Phrase::Declarator(grammar.declarator(cursor)?)),
        Wanted::Unnamed => Ok(Phrase::Unnamed(grammar.unnamed(cursor)?)),
        Wanted::ParamDeclarator => Ok(Phrase::Param(grammar.param_declarator(cursor)?)),
        Wanted::TypeInParens => Ok(Phrase::TypeInParens(grammar.type_in_parens(cursor)?)),
    }
}

/// Reads an expression at a place with so much room.
pub fn expr(
    alloc: Global,
    cursor: &mut Cursor<'_>,
    room: u8,
    extent: Extent,
) -> Result<Expr, ParseError>
    ensures total { cursor.new.total ≡ cursor.old.total }
    ensures reads { Gives (seen cursor.new) result ((readers cursor.old.total most room).expr extent (state_of cursor.old)) }
{
    match phrase(alloc, cursor, room, Wanted::Expr(extent))? {
        Phrase::Expr(expr) => Ok(expr),
        _ => unreachable!(),
    }
}

/// Reads specifiers at a place with so much room.
pub fn specs(alloc: Global, cursor: &mut Cursor<'_>, room: u8) -> Result<ReadSpecs, ParseError>
    ensures total { cursor.new.total ≡ cursor.old.total }
    ensures reads { Gives (seen cursor.new) result ((readers cursor.old.total most room).specs (state_of cursor.old)) }
{
    match phrase(alloc, cursor, room, Wanted::Specs)? {
        Phrase::Specs(specs) => Ok(specs),
        _ => unreachable!(),
    }
}

/// Reads a declarator at a place with so much room.
pub fn declarator(
    alloc: Global,
    cursor: &mut Cursor<'_>,
    room: u8,
) -> Result<ReadDeclarator, ParseError>
    ensures total { cursor.new.total ≡ cursor.old.total }
    ensures reads { Gives (seen cursor.new) result ((readers cursor.old.total most room).declarator (state_of cursor.old)) }
{
    match phrase(alloc, cursor, room, Wanted::Declarator)? {
        Phrase::Declarator(declarator) => Ok(declarator),
        _ => unreachable!(),
    }
}
