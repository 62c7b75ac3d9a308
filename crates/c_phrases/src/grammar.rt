//! The rules take the parser of what stands one level further in as a parameter, so that each is proved by itself.

ghost use Rattle.std.specs.Prelude.{◌≡◌};
ghost use Rattle.c_grammar.specs.Reading.{Gives};
ghost use Rattle.c_grammar.specs.Levels.{readers};
ghost use Rattle.c_grammar.specs.Nests.{Nests, most, state_of, seen};

use c_ast::{Abstract, Expr, TypeName};
use c_grammar::{Cursor, Extent, ParseError, Phrase, ReadDeclarator, ReadParam, ReadSpecs, Wanted};
use sqlite_items::Boxed;
use std::alloc::Global;

/// The rules at a place with so much room one level further in.
#[derive(Clone, Copy)]
pub struct Grammar<F> {
    pub alloc: Global,
    pub room: u8,
    pub parse: F,
}

impl<F: Fn(Global, &mut Cursor<'_>, u8, Wanted) -> Result<Phrase, ParseError>> Grammar<F> {
    /// Reads an expression one level further in.
    pub fn inner_expr(&self, cursor: &mut Cursor<'_>, extent: Extent) -> Result<Expr, ParseError>
        requires { Nests self.now.room (F.pre self.now.parse) (F.post self.now.parse) }
        ensures total { cursor.new.total ≡ cursor.old.total }
        ensures reads { Gives (seen cursor.new) result ((readers cursor.old.total most self.now.room).expr extent (state_of cursor.old)) }
    {
        match (self.parse)(self.alloc, cursor, self.room, Wanted::Expr(extent))? {
            Phrase::Expr(expr) => Ok(expr),
            _ => unreachable!(),
        }
    }

    /// The same, in a box.
    pub fn boxed_expr(
        &self,
        cursor: &mut Cursor<'_>,
        extent: Extent,
    ) -> Result<Boxed<Expr>, ParseError>
        requires { Nests self.now.room (F.pre self.now.parse) (F.post self.now.parse) }
        ensures total { cursor.new.total ≡ cursor.old.total }
        ensures reads { Gives (seen cursor.new) result ((readers cursor.old.total most self.now.room).expr extent (state_of cursor.old)) }
    {
        let expr = self.inner_expr(cursor, extent)?;
        Ok(Boxed::new(self.alloc, expr)?)
    }

    /// Reads specifiers one level further in.
    pub fn inner_specs(&self, cursor: &mut Cursor<'_>) -> Result<ReadSpecs, ParseError>
        requires { Nests self.now.room (F.pre self.now.parse) (F.post self.now.parse) }
        ensures total { cursor.new.total ≡ cursor.old.total }
        ensures reads { Gives (seen cursor.new) result ((readers cursor.old.total most self.now.room).specs (state_of cursor.old)) }
    {
        match (self.parse)(self.alloc, cursor, self.room, Wanted::Specs)? {
            Phrase::Specs(found) => Ok(found),
            _ => unreachable!(),
        }
    }

    /// Reads a declarator one level further in.
    pub fn inner_declarator(&self, cursor: &mut Cursor<'_>) -> Result<ReadDeclarator, ParseError>
        requires { Nests self.now.room (F.pre self.now.parse) (F.post self.now.parse) }
        ensures total { cursor.new.total ≡ cursor.old.total }
        ensures reads { Gives (seen cursor.new) result ((readers cursor.old.total most self.now.room).declarator (state_of cursor.old)) }
    {
        match (self.parse)(self.alloc, cursor, self.room, Wanted::Declarator)? {
            Phrase::Declarator(found) => Ok(found),
            _ => unreachable!(),
        }
    }

    /// Reads a declarator without a name one level further in.
    pub fn inner_unnamed(
        &self,
        cursor: &mut Cursor<'_>,
    ) -> Result<Abstract<Boxed<Expr>>, ParseError>
        requires { Nests self.now.room (F.pre self.now.parse) (F.post self.now.parse) }
        ensures total { cursor.new.total ≡ cursor.old.total }
        ensures reads { Gives (seen cursor.new) result ((readers cursor.old.total most self.now.room).unnamed (state_of cursor.old)) }
    {
        match (self.parse)(self.alloc, cursor, self.room, Wanted::Unnamed)? {
            Phrase::Unnamed(found) => Ok(found),
            _ => unreachable!(),
        }
    }

    /// Reads what stands behind the specifiers of a parameter one level further in.
    pub fn inner_param(&self, cursor: &mut Cursor<'_>) -> Result<ReadParam, ParseError>
        requires { Nests self.now.room (F.pre self.now.parse) (F.post self.now.parse) }
        ensures total { cursor.new.total ≡ cursor.old.total }
        ensures reads { Gives (seen cursor.new) result ((readers cursor.old.total most self.now.room).param (state_of cursor.old)) }
    {
        match (self.parse)(self.alloc, cursor, self.room, Wanted::ParamDeclarator)? {
            Phrase::Param(found) => Ok(found),
            _ => unreachable!(),
        }
    }

    /// Reads a type name in parentheses one level further in.
    pub fn inner_type_in_parens(&self, cursor: &mut Cursor<'_>) -> Result<TypeName, ParseError>
        requires { Nests self.now.room (F.pre self.now.parse) (F.post self.now.parse) }
        ensures total { cursor.new.total ≡ cursor.old.total }
        ensures reads { Gives (seen cursor.new) result ((readers cursor.old.total most self.now.room).type_in_parens (state_of cursor.old)) }
    {
        match (self.parse)(self.alloc, cursor, self.room, Wanted::TypeInParens)? {
            Phrase::TypeInParens(found) => Ok(found),
            _ => unreachable!(),
        }
    }
}
