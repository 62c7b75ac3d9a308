//! Parameters, and the suffixes of declarators (C11, 6.7.6).

ghost use Rattle.std.specs.Prelude.{◌≡◌, [], Ok, length};
ghost use Rattle.c_ast.specs.declared.declaration.Param.TheVariants as param;
ghost use Rattle.c_grammar.specs.Reading.{Gives};
ghost use Rattle.c_grammar.specs.ReadingDecl.{with_declared, parameter, parameters, function, suffixes};
ghost use Rattle.c_grammar.specs.Levels.{readers};
ghost use Rattle.c_grammar.specs.Nests.{Nests, most, state_of, seen};

use crate::grammar::Grammar;
use crate::structures::boxed_specs;
use c_ast::{DirectSuffix, Param, Specifier, Specs};
use c_grammar::{
    Cursor, OwnNames, ParseError, Phrase, ReadDeclarator, ReadParam, Scope, Wanted, sees_keyword,
    sees_mark, tail,
};
use c_lex::{Keyword, Mark};
use sqlite_items::{Boxed, Items};
use std::alloc::Global;

/// A parameter with a name, which is declared.
fn named(
    alloc: Global,
    cursor: &mut Cursor<'_>,
    specs: Specs<Boxed<Specifier>>,
    found: ReadDeclarator,
) -> Result<Param, ParseError>
    ensures total { cursor.new.total ≡ cursor.old.total }
    ensures reads { Gives (seen cursor.new) result (Ok (param.Named specs found.tree, with_declared found.name (state_of cursor.old))) }
{
    let ReadDeclarator { tree, name, own } = found;
    drop(own);
    let declarator = match Boxed::new(alloc, tree) {
        Ok(declarator) => declarator,
        Err(_) => {
            drop(specs);
            drop(name);
            return Err(ParseError::Memory);
        }
    };
    match cursor.names.declare(name, false) {
        Ok(()) => Ok(Param::Named { specs, declarator }),
        Err(_) => {
            drop(specs);
            drop(declarator);
            Err(ParseError::Memory)
        }
    }
}

impl<F: Fn(Global, &mut Cursor<'_>, u8, Wanted) -> Result<Phrase, ParseError>> Grammar<F> {
    /// Reads a parameter, and declares its name.
    #[tactic(auto, unfolding(c_grammar::specs::ReadingDecl::parameter))]
    fn parameter(&self, cursor: &mut Cursor<'_>) -> Result<Param, ParseError>
        requires { Nests self.now.room (F.pre self.now.parse) (F.post self.now.parse) }
        ensures total { cursor.new.total ≡ cursor.old.total }
        ensures reads { Gives (seen cursor.new) result (parameter cursor.old.total (readers cursor.old.total most self.now.room) (state_of cursor.old)) }
    {
        let found = self.inner_specs(cursor)?;
        let specs = boxed_specs(self.alloc, found.specs)?;
        match self.inner_param(cursor) {
            Ok(ReadParam::Named(found)) => named(self.alloc, cursor, specs, found),
            Ok(ReadParam::Unnamed(declarator)) => Ok(Param::Unnamed { specs, declarator }),
            Err(e) => {
                drop(specs);
                Err(e)
            }
        }
    }

    /// Reads parameters, so many at most, and the bracket that closes them.
    #[tactic(auto, unfolding(c_grammar::specs::ReadingDecl::parameters))]
    fn parameters(&self, cursor: &mut Cursor<'_>, limit: usize) -> Result<Items<Param>, ParseError>
        requires { Nests self.now.room (F.pre self.now.parse) (F.post self.now.parse) }
        ensures total { cursor.new.total ≡ cursor.old.total }
        ensures reads { Gives (seen cursor.new) result
            (parameters cursor.old.total (readers cursor.old.total most self.now.room) limit [] (state_of cursor.old)) }
    {
        let mut all = Items::new(self.alloc);
        let mut count = limit;
        'parameters: while count > 0 {
            count -= 1;
            let parameter = self.parameter(cursor)?;
            all.push(parameter)?;
            if !cursor.sees_mark(Mark::Comma) {
                cursor.expect_mark(Mark::CloseParen)?;
                return Ok(all);
            }
            cursor.skip();
        }
        Err(cursor.unexpected())
    }

    /// Reads the parentheses behind a function's name. The parameters are a scope.
    #[tactic(auto, unfolding(c_grammar::specs::ReadingDecl::function))]
    fn function(
        &self,
        cursor: &mut Cursor<'_>,
        own: OwnNames,
    ) -> Result<(DirectSuffix, OwnNames), ParseError>
        requires { Nests self.now.room (F.pre self.now.parse) (F.post self.now.parse) }
        ensures total { cursor.new.total ≡ cursor.old.total }
        ensures reads { Gives (seen cursor.new) result
            (function cursor.old.total self.now.room (readers cursor.old.total most self.now.room) own (state_of cursor.old)) }
    {
        let at = cursor.here();
        let limit = cursor.rest.len();
        cursor.skip();
        if cursor.sees_mark(Mark::CloseParen) {
            cursor.skip();
            let own = own.settled(Scope::new(self.alloc));
            return Ok((DirectSuffix::Empty { at }, own));
        }
        if cursor.sees_keyword(Keyword::Void) && sees_mark(Mark::CloseParen, tail(cursor.rest)) {
            if self.room == 0 {
                drop(own);
                return Err(cursor.too_deep());
            }
            cursor.skip();
            cursor.skip();
            let own = own.settled(Scope::new(self.alloc));
            return Ok((DirectSuffix::Void { at }, own));
        }
        let before = cursor.names.len();
        let params = match self.parameters(cursor, limit) {
            Ok(params) => params,
            Err(e) => {
                drop(own);
                return Err(e);
            }
        };
        // names are only added, so there are no fewer than before
        let before = before.min(cursor.names.len());
        match cursor.names.close(before) {
            Ok(added) => Ok((DirectSuffix::Params { at, params }, own.settled(added))),
            Err(_) => {
                drop(params);
                drop(own);
                Err(ParseError::Memory)
            }
        }
    }

    /// Reads the suffixes of a declarator that come next.
    #[tactic(auto, unfolding(c_grammar::specs::ReadingDecl::suffixes))]
    pub fn suffixes(
        &self,
        cursor: &mut Cursor<'_>,
        own: OwnNames,
    ) -> Result<(Items<DirectSuffix>, OwnNames), ParseError>
        requires { Nests self.now.room (F.pre self.now.parse) (F.post self.now.parse) }
        ensures total { cursor.new.total ≡ cursor.old.total }
        ensures reads { Gives (seen cursor.new) result
            (suffixes cursor.old.total self.now.room (readers cursor.old.total most self.now.room) (length cursor.old.rest.now) own [] (state_of cursor.old)) }
    {
        let mut all = Items::new(self.alloc);
        let mut own = own;
        let mut count = cursor.rest.len();
        'suffixes: while count > 0 {
            count -= 1;
            let at = cursor.here();
            if cursor.sees_mark(Mark::OpenBracket) {
                let size = self.size(cursor)?;
                own = own.settled(Scope::new(self.alloc));
                all.push(DirectSuffix::Array { at, size })?;
                continue 'suffixes;
            }
            if !cursor.sees_mark(Mark::OpenParen) {
                return Ok((all, own));
            }
            let (suffix, settled) = self.function(cursor, own)?;
            own = settled;
            all.push(suffix)?;
        }
        Ok((all, own))
    }
}
