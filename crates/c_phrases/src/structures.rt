//! Structures and enumerations.

ghost use Rattle.std.specs.Prelude.{◌≡◌, [], Ok, length, IfOk};
ghost use Rattle.c_grammar.specs.Reading.{Gives};
ghost use Rattle.c_grammar.specs.ReadingDecl.{members_declared, member, members, struct_body, struct_spec, with_declared, enumerator, enumerators, enum_body, enum_spec};
ghost use Rattle.c_grammar.specs.Levels.{readers};
ghost use Rattle.c_grammar.specs.Nests.{Nests, most, state_of, seen};

use crate::grammar::Grammar;
use am_base::Bytes;
use c_ast::{Declarator, EnumSpec, Enumerator, Expr, Member, Name, Specifier, Specs, StructSpec};
use c_grammar::{Cursor, Extent, ParseError, Phrase, ReadDeclarator, Wanted, name_at_front};
use c_lex::Mark;
use sqlite_items::{Boxed, Items};
use std::alloc::{AllocError, Global};

/// Declares a name that stands for no type.
fn declare(alloc: Global, cursor: &mut Cursor<'_>, name: &Name) -> Result<(), ParseError>
    ensures total { cursor.new.total ≡ cursor.old.total }
    ensures reads { Gives (λ _. state_of cursor.new) result (Ok (with_declared name.now.text (state_of cursor.old))) }
{
    let bytes = Bytes::from_slice(alloc, name.text.as_slice())?;
    cursor.names.declare(bytes, false)?;
    Ok(())
}

/// An enumerator, which is declared.
fn declared(
    alloc: Global,
    cursor: &mut Cursor<'_>,
    name: Name,
    value: Option<Boxed<Expr>>,
) -> Result<Enumerator<Boxed<Expr>>, ParseError>
    ensures total { cursor.new.total ≡ cursor.old.total }
    ensures reads { Gives (λ _. state_of cursor.new) result (Ok (with_declared name.text (state_of cursor.old))) }
    ensures same { IfOk result (λ found. found ≡ record { name = name; value = value }) }
{
    match declare(alloc, cursor, &name) {
        Ok(()) => Ok(Enumerator { name, value }),
        Err(e) => {
            drop(name);
            drop(value);
            Err(e)
        }
    }
}

/// The same specifiers, each in a box of its own.
pub fn boxed_specs(
    alloc: Global,
    specs: Specs<Specifier>,
) -> Result<Specs<Boxed<Specifier>>, AllocError>
    ensures { IfOk result (λ boxed. boxed ≡ specs) }
{
    let Specs { token, specifiers } = specs;
    let mut rest = specifiers;
    let mut back = Items::new(alloc);
    'boxes: while let Some(last) = rest.pop() {
        back.push(Boxed::new(alloc, last)?)?;
    }
    let mut all = Items::new(alloc);
    'turns: while let Some(first) = back.pop() {
        all.push(first)?;
    }
    Ok(Specs {
        token,
        specifiers: all,
    })
}

impl<F: Fn(Global, &mut Cursor<'_>, u8, Wanted) -> Result<Phrase, ParseError>> Grammar<F> {
    /// Reads the declarators of a member, and the semicolon.
    #[tactic(auto, unfolding(c_grammar::specs::ReadingDecl::members_declared))]
    fn members_declared(&self, cursor: &mut Cursor<'_>) -> Result<Items<Declarator>, ParseError>
        requires { Nests self.now.room (F.pre self.now.parse) (F.post self.now.parse) }
        ensures total { cursor.new.total ≡ cursor.old.total }
        ensures reads { Gives (seen cursor.new) result (members_declared cursor.old.total (readers cursor.old.total most self.now.room) (length cursor.old.rest.now) [] (state_of cursor.old)) }
    {
        let mut all = Items::new(self.alloc);
        let mut count = cursor.rest.len();
        'declarators: while count > 0 {
            count -= 1;
            let ReadDeclarator { tree, name, own } = self.inner_declarator(cursor)?;
            drop(name);
            drop(own);
            all.push(tree)?;
            if !cursor.sees_mark(Mark::Comma) {
                cursor.expect_mark(Mark::Semicolon)?;
                return Ok(all);
            }
            cursor.skip();
        }
        Err(cursor.unexpected())
    }

    /// Reads a member of a structure.
    #[tactic(auto, unfolding(c_grammar::specs::ReadingDecl::member))]
    fn member(&self, cursor: &mut Cursor<'_>) -> Result<Member, ParseError>
        requires { Nests self.now.room (F.pre self.now.parse) (F.post self.now.parse) }
        ensures total { cursor.new.total ≡ cursor.old.total }
        ensures reads { Gives (seen cursor.new) result (member cursor.old.total (readers cursor.old.total most self.now.room) (state_of cursor.old)) }
    {
        let found = self.inner_specs(cursor)?;
        let specs = boxed_specs(self.alloc, found.specs)?;
        match self.members_declared(cursor) {
            Ok(declarators) => Ok(Member { specs, declarators }),
            Err(e) => {
                drop(specs);
                Err(e)
            }
        }
    }

    /// Reads members, and the brace that closes them.
    #[tactic(auto, unfolding(c_grammar::specs::ReadingDecl::members))]
    fn members(&self, cursor: &mut Cursor<'_>) -> Result<Items<Boxed<Member>>, ParseError>
        requires { Nests self.now.room (F.pre self.now.parse) (F.post self.now.parse) }
        ensures total { cursor.new.total ≡ cursor.old.total }
        ensures reads { Gives (seen cursor.new) result (members cursor.old.total (readers cursor.old.total most self.now.room) (length cursor.old.rest.now) [] (state_of cursor.old)) }
    {
        let mut all = Items::new(self.alloc);
        let mut count = cursor.rest.len();
        'members: while count > 0 {
            count -= 1;
            let member = self.member(cursor)?;
            all.push(Boxed::new(self.alloc, member)?)?;
            if cursor.sees_mark(Mark::CloseBrace) {
                cursor.skip();
                return Ok(all);
            }
        }
        // the end of the tokens, which may be nested too deeply
        drop(all);
        let more = self.member(cursor)?;
        drop(more);
        Err(cursor.unexpected())
    }

    /// Reads the braces of a structure.
    #[tactic(auto, unfolding(c_grammar::specs::ReadingDecl::struct_body))]
    fn struct_body(
        &self,
        cursor: &mut Cursor<'_>,
        token: u32,
        name: Option<Name>,
    ) -> Result<StructSpec<Boxed<Member>>, ParseError>
        requires { Nests self.now.room (F.pre self.now.parse) (F.post self.now.parse) }
        ensures total { cursor.new.total ≡ cursor.old.total }
        ensures reads { Gives (seen cursor.new) result (struct_body cursor.old.total (readers cursor.old.total most self.now.room) token name (state_of cursor.old)) }
    {
        match cursor.expect_mark(Mark::OpenBrace) {
            Ok(()) => {}
            Err(e) => {
                drop(name);
                return Err(e);
            }
        }
        match self.members(cursor) {
            Ok(members) => Ok(StructSpec::Body {
                token,
                name,
                members,
            }),
            Err(e) => {
                drop(name);
                Err(e)
            }
        }
    }

    /// Reads `struct` and what is behind it (C11, 6.7.2.1).
    #[tactic(auto, unfolding(c_grammar::specs::ReadingDecl::struct_spec))]
    pub fn struct_spec(
        &self,
        cursor: &mut Cursor<'_>,
    ) -> Result<StructSpec<Boxed<Member>>, ParseError>
        requires { Nests self.now.room (F.pre self.now.parse) (F.post self.now.parse) }
        ensures total { cursor.new.total ≡ cursor.old.total }
        ensures reads { Gives (seen cursor.new) result (struct_spec cursor.old.total (readers cursor.old.total most self.now.room) (state_of cursor.old)) }
    {
        let token = cursor.here();
        cursor.skip();
        let Some(name) = name_at_front(self.alloc, cursor.total, cursor.rest)? else {
            return self.struct_body(cursor, token, None);
        };
        cursor.skip();
        if cursor.sees_mark(Mark::OpenBrace) {
            return self.struct_body(cursor, token, Some(name));
        }
        Ok(StructSpec::Reference { token, name })
    }

    /// Reads an enumerator, which is declared behind its value (C11, 6.2.1).
    #[tactic(auto, unfolding(c_grammar::specs::ReadingDecl::enumerator))]
    fn enumerator(&self, cursor: &mut Cursor<'_>) -> Result<Enumerator<Boxed<Expr>>, ParseError>
        requires { Nests self.now.room (F.pre self.now.parse) (F.post self.now.parse) }
        ensures total { cursor.new.total ≡ cursor.old.total }
        ensures reads { Gives (seen cursor.new) result (enumerator cursor.old.total (readers cursor.old.total most self.now.room) (state_of cursor.old)) }
    {
        let name = cursor.expect_name(self.alloc)?;
        if !cursor.sees_mark(Mark::Assign) {
            return declared(self.alloc, cursor, name, None);
        }
        cursor.skip();
        match self.boxed_expr(cursor, Extent::Cond) {
            Ok(value) => declared(self.alloc, cursor, name, Some(value)),
            Err(e) => {
                drop(name);
                Err(e)
            }
        }
    }

    /// Reads the braces of an enumeration.
    #[tactic(auto, unfolding(c_grammar::specs::ReadingDecl::enum_body))]
    fn enum_body(
        &self,
        cursor: &mut Cursor<'_>,
        token: u32,
        name: Option<Name>,
    ) -> Result<EnumSpec<Boxed<Expr>>, ParseError>
        requires { Nests self.now.room (F.pre self.now.parse) (F.post self.now.parse) }
        ensures total { cursor.new.total ≡ cursor.old.total }
        ensures reads { Gives (seen cursor.new) result (enum_body cursor.old.total self.now.room (readers cursor.old.total most self.now.room) token name (state_of cursor.old)) }
    {
        match cursor.expect_mark(Mark::OpenBrace) {
            Ok(()) => {}
            Err(e) => {
                drop(name);
                return Err(e);
            }
        }
        if self.room == 0 {
            drop(name);
            return Err(cursor.too_deep());
        }
        match self.enumerators(cursor) {
            Ok(enumerators) => Ok(EnumSpec::Body {
                token,
                name,
                enumerators,
            }),
            Err(e) => {
                drop(name);
                Err(e)
            }
        }
    }

    /// Reads enumerators, and the brace that closes them.
    #[tactic(auto, unfolding(c_grammar::specs::ReadingDecl::enumerators))]
    fn enumerators(
        &self,
        cursor: &mut Cursor<'_>,
    ) -> Result<Items<Enumerator<Boxed<Expr>>>, ParseError>
        requires { Nests self.now.room (F.pre self.now.parse) (F.post self.now.parse) }
        ensures total { cursor.new.total ≡ cursor.old.total }
        ensures reads { Gives (seen cursor.new) result (enumerators cursor.old.total (readers cursor.old.total most self.now.room) (length cursor.old.rest.now) [] (state_of cursor.old)) }
    {
        let mut all = Items::new(self.alloc);
        let mut count = cursor.rest.len();
        'enumerators: while count > 0 {
            count -= 1;
            let enumerator = self.enumerator(cursor)?;
            all.push(enumerator)?;
            if cursor.sees_mark(Mark::CloseBrace) {
                cursor.skip();
                return Ok(all);
            }
            cursor.expect_mark(Mark::Comma)?;
            if cursor.sees_mark(Mark::CloseBrace) {
                cursor.skip();
                return Ok(all);
            }
        }
        Err(cursor.unexpected())
    }

    /// Reads `enum` and what is behind it (C11, 6.7.2.2).
    #[tactic(auto, unfolding(c_grammar::specs::ReadingDecl::enum_spec))]
    pub fn enum_spec(&self, cursor: &mut Cursor<'_>) -> Result<EnumSpec<Boxed<Expr>>, ParseError>
        requires { Nests self.now.room (F.pre self.now.parse) (F.post self.now.parse) }
        ensures total { cursor.new.total ≡ cursor.old.total }
        ensures reads { Gives (seen cursor.new) result (enum_spec cursor.old.total self.now.room (readers cursor.old.total most self.now.room) (state_of cursor.old)) }
    {
        let token = cursor.here();
        cursor.skip();
        let Some(name) = name_at_front(self.alloc, cursor.total, cursor.rest)? else {
            return self.enum_body(cursor, token, None);
        };
        cursor.skip();
        if cursor.sees_mark(Mark::OpenBrace) {
            return self.enum_body(cursor, token, Some(name));
        }
        Ok(EnumSpec::Reference { token, name })
    }
}
