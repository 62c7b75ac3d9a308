//! Expressions, from primary ones to those with commas.

ghost use Rattle.std.specs.Prelude.{◌≡◌, ◌<◌, ◌-◌, [], is_some, IfOk};
ghost use Rattle.c_grammar.specs.Words.{number_type_of};
ghost use Rattle.c_grammar.specs.Grammar.{postfixed, linked, listed};
ghost use Rattle.c_grammar.specs.Reading.{Gives};
ghost use Rattle.c_grammar.specs.ReadingExpr as spec;
ghost use Rattle.c_grammar.specs.Levels.{readers};
ghost use Rattle.c_grammar.specs.Nests.{Nests, most, state_of, seen};

use crate::ends::ended;
use crate::grammar::Grammar;
use crate::structures::boxed_specs;
use am_base::Bytes;
use c_ast::{Expr, Link, Name, NumberType, PostfixOp, PrefixOp, TypeName};
use c_grammar::{
    Cursor, Extent, ParseError, Phrase, Scope, Wanted, assign_at, number_of, operator_in,
    prefix_at, sees_type_in_parens, tail,
};
use c_lex::{Keyword, Mark, Token, TokenKind};
use sqlite_items::{Boxed, Items};
use std::alloc::{AllocError, Global};

/// How many operators a chain may have.
const MOST: u16 = 512;

/// The level of `||`, the last of those of operators between two operands.
const LAST_LEVEL: u8 = 10;

fn number_type_of(number_type: c_lex::NumberType) -> NumberType
    ensures { result ≡ number_type_of number_type }
{
    match number_type {
        c_lex::NumberType::Int => NumberType::Int,
        c_lex::NumberType::UnsignedInt => NumberType::UnsignedInt,
        c_lex::NumberType::Long => NumberType::Long,
        c_lex::NumberType::UnsignedLong => NumberType::UnsignedLong,
    }
}

/// The expression that the next token is by itself.
fn front_expr(
    alloc: Global,
    names: &Scope,
    total: u32,
    tokens: &[Token],
) -> Result<Option<Expr>, AllocError>
    ensures { IfOk result (λ found. found ≡ spec.front_expr total names.now tokens.now) }
{
    let Some((first, _)) = tokens.split_first() else {
        return Ok(None);
    };
    let token = number_of(total, tokens);
    let text = first.text.as_slice();
    let value = first.value;
    Ok(Some(match first.kind {
        TokenKind::Name => {
            if names.is_type(first.headers, text) {
                return Ok(None);
            }
            let text = Bytes::from_slice(alloc, text)?;
            Expr::Name(Name { token, text })
        }
        TokenKind::Number(number_type) => {
            let number_type = number_type_of(number_type);
            Expr::Number {
                token,
                value,
                number_type,
            }
        }
        TokenKind::Character => Expr::Character { token, value },
        TokenKind::Text => {
            let bytes = Bytes::from_slice(alloc, text)?;
            Expr::Text { token, bytes }
        }
        TokenKind::Keyword(_) | TokenKind::Mark(_) => return Ok(None),
    }))
}

/// A primary expression with the operators behind it, if there are any.
fn postfixed(
    alloc: Global,
    token: u32,
    first: Expr,
    operators: Items<PostfixOp<Boxed<Expr>>>,
) -> Result<Expr, AllocError>
    ensures { IfOk result (λ expr. expr ≡ postfixed token first operators) }
{
    if operators.is_empty() {
        return Ok(first);
    }
    let first = Boxed::new(alloc, first)?;
    Ok(Expr::Postfix {
        token,
        first,
        operators,
    })
}

/// A first operand with the operators of a level behind it, if there are any.
fn linked(
    alloc: Global,
    token: u32,
    first: Expr,
    links: Items<Link<Boxed<Expr>>>,
) -> Result<Expr, AllocError>
    ensures { IfOk result (λ expr. expr ≡ linked token first links) }
{
    if links.is_empty() {
        return Ok(first);
    }
    let first = Boxed::new(alloc, first)?;
    Ok(Expr::Binary {
        token,
        first,
        links,
    })
}

/// An expression with others behind commas, if there are any.
fn listed(alloc: Global, token: u32, first: Expr, others: Items<Expr>) -> Result<Expr, AllocError>
    ensures { IfOk result (λ expr. expr ≡ listed token first others) }
{
    if others.is_empty() {
        return Ok(first);
    }
    let first = Boxed::new(alloc, first)?;
    Ok(Expr::Comma {
        token,
        first,
        others,
    })
}

impl<F: Fn(Global, &mut Cursor<'_>, u8, Wanted) -> Result<Phrase, ParseError>> Grammar<F> {
    /// Reads `( expr )`.
    #[tactic(auto, unfolding(c_grammar::specs::ReadingExpr::paren))]
    fn paren(&self, cursor: &mut Cursor<'_>) -> Result<Expr, ParseError>
        requires { Nests self.now.room (F.pre self.now.parse) (F.post self.now.parse) }
        ensures total { cursor.new.total ≡ cursor.old.total }
        ensures reads { Gives (seen cursor.new) result (spec.paren cursor.old.total (readers cursor.old.total most self.now.room) (state_of cursor.old)) }
    {
        let token = cursor.here();
        cursor.skip();
        let inner = self.inner_expr(cursor, Extent::Comma)?;
        let inner = ended(cursor, inner, Mark::CloseParen)?;
        let inner = Boxed::new(self.alloc, inner)?;
        Ok(Expr::Paren { token, inner })
    }

    /// Reads a primary expression (C11, 6.5.1).
    #[tactic(auto, unfolding(c_grammar::specs::ReadingExpr::primary))]
    fn primary(&self, cursor: &mut Cursor<'_>) -> Result<Expr, ParseError>
        requires { Nests self.now.room (F.pre self.now.parse) (F.post self.now.parse) }
        ensures total { cursor.new.total ≡ cursor.old.total }
        ensures reads { Gives (seen cursor.new) result (spec.primary cursor.old.total (readers cursor.old.total most self.now.room) (state_of cursor.old)) }
    {
        if cursor.sees_mark(Mark::OpenParen) {
            return self.paren(cursor);
        }
        let found = front_expr(self.alloc, &cursor.names, cursor.total, cursor.rest)?;
        let Some(expr) = found else {
            return Err(cursor.unexpected());
        };
        cursor.skip();
        Ok(expr)
    }

    /// Reads `[ expr ]`.
    #[tactic(auto, unfolding(c_grammar::specs::ReadingExpr::index))]
    fn index(&self, cursor: &mut Cursor<'_>) -> Result<PostfixOp<Boxed<Expr>>, ParseError>
        requires { Nests self.now.room (F.pre self.now.parse) (F.post self.now.parse) }
        ensures total { cursor.new.total ≡ cursor.old.total }
        ensures reads { Gives (seen cursor.new) result (spec.index cursor.old.total (readers cursor.old.total most self.now.room) (state_of cursor.old)) }
    {
        let at = cursor.here();
        cursor.skip();
        let index = self.inner_expr(cursor, Extent::Comma)?;
        let index = ended(cursor, index, Mark::CloseBracket)?;
        let index = Boxed::new(self.alloc, index)?;
        Ok(PostfixOp::Index { at, index })
    }

    /// Reads arguments with commas between them, so many at most, and the bracket that closes them.
    fn arguments(
        &self,
        cursor: &mut Cursor<'_>,
        limit: usize,
    ) -> Result<Items<Boxed<Expr>>, ParseError>
        requires { Nests self.now.room (F.pre self.now.parse) (F.post self.now.parse) }
        ensures total { cursor.new.total ≡ cursor.old.total }
        ensures reads { Gives (seen cursor.new) result (spec.arguments cursor.old.total (readers cursor.old.total most self.now.room) limit [] (state_of cursor.old)) }
    {
        let mut front = Items::new(self.alloc);
        let mut count = limit;
        'arguments: while count > 0 {
            count -= 1;
            let argument = self.inner_expr(cursor, Extent::Assign)?;
            front.push(Boxed::new(self.alloc, argument)?)?;
            if !cursor.sees_mark(Mark::Comma) {
                cursor.expect_mark(Mark::CloseParen)?;
                return Ok(front);
            }
            cursor.skip();
        }
        Err(cursor.unexpected())
    }

    /// Reads `( assign, .. )`.
    #[tactic(auto, unfolding(c_grammar::specs::ReadingExpr::call))]
    fn call(&self, cursor: &mut Cursor<'_>) -> Result<PostfixOp<Boxed<Expr>>, ParseError>
        requires { Nests self.now.room (F.pre self.now.parse) (F.post self.now.parse) }
        ensures total { cursor.new.total ≡ cursor.old.total }
        ensures reads { Gives (seen cursor.new) result (spec.call cursor.old.total (readers cursor.old.total most self.now.room) (state_of cursor.old)) }
    {
        let at = cursor.here();
        let limit = cursor.rest.len();
        cursor.skip();
        if cursor.sees_mark(Mark::CloseParen) {
            cursor.skip();
            let arguments = Items::new(self.alloc);
            return Ok(PostfixOp::Call { at, arguments });
        }
        let arguments = self.arguments(cursor, limit)?;
        Ok(PostfixOp::Call { at, arguments })
    }

    /// Reads `.` and a name.
    #[tactic(auto, unfolding(c_grammar::specs::ReadingExpr::dot))]
    fn dot(&self, cursor: &mut Cursor<'_>) -> Result<PostfixOp<Boxed<Expr>>, ParseError>
        ensures total { cursor.new.total ≡ cursor.old.total }
        ensures reads { Gives (seen cursor.new) result (spec.dot cursor.old.total (state_of cursor.old)) }
    {
        let at = cursor.here();
        cursor.skip();
        let name = cursor.expect_name(self.alloc)?;
        Ok(PostfixOp::Member { at, name })
    }

    /// Reads `->` and a name.
    #[tactic(auto, unfolding(c_grammar::specs::ReadingExpr::arrow))]
    fn arrow(&self, cursor: &mut Cursor<'_>) -> Result<PostfixOp<Boxed<Expr>>, ParseError>
        ensures total { cursor.new.total ≡ cursor.old.total }
        ensures reads { Gives (seen cursor.new) result (spec.arrow cursor.old.total (state_of cursor.old)) }
    {
        let at = cursor.here();
        cursor.skip();
        let name = cursor.expect_name(self.alloc)?;
        Ok(PostfixOp::Arrow { at, name })
    }

    /// Whether a postfix operator comes next.
    fn sees_postfix(&self, cursor: &Cursor<'_>) -> bool
        ensures { result ≡ is_some (spec.postfix_at cursor.now.total (readers cursor.now.total most self.now.room) cursor.now.rest.now) }
    {
        match cursor.rest {
            [] => false,
            [first, ..] => matches!(
                first.kind,
                TokenKind::Mark(
                    Mark::OpenBracket
                        | Mark::OpenParen
                        | Mark::Dot
                        | Mark::Arrow
                        | Mark::PlusPlus
                        | Mark::MinusMinus
                )
            ),
        }
    }

    /// Reads a postfix operator (C11, 6.5.2).
    #[tactic(auto, unfolding(c_grammar::specs::ReadingExpr::one_postfix))]
    fn one_postfix(&self, cursor: &mut Cursor<'_>) -> Result<PostfixOp<Boxed<Expr>>, ParseError>
        requires { Nests self.now.room (F.pre self.now.parse) (F.post self.now.parse) }
        ensures total { cursor.new.total ≡ cursor.old.total }
        ensures reads { Gives (seen cursor.new) result (spec.one_postfix cursor.old.total (readers cursor.old.total most self.now.room) (state_of cursor.old)) }
    {
        let Some((first, _)) = cursor.rest.split_first() else {
            return Err(cursor.unexpected());
        };
        let at = cursor.here();
        match first.kind {
            TokenKind::Mark(Mark::OpenBracket) => self.index(cursor),
            TokenKind::Mark(Mark::OpenParen) => self.call(cursor),
            TokenKind::Mark(Mark::Dot) => self.dot(cursor),
            TokenKind::Mark(Mark::Arrow) => self.arrow(cursor),
            TokenKind::Mark(Mark::PlusPlus) => {
                cursor.skip();
                Ok(PostfixOp::Increment { at })
            }
            TokenKind::Mark(Mark::MinusMinus) => {
                cursor.skip();
                Ok(PostfixOp::Decrement { at })
            }
            _ => Err(cursor.unexpected()),
        }
    }

    /// Reads postfix operators.
    fn postfixes(
        &self,
        cursor: &mut Cursor<'_>,
    ) -> Result<Items<PostfixOp<Boxed<Expr>>>, ParseError>
        requires { Nests self.now.room (F.pre self.now.parse) (F.post self.now.parse) }
        ensures total { cursor.new.total ≡ cursor.old.total }
        ensures reads { Gives (seen cursor.new) result (spec.postfixes cursor.old.total (readers cursor.old.total most self.now.room) most [] (state_of cursor.old)) }
    {
        let mut front = Items::new(self.alloc);
        let mut spare = MOST;
        'operators: while self.sees_postfix(cursor) {
            if spare == 0 {
                return Err(cursor.too_long());
            }
            spare -= 1;
            let operator = self.one_postfix(cursor)?;
            front.push(operator)?;
        }
        Ok(front)
    }

    /// Reads a primary expression with postfix operators (C11, 6.5.2).
    #[tactic(auto, unfolding(c_grammar::specs::ReadingExpr::postfix))]
    fn postfix(&self, cursor: &mut Cursor<'_>) -> Result<Expr, ParseError>
        requires { Nests self.now.room (F.pre self.now.parse) (F.post self.now.parse) }
        ensures total { cursor.new.total ≡ cursor.old.total }
        ensures reads { Gives (seen cursor.new) result (spec.postfix cursor.old.total most (readers cursor.old.total most self.now.room) (state_of cursor.old)) }
    {
        let token = cursor.here();
        let first = self.primary(cursor)?;
        match self.postfixes(cursor) {
            Ok(operators) => Ok(postfixed(self.alloc, token, first, operators)?),
            Err(e) => {
                drop(first);
                Err(e)
            }
        }
    }

    /// Reads a prefix operator and its operand (C11, 6.5.3).
    #[tactic(auto, unfolding(c_grammar::specs::ReadingExpr::prefixed))]
    fn prefixed(&self, cursor: &mut Cursor<'_>, op: PrefixOp) -> Result<Expr, ParseError>
        requires { Nests self.now.room (F.pre self.now.parse) (F.post self.now.parse) }
        ensures total { cursor.new.total ≡ cursor.old.total }
        ensures reads { Gives (seen cursor.new) result (spec.prefixed cursor.old.total (readers cursor.old.total most self.now.room) op (state_of cursor.old)) }
    {
        let token = cursor.here();
        cursor.skip();
        let operand = self.boxed_expr(cursor, Extent::Unary)?;
        Ok(Expr::Prefix { token, op, operand })
    }

    /// Reads `sizeof` and what it is applied to (C11, 6.5.3.4).
    #[tactic(auto, unfolding(c_grammar::specs::ReadingExpr::sizeof))]
    fn sizeof(&self, cursor: &mut Cursor<'_>) -> Result<Expr, ParseError>
        requires { Nests self.now.room (F.pre self.now.parse) (F.post self.now.parse) }
        ensures total { cursor.new.total ≡ cursor.old.total }
        ensures reads { Gives (seen cursor.new) result (spec.sizeof cursor.old.total (readers cursor.old.total most self.now.room) (state_of cursor.old)) }
    {
        let token = cursor.here();
        let is_type = sees_type_in_parens(&cursor.names, tail(cursor.rest));
        cursor.skip();
        if is_type {
            let type_name = self.inner_type_in_parens(cursor)?;
            let type_name = Boxed::new(self.alloc, type_name)?;
            return Ok(Expr::SizeofType { token, type_name });
        }
        let operand = self.boxed_expr(cursor, Extent::Unary)?;
        Ok(Expr::SizeofExpr { token, operand })
    }

    /// Reads `( typename )`.
    #[tactic(auto, unfolding(c_grammar::specs::ReadingExpr::type_in_parens))]
    pub fn type_in_parens(&self, cursor: &mut Cursor<'_>) -> Result<TypeName, ParseError>
        requires { Nests self.now.room (F.pre self.now.parse) (F.post self.now.parse) }
        ensures total { cursor.new.total ≡ cursor.old.total }
        ensures reads { Gives (seen cursor.new) result (spec.type_in_parens cursor.old.total (readers cursor.old.total most self.now.room) (state_of cursor.old)) }
    {
        cursor.expect_mark(Mark::OpenParen)?;
        let found = self.inner_specs(cursor)?;
        let specs = boxed_specs(self.alloc, found.specs)?;
        let declarator = match self.inner_unnamed(cursor) {
            Ok(declarator) => declarator,
            Err(e) => {
                drop(specs);
                return Err(e);
            }
        };
        match cursor.expect_mark(Mark::CloseParen) {
            Ok(()) => Ok(TypeName { specs, declarator }),
            Err(e) => {
                drop(specs);
                drop(declarator);
                Err(e)
            }
        }
    }

    /// Reads `( typename ) unary` (C11, 6.5.4).
    #[tactic(auto, unfolding(c_grammar::specs::ReadingExpr::cast))]
    fn cast(&self, cursor: &mut Cursor<'_>) -> Result<Expr, ParseError>
        requires { Nests self.now.room (F.pre self.now.parse) (F.post self.now.parse) }
        ensures total { cursor.new.total ≡ cursor.old.total }
        ensures reads { Gives (seen cursor.new) result (spec.cast cursor.old.total (readers cursor.old.total most self.now.room) (state_of cursor.old)) }
    {
        let token = cursor.here();
        let type_name = self.type_in_parens(cursor)?;
        let type_name = Boxed::new(self.alloc, type_name)?;
        match self.boxed_expr(cursor, Extent::Unary) {
            Ok(operand) => Ok(Expr::Cast {
                token,
                type_name,
                operand,
            }),
            Err(e) => {
                drop(type_name);
                Err(e)
            }
        }
    }

    /// Reads an operand with its prefix operators (C11, 6.5.3).
    #[tactic(auto, unfolding(c_grammar::specs::ReadingExpr::unary))]
    fn unary(&self, cursor: &mut Cursor<'_>) -> Result<Expr, ParseError>
        requires { Nests self.now.room (F.pre self.now.parse) (F.post self.now.parse) }
        ensures total { cursor.new.total ≡ cursor.old.total }
        ensures reads { Gives (seen cursor.new) result (spec.unary cursor.old.total most (readers cursor.old.total most self.now.room) (state_of cursor.old)) }
    {
        if let Some(op) = prefix_at(cursor.rest) {
            return self.prefixed(cursor, op);
        }
        if cursor.sees_keyword(Keyword::Sizeof) {
            return self.sizeof(cursor);
        }
        if sees_type_in_parens(&cursor.names, cursor.rest) {
            return self.cast(cursor);
        }
        self.postfix(cursor)
    }

    /// Reads an operand of this level and those below it.
    #[cycle(levels)]
    fn operand_of(&self, cursor: &mut Cursor<'_>, level: u8) -> Result<Expr, ParseError>
        requires { Nests self.now.room (F.pre self.now.parse) (F.post self.now.parse) }
        ensures total { cursor.new.total ≡ cursor.old.total }
        ensures reads { Gives (seen cursor.new) result (spec.level_with cursor.old.total most (spec.unary cursor.old.total most (readers cursor.old.total most self.now.room)) level (state_of cursor.old)) }
    {
        let token = cursor.here();
        let first = self.unary(cursor)?;
        self.level_from(cursor, level, token, first)
    }

    /// Goes on behind a first operand with the operators of this level and those below it (C11, 6.5.5 to 6.5.14).
    #[cycle(levels)]
    fn level_from(
        &self,
        cursor: &mut Cursor<'_>,
        level: u8,
        token: u32,
        first: Expr,
    ) -> Result<Expr, ParseError>
        requires { Nests self.now.room (F.pre self.now.parse) (F.post self.now.parse) }
        ensures total { cursor.new.total ≡ cursor.old.total }
        ensures reads { Gives (seen cursor.new) result (spec.level_from cursor.old.total most (spec.unary cursor.old.total most (readers cursor.old.total most self.now.room)) level token first (state_of cursor.old)) }
    {
        if level == 0 {
            return Ok(first);
        }
        let left = self.level_from(cursor, level - 1, token, first)?;
        let links = self.links(cursor, level)?;
        Ok(linked(self.alloc, token, left, links)?)
    }

    /// Reads operators of this level with their right operands.
    #[cycle(levels)]
    fn links(
        &self,
        cursor: &mut Cursor<'_>,
        level: u8,
    ) -> Result<Items<Link<Boxed<Expr>>>, ParseError>
        requires nests { Nests self.now.room (F.pre self.now.parse) (F.post self.now.parse) }
        requires positive { 0 < level }
        ensures total { cursor.new.total ≡ cursor.old.total }
        ensures reads { Gives (seen cursor.new) result (spec.links cursor.old.total (spec.level_with cursor.old.total most (spec.unary cursor.old.total most (readers cursor.old.total most self.now.room)) (level - 1)) level most [] (state_of cursor.old)) }
    {
        let mut front = Items::new(self.alloc);
        let mut spare = MOST;
        'links: while let Some(op) = operator_in(level, cursor.rest) {
            if spare == 0 {
                return Err(cursor.too_long());
            }
            spare -= 1;
            let at = cursor.here();
            cursor.skip();
            let right = self.operand_of(cursor, level - 1)?;
            let right = Boxed::new(self.alloc, right)?;
            front.push(Link { at, op, right })?;
        }
        Ok(front)
    }

    /// Goes on behind a first operand with operators, and with `?:` (C11, 6.5.15).
    #[tactic(auto, unfolding(c_grammar::specs::ReadingExpr::cond_from))]
    fn cond_from(
        &self,
        cursor: &mut Cursor<'_>,
        token: u32,
        first: Expr,
    ) -> Result<Expr, ParseError>
        requires { Nests self.now.room (F.pre self.now.parse) (F.post self.now.parse) }
        ensures total { cursor.new.total ≡ cursor.old.total }
        ensures reads { Gives (seen cursor.new) result (spec.cond_from cursor.old.total most (readers cursor.old.total most self.now.room) token first (state_of cursor.old)) }
    {
        let test = self.level_from(cursor, LAST_LEVEL, token, first)?;
        if !cursor.sees_mark(Mark::Question) {
            return Ok(test);
        }
        let test = Boxed::new(self.alloc, test)?;
        self.conditional(cursor, token, test)
    }

    /// Goes on behind a test with `?`, an expression, `:` and a condition (C11, 6.5.15).
    fn conditional(
        &self,
        cursor: &mut Cursor<'_>,
        token: u32,
        test: Boxed<Expr>,
    ) -> Result<Expr, ParseError>
        requires { Nests self.now.room (F.pre self.now.parse) (F.post self.now.parse) }
        ensures total { cursor.new.total ≡ cursor.old.total }
        ensures reads { Gives (seen cursor.new) result (spec.conditional cursor.old.total (readers cursor.old.total most self.now.room) token test (state_of cursor.old)) }
    {
        let at = cursor.here();
        cursor.skip();
        let then = self.inner_expr(cursor, Extent::Comma)?;
        let then = Boxed::new(self.alloc, then)?;
        cursor.expect_mark(Mark::Colon)?;
        let otherwise = self.inner_expr(cursor, Extent::Cond)?;
        let otherwise = Boxed::new(self.alloc, otherwise)?;
        Ok(Expr::Conditional {
            token,
            test,
            at,
            then,
            otherwise,
        })
    }

    /// Reads an expression with `?:` (C11, 6.5.15).
    #[tactic(auto, unfolding(c_grammar::specs::ReadingExpr::cond))]
    fn cond(&self, cursor: &mut Cursor<'_>) -> Result<Expr, ParseError>
        requires { Nests self.now.room (F.pre self.now.parse) (F.post self.now.parse) }
        ensures total { cursor.new.total ≡ cursor.old.total }
        ensures reads { Gives (seen cursor.new) result (spec.cond cursor.old.total most (readers cursor.old.total most self.now.room) (state_of cursor.old)) }
    {
        let token = cursor.here();
        let first = self.unary(cursor)?;
        self.cond_from(cursor, token, first)
    }

    /// Reads an expression with assignments (C11, 6.5.16).
    #[tactic(auto, unfolding(c_grammar::specs::ReadingExpr::assign))]
    fn assign(&self, cursor: &mut Cursor<'_>) -> Result<Expr, ParseError>
        requires { Nests self.now.room (F.pre self.now.parse) (F.post self.now.parse) }
        ensures total { cursor.new.total ≡ cursor.old.total }
        ensures reads { Gives (seen cursor.new) result (spec.assign cursor.old.total most (readers cursor.old.total most self.now.room) (state_of cursor.old)) }
    {
        let token = cursor.here();
        let first = self.unary(cursor)?;
        let Some(op) = assign_at(cursor.rest) else {
            return self.cond_from(cursor, token, first);
        };
        let place = Boxed::new(self.alloc, first)?;
        let at = cursor.here();
        cursor.skip();
        match self.boxed_expr(cursor, Extent::Assign) {
            Ok(value) => Ok(Expr::Assign {
                token,
                place,
                at,
                op,
                value,
            }),
            Err(e) => {
                drop(place);
                Err(e)
            }
        }
    }

    /// Reads more expressions, each behind a comma.
    fn others(&self, cursor: &mut Cursor<'_>) -> Result<Items<Expr>, ParseError>
        requires { Nests self.now.room (F.pre self.now.parse) (F.post self.now.parse) }
        ensures total { cursor.new.total ≡ cursor.old.total }
        ensures reads { Gives (seen cursor.new) result (spec.others cursor.old.total (spec.assign cursor.old.total most (readers cursor.old.total most self.now.room)) most [] (state_of cursor.old)) }
    {
        let mut front = Items::new(self.alloc);
        let mut spare = MOST;
        'others: while cursor.sees_mark(Mark::Comma) {
            if spare == 0 {
                return Err(cursor.too_long());
            }
            spare -= 1;
            cursor.skip();
            let other = self.assign(cursor)?;
            front.push(other)?;
        }
        Ok(front)
    }

    /// Reads an expression with commas (C11, 6.5.17).
    #[tactic(auto, unfolding(c_grammar::specs::ReadingExpr::comma))]
    fn comma(&self, cursor: &mut Cursor<'_>) -> Result<Expr, ParseError>
        requires { Nests self.now.room (F.pre self.now.parse) (F.post self.now.parse) }
        ensures total { cursor.new.total ≡ cursor.old.total }
        ensures reads { Gives (seen cursor.new) result (spec.comma cursor.old.total most (readers cursor.old.total most self.now.room) (state_of cursor.old)) }
    {
        let token = cursor.here();
        let first = self.assign(cursor)?;
        match self.others(cursor) {
            Ok(others) => Ok(listed(self.alloc, token, first, others)?),
            Err(e) => {
                drop(first);
                Err(e)
            }
        }
    }

    /// Reads an expression that ends so (C11, 6.5).
    #[tactic(auto, unfolding(c_grammar::specs::ReadingExpr::expr_of))]
    pub fn expr(&self, cursor: &mut Cursor<'_>, extent: Extent) -> Result<Expr, ParseError>
        requires { Nests self.now.room (F.pre self.now.parse) (F.post self.now.parse) }
        ensures total { cursor.new.total ≡ cursor.old.total }
        ensures reads { Gives (seen cursor.new) result (spec.expr_of cursor.old.total most (readers cursor.old.total most self.now.room) extent (state_of cursor.old)) }
    {
        match extent {
            Extent::Unary => self.unary(cursor),
            Extent::Cond => self.cond(cursor),
            Extent::Assign => self.assign(cursor),
            Extent::Comma => self.comma(cursor),
        }
    }
}
