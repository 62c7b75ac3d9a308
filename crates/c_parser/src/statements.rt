//! Statements and blocks.

ghost use Rattle.std.specs.Prelude.{◌≡◌, ◌-◌, ◌<◌, Some, [], Ok, length, IfOk};
ghost use Rattle.c_ast.specs.declared.statement.Stmt.TheVariants.{Break, Continue};
ghost use Rattle.c_lex.specs.declared.token.Keyword.TheVariants as keyword;
ghost use Rattle.c_grammar.specs.Reading.{Gives, behind, expect_keyword};
ghost use Rattle.c_grammar.specs.Nests.{most, state_of, seen, error_of};
ghost use Rattle.c_parser.specs.NestsStmt.{ReadsStmt};
ghost use Rattle.c_grammar.specs.ReadingExpr.{sees_type};
ghost use Rattle.c_grammar.specs.ReadingStmt.{left_to, optional, bracketed, for_start, for_head, if_with, while_with, switch_with, do_with, for_with, case_with, default_with, word_alone, return_with, express_with, keyword_at, starts_simple, sees_simple, cramped, simple, by_keyword, item, items, block_with, statement};

use c_ast::{BlockItem, Expr, ForStart, Stmt};
use c_grammar::{Cursor, Extent, Head, ParseError, Scope, sees_expr, sees_mark, sees_type};
use c_lex::{Keyword, Mark, Token, TokenKind};
use c_phrases::{decl, ended, expr, leave};
use sqlite_items::{Boxed, Items};
use std::alloc::Global;

/// Reads an expression, if there is one, and this punctuator.
#[tactic(auto, unfolding(c_grammar::specs::ReadingStmt::optional))]
fn optional(
    alloc: Global,
    cursor: &mut Cursor<'_>,
    room: u8,
    mark: Mark,
) -> Result<Option<Expr>, ParseError>
    ensures total { cursor.new.total ≡ cursor.old.total }
    ensures reads { Gives (seen cursor.new) result (optional cursor.old.total most room mark (state_of cursor.old)) }
{
    if cursor.sees_mark(mark) {
        cursor.skip();
        return Ok(None);
    }
    let value = expr(alloc, cursor, room, Extent::Comma)?;
    let value = ended(cursor, value, mark)?;
    Ok(Some(value))
}

/// Reads an expression in parentheses, by the room inside of them.
#[tactic(auto, unfolding(c_grammar::specs::ReadingStmt::bracketed))]
fn test(alloc: Global, cursor: &mut Cursor<'_>, room: u8) -> Result<Expr, ParseError>
    ensures total { cursor.new.total ≡ cursor.old.total }
    ensures reads { Gives (seen cursor.new) result (bracketed cursor.old.total most room (state_of cursor.old)) }
{
    cursor.expect_mark(Mark::OpenParen)?;
    let value = expr(alloc, cursor, room, Extent::Comma)?;
    ended(cursor, value, Mark::CloseParen)
}

/// Reads what stands first in the parentheses of a `for`.
#[tactic(auto, unfolding(c_grammar::specs::ReadingStmt::for_start))]
fn for_start(alloc: Global, cursor: &mut Cursor<'_>, room: u8) -> Result<ForStart, ParseError>
    ensures total { cursor.new.total ≡ cursor.old.total }
    ensures reads { Gives (seen cursor.new) result (for_start cursor.old.total most room (state_of cursor.old)) }
{
    if sees_type(&cursor.names, cursor.rest) {
        let start = decl(alloc, cursor, room)?;
        return Ok(ForStart::Declaration(start));
    }
    let start = optional(alloc, cursor, room, Mark::Semicolon)?;
    Ok(ForStart::Expression(start))
}

/// Reads what stands in the parentheses of a `for`, and the one that closes them.
#[tactic(auto, unfolding(c_grammar::specs::ReadingStmt::for_head))]
fn for_head(alloc: Global, cursor: &mut Cursor<'_>, room: u8) -> Result<Head, ParseError>
    ensures total { cursor.new.total ≡ cursor.old.total }
    ensures reads { Gives (seen cursor.new) result (for_head cursor.old.total most room (state_of cursor.old)) }
{
    if room == 0 {
        return Err(cursor.too_deep());
    }
    let start = for_start(alloc, cursor, room)?;
    let test = match optional(alloc, cursor, room, Mark::Semicolon) {
        Ok(test) => test,
        Err(e) => {
            drop(start);
            return Err(e);
        }
    };
    match optional(alloc, cursor, room, Mark::CloseParen) {
        Ok(step) => Ok(Head { start, test, step }),
        Err(e) => {
            drop(start);
            drop(test);
            Err(e)
        }
    }
}

/// Reads what is behind `break` (C11, 6.8.6.3).
#[tactic(auto, unfolding(c_grammar::specs::ReadingStmt::word_alone))]
fn behind_break(cursor: &mut Cursor<'_>, token: u32) -> Result<Stmt, ParseError>
    ensures total { cursor.new.total ≡ cursor.old.total }
    ensures reads { Gives (seen cursor.new) result (word_alone cursor.old.total (Break token) (state_of cursor.old)) }
{
    cursor.expect_mark(Mark::Semicolon)?;
    Ok(Stmt::Break { token })
}

/// Reads what is behind `continue` (C11, 6.8.6.2).
#[tactic(auto, unfolding(c_grammar::specs::ReadingStmt::word_alone))]
fn behind_continue(cursor: &mut Cursor<'_>, token: u32) -> Result<Stmt, ParseError>
    ensures total { cursor.new.total ≡ cursor.old.total }
    ensures reads { Gives (seen cursor.new) result (word_alone cursor.old.total (Continue token) (state_of cursor.old)) }
{
    cursor.expect_mark(Mark::Semicolon)?;
    Ok(Stmt::Continue { token })
}

/// Reads what is behind `return` (C11, 6.8.6.4).
#[tactic(auto, unfolding(c_grammar::specs::ReadingStmt::return_with))]
fn behind_return(
    alloc: Global,
    cursor: &mut Cursor<'_>,
    room: u8,
    token: u32,
) -> Result<Stmt, ParseError>
    ensures total { cursor.new.total ≡ cursor.old.total }
    ensures reads { Gives (seen cursor.new) result (return_with cursor.old.total most room token (state_of cursor.old)) }
{
    let value = optional(alloc, cursor, room, Mark::Semicolon)?;
    Ok(Stmt::Return { token, value })
}

/// Reads an expression, if there is one, and the semicolon (C11, 6.8.3).
#[tactic(auto, unfolding(c_grammar::specs::ReadingStmt::express_with))]
fn express(alloc: Global, cursor: &mut Cursor<'_>, room: u8) -> Result<Stmt, ParseError>
    ensures total { cursor.new.total ≡ cursor.old.total }
    ensures reads { Gives (seen cursor.new) result (express_with cursor.old.total most room (state_of cursor.old)) }
{
    let token = cursor.here();
    let expr = optional(alloc, cursor, room, Mark::Semicolon)?;
    Ok(Stmt::Express { token, expr })
}

/// The keyword that comes next.
fn keyword_at(tokens: &[Token]) -> Option<Keyword>
    ensures { result ≡ keyword_at tokens.now }
{
    match tokens {
        [
            Token {
                kind: TokenKind::Keyword(word),
                ..
            },
            ..
        ] => Some(*word),
        _ => None,
    }
}

/// Whether a statement that is no block begins with this keyword.
fn starts_simple(word: Option<Keyword>) -> bool
    ensures { result ≡ starts_simple word }
{
    matches!(
        word,
        Some(
            Keyword::If
                | Keyword::While
                | Keyword::Do
                | Keyword::For
                | Keyword::Switch
                | Keyword::Case
                | Keyword::Default
                | Keyword::Break
                | Keyword::Continue
                | Keyword::Return
        )
    )
}

/// Whether a statement that is no block may begin here.
fn sees_simple(names: &Scope, tokens: &[Token]) -> bool
    ensures { result ≡ sees_simple names.now tokens.now }
{
    starts_simple(keyword_at(tokens))
        || sees_mark(Mark::Semicolon, tokens)
        || sees_expr(names, tokens)
}

/// The error where a block has room, and no other statement: what begins none isn't expected.
#[tactic(auto, unfolding(c_grammar::specs::ReadingStmt::cramped))]
fn cramped(cursor: &Cursor<'_>) -> ParseError
    ensures { result ≡ error_of (cramped cursor.now.total (state_of cursor.now)) }
{
    if sees_simple(&cursor.names, cursor.rest) {
        cursor.too_deep()
    } else {
        cursor.unexpected()
    }
}

/// A statement whose names, behind so many before it, are out of scope behind it.
fn left(cursor: &mut Cursor<'_>, outer: usize, statement: Stmt) -> Result<Stmt, ParseError>
    ensures total { cursor.new.total ≡ cursor.old.total }
    ensures reads { Gives (λ _. state_of cursor.new) result (Ok (left_to outer (state_of cursor.old))) }
    ensures same { IfOk result (λ found. found ≡ statement) }
{
    match leave(cursor, outer) {
        Ok(()) => Ok(statement),
        Err(e) => {
            drop(statement);
            Err(e)
        }
    }
}

/// The statement inside of a `do`, whose names are out of scope behind it, and the `while` that has to come next.
fn behind_body(
    cursor: &mut Cursor<'_>,
    outer: usize,
    body: Boxed<Stmt>,
) -> Result<Boxed<Stmt>, ParseError>
    ensures total { cursor.new.total ≡ cursor.old.total }
    ensures reads { Gives (λ _. state_of cursor.new) result (expect_keyword cursor.old.total keyword.While (left_to outer (state_of cursor.old))) }
    ensures same { IfOk result (λ found. found ≡ body) }
{
    match leave(cursor, outer) {
        Ok(()) => {}
        Err(e) => {
            drop(body);
            return Err(e);
        }
    }
    match cursor.expect_keyword(Keyword::While) {
        Ok(()) => Ok(body),
        Err(e) => {
            drop(body);
            Err(e)
        }
    }
}

/// The rules of statements with statements inside of them, at a place with so much room there. What reads those is a
/// parameter, so that each rule is proved by itself.
#[derive(Clone, Copy)]
pub struct Statements<F> {
    alloc: Global,
    room: u8,
    statement: F,
}

impl<F: Fn(Global, &mut Cursor<'_>, u8) -> Result<Stmt, ParseError>> Statements<F> {
    /// Reads a statement inside of another.
    fn inner(&self, cursor: &mut Cursor<'_>) -> Result<Boxed<Stmt>, ParseError>
        requires { ReadsStmt self.now.room (F.pre self.now.statement) (F.post self.now.statement) }
        ensures total { cursor.new.total ≡ cursor.old.total }
        ensures reads { Gives (seen cursor.new) result (statement cursor.old.total most self.now.room (state_of cursor.old)) }
    {
        let inner = (self.statement)(self.alloc, cursor, self.room)?;
        Ok(Boxed::new(self.alloc, inner)?)
    }

    /// Reads what is behind `if` (C11, 6.8.4.1). An `else` belongs to the nearest one.
    #[tactic(auto, unfolding(c_grammar::specs::ReadingStmt::if_with))]
    fn behind_if(&self, cursor: &mut Cursor<'_>, token: u32) -> Result<Stmt, ParseError>
        requires room { 0 < self.now.room }
        requires nests { ReadsStmt self.now.room (F.pre self.now.statement) (F.post self.now.statement) }
        ensures total { cursor.new.total ≡ cursor.old.total }
        ensures reads { Gives (seen cursor.new) result
            (if_with cursor.old.total most (statement cursor.old.total most self.now.room) (self.now.room - 1) token (state_of cursor.old)) }
    {
        let outer = cursor.names.len();
        let test = test(self.alloc, cursor, self.room - 1)?;
        let inner = cursor.names.len();
        let then = match self.inner(cursor) {
            Ok(then) => then,
            Err(e) => {
                drop(test);
                return Err(e);
            }
        };
        if !cursor.sees_keyword(Keyword::Else) {
            let statement = Stmt::If {
                token,
                test,
                then,
                otherwise: None,
            };
            return left(cursor, outer, statement);
        }
        match self.behind_else(cursor, inner) {
            Ok(otherwise) => {
                let statement = Stmt::If {
                    token,
                    test,
                    then,
                    otherwise: Some(otherwise),
                };
                left(cursor, outer, statement)
            }
            Err(e) => {
                drop(test);
                drop(then);
                Err(e)
            }
        }
    }

    /// Takes the names of the statement before an `else` out of scope, and reads the one behind it.
    fn behind_else(&self, cursor: &mut Cursor<'_>, inner: usize) -> Result<Boxed<Stmt>, ParseError>
        requires { ReadsStmt self.now.room (F.pre self.now.statement) (F.post self.now.statement) }
        ensures total { cursor.new.total ≡ cursor.old.total }
        ensures reads { Gives (seen cursor.new) result
            (statement cursor.old.total most self.now.room (behind (left_to inner (state_of cursor.old)))) }
    {
        leave(cursor, inner)?;
        cursor.skip();
        self.inner(cursor)
    }

    /// Reads what is behind `while` (C11, 6.8.5.1).
    #[tactic(auto, unfolding(c_grammar::specs::ReadingStmt::while_with))]
    fn behind_while(&self, cursor: &mut Cursor<'_>, token: u32) -> Result<Stmt, ParseError>
        requires room { 0 < self.now.room }
        requires nests { ReadsStmt self.now.room (F.pre self.now.statement) (F.post self.now.statement) }
        ensures total { cursor.new.total ≡ cursor.old.total }
        ensures reads { Gives (seen cursor.new) result
            (while_with cursor.old.total most (statement cursor.old.total most self.now.room) (self.now.room - 1) token (state_of cursor.old)) }
    {
        let outer = cursor.names.len();
        let test = test(self.alloc, cursor, self.room - 1)?;
        match self.inner(cursor) {
            Ok(body) => left(cursor, outer, Stmt::While { token, test, body }),
            Err(e) => {
                drop(test);
                Err(e)
            }
        }
    }

    /// Reads what is behind `switch` (C11, 6.8.4.2).
    #[tactic(auto, unfolding(c_grammar::specs::ReadingStmt::switch_with))]
    fn behind_switch(&self, cursor: &mut Cursor<'_>, token: u32) -> Result<Stmt, ParseError>
        requires room { 0 < self.now.room }
        requires nests { ReadsStmt self.now.room (F.pre self.now.statement) (F.post self.now.statement) }
        ensures total { cursor.new.total ≡ cursor.old.total }
        ensures reads { Gives (seen cursor.new) result
            (switch_with cursor.old.total most (statement cursor.old.total most self.now.room) (self.now.room - 1) token (state_of cursor.old)) }
    {
        let outer = cursor.names.len();
        let value = test(self.alloc, cursor, self.room - 1)?;
        match self.inner(cursor) {
            Ok(body) => left(cursor, outer, Stmt::Switch { token, value, body }),
            Err(e) => {
                drop(value);
                Err(e)
            }
        }
    }

    /// Reads what is behind `do` (C11, 6.8.5.2).
    #[tactic(auto, unfolding(c_grammar::specs::ReadingStmt::do_with))]
    fn behind_do(&self, cursor: &mut Cursor<'_>, token: u32) -> Result<Stmt, ParseError>
        requires room { 0 < self.now.room }
        requires nests { ReadsStmt self.now.room (F.pre self.now.statement) (F.post self.now.statement) }
        ensures total { cursor.new.total ≡ cursor.old.total }
        ensures reads { Gives (seen cursor.new) result
            (do_with cursor.old.total most (statement cursor.old.total most self.now.room) (self.now.room - 1) token (state_of cursor.old)) }
    {
        let outer = cursor.names.len();
        let body = self.inner(cursor)?;
        let body = behind_body(cursor, outer, body)?;
        let test = match test(self.alloc, cursor, self.room - 1) {
            Ok(test) => test,
            Err(e) => {
                drop(body);
                return Err(e);
            }
        };
        match ended(cursor, test, Mark::Semicolon) {
            Ok(test) => left(cursor, outer, Stmt::Do { token, body, test }),
            Err(e) => {
                drop(body);
                Err(e)
            }
        }
    }

    /// Reads what is behind `for` (C11, 6.8.5.3).
    #[tactic(auto, unfolding(c_grammar::specs::ReadingStmt::for_with))]
    fn behind_for(&self, cursor: &mut Cursor<'_>, token: u32) -> Result<Stmt, ParseError>
        requires room { 0 < self.now.room }
        requires nests { ReadsStmt self.now.room (F.pre self.now.statement) (F.post self.now.statement) }
        ensures total { cursor.new.total ≡ cursor.old.total }
        ensures reads { Gives (seen cursor.new) result
            (for_with cursor.old.total most (statement cursor.old.total most self.now.room) (self.now.room - 1) token (state_of cursor.old)) }
    {
        let outer = cursor.names.len();
        cursor.expect_mark(Mark::OpenParen)?;
        let head = for_head(self.alloc, cursor, self.room - 1)?;
        match self.inner(cursor) {
            Ok(body) => {
                let Head { start, test, step } = head;
                let statement = Stmt::For {
                    token,
                    start,
                    test,
                    step,
                    body,
                };
                left(cursor, outer, statement)
            }
            Err(e) => {
                drop(head);
                Err(e)
            }
        }
    }

    /// Reads what is behind `case` (C11, 6.8.1).
    #[tactic(auto, unfolding(c_grammar::specs::ReadingStmt::case_with))]
    fn behind_case(&self, cursor: &mut Cursor<'_>, token: u32) -> Result<Stmt, ParseError>
        requires { ReadsStmt self.now.room (F.pre self.now.statement) (F.post self.now.statement) }
        ensures total { cursor.new.total ≡ cursor.old.total }
        ensures reads { Gives (seen cursor.new) result
            (case_with cursor.old.total most (statement cursor.old.total most self.now.room) self.now.room token (state_of cursor.old)) }
    {
        let value = expr(self.alloc, cursor, self.room, Extent::Cond)?;
        let value = ended(cursor, value, Mark::Colon)?;
        match self.inner(cursor) {
            Ok(body) => Ok(Stmt::Case { token, value, body }),
            Err(e) => {
                drop(value);
                Err(e)
            }
        }
    }

    /// Reads what is behind `default` (C11, 6.8.1).
    #[tactic(auto, unfolding(c_grammar::specs::ReadingStmt::default_with))]
    fn behind_default(&self, cursor: &mut Cursor<'_>, token: u32) -> Result<Stmt, ParseError>
        requires { ReadsStmt self.now.room (F.pre self.now.statement) (F.post self.now.statement) }
        ensures total { cursor.new.total ≡ cursor.old.total }
        ensures reads { Gives (seen cursor.new) result
            (default_with cursor.old.total (statement cursor.old.total most self.now.room) token (state_of cursor.old)) }
    {
        cursor.expect_mark(Mark::Colon)?;
        let body = self.inner(cursor)?;
        Ok(Stmt::Default { token, body })
    }

    /// Reads a statement that is no block.
    #[tactic(auto, unfolding(c_grammar::specs::ReadingStmt::simple))]
    fn simple(&self, cursor: &mut Cursor<'_>) -> Result<Stmt, ParseError>
        requires { ReadsStmt self.now.room (F.pre self.now.statement) (F.post self.now.statement) }
        ensures total { cursor.new.total ≡ cursor.old.total }
        ensures reads { Gives (seen cursor.new) result
            (simple cursor.old.total most (statement cursor.old.total most self.now.room) self.now.room (state_of cursor.old)) }
    {
        if self.room == 0 {
            return Err(cramped(cursor));
        }
        let Some(word) = keyword_at(cursor.rest) else {
            return express(self.alloc, cursor, self.room);
        };
        self.by_keyword(cursor, word)
    }

    /// Reads a statement that begins with this keyword.
    fn by_keyword(&self, cursor: &mut Cursor<'_>, word: Keyword) -> Result<Stmt, ParseError>
        requires room { 0 < self.now.room }
        requires nests { ReadsStmt self.now.room (F.pre self.now.statement) (F.post self.now.statement) }
        ensures total { cursor.new.total ≡ cursor.old.total }
        ensures reads { Gives (seen cursor.new) result
            (by_keyword cursor.old.total most (statement cursor.old.total most self.now.room) self.now.room (Some word) (state_of cursor.old)) }
    {
        let token = cursor.here();
        match word {
            Keyword::If => {
                cursor.skip();
                self.behind_if(cursor, token)
            }
            Keyword::While => {
                cursor.skip();
                self.behind_while(cursor, token)
            }
            Keyword::Do => {
                cursor.skip();
                self.behind_do(cursor, token)
            }
            Keyword::For => {
                cursor.skip();
                self.behind_for(cursor, token)
            }
            Keyword::Switch => {
                cursor.skip();
                self.behind_switch(cursor, token)
            }
            Keyword::Case => {
                cursor.skip();
                self.behind_case(cursor, token)
            }
            Keyword::Default => {
                cursor.skip();
                self.behind_default(cursor, token)
            }
            Keyword::Break => {
                cursor.skip();
                behind_break(cursor, token)
            }
            Keyword::Continue => {
                cursor.skip();
                behind_continue(cursor, token)
            }
            Keyword::Return => {
                cursor.skip();
                behind_return(self.alloc, cursor, self.room, token)
            }
            _ => express(self.alloc, cursor, self.room),
        }
    }

    /// Reads a declaration or a statement.
    #[tactic(auto, unfolding(c_grammar::specs::ReadingStmt::item))]
    fn item(&self, cursor: &mut Cursor<'_>) -> Result<BlockItem<Boxed<Stmt>>, ParseError>
        requires { ReadsStmt self.now.room (F.pre self.now.statement) (F.post self.now.statement) }
        ensures total { cursor.new.total ≡ cursor.old.total }
        ensures reads { Gives (seen cursor.new) result
            (item cursor.old.total most (statement cursor.old.total most self.now.room) self.now.room (state_of cursor.old)) }
    {
        if sees_type(&cursor.names, cursor.rest) {
            let declaration = decl(self.alloc, cursor, self.room)?;
            return Ok(BlockItem::Declaration(declaration));
        }
        Ok(BlockItem::Statement(self.inner(cursor)?))
    }

    /// Reads what stands in a block, and the brace that closes it.
    #[tactic(auto, unfolding(c_grammar::specs::ReadingStmt::items))]
    fn items(&self, cursor: &mut Cursor<'_>) -> Result<Items<BlockItem<Boxed<Stmt>>>, ParseError>
        requires { ReadsStmt self.now.room (F.pre self.now.statement) (F.post self.now.statement) }
        ensures total { cursor.new.total ≡ cursor.old.total }
        ensures reads { Gives (seen cursor.new) result
            (items cursor.old.total most (statement cursor.old.total most self.now.room) self.now.room (length cursor.old.rest.now) [] (state_of cursor.old)) }
    {
        let mut all = Items::new(self.alloc);
        let mut count = cursor.rest.len();
        'items: while count > 0 {
            count -= 1;
            if cursor.sees_mark(Mark::CloseBrace) {
                cursor.skip();
                return Ok(all);
            }
            let one = self.item(cursor)?;
            all.push(one)?;
        }
        // the end of the tokens, which may be nested too deeply
        drop(all);
        let more = self.item(cursor)?;
        drop(more);
        Err(cursor.unexpected())
    }

    /// Reads a block (C11, 6.8.2): what is declared in it is out of scope behind it.
    #[tactic(auto, unfolding(c_grammar::specs::ReadingStmt::block_with))]
    fn block(&self, cursor: &mut Cursor<'_>) -> Result<Stmt, ParseError>
        requires { ReadsStmt self.now.room (F.pre self.now.statement) (F.post self.now.statement) }
        ensures total { cursor.new.total ≡ cursor.old.total }
        ensures reads { Gives (seen cursor.new) result
            (block_with cursor.old.total most (statement cursor.old.total most self.now.room) self.now.room (state_of cursor.old)) }
    {
        let token = cursor.here();
        let outer = cursor.names.len();
        cursor.skip();
        let items = self.items(cursor)?;
        left(cursor, outer, Stmt::Block { token, items })
    }
}

/// Reads a statement (C11, 6.8).
#[tactic(auto, unfolding(c_grammar::specs::ReadingStmt::statement))]
fn statement(alloc: Global, cursor: &mut Cursor<'_>, room: u8) -> Result<Stmt, ParseError>
    ensures total { cursor.new.total ≡ cursor.old.total }
    ensures reads { Gives (seen cursor.new) result (statement cursor.old.total most room (state_of cursor.old)) }
{
    if room == 0 {
        return Err(cursor.too_deep());
    }
    let rules = Statements {
        alloc,
        room: room - 1,
        statement,
    };
    if cursor.sees_mark(Mark::OpenBrace) {
        return rules.block(cursor);
    }
    rules.simple(cursor)
}

/// Reads what stands in a block, and the brace that closes it.
pub fn block_items(
    alloc: Global,
    cursor: &mut Cursor<'_>,
    room: u8,
) -> Result<Items<BlockItem<Boxed<Stmt>>>, ParseError>
    ensures total { cursor.new.total ≡ cursor.old.total }
    ensures reads { Gives (seen cursor.new) result
        (items cursor.old.total most (statement cursor.old.total most room) room (length cursor.old.rest.now) [] (state_of cursor.old)) }
{
    let rules = Statements {
        alloc,
        room,
        statement,
    };
    rules.items(cursor)
}
