//! Statements, by recursion over their trees (C11, 6.8).

ghost use Rattle.std.specs.Prelude.{◌≡◌, map, []};
ghost use Rattle.c_check.specs.Draft.{Gives};
ghost use Rattle.c_check.specs.Statements as statements;
ghost use Rattle.c_check.specs.Running.{statement, item_of, body_of};

use crate::draft::line_at;
use crate::making::{Heads, for_stmt, if_stmt, labelled, switch_stmt, while_stmt, with_stmt};
use crate::{Draft, Inside};
use c_ast::{BlockItem, Stmt};
use c_types::{FullExpr, Stmt as Typed};
use rank_range::Kind;
use sqlite_items::{Boxed, Items};
use std::alloc::{AllocError, Global};

impl Draft {
    /// What a statement is.
    #[cycle(stmt)]
    pub fn stmt(
        &mut self,
        alloc: Global,
        lines: &[u32],
        of: &Stmt,
        inside: Inside,
    ) -> Result<Typed, AllocError>
        ensures { Gives result self.new (statement lines.now of.now inside self.old) }
    {
        match of {
            Stmt::Block { token: _, items } => self.block(alloc, lines, items.as_slice(), inside),
            Stmt::Express { token, expr } => self.express(alloc, line_at(lines, *token), expr),
            Stmt::If {
                token,
                test,
                then,
                otherwise,
            } => {
                let test = self.test(alloc, *token, test)?;
                let then = match self.stmt(alloc, lines, then.get(), inside) {
                    Ok(then) => then,
                    Err(error) => {
                        drop(test);
                        return Err(error);
                    }
                };
                let line = line_at(lines, *token);
                self.else_behind(alloc, lines, line, otherwise, test, then, inside)
            }
            Stmt::While { token, test, body } => {
                let test = self.test(alloc, *token, test)?;
                let line = line_at(lines, *token);
                self.while_behind(alloc, lines, line, test, body.get(), inside)
            }
            Stmt::Do { token, body, test } => {
                let body = self.stmt(alloc, lines, body.get(), inside.in_loop())?;
                self.do_behind(alloc, *token, line_at(lines, *token), body, test)
            }
            Stmt::For {
                token,
                start,
                test,
                step,
                body,
            } => {
                let before = self.open();
                let heads = self.heads(alloc, lines, *token, start, test, step)?;
                let line = line_at(lines, *token);
                let of = self.for_behind(alloc, lines, line, heads, body.get(), inside)?;
                self.close(before);
                Ok(of)
            }
            Stmt::Switch { token, value, body } => {
                let (value, kind) = self.choice(alloc, *token, value)?;
                let line = line_at(lines, *token);
                self.switch_behind(alloc, lines, line, value, kind, body.get(), inside)
            }
            Stmt::Case { token, value, body } => {
                let label = self.case(alloc, inside, *token, value)?;
                self.labelled(alloc, lines, label, body.get(), inside)
            }
            Stmt::Default { token, body } => {
                let label = self.label_default(inside, *token);
                self.labelled(alloc, lines, label, body.get(), inside)
            }
            Stmt::Break { token } => Ok(self.break_stmt(*token, line_at(lines, *token), inside)),
            Stmt::Continue { token } => {
                Ok(self.continue_stmt(*token, line_at(lines, *token), inside))
            }
            Stmt::Return { token, value } => {
                self.return_stmt(alloc, *token, line_at(lines, *token), value)
            }
        }
    }

    /// A block is a scope.
    #[cycle(stmt)]
    fn block(
        &mut self,
        alloc: Global,
        lines: &[u32],
        items: &[BlockItem<Boxed<Stmt>>],
        inside: Inside,
    ) -> Result<Typed, AllocError>
        ensures { Gives result self.new (statements.block lines.now (map (item_of lines.now) items.now) inside self.old) }
    {
        let before = self.open();
        let stmts = self.items(alloc, lines, items, inside)?;
        self.close(before);
        Ok(Typed::Block(stmts))
    }

    /// The parts of a block, one behind the other.
    #[cycle(stmt)]
    pub fn items(
        &mut self,
        alloc: Global,
        lines: &[u32],
        items: &[BlockItem<Boxed<Stmt>>],
        inside: Inside,
    ) -> Result<Items<Typed>, AllocError>
        ensures { Gives result self.new (statements.items lines.now (map (item_of lines.now) items.now) inside [] self.old) }
    {
        let mut done = Items::new(alloc);
        for item in items {
            done = self.item(alloc, lines, item, inside, done)?;
        }
        Ok(done)
    }

    #[cycle(stmt)]
    fn item(
        &mut self,
        alloc: Global,
        lines: &[u32],
        item: &BlockItem<Boxed<Stmt>>,
        inside: Inside,
        done: Items<Typed>,
    ) -> Result<Items<Typed>, AllocError>
        ensures { Gives result self.new (statements.item lines.now (item_of lines.now item.now) inside done self.old) }
    {
        match item {
            BlockItem::Declaration(of) => self.declare_in_block(alloc, lines, of, done),
            BlockItem::Statement(of) => match self.stmt(alloc, lines, of.get(), inside) {
                Ok(stmt) => with_stmt(done, stmt),
                Err(error) => {
                    drop(done);
                    Err(error)
                }
            },
        }
    }

    /// What stands behind the first branch of an `if`.
    #[cycle(stmt)]
    fn else_behind(
        &mut self,
        alloc: Global,
        lines: &[u32],
        line: u32,
        otherwise: &Option<Boxed<Stmt>>,
        test: FullExpr,
        then: Typed,
        inside: Inside,
    ) -> Result<Typed, AllocError>
        ensures { Gives result self.new (statements.if_otherwise line test (body_of lines.now otherwise.now) inside then self.old) }
    {
        match otherwise {
            Some(of) => match self.stmt(alloc, lines, of.get(), inside) {
                Ok(otherwise) => if_stmt(alloc, line, test, then, Some(otherwise)),
                Err(error) => {
                    drop(test);
                    drop(then);
                    Err(error)
                }
            },
            None => if_stmt(alloc, line, test, then, None),
        }
    }

    /// The body of a `while` behind its test.
    #[cycle(stmt)]
    fn while_behind(
        &mut self,
        alloc: Global,
        lines: &[u32],
        line: u32,
        test: FullExpr,
        body: &Stmt,
        inside: Inside,
    ) -> Result<Typed, AllocError>
        ensures { Gives result self.new (statements.while_behind line (statement lines.now body.now) inside test self.old) }
    {
        match self.stmt(alloc, lines, body, inside.in_loop()) {
            Ok(body) => while_stmt(alloc, line, test, body),
            Err(error) => {
                drop(test);
                Err(error)
            }
        }
    }

    /// The body of a `for` behind its heads.
    #[cycle(stmt)]
    fn for_behind(
        &mut self,
        alloc: Global,
        lines: &[u32],
        line: u32,
        heads: Heads,
        body: &Stmt,
        inside: Inside,
    ) -> Result<Typed, AllocError>
        ensures { Gives result self.new (statements.for_behind line (statement lines.now body.now) inside heads self.old) }
    {
        match self.stmt(alloc, lines, body, inside.in_loop()) {
            Ok(body) => for_stmt(alloc, line, heads, body),
            Err(error) => {
                drop(heads);
                Err(error)
            }
        }
    }

    /// The body of a `switch`, whose labels are its own.
    #[cycle(stmt)]
    fn switch_behind(
        &mut self,
        alloc: Global,
        lines: &[u32],
        line: u32,
        value: FullExpr,
        kind: Option<Kind>,
        body: &Stmt,
        inside: Inside,
    ) -> Result<Typed, AllocError>
        ensures { Gives result self.new (statements.switch_behind line value kind (statement lines.now body.now) inside self.old) }
    {
        let outer = self.begin_labels(alloc, kind);
        match self.stmt(alloc, lines, body, inside.in_switch()) {
            Ok(body) => switch_stmt(alloc, line, value, self.end_labels(outer), body),
            Err(error) => {
                drop(value);
                drop(outer);
                Err(error)
            }
        }
    }

    #[cycle(stmt)]
    fn labelled(
        &mut self,
        alloc: Global,
        lines: &[u32],
        label: u32,
        body: &Stmt,
        inside: Inside,
    ) -> Result<Typed, AllocError>
        ensures { Gives result self.new (statements.labelled (statement lines.now body.now) inside label self.old) }
    {
        labelled(alloc, label, self.stmt(alloc, lines, body, inside)?)
    }
}
