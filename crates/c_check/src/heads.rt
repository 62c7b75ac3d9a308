//! What stands in statements beside other statements (C11, 6.8).

ghost use Rattle.std.specs.Prelude.{◌≡◌, Option, Some, None};
ghost use Rattle.c_check.specs.Draft.{Gives};
ghost use Rattle.c_check.specs.Statements as statements;

use crate::making::{Heads, do_stmt};
use crate::values::{choice, returned, test, unused};
use crate::{Draft, Inside, Labels};
use c_ast::{Expr, ForStart};
use c_const::first_token;
use c_judge::Mode;
use c_types::{Declared, FullExpr, Stmt as Typed};
use c_typing::{Judged, Rule};
use rank_range::Kind;
use sqlite_items::Items;
use std::alloc::{AllocError, Global};
use std::mem;

impl Draft {
    /// What an expression is whose value is used.
    fn used(&mut self, alloc: Global, e: &Expr) -> Result<Option<Judged>, AllocError>
        ensures { Gives result self.new (statements.used e.now self.old) }
    {
        let mode = Mode {
            is_used: true,
            is_evaluated: true,
        };
        self.checker.expr(alloc, e, mode)
    }

    /// What an expression is whose value isn't used.
    #[tactic(auto, unfolding(crate::specs::Draft::then_with))]
    fn unused(&mut self, alloc: Global, e: &Expr) -> Result<FullExpr, AllocError>
        ensures { Gives result self.new (statements.unused e.now self.old) }
    {
        let mode = Mode {
            is_used: false,
            is_evaluated: true,
        };
        let judged = self.checker.expr(alloc, e, mode)?;
        unused(&mut self.checker, alloc, first_token(e), judged)
    }

    /// The test of a statement at a token.
    #[tactic(auto, unfolding(crate::specs::Draft::then_with))]
    pub fn test(&mut self, alloc: Global, at: u32, e: &Expr) -> Result<FullExpr, AllocError>
        ensures { Gives result self.new (statements.test at e.now self.old) }
    {
        let judged = self.used(alloc, e)?;
        test(&mut self.checker, alloc, at, first_token(e), judged)
    }

    /// The value of a `switch` at a token.
    #[tactic(auto, unfolding(crate::specs::Draft::then_with))]
    pub fn choice(
        &mut self,
        alloc: Global,
        at: u32,
        e: &Expr,
    ) -> Result<(FullExpr, Option<Kind>), AllocError>
        ensures { Gives result self.new (statements.choice at e.now self.old) }
    {
        let judged = self.used(alloc, e)?;
        choice(&mut self.checker, alloc, at, first_token(e), judged)
    }

    /// The label of a `case` at a token.
    #[tactic(auto, unfolding(crate::specs::Draft::then_with))]
    pub fn case(
        &mut self,
        alloc: Global,
        inside: Inside,
        at: u32,
        e: &Expr,
    ) -> Result<u32, AllocError>
        ensures { Gives result self.new (statements.case inside at e.now self.old) }
    {
        let judged = self.used(alloc, e)?;
        let value = self.checker.constant(first_token(e), judged);
        self.label_case(inside, at, value)
    }

    /// `;`, or an expression before it.
    pub fn express(
        &mut self,
        alloc: Global,
        line: u32,
        e: &Option<Expr>,
    ) -> Result<Typed, AllocError>
        ensures { Gives result self.new (statements.express line e.now self.old) }
    {
        match e {
            Some(e) => {
                let value = self.unused(alloc, e)?;
                Ok(Typed::Express { line, value })
            }
            None => Ok(Typed::Empty { line }),
        }
    }

    pub fn break_stmt(&mut self, at: u32, line: u32, inside: Inside) -> Typed
        ensures value { result ≡ (statements.break_stmt at line inside self.old).0 }
        ensures state { self.new ≡ (statements.break_stmt at line inside self.old).1 }
    {
        let is_outside = !inside.is_loop && !inside.is_switch;
        self.note_if(is_outside, at, Rule::BreakOutside);
        Typed::Break { line }
    }

    pub fn continue_stmt(&mut self, at: u32, line: u32, inside: Inside) -> Typed
        ensures value { result ≡ (statements.continue_stmt at line inside self.old).0 }
        ensures state { self.new ≡ (statements.continue_stmt at line inside self.old).1 }
    {
        self.note_if(!inside.is_loop, at, Rule::ContinueOutside);
        Typed::Continue { line }
    }

    #[tactic(auto, unfolding(crate::specs::Draft::then_with))]
    pub fn return_stmt(
        &mut self,
        alloc: Global,
        at: u32,
        line: u32,
        e: &Option<Expr>,
    ) -> Result<Typed, AllocError>
        ensures { Gives result self.new (statements.return_stmt at line e.now self.old) }
    {
        match e {
            Some(e) => {
                let judged = self.used(alloc, e)?;
                let value = self.returned(alloc, at, first_token(e), judged)?;
                Ok(Typed::Return {
                    line,
                    value: Some(value),
                })
            }
            None => {
                let is_missing = self.gives_value();
                self.note_if(is_missing, at, Rule::ValueMissing);
                Ok(Typed::Return { line, value: None })
            }
        }
    }

    fn returned(
        &mut self,
        alloc: Global,
        at: u32,
        token: u32,
        judged: Option<Judged>,
    ) -> Result<FullExpr, AllocError>
        ensures { Gives result self.new (statements.returned at token judged self.old) }
    {
        match &self.result {
            Some(to) => returned(&mut self.checker, alloc, at, token, to, judged),
            None => unused(&mut self.checker, alloc, token, judged),
        }
    }

    /// Whether the function whose body is checked gives a value.
    fn gives_value(&self) -> bool
        ensures { result ≡ statements.gives_value self.now }
    {
        match &self.result {
            Some(of) => !c_typing::class_of_type(
                of,
                self.checker.sight.structs.as_slice(),
            ).is_void(),
            None => false,
        }
    }

    /// The test of a `do` behind its body.
    pub fn do_behind(
        &mut self,
        alloc: Global,
        at: u32,
        line: u32,
        body: Typed,
        e: &Expr,
    ) -> Result<Typed, AllocError>
        ensures { Gives result self.new (statements.do_behind at line e.now body self.old) }
    {
        match self.test(alloc, at, e) {
            Ok(test) => do_stmt(alloc, line, body, test),
            Err(error) => {
                drop(body);
                Err(error)
            }
        }
    }

    /// The labels of a `switch` begin; those around it are given.
    pub fn begin_labels(&mut self, alloc: Global, kind: Option<Kind>) -> Labels
        ensures outer { result ≡ self.old.labels }
        ensures begun { self.new ≡ statements.with_labels kind self.old }
    {
        mem::replace(&mut self.labels, Labels::none(alloc, kind))
    }

    /// The labels of a `switch` end, and are given; those around it go on.
    pub fn end_labels(&mut self, outer: Labels) -> Labels
        ensures labels { result ≡ self.old.labels }
        ensures outer { self.new ≡ statements.with_outer outer self.old }
    {
        mem::replace(&mut self.labels, outer)
    }

    /// What stands in the parentheses of a `for`.
    #[tactic(auto, unfolding(crate::specs::Draft::then_with))]
    pub fn heads(
        &mut self,
        alloc: Global,
        lines: &[u32],
        at: u32,
        start: &ForStart,
        test: &Option<Expr>,
        step: &Option<Expr>,
    ) -> Result<Heads, AllocError>
        ensures { Gives result self.new (statements.heads lines.now at start.now test.now step.now self.old) }
    {
        let heads = self.start(alloc, lines, start)?;
        let heads = self.with_test(alloc, at, test, heads)?;
        self.with_step(alloc, step, heads)
    }

    fn start(&mut self, alloc: Global, lines: &[u32], start: &ForStart) -> Result<Heads, AllocError>
        ensures { Gives result self.new (statements.start lines.now start.now self.old) }
    {
        match start {
            ForStart::Declaration(of) => {
                let declared = self.declaration(alloc, lines, of)?;
                Ok(Heads {
                    declared,
                    start: None,
                    test: None,
                    step: None,
                })
            }
            ForStart::Expression(e) => {
                let start = self.optional_unused(alloc, e)?;
                Ok(Heads {
                    declared: Items::new(alloc),
                    start,
                    test: None,
                    step: None,
                })
            }
        }
    }

    fn optional_unused(
        &mut self,
        alloc: Global,
        e: &Option<Expr>,
    ) -> Result<Option<FullExpr>, AllocError>
        ensures { Gives result self.new (statements.optional_unused e.now self.old) }
    {
        match e {
            Some(e) => Ok(Some(self.unused(alloc, e)?)),
            None => Ok(None),
        }
    }

    fn with_test(
        &mut self,
        alloc: Global,
        at: u32,
        e: &Option<Expr>,
        heads: Heads,
    ) -> Result<Heads, AllocError>
        ensures { Gives result self.new (statements.with_test at e.now heads self.old) }
    {
        let mut heads = heads;
        match e {
            Some(e) => match self.test(alloc, at, e) {
                Ok(test) => heads.test = Some(test),
                Err(error) => {
                    drop(heads);
                    return Err(error);
                }
            },
            None => {}
        }
        Ok(heads)
    }

    fn with_step(
        &mut self,
        alloc: Global,
        e: &Option<Expr>,
        heads: Heads,
    ) -> Result<Heads, AllocError>
        ensures { Gives result self.new (statements.with_step e.now heads self.old) }
    {
        let mut heads = heads;
        match self.optional_unused(alloc, e) {
            Ok(step) => heads.step = step,
            Err(error) => {
                drop(heads);
                return Err(error);
            }
        }
        Ok(heads)
    }
}
