//! The code of statements.

ghost use Rattle.std.specs.Prelude.{◌≡◌, OnOk, None, Some, map};
ghost use Rattle.vm_code.specs.declared.instr.Instr.TheVariants.{Tick, Pop, Return, JumpIfZero as InstrJumpIfZero, Jump as InstrJump};
ghost use Rattle.codegen.specs.Layout.{one, ◌then◌, over};
ghost use Rattle.codegen.specs.Statements.{ticked, full_part, dropped_part, put_part, zeros_part, stores_part, declared_part, all_declared_part, test_part, again_part, continue_place, returned_part, in_order_part, stmt_piece, Within, case_part, cases_part, default_to};
ghost use Rattle.codegen.specs.Making.{Adds, within, targets_of, store_part, turns_part, for_turns_part, cut_to, label_to, switch_part};

use crate::draft::Draft;
use crate::expressions::emit_expr;
use crate::labels::label_of;
use crate::sizes::expr_size;
use crate::statement_sizes::{again_size, cases_size, stmt_size, with_one};
use c_types::{Case, Declared, FullExpr, Span, Stmt, Store, Stored};
use rank_range::{Binary, Segment};
use std::alloc::AllocError;
use vm_code::Instr;

/// Where `break` and `continue` lead.
#[derive(Clone, Copy, Debug, PartialEq, Eq)]
pub struct Places {
    pub to_break: u32,
    pub to_continue: u32,
}

fn emit_tick(draft: &mut Draft, unit: u8, line: u32) -> Result<(), AllocError>
    ensures { OnOk result (Adds draft.old draft.new (one (Tick unit line))) }
{
    draft.put(Instr::Tick { unit, line })
}

/// A full expression behind its own tick point.
fn emit_ticked(
    draft: &mut Draft,
    segment: &Segment,
    unit: u8,
    line: u32,
    full: &FullExpr,
) -> Result<(), AllocError>
    ensures { OnOk result (Adds draft.old draft.new (ticked (within unit segment.now) line then full_part (within unit segment.now) full.now)) }
{
    emit_tick(draft, unit, line)?;
    emit_expr(draft, segment, &full.expr)
}

/// An expression whose value is dropped, where it is there.
fn emit_dropped(
    draft: &mut Draft,
    segment: &Segment,
    unit: u8,
    value: &Option<FullExpr>,
) -> Result<(), AllocError>
    ensures { OnOk result (Adds draft.old draft.new (dropped_part (within unit segment.now) value.now)) }
{
    match value {
        None => Ok(()),
        Some(full) => {
            emit_expr(draft, segment, &full.expr)?;
            draft.put(Instr::Pop)
        }
    }
}

/// The instruction that stores a value.
fn put_of(stored: Stored) -> Instr
    ensures { result ≡ put_part stored }
{
    match stored {
        Stored::Number(kind) => Instr::Store(kind),
        Stored::Structure { size } => Instr::Copy(size),
    }
}

fn emit_store(
    draft: &mut Draft,
    segment: &Segment,
    unit: u8,
    store: &Store,
) -> Result<(), AllocError>
    ensures { OnOk result (Adds draft.old draft.new (store_part (within unit segment.now) store.now)) }
{
    draft.put(Instr::Local(store.offset))?;
    emit_expr(draft, segment, &store.value.expr)?;
    draft.put(put_of(store.stored))?;
    draft.put(Instr::Pop)
}

fn emit_stores(
    draft: &mut Draft,
    segment: &Segment,
    unit: u8,
    stores: &[Store],
) -> Result<(), AllocError>
    ensures { OnOk result (Adds draft.old draft.new (stores_part (within unit segment.now) stores.now)) }
{
    for store in stores {
        emit_store(draft, segment, unit, store)?;
    }
    Ok(())
}

fn emit_zeros(draft: &mut Draft, zeros: Option<Span>) -> Result<(), AllocError>
    ensures { OnOk result (Adds draft.old draft.new (zeros_part zeros)) }
{
    match zeros {
        None => Ok(()),
        Some(span) => {
            draft.put(Instr::Local(span.offset))?;
            draft.put(Instr::Zero(span.size))
        }
    }
}

fn emit_declared(
    draft: &mut Draft,
    segment: &Segment,
    unit: u8,
    declared: &Declared,
) -> Result<(), AllocError>
    ensures { OnOk result (Adds draft.old draft.new (declared_part (within unit segment.now) declared.now)) }
{
    emit_tick(draft, unit, declared.line)?;
    emit_zeros(draft, declared.zeros)?;
    emit_stores(draft, segment, unit, declared.stores.as_slice())
}

fn emit_all_declared(
    draft: &mut Draft,
    segment: &Segment,
    unit: u8,
    all: &[Declared],
) -> Result<(), AllocError>
    ensures { OnOk result (Adds draft.old draft.new (all_declared_part (within unit segment.now) all.now)) }
{
    for declared in all {
        emit_declared(draft, segment, unit, declared)?;
    }
    Ok(())
}

/// A test, and a jump to the end where it fails.
fn emit_test(
    draft: &mut Draft,
    segment: &Segment,
    unit: u8,
    test: &Option<FullExpr>,
    end: u32,
) -> Result<(), AllocError>
    ensures { OnOk result (Adds draft.old draft.new (test_part (within unit segment.now) test.now end)) }
{
    match test {
        None => Ok(()),
        Some(full) => {
            emit_expr(draft, segment, &full.expr)?;
            draft.put(Instr::JumpIfZero(end))
        }
    }
}

/// The step of a `for`, behind a tick point that is jumped over.
fn emit_again(
    draft: &mut Draft,
    segment: &Segment,
    unit: u8,
    line: u32,
    step: &Option<FullExpr>,
) -> Result<(), AllocError>
    ensures { OnOk result (Adds draft.old draft.new (again_part (within unit segment.now) line step.now)) }
{
    match step {
        None => Ok(()),
        Some(full) => {
            let into = draft.ahead(2);
            draft.put(Instr::Jump(into))?;
            emit_ticked(draft, segment, unit, line, full)?;
            draft.put(Instr::Pop)
        }
    }
}

/// A statement that evaluates an expression.
fn emit_express(
    draft: &mut Draft,
    segment: &Segment,
    unit: u8,
    line: u32,
    value: &FullExpr,
) -> Result<(), AllocError>
    ensures { OnOk result (Adds draft.old draft.new (ticked (within unit segment.now) line then full_part (within unit segment.now) value.now then one Pop)) }
{
    emit_ticked(draft, segment, unit, line, value)?;
    draft.put(Instr::Pop)
}

/// `break` and `continue`.
fn emit_jump(draft: &mut Draft, unit: u8, line: u32, to: u32) -> Result<(), AllocError>
    ensures { OnOk result (Adds draft.old draft.new (one (Tick unit line) then one (InstrJump to))) }
{
    emit_tick(draft, unit, line)?;
    draft.put(Instr::Jump(to))
}

/// The value that a function returns.
fn emit_returned(
    draft: &mut Draft,
    segment: &Segment,
    unit: u8,
    value: &Option<FullExpr>,
) -> Result<(), AllocError>
    ensures { OnOk result (Adds draft.old draft.new (returned_part (within unit segment.now) value.now)) }
{
    match value {
        None => draft.put(Instr::Push(0)),
        Some(full) => emit_expr(draft, segment, &full.expr),
    }
}

fn emit_return(
    draft: &mut Draft,
    segment: &Segment,
    unit: u8,
    line: u32,
    value: &Option<FullExpr>,
) -> Result<(), AllocError>
    ensures { OnOk result (Adds draft.old draft.new (ticked (within unit segment.now) line then returned_part (within unit segment.now) value.now then one Return)) }
{
    emit_tick(draft, unit, line)?;
    emit_returned(draft, segment, unit, value)?;
    draft.put(Instr::Return)
}

/// Where `continue` leads in a `for`.
fn continue_place(step: &Option<FullExpr>, test: u32, again: u32) -> u32
    ensures { result ≡ continue_place step.now test again }
{
    match step {
        None => test,
        Some(_) => again,
    }
}

/// The place in a body that begins at the one place and ends at the other: its end, where there is none.
fn led_to(start: u32, end: u32, place: Option<u32>) -> u32
    ensures { result ≡ cut_to start end place }
{
    match place {
        None => end,
        Some(before) => start.saturating_add(before),
    }
}

/// Goes to a place where the value of a `switch` is that of a case.
fn emit_case(draft: &mut Draft, case: &Case, to: u32) -> Result<(), AllocError>
    ensures { OnOk result (Adds draft.old draft.new (case_part to case.now)) }
{
    let next = draft.ahead(6);
    draft.put(Instr::Dup)?;
    draft.put(Instr::Push(case.value))?;
    draft.put_words(Binary::Equal)?;
    draft.put(Instr::JumpIfZero(next))?;
    draft.put(Instr::Pop)?;
    draft.put(Instr::Jump(to))
}

/// Goes to a case of a `switch` with this body, which begins at the one place and ends at the other.
fn emit_choice(
    draft: &mut Draft,
    case: &Case,
    start: u32,
    end: u32,
    body: &Stmt,
) -> Result<(), AllocError>
    ensures { OnOk result ((w : Within) → Adds draft.old draft.new (case_part (label_to start end (stmt_piece w body.now) case.now.label) case.now)) }
{
    emit_case(draft, case, led_to(start, end, label_of(body, case.label)))
}

/// The cases of a `switch` with this body, which begins at the one place and ends at the other.
fn emit_cases(
    draft: &mut Draft,
    cases: &[Case],
    start: u32,
    end: u32,
    body: &Stmt,
) -> Result<(), AllocError>
    ensures { OnOk result ((w : Within) → Adds draft.old draft.new (cases_part (label_to start end (stmt_piece w body.now)) cases.now)) }
{
    for case in cases {
        emit_choice(draft, case, start, end, body)?;
    }
    Ok(())
}

/// Where a `switch` goes on whose value no case has.
fn default_place(default: Option<u32>, start: u32, end: u32, body: &Stmt) -> u32
    ensures { (w : Within) → result ≡ default_to (label_to start end (stmt_piece w body.now)) end default }
{
    match default {
        None => end,
        Some(label) => led_to(start, end, label_of(body, label)),
    }
}

/// The statements in order.
#[cycle(stmt)]
pub fn emit_stmts(
    draft: &mut Draft,
    segment: &Segment,
    unit: u8,
    places: Places,
    stmts: &[Stmt],
) -> Result<(), AllocError>
    ensures { OnOk result (Adds draft.old draft.new (in_order_part (map (stmt_piece (within unit segment.now)) stmts.now) (targets_of places))) }
{
    for stmt in stmts {
        emit_stmt(draft, segment, unit, places, stmt)?;
    }
    Ok(())
}

/// The statement behind the test of an `if`.
#[cycle(stmt)]
fn emit_then(
    draft: &mut Draft,
    segment: &Segment,
    unit: u8,
    places: Places,
    first: &Stmt,
) -> Result<(), AllocError>
    ensures { OnOk result (Adds draft.old draft.new (over InstrJumpIfZero 0 ((stmt_piece (within unit segment.now) first.now).part (targets_of places)))) }
{
    let past = draft.ahead(stmt_size(first).saturating_add(1));
    draft.put(Instr::JumpIfZero(past))?;
    emit_stmt(draft, segment, unit, places, first)
}

/// The statement behind the `else` of an `if`, and the jump over it.
#[cycle(stmt)]
fn emit_else(
    draft: &mut Draft,
    segment: &Segment,
    unit: u8,
    places: Places,
    second: &Stmt,
) -> Result<(), AllocError>
    ensures { OnOk result (Adds draft.old draft.new (over InstrJump 0 ((stmt_piece (within unit segment.now) second.now).part (targets_of places)))) }
{
    let end = draft.ahead(stmt_size(second).saturating_add(1));
    draft.put(Instr::Jump(end))?;
    emit_stmt(draft, segment, unit, places, second)
}

/// The turns of a `while` and of a `do`: the test behind its tick point, the body, and the jump back.
#[cycle(stmt)]
fn emit_turns(
    draft: &mut Draft,
    segment: &Segment,
    unit: u8,
    line: u32,
    test: &FullExpr,
    body: &Stmt,
) -> Result<(), AllocError>
    ensures { OnOk result (Adds draft.old draft.new (turns_part (within unit segment.now) line test.now (stmt_piece (within unit segment.now) body.now))) }
{
    let start = draft.end();
    let size = expr_size(&test.expr)
        .saturating_add(stmt_size(body))
        .saturating_add(3);
    let end = draft.ahead(size);
    emit_ticked(draft, segment, unit, line, test)?;
    draft.put(Instr::JumpIfZero(end))?;
    let places = Places {
        to_break: end,
        to_continue: start,
    };
    emit_stmt(draft, segment, unit, places, body)?;
    draft.put(Instr::Jump(start))
}

/// A `for` from the tick point of its test on.
#[cycle(stmt)]
fn emit_for_turns(
    draft: &mut Draft,
    segment: &Segment,
    unit: u8,
    line: u32,
    test: &Option<FullExpr>,
    step: &Option<FullExpr>,
    body: &Stmt,
) -> Result<(), AllocError>
    ensures { OnOk result (Adds draft.old draft.new (for_turns_part (within unit segment.now) line test.now step.now (stmt_piece (within unit segment.now) body.now))) }
{
    let start = draft.end();
    let size = with_one(test).saturating_add(stmt_size(body));
    let again = draft.ahead(size.saturating_add(3));
    let end = draft.ahead(size.saturating_add(again_size(step)).saturating_add(2));
    emit_tick(draft, unit, line)?;
    emit_test(draft, segment, unit, test, end)?;
    let places = Places {
        to_break: end,
        to_continue: continue_place(step, start, again),
    };
    emit_stmt(draft, segment, unit, places, body)?;
    emit_again(draft, segment, unit, line, step)?;
    draft.put(Instr::Jump(start))
}

/// A `switch` behind its value: the choice among its cases, and its body.
#[cycle(stmt)]
fn emit_switch(
    draft: &mut Draft,
    segment: &Segment,
    unit: u8,
    places: Places,
    cases: &[Case],
    default: Option<u32>,
    body: &Stmt,
) -> Result<(), AllocError>
    ensures { OnOk result (Adds draft.old draft.new (switch_part (targets_of places) cases.now default (stmt_piece (within unit segment.now) body.now))) }
{
    let front = cases_size(cases).saturating_add(2);
    let start = draft.ahead(front);
    let end = draft.ahead(front.saturating_add(stmt_size(body)));
    emit_cases(draft, cases, start, end, body)?;
    draft.put(Instr::Pop)?;
    draft.put(Instr::Jump(default_place(default, start, end, body)))?;
    let inner = Places {
        to_break: end,
        to_continue: places.to_continue,
    };
    emit_stmt(draft, segment, unit, inner, body)
}

#[cycle(stmt)]
fn emit_stmt(
    draft: &mut Draft,
    segment: &Segment,
    unit: u8,
    places: Places,
    stmt: &Stmt,
) -> Result<(), AllocError>
    ensures { OnOk result (Adds draft.old draft.new ((stmt_piece (within unit segment.now) stmt.now).part (targets_of places))) }
{
    match stmt {
        Stmt::Empty { line } => emit_tick(draft, unit, *line),
        Stmt::Express { line, value } => emit_express(draft, segment, unit, *line, value),
        Stmt::Declare(declared) => emit_declared(draft, segment, unit, declared),
        Stmt::Block(stmts) => emit_stmts(draft, segment, unit, places, stmts.as_slice()),
        Stmt::If {
            line,
            test,
            then,
            otherwise,
        } => {
            emit_ticked(draft, segment, unit, *line, test)?;
            match otherwise {
                None => emit_then(draft, segment, unit, places, then.get()),
                Some(second) => {
                    let past = draft.ahead(stmt_size(then.get()).saturating_add(2));
                    draft.put(Instr::JumpIfZero(past))?;
                    emit_stmt(draft, segment, unit, places, then.get())?;
                    emit_else(draft, segment, unit, places, second.get())
                }
            }
        }
        Stmt::While { line, test, body } => {
            emit_tick(draft, unit, *line)?;
            emit_turns(draft, segment, unit, *line, test, body.get())
        }
        Stmt::Do { line, body, test } => {
            let into = draft.ahead(expr_size(&test.expr).saturating_add(4));
            emit_tick(draft, unit, *line)?;
            draft.put(Instr::Jump(into))?;
            emit_turns(draft, segment, unit, *line, test, body.get())
        }
        Stmt::For {
            line,
            declared,
            start,
            test,
            step,
            body,
        } => {
            emit_tick(draft, unit, *line)?;
            emit_all_declared(draft, segment, unit, declared.as_slice())?;
            emit_dropped(draft, segment, unit, start)?;
            emit_for_turns(draft, segment, unit, *line, test, step, body.get())
        }
        Stmt::Switch {
            line,
            value,
            cases,
            default,
            body,
        } => {
            emit_ticked(draft, segment, unit, *line, value)?;
            emit_switch(
                draft,
                segment,
                unit,
                places,
                cases.as_slice(),
                *default,
                body.get(),
            )
        }
        Stmt::Labelled { body, .. } => emit_stmt(draft, segment, unit, places, body.get()),
        Stmt::Break { line } => emit_jump(draft, unit, *line, places.to_break),
        Stmt::Continue { line } => emit_jump(draft, unit, *line, places.to_continue),
        Stmt::Return { line, value } => emit_return(draft, segment, unit, *line, value),
    }
}
