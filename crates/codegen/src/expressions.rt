//! The code of expressions.

ghost use Rattle.std.specs.Prelude.{◌≡◌, OnOk, map};
ghost use Rattle.vm_code.specs.declared.instr.Instr.TheVariants.{Pop, Binary as InstrBinary, Jump as InstrJump};
ghost use Rattle.c_types.specs.declared.expression.Operand.TheOpen.Step-F.{Difference, Update, Advance};
ghost use Rattle.codegen.specs.Layout.{one, ◌then◌, over, negation, truths, jump_where, offset_part, step_part, in_order, operand_code, step_code, expr_part};
ghost use Rattle.codegen.specs.Statements.{offset_in};
ghost use Rattle.codegen.specs.Making.{Adds};

use crate::draft::{Draft, jump_where};
use crate::sizes::expr_size;
use c_types::{Direction, Expr, OffsetBy, Operand, Step};
use rank_range::{Binary, Kind, Segment};
use sqlite_items::Boxed;
use std::alloc::AllocError;
use vm_code::Instr;

/// The code of an expression.
#[cycle(emit)]
pub fn emit_expr(draft: &mut Draft, segment: &Segment, expr: &Expr) -> Result<(), AllocError>
    ensures { OnOk result (Adds draft.old draft.new (expr_part (offset_in segment.now) expr.now)) }
{
    emit_operand(draft, segment, &expr.first)?;
    emit_steps(draft, segment, expr.steps.as_slice())
}

#[cycle(emit)]
fn emit_steps(draft: &mut Draft, segment: &Segment, steps: &[Step]) -> Result<(), AllocError>
    ensures { OnOk result (Adds draft.old draft.new (in_order (map (step_code (offset_in segment.now)) steps.now))) }
{
    for step in steps {
        emit_step(draft, segment, step)?;
    }
    Ok(())
}

#[cycle(emit)]
fn emit_all(draft: &mut Draft, segment: &Segment, exprs: &[Expr]) -> Result<(), AllocError>
    ensures { OnOk result (Adds draft.old draft.new (in_order (map (expr_part (offset_in segment.now)) exprs.now))) }
{
    for expr in exprs {
        emit_expr(draft, segment, expr)?;
    }
    Ok(())
}

/// Where a static object stands among the globals; one without an offset stands where they begin.
fn offset_of(segment: &Segment, number: u32) -> u32
    ensures { result ≡ offset_in segment.now number }
{
    segment
        .objects
        .as_slice()
        .get(number as usize)
        .copied()
        .unwrap_or(0)
}

#[cycle(emit)]
fn emit_operand(draft: &mut Draft, segment: &Segment, operand: &Operand) -> Result<(), AllocError>
    ensures { OnOk result (Adds draft.old draft.new (operand_code (offset_in segment.now) operand.now)) }
{
    match operand {
        Operand::Number(word) => draft.put(Instr::Push(*word)),
        Operand::Local(offset) => draft.put(Instr::Local(*offset)),
        Operand::Object(number) => draft.put(Instr::Global(offset_of(segment, *number))),
        Operand::Call {
            function,
            arguments,
        } => {
            emit_all(draft, segment, arguments.as_slice())?;
            draft.put(Instr::Call {
                function: *function,
                arguments: arguments.len() as u64,
            })
        }
        Operand::Library { call, arguments } => {
            emit_all(draft, segment, arguments.as_slice())?;
            draft.put(Instr::Library {
                call: *call,
                arguments: arguments.len() as u64,
            })
        }
        Operand::Mpi { call, arguments } => {
            emit_all(draft, segment, arguments.as_slice())?;
            draft.put(Instr::Mpi {
                call: *call,
                arguments: arguments.len() as u64,
                second: false,
            })?;
            draft.put(Instr::Mpi {
                call: *call,
                arguments: arguments.len() as u64,
                second: true,
            })
        }
    }
}

/// An operand on the right, and an instruction behind it.
#[cycle(emit)]
fn emit_behind(
    draft: &mut Draft,
    segment: &Segment,
    right: &Boxed<Expr>,
    instr: Instr,
) -> Result<(), AllocError>
    ensures { OnOk result (Adds draft.old draft.new (expr_part (offset_in segment.now) right.now then one instr)) }
{
    emit_expr(draft, segment, right.get())?;
    draft.put(instr)
}

/// An operand on the right, and the negation of what an operator tells.
#[cycle(emit)]
fn emit_turned(
    draft: &mut Draft,
    segment: &Segment,
    right: &Boxed<Expr>,
    op: Binary,
    kind: Kind,
) -> Result<(), AllocError>
    ensures { OnOk result (Adds draft.old draft.new (expr_part (offset_in segment.now) right.now then one (InstrBinary op kind) then negation)) }
{
    emit_expr(draft, segment, right.get())?;
    draft.put_turned(op, kind)
}

/// A pointer and a number.
#[cycle(emit)]
fn emit_offset(
    draft: &mut Draft,
    segment: &Segment,
    by: OffsetBy,
    scale: u64,
    right: &Boxed<Expr>,
) -> Result<(), AllocError>
    ensures { OnOk result (Adds draft.old draft.new (offset_part by scale (expr_part (offset_in segment.now) right.now))) }
{
    draft.begin_offset(by, scale)?;
    emit_expr(draft, segment, right.get())?;
    draft.end_offset(by, scale)
}

/// The difference of two addresses.
#[cycle(emit)]
fn emit_difference(
    draft: &mut Draft,
    segment: &Segment,
    size: u64,
    right: &Boxed<Expr>,
) -> Result<(), AllocError>
    ensures { OnOk result (Adds draft.old draft.new (step_part (Difference size (expr_part (offset_in segment.now) right.now)))) }
{
    emit_expr(draft, segment, right.get())?;
    draft.put_difference(size)
}

/// The second operand of `&&` or `||`, by the value that is decisive.
#[cycle(emit)]
fn emit_decided(
    draft: &mut Draft,
    segment: &Segment,
    decisive: bool,
    right: &Boxed<Expr>,
) -> Result<(), AllocError>
    ensures { OnOk result (Adds draft.old draft.new (over (jump_where decisive) 3 (expr_part (offset_in segment.now) right.now) then truths decisive)) }
{
    let past = draft.ahead(expr_size(right.get()).saturating_add(4));
    draft.put(jump_where(decisive, past))?;
    emit_expr(draft, segment, right.get())?;
    draft.put_truths(decisive)
}

/// The value where a test fails, and the jump over it.
#[cycle(emit)]
fn emit_otherwise(
    draft: &mut Draft,
    segment: &Segment,
    otherwise: &Boxed<Expr>,
) -> Result<(), AllocError>
    ensures { OnOk result (Adds draft.old draft.new (over InstrJump 0 (expr_part (offset_in segment.now) otherwise.now))) }
{
    let end = draft.ahead(expr_size(otherwise.get()).saturating_add(1));
    draft.put(Instr::Jump(end))?;
    emit_expr(draft, segment, otherwise.get())
}

/// The value behind a comma.
#[cycle(emit)]
fn emit_comma(draft: &mut Draft, segment: &Segment, right: &Boxed<Expr>) -> Result<(), AllocError>
    ensures { OnOk result (Adds draft.old draft.new (one Pop then expr_part (offset_in segment.now) right.now)) }
{
    draft.put(Instr::Pop)?;
    emit_expr(draft, segment, right.get())
}

/// `a op= b` on a number.
#[cycle(emit)]
fn emit_update(
    draft: &mut Draft,
    segment: &Segment,
    op: Binary,
    kind: Kind,
    at: Kind,
    right: &Boxed<Expr>,
) -> Result<(), AllocError>
    ensures { OnOk result (Adds draft.old draft.new (step_part (Update op kind at (expr_part (offset_in segment.now) right.now)))) }
{
    draft.begin_update(kind, at)?;
    emit_expr(draft, segment, right.get())?;
    draft.end_update(op, kind, at)
}

/// `p += n` and `p -= n`.
#[cycle(emit)]
fn emit_advance(
    draft: &mut Draft,
    segment: &Segment,
    direction: Direction,
    scale: u64,
    right: &Boxed<Expr>,
) -> Result<(), AllocError>
    ensures { OnOk result (Adds draft.old draft.new (step_part (Advance direction scale (expr_part (offset_in segment.now) right.now)))) }
{
    draft.begin_advance()?;
    emit_expr(draft, segment, right.get())?;
    draft.end_advance(direction, scale)
}

#[cycle(emit)]
fn emit_step(draft: &mut Draft, segment: &Segment, step: &Step) -> Result<(), AllocError>
    ensures { OnOk result (Adds draft.old draft.new (step_code (offset_in segment.now) step.now)) }
{
    match step {
        Step::Load(kind) => draft.put(Instr::Load(*kind)),
        Step::Convert { from, to } => draft.put_converted(*from, *to),
        Step::Unary { op, kind } => draft.put(Instr::Unary {
            op: *op,
            kind: *kind,
        }),
        Step::Not => draft.put_negation(),
        Step::Member { offset } => draft.put_member(*offset),
        Step::Count {
            counted,
            direction,
            given,
        } => draft.put_count(*counted, *direction, *given),
        Step::Binary { op, kind, right } => {
            let instr = Instr::Binary {
                op: *op,
                kind: *kind,
            };
            emit_behind(draft, segment, right, instr)
        }
        Step::Assign { kind, right } => emit_behind(draft, segment, right, Instr::Store(*kind)),
        Step::Copy { size, right } => emit_behind(draft, segment, right, Instr::Copy(*size)),
        Step::Greater { kind, right } => {
            emit_turned(draft, segment, right, Binary::AtMost, *kind)
        }
        Step::AtLeast { kind, right } => emit_turned(draft, segment, right, Binary::Less, *kind),
        Step::Offset { by, scale, right } => emit_offset(draft, segment, *by, *scale, right),
        Step::Difference { size, right } => emit_difference(draft, segment, *size, right),
        Step::And { right } => emit_decided(draft, segment, false, right),
        Step::Or { right } => emit_decided(draft, segment, true, right),
        Step::Conditional { then, otherwise } => {
            let past = draft.ahead(expr_size(then.get()).saturating_add(2));
            draft.put(Instr::JumpIfZero(past))?;
            emit_expr(draft, segment, then.get())?;
            emit_otherwise(draft, segment, otherwise)
        }
        Step::Comma { right } => emit_comma(draft, segment, right),
        Step::Update {
            op,
            kind,
            at,
            right,
        } => emit_update(draft, segment, *op, *kind, *at, right),
        Step::Advance {
            direction,
            scale,
            right,
        } => emit_advance(draft, segment, *direction, *scale, right),
    }
}
