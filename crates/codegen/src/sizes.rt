//! How many instructions the code of an expression has, or 2^32 - 1 where that is more.

ghost use Rattle.std.specs.Prelude.{◌≡◌, map};
ghost use Rattle.codegen.specs.Sizes.{total, operand_sized, step_sized, expr_size, count_size};
ghost use Rattle.codegen.specs.Making.{at_most_word};

use c_types::{Expr, Given, Operand, Step};

#[cycle(size)]
pub fn expr_size(expr: &Expr) -> u32
    ensures { result ≡ at_most_word (expr_size expr.now) }
{
    operand_size(&expr.first).saturating_add(steps_size(expr.steps.as_slice()))
}

#[cycle(size)]
fn operand_size(operand: &Operand) -> u32
    ensures { result ≡ at_most_word (operand_sized operand.now) }
{
    match operand {
        Operand::Number(_) => 1,
        Operand::Local(_) => 1,
        Operand::Object(_) => 1,
        Operand::Call { arguments, .. } => all_size(arguments.as_slice()).saturating_add(1),
        Operand::Library { arguments, .. } => all_size(arguments.as_slice()).saturating_add(1),
        Operand::Mpi { arguments, .. } => all_size(arguments.as_slice()).saturating_add(2),
    }
}

#[cycle(size)]
fn all_size(exprs: &[Expr]) -> u32
    ensures { result ≡ at_most_word (total (map expr_size exprs.now)) }
{
    let mut size: u32 = 0;
    for expr in exprs {
        size = size.saturating_add(expr_size(expr));
    }
    size
}

#[cycle(size)]
fn steps_size(steps: &[Step]) -> u32
    ensures { result ≡ at_most_word (total (map step_sized steps.now)) }
{
    let mut size: u32 = 0;
    for step in steps {
        size = size.saturating_add(step_size(step));
    }
    size
}

#[cycle(size)]
fn step_size(step: &Step) -> u32
    ensures { result ≡ at_most_word (step_sized step.now) }
{
    match step {
        Step::Load(_) => 1,
        Step::Unary { .. } => 1,
        Step::Convert { .. } => 2,
        Step::Member { .. } => 2,
        Step::Not => 4,
        Step::Count { given, .. } => count_size(*given),
        Step::Comma { right } => expr_size(right.get()).saturating_add(1),
        Step::Binary { right, .. } => expr_size(right.get()).saturating_add(1),
        Step::Assign { right, .. } => expr_size(right.get()).saturating_add(1),
        Step::Copy { right, .. } => expr_size(right.get()).saturating_add(1),
        Step::Offset { right, .. } => expr_size(right.get()).saturating_add(3),
        Step::Difference { right, .. } => expr_size(right.get()).saturating_add(3),
        Step::Greater { right, .. } => expr_size(right.get()).saturating_add(5),
        Step::AtLeast { right, .. } => expr_size(right.get()).saturating_add(5),
        Step::And { right } => expr_size(right.get()).saturating_add(5),
        Step::Or { right } => expr_size(right.get()).saturating_add(5),
        Step::Advance { right, .. } => expr_size(right.get()).saturating_add(6),
        Step::Update { right, .. } => expr_size(right.get()).saturating_add(8),
        Step::Conditional { then, otherwise } => expr_size(then.get())
            .saturating_add(expr_size(otherwise.get()))
            .saturating_add(2),
    }
}

fn count_size(given: Given) -> u32
    ensures { result ≡ count_size given }
{
    match given {
        Given::New => 6,
        Given::Old => 9,
    }
}
