//! How many values are pending at once in an expression.

ghost use Rattle.std.specs.Prelude.{◌≡◌, ℕ, min, map};
ghost use Rattle.c_types.specs.Need.{need_of, need_first, need_behind, behind_all, in_call, in_count};

use c_types::{Counted, Expr, Operand, Step};

/// How many values are pending at once in an expression, up to 255.
#[cycle(need)]
pub fn need(expr: &Expr) -> u8
    ensures { result ≡ min (need_of expr.now) 255 }
{
    steps_need(expr.steps.as_slice(), operand_need(&expr.first))
}

#[cycle(need)]
fn operand_need(operand: &Operand) -> u8
    ensures { result ≡ min (need_first operand.now) 255 }
{
    match operand {
        Operand::Number(_) => 1,
        Operand::Local(_) => 1,
        Operand::Object(_) => 1,
        Operand::Call { arguments, .. } => call_need(arguments.as_slice()),
        Operand::Library { arguments, .. } => call_need(arguments.as_slice()),
        Operand::Mpi { arguments, .. } => call_need(arguments.as_slice()),
    }
}

/// The need of a call, each of whose arguments is pending while those behind it are evaluated.
#[cycle(need)]
fn call_need(arguments: &[Expr]) -> u8
    ensures { result ≡ min (in_call (map need_of arguments.now)) 255 }
{
    let mut most: u8 = 1;
    let mut before: u8 = 0;
    for argument in arguments {
        most = most.max(need(argument).saturating_add(before));
        before = before.saturating_add(1);
    }
    most
}

/// The need of steps behind a value, by that of the value.
#[cycle(need)]
fn steps_need(steps: &[Step], value: u8) -> u8
    ensures { (n : ℕ) → value ≡ min n 255 → result ≡ min (behind_all n (map need_behind steps.now)) 255 }
{
    let mut most = value;
    for step in steps {
        most = step_need(step, most);
    }
    most
}

/// The need of a step, by that of the value before it.
#[cycle(need)]
fn step_need(step: &Step, value: u8) -> u8
    ensures { (n : ℕ) → value ≡ min n 255 → result ≡ min (need_behind step.now n) 255 }
{
    match step {
        Step::Load(_) => value,
        Step::Convert { .. } => value,
        Step::Unary { .. } => value,
        Step::Not => value,
        Step::Member { .. } => value.max(2),
        Step::Binary { right, .. } => value.max(need(right.get()).saturating_add(1)),
        Step::Greater { right, .. } => value.max(need(right.get()).saturating_add(1)),
        Step::AtLeast { right, .. } => value.max(need(right.get()).saturating_add(1)),
        Step::Assign { right, .. } => value.max(need(right.get()).saturating_add(1)),
        Step::Copy { right, .. } => value.max(need(right.get()).saturating_add(1)),
        Step::Offset { right, .. } => value.max(need(right.get()).saturating_add(1)).max(3),
        Step::Difference { right, .. } => value.max(need(right.get()).saturating_add(1)).max(3),
        Step::And { right } => value.max(need(right.get())),
        Step::Or { right } => value.max(need(right.get())),
        Step::Comma { right } => value.max(need(right.get())),
        Step::Conditional { then, otherwise } => {
            value.max(need(then.get())).max(need(otherwise.get()))
        }
        Step::Update { right, .. } => value.max(need(right.get()).saturating_add(2)),
        Step::Advance { right, .. } => value.max(need(right.get()).saturating_add(2)).max(4),
        Step::Count { counted, .. } => count_need(*counted, value),
    }
}

fn count_need(counted: Counted, value: u8) -> u8
    ensures { (n : ℕ) → value ≡ min n 255 → result ≡ min (in_count counted n) 255 }
{
    match counted {
        Counted::Number(_) => value.max(3),
        Counted::Pointer(_) => value.max(4),
    }
}
