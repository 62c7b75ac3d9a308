//! Operators between two operands (C11, 6.5.5 to 6.5.14): what they make of them.

ghost use Rattle.std.specs.Prelude.{◌≡◌, IfOk};
ghost use Rattle.c_typing.specs.Operators as operators;
ghost use Rattle.c_typing.specs.Operators.{plan_for, number_plan, shift_plan, sum_plan, difference_plan, made, result_type};
ghost use Rattle.c_typing.specs.Rules.{Tells};

use crate::pairs::{Pair, binary_rule, pair_of};
use crate::trees::{Joining, Side, operation};
use crate::values::{both_used, whole_type};
use crate::{Judged, Sort, TypeError, Value};
use c_ast::BinaryOp;
use c_const::Evaluated;
use c_types::{CType, OffsetBy, StructType};
use rank_range::{Binary, Kind, usual};
use std::alloc::{AllocError, Global};

/// What is done with two operands: the kinds to which they are converted, the step, and the type of what it gives.
#[derive(Clone, Copy)]
pub struct Plan {
    pub left: Kind,
    pub right: Kind,
    pub step: Joining,
    pub gives: Gives,
}

/// The type of what an operator gives.
#[derive(Clone, Copy)]
pub enum Gives {
    Whole(Kind),
    /// That of the left operand.
    Left,
    /// That of the right operand.
    Right,
}

/// An operator between two operands.
#[tactic(auto, unfolding(crate::specs::Operators::binary))]
pub fn binary(
    alloc: Global,
    structs: &[StructType],
    op: BinaryOp,
    a: Judged,
    b: Judged,
) -> Result<Judged, TypeError>
    ensures { Tells result (operators.binary structs.now op a b) }
{
    let (a, b) = both_used(alloc, a, b)?;
    let pair = pair_of(structs, &a, &b);
    if let Some(rule) = binary_rule(op, pair) {
        drop(a);
        drop(b);
        return Err(TypeError::Broken(rule));
    }
    let constant = c_const::binary(op, a.constant, b.constant);
    Ok(Judged::Value(made(alloc, plan_for(op, pair), pair, constant, a, b)?))
}

fn plan_for(op: BinaryOp, pair: Pair) -> Plan
    ensures { result ≡ plan_for op pair }
{
    match op {
        BinaryOp::Or => test_plan(Joining::Or, pair),
        BinaryOp::And => test_plan(Joining::And, pair),
        BinaryOp::BitOr => number_plan(Binary::Or, pair),
        BinaryOp::BitXor => number_plan(Binary::Xor, pair),
        BinaryOp::BitAnd => number_plan(Binary::And, pair),
        BinaryOp::Equal => comparison_plan(Binary::Equal, pair),
        BinaryOp::NotEqual => comparison_plan(Binary::NotEqual, pair),
        BinaryOp::Less => comparison_plan(Binary::Less, pair),
        BinaryOp::AtMost => comparison_plan(Binary::AtMost, pair),
        BinaryOp::Greater => turned_plan(Joining::Greater(common(pair)), pair),
        BinaryOp::AtLeast => turned_plan(Joining::AtLeast(common(pair)), pair),
        BinaryOp::ShiftLeft => shift_plan(Binary::ShiftLeft, pair),
        BinaryOp::ShiftRight => shift_plan(Binary::ShiftRight, pair),
        BinaryOp::Add => sum_plan(pair),
        BinaryOp::Subtract => difference_plan(pair),
        BinaryOp::Multiply => number_plan(Binary::Multiply, pair),
        BinaryOp::Divide => number_plan(Binary::Divide, pair),
        BinaryOp::Remainder => number_plan(Binary::Remainder, pair),
    }
}

/// The kind in which both operands meet (C11, 6.3.1.8). A pointer is as an `unsigned long`.
fn common(pair: Pair) -> Kind
    ensures { result ≡ operators.common pair }
{
    usual(pair.left.kind(), pair.right.kind())
}

fn number_plan(op: Binary, pair: Pair) -> Plan
    ensures { result ≡ number_plan op pair }
{
    let kind = common(pair);
    Plan {
        left: kind,
        right: kind,
        step: Joining::Binary { op, kind },
        gives: Gives::Whole(kind),
    }
}

fn comparison_plan(op: Binary, pair: Pair) -> Plan
    ensures { result ≡ operators.comparison_plan op pair }
{
    let kind = common(pair);
    turned_plan(Joining::Binary { op, kind }, pair)
}

fn turned_plan(step: Joining, pair: Pair) -> Plan
    ensures { result ≡ operators.turned_plan step pair }
{
    let kind = common(pair);
    Plan {
        left: kind,
        right: kind,
        step,
        gives: Gives::Whole(Kind::Int),
    }
}

/// `&&` and `||` take words as they are.
fn test_plan(step: Joining, pair: Pair) -> Plan
    ensures { result ≡ operators.test_plan step pair }
{
    Plan {
        left: pair.left.kind(),
        right: pair.right.kind(),
        step,
        gives: Gives::Whole(Kind::Int),
    }
}

/// A shift (C11, 6.5.7): each operand is promoted by itself.
fn shift_plan(op: Binary, pair: Pair) -> Plan
    ensures { result ≡ shift_plan op pair }
{
    let kind = pair.left.kind().promoted();
    Plan {
        left: kind,
        right: pair.right.kind().promoted(),
        step: Joining::Binary { op, kind },
        gives: Gives::Whole(kind),
    }
}

fn moved_plan(by: OffsetBy, scale: u64, gives: Gives, pair: Pair) -> Plan
    ensures { result ≡ operators.moved_plan by scale gives pair }
{
    Plan {
        left: pair.left.kind(),
        right: pair.right.kind(),
        step: Joining::Offset { by, scale },
        gives,
    }
}

pub fn sum_plan(pair: Pair) -> Plan
    ensures { result ≡ sum_plan pair }
{
    if pair.left.is_pointer() {
        moved_plan(
            OffsetBy::PointerPlusNumber,
            pair.left.scale(),
            Gives::Left,
            pair,
        )
    } else if pair.right.is_pointer() {
        moved_plan(
            OffsetBy::NumberPlusPointer,
            pair.right.scale(),
            Gives::Right,
            pair,
        )
    } else {
        number_plan(Binary::Add, pair)
    }
}

fn difference_plan(pair: Pair) -> Plan
    ensures { result ≡ difference_plan pair }
{
    if !pair.left.is_pointer() {
        return number_plan(Binary::Subtract, pair);
    }
    if !pair.right.is_pointer() {
        return moved_plan(
            OffsetBy::PointerMinusNumber,
            pair.left.scale(),
            Gives::Left,
            pair,
        );
    }
    Plan {
        left: Kind::UnsignedLong,
        right: Kind::UnsignedLong,
        step: Joining::Difference(pair.left.scale()),
        gives: Gives::Whole(Kind::Long),
    }
}

/// What is made of two operands.
pub fn made(
    alloc: Global,
    plan: Plan,
    pair: Pair,
    constant: Option<Evaluated>,
    a: Value,
    b: Value,
) -> Result<Value, AllocError>
    ensures { IfOk result (λ v. v ≡ made plan pair constant a b) }
{
    let Value {
        of: left,
        tree: a,
        ..
    } = a;
    let Value {
        of: right,
        tree: b,
        ..
    } = b;
    let of = result_type(alloc, plan.gives, left, right);
    let a = Side {
        tree: a,
        from: pair.left.kind(),
        to: plan.left,
    };
    let b = Side {
        tree: b,
        from: pair.right.kind(),
        to: plan.right,
    };
    match operation(alloc, a, plan.step, b) {
        Ok(tree) => Ok(Value {
            of,
            tree,
            constant,
            sort: Sort::Plain,
        }),
        Err(error) => {
            drop(of);
            Err(error)
        }
    }
}

fn result_type(alloc: Global, gives: Gives, left: CType, right: CType) -> CType
    ensures { result ≡ result_type gives left right }
{
    match gives {
        Gives::Whole(kind) => {
            drop(left);
            drop(right);
            whole_type(alloc, kind)
        }
        Gives::Left => {
            drop(right);
            left
        }
        Gives::Right => {
            drop(left);
            right
        }
    }
}
