//! Operators between two operands (C11, 6.5.5 to 6.5.14): which rules they break.

ghost use Rattle.std.specs.Prelude.{◌≡◌};
ghost use Rattle.c_typing.specs.Rules.{first_of};
ghost use Rattle.c_typing.specs.Pairs as pairs;

use crate::classes::class_of;
use crate::types::is_compatible;
use crate::values::is_zero;
use crate::{Class, Rule, Value};
use c_ast::BinaryOp;
use c_types::StructType;

/// What the rules ask of two operands.
#[derive(Clone, Copy)]
pub struct Pair {
    pub left: Class,
    pub right: Class,
    /// Whether their types are compatible.
    pub same: bool,
    /// Whether they are null pointer constants.
    pub left_zero: bool,
    pub right_zero: bool,
}

pub fn pair_of(structs: &[StructType], a: &Value, b: &Value) -> Pair
    ensures { result ≡ pairs.pair_of structs.now a.now b.now }
{
    Pair {
        left: class_of(a, structs),
        right: class_of(b, structs),
        same: is_compatible(&a.of, &b.of),
        left_zero: is_zero(a),
        right_zero: is_zero(b),
    }
}

/// The first rule that an operator between these operands breaks.
pub fn binary_rule(op: BinaryOp, pair: Pair) -> Option<Rule>
    ensures { result ≡ first_of (pairs.binary_rows op pair) }
{
    match op {
        BinaryOp::Or | BinaryOp::And => logic_rule(pair),
        BinaryOp::Equal | BinaryOp::NotEqual => equality_rule(pair),
        BinaryOp::Less | BinaryOp::Greater | BinaryOp::AtMost | BinaryOp::AtLeast => order_rule(
            pair,
        ),
        BinaryOp::Add => sum_rule(pair),
        BinaryOp::Subtract => difference_rule(pair),
        BinaryOp::BitOr
        | BinaryOp::BitXor
        | BinaryOp::BitAnd
        | BinaryOp::ShiftLeft
        | BinaryOp::ShiftRight
        | BinaryOp::Multiply
        | BinaryOp::Divide
        | BinaryOp::Remainder => product_rule(pair),
    }
}

/// Operators on whole numbers alone.
#[tactic(auto, unfolding(crate::specs::Pairs::product_rows))]
pub fn product_rule(pair: Pair) -> Option<Rule>
    ensures { result ≡ first_of (pairs.product_rows pair) }
{
    if !(pair.left.is_whole() && pair.right.is_whole()) {
        return Some(Rule::NotWhole);
    }
    None
}

/// `&&` and `||`
#[tactic(auto, unfolding(crate::specs::Pairs::logic_rows))]
fn logic_rule(pair: Pair) -> Option<Rule>
    ensures { result ≡ first_of (pairs.logic_rows pair) }
{
    if !(pair.left.is_scalar() && pair.right.is_scalar()) {
        return Some(Rule::NotScalar);
    }
    None
}

#[tactic(auto, unfolding(crate::specs::Pairs::sum_rows))]
fn sum_rule(pair: Pair) -> Option<Rule>
    ensures { result ≡ first_of (pairs.sum_rows pair) }
{
    let Pair { left, right, .. } = pair;
    if (left.is_unmoved() && right.is_whole()) || (left.is_whole() && right.is_unmoved()) {
        return Some(Rule::Incomplete);
    }
    if left.is_pointer() && right.is_pointer() {
        return Some(Rule::NotWhole);
    }
    if !(left.is_scalar() && right.is_scalar()) {
        return Some(Rule::NotScalar);
    }
    None
}

#[tactic(auto, unfolding(crate::specs::Pairs::difference_rows))]
fn difference_rule(pair: Pair) -> Option<Rule>
    ensures { result ≡ first_of (pairs.difference_rows pair) }
{
    let Pair { left, right, .. } = pair;
    if (left.is_unmoved() && right.is_scalar()) || (left.is_pointer() && right.is_unmoved()) {
        return Some(Rule::Incomplete);
    }
    if left.is_whole() && right.is_pointer() {
        return Some(Rule::NotWhole);
    }
    if !(left.is_scalar() && right.is_scalar()) {
        return Some(Rule::NotScalar);
    }
    if left.is_pointer() && right.is_pointer() && !pair.same {
        return Some(Rule::PointersDiffer);
    }
    None
}

/// `<`, `>`, `<=`, `>=`
#[tactic(auto, unfolding(crate::specs::Pairs::order_rows))]
fn order_rule(pair: Pair) -> Option<Rule>
    ensures { result ≡ first_of (pairs.order_rows pair) }
{
    let Pair { left, right, .. } = pair;
    if !(left.is_scalar() && right.is_scalar()) {
        return Some(Rule::NotScalar);
    }
    if left.is_pointer() && right.is_pointer() && !pair.same {
        return Some(Rule::PointersDiffer);
    }
    if (left.is_pointer() && right.is_whole()) || (left.is_whole() && right.is_pointer()) {
        return Some(Rule::PointerAndNumber);
    }
    None
}

/// `==` and `!=`
#[tactic(auto, unfolding(crate::specs::Pairs::equality_rows))]
fn equality_rule(pair: Pair) -> Option<Rule>
    ensures { result ≡ first_of (pairs.equality_rows pair) }
{
    let Pair { left, right, .. } = pair;
    if !(left.is_scalar() && right.is_scalar()) {
        return Some(Rule::NotScalar);
    }
    if left.is_pointer() && right.is_pointer() && !may_meet(pair) {
        return Some(Rule::PointersDiffer);
    }
    if are_mixed(pair) {
        return Some(Rule::PointerAndNumber);
    }
    None
}

/// Whether two pointers may be compared or chosen from: they point to compatible types, or one is a `void *` or a null pointer
/// constant.
pub fn may_meet(pair: Pair) -> bool
    ensures { result ≡ pairs.may_meet pair }
{
    pair.same
        || pair.left.is_void_pointer()
        || pair.right.is_void_pointer()
        || pair.left_zero
        || pair.right_zero
}

/// Whether one is a pointer, and the other one a number that is no null pointer constant.
pub fn are_mixed(pair: Pair) -> bool
    ensures { result ≡ pairs.are_mixed pair }
{
    (pair.left.is_pointer() && pair.right.is_whole() && !pair.right_zero)
        || (pair.left.is_whole() && pair.right.is_pointer() && !pair.left_zero)
}
