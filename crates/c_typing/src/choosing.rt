//! `?:` and the comma (C11, 6.5.15 and 6.5.17).

ghost use Rattle.std.specs.Prelude.{◌≡◌, IfOk};
ghost use Rattle.c_typing.specs.Rules.{Tells, first_of};
ghost use Rattle.c_typing.specs.Choosing as choosing;
ghost use Rattle.c_typing.specs.Choosing.{meeting, chosen, meeting_type, pointer_type, follows};

use crate::classes::class_of;
use crate::pairs::{Pair, are_mixed, may_meet, pair_of};
use crate::trees::{Joining, Side, choice, operation};
use crate::types::{is_const, merged};
use crate::values::{both_used, used, whole_type};
use crate::{Class, Judged, Rule, Sort, TypeError, Value};
use c_types::{CType, Part, StructType};
use rank_range::{Kind, usual};
use std::alloc::{AllocError, Global};

/// `test ? a : b`
#[tactic(auto, unfolding(crate::specs::Choosing::conditional))]
pub fn conditional(
    alloc: Global,
    structs: &[StructType],
    test: Judged,
    a: Judged,
    b: Judged,
) -> Result<Judged, TypeError>
    ensures { Tells result (choosing.conditional structs.now test a b) }
{
    let (a, b) = match both_used(alloc, a, b) {
        Ok(both) => both,
        Err(error) => {
            drop(test);
            return Err(error.into());
        }
    };
    let test = match used(alloc, test) {
        Ok(test) => test,
        Err(error) => {
            drop(a);
            drop(b);
            return Err(error.into());
        }
    };
    let pair = pair_of(structs, &a, &b);
    if let Some(rule) = choice_rule(class_of(&test, structs), pair) {
        drop(test);
        drop(a);
        drop(b);
        return Err(TypeError::Broken(rule));
    }
    Ok(Judged::Value(chosen(alloc, pair, test, a, b)?))
}

#[tactic(auto, unfolding(crate::specs::Choosing::choice_rows))]
fn choice_rule(test: Class, pair: Pair) -> Option<Rule>
    ensures { result ≡ first_of (choosing.choice_rows test pair) }
{
    let Pair { left, right, .. } = pair;
    if !test.is_scalar() || left.is_function() || right.is_function() {
        return Some(Rule::NotScalar);
    }
    if left.is_pointer() && right.is_pointer() && !may_meet(pair) {
        return Some(Rule::PointersDiffer);
    }
    if are_mixed(pair) {
        return Some(Rule::PointerAndNumber);
    }
    if (left.is_void() && !right.is_void()) || (!left.is_void() && right.is_void()) {
        return Some(Rule::VoidUsed);
    }
    if left.is_struct() || right.is_struct() {
        return Some(Rule::StructUsed);
    }
    None
}

/// The kind in which two branches meet: that of the usual conversions where both are numbers.
fn meeting(pair: Pair) -> Kind
    ensures { result ≡ meeting pair }
{
    match (pair.left, pair.right) {
        (Class::Whole(a), Class::Whole(b)) => usual(a, b),
        _ => Kind::UnsignedLong,
    }
}

fn chosen(alloc: Global, pair: Pair, test: Value, a: Value, b: Value) -> Result<Value, AllocError>
    ensures { IfOk result (λ v. v ≡ chosen pair test a b) }
{
    let constant = c_const::conditional(test.constant, a.constant, b.constant);
    let Value {
        of: tested,
        tree: test,
        ..
    } = test;
    drop(tested);
    let Value {
        of: left,
        tree: a,
        ..
    } = a;
    let Value {
        of: right,
        tree: b,
        ..
    } = b;
    let to = meeting(pair);
    let of = meeting_type(alloc, pair, left, right);
    let a = Side {
        tree: a,
        from: pair.left.kind(),
        to,
    };
    let b = Side {
        tree: b,
        from: pair.right.kind(),
        to,
    };
    match choice(alloc, test, a, b) {
        Ok(tree) => Ok(Value {
            of,
            tree,
            constant,
            sort: Sort::Plain,
        }),
        Err(error) => {
            drop(of);
            Err(error)
        }
    }
}

/// The type of what is chosen: that of the usual conversions, `void`, or a pointer.
fn meeting_type(alloc: Global, pair: Pair, a: CType, b: CType) -> CType
    ensures { result ≡ meeting_type pair a b }
{
    match (pair.left, pair.right) {
        (Class::Whole(k), Class::Whole(l)) => {
            drop(a);
            drop(b);
            whole_type(alloc, usual(k, l))
        }
        (Class::Pointer(_), Class::Pointer(_)) => pointer_type(pair, a, b),
        (Class::Whole(_), Class::Pointer(_)) => {
            drop(a);
            b
        }
        (left, right) => {
            drop(b);
            a
        }
    }
}

/// Of two pointers: beside a null pointer constant the other one; beside a `void *` this; else the composite type. What it
/// points to is `const` where that of one of them is.
fn pointer_type(pair: Pair, a: CType, b: CType) -> CType
    ensures { result ≡ pointer_type pair a b }
{
    if pair.left_zero && !pair.right_zero {
        drop(a);
        return b;
    }
    if pair.right_zero {
        drop(b);
        return a;
    }
    if pair.same {
        let of = merged(a, &b);
        drop(b);
        return of;
    }
    if pair.left.is_void_pointer() {
        let target = target_is_const(&b);
        drop(b);
        return with_target_const(a, target);
    }
    let target = target_is_const(&a);
    drop(a);
    with_target_const(b, target)
}

/// Whether what a pointer points to is `const`.
fn target_is_const(of: &CType) -> bool
    ensures { result ≡ choosing.target_is_const of.now }
{
    let mut before = of.is_const;
    let mut now = of.is_const;
    for part in of.parts.as_slice() {
        before = now;
        now = match part {
            Part::Pointer { is_const } => *is_const,
            Part::Array(_) | Part::OpenArray => now,
        };
    }
    before
}

/// A `void *`, whose `void` is `const` where this is so.
fn with_target_const(of: CType, target: bool) -> CType
    ensures { result ≡ choosing.with_target_const of target }
{
    let mut of = of;
    of.is_const = of.is_const || target;
    of
}

/// `a, b`, whose value is used or not.
#[tactic(auto, unfolding(crate::specs::Choosing::comma))]
pub fn comma(
    alloc: Global,
    structs: &[StructType],
    is_used: bool,
    a: Judged,
    b: Judged,
) -> Result<Judged, TypeError>
    ensures { Tells result (choosing.comma structs.now is_used a b) }
{
    let (a, b) = both_used(alloc, a, b)?;
    let pair = pair_of(structs, &a, &b);
    if let Some(rule) = comma_rule(is_used, pair.right) {
        drop(a);
        drop(b);
        return Err(TypeError::Broken(rule));
    }
    Ok(Judged::Value(follows(alloc, pair, a, b)?))
}

#[tactic(auto, unfolding(crate::specs::Choosing::comma_rows))]
fn comma_rule(is_used: bool, right: Class) -> Option<Rule>
    ensures { result ≡ first_of (choosing.comma_rows is_used right) }
{
    if is_used && right.is_function() {
        return Some(Rule::NotScalar);
    }
    if is_used && right.is_struct() {
        return Some(Rule::StructUsed);
    }
    None
}

fn follows(alloc: Global, pair: Pair, a: Value, b: Value) -> Result<Value, AllocError>
    ensures { IfOk result (λ v. v ≡ follows pair a b) }
{
    let sort = choosing_sort(b.sort);
    let Value {
        of: left,
        tree: a,
        ..
    } = a;
    drop(left);
    let Value { of, tree: b, .. } = b;
    let a = side(a, pair.left);
    let b = side(b, pair.right);
    match operation(alloc, a, Joining::Comma, b) {
        Ok(tree) => Ok(Value {
            of,
            tree,
            constant: None,
            sort,
        }),
        Err(error) => {
            drop(of);
            Err(error)
        }
    }
}

/// A comma gives no null pointer constant.
fn choosing_sort(sort: Sort) -> Sort
    ensures { result ≡ choosing.sort_behind sort }
{
    match sort {
        Sort::Plain | Sort::NullPointer => Sort::Plain,
        Sort::Function => Sort::Function,
    }
}

/// An operand that is taken as it is.
fn side(tree: c_types::Expr, class: Class) -> Side
    ensures { result ≡ choosing.as_it_is tree class }
{
    Side {
        tree,
        from: class.kind(),
        to: class.kind(),
    }
}
