//! What is stored in objects: assignments, `++` and `--`, and the values of arguments, results and initialisers (C11, 6.5.2.4,
//! 6.5.3.1, 6.5.16 and 6.7.9).

ghost use Rattle.std.specs.Prelude.{◌≡◌, IfOk};
ghost use Rattle.c_typing.specs.Rules.{Tells, first_of};
ghost use Rattle.c_typing.specs.Storing as storing;
ghost use Rattle.c_typing.specs.Storing.{is_fixed, converted_to, assigned};

use crate::classes::{class_of, class_of_type};
use crate::trees::{Joining, Side, converted, counting, operation};
use crate::types::{is_compatible, is_const, measured};
use crate::values::{is_zero, plain, used};
use crate::{Class, Judged, Rule, TypeError, Value};
use c_types::{CType, Counted, Direction, Expr, Given, StructType};
use rank_range::{Binary, Kind, usual};
use std::alloc::{AllocError, Global};

/// What the rules ask of the operand that is stored to.
#[derive(Clone, Copy)]
pub struct Spot {
    pub class: Class,
    /// Whether it is a place of an object that may be assigned, but for `const` (C11, 6.3.2.1).
    pub is_assignable: bool,
    /// Whether it is `const`, or a structure with a member that is.
    pub is_const: bool,
}

/// What the rules ask of a value that is stored, and of the type as which it is stored.
#[derive(Clone, Copy)]
pub struct Moved {
    pub to: Class,
    pub from: Class,
    /// Whether the types are compatible.
    pub same: bool,
    /// Whether the value is a null pointer constant.
    pub zero: bool,
}

/// `fixed` tells of each structure, by its number, whether it has a member that is `const`.
fn spot_of(structs: &[StructType], fixed: &[bool], judged: &Judged) -> Spot
    ensures { result ≡ storing.spot_of structs.now fixed.now judged.now }
{
    match judged {
        Judged::Place { of, tree: _ } => place_spot(structs, fixed, of),
        Judged::Value(value) => Spot {
            class: class_of(value, structs),
            is_assignable: false,
            is_const: false,
        },
        Judged::Function { of: _, callee: _ } => Spot {
            class: Class::Function,
            is_assignable: false,
            is_const: false,
        },
    }
}

fn place_spot(structs: &[StructType], fixed: &[bool], of: &CType) -> Spot
    ensures { result ≡ storing.place_spot structs.now fixed.now of.now }
{
    let class = class_of_type(of, structs);
    Spot {
        class,
        is_assignable: class != Class::Array && measured(of, structs).is_some(),
        is_const: is_const(of) || is_fixed(class, fixed),
    }
}

fn is_fixed(class: Class, fixed: &[bool]) -> bool
    ensures { result ≡ is_fixed class fixed.now }
{
    match class {
        Class::Struct(number) => match sqlite_items::at(fixed, number as usize) {
            Some(is_fixed) => *is_fixed,
            None => false,
        },
        _ => false,
    }
}

/// What keeps a place from being assigned.
fn spot_rule(spot: Spot) -> Option<Rule>
    ensures { result ≡ first_of (storing.spot_rows spot) }
{
    if !spot.is_assignable {
        return Some(Rule::NotAssignable);
    }
    if spot.is_const {
        return Some(Rule::ConstPlace);
    }
    None
}

/// `++` and `--`.
#[tactic(auto, unfolding(crate::specs::Storing::count))]
pub fn count(
    structs: &[StructType],
    fixed: &[bool],
    direction: Direction,
    given: Given,
    judged: Judged,
) -> Result<Judged, TypeError>
    ensures { Tells result (storing.count structs.now fixed.now direction given judged) }
{
    let spot = spot_of(structs, fixed, &judged);
    if let Some(rule) = count_rule(spot) {
        drop(judged);
        return Err(TypeError::Broken(rule));
    }
    match judged {
        Judged::Place { of, tree } => counted(of, tree, spot.class, direction, given),
        Judged::Value(value) => {
            drop(value);
            Err(TypeError::Broken(Rule::NotAssignable))
        }
        Judged::Function { of, callee: _ } => {
            drop(of);
            Err(TypeError::Broken(Rule::NotAssignable))
        }
    }
}

#[tactic(auto, unfolding(crate::specs::Storing::count_rows))]
fn count_rule(spot: Spot) -> Option<Rule>
    ensures { result ≡ first_of (storing.count_rows spot) }
{
    if spot.class.is_unmoved() {
        return Some(Rule::Incomplete);
    }
    if !spot.is_assignable {
        return Some(Rule::NotAssignable);
    }
    if spot.is_const {
        return Some(Rule::ConstPlace);
    }
    if !spot.class.is_scalar() {
        return Some(Rule::NotScalar);
    }
    None
}

fn counted(
    of: CType,
    tree: Expr,
    class: Class,
    direction: Direction,
    given: Given,
) -> Result<Judged, TypeError>
    ensures { Tells result (storing.counted of tree class direction given) }
{
    let counted = if class.is_pointer() {
        Counted::Pointer(class.scale())
    } else {
        Counted::Number(class.kind())
    };
    match counting(tree, counted, direction, given) {
        Ok(tree) => Ok(Judged::Value(plain(of, tree))),
        Err(error) => {
            drop(of);
            Err(error.into())
        }
    }
}

fn moved_of(structs: &[StructType], to: &CType, value: &Value) -> Moved
    ensures { result ≡ storing.moved_of structs.now to.now value.now }
{
    Moved {
        to: class_of_type(to, structs),
        from: class_of(value, structs),
        same: is_compatible(to, &value.of),
        zero: is_zero(value),
    }
}

/// What keeps a value from being stored as a type (C11, 6.5.16.1); `misfit` is told of structures.
#[tactic(auto, unfolding(crate::specs::Storing::moved_rows))]
fn moved_rule(misfit: Rule, moved: Moved) -> Option<Rule>
    ensures { result ≡ first_of (storing.moved_rows misfit moved) }
{
    let Moved { to, from, .. } = moved;
    if from.is_function() {
        return Some(Rule::NotScalar);
    }
    if to.is_pointer() && from.is_pointer() && !may_point(moved) {
        return Some(Rule::PointersDiffer);
    }
    if (to.is_pointer() && from.is_whole() && !moved.zero) || (to.is_whole() && from.is_pointer()) {
        return Some(Rule::PointerAndNumber);
    }
    if from.is_void() {
        return Some(Rule::VoidUsed);
    }
    if (to.is_struct() || from.is_struct()) && !(to.is_struct() && from.is_struct() && moved.same) {
        return Some(misfit);
    }
    None
}

fn may_point(moved: Moved) -> bool
    ensures { result ≡ storing.may_point moved }
{
    moved.same || moved.to.is_void_pointer() || moved.from.is_void_pointer() || moved.zero
}

/// The value of an expression as it is stored as a type, as an argument, a result or an initialiser is. `misfit` is the rule that
/// a structure breaks which doesn't fit.
#[tactic(auto, unfolding(crate::specs::Storing::stored))]
pub fn stored(
    alloc: Global,
    structs: &[StructType],
    to: &CType,
    misfit: Rule,
    judged: Judged,
) -> Result<Expr, TypeError>
    ensures { Tells result (storing.stored structs.now to.now misfit judged) }
{
    let value = used(alloc, judged)?;
    let moved = moved_of(structs, to, &value);
    if let Some(rule) = moved_rule(misfit, moved) {
        drop(value);
        return Err(TypeError::Broken(rule));
    }
    Ok(converted_to(moved, value)?)
}

fn converted_to(moved: Moved, value: Value) -> Result<Expr, AllocError>
    ensures { IfOk result (λ e. e ≡ converted_to moved value) }
{
    let Value { of, tree, .. } = value;
    drop(of);
    converted(Side {
        tree,
        from: moved.from.kind(),
        to: moved.to.kind(),
    })
}

/// `a = b`
#[tactic(auto, unfolding(crate::specs::Storing::assign))]
pub fn assign(
    alloc: Global,
    structs: &[StructType],
    fixed: &[bool],
    a: Judged,
    b: Judged,
) -> Result<Judged, TypeError>
    ensures { Tells result (storing.assign structs.now fixed.now a b) }
{
    let spot = spot_of(structs, fixed, &a);
    if let Some(rule) = spot_rule(spot) {
        drop(a);
        drop(b);
        return Err(TypeError::Broken(rule));
    }
    match a {
        Judged::Place { of, tree } => assign_place(alloc, structs, of, tree, b),
        Judged::Value(value) => {
            drop(value);
            drop(b);
            Err(TypeError::Broken(Rule::NotAssignable))
        }
        Judged::Function { of, callee: _ } => {
            drop(of);
            drop(b);
            Err(TypeError::Broken(Rule::NotAssignable))
        }
    }
}

fn assign_place(
    alloc: Global,
    structs: &[StructType],
    of: CType,
    tree: Expr,
    b: Judged,
) -> Result<Judged, TypeError>
    ensures { Tells result (storing.assign_place structs.now of tree b) }
{
    let value = match used(alloc, b) {
        Ok(value) => value,
        Err(error) => {
            drop(of);
            drop(tree);
            return Err(error.into());
        }
    };
    let moved = moved_of(structs, &of, &value);
    if let Some(rule) = moved_rule(Rule::StructUsed, moved) {
        drop(of);
        drop(tree);
        drop(value);
        return Err(TypeError::Broken(rule));
    }
    let size = measured(&of, structs).unwrap_or(0);
    Ok(Judged::Value(assigned(alloc, moved, size, of, tree, value)?))
}

fn assigned(
    alloc: Global,
    moved: Moved,
    size: u64,
    of: CType,
    tree: Expr,
    value: Value,
) -> Result<Value, AllocError>
    ensures { IfOk result (λ v. v ≡ assigned moved size of tree value) }
{
    let Value {
        of: from,
        tree: right,
        ..
    } = value;
    drop(from);
    let step = if moved.to.is_struct() {
        Joining::Copy(size)
    } else {
        Joining::Assign(moved.to.kind())
    };
    let left = Side {
        tree,
        from: Kind::UnsignedLong,
        to: Kind::UnsignedLong,
    };
    let right = Side {
        tree: right,
        from: moved.from.kind(),
        to: moved.to.kind(),
    };
    match operation(alloc, left, step, right) {
        Ok(tree) => Ok(plain(of, tree)),
        Err(error) => {
            drop(of);
            Err(error)
        }
    }
}

/// An assignment with an operator of the machine.
#[tactic(auto, unfolding(crate::specs::Storing::update))]
pub fn update(
    alloc: Global,
    structs: &[StructType],
    fixed: &[bool],
    op: Binary,
    a: Judged,
    b: Judged,
) -> Result<Judged, TypeError>
    ensures { Tells result (storing.update structs.now fixed.now op a b) }
{
    let b = match used(alloc, b) {
        Ok(b) => b,
        Err(error) => {
            drop(a);
            return Err(error.into());
        }
    };
    let spot = spot_of(structs, fixed, &a);
    let right = class_of(&b, structs);
    if let Some(rule) = update_rule(op, spot, right) {
        drop(a);
        drop(b);
        return Err(TypeError::Broken(rule));
    }
    match a {
        Judged::Place { of, tree } => updated(alloc, op, spot.class, right, of, tree, b),
        Judged::Value(value) => {
            drop(value);
            drop(b);
            Err(TypeError::Broken(Rule::NotAssignable))
        }
        Judged::Function { of, callee: _ } => {
            drop(of);
            drop(b);
            Err(TypeError::Broken(Rule::NotAssignable))
        }
    }
}

fn update_rule(op: Binary, spot: Spot, right: Class) -> Option<Rule>
    ensures { result ≡ first_of (storing.update_rows op spot right) }
{
    match op {
        Binary::Add | Binary::Subtract => moving_rule(spot, right),
        _ => number_rule(spot, right),
    }
}

/// `+=` and `-=`
#[tactic(auto, unfolding(crate::specs::Storing::moving_rows))]
fn moving_rule(spot: Spot, right: Class) -> Option<Rule>
    ensures { result ≡ first_of (storing.moving_rows spot right) }
{
    let left = spot.class;
    if left.is_unmoved() && right.is_whole() {
        return Some(Rule::Incomplete);
    }
    if !spot.is_assignable {
        return Some(Rule::NotAssignable);
    }
    if spot.is_const {
        return Some(Rule::ConstPlace);
    }
    if left.is_scalar() && right.is_pointer() {
        return Some(Rule::NotWhole);
    }
    if !(left.is_scalar() && right.is_scalar()) {
        return Some(Rule::NotScalar);
    }
    None
}

#[tactic(auto, unfolding(crate::specs::Storing::number_rows))]
fn number_rule(spot: Spot, right: Class) -> Option<Rule>
    ensures { result ≡ first_of (storing.number_rows spot right) }
{
    if !spot.is_assignable {
        return Some(Rule::NotAssignable);
    }
    if spot.is_const {
        return Some(Rule::ConstPlace);
    }
    if !(spot.class.is_whole() && right.is_whole()) {
        return Some(Rule::NotWhole);
    }
    None
}

/// The step of an assignment with an operator.
fn update_step(op: Binary, left: Class, right: Class) -> Joining
    ensures { result ≡ storing.update_step op left right }
{
    if left.is_pointer() {
        return Joining::Advance {
            direction: direction_of(op),
            scale: left.scale(),
        };
    }
    let kind = left.kind();
    Joining::Update {
        op,
        kind,
        at: working_kind(op, kind, right.kind()),
    }
}

/// The kind to which the right operand is converted.
fn update_kind(op: Binary, left: Class, right: Class) -> Kind
    ensures { result ≡ storing.update_kind op left right }
{
    if left.is_pointer() {
        return right.kind();
    }
    right_kind(op, left.kind(), right.kind())
}

fn direction_of(op: Binary) -> Direction
    ensures { result ≡ storing.direction_of op }
{
    match op {
        Binary::Subtract => Direction::Down,
        _ => Direction::Up,
    }
}

/// The kind in which an operator works that assigns.
fn working_kind(op: Binary, left: Kind, right: Kind) -> Kind
    ensures { result ≡ storing.working_kind op left right }
{
    match op {
        Binary::ShiftLeft | Binary::ShiftRight => left.promoted(),
        _ => usual(left, right),
    }
}

fn right_kind(op: Binary, left: Kind, right: Kind) -> Kind
    ensures { result ≡ storing.right_kind op left right }
{
    match op {
        Binary::ShiftLeft | Binary::ShiftRight => right.promoted(),
        _ => usual(left, right),
    }
}

fn updated(
    alloc: Global,
    op: Binary,
    left: Class,
    right: Class,
    of: CType,
    tree: Expr,
    value: Value,
) -> Result<Judged, TypeError>
    ensures { Tells result (storing.updated op left right of tree value) }
{
    let step = update_step(op, left, right);
    let to = update_kind(op, left, right);
    let Value {
        of: from,
        tree: b,
        ..
    } = value;
    drop(from);
    let a = Side {
        tree,
        from: Kind::UnsignedLong,
        to: Kind::UnsignedLong,
    };
    let b = Side {
        tree: b,
        from: right.kind(),
        to,
    };
    match operation(alloc, a, step, b) {
        Ok(tree) => Ok(Judged::Value(plain(of, tree))),
        Err(error) => {
            drop(of);
            Err(error.into())
        }
    }
}
