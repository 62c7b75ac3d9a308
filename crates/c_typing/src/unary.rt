//! Operators on one operand (C11, 6.5.3), casts (6.5.4) and sizes.

ghost use Rattle.std.specs.Prelude.{◌≡◌, IfOk};
ghost use Rattle.c_typing.specs.Rules.{Tells};
ghost use Rattle.c_typing.specs.Unary as unary;
ghost use Rattle.c_typing.specs.Unary.{signed, denied, cast_rule, cast_to, sort_of_cast};

use crate::classes::{class_of, class_of_type};
use crate::trees::{Side, behind, converted};
use crate::types::{measured, pointer_to, without_last};
use crate::values::{is_zero_constant, number, plain, used, whole_type};
use crate::{Class, Judged, Rule, Sort, Target, TypeError, Value};
use c_ast::PrefixOp;
use c_types::{CType, Step, StructType};
use rank_range::{Kind, Unary};
use std::alloc::{AllocError, Global};

/// `&`: the address of a place. A function has no address in this profile.
pub fn address(judged: Judged) -> Result<Judged, TypeError>
    ensures { Tells result (unary.address judged) }
{
    match judged {
        Judged::Place { of, tree } => match pointer_to(of) {
            Ok(of) => Ok(Judged::Value(plain(of, tree))),
            Err(error) => {
                drop(tree);
                Err(error.into())
            }
        },
        other => {
            drop(other);
            Err(TypeError::Broken(Rule::NotAssignable))
        }
    }
}

/// `*`: the place to which a pointer points.
#[tactic(auto, unfolding(crate::specs::Unary::deref))]
pub fn deref(alloc: Global, structs: &[StructType], judged: Judged) -> Result<Judged, TypeError>
    ensures { Tells result (unary.deref structs.now judged) }
{
    let value = used(alloc, judged)?;
    if !class_of(&value, structs).is_pointer() {
        drop(value);
        return Err(TypeError::Broken(Rule::NotPointer));
    }
    let Value { of, tree, .. } = value;
    Ok(Judged::Place {
        of: without_last(of),
        tree,
    })
}

/// `+`, `-`, `~`, by the operator of the machine, if there is one.
#[tactic(auto, unfolding(crate::specs::Unary::sign))]
pub fn sign(
    alloc: Global,
    structs: &[StructType],
    op: PrefixOp,
    machine: Option<Unary>,
    judged: Judged,
) -> Result<Judged, TypeError>
    ensures { Tells result (unary.sign structs.now op machine judged) }
{
    let value = used(alloc, judged)?;
    match class_of(&value, structs) {
        Class::Whole(kind) => Ok(Judged::Value(signed(alloc, op, machine, kind, value)?)),
        _ => {
            drop(value);
            Err(TypeError::Broken(Rule::NotWhole))
        }
    }
}

fn signed(
    alloc: Global,
    op: PrefixOp,
    machine: Option<Unary>,
    kind: Kind,
    value: Value,
) -> Result<Value, AllocError>
    ensures { IfOk result (λ v. v ≡ signed op machine kind value) }
{
    let constant = c_const::prefix(op, value.constant);
    let Value { of, tree, .. } = value;
    drop(of);
    let to = kind.promoted();
    let promoted = converted(Side {
        tree,
        from: kind,
        to,
    })?;
    let tree = match machine {
        Some(op) => behind(promoted, Step::Unary { op, kind: to })?,
        None => promoted,
    };
    Ok(Value {
        of: whole_type(alloc, to),
        tree,
        constant,
        sort: Sort::Plain,
    })
}

/// `!`
#[tactic(auto, unfolding(crate::specs::Unary::deny))]
pub fn deny(alloc: Global, structs: &[StructType], judged: Judged) -> Result<Judged, TypeError>
    ensures { Tells result (unary.deny structs.now judged) }
{
    let value = used(alloc, judged)?;
    if !class_of(&value, structs).is_scalar() {
        drop(value);
        return Err(TypeError::Broken(Rule::NotScalar));
    }
    Ok(Judged::Value(denied(alloc, value)?))
}

fn denied(alloc: Global, value: Value) -> Result<Value, AllocError>
    ensures { IfOk result (λ v. v ≡ denied value) }
{
    let constant = c_const::prefix(PrefixOp::Not, value.constant);
    let Value { of, tree, .. } = value;
    drop(of);
    let tree = behind(tree, Step::Not)?;
    Ok(Value {
        of: whole_type(alloc, Kind::Int),
        tree,
        constant,
        sort: Sort::Plain,
    })
}

/// A cast to a type.
#[tactic(auto, unfolding(crate::specs::Unary::cast))]
pub fn cast(
    alloc: Global,
    structs: &[StructType],
    to: CType,
    judged: Judged,
) -> Result<Judged, TypeError>
    ensures { Tells result (unary.cast structs.now to judged) }
{
    let value = match used(alloc, judged) {
        Ok(value) => value,
        Err(error) => {
            drop(to);
            return Err(error.into());
        }
    };
    let from = class_of(&value, structs);
    let class = class_of_type(&to, structs);
    if let Some(rule) = cast_rule(class, from) {
        drop(to);
        drop(value);
        return Err(TypeError::Broken(rule));
    }
    Ok(Judged::Value(cast_to(to, class, from, value)?))
}

fn cast_rule(to: Class, from: Class) -> Option<Rule>
    ensures { result ≡ cast_rule to from }
{
    if to.is_void() || (to.is_scalar() && from.is_scalar()) {
        return None;
    }
    Some(Rule::NotScalar)
}

fn cast_to(to: CType, class: Class, from: Class, value: Value) -> Result<Value, AllocError>
    ensures { IfOk result (λ v. v ≡ cast_to to class from value) }
{
    let Value {
        of,
        tree,
        constant,
        ..
    } = value;
    drop(of);
    let kind = from.kind();
    let tree = match class {
        Class::Whole(to) => behind(tree, Step::Convert { from: kind, to }),
        Class::Pointer(_) => converted(Side {
            tree,
            from: kind,
            to: Kind::UnsignedLong,
        }),
        Class::Void | Class::Struct(_) | Class::Array | Class::Function => Ok(tree),
    };
    let tree = match tree {
        Ok(tree) => tree,
        Err(error) => {
            drop(to);
            return Err(error);
        }
    };
    let sort = sort_of_cast(&to, class, is_zero_constant(constant));
    let constant = match class {
        Class::Whole(to) => c_const::cast(to, constant),
        _ => None,
    };
    Ok(Value {
        of: to,
        tree,
        constant,
        sort,
    })
}

/// A constant 0 that is cast to `void *` is a null pointer constant.
fn sort_of_cast(to: &CType, class: Class, zero: bool) -> Sort
    ensures { result ≡ sort_of_cast to.now class zero }
{
    match class {
        Class::Pointer(Target::Void) => {
            if zero && !to.is_const {
                Sort::NullPointer
            } else {
                Sort::Plain
            }
        }
        _ => Sort::Plain,
    }
}

/// `sizeof` of an expression, which isn't evaluated.
pub fn size_of_judged(
    alloc: Global,
    structs: &[StructType],
    judged: &Judged,
) -> Result<Judged, Rule>
    ensures { result ≡ unary.size_of_judged structs.now judged.now }
{
    match judged {
        Judged::Place { of, tree: _ } => size_of_type(alloc, structs, of),
        Judged::Value(value) => size_of_type(alloc, structs, &value.of),
        Judged::Function { of: _, callee: _ } => Err(Rule::Incomplete),
    }
}

/// `sizeof` of a type.
pub fn size_of_type(alloc: Global, structs: &[StructType], of: &CType) -> Result<Judged, Rule>
    ensures { result ≡ unary.size_of_type structs.now of.now }
{
    match measured(of, structs) {
        Some(bytes) => Ok(Judged::Value(number(alloc, Kind::UnsignedLong, bytes))),
        None => Err(Rule::Incomplete),
    }
}
