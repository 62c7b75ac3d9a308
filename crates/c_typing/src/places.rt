//! Places within objects: elements and members (C11, 6.5.2.1 and 6.5.2.3).

ghost use Rattle.std.specs.Prelude.{◌≡◌, IfOk};
ghost use Rattle.std.specs.Option.{option_copied};
ghost use Rattle.c_typing.specs.Rules.{Tells, first_of};
ghost use Rattle.c_typing.specs.Places as places;
ghost use Rattle.c_typing.specs.Places.{element, found_member, lent, member_place};

use crate::classes::class_of;
use crate::operators::sum_plan;
use crate::pairs::{Pair, pair_of};
use crate::trees::{Side, behind, operation};
use crate::types::{is_const, with_const, without_last};
use crate::values::{both_used, used};
use crate::{Class, Judged, Rule, Sort, TypeError, Value};
use c_types::{Base, CType, Expr, Member, Part, Step, StructType};
use sqlite_items::Items;
use std::alloc::{AllocError, Global};

/// `a[b]`, of which one is a pointer, and the other one a number.
#[tactic(auto, unfolding(crate::specs::Places::index))]
pub fn index(
    alloc: Global,
    structs: &[StructType],
    a: Judged,
    b: Judged,
) -> Result<Judged, TypeError>
    ensures { Tells result (places.index structs.now a b) }
{
    let (a, b) = both_used(alloc, a, b)?;
    let pair = pair_of(structs, &a, &b);
    if let Some(rule) = index_rule(pair) {
        drop(a);
        drop(b);
        return Err(TypeError::Broken(rule));
    }
    Ok(element(alloc, pair, a, b)?)
}

#[tactic(auto, unfolding(crate::specs::Places::index_rows))]
fn index_rule(pair: Pair) -> Option<Rule>
    ensures { result ≡ first_of (places.index_rows pair) }
{
    let Pair { left, right, .. } = pair;
    if (left.is_unmoved() && right.is_whole()) || (left.is_whole() && right.is_unmoved()) {
        return Some(Rule::Incomplete);
    }
    if (left.is_pointer() && !right.is_whole()) || (!left.is_pointer() && !places_index(pair)) {
        return Some(Rule::NotWhole);
    }
    if left.is_function() || right.is_function() {
        return Some(Rule::NotScalar);
    }
    if !(left.is_pointer() || right.is_pointer()) {
        return Some(Rule::NotPointer);
    }
    None
}

/// Whether the operand that isn't the pointer is a number, where the left one is no pointer.
fn places_index(pair: Pair) -> bool
    ensures { result ≡ places.is_number_beside pair }
{
    if pair.right.is_pointer() {
        pair.left.is_whole()
    } else {
        pair.right.is_whole()
    }
}

fn element(alloc: Global, pair: Pair, a: Value, b: Value) -> Result<Judged, AllocError>
    ensures { IfOk result (λ j. j ≡ element pair a b) }
{
    let plan = sum_plan(pair);
    let Value {
        of: left,
        tree: a,
        ..
    } = a;
    let Value {
        of: right,
        tree: b,
        ..
    } = b;
    let a = Side {
        tree: a,
        from: pair.left.kind(),
        to: plan.left,
    };
    let b = Side {
        tree: b,
        from: pair.right.kind(),
        to: plan.right,
    };
    let of = pointed_to(pair.left, left, right);
    match operation(alloc, a, plan.step, b) {
        Ok(tree) => Ok(Judged::Place { of, tree }),
        Err(error) => {
            drop(of);
            Err(error)
        }
    }
}

/// What the pointer of the two points to.
fn pointed_to(left: Class, a: CType, b: CType) -> CType
    ensures { result ≡ places.pointed_to left a b }
{
    if left.is_pointer() {
        drop(b);
        without_last(a)
    } else {
        drop(a);
        without_last(b)
    }
}

/// `a.name`
#[tactic(auto, unfolding(crate::specs::Places::member))]
pub fn member(
    alloc: Global,
    structs: &[StructType],
    name: &[u8],
    judged: Judged,
) -> Result<Judged, TypeError>
    ensures { Tells result (places.member structs.now name.now judged) }
{
    match judged {
        Judged::Place { of, tree } => {
            let found = member_of(&of, structs, name);
            let place = member_at(alloc, found, is_const(&of), tree);
            drop(of);
            place
        }
        Judged::Value(value) => {
            let rule = value_member_rule(&value, structs, name);
            drop(value);
            Err(TypeError::Broken(rule))
        }
        Judged::Function { of, callee: _ } => {
            drop(of);
            Err(TypeError::Broken(Rule::NoSuchMember))
        }
    }
}

/// `a->name`
#[tactic(auto, unfolding(crate::specs::Places::arrow))]
pub fn arrow(
    alloc: Global,
    structs: &[StructType],
    name: &[u8],
    judged: Judged,
) -> Result<Judged, TypeError>
    ensures { Tells result (places.arrow structs.now name.now judged) }
{
    let value = used(alloc, judged)?;
    if !class_of(&value, structs).is_pointer() {
        drop(value);
        return Err(TypeError::Broken(Rule::NotPointer));
    }
    let Value { of, tree, .. } = value;
    let of = without_last(of);
    let found = member_of(&of, structs, name);
    let place = member_at(alloc, found, is_const(&of), tree);
    drop(of);
    place
}

/// A member of a structure that is no place breaks a rule, whichever it is.
fn value_member_rule(value: &Value, structs: &[StructType], name: &[u8]) -> Rule
    ensures { result ≡ places.value_member_rule structs.now name.now value.now }
{
    if value.sort == Sort::Function {
        return Rule::NoSuchMember;
    }
    match member_of(&value.of, structs, name) {
        Ok(_) => Rule::StructUsed,
        Err(rule) => rule,
    }
}

/// The member of a structure's type, or the rule that is broken.
fn member_of<'a>(of: &CType, structs: &'a [StructType], name: &[u8]) -> Result<&'a Member, Rule>
    ensures { lent result ≡ places.member_of structs.now name.now of.now }
{
    if !of.parts.is_empty() {
        return Err(Rule::NoSuchMember);
    }
    let Base::Struct(number) = of.base else {
        return Err(Rule::NoSuchMember);
    };
    let Some(layout) = c_types::layout(structs, number) else {
        return Err(Rule::Incomplete);
    };
    match found_member(layout.members.as_slice(), name) {
        Some(member) => Ok(member),
        None => Err(Rule::NoSuchMember),
    }
}

fn found_member<'a>(members: &'a [Member], name: &[u8]) -> Option<&'a Member>
    ensures { option_copied result ≡ found_member members.now name.now }
{
    for member in members {
        if member.name.as_slice() == name {
            return Some(member);
        }
    }
    None
}

/// The place of a member, which is `const` as the structure is.
fn member_at(
    alloc: Global,
    found: Result<&Member, Rule>,
    is_const: bool,
    tree: Expr,
) -> Result<Judged, TypeError>
    ensures { Tells result (places.member_at (lent found.entry) is_const tree) }
{
    match found {
        Ok(member) => Ok(member_place(alloc, member, is_const, tree)?),
        Err(rule) => {
            drop(tree);
            Err(TypeError::Broken(rule))
        }
    }
}

fn member_place(
    alloc: Global,
    member: &Member,
    is_const: bool,
    tree: Expr,
) -> Result<Judged, AllocError>
    ensures { IfOk result (λ j. j ≡ member_place member.now is_const tree) }
{
    let tree = behind(
        tree,
        Step::Member {
            offset: member.offset,
        },
    )?;
    match copied_type(alloc, &member.of) {
        Ok(of) => Ok(Judged::Place {
            of: if is_const { with_const(of) } else { of },
            tree,
        }),
        Err(error) => {
            drop(tree);
            Err(error)
        }
    }
}

/// The same type.
pub fn copied_type(alloc: Global, of: &CType) -> Result<CType, AllocError>
    ensures { IfOk result (λ t. t ≡ of.now) }
{
    let parts: Items<Part> = Items::from_slice(alloc, of.parts.as_slice())?;
    Ok(CType {
        base: of.base,
        is_const: of.is_const,
        parts,
    })
}
