//! Whether declarations of one name agree (C11, 6.2.7 and 6.7p3 to p4).

ghost use Rattle.std.specs.Prelude.{◌≡◌, IfOk};
ghost use Rattle.c_check.specs.Redeclared as redeclared;
ghost use Rattle.c_check.specs.Redeclared.{same_levels, agrees, agrees_aside, functions_agree, all_agree_aside, pairs_agree, same_extents, merged_all};

use c_types::{CType, FunctionType, Part};
use c_typing::{copied_type, is_compatible, merged};
use sqlite_items::Items;
use std::alloc::{AllocError, Global};

/// Whether the types of two declarations of an object agree. Here `const` counts.
pub fn agrees(a: &CType, b: &CType) -> bool
    ensures { result ≡ agrees a.now b.now }
{
    is_compatible(a, b)
        && same_levels(
            false,
            a.is_const,
            b.is_const,
            a.parts.as_slice(),
            b.parts.as_slice(),
        )
}

/// The same, but for the qualifiers of the types themselves.
fn agrees_aside(a: &CType, b: &CType) -> bool
    ensures { result ≡ agrees_aside a.now b.now }
{
    is_compatible(a, b)
        && same_levels(
            true,
            a.is_const,
            b.is_const,
            a.parts.as_slice(),
            b.parts.as_slice(),
        )
}

/// Whether types whose levels so far are told by `a_const` and `b_const` are `const` at the same levels, from the base outwards. The
/// last level may be left aside.
fn same_levels(is_last_aside: bool, a_const: bool, b_const: bool, a: &[Part], b: &[Part]) -> bool
    ensures { result ≡ same_levels is_last_aside a_const b_const a.now b.now }
{
    match (a.split_first(), b.split_first()) {
        (
            Some((Part::Pointer { is_const: next_a }, a)),
            Some((Part::Pointer { is_const: next_b }, b)),
        ) => a_const == b_const && same_levels(is_last_aside, *next_a, *next_b, a, b),
        (Some((_, a)), Some((_, b))) => same_levels(is_last_aside, a_const, b_const, a, b),
        (None, _) | (Some(_), None) => is_last_aside || a_const == b_const,
    }
}

/// Whether the types are the same, so that a typedef may be repeated (C11, 6.7p3).
pub fn is_same(a: &CType, b: &CType) -> bool
    ensures { result ≡ redeclared.is_same a.now b.now }
{
    agrees(a, b) && same_extents(a.parts.as_slice(), b.parts.as_slice())
}

/// Whether both know the sizes of the same arrays.
fn same_extents(a: &[Part], b: &[Part]) -> bool
    ensures { result ≡ same_extents a.now b.now }
{
    match (a.split_first(), b.split_first()) {
        (Some((p, a)), Some((q, b))) => is_open(*p) == is_open(*q) && same_extents(a, b),
        (None, _) | (Some(_), None) => true,
    }
}

fn is_open(part: Part) -> bool
    ensures { result ≡ redeclared.is_open part }
{
    match part {
        Part::OpenArray => true,
        Part::Pointer { is_const: _ } | Part::Array(_) => false,
    }
}

/// Whether the types of two declarations of a function agree.
pub fn functions_agree(a: &FunctionType, b: &FunctionType) -> bool
    ensures { result ≡ functions_agree a.now b.now }
{
    agrees_aside(&a.result, &b.result)
        && all_agree_aside(a.parameters.as_slice(), b.parameters.as_slice())
}

fn all_agree_aside(a: &[CType], b: &[CType]) -> bool
    ensures { result ≡ all_agree_aside a.now b.now }
{
    a.len() == b.len() && pairs_agree(a, b)
}

fn pairs_agree(a: &[CType], b: &[CType]) -> bool
    ensures { result ≡ pairs_agree a.now b.now }
{
    match (a.split_first(), b.split_first()) {
        (Some((t, a)), Some((u, b))) => agrees_aside(t, u) && pairs_agree(a, b),
        (None, _) | (Some(_), None) => true,
    }
}

/// The composite type of two types of functions that agree (C11, 6.2.7p3).
pub fn merged_function(
    alloc: Global,
    a: &FunctionType,
    b: &FunctionType,
) -> Result<FunctionType, AllocError>
    ensures { IfOk result (λ t. t ≡ redeclared.merged_function a.now b.now) }
{
    let result = merged(copied_type(alloc, &a.result)?, &b.result);
    match merged_all(alloc, a.parameters.as_slice(), b.parameters.as_slice()) {
        Ok(parameters) => Ok(FunctionType { result, parameters }),
        Err(error) => {
            drop(result);
            Err(error)
        }
    }
}

fn merged_all(alloc: Global, a: &[CType], b: &[CType]) -> Result<Items<CType>, AllocError>
    ensures { IfOk result (λ ts. ts ≡ merged_all a.now b.now) }
{
    let mut all = Items::new(alloc);
    let mut at = 0;
    while at < a.len() && at < b.len() {
        match copied_type(alloc, &a[at]) {
            Ok(of) => all.push(merged(of, &b[at]))?,
            Err(error) => {
                drop(all);
                return Err(error);
            }
        }
        at += 1;
    }
    Ok(all)
}
