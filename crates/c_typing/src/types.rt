//! Types that are made from types, and how types compare.

ghost use Rattle.std.specs.Prelude.{◌≡◌, ◌<◌, ◌≤◌, ◌*◌, IfOk, IfSome, length, None};
ghost use Rattle.c_types.specs.Sizes.{size_limit};
ghost use Rattle.c_typing.specs.Types as types;
ghost use Rattle.c_typing.specs.Types.{limited, base_measure, part_measure, last_pointer, with_const_at, is_const_by, are_parts, is_part, same_base, same_kind, merged_parts, merged_part};

use c_types::{Base, CType, Part, StructType};
use rank_range::Kind;
use sqlite_items::Items;
use std::alloc::AllocError;

/// How many bytes an object may have, which is this profile's own.
const LIMIT: u64 = 1_048_576;

/// A pointer to the type (C11, 6.2.5p20).
pub fn pointer_to(of: CType) -> Result<CType, AllocError>
    ensures { IfOk result (λ t. t ≡ types.pointer_to of) }
{
    let mut of = of;
    of.parts.push(Part::Pointer { is_const: false })?;
    Ok(of)
}

/// What a pointer points to, or of what an array is.
pub fn without_last(of: CType) -> CType
    ensures { result ≡ types.without_last of }
{
    let mut of = of;
    of.parts.pop();
    of
}

/// What the type is made with last.
pub fn last_part(of: &CType) -> Option<Part>
    ensures { result ≡ types.last_part of.now }
{
    of.parts.as_slice().last().copied()
}

/// How many bytes an object of the type has; nothing where the type is incomplete, or where it or a type that it is made from has
/// more bytes than an object may have.
#[tactic(auto, unfolding(crate::specs::Types::measured))]
pub fn measured(of: &CType, structs: &[StructType]) -> Option<u64>
    ensures value { result ≡ types.measured structs.now of.now }
    ensures within { IfSome result (λ n. n ≤ size_limit) }
{
    measured_parts(base_measure(of.base, structs), of.parts.as_slice())
}

/// The same for what is made from something of so many bytes.
pub fn measured_parts(base: Option<u64>, parts: &[Part]) -> Option<u64>
    ensures value { result ≡ types.measured_by base parts.now }
    ensures within { IfSome base (λ n. n ≤ size_limit) → IfSome result (λ n. n ≤ size_limit) }
{
    let mut size = base;
    for part in parts {
        size = part_measure(size, *part);
    }
    size
}

pub(crate) fn base_measure(base: Base, structs: &[StructType]) -> Option<u64>
    ensures value { result ≡ base_measure structs.now base }
    ensures within { IfSome result (λ n. n ≤ size_limit) }
{
    match base {
        Base::Void => None,
        Base::Whole(kind) => Some(kind.width().bytes() as u64),
        Base::Struct(number) => match c_types::layout(structs, number) {
            Some(layout) => limited(layout.size),
            None => None,
        },
    }
}

fn part_measure(inner: Option<u64>, part: Part) -> Option<u64>
    ensures value { result ≡ part_measure inner part }
    ensures within { IfSome result (λ n. n ≤ size_limit) }
{
    match part {
        Part::Pointer { .. } => Some(8),
        Part::OpenArray => None,
        Part::Array(count) => match inner {
            Some(size) => multiplied(count, size),
            None => None,
        },
    }
}

fn multiplied(count: u64, size: u64) -> Option<u64>
    ensures value { result ≡ limited (count * size) }
    ensures within { IfSome result (λ n. n ≤ size_limit) }
{
    match count.checked_mul(size) {
        Some(bytes) => limited(bytes),
        None => None,
    }
}

fn limited(bytes: u64) -> Option<u64>
    ensures value { result ≡ limited bytes }
    ensures within { IfSome result (λ n. n ≤ size_limit) }
{
    if bytes <= LIMIT { Some(bytes) } else { None }
}

/// The type as that of a place that may not be assigned (C11, 6.7.3). An array is as its elements.
#[tactic(auto, unfolding(crate::specs::Types::with_const))]
pub fn with_const(of: CType) -> CType
    ensures { result ≡ types.with_const of }
{
    let mut of = of;
    match last_pointer(of.parts.as_slice()) {
        Some(at) => of.parts.set(at, Part::Pointer { is_const: true }),
        None => of.is_const = true,
    }
    of
}

fn last_pointer(parts: &[Part]) -> Option<usize>
    ensures value { result ≡ last_pointer 0 None parts.now }
    ensures within { IfSome result (λ at. at < length parts.now) }
{
    let mut found = None;
    let mut at = 0;
    for part in parts {
        if let Part::Pointer { .. } = part {
            found = Some(at);
        }
        at += 1;
    }
    found
}

/// Whether a place of the type may not be assigned for its own type's sake.
#[tactic(auto, unfolding(crate::specs::Types::is_const))]
pub fn is_const(of: &CType) -> bool
    ensures { result ≡ types.is_const of.now }
{
    let mut is_const = of.is_const;
    for part in of.parts.as_slice() {
        is_const = match part {
            Part::Pointer { is_const } => *is_const,
            Part::Array(_) | Part::OpenArray => is_const,
        };
    }
    is_const
}

/// Whether the types are compatible (C11, 6.2.7), where qualifiers don't count.
#[tactic(auto, unfolding(crate::specs::Types::is_compatible))]
pub fn is_compatible(a: &CType, b: &CType) -> bool
    ensures { result ≡ types.is_compatible a.now b.now }
{
    same_base(a.base, b.base) && are_parts(a.parts.as_slice(), b.parts.as_slice())
}

/// Whether the kinds are the same.
pub fn is_kind(a: Kind, b: Kind) -> bool
    ensures { result ≡ same_kind a b }
{
    a.width() == b.width() && a.is_signed() == b.is_signed()
}

fn same_base(a: Base, b: Base) -> bool
    ensures { result ≡ same_base a b }
{
    match (a, b) {
        (Base::Void, Base::Void) => true,
        (Base::Whole(a), Base::Whole(b)) => is_kind(a, b),
        (Base::Struct(a), Base::Struct(b)) => a == b,
        (Base::Void, _) | (Base::Whole(_), _) | (Base::Struct(_), _) => false,
    }
}

fn are_parts(a: &[Part], b: &[Part]) -> bool
    ensures { result ≡ are_parts a.now b.now }
{
    match (a.split_first(), b.split_first()) {
        (None, None) => true,
        (Some((x, xs)), Some((y, ys))) => is_part(*x, *y) && are_parts(xs, ys),
        (None, Some(_)) | (Some(_), None) => false,
    }
}

fn is_part(a: Part, b: Part) -> bool
    ensures { result ≡ is_part a b }
{
    match (a, b) {
        (Part::Pointer { .. }, Part::Pointer { .. }) => true,
        (Part::Array(a), Part::Array(b)) => a == b,
        (Part::Array(_) | Part::OpenArray, Part::OpenArray) | (Part::OpenArray, Part::Array(_)) => {
            true
        }
        (Part::Pointer { .. }, Part::Array(_) | Part::OpenArray)
        | (Part::Array(_) | Part::OpenArray, Part::Pointer { .. }) => false,
    }
}

/// The composite type of two compatible types (C11, 6.2.7p3), which is `const` wherever one of them is.
#[tactic(auto, unfolding(crate::specs::Types::merged))]
pub fn merged(a: CType, b: &CType) -> CType
    ensures { result ≡ types.merged a b.now }
{
    let mut a = a;
    a.is_const = a.is_const || b.is_const;
    merge_parts(&mut a.parts, b.parts.as_slice());
    a
}

fn merge_parts(a: &mut Items<Part>, b: &[Part])
    ensures { a.new ≡ merged_parts a.old b.now }
{
    let mut at = 0;
    for part in b {
        if let Some(mine) = a.get(at).copied() {
            a.set(at, merged_part(mine, *part));
        }
        at += 1;
    }
}

fn merged_part(a: Part, b: Part) -> Part
    ensures { result ≡ merged_part a b }
{
    match (a, b) {
        (Part::Pointer { is_const: mine }, Part::Pointer { is_const: other }) => Part::Pointer {
            is_const: mine || other,
        },
        (Part::OpenArray, Part::Array(count)) => Part::Array(count),
        (Part::Pointer { .. }, Part::Array(_) | Part::OpenArray)
        | (Part::Array(_), _)
        | (Part::OpenArray, Part::Pointer { .. } | Part::OpenArray) => a,
    }
}
