//! Where the initialisers of a list go within an object.

ghost use Rattle.std.specs.Prelude.{◌≡◌, ◌+◌, ◌≤◌, ◌<◌, length, None, IfOk, IfSome};
ghost use Rattle.c_types.specs.Sizes.{size_limit};
ghost use Rattle.c_stores.specs.Spots as spots;
ghost use Rattle.c_stores.specs.Spots.{element, element_at, holder, is_character, is_for, is_met, is_one_array, is_text_array, level_limit, member_behind, member_spot, part_in, suits, suits_whole};

use c_types::{Base, CType, Member, Part, StructType, layout};
use c_typing::{Class, class_of_type, copied_type, measured, without_last};
use rank_range::Kind;
use std::alloc::{AllocError, Global};

/// How many bytes an object may have, which is this profile's own.
pub(crate) const LIMIT: u64 = 1_048_576;

/// No type is nested as deep as this.
const LEVELS: u64 = 18_446_744_073_709_551_615;

/// The object of a list of initialisers, or an object within it.
#[derive(Drop)]
pub struct Spot {
    pub of: CType,
    pub offset: u64,
    /// Where what stands behind it in the list's object begins, if anything does.
    pub next: Option<u64>,
    /// Whether it is all that the list's braces are for.
    pub is_whole: bool,
}

/// What an initialiser is, by which objects it can initialise.
#[derive(Clone, Copy)]
pub enum Want {
    /// A list in braces.
    List,
    /// A string.
    Text,
    /// A structure, by the number of its type.
    Structure(u32),
    /// Another expression.
    Plain,
}

/// What the initialiser initialises whose turn comes at this offset of a list's object.
#[tactic(auto, unfolding(crate::specs::Spots::spot_for))]
pub fn spot_for(
    alloc: Global,
    structs: &[StructType],
    of: &CType,
    position: u64,
    want: Want,
) -> Result<Option<Spot>, AllocError>
    ensures value { IfOk result (λ s. s ≡ spots.spot_for structs.now of.now position want) }
    ensures within { IfOk result (λ s. IfSome s (λ t. t.offset < size_limit)) }
{
    if position >= LIMIT {
        return Ok(None);
    }
    let part = Spot {
        of: copied_type(alloc, of)?,
        offset: 0,
        next: None,
        is_whole: true,
    };
    spot_from(alloc, structs, position, want, part)
}

/// The first object from one inwards that begins at the position and is met.
fn spot_from(
    alloc: Global,
    structs: &[StructType],
    position: u64,
    want: Want,
    part: Spot,
) -> Result<Option<Spot>, AllocError>
    requires behind { part.offset ≤ position }
    requires within { position < size_limit }
    ensures value { IfOk result (λ s. s ≡ spots.spot_from level_limit structs.now position want part) }
    ensures begun { IfOk result (λ s. IfSome s (λ t. t.offset ≤ position)) }
{
    let mut part = part;
    let mut levels = LEVELS;
    while levels > 0 {
        if is_for(structs, position, want, &part) {
            return Ok(Some(part));
        }
        part = match part_in(alloc, structs, position, part)? {
            Some(inner) => inner,
            None => return Ok(None),
        };
        levels -= 1;
    }
    drop(part);
    Ok(None)
}

fn is_for(structs: &[StructType], position: u64, want: Want, part: &Spot) -> bool
    ensures { result ≡ is_for structs.now position want part.now }
{
    part.offset == position && is_met(structs, want, part)
}

/// Whether the initialiser is for all of an object, and not for a part of it.
fn is_met(structs: &[StructType], want: Want, part: &Spot) -> bool
    ensures { result ≡ is_met structs.now want part.now }
{
    let class = class_of_type(&part.of, structs);
    let is_text = is_text_array(&part.of);
    if class.is_scalar() {
        return true;
    }
    if part.is_whole {
        suits_whole(want, is_text)
    } else {
        suits(want, class, is_text)
    }
}

fn suits_whole(want: Want, is_text: bool) -> bool
    ensures { result ≡ suits_whole want is_text }
{
    match want {
        Want::Text => is_text,
        Want::List | Want::Structure(_) | Want::Plain => false,
    }
}

fn suits(want: Want, class: Class, is_text: bool) -> bool
    ensures { result ≡ suits want class is_text }
{
    match want {
        Want::List => true,
        Want::Text => is_text,
        Want::Structure(number) => class == Class::Struct(number),
        Want::Plain => false,
    }
}

/// Whether a string can initialise the type.
pub fn is_text_array(of: &CType) -> bool
    ensures { result ≡ is_text_array of.now }
{
    is_character(of.base) && is_one_array(of.parts.as_slice())
}

fn is_character(base: Base) -> bool
    ensures { result ≡ is_character base }
{
    match base {
        Base::Whole(Kind::Char | Kind::UnsignedChar) => true,
        Base::Void | Base::Whole(_) | Base::Struct(_) => false,
    }
}

fn is_one_array(parts: &[Part]) -> bool
    ensures { result ≡ is_one_array parts.now }
{
    match parts.split_first() {
        Some((Part::Array(_) | Part::OpenArray, rest)) => rest.is_empty(),
        Some((Part::Pointer { .. }, _)) | None => false,
    }
}

/// The element or the member in which the position lies.
fn part_in(
    alloc: Global,
    structs: &[StructType],
    position: u64,
    part: Spot,
) -> Result<Option<Spot>, AllocError>
    requires behind { part.offset ≤ position }
    requires within { position < size_limit }
    ensures value { IfOk result (λ s. s ≡ part_in structs.now position part) }
    ensures begun { IfOk result (λ s. IfSome s (λ t. t.offset ≤ position)) }
{
    let last = part.of.parts.as_slice().last().copied();
    let relative = position - part.offset;
    match last {
        Some(Part::Array(count)) => Ok(element(structs, relative, Some(count), part)),
        Some(Part::OpenArray) => Ok(element(structs, relative, None, part)),
        Some(Part::Pointer { .. }) => {
            drop(part);
            Ok(None)
        }
        None => member(alloc, structs, relative, part),
    }
}

/// An element; an array of open size has as many as an object may have.
fn element(structs: &[StructType], relative: u64, count: Option<u64>, part: Spot) -> Option<Spot>
    requires { part.offset + relative < size_limit }
    ensures value { result ≡ element structs.now relative count part }
    ensures begun { IfSome result (λ t. t.offset ≤ part.offset + relative) }
{
    let Spot {
        of,
        offset,
        next,
        is_whole: _,
    } = part;
    let of = without_last(of);
    let size = match measured(&of, structs) {
        Some(0) | None => {
            drop(of);
            return None;
        }
        Some(size) => size,
    };
    let count = match count {
        Some(count) => count,
        None => LIMIT / size,
    };
    let number = relative / size;
    if number >= count {
        drop(of);
        return None;
    }
    Some(Spot {
        of,
        offset: offset + number * size,
        next: if number + 1 < count {
            Some(offset + (number + 1) * size)
        } else {
            next
        },
        is_whole: false,
    })
}

fn member(
    alloc: Global,
    structs: &[StructType],
    relative: u64,
    part: Spot,
) -> Result<Option<Spot>, AllocError>
    requires { part.offset + relative < size_limit }
    ensures value { IfOk result (λ s. s ≡ spots.member structs.now relative part) }
    ensures begun { IfOk result (λ s. IfSome s (λ t. t.offset ≤ part.offset + relative)) }
{
    let Spot {
        of,
        offset,
        next,
        is_whole: _,
    } = part;
    let base = of.base;
    drop(of);
    match base {
        Base::Struct(number) => match layout(structs, number) {
            Some(layout) => member_spot(alloc, layout.members.as_slice(), relative, offset, next),
            None => Ok(None),
        },
        Base::Void | Base::Whole(_) => Ok(None),
    }
}

fn member_spot(
    alloc: Global,
    members: &[Member],
    relative: u64,
    offset: u64,
    next: Option<u64>,
) -> Result<Option<Spot>, AllocError>
    requires { offset + relative < size_limit }
    ensures value { IfOk result (λ s. s ≡ member_spot members.now relative offset next) }
    ensures begun { IfOk result (λ s. IfSome s (λ t. t.offset ≤ offset + relative)) }
{
    let Some((at, begin)) = holder(members, relative) else {
        return Ok(None);
    };
    match sqlite_items::at(members, at) {
        Some(member) => Ok(Some(Spot {
            of: copied_type(alloc, &member.of)?,
            offset: offset + begin,
            next: member_behind(members, at + 1, offset, next),
            is_whole: false,
        })),
        None => Ok(None),
    }
}

/// Where the member with this number begins; where what stands behind the structure does, if there is no such member.
fn member_behind(members: &[Member], at: usize, offset: u64, next: Option<u64>) -> Option<u64>
    ensures { result ≡ member_behind members.now at offset next }
{
    match sqlite_items::at(members, at) {
        Some(member) => offset.checked_add(member.offset),
        None => next,
    }
}

/// The last member that begins no later than the position: its number and its offset.
fn holder(members: &[Member], position: u64) -> Option<(usize, u64)>
    ensures value { result ≡ holder position 0 None members.now }
    ensures begun { IfSome result (λ f. f.1 ≤ position) }
    ensures within { IfSome result (λ f. f.0 < length members.now) }
{
    let mut found = None;
    let mut at = 0;
    for member in members {
        if member.offset <= position {
            found = Some((at, member.offset));
        }
        at += 1;
    }
    found
}
