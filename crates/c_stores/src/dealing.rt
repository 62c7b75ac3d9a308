//! How the initialisers of a list are dealt to the objects within the list's object, one behind the other.

ghost use Rattle.std.specs.Prelude.{◌≡◌, ◌+◌, ◌<◌, ◌≤◌, ◌^◌, IfOk, IfSome};
ghost use Rattle.c_types.specs.Sizes.{size_limit};
ghost use Rattle.c_stores.specs.Dealing as dealing;
ghost use Rattle.c_stores.specs.Dealing.{bounded, broken_turn, counted, dealt_from, first_turn, inner_target, is_open, is_spoilt, no_turn, over_rule, over_turn, passed, plan_by, stored_as, taken_by};

use crate::spots::LIMIT;
use crate::{Spot, Want, spot_for};
use c_types::{CType, Part, Store, Stored, StructType};
use c_typing::{Class, Rule, class_of_type, copied_type, measured, without_last};
use sqlite_items::Items;
use std::alloc::{AllocError, Global};

/// For what a list is.
#[derive(Clone, Copy)]
pub struct Target {
    /// The declared name, at which the rules are told.
    pub token: u32,
    /// Where the declared object begins in its frame.
    pub base: u64,
    /// Where the list's object begins in the declared one.
    pub offset: u64,
}

/// How far the dealing of a list has come.
#[derive(Clone, Copy)]
pub struct Turn {
    /// Where the next object begins in the list's one, if there is one left.
    pub next: Option<u64>,
    /// Where the last one begins that an initialiser was for; for a string that is for the whole array, where its zero would be.
    pub last: u64,
    /// Whether an initialiser breaks a rule.
    pub is_broken: bool,
    /// Whether there was an initialiser, and no object left.
    pub is_over: bool,
}

/// The stores of all initialisers so far, and how far the dealing of the list has come.
#[derive(Drop)]
pub struct Dealt {
    pub stores: Items<Store>,
    pub turn: Turn,
}

/// An object that takes one value: where it and what stands behind it begin, and how it is stored.
#[derive(Clone, Copy)]
pub struct Taken {
    pub offset: u64,
    pub next: Option<u64>,
    pub stored: Stored,
}

/// How a list within a list is dealt.
#[derive(Drop)]
pub struct Plan {
    pub target: Target,
    pub of: CType,
    pub turn: Turn,
    pub placing: Placing,
}

/// Whether there is an object for a list within a list.
#[derive(Clone, Copy)]
pub enum Placing {
    /// There is one: where it and what stands behind it begin.
    Within { offset: u64, next: Option<u64> },
    /// It is a number or a pointer that has its braces already (C11, 6.7.9p11).
    Unfit { offset: u64, next: Option<u64> },
    /// None is left.
    Over,
}

impl Turn {
    pub fn first() -> Turn
        ensures { result ≡ first_turn }
    {
        Turn {
            next: Some(0),
            last: 0,
            is_broken: false,
            is_over: false,
        }
    }

    /// Nothing is dealt.
    pub fn none() -> Turn
        ensures { result ≡ no_turn }
    {
        Turn {
            next: None,
            last: 0,
            is_broken: false,
            is_over: false,
        }
    }

    /// An initialiser that isn't dealt breaks a rule.
    pub fn broken() -> Turn
        ensures { result ≡ broken_turn }
    {
        Turn {
            next: None,
            last: 0,
            is_broken: true,
            is_over: false,
        }
    }

    /// Behind an initialiser of an object.
    pub fn passed(self, last: u64, next: Option<u64>, is_broken: bool) -> Turn
        ensures { result ≡ passed last next is_broken self }
    {
        Turn {
            next,
            last,
            is_broken: self.is_broken || is_broken,
            is_over: self.is_over,
        }
    }

    /// Whether a rule is broken in the list.
    pub fn is_spoilt(self) -> bool
        ensures { result ≡ is_spoilt self }
    {
        self.is_broken || self.is_over
    }

    /// Behind an initialiser for which no object is left.
    pub fn over(self, is_broken: bool) -> Turn
        ensures { result ≡ over_turn is_broken self }
    {
        Turn {
            next: None,
            last: self.last,
            is_broken: self.is_broken || is_broken,
            is_over: true,
        }
    }
}

impl Target {
    /// For an object so many bytes on.
    pub fn inner(self, offset: u64) -> Target
        requires { self.offset + offset < size_limit }
        ensures { result ≡ inner_target offset self }
    {
        Target {
            token: self.token,
            base: self.base,
            offset: self.offset + offset,
        }
    }
}

impl Dealt {
    pub fn from(stores: Items<Store>, turn: Turn) -> Dealt
        ensures { result ≡ dealt_from stores turn }
    {
        Dealt { stores, turn }
    }
}

/// The object whose turn it is.
pub fn next_spot(
    alloc: Global,
    structs: &[StructType],
    of: &CType,
    target: Target,
    turn: Turn,
    want: Want,
) -> Result<Option<Spot>, AllocError>
    requires { target.offset < size_limit }
    ensures value { IfOk result (λ s. s ≡ dealing.next_spot structs.now of.now target turn want) }
    ensures within { IfOk result (λ s. IfSome s (λ p. target.offset + p.offset < size_limit)) }
{
    match turn.next {
        Some(position) => {
            let found = spot_for(alloc, structs, of, position, want)?;
            Ok(bounded(target, found))
        }
        None => Ok(None),
    }
}

fn bounded(target: Target, found: Option<Spot>) -> Option<Spot>
    requires whole { target.offset < size_limit }
    requires part { IfSome found (λ p. p.offset < size_limit) }
    ensures value { result ≡ bounded target found }
    ensures within { IfSome result (λ p. target.offset + p.offset < size_limit) }
{
    match found {
        Some(spot) => {
            if target.offset + spot.offset >= LIMIT {
                drop(spot);
                return None;
            }
            Some(spot)
        }
        None => None,
    }
}

/// How a list within a list is dealt.
pub fn list_plan(
    alloc: Global,
    structs: &[StructType],
    of: &CType,
    target: Target,
    turn: Turn,
) -> Result<Plan, AllocError>
    requires { target.offset < size_limit }
    ensures value { IfOk result (λ p. p ≡ dealing.list_plan structs.now of.now target turn) }
    ensures within { IfOk result (λ p. p.target.offset < size_limit) }
    ensures base { IfOk result (λ p. p.target.base ≡ target.base) }
{
    match next_spot(alloc, structs, of, target, turn, Want::List)? {
        Some(spot) => Ok(spot_plan(target, spot)),
        None => Ok(Plan {
            target,
            of: copied_type(alloc, of)?,
            turn: Turn::none(),
            placing: Placing::Over,
        }),
    }
}

fn spot_plan(target: Target, spot: Spot) -> Plan
    requires whole { target.offset < size_limit }
    requires part { target.offset + spot.offset < size_limit }
    ensures value { result ≡ dealing.spot_plan target spot }
    ensures within { result.target.offset < size_limit }
    ensures base { result.target.base ≡ target.base }
{
    let Spot {
        of,
        offset,
        next,
        is_whole,
    } = spot;
    if is_whole {
        return Plan {
            target,
            of,
            turn: Turn::none(),
            placing: Placing::Unfit { offset, next },
        };
    }
    Plan {
        target: target.inner(offset),
        of,
        turn: Turn::first(),
        placing: Placing::Within { offset, next },
    }
}

/// How an object takes one value.
pub fn taken_by(structs: &[StructType], spot: &Spot) -> Taken
    ensures { result ≡ taken_by structs.now spot.now }
{
    Taken {
        offset: spot.offset,
        next: spot.next,
        stored: stored_as(structs, &spot.of),
    }
}

fn stored_as(structs: &[StructType], of: &CType) -> Stored
    ensures { result ≡ stored_as structs.now of.now }
{
    match class_of_type(of, structs) {
        Class::Struct(_) => Stored::Structure {
            size: measured(of, structs).unwrap_or(0),
        },
        class => Stored::Number(class.kind()),
    }
}

/// What is told of a list with an initialiser for which no object is left.
pub fn over_rule(of: &CType) -> Rule
    ensures { result ≡ over_rule of.now }
{
    if is_open(of) {
        Rule::TooLarge
    } else {
        Rule::TooManyInitialisers
    }
}

/// Whether the type is an array of open size.
pub fn is_open(of: &CType) -> bool
    ensures { result ≡ is_open of.now }
{
    match of.parts.as_slice().last().copied() {
        Some(Part::OpenArray) => true,
        Some(Part::Pointer { .. } | Part::Array(_)) | None => false,
    }
}

/// The type of the object, of which an open size is what its initialiser asks for (C11, 6.7.9p22), if no rule is broken there.
pub fn sized(structs: &[StructType], of: CType, turn: Turn) -> Result<Option<CType>, AllocError>
    ensures { IfOk result (λ t. t ≡ dealing.sized structs.now of turn) }
{
    if !is_open(&of) {
        return Ok(Some(of));
    }
    if turn.is_spoilt() {
        drop(of);
        return Ok(None);
    }
    counted(structs, without_last(of), turn.last)
}

fn counted(structs: &[StructType], of: CType, last: u64) -> Result<Option<CType>, AllocError>
    ensures { IfOk result (λ t. t ≡ counted structs.now of last) }
{
    let size = match measured(&of, structs) {
        Some(0) | None => {
            drop(of);
            return Ok(None);
        }
        Some(size) => size,
    };
    let mut of = of;
    match of.parts.push(Part::Array((last / size).wrapping_add(1))) {
        Ok(()) => Ok(Some(of)),
        Err(error) => {
            drop(of);
            Err(error)
        }
    }
}
