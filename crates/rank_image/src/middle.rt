//! A rank's communicators and the collective that it joined, with their readers and writers.

ghost use Rattle.std.specs.Prelude.{◌≡◌, ◌++◌, true, Some, None, IfOk, OnOk, IsErrOf};
ghost use Rattle.byte_formats.specs.declared.cursor.Unspelled.TheVariants.{Bad};
ghost use Rattle.byte_formats.specs.Formats.{both};
ghost use Rattle.rank_image.specs.Messages.{arguments};
ghost use Rattle.rank_image.specs.Middle.{rank, members, communicator, is_communicator_before, communicators, own, own_of, joined, middle};
ghost use Rattle.rank_image.specs.MiddleLaws.{rank_is, communicator_is};

use crate::messages::{Argument, Arguments, Context};
use crate::order::{Order, ascend_in};
use crate::requests::{Requests, take_requests};
use am_base::{Bytes, RankId};
use byte_formats::{
    Cursor, Spelling, Unspelled, put_count8, put_count16, put_many, put_u8, put_u16, put_u32,
    take_many, take_u8, take_u16, take_u32,
};
use mpi_types::{Arg, ArgList, Communicator, Ctx, Group, Joined, Sequence};
use std::alloc::{AllocError, Global};

/// A rank's requests, its communicators, and the collective that it joined.
#[derive(Drop)]
pub struct Middle {
    pub requests: Requests,
    pub communicators: Sequence<Communicator>,
    pub joined: Option<Joined>,
}

/// Numbers of ranks.
pub struct RankFormat;

impl Spelling for RankFormat {
    type Value = RankId;

    ghost format = { rank };

    #[tactic(auto, unfolding(crate::specs::Middle::rank))]
    fn take(_alloc: Global, cursor: &mut Cursor<'_>) -> Result<RankId, Unspelled> {
        let number = take_u16(cursor)?;
        Ok(RankId(number))
    }

    #[tactic(auto, unfolding(crate::specs::Middle::rank))]
    fn put(out: &mut Bytes, value: &RankId) -> Result<(), AllocError> {
        put_u16(out, value.0)
    }

    ghost is_format = { rank_is };
}

/// Takes the members of a communicator.
#[tactic(auto, unfolding(crate::specs::Middle::members))]
fn take_members(alloc: Global, cursor: &mut Cursor<'_>) -> Result<Sequence<RankId>, Unspelled>
    ensures ok { IfOk result (λ x. members.read cursor.old.rest.now ≡ Some (x, cursor.new.rest.now)) }
    ensures bad { IsErrOf result Bad → members.read cursor.old.rest.now ≡ None }
{
    let count = take_u16(cursor)?;
    let found = take_many::<RankFormat>(alloc, cursor, count as usize)?;
    Ok(Sequence::from_vec(found))
}

/// Appends the members of a communicator.
#[tactic(auto, unfolding(crate::specs::Middle::members))]
fn put_members(out: &mut Bytes, value: &[RankId]) -> Result<(), AllocError>
    requires { members.fits value.now ≡ true }
    ensures { OnOk result (out.new ≡ out.old ++ members.spell value.now) }
{
    put_count16(out, value.len())?;
    put_many::<RankFormat>(out, value)
}

/// Communicators.
pub struct CommunicatorFormat;

impl Spelling for CommunicatorFormat {
    type Value = Communicator;

    ghost format = { communicator };

    #[tactic(auto, unfolding(crate::specs::Middle::communicator))]
    fn take(alloc: Global, cursor: &mut Cursor<'_>) -> Result<Communicator, Unspelled> {
        let number = take_u8(cursor)?;
        let ctx = Context::take(alloc, cursor)?;
        let position = match take_u32(cursor) {
            Ok(position) => position,
            Err(error) => {
                drop(ctx);
                return Err(error);
            }
        };
        match take_members(alloc, cursor) {
            Ok(members) => Ok(Communicator {
                number,
                group: Group { ctx, members },
                position,
            }),
            Err(error) => {
                drop(ctx);
                Err(error)
            }
        }
    }

    #[tactic(auto, unfolding(crate::specs::Middle::communicator))]
    fn put(out: &mut Bytes, value: &Communicator) -> Result<(), AllocError> {
        put_u8(out, value.number)?;
        Context::put(out, &value.group.ctx)?;
        put_u32(out, value.position)?;
        put_members(out, value.group.members.as_slice())
    }

    ghost is_format = { communicator_is };
}

/// Communicators by number.
struct ByCommunicator;

impl Order for ByCommunicator {
    type Value = Communicator;

    ghost test = { is_communicator_before };

    fn is_before(a: &Communicator, b: &Communicator) -> bool {
        a.number < b.number
    }
}

/// Takes a rank's communicators, which ascend by number.
#[tactic(auto, unfolding(crate::specs::Middle::communicators))]
fn take_communicators(
    alloc: Global,
    cursor: &mut Cursor<'_>,
) -> Result<Sequence<Communicator>, Unspelled>
    ensures ok { IfOk result (λ x. communicators.read cursor.old.rest.now ≡ Some (x, cursor.new.rest.now)) }
    ensures bad { IsErrOf result Bad → communicators.read cursor.old.rest.now ≡ None }
{
    let count = take_u8(cursor)?;
    if count > 64 {
        return Err(Unspelled::Bad);
    }
    let found = take_many::<CommunicatorFormat>(alloc, cursor, count as usize)?;
    if ascend_in::<ByCommunicator>(found.as_slice()) {
        return Ok(Sequence::from_vec(found));
    }
    drop(found);
    Err(Unspelled::Bad)
}

/// Appends a rank's communicators.
#[tactic(auto, unfolding(crate::specs::Middle::communicators))]
pub fn put_communicators(out: &mut Bytes, value: &[Communicator]) -> Result<(), AllocError>
    requires { communicators.fits value.now ≡ true }
    ensures { OnOk result (out.new ≡ out.old ++ communicators.spell value.now) }
{
    put_count8(out, value.len())?;
    put_many::<CommunicatorFormat>(out, value)
}

/// What was joined: the context, the position, and what the rank gave.
type OwnParts = (Ctx, (u32, Arg));

/// Takes what a rank joined.
#[tactic(auto, unfolding(crate::specs::Middle::own))]
fn take_own(alloc: Global, cursor: &mut Cursor<'_>) -> Result<OwnParts, Unspelled>
    ensures ok { IfOk result (λ x. own.read cursor.old.rest.now ≡ Some (x, cursor.new.rest.now)) }
    ensures bad { IsErrOf result Bad → own.read cursor.old.rest.now ≡ None }
{
    let ctx = Context::take(alloc, cursor)?;
    let position = match take_u32(cursor) {
        Ok(position) => position,
        Err(error) => {
            drop(ctx);
            return Err(error);
        }
    };
    match Argument::take(alloc, cursor) {
        Ok(arg) => Ok((ctx, (position, arg))),
        Err(error) => {
            drop(ctx);
            Err(error)
        }
    }
}

/// Appends what a rank joined.
#[tactic(auto, unfolding(crate::specs::Middle::own))]
fn put_own(out: &mut Bytes, value: &Joined) -> Result<(), AllocError>
    requires { own.fits (own_of value.now) ≡ true }
    ensures { OnOk result (out.new ≡ out.old ++ own.spell (own_of value.now)) }
{
    Context::put(out, &value.ctx)?;
    put_u32(out, value.position)?;
    Argument::put(out, &value.arg)
}

/// Takes the collective that a rank joined.
#[tactic(auto, unfolding(crate::specs::Middle::joined))]
fn take_joined(alloc: Global, cursor: &mut Cursor<'_>) -> Result<Option<Joined>, Unspelled>
    ensures ok { IfOk result (λ x. joined.read cursor.old.rest.now ≡ Some (x, cursor.new.rest.now)) }
    ensures bad { IsErrOf result Bad → joined.read cursor.old.rest.now ≡ None }
{
    let tag = take_u8(cursor)?;
    if tag == 0 {
        return Ok(None);
    }
    if tag == 1 {
        let (ctx, (position, arg)) = take_own(alloc, cursor)?;
        return Ok(Some(Joined {
            ctx,
            position,
            arg,
            gathered: None,
        }));
    }
    if tag == 2 {
        let ((ctx, (position, arg)), args) = take_gathered(alloc, cursor)?;
        return Ok(Some(Joined {
            ctx,
            position,
            arg,
            gathered: Some(args),
        }));
    }
    Err(Unspelled::Bad)
}

/// Takes what a rank joined, and the arguments that it gathered.
fn take_gathered(alloc: Global, cursor: &mut Cursor<'_>) -> Result<(OwnParts, ArgList), Unspelled>
    ensures ok { IfOk result (λ x. (both own arguments).read cursor.old.rest.now ≡ Some (x, cursor.new.rest.now)) }
    ensures bad { IsErrOf result Bad → (both own arguments).read cursor.old.rest.now ≡ None }
{
    let parts = take_own(alloc, cursor)?;
    match Arguments::take(alloc, cursor) {
        Ok(args) => Ok((parts, args)),
        Err(error) => {
            drop(parts);
            Err(error)
        }
    }
}

/// Appends the collective that a rank joined.
#[tactic(auto, unfolding(crate::specs::Middle::joined))]
pub fn put_joined(out: &mut Bytes, value: &Option<Joined>) -> Result<(), AllocError>
    requires { joined.fits value.now ≡ true }
    ensures { OnOk result (out.new ≡ out.old ++ joined.spell value.now) }
{
    let Some(value) = value else {
        return put_u8(out, 0);
    };
    match &value.gathered {
        None => {
            put_u8(out, 1)?;
            put_own(out, value)
        }
        Some(args) => {
            put_u8(out, 2)?;
            put_own(out, value)?;
            Arguments::put(out, args)
        }
    }
}

/// Takes a rank's requests, its communicators, and the collective that it joined.
#[tactic(auto, unfolding(crate::specs::Middle::middle))]
pub fn take_middle(alloc: Global, cursor: &mut Cursor<'_>) -> Result<Middle, Unspelled>
    ensures ok { IfOk result (λ x. middle.read cursor.old.rest.now ≡ Some (x, cursor.new.rest.now)) }
    ensures bad { IsErrOf result Bad → middle.read cursor.old.rest.now ≡ None }
{
    let requests = take_requests(alloc, cursor)?;
    let communicators = match take_communicators(alloc, cursor) {
        Ok(communicators) => communicators,
        Err(error) => {
            drop(requests);
            return Err(error);
        }
    };
    match take_joined(alloc, cursor) {
        Ok(joined) => Ok(Middle {
            requests,
            communicators,
            joined,
        }),
        Err(error) => {
            drop(requests);
            drop(communicators);
            Err(error)
        }
    }
}
