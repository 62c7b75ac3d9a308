//! Contexts, messages and arguments of collectives, with their readers and writers.

ghost use Rattle.std.specs.Prelude.{◌≡◌, ◌≤◌, ◌++◌, true, length, Some, None, IfOk, OnOk, IsErrOf};
ghost use Rattle.byte_formats.specs.declared.cursor.Unspelled.TheVariants.{Bad};
ghost use Rattle.rank_image.specs.Messages.{level, context, sent, sent_of, message, kind_of, argument_head, argument_rest, argument, arguments, direction, gift, gift_of, tree_message, head_of, rest_of};
ghost use Rattle.rank_image.specs.MessageLaws.{level_is, context_is, message_is, argument_is, arguments_is, tree_message_is};

use crate::codes::{collective_of, direction_number, direction_of};
use am_base::{Bytes, RankId};
use byte_formats::{
    Cursor, Spelling, Unspelled, put_count8, put_count16, put_i32, put_many, put_text, put_u8,
    put_u16, put_u32, take_i32, take_many, take_text, take_u8, take_u16, take_u32,
};
use mpi_types::{Arg, ArgList, Collective, Ctx, Direction, Level, Message, Sequence, TreeMsg};
use std::alloc::{AllocError, Global};

/// Levels of contexts.
pub struct LevelFormat;

impl Spelling for LevelFormat {
    type Value = Level;

    ghost format = { level };

    #[tactic(auto, unfolding(crate::specs::Messages::level))]
    fn take(_alloc: Global, cursor: &mut Cursor<'_>) -> Result<Level, Unspelled> {
        let position = take_u32(cursor)?;
        let colour = take_i32(cursor)?;
        Ok(Level { position, colour })
    }

    #[tactic(auto, unfolding(crate::specs::Messages::level))]
    fn put(out: &mut Bytes, value: &Level) -> Result<(), AllocError> {
        put_u32(out, value.position)?;
        put_i32(out, value.colour)
    }

    ghost is_format = { level_is };
}

/// Contexts.
pub struct Context;

impl Spelling for Context {
    type Value = Ctx;

    ghost format = { context };

    #[tactic(auto, unfolding(crate::specs::Messages::context))]
    fn take(alloc: Global, cursor: &mut Cursor<'_>) -> Result<Ctx, Unspelled> {
        let count = take_u8(cursor)?;
        if count > 16 {
            return Err(Unspelled::Bad);
        }
        let levels = take_many::<LevelFormat>(alloc, cursor, count as usize)?;
        let ctx = context_of(alloc, levels.as_slice());
        drop(levels);
        Ok(ctx?)
    }

    #[tactic(auto, unfolding(crate::specs::Messages::context))]
    fn put(out: &mut Bytes, value: &Ctx) -> Result<(), AllocError> {
        put_count8(out, value.levels().len())?;
        put_many::<LevelFormat>(out, value.levels())
    }

    ghost is_format = { context_is };
}

/// The context of these levels.
fn context_of(alloc: Global, levels: &[Level]) -> Result<Ctx, AllocError>
    requires { length levels.now ≤ 16 }
    ensures { IfOk result (λ ctx. ctx ≡ levels.now) }
{
    let mut ctx = Ctx::world(alloc);
    for level in levels {
        ctx = ctx.child(alloc, *level)?;
    }
    Ok(ctx)
}

/// Messages of one rank to another.
pub struct MessageFormat;

impl Spelling for MessageFormat {
    type Value = Message;

    ghost format = { message };

    #[tactic(auto, unfolding(crate::specs::Messages::message))]
    fn take(alloc: Global, cursor: &mut Cursor<'_>) -> Result<Message, Unspelled> {
        let sender = RankId(take_u16(cursor)?);
        let ctx = Context::take(alloc, cursor)?;
        match take_sent(alloc, cursor) {
            Ok((member, (tag, body))) => Ok(Message {
                sender,
                ctx,
                member,
                tag,
                body,
            }),
            Err(error) => {
                drop(ctx);
                Err(error)
            }
        }
    }

    #[tactic(auto, unfolding(crate::specs::Messages::message))]
    fn put(out: &mut Bytes, value: &Message) -> Result<(), AllocError> {
        put_u16(out, value.sender.0)?;
        Context::put(out, &value.ctx)?;
        put_sent(out, value)
    }

    ghost is_format = { message_is };
}

/// Takes what stands behind a message's context.
#[tactic(auto, unfolding(crate::specs::Messages::sent))]
pub fn take_sent(alloc: Global, cursor: &mut Cursor<'_>) -> Result<(u16, (i32, Bytes)), Unspelled>
    ensures ok { IfOk result (λ x. sent.read cursor.old.rest.now ≡ Some (x, cursor.new.rest.now)) }
    ensures bad { IsErrOf result Bad → sent.read cursor.old.rest.now ≡ None }
{
    let member = take_u16(cursor)?;
    let tag = take_i32(cursor)?;
    let body = take_text(alloc, cursor)?;
    Ok((member, (tag, body)))
}

/// Appends what stands behind a message's context.
#[tactic(auto, unfolding(crate::specs::Messages::sent))]
pub fn put_sent(out: &mut Bytes, value: &Message) -> Result<(), AllocError>
    requires { sent.fits (sent_of value.now) ≡ true }
    ensures { OnOk result (out.new ≡ out.old ++ sent.spell (sent_of value.now)) }
{
    put_u16(out, value.member)?;
    put_i32(out, value.tag)?;
    put_text(out, value.body.as_slice())
}

/// Takes the number of a collective.
#[tactic(auto, unfolding(crate::specs::Messages::kind_of))]
fn take_kind(cursor: &mut Cursor<'_>) -> Result<Collective, Unspelled>
    ensures ok { IfOk result (λ x. kind_of.read cursor.old.rest.now ≡ Some (x, cursor.new.rest.now)) }
    ensures bad { IsErrOf result Bad → kind_of.read cursor.old.rest.now ≡ None }
{
    let number = take_u8(cursor)?;
    match collective_of(number) {
        Some(kind) => Ok(kind),
        None => Err(Unspelled::Bad),
    }
}

/// Appends the number of a collective.
#[tactic(auto, unfolding(crate::specs::Messages::kind_of))]
fn put_kind(out: &mut Bytes, kind: Collective) -> Result<(), AllocError>
    ensures { OnOk result (out.new ≡ out.old ++ kind_of.spell kind) }
{
    put_u8(out, kind.number())
}

/// Takes the first part of an argument.
#[tactic(auto, unfolding(crate::specs::Messages::argument_head))]
fn take_argument_head(
    cursor: &mut Cursor<'_>,
) -> Result<(u16, (Collective, (i32, (u8, u8)))), Unspelled>
    ensures ok { IfOk result (λ x. argument_head.read cursor.old.rest.now ≡ Some (x, cursor.new.rest.now)) }
    ensures bad { IsErrOf result Bad → argument_head.read cursor.old.rest.now ≡ None }
{
    let member = take_u16(cursor)?;
    let kind = take_kind(cursor)?;
    let root = take_i32(cursor)?;
    let operation = take_u8(cursor)?;
    let datatype = take_u8(cursor)?;
    Ok((member, (kind, (root, (operation, datatype)))))
}

/// Takes the rest of an argument.
#[tactic(auto, unfolding(crate::specs::Messages::argument_rest))]
fn take_argument_rest(
    alloc: Global,
    cursor: &mut Cursor<'_>,
) -> Result<(u32, (i32, (i32, Bytes))), Unspelled>
    ensures ok { IfOk result (λ x. argument_rest.read cursor.old.rest.now ≡ Some (x, cursor.new.rest.now)) }
    ensures bad { IsErrOf result Bad → argument_rest.read cursor.old.rest.now ≡ None }
{
    let count = take_u32(cursor)?;
    let colour = take_i32(cursor)?;
    let key = take_i32(cursor)?;
    let body = take_text(alloc, cursor)?;
    Ok((count, (colour, (key, body))))
}

/// Appends the first part of an argument.
#[tactic(auto, unfolding(crate::specs::Messages::argument_head))]
fn put_argument_head(out: &mut Bytes, value: &Arg) -> Result<(), AllocError>
    ensures { OnOk result (out.new ≡ out.old ++ argument_head.spell (head_of value.now)) }
{
    put_u16(out, value.member)?;
    put_kind(out, value.kind)?;
    put_i32(out, value.root)?;
    put_u8(out, value.operation)?;
    put_u8(out, value.datatype)
}

/// Appends the rest of an argument.
#[tactic(auto, unfolding(crate::specs::Messages::argument_rest))]
fn put_argument_rest(out: &mut Bytes, value: &Arg) -> Result<(), AllocError>
    requires { argument_rest.fits (rest_of value.now) ≡ true }
    ensures { OnOk result (out.new ≡ out.old ++ argument_rest.spell (rest_of value.now)) }
{
    put_u32(out, value.count)?;
    put_i32(out, value.colour)?;
    put_i32(out, value.key)?;
    put_text(out, value.body.as_slice())
}

/// What a member gives to a collective.
pub struct Argument;

impl Spelling for Argument {
    type Value = Arg;

    ghost format = { argument };

    #[tactic(auto, unfolding(crate::specs::Messages::argument))]
    fn take(alloc: Global, cursor: &mut Cursor<'_>) -> Result<Arg, Unspelled> {
        let (member, (kind, (root, (operation, datatype)))) = take_argument_head(cursor)?;
        let (count, (colour, (key, body))) = take_argument_rest(alloc, cursor)?;
        Ok(Arg {
            member,
            kind,
            root,
            operation,
            datatype,
            count,
            colour,
            key,
            body,
        })
    }

    #[tactic(auto, unfolding(crate::specs::Messages::argument))]
    fn put(out: &mut Bytes, value: &Arg) -> Result<(), AllocError> {
        put_argument_head(out, value)?;
        put_argument_rest(out, value)
    }

    ghost is_format = { argument_is };
}

/// Arguments behind how many they are.
pub struct Arguments;

impl Spelling for Arguments {
    type Value = ArgList;

    ghost format = { arguments };

    #[tactic(auto, unfolding(crate::specs::Messages::arguments))]
    fn take(alloc: Global, cursor: &mut Cursor<'_>) -> Result<ArgList, Unspelled> {
        let count = take_u16(cursor)?;
        let args = take_many::<Argument>(alloc, cursor, count as usize)?;
        Ok(Sequence::from_vec(args))
    }

    #[tactic(auto, unfolding(crate::specs::Messages::arguments))]
    fn put(out: &mut Bytes, value: &ArgList) -> Result<(), AllocError> {
        put_count16(out, value.len())?;
        put_many::<Argument>(out, value.as_slice())
    }

    ghost is_format = { arguments_is };
}

/// Takes the number of a direction.
#[tactic(auto, unfolding(crate::specs::Messages::direction))]
fn take_direction(cursor: &mut Cursor<'_>) -> Result<Direction, Unspelled>
    ensures ok { IfOk result (λ x. direction.read cursor.old.rest.now ≡ Some (x, cursor.new.rest.now)) }
    ensures bad { IsErrOf result Bad → direction.read cursor.old.rest.now ≡ None }
{
    let number = take_u8(cursor)?;
    match direction_of(number) {
        Some(direction) => Ok(direction),
        None => Err(Unspelled::Bad),
    }
}

/// Appends the number of a direction.
#[tactic(auto, unfolding(crate::specs::Messages::direction))]
fn put_direction(out: &mut Bytes, value: Direction) -> Result<(), AllocError>
    ensures { OnOk result (out.new ≡ out.old ++ direction.spell value) }
{
    put_u8(out, direction_number(value))
}

/// Messages of the tree of a collective's members.
pub struct TreeMessage;

impl Spelling for TreeMessage {
    type Value = TreeMsg;

    ghost format = { tree_message };

    #[tactic(auto, unfolding(crate::specs::Messages::tree_message))]
    fn take(alloc: Global, cursor: &mut Cursor<'_>) -> Result<TreeMsg, Unspelled> {
        let ctx = Context::take(alloc, cursor)?;
        match take_gift(alloc, cursor) {
            Ok((position, (direction, (member, args)))) => Ok(TreeMsg {
                ctx,
                position,
                direction,
                member,
                args,
            }),
            Err(error) => {
                drop(ctx);
                Err(error)
            }
        }
    }

    #[tactic(auto, unfolding(crate::specs::Messages::tree_message))]
    fn put(out: &mut Bytes, value: &TreeMsg) -> Result<(), AllocError> {
        Context::put(out, &value.ctx)?;
        put_gift(out, value)
    }

    ghost is_format = { tree_message_is };
}

/// Takes what stands behind the context of a message of the tree.
#[tactic(auto, unfolding(crate::specs::Messages::gift))]
fn take_gift(
    alloc: Global,
    cursor: &mut Cursor<'_>,
) -> Result<(u32, (Direction, (u16, ArgList))), Unspelled>
    ensures ok { IfOk result (λ x. gift.read cursor.old.rest.now ≡ Some (x, cursor.new.rest.now)) }
    ensures bad { IsErrOf result Bad → gift.read cursor.old.rest.now ≡ None }
{
    let position = take_u32(cursor)?;
    let direction = take_direction(cursor)?;
    let member = take_u16(cursor)?;
    let args = Arguments::take(alloc, cursor)?;
    Ok((position, (direction, (member, args))))
}

/// Appends what stands behind the context of a message of the tree.
#[tactic(auto, unfolding(crate::specs::Messages::gift))]
fn put_gift(out: &mut Bytes, value: &TreeMsg) -> Result<(), AllocError>
    requires { gift.fits (gift_of value.now) ≡ true }
    ensures { OnOk result (out.new ≡ out.old ++ gift.spell (gift_of value.now)) }
{
    put_u32(out, value.position)?;
    put_direction(out, value.direction)?;
    put_u16(out, value.member)?;
    Arguments::put(out, &value.args)
}
