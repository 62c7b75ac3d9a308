//! Readers and writers of what packets hold.

ghost use Rattle.std.specs.Prelude.{◌≡◌, ◌++◌, true, Some, None, IfOk, OnOk, IsErrOf};
ghost use Rattle.byte_formats.specs.declared.cursor.Unspelled.TheVariants.{Bad, Memory};
ghost use Rattle.byte_formats.specs.Formats.{both};
ghost use Rattle.rank_image.specs.Messages.{context, sent, sent_of};
ghost use Rattle.packet.specs.Packets.{data_packet, tree_packet, moved, update_packet, front};

use crate::packets::{DataPacket, TreePacket, UpdatePacket};
use am_base::{Bytes, ProcId, RankId};
use byte_formats::{
    Cursor, Spelling, Unspelled, put_u8, put_u16, put_u32, put_u64, take_u8, take_u16, take_u32,
    take_u64,
};
use mpi_types::{Ctx, Message};
use rank_image::{Context, TreeMessage, put_sent, take_sent};
use std::alloc::{AllocError, Global};

/// What a message has behind the numbers of its packet: its context, and the sender's member number, the tag and the body.
type Envelope = (Ctx, (u16, (i32, Bytes)));

/// Takes what a message has behind the numbers of its packet.
fn take_envelope(alloc: Global, cursor: &mut Cursor<'_>) -> Result<Envelope, Unspelled>
    ensures ok { IfOk result (λ x. (both context sent).read cursor.old.rest.now ≡ Some (x, cursor.new.rest.now)) }
    ensures bad { IsErrOf result Bad → (both context sent).read cursor.old.rest.now ≡ None }
{
    let ctx = Context::take(alloc, cursor)?;
    match take_sent(alloc, cursor) {
        Ok(rest) => Ok((ctx, rest)),
        Err(error) => {
            drop(ctx);
            Err(error)
        }
    }
}

/// Takes a message's packet.
#[tactic(auto, unfolding(crate::specs::Packets::data_packet))]
pub fn take_data(alloc: Global, cursor: &mut Cursor<'_>) -> Result<DataPacket, Unspelled>
    ensures ok { IfOk result (λ x. data_packet.read cursor.old.rest.now ≡ Some (x, cursor.new.rest.now)) }
    ensures bad { IsErrOf result Bad → data_packet.read cursor.old.rest.now ≡ None }
{
    let sender = RankId(take_u16(cursor)?);
    let to = RankId(take_u16(cursor)?);
    let floor = take_u32(cursor)?;
    let number = take_u64(cursor)?;
    let (ctx, (member, (tag, body))) = take_envelope(alloc, cursor)?;
    let message = Message {
        sender,
        ctx,
        member,
        tag,
        body,
    };
    Ok(DataPacket {
        to,
        floor,
        number,
        message,
    })
}

/// Appends what a message has behind the numbers of its packet.
fn put_envelope(out: &mut Bytes, value: &Message) -> Result<(), AllocError>
    requires { (both context sent).fits (value.now.ctx, sent_of value.now) ≡ true }
    ensures { OnOk result (out.new ≡ out.old ++ (both context sent).spell (value.now.ctx, sent_of value.now)) }
{
    Context::put(out, &value.ctx)?;
    put_sent(out, value)
}

/// Appends a message's packet.
#[tactic(auto, unfolding(crate::specs::Packets::data_packet))]
pub fn put_data(out: &mut Bytes, value: &DataPacket) -> Result<(), AllocError>
    requires { data_packet.fits value.now ≡ true }
    ensures { OnOk result (out.new ≡ out.old ++ data_packet.spell value.now) }
{
    put_u16(out, value.message.sender.0)?;
    put_u16(out, value.to.0)?;
    put_u32(out, value.floor)?;
    put_u64(out, value.number)?;
    put_envelope(out, &value.message)
}

/// Takes the packet of a message of a tree.
#[tactic(auto, unfolding(crate::specs::Packets::tree_packet))]
pub fn take_tree(alloc: Global, cursor: &mut Cursor<'_>) -> Result<TreePacket, Unspelled>
    ensures ok { IfOk result (λ x. tree_packet.read cursor.old.rest.now ≡ Some (x, cursor.new.rest.now)) }
    ensures bad { IsErrOf result Bad → tree_packet.read cursor.old.rest.now ≡ None }
{
    let from = RankId(take_u16(cursor)?);
    let to = RankId(take_u16(cursor)?);
    let floor = take_u32(cursor)?;
    let message = TreeMessage::take(alloc, cursor)?;
    Ok(TreePacket {
        from,
        to,
        floor,
        message,
    })
}

/// Appends the packet of a message of a tree.
#[tactic(auto, unfolding(crate::specs::Packets::tree_packet))]
pub fn put_tree(out: &mut Bytes, value: &TreePacket) -> Result<(), AllocError>
    requires { tree_packet.fits value.now ≡ true }
    ensures { OnOk result (out.new ≡ out.old ++ tree_packet.spell value.now) }
{
    put_u16(out, value.from.0)?;
    put_u16(out, value.to.0)?;
    put_u32(out, value.floor)?;
    TreeMessage::put(out, &value.message)
}

/// Takes the rank of an image, and how often it was sent off.
#[tactic(auto, unfolding(crate::specs::Packets::moved))]
pub fn take_moved(cursor: &mut Cursor<'_>) -> Result<(u16, u32), Unspelled>
    ensures ok { IfOk result (λ x. moved.read cursor.old.rest.now ≡ Some (x, cursor.new.rest.now)) }
    ensures bad { IsErrOf result Bad → moved.read cursor.old.rest.now ≡ None }
{
    let rank = take_u16(cursor)?;
    let count = take_u32(cursor)?;
    Ok((rank, count))
}

/// Appends the rank of an image, and how often it was sent off.
#[tactic(auto, unfolding(crate::specs::Packets::moved))]
pub fn put_moved(out: &mut Bytes, rank: RankId, count: u32) -> Result<(), AllocError>
    ensures { OnOk result (out.new ≡ out.old ++ moved.spell (rank.0, count)) }
{
    put_u16(out, rank.0)?;
    put_u32(out, count)
}

/// Takes where a rank is.
#[tactic(auto, unfolding(crate::specs::Packets::update_packet))]
pub fn take_update(cursor: &mut Cursor<'_>) -> Result<UpdatePacket, Unspelled>
    ensures ok { IfOk result (λ x. update_packet.read cursor.old.rest.now ≡ Some (x, cursor.new.rest.now)) }
    ensures bad { IsErrOf result Bad → update_packet.read cursor.old.rest.now ≡ None }
{
    let rank = RankId(take_u16(cursor)?);
    let count = take_u32(cursor)?;
    let place = ProcId(take_u8(cursor)?);
    Ok(UpdatePacket { rank, count, place })
}

/// Appends where a rank is.
#[tactic(auto, unfolding(crate::specs::Packets::update_packet))]
pub fn put_update(out: &mut Bytes, value: &UpdatePacket) -> Result<(), AllocError>
    ensures { OnOk result (out.new ≡ out.old ++ update_packet.spell value.now) }
{
    put_u16(out, value.rank.0)?;
    put_u32(out, value.count)?;
    put_u8(out, value.place.0)
}

/// Takes what a packet begins with.
#[tactic(auto, unfolding(crate::specs::Packets::front))]
pub fn take_front(cursor: &mut Cursor<'_>) -> Result<(u8, (u32, u8)), Unspelled>
    ensures ok { IfOk result (λ x. front.read cursor.old.rest.now ≡ Some (x, cursor.new.rest.now)) }
    ensures bad { IsErrOf result Bad → front.read cursor.old.rest.now ≡ None }
    ensures sure { IsErrOf result Memory → ⊥ }
{
    let kind = take_u8(cursor)?;
    let incarnation = take_u32(cursor)?;
    let origin = take_u8(cursor)?;
    Ok((kind, (incarnation, origin)))
}

/// Appends what a packet begins with.
#[tactic(auto, unfolding(crate::specs::Packets::front))]
pub fn put_front(
    out: &mut Bytes,
    kind: u8,
    incarnation: u32,
    origin: ProcId,
) -> Result<(), AllocError>
    ensures { OnOk result (out.new ≡ out.old ++ front.spell (kind, (incarnation, origin.0))) }
{
    put_u8(out, kind)?;
    put_u32(out, incarnation)?;
    put_u8(out, origin.0)
}
