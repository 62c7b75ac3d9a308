//! Packets to bytes and back.

ghost use Rattle.std.specs.Prelude.{◌≡◌, ◌++◌, true, Some, None, MatchOption, IfOk, OnOk, IsErrOf};
ghost use Rattle.byte_formats.specs.declared.cursor.Unspelled.TheVariants.{Bad};
ghost use Rattle.packet.specs.declared.packets.Packet.{Packet};
ghost use Rattle.std.specs.Option.{option_map};
ghost use Rattle.byte_formats.specs.Formats.{then_read};
ghost use Rattle.packet.specs.declared.packets.Content.TheVariants.{Data, Tree, Update, Copy};
ghost use Rattle.rank_image.specs.Image.{ended};
ghost use Rattle.packet.specs.Packets.{data_packet, tree_packet, moved, update_packet, copies, image_behind, front_of, fits, kind_of, content_fits, content_bytes, content_of, spelled, packet_of, IsPacketOf, IsPacket};

use crate::copies::{put_copies, take_copies};
use crate::packets::{Content, ImagePacket, Packet};
use crate::parts::{
    put_data, put_front, put_moved, put_tree, put_update, take_data, take_front, take_moved,
    take_tree, take_update,
};
use am_base::{Bytes, ProcId, RankId};
use byte_formats::{Cursor, Unspelled};
use rank_image::ImageBytes;
use std::alloc::{AllocError, Global};
use std::marker::Model;

/// The bytes of a packet.
#[derive(Debug, Drop)]
pub struct PacketBytes {
    bytes: Bytes,
}

impl Model for PacketBytes {
    ghost use Rattle.std.specs.Prelude.{List, ℕ};
    ghost use Rattle.packet.specs.Packets.{IsPacket};

    ghost Value = { List ℕ };

    ghost view = { λ p. p.bytes };

    ghost invariant = { λ p. IsPacket p.bytes };
}

impl PacketBytes {
    /// The bytes, which are those of one packet.
    pub fn as_slice(&self) -> &[u8]
        ensures value { result.now ≡ self.now }
        ensures packet { IsPacket self.now }
    {
        self.bytes.as_slice()
    }

    /// The packet's kind: 1 a message, 2 a message of a tree, 3 an image, 4 an update, 5 copies. It takes no memory.
    pub fn kind(&self) -> u8
        ensures { (p : Packet) → IsPacketOf self.now p → result ≡ kind_of p.content }
    {
        let (kind, _) = self.front();
        kind
    }

    /// The incarnation in which the packet was sent. It takes no memory.
    pub fn incarnation(&self) -> u32
        ensures { (p : Packet) → IsPacketOf self.now p → result ≡ p.incarnation }
    {
        let (_, (incarnation, _)) = self.front();
        incarnation
    }

    /// What the packet begins with.
    fn front(&self) -> (u8, (u32, u8))
        ensures { (p : Packet) → IsPacketOf self.now p → result ≡ front_of p }
    {
        let mut cursor = Cursor {
            rest: self.as_slice(),
        };
        match take_front(&mut cursor) {
            Ok(front) => front,
            Err(Unspelled::Bad) => unreachable!(),
            Err(Unspelled::Memory) => unreachable!(),
        }
    }
}

/// The bytes of a packet that has some.
///
/// # Errors
///
/// Only want of memory.
pub fn encode(alloc: Global, p: &Packet) -> Result<PacketBytes, AllocError>
    requires { fits p.now ≡ true }
    ensures { IfOk result (λ b. IsPacketOf b p.now) }
{
    let mut out = Bytes::new(alloc);
    match put_packet(&mut out, p) {
        Ok(()) => Ok(PacketBytes { bytes: out }),
        Err(error) => {
            drop(out);
            Err(error)
        }
    }
}

/// The number of the kind of what a packet holds.
fn kind_of(content: &Content) -> u8
    ensures { result ≡ kind_of content.now }
{
    match content {
        Content::Data(_) => 1,
        Content::Tree(_) => 2,
        Content::Image(_) => 3,
        Content::Update(_) => 4,
        Content::Copy(_) => 5,
    }
}

/// Appends a packet's bytes.
#[tactic(auto, unfolding(crate::specs::Packets::fits, crate::specs::Packets::spelled))]
fn put_packet(out: &mut Bytes, p: &Packet) -> Result<(), AllocError>
    requires { fits p.now ≡ true }
    ensures { OnOk result (out.new ≡ out.old ++ spelled p.now) }
{
    put_front(out, kind_of(&p.content), p.incarnation, p.origin)?;
    put_content(out, &p.content)
}

/// Appends the bytes of what a packet holds.
#[tactic(auto, unfolding(crate::specs::Packets::content_fits, crate::specs::Packets::content_bytes))]
fn put_content(out: &mut Bytes, content: &Content) -> Result<(), AllocError>
    requires { content_fits content.now ≡ true }
    ensures { OnOk result (out.new ≡ out.old ++ content_bytes content.now) }
{
    match content {
        Content::Data(data) => put_data(out, data),
        Content::Tree(tree) => put_tree(out, tree),
        Content::Image(image) => {
            put_moved(out, image.rank, image.count)?;
            out.append(image.image.as_slice())
        }
        Content::Update(update) => put_update(out, update),
        Content::Copy(copies) => put_copies(out, copies),
    }
}

/// The packet of the bytes. There is none just where they aren't those of one.
///
/// # Errors
///
/// Only want of memory.
pub fn decode(alloc: Global, b: &[u8]) -> Result<Option<Packet>, AllocError>
    ensures { IfOk result (λ o. MatchOption o (IsPacket b.now → ⊥) (λ p. IsPacketOf b.now p)) }
{
    match take_packet(alloc, b) {
        Ok(packet) => Ok(Some(packet)),
        Err(Unspelled::Bad) => Ok(None),
        Err(Unspelled::Memory) => Err(AllocError),
    }
}

/// The packet of the bytes of one.
///
/// # Errors
///
/// Only want of memory.
pub fn decode_packet(alloc: Global, b: &PacketBytes) -> Result<Packet, AllocError>
    ensures { IfOk result (λ p. IsPacketOf b.now p) }
{
    match decode(alloc, b.as_slice()) {
        Ok(Some(packet)) => Ok(packet),
        Ok(None) => unreachable!(),
        Err(error) => Err(error),
    }
}

/// Takes a packet of all bytes.
#[tactic(auto, unfolding(crate::specs::Packets::packet_of))]
fn take_packet(alloc: Global, b: &[u8]) -> Result<Packet, Unspelled>
    ensures ok { IfOk result (λ p. packet_of b.now ≡ Some p) }
    ensures bad { IsErrOf result Bad → packet_of b.now ≡ None }
{
    let mut cursor = Cursor { rest: b };
    let (kind, (incarnation, origin)) = take_front(&mut cursor)?;
    let content = take_content(alloc, kind, cursor.rest)?;
    Ok(Packet {
        incarnation,
        origin: ProcId(origin),
        content,
    })
}

/// Takes what a packet of a kind holds, of all bytes.
#[tactic(auto, unfolding(crate::specs::Packets::content_of))]
fn take_content(alloc: Global, kind: u8, b: &[u8]) -> Result<Content, Unspelled>
    ensures ok { IfOk result (λ c. content_of kind b.now ≡ Some c) }
    ensures bad { IsErrOf result Bad → content_of kind b.now ≡ None }
{
    if kind == 1 {
        return take_whole_data(alloc, b);
    }
    if kind == 2 {
        return take_whole_tree(alloc, b);
    }
    if kind == 3 {
        return take_whole_image(alloc, b);
    }
    if kind == 4 {
        return take_whole_update(b);
    }
    if kind == 5 {
        return take_whole_copies(alloc, b);
    }
    Err(Unspelled::Bad)
}

/// Takes a message's packet of all bytes.
fn take_whole_data(alloc: Global, b: &[u8]) -> Result<Content, Unspelled>
    ensures ok { IfOk result (λ c. option_map Data (ended (data_packet.read b.now)) ≡ Some c) }
    ensures bad { IsErrOf result Bad → option_map Data (ended (data_packet.read b.now)) ≡ None }
{
    let mut cursor = Cursor { rest: b };
    let packet = take_data(alloc, &mut cursor)?;
    if cursor.rest.is_empty() {
        return Ok(Content::Data(packet));
    }
    drop(packet);
    Err(Unspelled::Bad)
}

/// Takes the packet of a message of a tree of all bytes.
fn take_whole_tree(alloc: Global, b: &[u8]) -> Result<Content, Unspelled>
    ensures ok { IfOk result (λ c. option_map Tree (ended (tree_packet.read b.now)) ≡ Some c) }
    ensures bad { IsErrOf result Bad → option_map Tree (ended (tree_packet.read b.now)) ≡ None }
{
    let mut cursor = Cursor { rest: b };
    let packet = take_tree(alloc, &mut cursor)?;
    if cursor.rest.is_empty() {
        return Ok(Content::Tree(packet));
    }
    drop(packet);
    Err(Unspelled::Bad)
}

/// Takes an image's packet of all bytes.
fn take_whole_image(alloc: Global, b: &[u8]) -> Result<Content, Unspelled>
    ensures ok { IfOk result (λ c. then_read (moved.read b.now) image_behind ≡ Some c) }
    ensures bad { IsErrOf result Bad → then_read (moved.read b.now) image_behind ≡ None }
{
    let mut cursor = Cursor { rest: b };
    let (rank, count) = take_moved(&mut cursor)?;
    let rest = cursor.rest;
    match ImageBytes::of(alloc, rest) {
        Ok(Some(image)) => Ok(Content::Image(ImagePacket {
            rank: RankId(rank),
            count,
            image,
        })),
        Ok(None) => Err(Unspelled::Bad),
        Err(_) => Err(Unspelled::Memory),
    }
}

/// Takes where a rank is of all bytes.
fn take_whole_update(b: &[u8]) -> Result<Content, Unspelled>
    ensures ok { IfOk result (λ c. option_map Update (ended (update_packet.read b.now)) ≡ Some c) }
    ensures bad { IsErrOf result Bad → option_map Update (ended (update_packet.read b.now)) ≡ None }
{
    let mut cursor = Cursor { rest: b };
    let packet = take_update(&mut cursor)?;
    if cursor.rest.is_empty() {
        return Ok(Content::Update(packet));
    }
    Err(Unspelled::Bad)
}

/// Takes copies of all bytes.
fn take_whole_copies(alloc: Global, b: &[u8]) -> Result<Content, Unspelled>
    ensures ok { IfOk result (λ c. option_map Copy (ended (copies.read b.now)) ≡ Some c) }
    ensures bad { IsErrOf result Bad → option_map Copy (ended (copies.read b.now)) ≡ None }
{
    let mut cursor = Cursor { rest: b };
    let images = take_copies(alloc, &mut cursor)?;
    if cursor.rest.is_empty() {
        return Ok(Content::Copy(images));
    }
    drop(images);
    Err(Unspelled::Bad)
}
