//! Packets that are decoded and encoded again, cut at each length, and changed.

use super::made::{put_memory, put_start, start_image};
use am_base::{Bytes, ProcId, put_u16, put_u32, put_u64};
use packet::{Content, Packet, decode, decode_packet, encode};
use std::alloc::{AllocError, Global};
use std::test::Fail;

/// How many bytes of two copies stand before the memory of the second: a front, the count, a length, an image, a length, and the number of a rank.
const SECOND: usize = 6 + 2 + 8 + 1_048_687 + 8 + 2;

fn is_none(alloc: Global, bytes: &[u8]) -> Result<bool, AllocError> {
    match decode(alloc, bytes)? {
        Some(packet) => {
            drop(packet);
            Ok(false)
        }
        None => Ok(true),
    }
}

/// Whether the bytes are those of a packet of that kind, in incarnation 7 and from processor 3.
fn is_exact(alloc: Global, bytes: &[u8], kind: u8) -> Result<bool, AllocError> {
    let Some(packet) = decode(alloc, bytes)? else {
        return Ok(false);
    };
    let encoded = encode(alloc, &packet);
    drop(packet);
    let encoded = encoded?;
    let again = decode_packet(alloc, &encoded)?;
    let is_again = again.incarnation == 7 && again.origin == ProcId(3) && is_meant(&again);
    drop(again);
    Ok(
        is_again
            && encoded.as_slice() == bytes
            && encoded.kind() == kind
            && encoded.incarnation() == 7,
    )
}

/// What a packet of a kind begins with: incarnation 7, from processor 3.
fn front(alloc: Global, kind: u8) -> Result<Bytes, AllocError> {
    Bytes::from_slice(alloc, &[kind, 7, 0, 0, 0, 3])
}

/// A message of rank 1 of 4 bytes in the world's context has 37 bytes.
pub fn data(alloc: Global, to: u16, floor: u32) -> Result<Bytes, AllocError> {
    let mut out = front(alloc, 1)?;
    put_u16(&mut out, 1)?;
    put_u16(&mut out, to)?;
    put_u32(&mut out, floor)?;
    put_u64(&mut out, 9)?;
    out.push(0)?;
    put_u16(&mut out, 1)?;
    put_u32(&mut out, 5)?;
    put_u32(&mut out, 4)?;
    out.append(&[1, 2, 3, 4])?;
    Ok(out)
}

/// A message of a tree from rank 1 to rank 0.
pub fn tree(alloc: Global) -> Result<Bytes, AllocError> {
    let mut out = front(alloc, 2)?;
    put_u16(&mut out, 1)?;
    put_u16(&mut out, 0)?;
    put_u32(&mut out, 2)?;
    out.append(&[1, 3, 0, 0, 0, 255, 255, 255, 255])?;
    put_u32(&mut out, 4)?;
    out.push(1)?;
    put_u16(&mut out, 1)?;
    put_u16(&mut out, 0)?;
    Ok(out)
}

/// Where a rank is has 13 bytes.
pub fn update(alloc: Global) -> Result<Bytes, AllocError> {
    let mut out = front(alloc, 4)?;
    out.append(&[1, 0, 6, 0, 0, 0, 2])?;
    Ok(out)
}

/// The image of a rank of two before its first tick: 1,048,699 bytes.
fn image(alloc: Global) -> Result<Bytes, AllocError> {
    let mut out = front(alloc, 3)?;
    out.append(&[1, 0, 6, 0, 0, 0])?;
    let start = start_image(alloc)?;
    out.append(start.as_slice())?;
    Ok(out)
}

/// Copies of ranks of two, before their first tick.
fn copies(alloc: Global, ranks: &[u16]) -> Result<Bytes, AllocError> {
    let mut out = front(alloc, 5)?;
    put_u16(&mut out, ranks.len().min(100) as u16)?;
    for rank in ranks {
        put_u64(&mut out, 1_048_687)?;
        put_u16(&mut out, *rank)?;
        put_memory(&mut out)?;
        put_start(&mut out)?;
    }
    Ok(out)
}

fn none_is_cut(alloc: Global, bytes: &[u8]) -> Result<bool, AllocError> {
    for n in 0..bytes.len() {
        if !is_none(alloc, &bytes[..n])? {
            return Ok(false);
        }
    }
    Ok(true)
}

fn is_none_with_more(alloc: Global, bytes: &[u8]) -> Result<bool, AllocError> {
    let mut longer = Bytes::from_slice(alloc, bytes)?;
    longer.push(0)?;
    is_none(alloc, longer.as_slice())
}

fn is_whole(alloc: Global, packet: &Bytes, kind: u8) -> Result<bool, AllocError> {
    let bytes = packet.as_slice();
    Ok(is_exact(alloc, bytes, kind)? && is_none_with_more(alloc, bytes)?)
}

/// Whether a packet holds what its bytes were made of.
fn is_meant(packet: &Packet) -> bool {
    match &packet.content {
        Content::Data(data) => {
            let message = &data.message;
            data.to.0 == 0
                && data.floor == 2
                && data.number == 9
                && message.sender.0 == 1
                && message.member == 1
                && message.tag == 5
                && message.body.as_slice() == [1, 2, 3, 4].as_slice()
        }
        Content::Tree(tree) => tree.from.0 == 1 && tree.to.0 == 0 && tree.floor == 2,
        Content::Image(image) => image.rank.0 == 1 && image.count == 6 && image.image.rank().0 == 1,
        Content::Update(update) => update.rank.0 == 1 && update.count == 6 && update.place.0 == 2,
        Content::Copy(copies) => copies.len() < 3,
    }
}

fn small_ones(alloc: Global) -> Result<bool, AllocError> {
    let data = data(alloc, 0, 2)?;
    let tree = tree(alloc)?;
    let update = update(alloc)?;
    Ok(
        data.len() == 37
            && update.len() == 13
            && is_whole(alloc, &data, 1)?
            && is_whole(alloc, &tree, 2)?
            && is_whole(alloc, &update, 4)?
            && none_is_cut(alloc, data.as_slice())?
            && none_is_cut(alloc, tree.as_slice())?
            && none_is_cut(alloc, update.as_slice())?,
    )
}

/// Copies of two ranks, cut at each length up to the number of the second image's rank, and at each of the last 140.
fn copies_are_not_cut(alloc: Global) -> Result<bool, AllocError> {
    let both = copies(alloc, &[0, 1])?;
    let bytes = both.as_slice();
    let Some((first, _)) = bytes.split_at_checked(SECOND) else {
        return Ok(false);
    };
    for n in bytes.len().saturating_sub(140)..bytes.len() {
        if !is_none(alloc, &bytes[..n])? {
            return Ok(false);
        }
    }
    none_is_cut(alloc, first)
}

/// The image of a rank, and copies of none, one and two, cut.
fn large_ones_cut(alloc: Global) -> Result<bool, AllocError> {
    let image = image(alloc)?;
    let none = copies(alloc, &[])?;
    let one = copies(alloc, &[1])?;
    Ok(
        is_whole(alloc, &none, 5)?
            && is_whole(alloc, &one, 5)?
            && none_is_cut(alloc, image.as_slice())?
            && none_is_cut(alloc, none.as_slice())?
            && none_is_cut(alloc, one.as_slice())?
            && copies_are_not_cut(alloc)?,
    )
}

fn large_ones(alloc: Global) -> Result<bool, AllocError> {
    let image = image(alloc)?;
    let both = copies(alloc, &[0, 1])?;
    let swapped = copies(alloc, &[1, 0])?;
    let same = copies(alloc, &[1, 1])?;
    let none = front(alloc, 6)?;
    Ok(
        image.len() == 1_048_699
            && is_whole(alloc, &image, 3)?
            && is_whole(alloc, &both, 5)?
            && is_none(alloc, swapped.as_slice())?
            && is_none(alloc, same.as_slice())?
            && is_none(alloc, none.as_slice())?
            && is_none(alloc, &[])?,
    )
}

#[test]
fn packets_are_decoded_one_way(rt: HostRuntime) -> Result<(), Fail> {
    let alloc = rt.alloc();
    assert!(rt; small_ones(alloc)? && large_ones(alloc)?);
    assert!(rt; large_ones_cut(alloc)?);
    Ok(())
}
