//! Images that are made by hand, part by part.

use am_base::{Bytes, put_u16, put_u32, put_u64};
use std::alloc::{AllocError, Global};

/// How many bytes stand before the bytes of the memory.
pub const FRONT: usize = 2;

/// How many bytes a memory has, and where its descriptors stand.
const MEMORY: usize = 1_048_576;

const NODES_AT: usize = 77_824;

/// The nodes of a heap that is one hole: each unused one names the next.
fn put_node(out: &mut Bytes, number: u32) -> Result<(), AllocError> {
    let first = number == 0;
    put_u32(out, 0)?;
    put_u32(out, if first { 24_576 } else { 0 })?;
    put_u16(out, if first { 65_535 } else { 0 })?;
    let last = first || number >= 8000;
    put_u16(out, if last { 65_535 } else { number as u16 + 1 })?;
    put_u32(out, if first { 1 } else { 0 })
}

fn put_zeros(out: &mut Bytes, count: usize) -> Result<(), AllocError> {
    for _ in 0..count {
        out.push(0)?;
    }
    Ok(())
}

/// A memory with an empty heap, and the record of one call whose frame has 32 bytes and which has 2 operands.
pub fn put_memory(out: &mut Bytes) -> Result<(), AllocError> {
    put_u32(out, 0)?;
    put_u32(out, 1)?;
    put_u32(out, 0)?;
    put_u32(out, 1)?;
    put_zeros(out, 4096 - 16)?;
    put_u64(out, 7)?;
    put_u64(out, 0xe0000)?;
    put_u64(out, 0xe0020)?;
    put_u64(out, 2)?;
    put_zeros(out, NODES_AT - 4096 - 32)?;
    for number in 0..8001 {
        put_node(out, number)?;
    }
    put_zeros(out, MEMORY - NODES_AT - 8001 * 16)
}

/// What stands behind the memory of a rank before its first tick, of a run of two ranks.
pub fn put_start(out: &mut Bytes) -> Result<(), AllocError> {
    put_zeros(out, 4 + 2 + 1 + 8 + 1 + 4 + 4 + 4 + 4 + 8 + 1)?;
    put_u32(out, 1)?;
    put_u32(out, 0)?;
    out.append(&[1, 0, 0, 0, 0, 0, 0, 2, 0, 0, 0, 1, 0])?;
    out.push(0)?;
    put_u16(out, 2)?;
    put_zeros(out, 32 + 4 + 4 + 4)
}

/// A message of a rank in the context of one level, with a body of two bytes.
fn put_message(out: &mut Bytes, sender: u16) -> Result<(), AllocError> {
    put_u16(out, sender)?;
    out.append(&[1, 3, 0, 0, 0, 255, 255, 255, 255])?;
    put_u16(out, 1)?;
    put_u32(out, 9)?;
    put_u32(out, 2)?;
    out.append(b"hi")
}

/// The part of a request that a receive has.
fn put_receive(out: &mut Bytes) -> Result<(), AllocError> {
    put_u64(out, 0x1_0008_0000)?;
    put_u32(out, 16)?;
    out.push(0)?;
    put_u32(out, 0xffff_ffff)?;
    put_u32(out, 5)
}

/// An argument of a member in a collective of this kind.
fn put_argument(out: &mut Bytes, member: u16, kind: u8) -> Result<(), AllocError> {
    put_u16(out, member)?;
    out.append(&[kind, 0, 0, 0, 0, 1, 7])?;
    put_u32(out, 1)?;
    put_u32(out, 0)?;
    put_u32(out, 0)?;
    put_u32(out, 3)?;
    out.append(b"abc")
}

/// Registers of one call, an ending by a trap, ticks, phase, two held lines, and a load of two intervals.
fn put_head(out: &mut Bytes) -> Result<(), AllocError> {
    put_u32(out, 12)?;
    put_u16(out, 1)?;
    out.append(&[2, 3, 0])?;
    put_u32(out, 8)?;
    put_u64(out, 100)?;
    out.push(1)?;
    put_u32(out, 20)?;
    put_u32(out, 1)?;
    out.push(b'x')?;
    put_u32(out, 6)?;
    put_u32(out, 2)?;
    put_u32(out, 4)?;
    put_u32(out, 1)?;
    out.push(b'a')?;
    put_u32(out, 5)?;
    put_u32(out, 0)?;
    put_u64(out, 50)?;
    out.push(2)?;
    put_u64(out, 20)?;
    put_u64(out, 30)
}

/// Requests of all four kinds, two communicators and a gathered collective.
fn put_middle(out: &mut Bytes) -> Result<(), AllocError> {
    put_u32(out, 9)?;
    put_u32(out, 4)?;
    put_u32(out, 2)?;
    out.push(0)?;
    put_u32(out, 3)?;
    out.push(1)?;
    put_receive(out)?;
    put_u32(out, 5)?;
    out.push(2)?;
    put_receive(out)?;
    put_message(out, 1)?;
    put_u32(out, 8)?;
    out.push(3)?;
    out.append(&[2, 0, 0, 4, 0, 0, 0, 2, 0, 0, 0, 1, 0])?;
    out.append(&[1, 1, 3, 0, 0, 0, 0, 0, 0, 0, 0, 0, 0, 0, 1, 0, 1, 0])?;
    out.append(&[2, 0])?;
    put_u32(out, 3)?;
    put_argument(out, 0, 4)?;
    put_u16(out, 2)?;
    put_argument(out, 0, 4)?;
    put_argument(out, 1, 4)
}

/// The numbers of two pairs, and two messages each that came early, that have arrived, and that belong to trees.
fn put_tail(out: &mut Bytes) -> Result<(), AllocError> {
    put_u16(out, 2)?;
    put_u64(out, 3)?;
    put_u64(out, 4)?;
    put_u64(out, 1)?;
    put_u64(out, 2)?;
    put_u32(out, 2)?;
    put_u64(out, 5)?;
    put_message(out, 0)?;
    put_u64(out, 4)?;
    put_message(out, 1)?;
    put_u32(out, 2)?;
    put_message(out, 1)?;
    put_message(out, 0)?;
    put_u32(out, 2)?;
    for direction in 0..2 {
        out.push(0)?;
        put_u32(out, 4)?;
        out.push(direction)?;
        put_u16(out, 1)?;
        put_u16(out, 1)?;
        put_argument(out, 1, 1)?;
    }
    Ok(())
}

/// The image of rank 1 of a run of two ranks, before its first tick.
pub fn start_image(alloc: Global) -> Result<Bytes, AllocError> {
    let mut out = Bytes::new(alloc);
    put_u16(&mut out, 1)?;
    put_memory(&mut out)?;
    put_start(&mut out)?;
    Ok(out)
}

/// What stands behind the memory of a rank that has something of each kind.
pub fn full_rest(alloc: Global) -> Result<Bytes, AllocError> {
    let mut out = Bytes::new(alloc);
    put_head(&mut out)?;
    put_middle(&mut out)?;
    put_tail(&mut out)?;
    Ok(out)
}

/// The image of rank 1 with these bytes behind its memory.
pub fn image_with(alloc: Global, rest: &[u8]) -> Result<Bytes, AllocError> {
    let mut out = Bytes::new(alloc);
    put_u16(&mut out, 1)?;
    put_memory(&mut out)?;
    out.append(rest)?;
    Ok(out)
}
