//! The image of a rank is encoded as a packet.
ghost use Rattle.std.specs.Prelude.{◌≡◌, true};
ghost use Rattle.packet.specs.Packets.{fits};

use crate::failed::Failed;
use am_base::{Bytes, put_u16, put_u32, put_u64};
use packet::{Packet, decode, encode};
use std::alloc::{AllocError, Global};

/// How many bytes a rank's memory has, and where the nodes of its heap stand.
const MEMORY: usize = 1_048_576;

const NODES_AT: usize = 77_824;

/// How many bytes are encoded in so many turns of a packet: the image of a rank before its first tick, with a line of that many bytes that
/// isn't ended.
pub(crate) fn bytes_encoded(alloc: Global, size: u32, turns: u32) -> Result<u64, Failed> {
    let bytes = image_packet(alloc, size)?;
    let Some(packet) = decode(alloc, bytes.as_slice())? else {
        return Err(Failed::Refused);
    };
    let count = encoded(alloc, &packet, turns);
    drop(packet);
    Ok(count?)
}

fn encoded(alloc: Global, packet: &Packet, turns: u32) -> Result<u64, AllocError>
    requires { fits packet.now ≡ true }
{
    let mut count = 0u64;
    for _turn in 0..turns {
        let bytes = encode(alloc, packet)?;
        count = count.saturating_add(bytes.as_slice().len() as u64);
    }
    Ok(count)
}

/// The packet's bytes, from processor 3 in incarnation 7: rank 1 was sent off six times.
fn image_packet(alloc: Global, size: u32) -> Result<Bytes, AllocError> {
    let mut out = Bytes::from_slice(alloc, &[3, 7, 0, 0, 0, 3, 1, 0, 6, 0, 0, 0])?;
    put_u16(&mut out, 1)?;
    put_memory(&mut out)?;
    put_state(&mut out, size)?;
    Ok(out)
}

/// A memory whose heap is empty, with the record of one call whose frame has 32 bytes and which has 2 operands.
fn put_memory(out: &mut Bytes) -> Result<(), AllocError> {
    put_u32(out, 0)?;
    put_u32(out, 1)?;
    put_u32(out, 0)?;
    put_u32(out, 1)?;
    put_copies(out, 0, 4096 - 16)?;
    put_u64(out, 7)?;
    put_u64(out, 0xe0000)?;
    put_u64(out, 0xe0020)?;
    put_u64(out, 2)?;
    put_copies(out, 0, NODES_AT - 4096 - 32)?;
    for number in 0..8001 {
        put_node(out, number)?;
    }
    put_copies(out, 0, MEMORY - NODES_AT - 8001 * 16)
}

/// A node of a heap that is one hole: each unused one names the next.
fn put_node(out: &mut Bytes, number: u32) -> Result<(), AllocError> {
    let first = number == 0;
    put_u32(out, 0)?;
    put_u32(out, if first { 24_576 } else { 0 })?;
    put_u16(out, if first { 65_535 } else { 0 })?;
    let last = first || number >= 8000;
    put_u16(out, if last { 65_535 } else { number as u16 + 1 })?;
    put_u32(out, if first { 1 } else { 0 })
}

/// What stands behind the memory, of a run of two ranks.
fn put_state(out: &mut Bytes, size: u32) -> Result<(), AllocError> {
    put_copies(out, 0, 4 + 2 + 1 + 8 + 1 + 4)?;
    put_u32(out, size)?;
    put_copies(out, b'x', size as usize)?;
    put_copies(out, 0, 4 + 4 + 8 + 1)?;
    put_u32(out, 1)?;
    put_u32(out, 0)?;
    out.append(&[1, 0, 0, 0, 0, 0, 0, 2, 0, 0, 0, 1, 0])?;
    out.push(0)?;
    put_u16(out, 2)?;
    put_copies(out, 0, 32 + 4 + 4 + 4)
}

fn put_copies(out: &mut Bytes, byte: u8, count: usize) -> Result<(), AllocError> {
    for _ in 0..count {
        out.push(byte)?;
    }
    Ok(())
}
