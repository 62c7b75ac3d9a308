//! A rank's memory as its calls see it: which bytes are accessible, what they hold, and what is written there.

ghost use Rattle.std.specs.Prelude.{◌≡◌, ◌<◌, ◌≤◌, ◌∷◌, ◌++◌, [], IsTrue, IfOk, OnOk, OnErr, length};
ghost use Rattle.rank_range.specs.Areas.{areas_of};
ghost use Rattle.rank_range.specs.Layout.{range_bytes};
ghost use Rattle.mpi_rules.specs.Messages as messages;
ghost use Rattle.mpi_rules.specs.Places as places;
ghost use Rattle.mpi_call.specs.Written.{Leaves};

use am_base::Bytes;
use mpi_types::{Sequence, Status, Write};
use rank_range::{BadAddress, Mem, Width, access};
use std::alloc::{AllocError, Global};

#[tactic(auto, unfolding(mpi_rules::specs::Places::is_open))]
fn is_seen<M: Mem>(m: &M, a: u64, n: u64) -> bool
    ensures { result ≡ places.is_open (areas_of (M.rank_of m.now) (M.top_of m.now) (M.bytes_of m.now)) a n }
{
    access::view(m, a, n).is_ok()
}

/// Whether the bytes are all in one accessible area.
pub fn is_open<M: Mem>(m: &M, a: u64, n: u64) -> bool
    ensures value { result ≡ places.is_open (areas_of (M.rank_of m.now) (M.top_of m.now) (M.bytes_of m.now)) a n }
    ensures small { IsTrue result → n ≤ range_bytes }
{
    let _top = m.top();
    is_seen(m, a, n)
}

/// The bytes there; none where they aren't accessible.
#[tactic(auto, unfolding(mpi_rules::specs::Places::read_at))]
pub fn read<M: Mem>(alloc: Global, m: &M, a: u64, n: u64) -> Result<Bytes, AllocError>
    ensures { IfOk result (λ b. b ≡ places.read_at (areas_of (M.rank_of m.now) (M.top_of m.now) (M.bytes_of m.now)) a n) }
{
    match access::view(m, a, n) {
        Ok(bytes) => Bytes::from_slice(alloc, bytes),
        Err(BadAddress) => Ok(Bytes::new(alloc)),
    }
}

/// The number of four bytes there; 0 where they aren't accessible.
#[tactic(auto, unfolding(mpi_rules::specs::Places::variable_at))]
pub fn variable<M: Mem>(m: &M, a: u64) -> u32
    ensures { result ≡ places.variable_at (areas_of (M.rank_of m.now) (M.top_of m.now) (M.bytes_of m.now)) a }
{
    match access::load(m, a, Width::Four) {
        Ok(number) => number as u32,
        Err(BadAddress) => 0,
    }
}

/// A write of an int alone.
pub fn int_write(alloc: Global, address: u64, number: &i32) -> Result<Sequence<Write>, AllocError>
    ensures { IfOk result (λ writes. writes ≡ places.int_write address number.now ∷ []) }
{
    number_write(alloc, address, number.cast_unsigned())
}

/// A write of a number of four bytes alone.
pub fn number_write(alloc: Global, address: u64, number: u32) -> Result<Sequence<Write>, AllocError>
    ensures { IfOk result (λ writes. writes ≡ messages.request_write address number ∷ []) }
{
    let mut writes = Sequence::new(alloc);
    push_number(alloc, &mut writes, address, number)?;
    Ok(writes)
}

/// A write of a number of four bytes behind others.
pub fn push_number(
    alloc: Global,
    writes: &mut Sequence<Write>,
    address: u64,
    number: u32,
) -> Result<(), AllocError>
    ensures { OnOk result (writes.new ≡ writes.old ++ messages.request_write address number ∷ []) }
{
    let bytes = Bytes::from_slice(alloc, &number.to_le_bytes())?;
    writes.push(Write { address, bytes })
}

/// A write of an int behind others.
pub fn push_int(
    alloc: Global,
    writes: &mut Sequence<Write>,
    address: u64,
    number: &i32,
) -> Result<(), AllocError>
    ensures { OnOk result (writes.new ≡ writes.old ++ places.int_write address number.now ∷ []) }
{
    push_number(alloc, writes, address, number.cast_unsigned())
}

/// Bytes are written, where there are any.
pub fn push_bytes(
    writes: &mut Sequence<Write>,
    address: u64,
    bytes: Bytes,
) -> Result<(), AllocError>
    ensures { OnOk result (writes.new ≡ writes.old ++ places.write_of address bytes) }
{
    if bytes.is_empty() {
        return Ok(());
    }
    writes.push(Write { address, bytes })
}

/// A status is written where its address isn't that of `MPI_STATUS_IGNORE`.
pub fn push_status(
    alloc: Global,
    writes: &mut Sequence<Write>,
    address: u64,
    status: &Status,
) -> Result<(), AllocError>
    ensures { OnOk result (writes.new ≡ writes.old ++ places.status_writes address status.now) }
{
    if address == 0 {
        return Ok(());
    }
    let bytes = status_bytes(alloc, status)?;
    writes.push(Write { address, bytes })
}

fn status_bytes(alloc: Global, status: &Status) -> Result<Bytes, AllocError>
    ensures { IfOk result (λ bytes. bytes ≡ places.status_bytes status.now) }
{
    let mut bytes = Bytes::from_slice(alloc, &status.source.cast_unsigned().to_le_bytes())?;
    bytes.append(&status.tag.cast_unsigned().to_le_bytes())?;
    bytes.append(&0u32.to_le_bytes())?;
    bytes.append(&((status.bytes % 0x1_0000_0000) as u32).to_le_bytes())?;
    Ok(bytes)
}

/// Writes the bytes; where that may not be, nothing changes.
fn write_one<M: Mem>(m: &mut M, a: u64, bytes: &[u8])
    ensures areas { areas_of (M.rank_of m.new) (M.top_of m.new) (M.bytes_of m.new) ≡ places.written_one (areas_of (M.rank_of m.old) (M.top_of m.old) (M.bytes_of m.old)) a bytes.now }
    ensures leaves { Leaves (M.rank_of m.old) (M.rank_of m.new) (M.top_of m.old) (M.top_of m.new) (M.bytes_of m.old) (M.bytes_of m.new) (M.marks_of m.old) (M.marks_of m.new) }
{
    let _top = m.top();
    let _done = m.write(a, bytes);
}

/// Writes one after another; one that may not be changes nothing.
pub fn write_all<M: Mem>(m: &mut M, writes: &[Write])
    ensures areas { areas_of (M.rank_of m.new) (M.top_of m.new) (M.bytes_of m.new) ≡ places.written (areas_of (M.rank_of m.old) (M.top_of m.old) (M.bytes_of m.old)) writes.now }
    ensures leaves { Leaves (M.rank_of m.old) (M.rank_of m.new) (M.top_of m.old) (M.top_of m.new) (M.bytes_of m.old) (M.bytes_of m.new) (M.marks_of m.old) (M.marks_of m.new) }
{
    for write in writes {
        write_one(m, write.address, write.bytes.as_slice());
    }
}
