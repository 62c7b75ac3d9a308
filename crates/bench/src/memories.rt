//! Blocks of a rank's memory are copied, filled, written and viewed.
use crate::failed::Failed;
use am_base::RankId;
use rank_range::{BadAddress, FlatMem, HEAP_START, Mem, STACK_START, base};
use std::alloc::Global;

/// What is done with a block, which stands at the heap's start.
#[derive(Clone, Copy)]
pub enum Bulk {
    /// It is copied to the heap's end.
    Copy,
    /// One byte is put into all its places.
    Fill,
    /// Bytes of the host are put there.
    Write,
    /// It is viewed, and its bytes are summed.
    View,
}

impl Bulk {
    pub(crate) fn of(kind: &str) -> Option<Bulk> {
        match kind {
            "copy" => Some(Bulk::Copy),
            "fill" => Some(Bulk::Fill),
            "write" => Some(Bulk::Write),
            "view" => Some(Bulk::View),
            _ => None,
        }
    }
}

/// How many bytes are copied, filled, written or viewed in so many turns, for a block of that size, which the heap must have room for.
/// Each byte of the block is 1, and of a view the sum is counted.
pub(crate) fn bytes_moved(alloc: Global, bulk: Bulk, size: u32, turns: u32) -> Result<u64, Failed> {
    let mut memory: FlatMem = FlatMem::fresh(alloc, RankId(0))?;
    let block = vec![in alloc; 1u8; size as usize]?;
    match repeated(&mut memory, bulk, &block, turns) {
        Ok(count) => Ok(count),
        Err(BadAddress) => Err(Failed::Refused),
    }
}

fn repeated<M: Mem>(
    memory: &mut M,
    bulk: Bulk,
    block: &[u8],
    turns: u32,
) -> Result<u64, BadAddress> {
    let (start, _end) = heap(memory);
    memory.write(start, block)?;
    let mut count = 0u64;
    for _turn in 0..turns {
        count = count.saturating_add(moved(memory, bulk, block)?);
    }
    Ok(count)
}

fn moved<M: Mem>(memory: &mut M, bulk: Bulk, block: &[u8]) -> Result<u64, BadAddress> {
    let (start, end) = heap(memory);
    let size = block.len() as u64;
    match bulk {
        Bulk::Copy => memory.copy(end.saturating_sub(size), start, size)?,
        Bulk::Fill => memory.fill(start, size, 1)?,
        Bulk::Write => memory.write(start, block)?,
        Bulk::View => return summed(memory, start, size),
    }
    Ok(size)
}

fn summed<M: Mem>(memory: &M, start: u64, size: u64) -> Result<u64, BadAddress> {
    match memory.view(start, size) {
        Ok(bytes) => Ok(sum(bytes)),
        Err(bad) => Err(bad),
    }
}

fn sum(bytes: &[u8]) -> u64 {
    let mut sum = 0u64;
    for byte in bytes {
        sum = sum.wrapping_add(u64::from(*byte));
    }
    sum
}

/// The addresses at which the rank's heap starts and ends.
pub(crate) fn heap<M: Mem>(memory: &M) -> (u64, u64) {
    let base = base(memory.rank());
    (base + HEAP_START as u64, base + STACK_START as u64)
}
