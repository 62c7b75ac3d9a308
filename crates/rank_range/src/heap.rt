//! The plain, slow first fit over a list of blocks, and laws on what a heap is.
ghost use Rattle.std.specs.Prelude.{◌≡◌, ◌↔◌, ◌+◌, ◌<◌, ◌≤◌, ◌^◌, IsTrue};
ghost use Rattle.std.specs.List.{All};
ghost use Rattle.rank_range.specs.Heap.{rounded, IsApart, Fits, IsFirstFit, IsOneFit, AreFirstFits};
ghost use Rattle.rank_range.specs.Nodes.{IsOneHeap, AreSpelled, BlocksStay};

use crate::{HEAP_START, STACK_START, base};
use am_base::RankId;

/// How many blocks of a rank may live at a time.
pub const MOST_BLOCKS: usize = 4000;

/// A block of a rank's heap: its address and its length in bytes.
#[derive(Clone, Copy, Debug, PartialEq, Eq)]
pub struct Block {
    pub address: u64,
    pub length: u64,
}

/// The least multiple of 16 in the rank's heap at which `size` bytes, rounded up to 16 and at least 16, lie in the heap
/// and meet none of the live `blocks`. It is 0 where there is none, or where 4,000 blocks live.
pub fn first_fit(rank: RankId, blocks: &[Block], size: u64) -> u64
    ensures { IsFirstFit rank.0 blocks.now size result }
{
    let room = (STACK_START - HEAP_START) as u64;
    if blocks.len() >= MOST_BLOCKS {
        return 0;
    }
    if size > room {
        return 0;
    }
    let length = rounded_size(size);
    let start = base(rank) + HEAP_START as u64;
    for unit in 0..(room - length) / 16 + 1 {
        if is_free(blocks, start + 16 * unit, length) {
            return start + 16 * unit;
        }
    }
    0
}

/// The size, rounded up to 16 and at least 16.
fn rounded_size(size: u64) -> u64
    requires { size ≤ 2 ^ 32 }
    ensures { result ≡ rounded size }
{
    if size == 0 { 16 } else { (size + 15) / 16 * 16 }
}

/// Whether the `length` bytes from the address `a` on meet none of the blocks.
fn is_free(blocks: &[Block], a: u64, length: u64) -> bool
    requires { a + length < 2 ^ 64 }
    ensures { IsTrue result ↔ All (IsApart a length) blocks.now }
{
    for block in blocks {
        if !is_apart(block, a, length) {
            return false;
        }
    }
    true
}

/// Whether the block doesn't meet the `length` bytes from the address `a` on.
fn is_apart(block: &Block, a: u64, length: u64) -> bool
    requires { a + length < 2 ^ 64 }
    ensures { IsTrue result ↔ IsApart a length block.now }
{
    (block.address <= a && block.length <= a - block.address) || a + length <= block.address
}

/// A law: a call of first fit has one answer.
pub fn first_fit_is_one()
    ensures { IsOneFit }
{}

/// A law: what definitions compute as the first fit is it.
pub fn computed_fit_is_first()
    ensures { AreFirstFits }
{}

/// Laws: a rank's bytes spell one list of live blocks at most, which is read along the links of the nodes, and no byte but
/// the header's page and the descriptors tells which blocks are read.
pub fn spelled_heap_is_one()
    ensures one { IsOneHeap }
    ensures read { AreSpelled }
    ensures stay { BlocksStay }
{}
