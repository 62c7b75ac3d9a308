//! The way to a live block.
ghost use Rattle.std.specs.Prelude.{MatchOption};
ghost use Rattle.isomalloc.specs.Search.{IsAnyHeap, IsBlockAt, IsDead};

use crate::holes::UNIT_BYTES;
use crate::nodes::{BLOCK, NO_NODE, read_header, read_node};
use rank_range::{HEAP_START, Mem, base};

/// The node of the live block at the address. A node names its neighbours alone, so the way there goes through all nodes
/// before it.
pub fn find_block<M: Mem>(memory: &M, address: u64) -> Option<u16>
    requires { IsAnyHeap (M.bytes_of memory.now) }
    ensures { MatchOption result (IsDead (M.rank_of memory.now) (M.bytes_of memory.now) address) (IsBlockAt (M.rank_of memory.now) (M.bytes_of memory.now) address) }
{
    let heap = base(memory.rank()) + HEAP_START as u64;
    let mut number = read_header(memory).first as u16;
    while number != NO_NODE {
        let entry = read_node(memory, number);
        let here = heap + (UNIT_BYTES * entry.start) as u64;
        if address < here {
            return None;
        }
        if address == here {
            return if entry.kind == BLOCK {
                Some(number)
            } else {
                None
            };
        }
        number = entry.next;
    }
    None
}
