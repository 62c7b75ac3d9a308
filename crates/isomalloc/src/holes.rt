//! The way to the first hole with room.
ghost use Rattle.std.specs.Prelude.{◌≡◌, ◌+◌, ◌*◌, ◌≤◌, ◌↔◌, IsTrue, MatchOption};
ghost use Rattle.rank_range.specs.Heap.{rounded};
ghost use Rattle.isomalloc.specs.Search.{IsAnyHeap, IsFirstHole, FitsNowhere};

use crate::nodes::{Entry, HOLE, NO_NODE, read_header, read_node};
use rank_range::{HEAP_START, Mem, STACK_START};

/// How many bytes a unit has.
pub const UNIT_BYTES: u32 = 16;

/// How many bytes the heap has.
pub const HEAP_BYTES: u64 = (STACK_START - HEAP_START) as u64;

/// The size in units, rounded up and at least one.
pub fn units_of(size: u64) -> u32
    requires { size ≤ HEAP_BYTES }
    ensures { 16 * result ≡ rounded size }
{
    if size == 0 {
        1
    } else {
        ((size + 15) / 16) as u32
    }
}

/// Whether the node is a hole of so many units at least.
fn has_room(entry: Entry, units: u32) -> bool
    ensures { IsTrue result ↔ (entry.kind ≡ 1) × (units ≤ entry.units) }
{
    entry.kind == HOLE && units <= entry.units
}

/// The first hole in which the size has room.
pub fn find_hole<M: Mem>(memory: &M, size: u64) -> Option<u16>
    requires sound { IsAnyHeap (M.bytes_of memory.now) }
    requires small { size ≤ HEAP_BYTES }
    ensures { MatchOption result (FitsNowhere (M.rank_of memory.now) (M.bytes_of memory.now) size) (IsFirstHole (M.rank_of memory.now) (M.bytes_of memory.now) size) }
{
    let units = units_of(size);
    let mut number = read_header(memory).first as u16;
    while number != NO_NODE {
        let entry = read_node(memory, number);
        if has_room(entry, units) {
            return Some(number);
        }
        number = entry.next;
    }
    None
}
