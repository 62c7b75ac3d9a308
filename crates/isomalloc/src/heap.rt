//! The calls of a rank's heap.
ghost use Rattle.std.specs.Prelude.{◌≡◌, ◌≢◌, ◌+◌, ◌-◌, ◌<◌, [], Some, None, OnOk, OnErr};
ghost use Rattle.rank_range.specs.Layout.{base_of};
ghost use Rattle.rank_range.specs.Parts.{Keeps};
ghost use Rattle.rank_range.specs.Heap.{IsFirstFit, IsLive, rounded, with_block, without};
ghost use Rattle.rank_range.specs.Nodes.{HasHeap, SpellsBlocks, blocks_of, node_count};
ghost use Rattle.rank_range.specs.Areas.{memory_of, take_block, give_block};
ghost use Rattle.rank_range.specs.declared.heap.Block.{Block};
ghost use Rattle.isomalloc.specs.Heap.{BytesStay, OthersStay, IsCleared, AreZero, OthersTellNothing};
ghost use Rattle.isomalloc.specs.Entries.{fresh_entry};

use crate::edits::{occupy, vacate};
use crate::holes::{HEAP_BYTES, UNIT_BYTES, find_hole, units_of};
use crate::live::find_block;
use crate::nodes::{
    Entry, HOLE, Header, NO_NODE, NODE_COUNT, UNUSED, read_header, read_node, write_header,
    write_node,
};
use crate::zero::clear;
use rank_range::{
    CONTROL_START, DESCRIPTORS_START, GLOBALS_START, HEAP_START, MOST_BLOCKS, Mem, base,
};
use thiserror::Error;

/// The address is not that of a live block.
#[derive(Clone, Copy, Debug, PartialEq, Eq, Error)]
#[error("bad free")]
pub struct BadFree;

/// Takes a block: the least multiple of 16 in the rank's heap at which `size` bytes, rounded up to 16 and at least 16,
/// meet no live block. The block is zero. It is 0 just where there is no such place or 4,000 blocks live, and then
/// nothing changes.
pub fn take<M: Mem>(memory: &mut M, size: u64) -> u64
    requires { HasHeap (M.rank_of memory.old) (M.bytes_of memory.old) }
    ensures heap { HasHeap (M.rank_of memory.new) (M.bytes_of memory.new) }
    ensures taken { take_block size (memory_of (M.rank_of memory.old) (M.top_of memory.old) (M.bytes_of memory.old)) ≡ (result, memory_of (M.rank_of memory.old) (M.top_of memory.old) (M.bytes_of memory.new)) }
    ensures none { result ≡ 0 → M.bytes_of memory.new ≡ M.bytes_of memory.old }
    ensures none_marks { result ≡ 0 → M.marks_of memory.new ≡ M.marks_of memory.old }
    ensures stays { BytesStay (M.bytes_of memory.old) (M.bytes_of memory.new) (result - base_of (M.rank_of memory.old)) (result - base_of (M.rank_of memory.old) + rounded size) }
    ensures kept { Keeps (M.rank_of memory.old) (M.rank_of memory.new) (M.top_of memory.old) (M.top_of memory.new) (M.bytes_of memory.old) (M.bytes_of memory.new) (M.marks_of memory.old) (M.marks_of memory.new) }
{
    let _top = memory.top();
    take_by_nodes(memory, size)
}

/// Gives the block at the address back. It is refused just where no live block has that address, and then nothing
/// changes.
pub fn give<M: Mem>(memory: &mut M, address: u64) -> Result<(), BadFree>
    requires { HasHeap (M.rank_of memory.old) (M.bytes_of memory.old) }
    ensures heap { HasHeap (M.rank_of memory.new) (M.bytes_of memory.new) }
    ensures given { OnOk result (give_block address (memory_of (M.rank_of memory.old) (M.top_of memory.old) (M.bytes_of memory.old)) ≡ Some (memory_of (M.rank_of memory.old) (M.top_of memory.old) (M.bytes_of memory.new))) }
    ensures refused { OnErr result (give_block address (memory_of (M.rank_of memory.old) (M.top_of memory.old) (M.bytes_of memory.old)) ≡ None) }
    ensures same_bytes { OnErr result (M.bytes_of memory.new ≡ M.bytes_of memory.old) }
    ensures same_marks { OnErr result (M.marks_of memory.new ≡ M.marks_of memory.old) }
    ensures stays { BytesStay (M.bytes_of memory.old) (M.bytes_of memory.new) 0 0 }
    ensures kept { Keeps (M.rank_of memory.old) (M.rank_of memory.new) (M.top_of memory.old) (M.top_of memory.new) (M.bytes_of memory.old) (M.bytes_of memory.new) (M.marks_of memory.old) (M.marks_of memory.new) }
{
    let _top = memory.top();
    give_by_nodes(memory, address)
}

/// Makes a heap of any memory: one hole, and no live block. What stood in the header's page and in the descriptors is gone.
pub fn setup<M: Mem>(memory: &mut M)
    ensures heap { HasHeap (M.rank_of memory.new) (M.bytes_of memory.new) }
    ensures none { blocks_of (M.rank_of memory.new) (M.bytes_of memory.new) ≡ [] }
    ensures stays { OthersStay (M.bytes_of memory.old) (M.bytes_of memory.new) }
    ensures kept { Keeps (M.rank_of memory.old) (M.rank_of memory.new) (M.top_of memory.old) (M.top_of memory.new) (M.bytes_of memory.old) (M.bytes_of memory.new) (M.marks_of memory.old) (M.marks_of memory.new) }
{
    let _top = memory.top();
    clear(memory, 0, CONTROL_START / UNIT_BYTES);
    clear(
        memory,
        DESCRIPTORS_START,
        (GLOBALS_START - DESCRIPTORS_START) / UNIT_BYTES,
    );
    write_fresh(memory);
}

/// As `take`, by the nodes.
fn take_by_nodes<M: Mem>(memory: &mut M, size: u64) -> u64
    requires { HasHeap (M.rank_of memory.old) (M.bytes_of memory.old) }
    ensures fit { IsFirstFit (M.rank_of memory.old) (blocks_of (M.rank_of memory.old) (M.bytes_of memory.old)) size result }
    ensures none { result ≡ 0 → M.bytes_of memory.new ≡ M.bytes_of memory.old }
    ensures none_marks { result ≡ 0 → M.marks_of memory.new ≡ M.marks_of memory.old }
    ensures taken { result ≢ 0 → SpellsBlocks (M.rank_of memory.old) (M.bytes_of memory.new) (with_block (record { address = result; length = rounded size }) (blocks_of (M.rank_of memory.old) (M.bytes_of memory.old))) }
    ensures zero { result ≢ 0 → AreZero (M.bytes_of memory.new) (result - base_of (M.rank_of memory.old)) (rounded size) }
    ensures stays { BytesStay (M.bytes_of memory.old) (M.bytes_of memory.new) (result - base_of (M.rank_of memory.old)) (result - base_of (M.rank_of memory.old) + rounded size) }
    ensures kept { Keeps (M.rank_of memory.old) (M.rank_of memory.new) (M.top_of memory.old) (M.top_of memory.new) (M.bytes_of memory.old) (M.bytes_of memory.new) (M.marks_of memory.old) (M.marks_of memory.new) }
{
    let base = base(memory.rank());
    let live = read_header(memory).blocks;
    if live >= MOST_BLOCKS as u32 {
        return 0;
    }
    if size > HEAP_BYTES {
        return 0;
    }
    let Some(number) = find_hole(memory, size) else {
        return 0;
    };
    let units = units_of(size);
    let offset = HEAP_START + UNIT_BYTES * read_node(memory, number).start;
    occupy(memory, number, units);
    clear(memory, offset, units);
    base + offset as u64
}

/// As `give`, by the nodes.
fn give_by_nodes<M: Mem>(memory: &mut M, address: u64) -> Result<(), BadFree>
    requires { HasHeap (M.rank_of memory.old) (M.bytes_of memory.old) }
    ensures live { OnOk result (IsLive address (blocks_of (M.rank_of memory.old) (M.bytes_of memory.old))) }
    ensures given { OnOk result (SpellsBlocks (M.rank_of memory.old) (M.bytes_of memory.new) (without address (blocks_of (M.rank_of memory.old) (M.bytes_of memory.old)))) }
    ensures refused { OnErr result (IsLive address (blocks_of (M.rank_of memory.old) (M.bytes_of memory.old)) → ⊥) }
    ensures same_bytes { OnErr result (M.bytes_of memory.new ≡ M.bytes_of memory.old) }
    ensures same_marks { OnErr result (M.marks_of memory.new ≡ M.marks_of memory.old) }
    ensures stays { BytesStay (M.bytes_of memory.old) (M.bytes_of memory.new) 0 0 }
    ensures kept { Keeps (M.rank_of memory.old) (M.rank_of memory.new) (M.top_of memory.old) (M.top_of memory.new) (M.bytes_of memory.old) (M.bytes_of memory.new) (M.marks_of memory.old) (M.marks_of memory.new) }
{
    let _rank = memory.rank();
    let Some(number) = find_block(memory, address) else {
        return Err(BadFree);
    };
    vacate(memory, number);
    Ok(())
}

/// Writes the nodes and the header of a heap with no live block, where zeros stand.
fn write_fresh<M: Mem>(memory: &mut M)
    requires { IsCleared (M.bytes_of memory.old) }
    ensures spelled { SpellsBlocks (M.rank_of memory.old) (M.bytes_of memory.new) [] }
    ensures stays { BytesStay (M.bytes_of memory.old) (M.bytes_of memory.new) 0 0 }
    ensures kept { Keeps (M.rank_of memory.old) (M.rank_of memory.new) (M.top_of memory.old) (M.top_of memory.new) (M.bytes_of memory.old) (M.bytes_of memory.new) (M.marks_of memory.old) (M.marks_of memory.new) }
{
    for number in 1..NODE_COUNT {
        write_node(memory, number, unused_before(number));
    }
    let whole = Entry {
        start: 0,
        units: HEAP_BYTES as u32 / UNIT_BYTES,
        previous: NO_NODE,
        next: NO_NODE,
        kind: HOLE,
    };
    write_node(memory, 0, whole);
    let header = Header {
        first: 0,
        unused: 1,
        blocks: 0,
        holes: 1,
    };
    write_header(memory, header);
}

/// The node `number` before any block was taken: unused, as each node but the first.
fn unused_before(number: u16) -> Entry
    requires { number < node_count }
    ensures { result ≡ fresh_entry number }
{
    let next = if number + 1 < NODE_COUNT {
        number + 1
    } else {
        NO_NODE
    };
    Entry {
        start: 0,
        units: 0,
        previous: 0,
        next,
        kind: UNUSED,
    }
}

/// A law: the live blocks are told by the header and the descriptors alone, so other bytes may be stored at will.
pub fn other_bytes_tell_nothing()
    ensures { OthersTellNothing }
{}
