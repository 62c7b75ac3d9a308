//! What becomes of nodes when a block is taken or given back.
ghost use Rattle.std.specs.Prelude.{◌≡◌, ◌+◌, ◌-◌, ◌*◌, ◌<◌, ◌≤◌, ◌↔◌, IsTrue, length};
ghost use Rattle.rank_range.specs.Layout.{range_bytes, descriptors_start, globals_start};
ghost use Rattle.rank_range.specs.Heap.{most_blocks};
ghost use Rattle.rank_range.specs.Nodes.{node_at, node_count, first_node, first_unused, live_blocks, hole_count, heap_units, IsHole, IsBlock};
ghost use Rattle.isomalloc.specs.Heap.{BytesStay};
ghost use Rattle.rank_range.specs.Parts.{Keeps};
ghost use Rattle.isomalloc.specs.Entries.{MayBeNode, header_of, with_node, with_kind, split_nodes, joined_nodes, NodesAre};
ghost use Rattle.isomalloc.specs.Search.{IsUsed, Occupies, Vacates};

use crate::nodes::{
    BLOCK, Entry, HOLE, Header, NO_NODE, UNUSED, read_header, read_node, set_kind, set_previous,
    write_header, write_node,
};
use rank_range::Mem;

/// Makes a live block of the first units of a hole.
pub fn occupy<M: Mem>(memory: &mut M, number: u16, units: u32)
    requires used { IsUsed (M.bytes_of memory.old) number }
    requires hole { IsHole (M.bytes_of memory.old) number }
    requires some { 1 ≤ units }
    requires room { units ≤ (node_at (M.bytes_of memory.old) number).units }
    requires few { live_blocks (M.bytes_of memory.old) < most_blocks }
    requires whole { length (M.bytes_of memory.old) ≡ range_bytes }
    ensures blocks { Occupies (M.bytes_of memory.old) (M.bytes_of memory.new) (node_at (M.bytes_of memory.old) number).start units }
    ensures stays { BytesStay (M.bytes_of memory.old) (M.bytes_of memory.new) 0 0 }
    ensures kept { Keeps (M.rank_of memory.old) (M.rank_of memory.new) (M.top_of memory.old) (M.top_of memory.new) (M.bytes_of memory.old) (M.bytes_of memory.new) (M.marks_of memory.old) (M.marks_of memory.new) }
{
    let entry = read_node(memory, number);
    if units == entry.units {
        fill(memory, number);
    } else {
        split(memory, number, units);
    }
}

/// Makes a live block of a whole hole.
fn fill<M: Mem>(memory: &mut M, number: u16)
    requires below { number < node_count }
    requires few { live_blocks (M.bytes_of memory.old) < most_blocks }
    requires some { 1 ≤ hole_count (M.bytes_of memory.old) }
    requires whole { length (M.bytes_of memory.old) ≡ range_bytes }
    ensures nodes { NodesAre (M.bytes_of memory.new) (with_node number (with_kind 2 (node_at (M.bytes_of memory.old) number)) (node_at (M.bytes_of memory.old))) }
    ensures header { header_of (M.bytes_of memory.new) ≡ record { first = first_node (M.bytes_of memory.old); unused = first_unused (M.bytes_of memory.old); blocks = live_blocks (M.bytes_of memory.old) + 1; holes = hole_count (M.bytes_of memory.old) - 1 } }
    ensures stays { BytesStay (M.bytes_of memory.old) (M.bytes_of memory.new) 0 0 }
    ensures kept { Keeps (M.rank_of memory.old) (M.rank_of memory.new) (M.top_of memory.old) (M.top_of memory.new) (M.bytes_of memory.old) (M.bytes_of memory.new) (M.marks_of memory.old) (M.marks_of memory.new) }
{
    let header = read_header(memory);
    set_kind(memory, number, BLOCK);
    write_header(
        memory,
        Header {
            blocks: header.blocks + 1,
            holes: header.holes - 1,
            ..header
        },
    );
}

/// Makes a live block of the first units of a hole, and a hole of the rest of it.
fn split<M: Mem>(memory: &mut M, number: u16, units: u32)
    requires below { number < node_count }
    requires known { MayBeNode (node_at (M.bytes_of memory.old) number).next }
    requires spare { first_unused (M.bytes_of memory.old) < node_count }
    requires room { units < (node_at (M.bytes_of memory.old) number).units }
    requires inside { (node_at (M.bytes_of memory.old) number).start + (node_at (M.bytes_of memory.old) number).units ≤ heap_units }
    requires few { live_blocks (M.bytes_of memory.old) < most_blocks }
    requires whole { length (M.bytes_of memory.old) ≡ range_bytes }
    ensures nodes { NodesAre (M.bytes_of memory.new) (split_nodes number units (first_unused (M.bytes_of memory.old)) (node_at (M.bytes_of memory.old))) }
    ensures header { header_of (M.bytes_of memory.new) ≡ record { first = first_node (M.bytes_of memory.old); unused = (node_at (M.bytes_of memory.old) (first_unused (M.bytes_of memory.old))).next; blocks = live_blocks (M.bytes_of memory.old) + 1; holes = hole_count (M.bytes_of memory.old) } }
    ensures stays { BytesStay (M.bytes_of memory.old) (M.bytes_of memory.new) 0 0 }
    ensures kept { Keeps (M.rank_of memory.old) (M.rank_of memory.new) (M.top_of memory.old) (M.top_of memory.new) (M.bytes_of memory.old) (M.bytes_of memory.new) (M.marks_of memory.old) (M.marks_of memory.new) }
{
    let header = read_header(memory);
    let hole = read_node(memory, number);
    let spare = header.unused as u16;
    let unused = read_node(memory, spare).next;
    let rest = Entry {
        start: hole.start + units,
        units: hole.units - units,
        previous: number,
        next: hole.next,
        kind: HOLE,
    };
    write_node(memory, spare, rest);
    let block = Entry {
        units,
        next: spare,
        kind: BLOCK,
        ..hole
    };
    write_node(memory, number, block);
    set_previous(memory, hole.next, spare);
    write_header(
        memory,
        Header {
            unused: unused as u32,
            blocks: header.blocks + 1,
            ..header
        },
    );
}

/// Makes a hole of a live block, and one hole of it and the holes beside it.
pub fn vacate<M: Mem>(memory: &mut M, number: u16)
    requires used { IsUsed (M.bytes_of memory.old) number }
    requires block { IsBlock (M.bytes_of memory.old) number }
    requires whole { length (M.bytes_of memory.old) ≡ range_bytes }
    ensures blocks { Vacates (M.bytes_of memory.old) (M.bytes_of memory.new) (node_at (M.bytes_of memory.old) number).start }
    ensures stays { BytesStay (M.bytes_of memory.old) (M.bytes_of memory.new) 0 0 }
    ensures kept { Keeps (M.rank_of memory.old) (M.rank_of memory.new) (M.top_of memory.old) (M.top_of memory.new) (M.bytes_of memory.old) (M.bytes_of memory.new) (M.marks_of memory.old) (M.marks_of memory.new) }
{
    open(memory, number);
    let entry = read_node(memory, number);
    if is_hole(memory, entry.next) {
        join(memory, number, entry.next);
    }
    if is_hole(memory, entry.previous) {
        join(memory, entry.previous, number);
    }
}

/// Whether there is such a node, and it is a hole.
fn is_hole<M: Mem>(memory: &M, number: u16) -> bool
    requires { MayBeNode number }
    ensures { IsTrue result ↔ (number < node_count) × IsHole (M.bytes_of memory.now) number }
{
    number != NO_NODE && read_node(memory, number).kind == HOLE
}

/// Makes a hole of a live block.
fn open<M: Mem>(memory: &mut M, number: u16)
    requires below { number < node_count }
    requires some { 1 ≤ live_blocks (M.bytes_of memory.old) }
    requires few { hole_count (M.bytes_of memory.old) ≤ heap_units }
    requires whole { length (M.bytes_of memory.old) ≡ range_bytes }
    ensures nodes { NodesAre (M.bytes_of memory.new) (with_node number (with_kind 1 (node_at (M.bytes_of memory.old) number)) (node_at (M.bytes_of memory.old))) }
    ensures header { header_of (M.bytes_of memory.new) ≡ record { first = first_node (M.bytes_of memory.old); unused = first_unused (M.bytes_of memory.old); blocks = live_blocks (M.bytes_of memory.old) - 1; holes = hole_count (M.bytes_of memory.old) + 1 } }
    ensures stays { BytesStay (M.bytes_of memory.old) (M.bytes_of memory.new) 0 0 }
    ensures kept { Keeps (M.rank_of memory.old) (M.rank_of memory.new) (M.top_of memory.old) (M.top_of memory.new) (M.bytes_of memory.old) (M.bytes_of memory.new) (M.marks_of memory.old) (M.marks_of memory.new) }
{
    let header = read_header(memory);
    set_kind(memory, number, HOLE);
    write_header(
        memory,
        Header {
            blocks: header.blocks - 1,
            holes: header.holes + 1,
            ..header
        },
    );
}

/// Adds the hole `behind` to the hole before it. Its node becomes unused.
fn join<M: Mem>(memory: &mut M, number: u16, behind: u16)
    requires below { number < node_count }
    requires behind_below { behind < node_count }
    requires known { MayBeNode (node_at (M.bytes_of memory.old) behind).next }
    requires inside { (node_at (M.bytes_of memory.old) number).units + (node_at (M.bytes_of memory.old) behind).units ≤ heap_units }
    requires unused { MayBeNode (first_unused (M.bytes_of memory.old)) }
    requires some { 1 ≤ hole_count (M.bytes_of memory.old) }
    requires whole { length (M.bytes_of memory.old) ≡ range_bytes }
    ensures nodes { NodesAre (M.bytes_of memory.new) (joined_nodes number behind (first_unused (M.bytes_of memory.old)) (node_at (M.bytes_of memory.old))) }
    ensures header { header_of (M.bytes_of memory.new) ≡ record { first = first_node (M.bytes_of memory.old); unused = behind; blocks = live_blocks (M.bytes_of memory.old); holes = hole_count (M.bytes_of memory.old) - 1 } }
    ensures stays { BytesStay (M.bytes_of memory.old) (M.bytes_of memory.new) 0 0 }
    ensures kept { Keeps (M.rank_of memory.old) (M.rank_of memory.new) (M.top_of memory.old) (M.top_of memory.new) (M.bytes_of memory.old) (M.bytes_of memory.new) (M.marks_of memory.old) (M.marks_of memory.new) }
{
    let header = read_header(memory);
    let hole = read_node(memory, number);
    let added = read_node(memory, behind);
    let whole = Entry {
        units: hole.units + added.units,
        next: added.next,
        ..hole
    };
    write_node(memory, number, whole);
    let gone = Entry {
        start: 0,
        units: 0,
        previous: 0,
        next: header.unused as u16,
        kind: UNUSED,
    };
    write_node(memory, behind, gone);
    set_previous(memory, added.next, number);
    write_header(
        memory,
        Header {
            unused: behind as u32,
            holes: header.holes - 1,
            ..header
        },
    );
}
