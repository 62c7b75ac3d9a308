//! The header and the nodes, as they are read from a rank's bytes and written there.
ghost use Rattle.std.specs.Prelude.{◌≡◌, ◌+◌, ◌*◌, ◌<◌, ◌≤◌, length};
ghost use Rattle.rank_range.specs.Layout.{range_bytes, descriptors_start, globals_start};
ghost use Rattle.rank_range.specs.Nodes.{node_at, node_place, node_count, first_node};
ghost use Rattle.rank_range.specs.Parts.{StayBeside, Keeps};
ghost use Rattle.isomalloc.specs.Entries.{MayBeNode, header_of, node_of, entry_of, with_node, with_kind, repointed, NodesAre};

use rank_range::{DESCRIPTORS_START, Mem, Width};

/// How many nodes there are: one for each of 4,000 blocks and for the holes beside them.
pub const NODE_COUNT: u16 = 8001;

/// Stands where there is no node.
pub const NO_NODE: u16 = 65535;

/// The kind of a node that stands for nothing.
pub const UNUSED: u8 = 0;

/// The kind of a hole's node.
pub const HOLE: u8 = 1;

/// The kind of a live block's node.
pub const BLOCK: u8 = 2;

/// The header of a range: the first node in the order of addresses, the first unused node, and how many live blocks and
/// holes there are.
#[derive(Clone, Copy)]
pub struct Header {
    pub first: u32,
    pub unused: u32,
    pub blocks: u32,
    pub holes: u32,
}

/// A node: where its piece of the heap begins and how long it is, both in units of 16 bytes, the nodes before and behind
/// it, and its kind.
#[derive(Clone, Copy)]
pub struct Entry {
    pub start: u32,
    pub units: u32,
    pub previous: u16,
    pub next: u16,
    pub kind: u8,
}

pub fn read_header<M: Mem>(memory: &M) -> Header
    ensures { result ≡ header_of (M.bytes_of memory.now) }
{
    Header {
        first: memory.raw(0, Width::Four) as u32,
        unused: memory.raw(4, Width::Four) as u32,
        blocks: memory.raw(8, Width::Four) as u32,
        holes: memory.raw(12, Width::Four) as u32,
    }
}

/// Puts the header's four numbers.
pub fn write_header<M: Mem>(memory: &mut M, header: Header)
    requires { length (M.bytes_of memory.old) ≡ range_bytes }
    ensures header { header_of (M.bytes_of memory.new) ≡ header }
    ensures beside { StayBeside (M.bytes_of memory.old) (M.bytes_of memory.new) 0 16 }
    ensures kept { Keeps (M.rank_of memory.old) (M.rank_of memory.new) (M.top_of memory.old) (M.top_of memory.new) (M.bytes_of memory.old) (M.bytes_of memory.new) (M.marks_of memory.old) (M.marks_of memory.new) }
{
    memory.set_raw(0, Width::Four, header.first as u64);
    memory.set_raw(4, Width::Four, header.unused as u64);
    memory.set_raw(8, Width::Four, header.blocks as u64);
    memory.set_raw(12, Width::Four, header.holes as u64);
}

/// The offset of a node.
fn place(number: u16) -> u32
    requires { number < node_count }
    ensures value { result ≡ node_place number }
    ensures inside { result + 16 ≤ globals_start }
{
    DESCRIPTORS_START + 16 * number as u32
}

pub fn read_node<M: Mem>(memory: &M, number: u16) -> Entry
    requires { number < node_count }
    ensures { result ≡ entry_of (node_at (M.bytes_of memory.now) number) }
{
    let at = place(number);
    Entry {
        start: memory.raw(at, Width::Four) as u32,
        units: memory.raw(at + 4, Width::Four) as u32,
        previous: memory.raw(at + 8, Width::Two) as u16,
        next: memory.raw(at + 10, Width::Two) as u16,
        kind: memory.raw(at + 12, Width::One) as u8,
    }
}

/// Puts the fields of a node.
pub fn write_node<M: Mem>(memory: &mut M, number: u16, entry: Entry)
    requires below { number < node_count }
    requires whole { length (M.bytes_of memory.old) ≡ range_bytes }
    ensures nodes { NodesAre (M.bytes_of memory.new) (with_node number (node_of entry (node_at (M.bytes_of memory.old) number).rest) (node_at (M.bytes_of memory.old))) }
    ensures beside { StayBeside (M.bytes_of memory.old) (M.bytes_of memory.new) descriptors_start globals_start }
    ensures kept { Keeps (M.rank_of memory.old) (M.rank_of memory.new) (M.top_of memory.old) (M.top_of memory.new) (M.bytes_of memory.old) (M.bytes_of memory.new) (M.marks_of memory.old) (M.marks_of memory.new) }
{
    let at = place(number);
    memory.set_raw(at, Width::Four, entry.start as u64);
    memory.set_raw(at + 4, Width::Four, entry.units as u64);
    memory.set_raw(at + 8, Width::Two, entry.previous as u64);
    memory.set_raw(at + 10, Width::Two, entry.next as u64);
    memory.set_raw(at + 12, Width::One, entry.kind as u64);
}

/// Puts the node before the node, where there is one.
pub fn set_previous<M: Mem>(memory: &mut M, number: u16, previous: u16)
    requires known { MayBeNode number }
    requires whole { length (M.bytes_of memory.old) ≡ range_bytes }
    ensures nodes { NodesAre (M.bytes_of memory.new) (repointed number previous (node_at (M.bytes_of memory.old))) }
    ensures beside { StayBeside (M.bytes_of memory.old) (M.bytes_of memory.new) descriptors_start globals_start }
    ensures kept { Keeps (M.rank_of memory.old) (M.rank_of memory.new) (M.top_of memory.old) (M.top_of memory.new) (M.bytes_of memory.old) (M.bytes_of memory.new) (M.marks_of memory.old) (M.marks_of memory.new) }
{
    if number == NO_NODE {
        return;
    }
    let entry = read_node(memory, number);
    write_node(memory, number, Entry { previous, ..entry });
}

/// Puts the kind of a node.
pub fn set_kind<M: Mem>(memory: &mut M, number: u16, kind: u8)
    requires below { number < node_count }
    requires whole { length (M.bytes_of memory.old) ≡ range_bytes }
    ensures nodes { NodesAre (M.bytes_of memory.new) (with_node number (with_kind kind (node_at (M.bytes_of memory.old) number)) (node_at (M.bytes_of memory.old))) }
    ensures beside { StayBeside (M.bytes_of memory.old) (M.bytes_of memory.new) descriptors_start globals_start }
    ensures kept { Keeps (M.rank_of memory.old) (M.rank_of memory.new) (M.top_of memory.old) (M.top_of memory.new) (M.bytes_of memory.old) (M.bytes_of memory.new) (M.marks_of memory.old) (M.marks_of memory.new) }
{
    let entry = read_node(memory, number);
    write_node(memory, number, Entry { kind, ..entry });
}
