//! The memory of a rank before its first instruction.

ghost use Rattle.std.specs.Prelude.{◌≡◌, ◌+◌, ◌-◌, ◌≤◌, All, [], length};
ghost use Rattle.rank_range.specs.Layout.{globals_start, heap_start, stack_start, IsZeroed};
ghost use Rattle.rank_range.specs.Nodes.{HasHeap};
ghost use Rattle.rank_range.specs.Areas.{memory_of};
ghost use Rattle.rank_range.specs.Parts.{with_part, Keeps};
ghost use Rattle.vm_code.specs.Memory.{opened};
ghost use Rattle.rank_machine.specs.Opening.{FitsGlobals, RestIsZero, HasBase, HasBases};

use isomalloc::setup;
use rank_range::{GLOBALS_START, Mem, Segment, Width, base};

/// Makes the opening memory of a program of memory that is all zero: its segment with the rank's base added at its fixes, and a
/// heap with no live block.
pub fn open<M: Mem>(m: &mut M, segment: &Segment)
    requires fits { FitsGlobals segment.now }
    requires zeroed { IsZeroed (M.bytes_of m.old) }
    requires empty { M.top_of m.old ≡ stack_start }
    ensures memory { memory_of (M.rank_of m.new) (M.top_of m.new) (M.bytes_of m.new) ≡ opened segment.now (M.rank_of m.old) }
    ensures heap { HasHeap (M.rank_of m.new) (M.bytes_of m.new) }
    ensures rest { RestIsZero (M.bytes_of m.new) }
    ensures kept { Keeps (M.rank_of m.old) (M.rank_of m.new) (M.top_of m.old) (M.top_of m.new) (M.bytes_of m.old) (M.bytes_of m.new) (M.marks_of m.old) (M.marks_of m.new) }
{
    setup(m);
    put_globals(m, segment.bytes.as_slice());
    add_bases(m, segment.fixes.as_slice());
}

/// Puts the bytes where the globals begin.
fn put_globals<M: Mem>(m: &mut M, bytes: &[u8])
    requires { length bytes.now ≤ heap_start - globals_start }
    ensures bytes { M.bytes_of m.new ≡ with_part (M.bytes_of m.old) globals_start bytes.now }
    ensures kept { Keeps (M.rank_of m.old) (M.rank_of m.new) (M.top_of m.old) (M.top_of m.new) (M.bytes_of m.old) (M.bytes_of m.new) (M.marks_of m.old) (M.marks_of m.new) }
{
    let _top = m.top();
    let start = base(m.rank()) + GLOBALS_START as u64;
    let _done = m.write(start, bytes);
}

/// Adds the rank's base to the addresses at these offsets of the globals, one after another.
fn add_bases<M: Mem>(m: &mut M, fixes: &[u32])
    requires { All (λ at. at + 8 ≤ heap_start - globals_start) fixes.now }
    ensures { HasBases (M.rank_of m.old) (M.rank_of m.new) (M.top_of m.old) (M.top_of m.new) (M.bytes_of m.old) (M.bytes_of m.new) (M.marks_of m.old) (M.marks_of m.new) fixes.now [] }
{
    let mut i = 0;
    while i < fixes.len() {
        add_base(m, fixes[i]);
        i += 1;
    }
}

/// Adds the rank's base to the address at the offset of the globals.
fn add_base<M: Mem>(m: &mut M, at: u32)
    requires { at + 8 ≤ heap_start - globals_start }
    ensures { HasBase (M.rank_of m.old) (M.rank_of m.new) (M.top_of m.old) (M.top_of m.new) (M.bytes_of m.old) (M.bytes_of m.new) (M.marks_of m.old) (M.marks_of m.new) at }
{
    let _top = m.top();
    let base = base(m.rank());
    let place = GLOBALS_START + at;
    let address = m.raw(place, Width::Eight);
    m.set_raw(place, Width::Eight, address.wrapping_add(base));
}
