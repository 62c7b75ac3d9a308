//! Making units of the heap zero.

ghost use Rattle.std.specs.Prelude.{◌≡◌, ◌+◌, ◌*◌, ◌≤◌, length};
ghost use Rattle.rank_range.specs.Layout.{range_bytes};
ghost use Rattle.isomalloc.specs.Heap.{AreZero};
ghost use Rattle.rank_range.specs.Parts.{StayBeside, Keeps};

use rank_range::{Mem, Width};

/// Makes so many units of 16 bytes zero, from the offset `at` on.
pub fn clear<M: Mem>(memory: &mut M, at: u32, units: u32)
    requires inside { at + 16 * units ≤ range_bytes }
    requires whole { length (M.bytes_of memory.old) ≡ range_bytes }
    ensures zero { AreZero (M.bytes_of memory.new) at (16 * units) }
    ensures beside { StayBeside (M.bytes_of memory.old) (M.bytes_of memory.new) at (at + 16 * units) }
    ensures kept { Keeps (M.rank_of memory.old) (M.rank_of memory.new) (M.top_of memory.old) (M.top_of memory.new) (M.bytes_of memory.old) (M.bytes_of memory.new) (M.marks_of memory.old) (M.marks_of memory.new) }
{
    for word in 0..2 * units {
        memory.set_raw(at + 8 * word, Width::Eight, 0);
    }
}
