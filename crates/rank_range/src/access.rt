//! The calls of a rank's memory, told by its areas.

ghost use Rattle.std.specs.Prelude.{◌≡◌, ◌<◌, ◌^◌, Some, None, replicate, IfOk, OnOk, OnErr};
ghost use Rattle.rank_range.specs.Layout.{MarksChanges};
ghost use Rattle.rank_range.specs.Numbers.{bytes_in};
ghost use Rattle.rank_range.specs.Areas.{areas_of, bytes_at, with_bytes_at, copied_at, number_of, with_number_of, Becomes, AreTexts};

use crate::{BadAddress, Mem, Width};

/// The number at the address, refused just where the areas have none.
pub fn load<M: Mem>(memory: &M, a: u64, width: Width) -> Result<u64, BadAddress>
    ensures value { IfOk result (λ v. number_of (areas_of (M.rank_of memory.now) (M.top_of memory.now) (M.bytes_of memory.now)) a (bytes_in width) ≡ Some v) }
    ensures fits { IfOk result (λ v. v < 256 ^ bytes_in width) }
    ensures refused { OnErr result (number_of (areas_of (M.rank_of memory.now) (M.top_of memory.now) (M.bytes_of memory.now)) a (bytes_in width) ≡ None) }
{
    let _top = memory.top();
    memory.load(a, width)
}

/// The bytes at the address, refused just where the areas don't have them.
pub fn view<M: Mem>(memory: &M, a: u64, n: u64) -> Result<&[u8], BadAddress>
    ensures value { IfOk result (λ bytes. bytes_at (areas_of (M.rank_of memory.now) (M.top_of memory.now) (M.bytes_of memory.now)) a n ≡ Some bytes.now) }
    ensures refused { OnErr result (bytes_at (areas_of (M.rank_of memory.now) (M.top_of memory.now) (M.bytes_of memory.now)) a n ≡ None) }
{
    let _top = memory.top();
    memory.view(a, n)
}

/// Puts the lowest bytes of the value at the address, refused just where the areas don't take them.
pub fn store<M: Mem>(memory: &mut M, a: u64, width: Width, value: u64) -> Result<(), BadAddress>
    ensures ok { OnOk result (Becomes (M.rank_of memory.old) (M.top_of memory.old) (M.bytes_of memory.old) (M.bytes_of memory.new) (with_number_of (areas_of (M.rank_of memory.old) (M.top_of memory.old) (M.bytes_of memory.old)) a (bytes_in width) value)) }
    ensures refused { OnErr result (with_number_of (areas_of (M.rank_of memory.old) (M.top_of memory.old) (M.bytes_of memory.old)) a (bytes_in width) value ≡ None) }
    ensures same { OnErr result (M.bytes_of memory.new ≡ M.bytes_of memory.old) }
    ensures same_marks { OnErr result (M.marks_of memory.new ≡ M.marks_of memory.old) }
    ensures marks { OnOk result (MarksChanges (M.bytes_of memory.old) (M.bytes_of memory.new) (M.marks_of memory.old) (M.marks_of memory.new)) }
    ensures owner { M.rank_of memory.new ≡ M.rank_of memory.old }
    ensures stack { M.top_of memory.new ≡ M.top_of memory.old }
{
    let _top = memory.top();
    memory.store(a, width, value)
}

/// Puts the bytes at the address, refused just where the areas don't take them.
pub fn write<M: Mem>(memory: &mut M, a: u64, bytes: &[u8]) -> Result<(), BadAddress>
    ensures ok { OnOk result (Becomes (M.rank_of memory.old) (M.top_of memory.old) (M.bytes_of memory.old) (M.bytes_of memory.new) (with_bytes_at (areas_of (M.rank_of memory.old) (M.top_of memory.old) (M.bytes_of memory.old)) a bytes.now)) }
    ensures refused { OnErr result (with_bytes_at (areas_of (M.rank_of memory.old) (M.top_of memory.old) (M.bytes_of memory.old)) a bytes.now ≡ None) }
    ensures same { OnErr result (M.bytes_of memory.new ≡ M.bytes_of memory.old) }
    ensures same_marks { OnErr result (M.marks_of memory.new ≡ M.marks_of memory.old) }
    ensures marks { OnOk result (MarksChanges (M.bytes_of memory.old) (M.bytes_of memory.new) (M.marks_of memory.old) (M.marks_of memory.new)) }
    ensures owner { M.rank_of memory.new ≡ M.rank_of memory.old }
    ensures stack { M.top_of memory.new ≡ M.top_of memory.old }
{
    let _top = memory.top();
    memory.write(a, bytes)
}

/// Puts the `n` bytes from the address `from` on to the address `to`, refused just where the areas don't have the ones or
/// don't take the others.
pub fn copy<M: Mem>(memory: &mut M, to: u64, from: u64, n: u64) -> Result<(), BadAddress>
    ensures ok { OnOk result (Becomes (M.rank_of memory.old) (M.top_of memory.old) (M.bytes_of memory.old) (M.bytes_of memory.new) (copied_at (areas_of (M.rank_of memory.old) (M.top_of memory.old) (M.bytes_of memory.old)) to from n)) }
    ensures refused { OnErr result (copied_at (areas_of (M.rank_of memory.old) (M.top_of memory.old) (M.bytes_of memory.old)) to from n ≡ None) }
    ensures same { OnErr result (M.bytes_of memory.new ≡ M.bytes_of memory.old) }
    ensures same_marks { OnErr result (M.marks_of memory.new ≡ M.marks_of memory.old) }
    ensures marks { OnOk result (MarksChanges (M.bytes_of memory.old) (M.bytes_of memory.new) (M.marks_of memory.old) (M.marks_of memory.new)) }
    ensures owner { M.rank_of memory.new ≡ M.rank_of memory.old }
    ensures stack { M.top_of memory.new ≡ M.top_of memory.old }
{
    let _top = memory.top();
    memory.copy(to, from, n)
}

/// Puts the byte into the `n` places from the address on, refused just where the areas don't take them.
pub fn fill<M: Mem>(memory: &mut M, a: u64, n: u64, byte: u8) -> Result<(), BadAddress>
    ensures ok { OnOk result (Becomes (M.rank_of memory.old) (M.top_of memory.old) (M.bytes_of memory.old) (M.bytes_of memory.new) (with_bytes_at (areas_of (M.rank_of memory.old) (M.top_of memory.old) (M.bytes_of memory.old)) a (replicate n byte))) }
    ensures refused { OnErr result (with_bytes_at (areas_of (M.rank_of memory.old) (M.top_of memory.old) (M.bytes_of memory.old)) a (replicate n byte) ≡ None) }
    ensures same { OnErr result (M.bytes_of memory.new ≡ M.bytes_of memory.old) }
    ensures same_marks { OnErr result (M.marks_of memory.new ≡ M.marks_of memory.old) }
    ensures marks { OnOk result (MarksChanges (M.bytes_of memory.old) (M.bytes_of memory.new) (M.marks_of memory.old) (M.marks_of memory.new)) }
    ensures owner { M.rank_of memory.new ≡ M.rank_of memory.old }
    ensures stack { M.top_of memory.new ≡ M.top_of memory.old }
{
    let _top = memory.top();
    memory.fill(a, n, byte)
}

/// A law: the text that is read at an address is the one that stands there up to a zero.
pub fn texts_end_at_a_zero()
    ensures { AreTexts }
{}
