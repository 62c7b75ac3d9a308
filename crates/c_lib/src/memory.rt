//! A rank's memory as the calls see it: the bytes up to an area's end, the texts in them, and copies.

ghost use Rattle.std.specs.Prelude.{◌≡◌, ◌<◌, IsTrue, Some, None, replicate, OnOk, OnErr};
ghost use Rattle.std.specs.Option.{option_copied};
ghost use Rattle.rank_range.specs.Layout.{MarksChanges};
ghost use Rattle.rank_range.specs.Areas as areas;
ghost use Rattle.rank_range.specs.Areas.{areas_of, bytes_from, bytes_at, with_bytes_at, copied_at, room_at};
ghost use Rattle.c_lib.specs.Answers.{LeavesTheRest};

use crate::texts::before_zero;
use am_base::RankId;
use rank_range::{BadAddress, GLOBALS_START, HEAP_START, Mem, STACK_START, access, base};

/// How many bytes there are from the address on, to the end of the area that it lies in.
fn room(rank: RankId, top: u32, a: u64) -> u64
    ensures { result ≡ room_at rank.0 top a }
{
    let base = base(rank);
    if is_between(base + GLOBALS_START as u64, base + HEAP_START as u64, a) {
        base + HEAP_START as u64 - a
    } else if is_between(base + HEAP_START as u64, base + STACK_START as u64, a) {
        base + STACK_START as u64 - a
    } else if is_between(base + STACK_START as u64, base + top as u64, a) {
        base + top as u64 - a
    } else {
        0
    }
}

fn is_between(start: u64, end: u64, a: u64) -> bool
    ensures value { result ≡ areas.is_between start end a }
    ensures below { IsTrue result → a < end }
{
    start <= a && a < end
}

/// The bytes from the address on, to the end of the area that it lies in.
pub fn rest_at<M: Mem>(m: &M, a: u64) -> &[u8]
    ensures { result.now ≡ bytes_from (areas_of (M.rank_of m.now) (M.top_of m.now) (M.bytes_of m.now)) a }
{
    match access::view(m, a, room(m.rank(), m.top(), a)) {
        Ok(bytes) => bytes,
        Err(BadAddress) => &[],
    }
}

/// The text at the address up to its zero, where both are in one area.
#[tactic(auto, unfolding(rank_range::specs::Areas::text_at))]
pub fn text_at<M: Mem>(m: &M, a: u64) -> Option<&[u8]>
    ensures { option_copied result ≡ areas.text_at (areas_of (M.rank_of m.now) (M.top_of m.now) (M.bytes_of m.now)) a }
{
    before_zero(rest_at(m, a))
}

/// The bytes at the address, where they are in one area.
pub fn view<M: Mem>(m: &M, a: u64, n: u64) -> Option<&[u8]>
    ensures { option_copied result ≡ bytes_at (areas_of (M.rank_of m.now) (M.top_of m.now) (M.bytes_of m.now)) a n }
{
    match access::view(m, a, n) {
        Ok(bytes) => Some(bytes),
        Err(BadAddress) => None,
    }
}

/// Puts the `n` bytes from the address `from` on to the address `to`, as if by a buffer.
pub fn copy<M: Mem>(m: &mut M, to: u64, from: u64, n: u64) -> Result<(), BadAddress>
    ensures ok { OnOk result (copied_at (areas_of (M.rank_of m.old) (M.top_of m.old) (M.bytes_of m.old)) to from n ≡ Some (areas_of (M.rank_of m.old) (M.top_of m.old) (M.bytes_of m.new))) }
    ensures refused { OnErr result (copied_at (areas_of (M.rank_of m.old) (M.top_of m.old) (M.bytes_of m.old)) to from n ≡ None) }
    ensures rest { OnOk result (LeavesTheRest (M.rank_of m.old) (M.top_of m.old) (M.bytes_of m.old) (M.bytes_of m.new)) }
    ensures marks { OnOk result (MarksChanges (M.bytes_of m.old) (M.bytes_of m.new) (M.marks_of m.old) (M.marks_of m.new)) }
    ensures same { OnErr result (M.bytes_of m.new ≡ M.bytes_of m.old) }
    ensures same_marks { OnErr result (M.marks_of m.new ≡ M.marks_of m.old) }
    ensures owner { M.rank_of m.new ≡ M.rank_of m.old }
    ensures stack { M.top_of m.new ≡ M.top_of m.old }
{
    let _top = m.top();
    m.copy(to, from, n)
}

/// Puts the byte into the `n` places from the address on.
pub fn fill<M: Mem>(m: &mut M, a: u64, n: u64, byte: u8) -> Result<(), BadAddress>
    ensures ok { OnOk result (with_bytes_at (areas_of (M.rank_of m.old) (M.top_of m.old) (M.bytes_of m.old)) a (replicate n byte) ≡ Some (areas_of (M.rank_of m.old) (M.top_of m.old) (M.bytes_of m.new))) }
    ensures refused { OnErr result (with_bytes_at (areas_of (M.rank_of m.old) (M.top_of m.old) (M.bytes_of m.old)) a (replicate n byte) ≡ None) }
    ensures rest { OnOk result (LeavesTheRest (M.rank_of m.old) (M.top_of m.old) (M.bytes_of m.old) (M.bytes_of m.new)) }
    ensures marks { OnOk result (MarksChanges (M.bytes_of m.old) (M.bytes_of m.new) (M.marks_of m.old) (M.marks_of m.new)) }
    ensures same { OnErr result (M.bytes_of m.new ≡ M.bytes_of m.old) }
    ensures same_marks { OnErr result (M.marks_of m.new ≡ M.marks_of m.old) }
    ensures owner { M.rank_of m.new ≡ M.rank_of m.old }
    ensures stack { M.top_of m.new ≡ M.top_of m.old }
{
    let _top = m.top();
    m.fill(a, n, byte)
}
