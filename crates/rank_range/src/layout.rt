//! Where a rank's memory stands. This profile's own.
ghost use Rattle.std.specs.Prelude.{◌≡◌, ◌↔◌, ◌+◌, ◌-◌, ◌<◌, ◌≤◌, IsTrue, IfOk, OnOk, OnErr};
ghost use Rattle.rank_range.specs.Layout.{base_of, AllIn, Accessible, range_bytes};
ghost use Rattle.rank_range.specs.Numbers.{bytes_in};
ghost use Rattle.rank_range.specs.Areas.{TellsAccessible, AreRead, ArePut};

use crate::{BadAddress, Width};
use am_base::RankId;

/// How many bytes a rank has.
pub const RANGE_BYTES: u32 = 0x100000;

/// How many bytes a page has.
pub const PAGE_BYTES: u32 = 4096;

/// How many pages a rank has.
pub const PAGES: u32 = 256;

/// The offset of the control stack, behind the header.
pub const CONTROL_START: u32 = 0x1000;

/// The offset of the block descriptors.
pub const DESCRIPTORS_START: u32 = 0x13000;

/// The offset of the globals.
pub const GLOBALS_START: u32 = 0x33000;

/// The offset of the heap.
pub const HEAP_START: u32 = 0x80000;

/// The offset of the data stack, where the heap ends.
pub const STACK_START: u32 = 0xE0000;

/// The address of the rank's first byte.
pub fn base(rank: RankId) -> u64
    ensures { result ≡ base_of rank.0 }
{
    (rank.0 as u64 + 1) * 0x1_0000_0000
}

/// Whether the `n` bytes from the address `a` on are all in one accessible area of the rank: its globals, its heap, or
/// its data stack below the offset `top`. No bytes are accessible anywhere.
pub fn is_accessible(rank: RankId, top: u32, a: u64, n: u64) -> bool
    ensures { IsTrue result ↔ Accessible rank.0 top a n }
{
    let base = base(rank);
    lies_in(base + GLOBALS_START as u64, base + HEAP_START as u64, a, n)
        || lies_in(base + HEAP_START as u64, base + STACK_START as u64, a, n)
        || lies_in(base + STACK_START as u64, base + top as u64, a, n)
}

/// Whether each of the `n` bytes from the address `a` on lies from `start` up to `end`.
fn lies_in(start: u64, end: u64, a: u64, n: u64) -> bool
    ensures { IsTrue result ↔ AllIn start end a n }
{
    n == 0 || (start <= a && a <= end && n <= end - a)
}

/// The offset of the `n` bytes from the address `a` on, refused just where they are not all in one accessible area.
pub fn place_of_bytes(rank: RankId, top: u32, a: u64, n: u64) -> Result<usize, BadAddress>
    requires below { top ≤ range_bytes }
    requires some { 0 < n }
    ensures value { IfOk result (λ at. at ≡ a - base_of rank.0) }
    ensures inside { IfOk result (λ at. at + n ≤ range_bytes) }
    ensures ok { OnOk result (Accessible rank.0 top a n) }
    ensures refused { OnErr result (Accessible rank.0 top a n → ⊥) }
{
    if !is_accessible(rank, top, a, n) {
        return Err(BadAddress);
    }
    Ok((a - base(rank)) as usize)
}

/// The offset of the address `a`, refused just where the bytes from there on are not all in one accessible area.
pub fn place_of(rank: RankId, top: u32, a: u64, width: Width) -> Result<usize, BadAddress>
    requires { top ≤ range_bytes }
    ensures value { IfOk result (λ at. at ≡ a - base_of rank.0) }
    ensures inside { IfOk result (λ at. at + bytes_in width ≤ range_bytes) }
    ensures ok { OnOk result (Accessible rank.0 top a (bytes_in width)) }
    ensures refused { OnErr result (Accessible rank.0 top a (bytes_in width) → ⊥) }
{
    if !is_accessible(rank, top, a, width.bytes() as u64) {
        return Err(BadAddress);
    }
    Ok((a - base(rank)) as usize)
}

/// Laws: the test of accessible bytes that definitions compute with tells just these, and what is read and put by areas is
/// what stands in the rank's bytes and is put into them.
pub fn areas_are_in_the_range()
    ensures tells { TellsAccessible }
    ensures read { AreRead }
    ensures put { ArePut }
{}
