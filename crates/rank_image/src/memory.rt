//! All bytes of a rank's memory, written out and filled in.

ghost use Rattle.std.specs.Prelude.{◌≡◌, ◌+◌, ◌-◌, ◌<◌, ◌≤◌, ◌++◌, ℕ, length, IfOk, OnOk};
ghost use Rattle.rank_range.specs.Layout.{range_bytes, stack_start, IsMarked, IsRange};
ghost use Rattle.rank_range.specs.Parts.{part};
ghost use Rattle.rank_image.specs.Memory.{IsFilled};

use am_base::{Bytes, RankId};
use rank_range::{GLOBALS_START, HEAP_START, Mem, RANGE_BYTES, STACK_START, Width, base};
use std::alloc::{AllocError, Global};

/// Appends all bytes of a rank's memory.
pub fn put_memory<M: Mem>(out: &mut Bytes, memory: &M) -> Result<(), AllocError>
    ensures { OnOk result (out.new ≡ out.old ++ M.bytes_of memory.now) }
{
    let _top = memory.top();
    put_bytes(out, memory, 0, GLOBALS_START)?;
    put_area(out, memory, GLOBALS_START, HEAP_START)?;
    put_area(out, memory, HEAP_START, STACK_START)?;
    put_bytes(out, memory, STACK_START, RANGE_BYTES)
}

/// Appends the bytes from one offset up to another one, in bulk where they lie in an accessible area.
fn put_area<M: Mem>(out: &mut Bytes, memory: &M, from: u32, to: u32) -> Result<(), AllocError>
    requires low { from ≤ to }
    requires high { to ≤ range_bytes }
    ensures { OnOk result (out.new ≡ out.old ++ part (M.bytes_of memory.now) from (to - from)) }
{
    let address = base(memory.rank()) + from as u64;
    match memory.view(address, (to - from) as u64) {
        Ok(bytes) => out.append(bytes),
        Err(_) => put_bytes(out, memory, from, to),
    }
}

/// Appends the bytes from one offset up to another one, one by one.
fn put_bytes<M: Mem>(out: &mut Bytes, memory: &M, from: u32, to: u32) -> Result<(), AllocError>
    requires low { from ≤ to }
    requires high { to ≤ range_bytes }
    ensures { OnOk result (out.new ≡ out.old ++ part (M.bytes_of memory.now) from (to - from)) }
{
    let _top = memory.top();
    for at in from..to {
        out.push(memory.raw(at, Width::One) as u8)?;
    }
    Ok(())
}

/// The memory of a rank with these bytes, its data stack up to `top`, and all pages marked.
pub fn memory_of<M: Mem>(
    alloc: Global,
    rank: RankId,
    bytes: &[u8],
    top: u32,
) -> Result<M, AllocError>
    requires whole { length bytes.now ≡ range_bytes }
    requires above { stack_start ≤ top }
    requires below { top ≤ range_bytes }
    ensures owner { IfOk result (λ m. M.rank_of m ≡ rank.0) }
    ensures stack { IfOk result (λ m. M.top_of m ≡ top) }
    ensures bytes { IfOk result (λ m. M.bytes_of m ≡ bytes.now) }
    ensures marked { IfOk result (λ m. (page : ℕ) → page < 256 → IsMarked (M.marks_of m) page) }
{
    let mut memory = M::fresh(alloc, rank)?;
    fill_bytes(&mut memory, bytes, 0, GLOBALS_START);
    fill_area(&mut memory, bytes, GLOBALS_START, HEAP_START);
    fill_area(&mut memory, bytes, HEAP_START, STACK_START);
    fill_bytes(&mut memory, bytes, STACK_START, RANGE_BYTES);
    let _whole = memory.top();
    memory.set_top(top);
    Ok(memory)
}

/// Fills the memory from one offset up to another one, in bulk where that lies in an accessible area.
fn fill_area<M: Mem>(memory: &mut M, bytes: &[u8], from: u32, to: u32)
    requires whole { length bytes.now ≡ range_bytes }
    requires low { from ≤ to }
    requires high { to ≤ range_bytes }
    requires before { IsFilled (M.bytes_of memory.old) bytes.now from }
    ensures filled { IsFilled (M.bytes_of memory.new) bytes.now to }
    ensures owner { M.rank_of memory.new ≡ M.rank_of memory.old }
    ensures marks { (page : ℕ) → page < 256 → IsMarked (M.marks_of memory.old) page → IsMarked (M.marks_of memory.new) page }
{
    let _top = memory.top();
    let address = base(memory.rank()) + from as u64;
    match memory.write(address, part_of(bytes, from as usize, (to - from) as usize)) {
        Ok(()) => {}
        Err(_) => fill_bytes(memory, bytes, from, to),
    }
}

/// The `n` bytes from `at` on.
fn part_of(bytes: &[u8], at: usize, n: usize) -> &[u8]
    requires { at + n ≤ length bytes.now }
    ensures { result.now ≡ part bytes.now at n }
{
    &bytes[at..at + n]
}

/// Fills the memory from one offset up to another one, byte by byte.
fn fill_bytes<M: Mem>(memory: &mut M, bytes: &[u8], from: u32, to: u32)
    requires whole { length bytes.now ≡ range_bytes }
    requires low { from ≤ to }
    requires high { to ≤ range_bytes }
    requires before { IsFilled (M.bytes_of memory.old) bytes.now from }
    ensures filled { IsFilled (M.bytes_of memory.new) bytes.now to }
    ensures owner { M.rank_of memory.new ≡ M.rank_of memory.old }
    ensures marks { (page : ℕ) → page < 256 → IsMarked (M.marks_of memory.old) page → IsMarked (M.marks_of memory.new) page }
{
    for at in from..to {
        let _top = memory.top();
        memory.set_raw(at, Width::One, bytes[at as usize] as u64);
    }
}
