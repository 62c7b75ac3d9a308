//! `heap`: calls of the heap of the rank that the group's first line names (`rank R`), or of rank 0. Places are from the
//! heap's first byte: `take SIZE`, `takes COUNT SIZE`, `give AT`, `free ADDRESS`, `load AT`, `write AT`, `raw OFFSET WIDTH`;
//! `wild COUNT` makes calls without a plan. A take that isn't answered as the plain first fit says, says so.

ghost use Rattle.std.specs.Prelude.{◌+◌, ◌≤◌, IfOk};
ghost use Rattle.rank_range.specs.Layout.{heap_start, stack_start};
ghost use Rattle.rank_range.specs.Nodes.{HasHeap};

use crate::cases::begins;
use crate::lines::{no_case, number_at, u32_at, word_at};
use crate::memory::{is_within, rank_of, width_at};
use am_base::RankId;
use isomalloc::{give, other_bytes_tell_nothing, setup, take};
use rank_range::{
    Block, FlatMem, HEAP_START, MOST_BLOCKS, Mem, STACK_START, Width, base, first_fit,
};
use std::alloc::{AllocError, Global};

pub(crate) fn play(alloc: Global, out: &mut String, group: &[&str]) -> Result<(), AllocError> {
    let mut memory: FlatMem = with_heap(alloc, rank_of(group))?;
    let mut blocks = Vec::new(alloc);
    let played = play_on(&mut memory, &mut blocks, out, group);
    drop(memory);
    drop(blocks);
    played
}

/// Fresh memory with a heap.
fn with_heap<M: Mem + Drop>(alloc: Global, rank: RankId) -> Result<M, AllocError>
    ensures { IfOk result (λ m. HasHeap (M.rank_of m) (M.bytes_of m)) }
{
    let mut memory = M::fresh(alloc, rank)?;
    setup(&mut memory);
    Ok(memory)
}

fn play_on<M: Mem>(
    memory: &mut M,
    blocks: &mut Vec<Block>,
    out: &mut String,
    group: &[&str],
) -> Result<(), AllocError>
    requires { HasHeap (M.rank_of memory.old) (M.bytes_of memory.old) }
{
    for line in group {
        if begins(out, line)? {
            answer(memory, blocks, out, line)?;
            out.push_str("\n")?;
        }
    }
    Ok(())
}

fn answer<M: Mem>(
    memory: &mut M,
    blocks: &mut Vec<Block>,
    out: &mut String,
    line: &str,
) -> Result<(), AllocError>
    requires { HasHeap (M.rank_of memory.old) (M.bytes_of memory.old) }
    ensures { HasHeap (M.rank_of memory.new) (M.bytes_of memory.new) }
{
    let heap = heap_of(memory);
    match (word_at(line, 0), number_at(line, 1)) {
        ("rank", Some(_)) => write!(out, "heap at {heap:#x}"),
        ("take", Some(size)) => show_take(memory, blocks, out, size),
        ("takes", Some(count)) => show_takes(memory, blocks, out, count, number_at(line, 2)),
        ("give", Some(at)) => show_give(memory, blocks, out, heap.wrapping_add(at)),
        ("free", Some(address)) => show_give(memory, blocks, out, address),
        ("load", Some(at)) => show_load(memory, out, heap.wrapping_add(at)),
        ("write", Some(at)) => show_write(memory, out, at),
        ("raw", Some(_)) => show_raw(memory, out, line),
        ("wild", Some(count)) => show_wild(memory, blocks, out, count),
        _ => no_case(out),
    }
}

/// The address of the heap's first byte.
fn heap_of<M: Mem>(memory: &M) -> u64 {
    base(memory.rank()) + u64::from(HEAP_START)
}

/// Takes a block: its address, and whether that is the plain first fit.
fn taken<M: Mem>(memory: &mut M, blocks: &[Block], size: u64) -> (u64, bool)
    requires { HasHeap (M.rank_of memory.old) (M.bytes_of memory.old) }
    ensures { HasHeap (M.rank_of memory.new) (M.bytes_of memory.new) }
{
    let plain = first_fit(memory.rank(), blocks, size);
    let address = take(memory, size);
    (address, address == plain)
}

/// Notes a block that was taken, if one was.
fn note(blocks: &mut Vec<Block>, address: u64, size: u64) -> Result<(), AllocError> {
    if address == 0 {
        return Ok(());
    }
    let length = size.max(1).min(1 << 20).div_ceil(16) * 16;
    blocks.push(Block { address, length })?;
    Ok(())
}

fn show_take<M: Mem>(
    memory: &mut M,
    blocks: &mut Vec<Block>,
    out: &mut String,
    size: u64,
) -> Result<(), AllocError>
    requires { HasHeap (M.rank_of memory.old) (M.bytes_of memory.old) }
    ensures { HasHeap (M.rank_of memory.new) (M.bytes_of memory.new) }
{
    let heap = heap_of(memory);
    let (address, is_first_fit) = taken(memory, blocks.as_slice(), size);
    note(blocks, address, size)?;
    if !is_first_fit {
        out.push_str("not as first fit says: ")?;
    }
    if address == 0 {
        return out.push_str("no block");
    }
    write!(out, "block at {}", address.wrapping_sub(heap))
}

/// Takes so many blocks.
fn show_takes<M: Mem>(
    memory: &mut M,
    blocks: &mut Vec<Block>,
    out: &mut String,
    count: u64,
    size: Option<u64>,
) -> Result<(), AllocError>
    requires { HasHeap (M.rank_of memory.old) (M.bytes_of memory.old) }
    ensures { HasHeap (M.rank_of memory.new) (M.bytes_of memory.new) }
{
    let size = size.unwrap_or(0);
    let mut first = 0;
    let mut last = 0;
    for _call in 0..count.min(MOST_BLOCKS as u64 + 1) {
        let address = take(memory, size);
        note(blocks, address, size)?;
        last = address.max(last);
        if first == 0 {
            first = address;
        }
    }
    let heap = heap_of(memory);
    let (first, last) = (first.wrapping_sub(heap), last.wrapping_sub(heap));
    write!(
        out,
        "blocks from {first} to {last}, {} in all",
        blocks.len()
    )
}

fn show_give<M: Mem>(
    memory: &mut M,
    blocks: &mut Vec<Block>,
    out: &mut String,
    address: u64,
) -> Result<(), AllocError>
    requires { HasHeap (M.rank_of memory.old) (M.bytes_of memory.old) }
    ensures { HasHeap (M.rank_of memory.new) (M.bytes_of memory.new) }
{
    match give(memory, address) {
        Ok(()) => {
            blocks.retain(|block| block.address != address);
            out.push_str("given")
        }
        Err(error) => write!(out, "{error}"),
    }
}

fn show_load<M: Mem>(memory: &M, out: &mut String, address: u64) -> Result<(), AllocError> {
    match memory.load(address, Width::Eight) {
        Ok(value) => write!(out, "{value:#x}"),
        Err(error) => write!(out, "{error}"),
    }
}

/// Puts eight bytes into the heap, each 255.
fn show_write<M: Mem>(memory: &mut M, out: &mut String, at: u64) -> Result<(), AllocError>
    requires { HasHeap (M.rank_of memory.old) (M.bytes_of memory.old) }
    ensures { HasHeap (M.rank_of memory.new) (M.bytes_of memory.new) }
{
    if at > (STACK_START - HEAP_START - 8) as u64 {
        return no_case(out);
    }
    write_in_heap(memory, HEAP_START + at as u32);
    out.push_str("written")
}

fn write_in_heap<M: Mem>(memory: &mut M, at: u32)
    requires heap { HasHeap (M.rank_of memory.old) (M.bytes_of memory.old) }
    requires low { heap_start ≤ at }
    requires high { at + 8 ≤ stack_start }
    ensures { HasHeap (M.rank_of memory.new) (M.bytes_of memory.new) }
{
    let _rank = memory.rank();
    memory.set_raw(at, Width::Eight, u64::MAX);
    other_bytes_tell_nothing();
}

/// A number of the rank's bytes, by its offset in the range.
fn show_raw<M: Mem>(memory: &M, out: &mut String, line: &str) -> Result<(), AllocError> {
    let (Some(at), Some(width)) = (u32_at(line, 1), width_at(line, 2)) else {
        return no_case(out);
    };
    if !is_within(at, width) {
        return no_case(out);
    }
    write!(out, "{:#x}", memory.raw(at, width))
}

/// Makes calls whose kinds and numbers are drawn by a generator, and tells how many were answered as the plain list of
/// blocks says, and how many blocks live then.
fn show_wild<M: Mem>(
    memory: &mut M,
    blocks: &mut Vec<Block>,
    out: &mut String,
    count: u64,
) -> Result<(), AllocError>
    requires { HasHeap (M.rank_of memory.old) (M.bytes_of memory.old) }
    ensures { HasHeap (M.rank_of memory.new) (M.bytes_of memory.new) }
{
    let mut state = 1u64;
    let mut same = 0u32;
    for _call in 0..count.min(9999) {
        state = state
            .wrapping_mul(6_364_136_223_846_793_005)
            .wrapping_add(1_442_695_040_888_963_407);
        let is_same = if state & 0x1_0000_0000 == 0 {
            takes_as_listed(memory, blocks, (state >> 40) % 200)?
        } else {
            let heap = heap_of(memory);
            gives_as_listed(memory, blocks, heap.wrapping_add(16 * ((state >> 40) % 96)))
        };
        if is_same {
            same = same.saturating_add(1);
        }
    }
    write!(
        out,
        "{same} calls as first fit says, {} blocks live",
        blocks.len()
    )
}

/// Takes a block, and says whether that is the plain first fit.
fn takes_as_listed<M: Mem>(
    memory: &mut M,
    blocks: &mut Vec<Block>,
    size: u64,
) -> Result<bool, AllocError>
    requires { HasHeap (M.rank_of memory.old) (M.bytes_of memory.old) }
    ensures { HasHeap (M.rank_of memory.new) (M.bytes_of memory.new) }
{
    let (address, is_first_fit) = taken(memory, blocks.as_slice(), size);
    note(blocks, address, size)?;
    Ok(is_first_fit)
}

/// Gives a block back, and says whether that went just where the list has it.
fn gives_as_listed<M: Mem>(memory: &mut M, blocks: &mut Vec<Block>, address: u64) -> bool
    requires { HasHeap (M.rank_of memory.old) (M.bytes_of memory.old) }
    ensures { HasHeap (M.rank_of memory.new) (M.bytes_of memory.new) }
{
    let is_given = give(memory, address).is_ok();
    let is_listed = blocks.iter().any(|block| block.address == address);
    blocks.retain(|block| block.address != address);
    is_given == is_listed
}
