//! Blocks of a rank's heap are taken and given back.
ghost use Rattle.std.specs.Prelude.{IfOk};
ghost use Rattle.rank_range.specs.Nodes.{HasHeap};

use crate::failed::Failed;
use am_base::RankId;
use isomalloc::{give, setup, take};
use rank_range::{FlatMem, HEAP_START, Mem, base};
use std::alloc::{AllocError, Global};

/// The order in which blocks are taken and given back.
#[derive(Clone, Copy)]
pub enum Pattern {
    /// Blocks of 16 bytes are taken, and then given back in the same order.
    Fill,
    /// Blocks of 64 bytes are taken, and then given back, the last one first.
    Sawtooth,
    /// Each of some blocks of up to 512 bytes is taken or given back without a plan.
    Random,
}

impl Pattern {
    pub(crate) fn of(kind: &str) -> Option<Pattern> {
        match kind {
            "fill" => Some(Pattern::Fill),
            "sawtooth" => Some(Pattern::Sawtooth),
            "random" => Some(Pattern::Random),
            _ => None,
        }
    }
}

/// How many calls are made in so many turns with so many blocks: two a block, and one a turn where they have no order. The heap must
/// answer each with a block, or with its return.
pub(crate) fn calls_answered(
    alloc: Global,
    pattern: Pattern,
    blocks: u32,
    turns: u32,
) -> Result<u64, Failed> {
    let mut memory: FlatMem = with_heap(alloc)?;
    let (calls, is_answered) = match pattern {
        Pattern::Fill => (
            2 * blocks as u64,
            is_repeated(&mut memory, turns, blocks, 16, false),
        ),
        Pattern::Sawtooth => (
            2 * blocks as u64,
            is_repeated(&mut memory, turns, blocks, 64, true),
        ),
        Pattern::Random => {
            let mut places = vec![in alloc; 0u64; blocks as usize]?;
            (1, is_random(&mut memory, turns, &mut places))
        }
    };
    if !is_answered {
        return Err(Failed::Refused);
    }
    Ok(calls.saturating_mul(turns as u64))
}

fn with_heap<M: Mem + Drop>(alloc: Global) -> Result<M, AllocError>
    ensures { IfOk result (λ m. HasHeap (M.rank_of m) (M.bytes_of m)) }
{
    let mut memory = M::fresh(alloc, RankId(0))?;
    setup(&mut memory);
    Ok(memory)
}

fn is_repeated<M: Mem>(memory: &mut M, turns: u32, blocks: u32, size: u16, backwards: bool) -> bool
    requires { HasHeap (M.rank_of memory.old) (M.bytes_of memory.old) }
{
    for _turn in 0..turns {
        if !(are_taken(memory, blocks, size) && are_given(memory, blocks, size, backwards)) {
            return false;
        }
    }
    true
}

fn are_taken<M: Mem>(memory: &mut M, blocks: u32, size: u16) -> bool
    requires { HasHeap (M.rank_of memory.old) (M.bytes_of memory.old) }
    ensures { HasHeap (M.rank_of memory.new) (M.bytes_of memory.new) }
{
    for _block in 0..blocks {
        if take(memory, size as u64) == 0 {
            return false;
        }
    }
    true
}

/// Gives back so many blocks of that size, which stand one behind the other at the heap's start.
fn are_given<M: Mem>(memory: &mut M, blocks: u32, size: u16, backwards: bool) -> bool
    requires { HasHeap (M.rank_of memory.old) (M.bytes_of memory.old) }
    ensures { HasHeap (M.rank_of memory.new) (M.bytes_of memory.new) }
{
    let heap = base(memory.rank()) + HEAP_START as u64;
    for turn in 0..blocks {
        let block = if backwards { blocks - 1 - turn } else { turn };
        if give(memory, heap + size as u64 * block as u64).is_err() {
            return false;
        }
    }
    true
}

/// Each turn takes a block or gives it back. The places hold the blocks' addresses, and 0 where there is none.
fn is_random<M: Mem>(memory: &mut M, turns: u32, places: &mut [u64]) -> bool
    requires { HasHeap (M.rank_of memory.old) (M.bytes_of memory.old) }
{
    let mut state = 1u64;
    for _turn in 0..turns {
        state = state
            .wrapping_mul(6_364_136_223_846_793_005)
            .wrapping_add(1_442_695_040_888_963_407);
        let at = (state >> 40) as usize % places.len().max(1);
        let Some(place) = places.get_mut(at) else {
            return false;
        };
        match exchanged(memory, *place, (state >> 48) % 513) {
            Some(block) => *place = block,
            None => return false,
        }
    }
    true
}

/// Gives the block at the address back, or takes one where it is 0: the address that stands there then, if that went.
fn exchanged<M: Mem>(memory: &mut M, address: u64, size: u64) -> Option<u64>
    requires { HasHeap (M.rank_of memory.old) (M.bytes_of memory.old) }
    ensures { HasHeap (M.rank_of memory.new) (M.bytes_of memory.new) }
{
    if address != 0 {
        return match give(memory, address) {
            Ok(()) => Some(0),
            Err(_) => None,
        };
    }
    match take(memory, size) {
        0 => None,
        block => Some(block),
    }
}
