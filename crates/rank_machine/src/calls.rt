//! Calls of the program's functions, and their return.

ghost use Rattle.std.specs.Prelude.{◌≡◌, ◌+◌, ◌-◌, ◌<◌, ◌≤◌, ◌^◌, ◌∷◌, [], ℕ, suc, Some, None, not, if◌then◌else◌, nat_le, nat_lt, length, reverse, take, drop};
ghost use Rattle.rank_range.specs.Layout.{range_bytes, stack_start};
ghost use Rattle.rank_range.specs.Kinds.{value_of};
ghost use Rattle.rank_range.specs.Areas.{memory_of};
ghost use Rattle.rank_range.specs.declared.kinds.Kind.TheVariants.{Int};
ghost use Rattle.vm_code.specs.declared.code.Code.{Code};
ghost use Rattle.vm_code.specs.declared.instr.Instr.TheVariants as Instr;
ghost use Rattle.vm_code.specs.Memory.{with_frame, with_arguments, address_of, stored, written_or_kept, cut_to};
ghost use Rattle.vm_code.specs.Machine.{act, operand_limit};
ghost use Rattle.rank_machine.specs.View.{Tally, record_place, frame_at, work_at, config_of, frames_of};
ghost use Rattle.rank_machine.specs.Steps.{Kept, shown, shown_by};

use crate::access::store;
use crate::halt::Halt;
use crate::records::{CALL_LIMIT, finish_of, put_back, take_out};
use crate::work::Work;
use am_base::TrapCause;
use rank_range::{Mem, RANGE_BYTES, STACK_START, base};
use vm_code::{Code, Function, Parameter};

/// Calls the function with the topmost words as its arguments. The tick is taken.
pub fn call<M: Mem>(
    work: &mut Work,
    memory: &mut M,
    code: &Code,
    function: u32,
    count: u64,
) -> Option<Halt>
    requires place { work.old.place + 1 < 2 ^ 64 }
    requires number { work.old.number < 256 }
    ensures step { (tally : Tally) → shown_by code.now result (config_of work.new (M.rank_of memory.old) (M.top_of memory.new) (M.bytes_of memory.new) (record tally { ticks = tally.ticks + 1 })) ≡ shown (act code.now (Some (Instr.Call function count)) (config_of work.old (M.rank_of memory.old) (M.top_of memory.old) (M.bytes_of memory.old) (record tally { left = suc tally.left }))) }
    ensures kept { Kept (M.rank_of memory.old) (M.rank_of memory.new) (M.bytes_of memory.old) (M.bytes_of memory.new) (M.marks_of memory.old) (M.marks_of memory.new) }
{
    if count > work.operands.len() as u64 {
        return Some(Halt::Lost);
    }
    let Some(callee) = code.functions.as_slice().get(function as usize) else {
        return Some(Halt::Lost);
    };
    if work.number + 1 >= CALL_LIMIT {
        return Some(Halt::Trapped(TrapCause::CallDepth));
    }
    let start = memory.top();
    if !fits(start, callee.frame) {
        return Some(Halt::Trapped(TrapCause::DataStack));
    }
    go_in(work, memory, callee, start, count as usize);
    None
}

/// Puts the call into its record, and begins the function's.
fn go_in<M: Mem>(work: &mut Work, memory: &mut M, callee: &Function, start: u32, count: usize)
    requires place { work.old.place + 1 < 2 ^ 64 }
    requires number { work.old.number + 1 < 256 }
    requires few { count ≤ length work.old.operands }
    requires here { start ≡ M.top_of memory.old }
    requires room { start + callee.now.frame ≤ range_bytes }
    ensures work { work.new ≡ record { place = callee.now.place; back = work.old.place + 1; start = start; operands = []; number = work.old.number + 1 } }
    ensures memory { memory_of (M.rank_of memory.old) (start + callee.now.frame) (M.bytes_of memory.new) ≡ with_arguments callee.now.parameters (reverse (take count work.old.operands)) start (with_frame (memory_of (M.rank_of memory.old) (M.top_of memory.old) (M.bytes_of memory.old)) callee.now.frame) }
    ensures callers { frames_of (M.bytes_of memory.new) (start + callee.now.frame) (work.old.number + 1) ≡ record { back = work.old.back; start = work.old.start; finish = start; operands = drop count work.old.operands } ∷ frames_of (M.bytes_of memory.old) start work.old.number }
    ensures kept { Kept (M.rank_of memory.old) (M.rank_of memory.new) (M.bytes_of memory.old) (M.bytes_of memory.new) (M.marks_of memory.old) (M.marks_of memory.new) }
    ensures stack { M.top_of memory.new ≡ start + callee.now.frame }
{
    let _here = memory.top();
    put_back(memory, work, count);
    enter(memory, callee, start, work.operands.top(count));
    work.operands.clear();
    work.back = work.place + 1;
    work.place = u64::from(callee.place);
    work.start = start as u64;
    work.number += 1;
}

/// Whether a frame of so many bytes fits above the top.
pub fn fits(top: u32, frame: u64) -> bool
    requires { top ≤ range_bytes }
    ensures { nat_lt range_bytes (top + frame) ≡ not result }
{
    frame <= (RANGE_BYTES - top) as u64
}

/// Puts the function's frame on top of the data stack, zero but for its arguments.
pub fn enter<M: Mem>(memory: &mut M, callee: &Function, start: u32, words: &[u64])
    requires here { start ≡ M.top_of memory.old }
    requires room { start + callee.now.frame ≤ range_bytes }
    ensures value { memory_of (M.rank_of memory.old) (start + callee.now.frame) (M.bytes_of memory.new) ≡ with_arguments callee.now.parameters words.now start (with_frame (memory_of (M.rank_of memory.old) (M.top_of memory.old) (M.bytes_of memory.old)) callee.now.frame) }
    ensures frames { (limit k : ℕ) → k ≤ 256 → frames_of (M.bytes_of memory.new) limit k ≡ frames_of (M.bytes_of memory.old) limit k }
    ensures kept { Kept (M.rank_of memory.old) (M.rank_of memory.new) (M.bytes_of memory.old) (M.bytes_of memory.new) (M.marks_of memory.old) (M.marks_of memory.new) }
    ensures stack { M.top_of memory.new ≡ start + callee.now.frame }
{
    push_frame(memory, start, callee.frame as u32);
    put_arguments(memory, callee.parameters.as_slice(), words, start);
}

/// Puts a frame of so many bytes on top of the data stack, all of them zero.
fn push_frame<M: Mem>(memory: &mut M, top: u32, size: u32)
    requires here { top ≡ M.top_of memory.old }
    requires room { top + size ≤ range_bytes }
    ensures value { memory_of (M.rank_of memory.old) (top + size) (M.bytes_of memory.new) ≡ with_frame (memory_of (M.rank_of memory.old) (M.top_of memory.old) (M.bytes_of memory.old)) size }
    ensures frames { (limit k : ℕ) → k ≤ 256 → frames_of (M.bytes_of memory.new) limit k ≡ frames_of (M.bytes_of memory.old) limit k }
    ensures kept { Kept (M.rank_of memory.old) (M.rank_of memory.new) (M.bytes_of memory.old) (M.bytes_of memory.new) (M.marks_of memory.old) (M.marks_of memory.new) }
    ensures stack { M.top_of memory.new ≡ top + size }
{
    let _top = memory.top();
    memory.set_top(top + size);
    let a = base(memory.rank()) + top as u64;
    let _done = memory.fill(a, size as u64, 0);
}

/// Stores each argument as its parameter, in the frame that begins at this place.
fn put_arguments<M: Mem>(memory: &mut M, parameters: &[Parameter], words: &[u64], start: u32)
    ensures value { memory_of (M.rank_of memory.old) (M.top_of memory.old) (M.bytes_of memory.new) ≡ with_arguments parameters.now words.now start (memory_of (M.rank_of memory.old) (M.top_of memory.old) (M.bytes_of memory.old)) }
    ensures frames { (limit k : ℕ) → k ≤ 256 → frames_of (M.bytes_of memory.new) limit k ≡ frames_of (M.bytes_of memory.old) limit k }
    ensures kept { Kept (M.rank_of memory.old) (M.rank_of memory.new) (M.bytes_of memory.old) (M.bytes_of memory.new) (M.marks_of memory.old) (M.marks_of memory.new) }
    ensures stack { M.top_of memory.new ≡ M.top_of memory.old }
{
    let mut i = 0;
    while i < parameters.len() && i < words.len() {
        put_argument(memory, parameters[i], words[i], start);
        i += 1;
    }
}

fn put_argument<M: Mem>(memory: &mut M, parameter: Parameter, word: u64, start: u32)
    ensures value { memory_of (M.rank_of memory.old) (M.top_of memory.old) (M.bytes_of memory.new) ≡ written_or_kept (stored (memory_of (M.rank_of memory.old) (M.top_of memory.old) (M.bytes_of memory.old)) parameter.kind (address_of (memory_of (M.rank_of memory.old) (M.top_of memory.old) (M.bytes_of memory.old)) (start + parameter.offset)) word) (memory_of (M.rank_of memory.old) (M.top_of memory.old) (M.bytes_of memory.old)) }
    ensures frames { (limit k : ℕ) → k ≤ 256 → frames_of (M.bytes_of memory.new) limit k ≡ frames_of (M.bytes_of memory.old) limit k }
    ensures kept { Kept (M.rank_of memory.old) (M.rank_of memory.new) (M.bytes_of memory.old) (M.bytes_of memory.new) (M.marks_of memory.old) (M.marks_of memory.new) }
    ensures stack { M.top_of memory.new ≡ M.top_of memory.old }
{
    let frame = base(memory.rank()) + start as u64;
    let _done = store(
        memory,
        parameter.kind,
        frame.wrapping_add(parameter.offset),
        word,
    );
}

/// Leaves the function: its frame is gone, and its result is an operand of the call before it.
pub fn leave<M: Mem>(work: &mut Work, memory: &mut M) -> Option<Halt>
    requires { work.old.number < 256 }
    ensures step { (code : Code) (tally : Tally) → shown_by code result (config_of work.new (M.rank_of memory.old) (M.top_of memory.new) (M.bytes_of memory.new) tally) ≡ shown (act code (Some Instr.Return) (config_of work.old (M.rank_of memory.old) (M.top_of memory.old) (M.bytes_of memory.old) tally)) }
    ensures bytes { M.bytes_of memory.new ≡ M.bytes_of memory.old }
    ensures marks { M.marks_of memory.new ≡ M.marks_of memory.old }
    ensures owner { M.rank_of memory.new ≡ M.rank_of memory.old }
{
    let Some(word) = work.operands.pop() else {
        return Some(Halt::Lost);
    };
    let _top = memory.top();
    if work.number == 0 {
        memory.set_top(STACK_START);
        return Some(Halt::Returned(int_of(word)));
    }
    go_back(work, memory);
    give_result(work, word)
}

/// Goes back to the call before, and takes the frame away.
fn go_back<M: Mem>(work: &mut Work, memory: &mut M)
    requires some { 0 < work.old.number }
    requires below { work.old.number < 256 }
    ensures work { work.new ≡ work_at work.old.back (M.top_of memory.old) (M.bytes_of memory.old) (work.old.number - 1) }
    ensures stack { M.top_of memory.new ≡ (frame_at (M.bytes_of memory.old) (M.top_of memory.old) (record_place (work.old.number - 1))).finish }
    ensures memory { memory_of (M.rank_of memory.old) (M.top_of memory.new) (M.bytes_of memory.old) ≡ cut_to (memory_of (M.rank_of memory.old) (M.top_of memory.old) (M.bytes_of memory.old)) (M.top_of memory.new) }
    ensures bytes { M.bytes_of memory.new ≡ M.bytes_of memory.old }
    ensures marks { M.marks_of memory.new ≡ M.marks_of memory.old }
    ensures owner { M.rank_of memory.new ≡ M.rank_of memory.old }
{
    let number = work.number - 1;
    let finish = finish_of(memory, number);
    work.place = work.back;
    take_out(work, memory, number);
    memory.set_top(finish);
}

/// Puts a result on the operands.
fn give_result(work: &mut Work, word: u64) -> Option<Halt>
    ensures fits { result ≡ (if nat_le (length (word ∷ work.old.operands)) operand_limit then None else Some Halt.Lost) }
    ensures work { work.new ≡ record work.old { operands = if nat_le (length (word ∷ work.old.operands)) operand_limit then word ∷ work.old.operands else work.old.operands } }
{
    if work.operands.push(word) {
        None
    } else {
        Some(Halt::Lost)
    }
}

/// The `int` of a word.
#[tactic(auto, unfolding(rank_range::specs::Kinds::reduced))]
pub fn int_of(word: u64) -> i32
    ensures { result ≡ value_of Int word }
{
    ((word % 0x1_0000_0000) as u32).cast_signed()
}
