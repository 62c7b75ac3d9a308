//! The records of calls in the control stack.

ghost use Rattle.std.specs.Prelude.{◌≡◌, ◌+◌, ◌*◌, ◌<◌, ◌≤◌, ℕ, min, length, reverse, drop};
ghost use Rattle.rank_range.specs.Layout.{range_bytes, stack_start};
ghost use Rattle.rank_range.specs.Numbers.{number_at};
ghost use Rattle.rank_range.specs.Areas.{memory_of};
ghost use Rattle.rank_range.specs.Parts.{StayBeside, Keeps};
ghost use Rattle.rank_machine.specs.View.{record_place as place_of_record, words_at, in_stack as seen_in_stack, frame_at, work_at};
ghost use Rattle.rank_machine.specs.Steps.{Kept};
ghost use Rattle.rank_machine.specs.Records.{HasHead};

use crate::operands::{OPERAND_LIMIT, Operands};
use crate::work::Work;
use rank_range::{CONTROL_START, Mem, STACK_START, Width};

/// How many bytes a record has.
const RECORD_BYTES: u32 = 288;

/// How many calls may be under way.
pub const CALL_LIMIT: u16 = 256;

/// The offset of a record.
fn record_place(number: u16) -> u32
    requires { number < 256 }
    ensures { result ≡ place_of_record number }
{
    CONTROL_START + RECORD_BYTES * u32::from(number)
}

/// How many operands a record has, at most 32.
fn few(count: u64) -> usize
    ensures { result ≡ min 32 count }
{
    if count < OPERAND_LIMIT as u64 {
        count as usize
    } else {
        OPERAND_LIMIT
    }
}

/// Takes the call out of its record.
#[tactic(auto, unfolding(crate::specs::View::frame_at))]
pub fn take_out<M: Mem>(work: &mut Work, memory: &M, number: u16)
    requires { number < 256 }
    ensures { (top : ℕ) → work.new ≡ work_at work.old.place top (M.bytes_of memory.now) number }
{
    let at = record_place(number);
    work.back = memory.raw(at, Width::Eight);
    work.start = memory.raw(at + 8, Width::Eight);
    let count = few(memory.raw(at + 24, Width::Eight));
    read_operands(&mut work.operands, memory, at + 32, count);
    work.number = number;
}

fn read_operands<M: Mem>(operands: &mut Operands, memory: &M, at: u32, count: usize)
    requires inside { at + 256 ≤ range_bytes }
    requires few { count ≤ 32 }
    ensures { operands.new ≡ words_at (M.bytes_of memory.now) at count }
{
    operands.clear();
    for i in 0..count {
        let _fits = operands.push(memory.raw(at + 8 * i as u32, Width::Eight));
    }
}

/// Where the frame of a record ends, as a place in the data stack below the top.
#[tactic(auto, unfolding(crate::specs::View::frame_at))]
pub fn finish_of<M: Mem>(memory: &M, number: u16) -> u32
    requires { number < 256 }
    ensures value { (frame_at (M.bytes_of memory.now) (M.top_of memory.now) (place_of_record number)).finish ≡ result }
    ensures above { stack_start ≤ result }
    ensures under { result ≤ M.top_of memory.now }
    ensures below { result ≤ range_bytes }
{
    in_stack(
        memory.top(),
        memory.raw(record_place(number) + 16, Width::Eight),
    )
}

fn in_stack(top: u32, place: u64) -> u32
    requires { stack_start ≤ top }
    ensures value { seen_in_stack top place ≡ result }
    ensures above { stack_start ≤ result }
    ensures below { result ≤ top }
{
    if place < STACK_START as u64 {
        STACK_START
    } else if place < top as u64 {
        place as u32
    } else {
        top
    }
}

/// Puts the call into its record without its topmost operands, and with the top as the end of its frame.
pub fn put_back<M: Mem>(memory: &mut M, work: &Work, taken: usize)
    requires number { work.now.number < 256 }
    requires few { taken ≤ length work.now.operands }
    ensures frame { (limit : ℕ) → frame_at (M.bytes_of memory.new) limit (place_of_record work.now.number) ≡ record { back = work.now.back; start = work.now.start; finish = seen_in_stack limit (M.top_of memory.old); operands = drop taken work.now.operands } }
    ensures memory { (rank top : ℕ) → memory_of rank top (M.bytes_of memory.new) ≡ memory_of rank top (M.bytes_of memory.old) }
    ensures finish { number_at (M.bytes_of memory.new) (place_of_record work.now.number + 16) 8 ≡ M.top_of memory.old }
    ensures beside { StayBeside (M.bytes_of memory.old) (M.bytes_of memory.new) (place_of_record work.now.number) (place_of_record work.now.number + 288) }
    ensures kept { Kept (M.rank_of memory.old) (M.rank_of memory.new) (M.bytes_of memory.old) (M.bytes_of memory.new) (M.marks_of memory.old) (M.marks_of memory.new) }
    ensures stack { M.top_of memory.new ≡ M.top_of memory.old }
{
    let at = record_place(work.number);
    let words = work.operands.below(taken);
    let finish = memory.top() as u64;
    let head = Head {
        back: work.back,
        start: work.start,
        finish,
        count: words.len() as u64,
    };
    write_head(memory, at, head);
    write_words(memory, at + 32, words);
}

/// The numbers of a record before its operands.
#[derive(Clone, Copy)]
pub struct Head {
    pub back: u64,
    pub start: u64,
    pub finish: u64,
    pub count: u64,
}

fn write_head<M: Mem>(memory: &mut M, at: u32, head: Head)
    requires inside { at + 288 ≤ range_bytes }
    requires whole { length (M.bytes_of memory.old) ≡ range_bytes }
    ensures head { HasHead (M.bytes_of memory.new) at head }
    ensures beside { StayBeside (M.bytes_of memory.old) (M.bytes_of memory.new) at (at + 32) }
    ensures kept { Keeps (M.rank_of memory.old) (M.rank_of memory.new) (M.top_of memory.old) (M.top_of memory.new) (M.bytes_of memory.old) (M.bytes_of memory.new) (M.marks_of memory.old) (M.marks_of memory.new) }
{
    memory.set_raw(at, Width::Eight, head.back);
    memory.set_raw(at + 8, Width::Eight, head.start);
    memory.set_raw(at + 16, Width::Eight, head.finish);
    memory.set_raw(at + 24, Width::Eight, head.count);
}

fn write_words<M: Mem>(memory: &mut M, at: u32, words: &[u64])
    requires inside { at + 256 ≤ range_bytes }
    requires few { length words.now ≤ 32 }
    requires whole { length (M.bytes_of memory.old) ≡ range_bytes }
    ensures words { words_at (M.bytes_of memory.new) at (length words.now) ≡ reverse words.now }
    ensures beside { StayBeside (M.bytes_of memory.old) (M.bytes_of memory.new) at (at + 256) }
    ensures kept { Keeps (M.rank_of memory.old) (M.rank_of memory.new) (M.top_of memory.old) (M.top_of memory.new) (M.bytes_of memory.old) (M.bytes_of memory.new) (M.marks_of memory.old) (M.marks_of memory.new) }
{
    for i in 0..words.len() {
        memory.set_raw(at + 8 * i as u32, Width::Eight, words[i]);
    }
}
