//! Calls of the library: those of the heap, `exit`, and those that print or go over a rank's memory.

ghost use Rattle.std.specs.Prelude.{◌≡◌, ◌+◌, ◌*◌, ◌<◌, ◌≤◌, ◌^◌, ◌∷◌, [], ℕ, List, Some, IsTrue, if◌then◌else◌, nat_eq, nat_lt, length, reverse, take, drop, slice_index, IfOk, OnOk, OnErr};
ghost use Rattle.rank_range.specs.Nodes.{HasHeap};
ghost use Rattle.rank_range.specs.Areas.{memory_of, take_block, give_block};
ghost use Rattle.rank_range.specs.Output.{text_limit, with_text};
ghost use Rattle.c_lib.specs.Answers.{is_made};
ghost use Rattle.am_base.specs.Calls.{lib_parameters};
ghost use Rattle.am_base.specs.declared.calls.LibCall.TheVariants as lib;
ghost use Rattle.vm_code.specs.declared.code.Code.{Code};
ghost use Rattle.vm_code.specs.Machine.{go_on as goes_on, library_done};
ghost use Rattle.vm_code.specs.Library.{library_does};
ghost use Rattle.rank_machine.specs.View.{Tally, config_of, frames_of};
ghost use Rattle.rank_machine.specs.Steps.{Kept, CallsLibrary, Tells, shown, shown_by, where_ok};

use crate::calls::int_of;
use crate::halt::Halt;
use crate::plain::go_on;
use crate::printer::{Printer, TEXT_LIMIT};
use crate::work::Work;
use am_base::{Bytes, LibCall, TrapCause};
use isomalloc::BadFree;
use rank_range::{LibOut, LibStop, Mem};
use std::alloc::{AllocError, Global};

/// Calls a function of the library with the topmost words. Where the host has no memory for it, nothing changes.
pub fn library<M: Mem>(
    alloc: Global,
    work: &mut Work,
    memory: &mut M,
    printer: &mut Printer,
    call: LibCall,
    count: usize,
) -> Result<Option<Halt>, AllocError>
    requires few { count ≤ length work.old.operands }
    requires place { work.old.place + 1 < 2 ^ 64 }
    requires number { work.old.number < 256 }
    requires heap { HasHeap (M.rank_of memory.old) (M.bytes_of memory.old) }
    ensures done { IfOk result (λ halt. CallsLibrary call (reverse (take count work.old.operands)) (drop count work.old.operands) halt work.old work.new (M.rank_of memory.old) (M.top_of memory.old) (M.bytes_of memory.old) (M.bytes_of memory.new) printer.old printer.new) }
    ensures work { OnErr result (work.new ≡ work.old) }
    ensures memory { OnErr result (memory_of (M.rank_of memory.old) (M.top_of memory.old) (M.bytes_of memory.new) ≡ memory_of (M.rank_of memory.old) (M.top_of memory.old) (M.bytes_of memory.old)) }
    ensures quiet { OnErr result (printer.new ≡ printer.old) }
    ensures frames { (limit k : ℕ) → k ≤ 256 → frames_of (M.bytes_of memory.new) limit k ≡ frames_of (M.bytes_of memory.old) limit k }
    ensures kept { Kept (M.rank_of memory.old) (M.rank_of memory.new) (M.bytes_of memory.old) (M.bytes_of memory.new) (M.marks_of memory.old) (M.marks_of memory.new) }
    ensures stack { M.top_of memory.new ≡ M.top_of memory.old }
{
    match call {
        LibCall::Malloc => Ok(malloc(work, memory, printer, count)),
        LibCall::Calloc => Ok(calloc(work, memory, printer, count)),
        LibCall::Free => Ok(free(work, memory, printer, count)),
        LibCall::Exit => Ok(exit(work, memory, printer, count)),
        _ => other_call(alloc, work, memory, printer, call, count),
    }
}

/// The argument of that number, or 0 where there is none.
fn argument(words: &[u64], number: usize) -> u64
    ensures { result ≡ slice_index words.now number }
{
    if number < words.len() {
        words[number]
    } else {
        0
    }
}

/// Takes the arguments away, and puts the value in their place.
fn give_value(work: &mut Work, count: usize, value: u64) -> Option<Halt>
    requires few { count ≤ length work.old.operands }
    requires place { work.old.place + 1 < 2 ^ 64 }
    ensures { (code : Code) (rank top : ℕ) (bytes : List ℕ) (tally : Tally) → shown_by code result (config_of work.new rank top bytes tally) ≡ shown (goes_on (value ∷ drop count work.old.operands) (config_of work.old rank top bytes tally)) }
{
    work.operands.cut(count);
    go_on(work, value)
}

/// A block of that size, or 0 where there is no room.
fn take_size<M: Mem>(memory: &mut M, size: u64) -> u64
    requires { HasHeap (M.rank_of memory.old) (M.bytes_of memory.old) }
    ensures value { take_block size (memory_of (M.rank_of memory.old) (M.top_of memory.old) (M.bytes_of memory.old)) ≡ (result, memory_of (M.rank_of memory.old) (M.top_of memory.old) (M.bytes_of memory.new)) }
    ensures frames { (limit k : ℕ) → k ≤ 256 → frames_of (M.bytes_of memory.new) limit k ≡ frames_of (M.bytes_of memory.old) limit k }
    ensures kept { Kept (M.rank_of memory.old) (M.rank_of memory.new) (M.bytes_of memory.old) (M.bytes_of memory.new) (M.marks_of memory.old) (M.marks_of memory.new) }
    ensures stack { M.top_of memory.new ≡ M.top_of memory.old }
{
    let _top = memory.top();
    isomalloc::take(memory, size)
}

/// A block for so many elements of that size, or 0 where the product doesn't fit or there is no room.
fn take_product<M: Mem>(memory: &mut M, count: u64, size: u64) -> u64
    requires { HasHeap (M.rank_of memory.old) (M.bytes_of memory.old) }
    ensures value { (if nat_lt (count * size) (2 ^ 64) then take_block (count * size) (memory_of (M.rank_of memory.old) (M.top_of memory.old) (M.bytes_of memory.old)) else (0, memory_of (M.rank_of memory.old) (M.top_of memory.old) (M.bytes_of memory.old))) ≡ (result, memory_of (M.rank_of memory.old) (M.top_of memory.old) (M.bytes_of memory.new)) }
    ensures frames { (limit k : ℕ) → k ≤ 256 → frames_of (M.bytes_of memory.new) limit k ≡ frames_of (M.bytes_of memory.old) limit k }
    ensures kept { Kept (M.rank_of memory.old) (M.rank_of memory.new) (M.bytes_of memory.old) (M.bytes_of memory.new) (M.marks_of memory.old) (M.marks_of memory.new) }
    ensures stack { M.top_of memory.new ≡ M.top_of memory.old }
{
    match count.checked_mul(size) {
        Some(product) => take_size(memory, product),
        None => 0,
    }
}

/// Gives a block back. The null pointer is none.
fn give_back<M: Mem>(memory: &mut M, address: u64) -> Result<(), BadFree>
    requires { HasHeap (M.rank_of memory.old) (M.bytes_of memory.old) }
    ensures value { (if nat_eq address 0 then Some (memory_of (M.rank_of memory.old) (M.top_of memory.old) (M.bytes_of memory.old)) else give_block address (memory_of (M.rank_of memory.old) (M.top_of memory.old) (M.bytes_of memory.old))) ≡ where_ok result (memory_of (M.rank_of memory.old) (M.top_of memory.old) (M.bytes_of memory.new)) }
    ensures same { OnErr result (M.bytes_of memory.new ≡ M.bytes_of memory.old) }
    ensures frames { (limit k : ℕ) → k ≤ 256 → frames_of (M.bytes_of memory.new) limit k ≡ frames_of (M.bytes_of memory.old) limit k }
    ensures kept { Kept (M.rank_of memory.old) (M.rank_of memory.new) (M.bytes_of memory.old) (M.bytes_of memory.new) (M.marks_of memory.old) (M.marks_of memory.new) }
    ensures stack { M.top_of memory.new ≡ M.top_of memory.old }
{
    if address == 0 {
        return Ok(());
    }
    isomalloc::give(memory, address)
}

fn malloc<M: Mem>(work: &mut Work, memory: &mut M, printer: &Printer, count: usize) -> Option<Halt>
    requires few { count ≤ length work.old.operands }
    requires place { work.old.place + 1 < 2 ^ 64 }
    requires number { work.old.number < 256 }
    requires heap { HasHeap (M.rank_of memory.old) (M.bytes_of memory.old) }
    ensures done { CallsLibrary lib.Malloc (reverse (take count work.old.operands)) (drop count work.old.operands) result work.old work.new (M.rank_of memory.old) (M.top_of memory.old) (M.bytes_of memory.old) (M.bytes_of memory.new) printer.now printer.now }
    ensures frames { (limit k : ℕ) → k ≤ 256 → frames_of (M.bytes_of memory.new) limit k ≡ frames_of (M.bytes_of memory.old) limit k }
    ensures kept { Kept (M.rank_of memory.old) (M.rank_of memory.new) (M.bytes_of memory.old) (M.bytes_of memory.new) (M.marks_of memory.old) (M.marks_of memory.new) }
    ensures stack { M.top_of memory.new ≡ M.top_of memory.old }
{
    let _printed = printer.printed();
    let size = argument(work.operands.top(count), 0);
    let value = take_size(memory, size);
    give_value(work, count, value)
}

fn calloc<M: Mem>(work: &mut Work, memory: &mut M, printer: &Printer, count: usize) -> Option<Halt>
    requires few { count ≤ length work.old.operands }
    requires place { work.old.place + 1 < 2 ^ 64 }
    requires number { work.old.number < 256 }
    requires heap { HasHeap (M.rank_of memory.old) (M.bytes_of memory.old) }
    ensures done { CallsLibrary lib.Calloc (reverse (take count work.old.operands)) (drop count work.old.operands) result work.old work.new (M.rank_of memory.old) (M.top_of memory.old) (M.bytes_of memory.old) (M.bytes_of memory.new) printer.now printer.now }
    ensures frames { (limit k : ℕ) → k ≤ 256 → frames_of (M.bytes_of memory.new) limit k ≡ frames_of (M.bytes_of memory.old) limit k }
    ensures kept { Kept (M.rank_of memory.old) (M.rank_of memory.new) (M.bytes_of memory.old) (M.bytes_of memory.new) (M.marks_of memory.old) (M.marks_of memory.new) }
    ensures stack { M.top_of memory.new ≡ M.top_of memory.old }
{
    let _printed = printer.printed();
    let words = work.operands.top(count);
    let value = take_product(memory, argument(words, 0), argument(words, 1));
    give_value(work, count, value)
}

fn free<M: Mem>(work: &mut Work, memory: &mut M, printer: &Printer, count: usize) -> Option<Halt>
    requires few { count ≤ length work.old.operands }
    requires place { work.old.place + 1 < 2 ^ 64 }
    requires number { work.old.number < 256 }
    requires heap { HasHeap (M.rank_of memory.old) (M.bytes_of memory.old) }
    ensures done { CallsLibrary lib.Free (reverse (take count work.old.operands)) (drop count work.old.operands) result work.old work.new (M.rank_of memory.old) (M.top_of memory.old) (M.bytes_of memory.old) (M.bytes_of memory.new) printer.now printer.now }
    ensures frames { (limit k : ℕ) → k ≤ 256 → frames_of (M.bytes_of memory.new) limit k ≡ frames_of (M.bytes_of memory.old) limit k }
    ensures kept { Kept (M.rank_of memory.old) (M.rank_of memory.new) (M.bytes_of memory.old) (M.bytes_of memory.new) (M.marks_of memory.old) (M.marks_of memory.new) }
    ensures stack { M.top_of memory.new ≡ M.top_of memory.old }
{
    let _printed = printer.printed();
    let address = argument(work.operands.top(count), 0);
    match give_back(memory, address) {
        Ok(()) => give_value(work, count, 0),
        Err(_) => Some(Halt::Trapped(TrapCause::BadFree)),
    }
}

fn exit<M: Mem>(work: &Work, memory: &M, printer: &Printer, count: usize) -> Option<Halt>
    requires { count ≤ length work.now.operands }
    ensures { CallsLibrary lib.Exit (reverse (take count work.now.operands)) (drop count work.now.operands) result work.now work.now (M.rank_of memory.now) (M.top_of memory.now) (M.bytes_of memory.now) (M.bytes_of memory.now) printer.now printer.now }
{
    let _rank = memory.rank();
    let _printed = printer.printed();
    Some(Halt::Exited(int_of(argument(work.operands.top(count), 0))))
}

fn other_call<M: Mem>(
    alloc: Global,
    work: &mut Work,
    memory: &mut M,
    printer: &mut Printer,
    call: LibCall,
    count: usize,
) -> Result<Option<Halt>, AllocError>
    requires made { IsTrue (is_made call) }
    requires few { count ≤ length work.old.operands }
    requires place { work.old.place + 1 < 2 ^ 64 }
    requires number { work.old.number < 256 }
    ensures done { IfOk result (λ halt. CallsLibrary call (reverse (take count work.old.operands)) (drop count work.old.operands) halt work.old work.new (M.rank_of memory.old) (M.top_of memory.old) (M.bytes_of memory.old) (M.bytes_of memory.new) printer.old printer.new) }
    ensures work { OnErr result (work.new ≡ work.old) }
    ensures memory { OnErr result (memory_of (M.rank_of memory.old) (M.top_of memory.old) (M.bytes_of memory.new) ≡ memory_of (M.rank_of memory.old) (M.top_of memory.old) (M.bytes_of memory.old)) }
    ensures quiet { OnErr result (printer.new ≡ printer.old) }
    ensures frames { (limit k : ℕ) → k ≤ 256 → frames_of (M.bytes_of memory.new) limit k ≡ frames_of (M.bytes_of memory.old) limit k }
    ensures kept { Kept (M.rank_of memory.old) (M.rank_of memory.new) (M.bytes_of memory.old) (M.bytes_of memory.new) (M.marks_of memory.old) (M.marks_of memory.new) }
    ensures stack { M.top_of memory.new ≡ M.top_of memory.old }
{
    match made(alloc, call, work.operands.top(count), memory) {
        Ok(out) => {
            let LibOut { value, text } = out;
            if text.len() > (TEXT_LIMIT - printer.printed()) as usize {
                return Ok(Some(Halt::Trapped(TrapCause::TextLimit)));
            }
            say(alloc, printer, &text)?;
            Ok(give_value(work, count, value))
        }
        Err(LibStop::Trap(cause)) => Ok(Some(Halt::Trapped(cause))),
        Err(LibStop::Memory) => Err(AllocError),
    }
}

/// Prints the text, if it has any.
fn say(alloc: Global, printer: &mut Printer, text: &Bytes) -> Result<(), AllocError>
    requires { printer.old.printed + length text.now ≤ text_limit }
    ensures ok { OnOk result (printer.new ≡ with_text printer.old text.now) }
    ensures err { OnErr result (printer.new ≡ printer.old) }
    ensures some { OnErr result (0 < length text.now) }
{
    if text.is_empty() {
        return Ok(());
    }
    printer.print(alloc, text.as_slice())
}

/// Makes the call. An argument that isn't there is 0.
fn made<M: Mem>(
    alloc: Global,
    call: LibCall,
    words: &[u64],
    memory: &mut M,
) -> Result<LibOut, LibStop>
    requires { IsTrue (is_made call) }
    ensures done { Tells (library_does call words.now (memory_of (M.rank_of memory.old) (M.top_of memory.old) (M.bytes_of memory.old))) (memory_of (M.rank_of memory.old) (M.top_of memory.old) (M.bytes_of memory.new)) result }
    ensures quiet { IfOk result (λ out. 0 < length out.text → memory_of (M.rank_of memory.old) (M.top_of memory.old) (M.bytes_of memory.new) ≡ memory_of (M.rank_of memory.old) (M.top_of memory.old) (M.bytes_of memory.old)) }
    ensures same { OnErr result (M.bytes_of memory.new ≡ M.bytes_of memory.old) }
    ensures frames { (limit k : ℕ) → k ≤ 256 → frames_of (M.bytes_of memory.new) limit k ≡ frames_of (M.bytes_of memory.old) limit k }
    ensures kept { Kept (M.rank_of memory.old) (M.rank_of memory.new) (M.bytes_of memory.old) (M.bytes_of memory.new) (M.marks_of memory.old) (M.marks_of memory.new) }
    ensures stack { M.top_of memory.new ≡ M.top_of memory.old }
{
    let wanted = call.parameters().len();
    if words.len() >= wanted {
        return made_of(alloc, call, words, memory);
    }
    let all = [argument(words, 0), argument(words, 1), argument(words, 2)];
    made_of(alloc, call, &all[..wanted], memory)
}

/// Makes the call, with all its arguments.
fn made_of<M: Mem>(
    alloc: Global,
    call: LibCall,
    words: &[u64],
    memory: &mut M,
) -> Result<LibOut, LibStop>
    requires made { IsTrue (is_made call) }
    requires enough { length (lib_parameters call) ≤ length words.now }
    ensures done { Tells (library_does call words.now (memory_of (M.rank_of memory.old) (M.top_of memory.old) (M.bytes_of memory.old))) (memory_of (M.rank_of memory.old) (M.top_of memory.old) (M.bytes_of memory.new)) result }
    ensures quiet { IfOk result (λ out. 0 < length out.text → memory_of (M.rank_of memory.old) (M.top_of memory.old) (M.bytes_of memory.new) ≡ memory_of (M.rank_of memory.old) (M.top_of memory.old) (M.bytes_of memory.old)) }
    ensures same { OnErr result (M.bytes_of memory.new ≡ M.bytes_of memory.old) }
    ensures frames { (limit k : ℕ) → k ≤ 256 → frames_of (M.bytes_of memory.new) limit k ≡ frames_of (M.bytes_of memory.old) limit k }
    ensures kept { Kept (M.rank_of memory.old) (M.rank_of memory.new) (M.bytes_of memory.old) (M.bytes_of memory.new) (M.marks_of memory.old) (M.marks_of memory.new) }
    ensures stack { M.top_of memory.new ≡ M.top_of memory.old }
{
    c_lib::call(alloc, call, words, memory)
}
