//! One instruction.

ghost use Rattle.std.specs.Prelude.{◌≡◌, ◌+◌, ◌<◌, ◌≤◌, ◌^◌, ℕ, suc, List, Some, true, false, IfOk, OnErr};
ghost use Rattle.rank_range.specs.Nodes.{HasHeap};
ghost use Rattle.rank_range.specs.Areas.{memory_of};
ghost use Rattle.vm_code.specs.declared.code.Code.{Code};
ghost use Rattle.vm_code.specs.declared.instr.Instr.TheVariants as instr;
ghost use Rattle.vm_code.specs.Bounded.{is_tick};
ghost use Rattle.vm_code.specs.Machine.{act};
ghost use Rattle.rank_machine.specs.View.{Tally, config_of, frames_of};
ghost use Rattle.rank_machine.specs.Steps.{Kept, Advanced, is_call_of_mpi, shown, shown_by};

use crate::calls::{call, leave};
use crate::halt::Halt;
use crate::library::library;
use crate::plain::{binary, duplicate, extend, go_on, jump, jump_if_not, jump_if_zero, pop, unary};
use crate::printer::Printer;
use crate::reaching::{copy_bytes, global, load_number, local, store_number, zero_bytes};
use crate::work::Work;
use am_base::LibCall;
use rank_range::Mem;
use std::alloc::{AllocError, Global};
use vm_code::{Code, Instr};

/// Does one instruction that is no call of MPI. A tick point has its tick. Where the host has no memory for what it prints,
/// nothing changes.
pub fn step<M: Mem>(
    alloc: Global,
    work: &mut Work,
    memory: &mut M,
    printer: &mut Printer,
    code: &Code,
    instr: Instr,
) -> Result<Option<Halt>, AllocError>
    requires mpi { is_call_of_mpi instr ≡ false }
    requires place { work.old.place + 1 < 2 ^ 64 }
    requires number { work.old.number < 256 }
    requires heap { HasHeap (M.rank_of memory.old) (M.bytes_of memory.old) }
    ensures moved { IfOk result (λ halt. Advanced code.now instr halt work.old work.new (M.rank_of memory.old) (M.top_of memory.old) (M.top_of memory.new) (M.bytes_of memory.old) (M.bytes_of memory.new) printer.old printer.new) }
    ensures work { OnErr result (work.new ≡ work.old) }
    ensures memory { OnErr result (memory_of (M.rank_of memory.old) (M.top_of memory.old) (M.bytes_of memory.new) ≡ memory_of (M.rank_of memory.old) (M.top_of memory.old) (M.bytes_of memory.old)) }
    ensures frames { OnErr result ((limit k : ℕ) → k ≤ 256 → frames_of (M.bytes_of memory.new) limit k ≡ frames_of (M.bytes_of memory.old) limit k) }
    ensures stack { OnErr result (M.top_of memory.new ≡ M.top_of memory.old) }
    ensures quiet { OnErr result (printer.new ≡ printer.old) }
    ensures tick { OnErr result (is_tick (Some instr) ≡ true) }
    ensures kept { Kept (M.rank_of memory.old) (M.rank_of memory.new) (M.bytes_of memory.old) (M.bytes_of memory.new) (M.marks_of memory.old) (M.marks_of memory.new) }
{
    match instr {
        Instr::Tick { unit: _, line: _ } => Ok(tick(work)),
        Instr::Call {
            function,
            arguments,
        } => Ok(call(work, memory, code, function, arguments)),
        Instr::Library { call, arguments } => {
            library_step(alloc, work, memory, printer, call, arguments)
        }
        _ => Ok(step_between(work, memory, instr)),
    }
}

#[tactic(auto, unfolding(vm_code::specs::Machine::act))]
fn tick(work: &mut Work) -> Option<Halt>
    requires { work.old.place + 1 < 2 ^ 64 }
    ensures { (code : Code) (unit line rank top : ℕ) (bytes : List ℕ) (tally : Tally) → shown_by code result (config_of work.new rank top bytes (record tally { ticks = tally.ticks + 1 })) ≡ shown (act code (Some (instr.Tick unit line)) (config_of work.old rank top bytes (record tally { left = suc tally.left }))) }
{
    let _few = work.operands.len();
    work.place += 1;
    None
}

fn library_step<M: Mem>(
    alloc: Global,
    work: &mut Work,
    memory: &mut M,
    printer: &mut Printer,
    call: LibCall,
    count: u64,
) -> Result<Option<Halt>, AllocError>
    requires place { work.old.place + 1 < 2 ^ 64 }
    requires number { work.old.number < 256 }
    requires heap { HasHeap (M.rank_of memory.old) (M.bytes_of memory.old) }
    ensures moved { IfOk result (λ halt. (code : Code) → Advanced code (instr.Library call count) halt work.old work.new (M.rank_of memory.old) (M.top_of memory.old) (M.top_of memory.new) (M.bytes_of memory.old) (M.bytes_of memory.new) printer.old printer.new) }
    ensures work { OnErr result (work.new ≡ work.old) }
    ensures memory { OnErr result (memory_of (M.rank_of memory.old) (M.top_of memory.old) (M.bytes_of memory.new) ≡ memory_of (M.rank_of memory.old) (M.top_of memory.old) (M.bytes_of memory.old)) }
    ensures frames { OnErr result ((limit k : ℕ) → k ≤ 256 → frames_of (M.bytes_of memory.new) limit k ≡ frames_of (M.bytes_of memory.old) limit k) }
    ensures stack { OnErr result (M.top_of memory.new ≡ M.top_of memory.old) }
    ensures quiet { OnErr result (printer.new ≡ printer.old) }
    ensures kept { Kept (M.rank_of memory.old) (M.rank_of memory.new) (M.bytes_of memory.old) (M.bytes_of memory.new) (M.marks_of memory.old) (M.marks_of memory.new) }
{
    if count > work.operands.len() as u64 {
        return Ok(Some(Halt::Lost));
    }
    library(alloc, work, memory, printer, call, count as usize)
}

/// Does one instruction that is no tick point.
#[tactic(auto, using(crate::proofs::CallLemmas::kept_none, crate::proofs::AccessLemmas::kept_same), unfolding(vm_code::specs::Machine::act))]
fn step_between<M: Mem>(work: &mut Work, memory: &mut M, instr: Instr) -> Option<Halt>
    requires between { is_tick (Some instr) ≡ false }
    requires place { work.old.place + 1 < 2 ^ 64 }
    requires number { work.old.number < 256 }
    ensures step { (code : Code) (tally : Tally) → shown_by code result (config_of work.new (M.rank_of memory.old) (M.top_of memory.new) (M.bytes_of memory.new) tally) ≡ shown (act code (Some instr) (config_of work.old (M.rank_of memory.old) (M.top_of memory.old) (M.bytes_of memory.old) tally)) }
    ensures kept { Kept (M.rank_of memory.old) (M.rank_of memory.new) (M.bytes_of memory.old) (M.bytes_of memory.new) (M.marks_of memory.old) (M.marks_of memory.new) }
{
    match instr {
        Instr::Push(word) => go_on(work, word),
        Instr::Pop => pop(work),
        Instr::Dup => duplicate(work),
        Instr::Local(offset) => local(work, memory, offset),
        Instr::Global(offset) => global(work, memory, offset),
        Instr::Load(kind) => load_number(work, memory, kind),
        Instr::Store(kind) => store_number(work, memory, kind),
        Instr::Copy(count) => copy_bytes(work, memory, count),
        Instr::Zero(count) => zero_bytes(work, memory, count),
        Instr::Binary { op, kind } => binary(work, op, kind),
        Instr::Unary { op, kind } => unary(work, op, kind),
        Instr::Extend(kind) => extend(work, kind),
        Instr::Jump(place) => jump(work, place),
        Instr::JumpIfZero(place) => jump_if_zero(work, place),
        Instr::JumpIfNot(place) => jump_if_not(work, place),
        Instr::Return => leave(work, memory),
        _ => unreachable!(),
    }
}
