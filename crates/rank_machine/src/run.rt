//! Running the instructions of a call that is under way.

ghost use Rattle.std.specs.Prelude.{◌≡◌, ◌<◌, ◌≤◌, ◌+◌, Some, length};
ghost use Rattle.rank_range.specs.Nodes.{HasHeap};
ghost use Rattle.vm_code.specs.Bounded.{is_tick as is_tick_point};
ghost use Rattle.rank_machine.specs.View.{config_of};
ghost use Rattle.rank_machine.specs.Steps.{Kept, is_call_of_mpi as is_mpi_call};
ghost use Rattle.rank_machine.specs.Runs.{arguments_of as takes, ticks_in, CameToRest, RestsHere};

use crate::halt::{Halt, Rest};
use crate::printer::Printer;
use crate::step::step;
use crate::work::Work;
use rank_range::Mem;
use std::alloc::Global;
use vm_code::{Code, Instr};

/// Runs the machine until it comes to rest, with so many ticks left.
pub fn run<M: Mem>(
    alloc: Global,
    work: &mut Work,
    memory: &mut M,
    printer: &mut Printer,
    code: &Code,
    left: &mut u64,
) -> Rest
    requires number { work.old.number < 256 }
    requires heap { HasHeap (M.rank_of memory.old) (M.bytes_of memory.old) }
    ensures came { CameToRest code.now (config_of work.old (M.rank_of memory.old) (M.top_of memory.old) (M.bytes_of memory.old)) work.new (M.rank_of memory.old) (M.top_of memory.new) (M.bytes_of memory.new) printer.old printer.new left.old left.new result }
    ensures number { work.new.number < 256 }
    ensures kept { Kept (M.rank_of memory.old) (M.rank_of memory.new) (M.bytes_of memory.old) (M.bytes_of memory.new) (M.marks_of memory.old) (M.marks_of memory.new) }
{
    'instructions: loop {
        if work.place >= code.instrs.len() as u64 {
            return Rest::Halted(Halt::Lost);
        }
        let instr = code.instrs.as_slice()[work.place as usize];
        if let Some(rest) = rest_at(instr, work.operands.len(), *left) {
            return rest;
        }
        let number = work.number;
        match step(alloc, work, memory, printer, code, instr) {
            Ok(None) => *left -= ticks_of(instr),
            Ok(Some(halt)) => {
                // A machine that halts stays in its call.
                work.number = number;
                *left -= ticks_of(instr);
                return Rest::Halted(halt);
            }
            Err(_) => return Rest::Memory,
        }
    }
}

/// Whether the machine rests before the instruction, with so many operands and so many ticks left.
fn rest_at(instr: Instr, operands: usize, left: u64) -> Option<Rest>
    ensures { RestsHere instr operands left result }
{
    if !is_tick(instr) {
        return None;
    }
    if !is_call_of_mpi(instr) && left > 0 {
        return None;
    }
    if arguments_of(instr) > operands as u64 {
        return Some(Rest::Halted(Halt::Lost));
    }
    Some(if is_call_of_mpi(instr) {
        Rest::Calls
    } else {
        Rest::Paused
    })
}

/// How many ticks an instruction takes.
fn ticks_of(instr: Instr) -> u64
    ensures { result ≡ ticks_in (is_tick_point (Some instr)) }
{
    if is_tick(instr) { 1 } else { 0 }
}

fn is_tick(instr: Instr) -> bool
    ensures { result ≡ is_tick_point (Some instr) }
{
    matches!(
        instr,
        Instr::Tick { .. } | Instr::Call { .. } | Instr::Library { .. } | Instr::Mpi { .. }
    )
}

fn is_call_of_mpi(instr: Instr) -> bool
    ensures { result ≡ is_mpi_call instr }
{
    matches!(instr, Instr::Mpi { .. })
}

/// How many operands an instruction takes as arguments.
fn arguments_of(instr: Instr) -> u64
    ensures { result ≡ takes instr }
{
    match instr {
        Instr::Call {
            function: _,
            arguments,
        } => arguments,
        Instr::Library { call: _, arguments } => arguments,
        Instr::Mpi {
            call: _,
            arguments,
            second: _,
        } => arguments,
        _ => 0,
    }
}
