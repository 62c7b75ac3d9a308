//! The instructions that form addresses, and those that read and write a rank's memory.

ghost use Rattle.std.specs.Prelude.{◌≡◌, ◌∷◌, ◌+◌, ◌<◌, ◌^◌, ℕ, List, Some};
ghost use Rattle.vm_code.specs.declared.code.Code.{Code};
ghost use Rattle.vm_code.specs.declared.instr.Instr.TheVariants as Instr;
ghost use Rattle.vm_code.specs.Machine.{act};
ghost use Rattle.rank_machine.specs.View.{Tally, config_of};
ghost use Rattle.rank_machine.specs.Steps.{Kept, shown, shown_by};

use crate::access::{copy, load, store, zero};
use crate::halt::Halt;
use crate::plain::go_on;
use crate::work::Work;
use am_base::TrapCause;
use rank_range::{GLOBALS_START, Kind, Mem, base};

const BAD: Option<Halt> = Some(Halt::Trapped(TrapCause::BadAddress));

/// The address so many bytes behind the frame's start.
#[tactic(auto, unfolding(vm_code::specs::Machine::act, rank_range::specs::Areas::memory_of, rank_range::specs::Areas::areas_of))]
pub fn local<M: Mem>(work: &mut Work, memory: &M, offset: u64) -> Option<Halt>
    requires { work.old.place + 1 < 2 ^ 64 }
    ensures { (code : Code) (tally : Tally) → shown_by code result (config_of work.new (M.rank_of memory.now) (M.top_of memory.now) (M.bytes_of memory.now) tally) ≡ shown (act code (Some (Instr.Local offset)) (config_of work.old (M.rank_of memory.now) (M.top_of memory.now) (M.bytes_of memory.now) tally)) }
{
    let start = base(memory.rank()).wrapping_add(work.start);
    go_on(work, start.wrapping_add(offset))
}

/// The address so many bytes behind the start of the globals.
#[tactic(auto, unfolding(vm_code::specs::Machine::act, rank_range::specs::Areas::memory_of, rank_range::specs::Areas::areas_of))]
pub fn global<M: Mem>(work: &mut Work, memory: &M, offset: u32) -> Option<Halt>
    requires { work.old.place + 1 < 2 ^ 64 }
    ensures { (code : Code) (tally : Tally) → shown_by code result (config_of work.new (M.rank_of memory.now) (M.top_of memory.now) (M.bytes_of memory.now) tally) ≡ shown (act code (Some (Instr.Global offset)) (config_of work.old (M.rank_of memory.now) (M.top_of memory.now) (M.bytes_of memory.now) tally)) }
{
    let start = base(memory.rank()) + GLOBALS_START as u64;
    go_on(work, start + u64::from(offset))
}

#[tactic(auto, unfolding(vm_code::specs::Machine::act))]
pub fn load_number<M: Mem>(work: &mut Work, memory: &M, kind: Kind) -> Option<Halt>
    requires { work.old.place + 1 < 2 ^ 64 }
    ensures { (code : Code) (tally : Tally) → shown_by code result (config_of work.new (M.rank_of memory.now) (M.top_of memory.now) (M.bytes_of memory.now) tally) ≡ shown (act code (Some (Instr.Load kind)) (config_of work.old (M.rank_of memory.now) (M.top_of memory.now) (M.bytes_of memory.now) tally)) }
{
    let Some(a) = work.operands.pop() else {
        return Some(Halt::Lost);
    };
    match load(memory, kind, a) {
        Ok(word) => go_on(work, word),
        Err(_) => BAD,
    }
}

#[tactic(auto, unfolding(vm_code::specs::Machine::act))]
pub fn store_number<M: Mem>(work: &mut Work, memory: &mut M, kind: Kind) -> Option<Halt>
    requires place { work.old.place + 1 < 2 ^ 64 }
    requires number { work.old.number < 256 }
    ensures step { (code : Code) (tally : Tally) → shown_by code result (config_of work.new (M.rank_of memory.old) (M.top_of memory.new) (M.bytes_of memory.new) tally) ≡ shown (act code (Some (Instr.Store kind)) (config_of work.old (M.rank_of memory.old) (M.top_of memory.old) (M.bytes_of memory.old) tally)) }
    ensures kept { Kept (M.rank_of memory.old) (M.rank_of memory.new) (M.bytes_of memory.old) (M.bytes_of memory.new) (M.marks_of memory.old) (M.marks_of memory.new) }
    ensures stack { M.top_of memory.new ≡ M.top_of memory.old }
{
    let Some(word) = work.operands.pop() else {
        return Some(Halt::Lost);
    };
    let Some(a) = work.operands.pop() else {
        return Some(Halt::Lost);
    };
    match store(memory, kind, a, word) {
        Ok(()) => go_on(work, word),
        Err(_) => BAD,
    }
}

#[tactic(auto, unfolding(vm_code::specs::Machine::act))]
pub fn copy_bytes<M: Mem>(work: &mut Work, memory: &mut M, count: u64) -> Option<Halt>
    requires place { work.old.place + 1 < 2 ^ 64 }
    requires number { work.old.number < 256 }
    ensures step { (code : Code) (tally : Tally) → shown_by code result (config_of work.new (M.rank_of memory.old) (M.top_of memory.new) (M.bytes_of memory.new) tally) ≡ shown (act code (Some (Instr.Copy count)) (config_of work.old (M.rank_of memory.old) (M.top_of memory.old) (M.bytes_of memory.old) tally)) }
    ensures kept { Kept (M.rank_of memory.old) (M.rank_of memory.new) (M.bytes_of memory.old) (M.bytes_of memory.new) (M.marks_of memory.old) (M.marks_of memory.new) }
    ensures stack { M.top_of memory.new ≡ M.top_of memory.old }
{
    let Some(source) = work.operands.pop() else {
        return Some(Halt::Lost);
    };
    let Some(target) = work.operands.pop() else {
        return Some(Halt::Lost);
    };
    match copy(memory, target, source, count) {
        Ok(()) => go_on(work, target),
        Err(_) => BAD,
    }
}

#[tactic(auto, unfolding(vm_code::specs::Machine::act))]
pub fn zero_bytes<M: Mem>(work: &mut Work, memory: &mut M, count: u64) -> Option<Halt>
    requires place { work.old.place + 1 < 2 ^ 64 }
    requires number { work.old.number < 256 }
    ensures step { (code : Code) (tally : Tally) → shown_by code result (config_of work.new (M.rank_of memory.old) (M.top_of memory.new) (M.bytes_of memory.new) tally) ≡ shown (act code (Some (Instr.Zero count)) (config_of work.old (M.rank_of memory.old) (M.top_of memory.old) (M.bytes_of memory.old) tally)) }
    ensures kept { Kept (M.rank_of memory.old) (M.rank_of memory.new) (M.bytes_of memory.old) (M.bytes_of memory.new) (M.marks_of memory.old) (M.marks_of memory.new) }
    ensures stack { M.top_of memory.new ≡ M.top_of memory.old }
{
    let Some(a) = work.operands.pop() else {
        return Some(Halt::Lost);
    };
    match zero(memory, a, count) {
        Ok(()) => {
            work.place += 1;
            None
        }
        Err(_) => BAD,
    }
}
