//! The first instruction of code: the call of `main`.

ghost use Rattle.std.specs.Prelude.{◌≡◌, ◌+◌, ◌%◌, ◌^◌, ◌≤◌, ℕ, suc, true, false, Some, slice_get};
ghost use Rattle.rank_range.specs.Layout.{base_of, globals_start, stack_start};
ghost use Rattle.am_base.specs.declared.traps.TrapCause.TheVariants.{DataStack};
ghost use Rattle.vm_code.specs.declared.instr.Instr.TheVariants as Instr;
ghost use Rattle.vm_code.specs.Lines.{place_of};
ghost use Rattle.vm_code.specs.Stops.{Trapped};
ghost use Rattle.vm_code.specs.Machine.{act};
ghost use Rattle.rank_machine.specs.View.{Tally, Rank, config_before, config_of, done_of};
ghost use Rattle.rank_machine.specs.Steps.{Kept, On, Halted, shown};
ghost use Rattle.rank_machine.specs.Ran.{CallsMain};

use crate::calls::{enter, fits};
use crate::work::Work;
use rank_range::{GLOBALS_START, Mem, base};
use vm_code::{Code, Instr};

/// A call in code.
#[derive(Clone, Copy)]
pub struct FirstCall {
    pub function: u32,
    pub count: u64,
}

/// Makes the call of `main`, or tells that its frame doesn't fit, and then nothing changes. Its tick is taken.
pub fn begin<M: Mem>(work: &mut Work, m: &mut M, code: &Code) -> bool
    requires calls { CallsMain code.now }
    requires empty { M.top_of m.old ≡ stack_start }
    requires number { work.old.number ≡ 0 }
    ensures went { result ≡ true → (tally : Tally) → On (config_of work.new (M.rank_of m.old) (M.top_of m.new) (M.bytes_of m.new) (record tally { ticks = tally.ticks + 1 })) ≡ shown (act code.now (slice_get code.now.instrs 0) (config_before code.now (record { place = 0; depth = 0; ticks = 0; number = M.rank_of m.old; top = M.top_of m.old; bytes = M.bytes_of m.old }) (record tally { left = suc tally.left }))) }
    ensures trapped { result ≡ false → (tally : Tally) → Halted (Trapped DataStack (place_of code.now 0).unit (place_of code.now 0).line) (done_of (M.rank_of m.old) (M.top_of m.new) (M.bytes_of m.new) (record tally { ticks = tally.ticks + 1 })) ≡ shown (act code.now (slice_get code.now.instrs 0) (config_before code.now (record { place = 0; depth = 0; ticks = 0; number = M.rank_of m.old; top = M.top_of m.old; bytes = M.bytes_of m.old }) (record tally { left = suc tally.left }))) }
    ensures number { work.new.number ≡ 0 }
    ensures kept { Kept (M.rank_of m.old) (M.rank_of m.new) (M.bytes_of m.old) (M.bytes_of m.new) (M.marks_of m.old) (M.marks_of m.new) }
{
    let first = first_call(code);
    let callee = &code.functions.as_slice()[first.function as usize];
    let start = m.top();
    if !fits(start, callee.frame) {
        return false;
    }
    let words = [1, segment_start(m)];
    enter(m, callee, start, &words[..first.count as usize]);
    work.operands.clear();
    work.place = u64::from(callee.place);
    work.back = 1;
    work.start = start as u64;
    true
}

/// The call that the first instruction makes.
fn first_call(code: &Code) -> FirstCall
    requires { CallsMain code.now }
    ensures found { slice_get code.now.instrs 0 ≡ Some (Instr.Call result.function result.count) }
{
    match code.instrs.as_slice()[0] {
        Instr::Call {
            function,
            arguments,
        } => FirstCall {
            function,
            count: arguments,
        },
        _ => unreachable!(),
    }
}

/// The address at which the segment starts.
fn segment_start<M: Mem>(m: &M) -> u64
    ensures { result ≡ (base_of (M.rank_of m.now) + globals_start) % 2 ^ 64 }
{
    base(m.rank()) + GLOBALS_START as u64
}
