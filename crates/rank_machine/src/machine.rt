//! Running a rank from one stop to the next.

ghost use Rattle.std.specs.Prelude.{◌≡◌, ◌+◌, ◌<◌, ◌≤◌, ◌^◌, ℕ, true, length};
ghost use Rattle.rank_range.specs.Layout.{IsRange};
ghost use Rattle.rank_range.specs.Nodes.{HasHeap};
ghost use Rattle.rank_range.specs.Areas.{memory_of};
ghost use Rattle.rank_machine.specs.View.{Tally, Rank, config_at, config_since};
ghost use Rattle.rank_machine.specs.Steps.{Kept};
ghost use Rattle.rank_machine.specs.Runs.{Strands};
ghost use Rattle.rank_machine.specs.Told.{Tells, NeedsCall};
ghost use Rattle.rank_machine.specs.Ran.{Stands, GoesOn, RanFrom, goes_on};

use crate::begin::begin;
use crate::halt::{Halt, Rest};
use crate::lines::{Line, line_of};
use crate::operands::Operands;
use crate::printer::Printer;
use crate::records::{put_back, take_out};
use crate::run::run;
use crate::stop::{Stop, stop_of};
use crate::work::Work;
use am_base::TrapCause;
use rank_range::Mem;
use std::alloc::Global;
use vm_code::Code;

/// A rank's registers but for what it printed.
#[derive(Clone, Copy)]
pub struct At {
    pub place: u32,
    pub depth: u16,
    pub ticks: u64,
}

/// Runs the rank up to so many ticks.
pub fn go_with<M: Mem>(
    alloc: Global,
    at: &mut At,
    m: &mut M,
    code: &Code,
    printer: &mut Printer,
    budget: u64,
) -> Stop
    requires goes { GoesOn code.now (record { place = at.old.place; depth = at.old.depth; ticks = at.old.ticks; number = M.rank_of m.old; top = M.top_of m.old; bytes = M.bytes_of m.old }) printer.old.printed }
    requires stands { Stands code.now (record { place = at.old.place; depth = at.old.depth; ticks = at.old.ticks; number = M.rank_of m.old; top = M.top_of m.old; bytes = M.bytes_of m.old }) }
    requires heap { HasHeap (M.rank_of m.old) (M.bytes_of m.old) }
    requires ticks { at.old.ticks + budget < 2 ^ 64 }
    ensures ran { RanFrom code.now (config_at code.now (record { place = at.old.place; depth = at.old.depth; ticks = at.old.ticks; number = M.rank_of m.old; top = M.top_of m.old; bytes = M.bytes_of m.old })) at.old.ticks printer.old.printed budget printer.old printer.new result (record { place = at.new.place; depth = at.new.depth; ticks = at.new.ticks; number = M.rank_of m.old; top = M.top_of m.new; bytes = M.bytes_of m.new }) }
    ensures stands { goes_on result ≡ true → Stands code.now (record { place = at.new.place; depth = at.new.depth; ticks = at.new.ticks; number = M.rank_of m.old; top = M.top_of m.new; bytes = M.bytes_of m.new }) }
    ensures kept { Kept (M.rank_of m.old) (M.rank_of m.new) (M.bytes_of m.old) (M.bytes_of m.new) (M.marks_of m.old) (M.marks_of m.new) }
{
    if at.depth == 0 {
        return go_first(alloc, at, m, code, printer, budget);
    }
    let mut work = empty_work(at.place);
    take_out(&mut work, m, at.depth - 1);
    work_on(alloc, at, &mut work, m, code, printer, budget)
}

/// Runs the rank from its first instruction on, the call of `main`.
fn go_first<M: Mem>(
    alloc: Global,
    at: &mut At,
    m: &mut M,
    code: &Code,
    printer: &mut Printer,
    budget: u64,
) -> Stop
    requires goes { GoesOn code.now (record { place = at.old.place; depth = at.old.depth; ticks = at.old.ticks; number = M.rank_of m.old; top = M.top_of m.old; bytes = M.bytes_of m.old }) printer.old.printed }
    requires stands { Stands code.now (record { place = at.old.place; depth = at.old.depth; ticks = at.old.ticks; number = M.rank_of m.old; top = M.top_of m.old; bytes = M.bytes_of m.old }) }
    requires heap { HasHeap (M.rank_of m.old) (M.bytes_of m.old) }
    requires ticks { at.old.ticks + budget < 2 ^ 64 }
    requires first { at.old.depth ≡ 0 }
    ensures ran { RanFrom code.now (config_at code.now (record { place = at.old.place; depth = at.old.depth; ticks = at.old.ticks; number = M.rank_of m.old; top = M.top_of m.old; bytes = M.bytes_of m.old })) at.old.ticks printer.old.printed budget printer.old printer.new result (record { place = at.new.place; depth = at.new.depth; ticks = at.new.ticks; number = M.rank_of m.old; top = M.top_of m.new; bytes = M.bytes_of m.new }) }
    ensures stands { goes_on result ≡ true → Stands code.now (record { place = at.new.place; depth = at.new.depth; ticks = at.new.ticks; number = M.rank_of m.old; top = M.top_of m.new; bytes = M.bytes_of m.new }) }
    ensures kept { Kept (M.rank_of m.old) (M.rank_of m.new) (M.bytes_of m.old) (M.bytes_of m.new) (M.marks_of m.old) (M.marks_of m.new) }
{
    if budget == 0 {
        return Stop::Paused;
    }
    let mut work = empty_work(at.place);
    let fits = begin(&mut work, m, code);
    at.ticks += 1;
    if !fits {
        let Line { unit, line } = line_of(code, 0);
        return Stop::Trap {
            cause: TrapCause::DataStack,
            unit,
            line,
        };
    }
    work_on(alloc, at, &mut work, m, code, printer, budget - 1)
}

/// No call yet.
pub fn empty_work(place: u32) -> Work
    ensures place { result.place ≡ place }
    ensures number { result.number ≡ 0 }
{
    Work {
        place: u64::from(place),
        back: 0,
        start: 0,
        operands: Operands::new(),
        number: 0,
    }
}

/// Runs the call that is under way, up to so many ticks.
fn work_on<M: Mem>(
    alloc: Global,
    at: &mut At,
    work: &mut Work,
    m: &mut M,
    code: &Code,
    printer: &mut Printer,
    budget: u64,
) -> Stop
    requires number { work.old.number < 256 }
    requires heap { HasHeap (M.rank_of m.old) (M.bytes_of m.old) }
    requires ticks { at.old.ticks + budget < 2 ^ 64 }
    requires alive { (taken : ℕ) → Strands code.now (config_since work.old (M.rank_of m.old) (M.top_of m.old) (M.bytes_of m.old) at.old.ticks) printer.old.printed taken → ⊥ }
    ensures ran { RanFrom code.now (config_since work.old (M.rank_of m.old) (M.top_of m.old) (M.bytes_of m.old) at.old.ticks) at.old.ticks printer.old.printed budget printer.old printer.new result (record { place = at.new.place; depth = at.new.depth; ticks = at.new.ticks; number = M.rank_of m.old; top = M.top_of m.new; bytes = M.bytes_of m.new }) }
    ensures stands { goes_on result ≡ true → Stands code.now (record { place = at.new.place; depth = at.new.depth; ticks = at.new.ticks; number = M.rank_of m.old; top = M.top_of m.new; bytes = M.bytes_of m.new }) }
    ensures kept { Kept (M.rank_of m.old) (M.rank_of m.new) (M.bytes_of m.old) (M.bytes_of m.new) (M.marks_of m.old) (M.marks_of m.new) }
{
    let mut left = budget;
    let rest = run(alloc, work, m, printer, code, &mut left);
    at.ticks += budget - left;
    settle(alloc, at, work, m, code, rest)
}

/// Puts the call that was run into its record, unless `main` has returned, and tells of it.
fn settle<M: Mem>(
    alloc: Global,
    at: &mut At,
    work: &Work,
    m: &mut M,
    code: &Code,
    rest: Rest,
) -> Stop
    requires number { work.now.number < 256 }
    requires told { NeedsCall code.now work.now rest }
    ensures told { Tells code.now work.now rest result }
    ensures memory { memory_of (M.rank_of m.old) (M.top_of m.old) (M.bytes_of m.new) ≡ memory_of (M.rank_of m.old) (M.top_of m.old) (M.bytes_of m.old) }
    ensures ticks { at.new.ticks ≡ at.old.ticks }
    ensures place { work.now.place < 2 ^ 32 → at.new.place ≡ work.now.place }
    ensures config { goes_on result ≡ true → work.now.place < 2 ^ 32 → (tally : Tally) → config_at code.now (record { place = at.new.place; depth = at.new.depth; ticks = at.new.ticks; number = M.rank_of m.old; top = M.top_of m.new; bytes = M.bytes_of m.new }) tally ≡ config_since work.now (M.rank_of m.old) (M.top_of m.old) (M.bytes_of m.old) at.old.ticks tally }
    ensures stands { goes_on result ≡ true → Stands code.now (record { place = at.new.place; depth = at.new.depth; ticks = at.new.ticks; number = M.rank_of m.old; top = M.top_of m.new; bytes = M.bytes_of m.new }) }
    ensures kept { Kept (M.rank_of m.old) (M.rank_of m.new) (M.bytes_of m.old) (M.bytes_of m.new) (M.marks_of m.old) (M.marks_of m.new) }
    ensures stack { M.top_of m.new ≡ M.top_of m.old }
{
    at.place = (work.place % 0x1_0000_0000) as u32;
    if let Rest::Halted(Halt::Returned(status)) = rest {
        at.depth = 0;
        return Stop::Ended { status };
    }
    let _top = m.top();
    at.depth = work.number + 1;
    put_back(m, work, 0);
    stop_of(alloc, rest, code, work)
}
