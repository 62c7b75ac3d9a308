//! Running a rank: its registers and its memory.

ghost use Rattle.std.specs.Prelude.{◌≡◌, ◌+◌, ◌<◌, ◌≤◌, ◌^◌, true, length};
ghost use Rattle.rank_range.specs.Nodes.{HasHeap};
ghost use Rattle.rank_range.specs.Output.{text_limit};
ghost use Rattle.rank_machine.specs.Steps.{Kept};
ghost use Rattle.rank_machine.specs.Ran.{Stands, GoesOn, Ran, Gone, goes_on, output_at};

use crate::machine::{At, go_with};
use crate::printer::Printer;
use crate::stop::Stop;
use am_base::{Bytes, LineList};
use rank_range::{Mem, Output, Regs};
use std::alloc::Global;
use std::mem;
use vm_code::Code;

/// Runs a rank up to `budget` ticks, from where its registers and its memory stand. It goes on later from where they stand then. Where
/// the host has no memory, they stand at the last tick point, or where they stood.
pub fn go<M: Mem>(alloc: Global, st: &mut Regs, m: &mut M, code: &Code, budget: u64) -> Stop
    requires goes { GoesOn code.now (record { place = st.old.position; depth = st.old.depth; ticks = st.old.ticks; number = M.rank_of m.old; top = M.top_of m.old; bytes = M.bytes_of m.old }) st.old.output.printed }
    requires stands { Stands code.now (record { place = st.old.position; depth = st.old.depth; ticks = st.old.ticks; number = M.rank_of m.old; top = M.top_of m.old; bytes = M.bytes_of m.old }) }
    requires heap { HasHeap (M.rank_of m.old) (M.bytes_of m.old) }
    requires ticks { st.old.ticks + budget < 2 ^ 64 }
    requires numbers { st.old.output.next + length st.old.output.unfinished ≤ st.old.output.printed }
    requires limit { st.old.output.printed ≤ text_limit }
    ensures ran { Gone code.now (record { place = st.old.position; depth = st.old.depth; ticks = st.old.ticks; number = M.rank_of m.old; top = M.top_of m.old; bytes = M.bytes_of m.old }) budget st.old.output st.new.output result (record { place = st.new.position; depth = st.new.depth; ticks = st.new.ticks; number = M.rank_of m.old; top = M.top_of m.new; bytes = M.bytes_of m.new }) }
    ensures stands { goes_on result ≡ true → Stands code.now (record { place = st.new.position; depth = st.new.depth; ticks = st.new.ticks; number = M.rank_of m.old; top = M.top_of m.new; bytes = M.bytes_of m.new }) }
    ensures kept { Kept (M.rank_of m.old) (M.rank_of m.new) (M.bytes_of m.old) (M.bytes_of m.new) (M.marks_of m.old) (M.marks_of m.new) }
    ensures numbers { st.new.output.next + length st.new.output.unfinished ≤ st.new.output.printed }
    ensures limit { st.new.output.printed ≤ text_limit }
{
    let output = mem::replace(&mut st.output, nothing(alloc));
    match Printer::open(output) {
        Ok(printer) => go_on(alloc, st, m, code, printer, budget),
        Err(output) => {
            st.output = output;
            Stop::Memory
        }
    }
}

/// Runs a rank that prints so.
fn go_on<M: Mem>(
    alloc: Global,
    st: &mut Regs,
    m: &mut M,
    code: &Code,
    mut printer: Printer,
    budget: u64,
) -> Stop
    requires goes { GoesOn code.now (record { place = st.old.position; depth = st.old.depth; ticks = st.old.ticks; number = M.rank_of m.old; top = M.top_of m.old; bytes = M.bytes_of m.old }) printer.printed }
    requires stands { Stands code.now (record { place = st.old.position; depth = st.old.depth; ticks = st.old.ticks; number = M.rank_of m.old; top = M.top_of m.old; bytes = M.bytes_of m.old }) }
    requires heap { HasHeap (M.rank_of m.old) (M.bytes_of m.old) }
    requires ticks { st.old.ticks + budget < 2 ^ 64 }
    ensures ran { Ran code.now (record { place = st.old.position; depth = st.old.depth; ticks = st.old.ticks; number = M.rank_of m.old; top = M.top_of m.old; bytes = M.bytes_of m.old }) budget printer st.new.output result (record { place = st.new.position; depth = st.new.depth; ticks = st.new.ticks; number = M.rank_of m.old; top = M.top_of m.new; bytes = M.bytes_of m.new }) }
    ensures stands { goes_on result ≡ true → Stands code.now (record { place = st.new.position; depth = st.new.depth; ticks = st.new.ticks; number = M.rank_of m.old; top = M.top_of m.new; bytes = M.bytes_of m.new }) }
    ensures kept { Kept (M.rank_of m.old) (M.rank_of m.new) (M.bytes_of m.old) (M.bytes_of m.new) (M.marks_of m.old) (M.marks_of m.new) }
    ensures numbers { st.new.output.next + length st.new.output.unfinished ≤ st.new.output.printed }
    ensures limit { st.new.output.printed ≤ text_limit }
{
    let mut at = At {
        place: st.position,
        depth: st.depth,
        ticks: st.ticks,
    };
    let stop = go_with(alloc, &mut at, m, code, &mut printer, budget);
    st.position = at.place;
    st.depth = at.depth;
    st.ticks = at.ticks;
    st.output = closed(alloc, &stop, printer);
    stop
}

/// What was printed when a run stopped so.
fn closed(alloc: Global, stop: &Stop, printer: Printer) -> Output
    ensures value { result ≡ output_at stop.now printer }
    ensures numbers { result.next + length result.unfinished ≤ result.printed }
    ensures limit { result.printed ≤ text_limit }
{
    match stop {
        Stop::Ended { status: _ } => printer.finish(alloc),
        Stop::Trap {
            cause: _,
            unit: _,
            line: _,
        } => printer.finish(alloc),
        _ => printer.close(),
    }
}

/// Nothing printed.
fn nothing(alloc: Global) -> Output {
    Output {
        printed: 0,
        unfinished: Bytes::new(alloc),
        next: 0,
        held: LineList::new(alloc),
    }
}
