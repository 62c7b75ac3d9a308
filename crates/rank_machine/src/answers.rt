//! Answers to calls of MPI.

ghost use Rattle.std.specs.Prelude.{◌≡◌, ◌+◌, ◌-◌, ◌<◌, ◌≤◌, ◌^◌};
ghost use Rattle.rank_range.specs.Kinds.{word_of as word_of_number};
ghost use Rattle.rank_machine.specs.View.{Rank, record_place, frame_at};
ghost use Rattle.rank_machine.specs.Steps.{Kept};
ghost use Rattle.rank_machine.specs.Ran.{Stands};
ghost use Rattle.rank_machine.specs.Answered.{TakesAnswer, HasAnswer, IsAnswered};

use crate::machine::empty_work;
use crate::records::{put_back, take_out};
use crate::work::Work;
use rank_range::{Mem, Regs};
use vm_code::{Code, Instr};

/// Counts the tick of the call of MPI at which the rank stands. A value is the call's; without one it is kept for its second tick.
pub fn answer<M: Mem>(st: &mut Regs, m: &mut M, code: &Code, value: Option<i32>)
    requires some { 0 < st.old.depth }
    requires deep { st.old.depth ≤ 256 }
    requires call { TakesAnswer code.now st.old.position (frame_at (M.bytes_of m.old) (M.top_of m.old) (record_place (st.old.depth - 1))).operands value }
    requires ticks { st.old.ticks + 1 < 2 ^ 64 }
    ensures answered { IsAnswered code.now (record { place = st.old.position; depth = st.old.depth; ticks = st.old.ticks; number = M.rank_of m.old; top = M.top_of m.old; bytes = M.bytes_of m.old }) value (record { place = st.new.position; depth = st.new.depth; ticks = st.new.ticks; number = M.rank_of m.old; top = M.top_of m.new; bytes = M.bytes_of m.new }) }
    ensures stands { Stands code.now (record { place = st.new.position; depth = st.new.depth; ticks = st.new.ticks; number = M.rank_of m.old; top = M.top_of m.new; bytes = M.bytes_of m.new }) }
    ensures kept { Kept (M.rank_of m.old) (M.rank_of m.new) (M.bytes_of m.old) (M.bytes_of m.new) (M.marks_of m.old) (M.marks_of m.new) }
    ensures output { st.new.output ≡ st.old.output }
{
    let mut work = empty_work(st.position);
    let _top = m.top();
    take_out(&mut work, m, st.depth - 1);
    give(&mut work, code, value);
    st.position = (work.place % 0x1_0000_0000) as u32;
    st.ticks += 1;
    put_back(m, &work, 0);
}

/// Gives the call its answer.
fn give(work: &mut Work, code: &Code, value: Option<i32>)
    requires call { TakesAnswer code.now work.old.place work.old.operands value }
    ensures answered { HasAnswer code.now work.old value work.new }
    ensures near { work.new.place < 2 ^ 32 }
    ensures number { work.new.number ≡ work.old.number }
{
    let instr = code.instrs.as_slice()[work.place as usize];
    match instr {
        Instr::Mpi {
            call: _,
            arguments,
            second,
        } => {
            match value {
                None => if !second {
                    work.place += 1;
                },
                Some(result) => {
                    work.operands.cut(arguments as usize);
                    let _fits = work.operands.push(word_of(result));
                    work.place += if second { 1 } else { 2 };
                }
            }
        }
        _ => unreachable!(),
    }
}

/// The word of a value.
fn word_of(value: i32) -> u64
    ensures { result ≡ word_of_number value }
{
    i64::from(value).cast_unsigned()
}
