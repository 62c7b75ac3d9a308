//! The calls that end.

ghost use Rattle.std.specs.Prelude.{◌≡◌, ◌≤◌, true, length, IfOk, IfSome, OnErr};
ghost use Rattle.am_base.specs.Calls.{mpi_parameters};
ghost use Rattle.rank_range.specs.Areas.{areas_of};
ghost use Rattle.mpi_rules.specs.Calls.{collective_by, reply, reply_to};
ghost use Rattle.mpi_rules.specs.Collectives as collective_words;
ghost use Rattle.mpi_call.specs.Answers.{kept, data_in, call_of, IsQuiet, MayDo, Finishes};
ghost use Rattle.mpi_call.specs.Counts.{words_of};
ghost use Rattle.mpi_call.specs.Gathers.{MayEnd};
ghost use Rattle.mpi_call.specs.Lawful.{MayEndCall, MayFinish};
ghost use Rattle.mpi_call.specs.Served.{collective_of, is_collective, is_finished, is_second};
ghost use Rattle.mpi_call.specs.Written.{Leaves};

use crate::decoding::collective_args;
use crate::done::{CallStop, Done, Finished};
use crate::numbers::int_at;
use crate::places::write_all;
use crate::shares::gathered;
use crate::waitall::waitall;
use crate::waits::{received, test, wait};
use am_base::MpiCall;
use mpi_types::{Collective, MatchBook, MpiState};
use rank_range::{CallOut, Mem};
use std::alloc::Global;

fn gathered_by<M: Mem, B: MatchBook>(
    alloc: Global,
    st: &mut MpiState<B>,
    m: &M,
    kind: Collective,
    words: &[u64],
) -> Result<Option<Done>, CallStop>
    requires may { MayEnd kind st.old.own (collective_words.collective_args kind words.now).comm st.old.sweep.joined }
    requires arguments { words_of kind ≤ length words.now }
    ensures does { MayDo (collective_by true kind (areas_of (M.rank_of m.now) (M.top_of m.now) (M.bytes_of m.now)) (data_in (kept st.old.own st.old.sweep (B.held st.old.book))) words.now) (kept st.old.own st.old.sweep (B.held st.old.book)) result (kept st.new.own st.new.sweep (B.held st.new.book)) }
    ensures quiet { IfOk result (λ o. IfSome o (λ done. IsQuiet done)) }
{
    gathered(alloc, st, m, &collective_args(kind, words))
}

fn finished_collective<M: Mem, B: MatchBook>(
    alloc: Global,
    st: &mut MpiState<B>,
    m: &M,
    call: MpiCall,
    words: &[u64],
) -> Result<Option<Done>, CallStop>
    requires served { is_collective call ≡ true }
    requires may { MayEndCall (collective_of call) st.old.own words.now st.old.sweep.joined }
    requires arguments { length (mpi_parameters call) ≤ length words.now }
    ensures does { MayDo (reply_to call true words.now (areas_of (M.rank_of m.now) (M.top_of m.now) (M.bytes_of m.now)) (data_in (kept st.old.own st.old.sweep (B.held st.old.book)))) (kept st.old.own st.old.sweep (B.held st.old.book)) result (kept st.new.own st.new.sweep (B.held st.new.book)) }
    ensures quiet { IfOk result (λ o. IfSome o (λ done. IsQuiet done)) }
{
    match call {
        MpiCall::Barrier => gathered_by(alloc, st, m, Collective::Barrier, words),
        MpiCall::Bcast => gathered_by(alloc, st, m, Collective::Bcast, words),
        MpiCall::Reduce => gathered_by(alloc, st, m, Collective::Reduce, words),
        MpiCall::Allreduce => gathered_by(alloc, st, m, Collective::Allreduce, words),
        MpiCall::Scan => gathered_by(alloc, st, m, Collective::Scan, words),
        MpiCall::Gather => gathered_by(alloc, st, m, Collective::Gather, words),
        MpiCall::Scatter => gathered_by(alloc, st, m, Collective::Scatter, words),
        MpiCall::Allgather => gathered_by(alloc, st, m, Collective::Allgather, words),
        MpiCall::Alltoall => gathered_by(alloc, st, m, Collective::Alltoall, words),
        MpiCall::CommDup => gathered_by(alloc, st, m, Collective::CommDup, words),
        MpiCall::CommSplit => gathered_by(alloc, st, m, Collective::CommSplit, words),
        MpiCall::Migrate => gathered_by(alloc, st, m, Collective::Migrate, words),
        _ => unreachable!(),
    }
}

fn finished<M: Mem, B: MatchBook>(
    alloc: Global,
    st: &mut MpiState<B>,
    m: &M,
    call: MpiCall,
    words: &[u64],
) -> Result<Option<Done>, CallStop>
    requires served { is_finished call ≡ true }
    requires may { MayFinish call words.now st.old.own st.old.sweep (B.held st.old.book) }
    requires arguments { length (mpi_parameters call) ≤ length words.now }
    ensures does { MayDo (reply_to call (is_second call) words.now (areas_of (M.rank_of m.now) (M.top_of m.now) (M.bytes_of m.now)) (data_in (kept st.old.own st.old.sweep (B.held st.old.book)))) (kept st.old.own st.old.sweep (B.held st.old.book)) result (kept st.new.own st.new.sweep (B.held st.new.book)) }
    ensures quiet { IfOk result (λ o. IfSome o (λ done. IsQuiet done)) }
{
    match call {
        MpiCall::Recv => received(alloc, st, m, words[6]),
        MpiCall::Wait => wait(alloc, st, m, words[0], words[1]),
        MpiCall::Waitall => waitall(alloc, st, m, &int_at(words, 0), words[1], words[2]),
        MpiCall::Test => match test(alloc, st, m, words[0], words[1], words[2]) {
            Ok(done) => Ok(Some(done)),
            Err(stop) => Err(stop),
        },
        MpiCall::Barrier
        | MpiCall::Bcast
        | MpiCall::Reduce
        | MpiCall::Allreduce
        | MpiCall::Scan
        | MpiCall::Gather
        | MpiCall::Scatter
        | MpiCall::Allgather
        | MpiCall::Alltoall
        | MpiCall::CommDup
        | MpiCall::CommSplit
        | MpiCall::Migrate => finished_collective(alloc, st, m, call, words),
        _ => unreachable!(),
    }
}

/// Ends a call, where it can be answered now: the second tick of a receive or of a collective, Wait, Waitall or Test. What it gives, and what it leaves, is
/// exactly what the rules say of it (`reply` of `mpi_rules`).
///
/// # Errors
///
/// `Trap` just where the rules say so; nothing has changed then. After `Memory` the state is only to be dropped, and the
/// rank's memory is as it was.
#[tactic(auto, unfolding(mpi_rules::specs::Calls::reply))]
pub fn finish<M: Mem, B: MatchBook>(
    alloc: Global,
    st: &mut MpiState<B>,
    m: &mut M,
    c: CallOut,
) -> Result<Finished, CallStop>
    requires served { is_finished c.call ≡ true }
    requires tick { c.second ≡ is_second c.call }
    requires arguments { length (mpi_parameters c.call) ≤ length c.arguments }
    requires may { MayFinish c.call c.arguments st.old.own st.old.sweep (B.held st.old.book) }
    ensures finishes { Finishes (reply (areas_of (M.rank_of m.old) (M.top_of m.old) (M.bytes_of m.old)) (data_in (kept st.old.own st.old.sweep (B.held st.old.book))) (call_of c)) result (kept st.old.own st.old.sweep (B.held st.old.book)) (kept st.new.own st.new.sweep (B.held st.new.book)) (areas_of (M.rank_of m.old) (M.top_of m.old) (M.bytes_of m.old)) (areas_of (M.rank_of m.new) (M.top_of m.new) (M.bytes_of m.new)) }
    ensures leaves { Leaves (M.rank_of m.old) (M.rank_of m.new) (M.top_of m.old) (M.top_of m.new) (M.bytes_of m.old) (M.bytes_of m.new) (M.marks_of m.old) (M.marks_of m.new) }
    ensures same { OnErr result (M.bytes_of m.new ≡ M.bytes_of m.old) }
    ensures same_marks { OnErr result (M.marks_of m.new ≡ M.marks_of m.old) }
{
    match finished(alloc, st, m, c.call, c.arguments.as_slice()) {
        Ok(Some(done)) => {
            write_all(m, done.writes.as_slice());
            Ok(Finished::Answered(0))
        }
        Ok(None) => Ok(Finished::NotYet),
        Err(stop) => Err(stop),
    }
}
