//! The calls that begin.

ghost use Rattle.std.specs.Prelude.{◌≡◌, ◌<◌, ◌≤◌, true, false, length, OnErr};
ghost use Rattle.am_base.specs.Calls.{mpi_parameters};
ghost use Rattle.rank_range.specs.Areas.{areas_of};
ghost use Rattle.mpi_rules.specs.Calls.{collective_by, reply, reply_to};
ghost use Rattle.mpi_rules.specs.Places as places;
ghost use Rattle.mpi_call.specs.Answers.{kept, data_in, call_of, Does, Begins};
ghost use Rattle.mpi_call.specs.Counts.{words_of};
ghost use Rattle.mpi_call.specs.Lawful.{MayBegin};
ghost use Rattle.mpi_call.specs.Served.{is_begun, is_collective};
ghost use Rattle.mpi_call.specs.Written.{Leaves};

use crate::counts::count;
use crate::decoding::collective_args;
use crate::done::{Began, CallStop, Done};
use crate::joins::join;
use crate::messages::{ireceive, isend, receive, send};
use crate::numbers::{int_at, message_args};
use crate::own::{abort, comm_free, comm_rank, comm_size, finalize, finalized, init, initialized};
use crate::places::write_all;
use am_base::MpiCall;
use mpi_types::{Collective, MatchBook, MpiState};
use rank_range::{CallOut, Mem};
use std::alloc::Global;

/// An int argument.
#[derive(Clone, Copy)]
struct IntArg {
    value: i32,
}

fn int_arg(words: &[u64], i: usize) -> IntArg
    requires { i < length words.now }
    ensures { result.value ≡ places.int_at words.now i }
{
    IntArg {
        value: int_at(words, i),
    }
}

fn join_by<M: Mem, B: MatchBook>(
    alloc: Global,
    st: &mut MpiState<B>,
    m: &M,
    kind: Collective,
    words: &[u64],
) -> Result<Done, CallStop>
    requires may { MayBegin (M.rank_of m.now) st.old.own st.old.sweep (B.held st.old.book) }
    requires arguments { words_of kind ≤ length words.now }
    ensures { Does (collective_by false kind (areas_of (M.rank_of m.now) (M.top_of m.now) (M.bytes_of m.now)) (data_in (kept st.old.own st.old.sweep (B.held st.old.book))) words.now) (kept st.old.own st.old.sweep (B.held st.old.book)) result (kept st.new.own st.new.sweep (B.held st.new.book)) }
{
    join(alloc, st, m, &collective_args(kind, words))
}

fn begun_collective<M: Mem, B: MatchBook>(
    alloc: Global,
    st: &mut MpiState<B>,
    m: &M,
    call: MpiCall,
    words: &[u64],
) -> Result<Done, CallStop>
    requires served { is_collective call ≡ true }
    requires may { MayBegin (M.rank_of m.now) st.old.own st.old.sweep (B.held st.old.book) }
    requires arguments { length (mpi_parameters call) ≤ length words.now }
    ensures { Does (reply_to call false words.now (areas_of (M.rank_of m.now) (M.top_of m.now) (M.bytes_of m.now)) (data_in (kept st.old.own st.old.sweep (B.held st.old.book)))) (kept st.old.own st.old.sweep (B.held st.old.book)) result (kept st.new.own st.new.sweep (B.held st.new.book)) }
{
    match call {
        MpiCall::Barrier => join_by(alloc, st, m, Collective::Barrier, words),
        MpiCall::Bcast => join_by(alloc, st, m, Collective::Bcast, words),
        MpiCall::Reduce => join_by(alloc, st, m, Collective::Reduce, words),
        MpiCall::Allreduce => join_by(alloc, st, m, Collective::Allreduce, words),
        MpiCall::Scan => join_by(alloc, st, m, Collective::Scan, words),
        MpiCall::Gather => join_by(alloc, st, m, Collective::Gather, words),
        MpiCall::Scatter => join_by(alloc, st, m, Collective::Scatter, words),
        MpiCall::Allgather => join_by(alloc, st, m, Collective::Allgather, words),
        MpiCall::Alltoall => join_by(alloc, st, m, Collective::Alltoall, words),
        MpiCall::CommDup => join_by(alloc, st, m, Collective::CommDup, words),
        MpiCall::CommSplit => join_by(alloc, st, m, Collective::CommSplit, words),
        MpiCall::Migrate => join_by(alloc, st, m, Collective::Migrate, words),
        _ => unreachable!(),
    }
}

fn begun<M: Mem, B: MatchBook>(
    alloc: Global,
    st: &mut MpiState<B>,
    m: &M,
    call: MpiCall,
    words: &[u64],
) -> Result<Done, CallStop>
    requires served { is_begun call ≡ true }
    requires may { MayBegin (M.rank_of m.now) st.old.own st.old.sweep (B.held st.old.book) }
    requires arguments { length (mpi_parameters call) ≤ length words.now }
    ensures { Does (reply_to call false words.now (areas_of (M.rank_of m.now) (M.top_of m.now) (M.bytes_of m.now)) (data_in (kept st.old.own st.old.sweep (B.held st.old.book)))) (kept st.old.own st.old.sweep (B.held st.old.book)) result (kept st.new.own st.new.sweep (B.held st.new.book)) }
{
    match call {
        MpiCall::Init => init(alloc, st),
        MpiCall::Initialized => initialized(alloc, st, m, words[0]),
        MpiCall::Finalized => finalized(alloc, st, m, words[0]),
        MpiCall::Finalize => finalize(alloc, st),
        MpiCall::CommRank => comm_rank(alloc, st, m, &int_arg(words, 0).value, words[1]),
        MpiCall::CommSize => comm_size(alloc, st, m, &int_arg(words, 0).value, words[1]),
        MpiCall::CommFree => comm_free(alloc, st, m, words[0]),
        MpiCall::Abort => Err(abort(st, m, &int_arg(words, 0).value, &int_arg(words, 1).value)),
        MpiCall::Send => send(alloc, st, m, &message_args(words)),
        MpiCall::Isend => isend(alloc, st, m, &message_args(words), words[6]),
        MpiCall::Recv => receive(alloc, st, m, &message_args(words)),
        MpiCall::Irecv => ireceive(alloc, st, m, &message_args(words), words[6]),
        MpiCall::GetCount => count(alloc, st, m, words[0], &int_arg(words, 1).value, words[2]),
        MpiCall::Wait | MpiCall::Waitall | MpiCall::Test => unreachable!(),
        MpiCall::Barrier
        | MpiCall::Bcast
        | MpiCall::Reduce
        | MpiCall::Allreduce
        | MpiCall::Scan
        | MpiCall::Gather
        | MpiCall::Scatter
        | MpiCall::Allgather
        | MpiCall::Alltoall
        | MpiCall::CommDup
        | MpiCall::CommSplit
        | MpiCall::Migrate => begun_collective(alloc, st, m, call, words),
    }
}

/// Begins a call: it is answered, or has its first tick of two. What it gives, and what it leaves, is exactly what the rules say of it
/// (`reply` of `mpi_rules`).
///
/// # Errors
///
/// `Trap` and `End` just where the rules say so; nothing has changed then. After `Memory` the state is only to be dropped, and
/// the rank's memory is as it was.
#[tactic(auto, unfolding(mpi_rules::specs::Calls::reply))]
pub fn begin<M: Mem, B: MatchBook>(
    alloc: Global,
    st: &mut MpiState<B>,
    m: &mut M,
    c: CallOut,
) -> Result<Began, CallStop>
    requires served { is_begun c.call ≡ true }
    requires first { c.second ≡ false }
    requires arguments { length (mpi_parameters c.call) ≤ length c.arguments }
    requires may { MayBegin (M.rank_of m.old) st.old.own st.old.sweep (B.held st.old.book) }
    ensures begins { Begins (reply (areas_of (M.rank_of m.old) (M.top_of m.old) (M.bytes_of m.old)) (data_in (kept st.old.own st.old.sweep (B.held st.old.book))) (call_of c)) result (kept st.old.own st.old.sweep (B.held st.old.book)) (kept st.new.own st.new.sweep (B.held st.new.book)) (areas_of (M.rank_of m.old) (M.top_of m.old) (M.bytes_of m.old)) (areas_of (M.rank_of m.new) (M.top_of m.new) (M.bytes_of m.new)) }
    ensures leaves { Leaves (M.rank_of m.old) (M.rank_of m.new) (M.top_of m.old) (M.top_of m.new) (M.bytes_of m.old) (M.bytes_of m.new) (M.marks_of m.old) (M.marks_of m.new) }
    ensures same { OnErr result (M.bytes_of m.new ≡ M.bytes_of m.old) }
    ensures same_marks { OnErr result (M.marks_of m.new ≡ M.marks_of m.old) }
{
    match begun(alloc, st, m, c.call, c.arguments.as_slice()) {
        Ok(done) => {
            let Done {
                answer,
                writes,
                send,
                hit,
                sweep,
            } = done;
            write_all(m, writes.as_slice());
            Ok(Began {
                answer,
                send,
                hit,
                sweep,
            })
        }
        Err(stop) => Err(stop),
    }
}
