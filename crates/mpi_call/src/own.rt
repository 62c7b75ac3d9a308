//! Calls that a rank answers by its own data alone.

ghost use Rattle.std.specs.Prelude.{◌≡◌, ◌<◌, ◌≤◌, ◌^◌, [], ◌∷◌, pos, IfOk};
ghost use Rattle.rank_range.specs.Areas.{areas_of};
ghost use Rattle.mpi_rules.specs.Data as data_words;
ghost use Rattle.mpi_rules.specs.Places as places;
ghost use Rattle.mpi_rules.specs.Own as replies;
ghost use Rattle.mpi_rules.specs.Reply as reply_words;
ghost use Rattle.mpi_call.specs.Answers.{Kept, kept, data_in, Does, Stops, IsQuiet};
ghost use Rattle.mpi_call.specs.Lawful.{AreSized};

use crate::done::{CallStop, Done, quiet, writing};
use crate::numbers::int_of;
use crate::places::{int_write, is_open, number_write, variable};
use crate::state::{facts_at, is_running};
use am_base::TrapCause;
use mpi_rules::{CommFacts, Faults};
use mpi_types::{
    COMM_NULL, COMM_WORLD, Communicator, MatchBook, MpiState, OwnData, Phase, Sequence,
};
use rank_range::Mem;
use std::alloc::Global;
use std::mem;

/// Nothing is wrong.
pub fn no_faults() -> Faults
    ensures { result ≡ reply_words.no_faults }
{
    Faults {
        other: false,
        handle: false,
        comm: false,
        variable: false,
        request: false,
        count: false,
        datatype: false,
        operation: false,
        root: false,
        rank: false,
        tag: false,
        buffer: false,
    }
}

#[tactic(auto, unfolding(mpi_rules::specs::Own::init_reply, mpi_rules::specs::Faults::cause_of))]
pub fn init<B: MatchBook>(alloc: Global, st: &mut MpiState<B>) -> Result<Done, CallStop>
    ensures { Does (replies.init_reply (data_in (kept st.old.own st.old.sweep (B.held st.old.book)))) (kept st.old.own st.old.sweep (B.held st.old.book)) result (kept st.new.own st.new.sweep (B.held st.new.book)) }
{
    match st.own.phase {
        Phase::Before => {
            st.own.phase = Phase::Running;
            Ok(quiet(alloc))
        }
        Phase::Running | Phase::After => Err(CallStop::Trap(TrapCause::ErrOther)),
    }
}

#[tactic(auto, unfolding(mpi_rules::specs::Own::finalize_reply, mpi_rules::specs::Faults::cause_of))]
pub fn finalize<B: MatchBook>(alloc: Global, st: &mut MpiState<B>) -> Result<Done, CallStop>
    ensures { Does (replies.finalize_reply (data_in (kept st.old.own st.old.sweep (B.held st.old.book)))) (kept st.old.own st.old.sweep (B.held st.old.book)) result (kept st.new.own st.new.sweep (B.held st.new.book)) }
{
    match st.own.phase {
        Phase::Running => {
            st.own.phase = Phase::After;
            Ok(quiet(alloc))
        }
        Phase::Before | Phase::After => Err(CallStop::Trap(TrapCause::ErrOther)),
    }
}

/// The int is written, where that may be.
pub fn told<M: Mem>(alloc: Global, m: &M, to: u64, number: u32) -> Result<Done, CallStop>
    ensures does { (k : Kept) → Does (reply_words.answered (areas_of (M.rank_of m.now) (M.top_of m.now) (M.bytes_of m.now)) (reply_words.writing (data_in k) (places.int_write to (pos number) ∷ []))) k result k }
    ensures quiet { IfOk result (λ done. IsQuiet done) }
{
    if !is_open(m, to, 4) {
        return Err(CallStop::Trap(TrapCause::BadAddress));
    }
    Ok(writing(number_write(alloc, to, number)?))
}

#[tactic(auto, unfolding(mpi_rules::specs::Own::initialized_reply))]
pub fn initialized<M: Mem, B: MatchBook>(
    alloc: Global,
    st: &MpiState<B>,
    m: &M,
    flag: u64,
) -> Result<Done, CallStop>
    ensures { Does (replies.initialized_reply (areas_of (M.rank_of m.now) (M.top_of m.now) (M.bytes_of m.now)) (data_in (kept st.now.own st.now.sweep (B.held st.now.book))) flag) (kept st.now.own st.now.sweep (B.held st.now.book)) result (kept st.now.own st.now.sweep (B.held st.now.book)) }
{
    match st.own.phase {
        Phase::Before => told(alloc, m, flag, 0),
        Phase::Running => told(alloc, m, flag, 1),
        Phase::After => told(alloc, m, flag, 1),
    }
}

#[tactic(auto, unfolding(mpi_rules::specs::Own::finalized_reply))]
pub fn finalized<M: Mem, B: MatchBook>(
    alloc: Global,
    st: &MpiState<B>,
    m: &M,
    flag: u64,
) -> Result<Done, CallStop>
    ensures { Does (replies.finalized_reply (areas_of (M.rank_of m.now) (M.top_of m.now) (M.bytes_of m.now)) (data_in (kept st.now.own st.now.sweep (B.held st.now.book))) flag) (kept st.now.own st.now.sweep (B.held st.now.book)) result (kept st.now.own st.now.sweep (B.held st.now.book)) }
{
    match st.own.phase {
        Phase::After => told(alloc, m, flag, 1),
        Phase::Running => told(alloc, m, flag, 0),
        Phase::Before => told(alloc, m, flag, 0),
    }
}

fn comm_faults(own: &OwnData, facts: &CommFacts) -> Faults
    ensures { (k : Kept) → k.own ≡ own.now → result ≡ replies.comm_faults (data_in k) facts.now }
{
    Faults {
        other: !is_running(own),
        comm: !facts.known,
        ..no_faults()
    }
}

#[tactic(auto, unfolding(mpi_rules::specs::Own::rank_reply))]
pub fn comm_rank<M: Mem, B: MatchBook>(
    alloc: Global,
    st: &MpiState<B>,
    m: &M,
    comm: &i32,
    to: u64,
) -> Result<Done, CallStop>
    requires { AreSized st.now.own }
    ensures { Does (replies.rank_reply (areas_of (M.rank_of m.now) (M.top_of m.now) (M.bytes_of m.now)) (data_in (kept st.now.own st.now.sweep (B.held st.now.book))) comm.now to) (kept st.now.own st.now.sweep (B.held st.now.book)) result (kept st.now.own st.now.sweep (B.held st.now.book)) }
{
    let facts = facts_at(&st.own, m, comm);
    match comm_faults(&st.own, &facts).cause() {
        Some(cause) => Err(CallStop::Trap(cause)),
        None => told(alloc, m, to, facts.member as u32),
    }
}

#[tactic(auto, unfolding(mpi_rules::specs::Own::size_reply))]
pub fn comm_size<M: Mem, B: MatchBook>(
    alloc: Global,
    st: &MpiState<B>,
    m: &M,
    comm: &i32,
    to: u64,
) -> Result<Done, CallStop>
    requires { AreSized st.now.own }
    ensures { Does (replies.size_reply (areas_of (M.rank_of m.now) (M.top_of m.now) (M.bytes_of m.now)) (data_in (kept st.now.own st.now.sweep (B.held st.now.book))) comm.now to) (kept st.now.own st.now.sweep (B.held st.now.book)) result (kept st.now.own st.now.sweep (B.held st.now.book)) }
{
    let facts = facts_at(&st.own, m, comm);
    match comm_faults(&st.own, &facts).cause() {
        Some(cause) => Err(CallStop::Trap(cause)),
        None => told(alloc, m, to, facts.members as u32),
    }
}

#[tactic(auto, unfolding(mpi_rules::specs::Own::abort_reply, mpi_rules::specs::Faults::cause_of))]
pub fn abort<M: Mem, B: MatchBook>(st: &MpiState<B>, m: &M, comm: &i32, status: &i32) -> CallStop
    requires { AreSized st.now.own }
    ensures { Stops (replies.abort_reply (areas_of (M.rank_of m.now) (M.top_of m.now) (M.bytes_of m.now)) (data_in (kept st.now.own st.now.sweep (B.held st.now.book))) comm.now status.now) result (kept st.now.own st.now.sweep (B.held st.now.book)) (kept st.now.own st.now.sweep (B.held st.now.book)) }
{
    if facts_at(&st.own, m, comm).known {
        CallStop::End(*status)
    } else {
        CallStop::Trap(TrapCause::ErrComm)
    }
}

fn free_faults<M: Mem>(own: &OwnData, m: &M, to: u64, comm: &i32) -> Faults
    requires { AreSized own.now }
    ensures { (k : Kept) → k.own ≡ own.now → result ≡ replies.free_faults (areas_of (M.rank_of m.now) (M.top_of m.now) (M.bytes_of m.now)) (data_in k) to comm.now }
{
    Faults {
        other: !is_running(own),
        handle: !is_open(m, to, 4),
        comm: !facts_at(own, m, comm).known || *comm == COMM_WORLD,
        ..no_faults()
    }
}

#[tactic(auto, unfolding(mpi_rules::specs::Own::free_reply))]
pub fn comm_free<M: Mem, B: MatchBook>(
    alloc: Global,
    st: &mut MpiState<B>,
    m: &M,
    to: u64,
) -> Result<Done, CallStop>
    requires { AreSized st.old.own }
    ensures { Does (replies.free_reply (areas_of (M.rank_of m.now) (M.top_of m.now) (M.bytes_of m.now)) (data_in (kept st.old.own st.old.sweep (B.held st.old.book))) to) (kept st.old.own st.old.sweep (B.held st.old.book)) result (kept st.new.own st.new.sweep (B.held st.new.book)) }
{
    let comm = int_of(variable(m, to) as u64);
    if let Some(cause) = free_faults(&st.own, m, to, &comm).cause() {
        return Err(CallStop::Trap(cause));
    }
    if !is_open(m, to, 4) {
        return Err(CallStop::Trap(TrapCause::BadAddress));
    }
    let writes = int_write(alloc, to, &COMM_NULL)?;
    remove_communicator(alloc, &mut st.own, &comm);
    Ok(writing(writes))
}

fn remove_communicator(alloc: Global, own: &mut OwnData, comm: &i32)
    ensures { own.new ≡ replies.own_without_communicator comm.now own.old }
{
    let list = mem::replace(&mut own.communicators, Sequence::new(alloc));
    own.communicators = without(list, comm);
}

fn without(list: Sequence<Communicator>, comm: &i32) -> Sequence<Communicator>
    ensures { result ≡ data_words.without_communicator comm.now list }
{
    let mut all = list.into_vec();
    all.retain(|c| i32::from(c.number) != *comm);
    Sequence::from_vec(all)
}
