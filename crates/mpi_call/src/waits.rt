//! The second tick of a receive, Wait and Test.

ghost use Rattle.std.specs.Prelude.{◌≡◌, ◌≢◌, ◌-◌, ◌<◌, ◌∷◌, [], pos, Some, true, option_map, IfOk, IfErr, IfSome};
ghost use Rattle.rank_range.specs.Areas.{areas_of};
ghost use Rattle.mpi_rules.specs.Data as data_words;
ghost use Rattle.mpi_rules.specs.Faults.{cause_of};
ghost use Rattle.mpi_rules.specs.Requests as words;
ghost use Rattle.mpi_rules.specs.Places as places;
ghost use Rattle.mpi_rules.specs.Reply as reply_words;
ghost use Rattle.mpi_call.specs.Answers.{kept, data_in, Does, IsQuiet, MayDo};
ghost use Rattle.mpi_call.specs.Held.{IsHeld};
ghost use Rattle.mpi_call.specs.Lawful.{AreApart};
ghost use Rattle.mpi_call.specs.Sizes as sizes;

use crate::done::{CallStop, Done};
use crate::ending::end_request;
use crate::own::{no_faults, told};
use crate::places::{is_open, variable};
use crate::requests::{Sizes, completion, null_sizes};
use crate::state::{is_live, is_running};
use am_base::TrapCause;
use mpi_rules::Faults;
use mpi_types::{MatchBook, MpiState};
use rank_range::Mem;
use std::alloc::Global;

/// The second tick of a receive. There is nothing yet where its message hasn't come.
#[tactic(auto, unfolding(mpi_rules::specs::Requests::received_reply))]
pub fn received<M: Mem, B: MatchBook>(
    alloc: Global,
    st: &mut MpiState<B>,
    m: &M,
    status: u64,
) -> Result<Option<Done>, CallStop>
    requires some { 1 < st.old.own.next }
    requires live { data_words.is_live (data_in (kept st.old.own st.old.sweep (B.held st.old.book))) (st.old.own.next - 1) ≡ true }
    requires apart { AreApart st.old.own (B.held st.old.book) }
    ensures does { MayDo (words.received_reply (areas_of (M.rank_of m.now) (M.top_of m.now) (M.bytes_of m.now)) (data_in (kept st.old.own st.old.sweep (B.held st.old.book))) status) (kept st.old.own st.old.sweep (B.held st.old.book)) result (kept st.new.own st.new.sweep (B.held st.new.book)) }
    ensures quiet { IfOk result (λ o. IfSome o (λ done. IsQuiet done)) }
{
    let number = st.own.next - 1;
    let Some(s) = completion(st, number) else {
        return Ok(None);
    };
    match end_request(alloc, st, m, &s, number, None, None, status) {
        Ok(done) => Ok(Some(done)),
        Err(stop) => Err(stop),
    }
}

pub fn is_request<B: MatchBook>(st: &MpiState<B>, number: u32) -> bool
    ensures { result ≡ words.is_request (data_in (kept st.now.own st.now.sweep (B.held st.now.book))) number }
{
    number == 0 || is_live(st, number)
}

fn variable_faults<M: Mem, B: MatchBook>(st: &MpiState<B>, m: &M, at: u64) -> Faults
    ensures { result ≡ words.variable_faults (areas_of (M.rank_of m.now) (M.top_of m.now) (M.bytes_of m.now)) (data_in (kept st.now.own st.now.sweep (B.held st.now.book))) at }
{
    Faults {
        other: !is_running(&st.own),
        variable: !is_open(m, at, 4),
        request: !is_request(st, variable(m, at)),
        ..no_faults()
    }
}

/// The number that the variable holds, where nothing is wrong with it.
pub fn held_request<M: Mem, B: MatchBook>(
    st: &MpiState<B>,
    m: &M,
    at: u64,
) -> Result<u32, TrapCause>
    ensures ok { IfOk result (λ n. IsHeld (areas_of (M.rank_of m.now) (M.top_of m.now) (M.bytes_of m.now)) (data_in (kept st.now.own st.now.sweep (B.held st.now.book))) at n) }
    ensures err { IfErr result (λ why. Some why ≡ cause_of (words.variable_faults (areas_of (M.rank_of m.now) (M.top_of m.now) (M.bytes_of m.now)) (data_in (kept st.now.own st.now.sweep (B.held st.now.book))) at)) }
{
    match variable_faults(st, m, at).cause() {
        Some(cause) => Err(cause),
        None => Ok(variable(m, at)),
    }
}

/// What the request of the number has, if it is complete: 0 is `MPI_REQUEST_NULL`.
pub fn came_of<B: MatchBook>(st: &MpiState<B>, number: u32) -> Option<Sizes>
    requires { number ≢ 0 → data_words.is_live (data_in (kept st.now.own st.now.sweep (B.held st.now.book))) number ≡ true }
    ensures { result ≡ option_map (λ c. sizes.sizes_of c) (words.came_of (data_in (kept st.now.own st.now.sweep (B.held st.now.book))) number) }
{
    if number == 0 {
        return Some(null_sizes());
    }
    completion(st, number)
}

#[tactic(auto, unfolding(mpi_rules::specs::Requests::wait_reply))]
pub fn wait<M: Mem, B: MatchBook>(
    alloc: Global,
    st: &mut MpiState<B>,
    m: &M,
    at: u64,
    status: u64,
) -> Result<Option<Done>, CallStop>
    requires { AreApart st.old.own (B.held st.old.book) }
    ensures does { MayDo (words.wait_reply (areas_of (M.rank_of m.now) (M.top_of m.now) (M.bytes_of m.now)) (data_in (kept st.old.own st.old.sweep (B.held st.old.book))) at status) (kept st.old.own st.old.sweep (B.held st.old.book)) result (kept st.new.own st.new.sweep (B.held st.new.book)) }
    ensures quiet { IfOk result (λ o. IfSome o (λ done. IsQuiet done)) }
{
    let number = match held_request(st, m, at) {
        Ok(number) => number,
        Err(cause) => return Err(CallStop::Trap(cause)),
    };
    let Some(s) = came_of(st, number) else {
        return Ok(None);
    };
    match end_request(alloc, st, m, &s, number, Some(at), None, status) {
        Ok(done) => Ok(Some(done)),
        Err(stop) => Err(stop),
    }
}

#[tactic(auto, unfolding(mpi_rules::specs::Requests::test_reply))]
pub fn test<M: Mem, B: MatchBook>(
    alloc: Global,
    st: &mut MpiState<B>,
    m: &M,
    at: u64,
    flag: u64,
    status: u64,
) -> Result<Done, CallStop>
    requires { AreApart st.old.own (B.held st.old.book) }
    ensures does { Does (words.test_reply (areas_of (M.rank_of m.now) (M.top_of m.now) (M.bytes_of m.now)) (data_in (kept st.old.own st.old.sweep (B.held st.old.book))) at flag status) (kept st.old.own st.old.sweep (B.held st.old.book)) result (kept st.new.own st.new.sweep (B.held st.new.book)) }
    ensures quiet { IfOk result (λ done. IsQuiet done) }
{
    let number = match held_request(st, m, at) {
        Ok(number) => number,
        Err(cause) => return Err(CallStop::Trap(cause)),
    };
    match came_of(st, number) {
        Some(s) => end_request(alloc, st, m, &s, number, Some(at), Some(flag), status),
        None => told(alloc, m, flag, 0),
    }
}
