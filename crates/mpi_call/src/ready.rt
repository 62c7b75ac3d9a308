//! Whether a call can be answered now, without making it. Nothing here takes memory of the host.

ghost use Rattle.std.specs.Prelude.{◌≡◌, ◌+◌, ◌*◌, ◌<◌, ◌≤◌, ◌-◌, ◌==◌, ◌&&◌, ◌||◌, int_lt, pos, not, drop, length, true, is_some};
ghost use Rattle.std.specs.List.{list_all, list_any};
ghost use Rattle.am_base.specs.Calls.{mpi_parameters};
ghost use Rattle.rank_range.specs.Areas.{areas_of};
ghost use Rattle.rank_range.specs.Numbers.{number_at};
ghost use Rattle.mpi_types.specs.Reduce.{elements_of};
ghost use Rattle.mpi_rules.specs.Calls.{reply};
ghost use Rattle.mpi_rules.specs.Data as data_words;
ghost use Rattle.mpi_rules.specs.Requests as words;
ghost use Rattle.mpi_call.specs.Answers.{kept, data_in, call_of};
ghost use Rattle.mpi_call.specs.Lawful.{MayFinish};
ghost use Rattle.mpi_call.specs.Ready.{is_answered, gathered_in};
ghost use Rattle.mpi_call.specs.Served.{is_finished, is_second};

use crate::numbers::{count_of, int_at};
use crate::requests::completion;
use crate::waitall::array_faults;
use crate::waits::{came_of, held_request, is_request};
use am_base::MpiCall;
use mpi_types::{MatchBook, MpiState, Sweep};
use rank_range::{BadAddress, CallOut, Mem, Width, access, read_number};

/// The second tick of a receive.
#[tactic(auto, unfolding(mpi_rules::specs::Requests::received_reply))]
fn is_received<M: Mem, B: MatchBook>(st: &MpiState<B>, m: &M, status: u64) -> bool
    requires some { 1 < st.now.own.next }
    requires live { data_words.is_live (data_in (kept st.now.own st.now.sweep (B.held st.now.book))) (st.now.own.next - 1) ≡ true }
    ensures { result ≡ is_answered (words.received_reply (areas_of (M.rank_of m.now) (M.top_of m.now) (M.bytes_of m.now)) (data_in (kept st.now.own st.now.sweep (B.held st.now.book))) status) }
{
    let _seen = (m.top(), status);
    completion(st, st.own.next - 1).is_some()
}

#[tactic(auto, unfolding(mpi_rules::specs::Requests::wait_reply))]
fn is_waited<M: Mem, B: MatchBook>(st: &MpiState<B>, m: &M, at: u64, status: u64) -> bool
    ensures { result ≡ is_answered (words.wait_reply (areas_of (M.rank_of m.now) (M.top_of m.now) (M.bytes_of m.now)) (data_in (kept st.now.own st.now.sweep (B.held st.now.book))) at status) }
{
    let _status = status;
    match held_request(st, m, at) {
        Ok(number) => came_of(st, number).is_some(),
        Err(_) => true,
    }
}

/// The number of this place in an array.
fn number_in(bytes: &[u8], i: u32) -> u32
    requires { 4 * i + 4 ≤ length bytes.now }
    ensures { result ≡ number_at bytes.now (4 * i) 4 }
{
    read_number(bytes, 4 * i as usize, Width::Four) as u32
}

fn is_number(bytes: &[u8], i: u32, number: u32) -> bool
    requires { 4 * i + 4 ≤ length bytes.now }
    ensures { result ≡ (number_at bytes.now (4 * i) 4 == number) }
{
    number_in(bytes, i) == number
}

/// Whether the number stands there from this place on.
fn stands_later(bytes: &[u8], count: u32, from: u32, number: u32) -> bool
    requires inside { count * 4 ≤ length bytes.now }
    requires within { from ≤ count }
    ensures { result ≡ list_any (λ m. m == number) (drop from (elements_of 4 count bytes.now)) }
{
    let mut i = from;
    while i < count {
        if is_number(bytes, i, number) {
            return true;
        }
        i += 1;
    }
    false
}

/// Whether a number that isn't 0 stands twice.
fn stand_twice(bytes: &[u8], count: u32) -> bool
    requires { count * 4 ≤ length bytes.now }
    ensures { result ≡ words.has_twice (elements_of 4 count bytes.now) }
{
    let mut i = 0;
    while i < count {
        let number = number_in(bytes, i);
        if is_twice(number, stands_later(bytes, count, i + 1, number)) {
            return true;
        }
        i += 1;
    }
    false
}

fn is_twice(number: u32, later: bool) -> bool
    ensures { result ≡ (not (number == 0) && later) }
{
    number != 0 && later
}

/// Whether each number is that of a request.
fn all_requests<B: MatchBook>(st: &MpiState<B>, bytes: &[u8], count: u32) -> bool
    requires { count * 4 ≤ length bytes.now }
    ensures { result ≡ list_all (words.is_request (data_in (kept st.now.own st.now.sweep (B.held st.now.book)))) (elements_of 4 count bytes.now) }
{
    let mut i = 0;
    while i < count {
        if !is_request(st, number_in(bytes, i)) {
            return false;
        }
        i += 1;
    }
    true
}

/// Whether each of the requests is complete.
fn all_complete<B: MatchBook>(st: &MpiState<B>, bytes: &[u8], count: u32) -> bool
    requires inside { count * 4 ≤ length bytes.now }
    requires live { list_all (words.is_request (data_in (kept st.now.own st.now.sweep (B.held st.now.book)))) (elements_of 4 count bytes.now) ≡ true }
    ensures { result ≡ is_some (words.all_came (data_in (kept st.now.own st.now.sweep (B.held st.now.book))) (elements_of 4 count bytes.now)) }
{
    let mut i = 0;
    while i < count {
        match came_of(st, number_in(bytes, i)) {
            Some(_) => {}
            None => return false,
        }
        i += 1;
    }
    true
}

/// Whether the requests of the bytes' numbers are wrong or complete.
fn are_settled<B: MatchBook>(st: &MpiState<B>, bytes: &[u8], count: u32) -> bool
    requires { count * 4 ≤ length bytes.now }
    ensures { result ≡ (not (list_all (words.is_request (data_in (kept st.now.own st.now.sweep (B.held st.now.book)))) (elements_of 4 count bytes.now)) || (words.has_twice (elements_of 4 count bytes.now) || is_some (words.all_came (data_in (kept st.now.own st.now.sweep (B.held st.now.book))) (elements_of 4 count bytes.now)))) }
{
    !all_requests(st, bytes, count) || (stand_twice(bytes, count) || all_complete(st, bytes, count))
}

/// The same where the count is negative.
fn are_told<B: MatchBook>(st: &MpiState<B>, count: &i32, bytes: &[u8], size: u32) -> bool
    requires { size * 4 ≤ length bytes.now }
    ensures { result ≡ (int_lt count.now (pos 0) || (not (list_all (words.is_request (data_in (kept st.now.own st.now.sweep (B.held st.now.book)))) (elements_of 4 size bytes.now)) || (words.has_twice (elements_of 4 size bytes.now) || is_some (words.all_came (data_in (kept st.now.own st.now.sweep (B.held st.now.book))) (elements_of 4 size bytes.now))))) }
{
    *count < 0 || are_settled(st, bytes, size)
}

#[tactic(auto, unfolding(mpi_rules::specs::Requests::waitall_reply))]
fn is_waited_all<M: Mem, B: MatchBook>(
    st: &MpiState<B>,
    m: &M,
    count: &i32,
    requests: u64,
    status: u64,
) -> bool
    ensures { result ≡ is_answered (words.waitall_reply (areas_of (M.rank_of m.now) (M.top_of m.now) (M.bytes_of m.now)) (data_in (kept st.now.own st.now.sweep (B.held st.now.book))) count.now requests status) }
{
    let _status = status;
    if array_faults(st, m, count, requests).cause().is_some() {
        return true;
    }
    let size = count_of(count);
    match access::view(m, requests, size as u64 * 4) {
        Ok(bytes) => are_told(st, count, bytes, size),
        Err(BadAddress) => true,
    }
}

/// Whether the collective that was joined is gathered.
fn is_gathered(sweep: &Sweep) -> bool
    ensures { result ≡ gathered_in sweep.now.joined }
{
    match &sweep.joined {
        Some(joined) => joined.gathered.is_some(),
        None => false,
    }
}

/// Whether `finish` would answer the call now: it does just where this is so.
#[tactic(auto, unfolding(mpi_rules::specs::Calls::reply, mpi_rules::specs::Collectives::gathered_reply, mpi_rules::specs::Requests::test_reply))]
pub fn answerable<M: Mem, B: MatchBook>(st: &MpiState<B>, m: &M, c: &CallOut) -> bool
    requires served { is_finished c.now.call ≡ true }
    requires tick { c.now.second ≡ is_second c.now.call }
    requires arguments { length (mpi_parameters c.now.call) ≤ length c.now.arguments }
    requires may { MayFinish c.now.call c.now.arguments st.now.own st.now.sweep (B.held st.now.book) }
    ensures { result ≡ is_answered (reply (areas_of (M.rank_of m.now) (M.top_of m.now) (M.bytes_of m.now)) (data_in (kept st.now.own st.now.sweep (B.held st.now.book))) (call_of c.now)) }
{
    let words = c.arguments.as_slice();
    match c.call {
        MpiCall::Recv => is_received(st, m, words[6]),
        MpiCall::Wait => is_waited(st, m, words[0], words[1]),
        MpiCall::Waitall => is_waited_all(st, m, &int_at(words, 0), words[1], words[2]),
        MpiCall::Test => true,
        _ => is_gathered(&st.sweep),
    }
}
