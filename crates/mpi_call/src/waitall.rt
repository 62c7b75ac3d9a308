//! Waitall.

ghost use Rattle.std.specs.Prelude.{◌≡◌, ◌≢◌, ◌+◌, ◌*◌, ◌^◌, ◌<◌, ◌≤◌, List, map, length, Some, true, false, is_some, option_map, IfOk, IfErr, IfSome, OnOk};
ghost use Rattle.std.specs.List.{list_all, list_any};
ghost use Rattle.rank_range.specs.Areas.{areas_of};
ghost use Rattle.mpi_rules.specs.Data as data_words;
ghost use Rattle.mpi_rules.specs.Places as places;
ghost use Rattle.mpi_rules.specs.Requests as words;
ghost use Rattle.mpi_rules.specs.Requests.{Came};
ghost use Rattle.mpi_call.specs.Answers.{kept, data_in, IsQuiet, MayDo};
ghost use Rattle.mpi_call.specs.Arrays as arrays;
ghost use Rattle.mpi_call.specs.Arrays.{AreHeld, Refuses, EndsOne, EndsAll};
ghost use Rattle.mpi_call.specs.Lawful.{AreApart};
ghost use Rattle.mpi_call.specs.Sizes.{sizes_of};

use crate::arrays::{are_requests, has_twice, numbers_at};
use crate::done::{CallStop, Done, writing};
use crate::ending::{push_variable, take};
use crate::numbers::count_of;
use crate::own::no_faults;
use crate::places::{is_open, push_bytes, push_status};
use crate::requests::Sizes;
use crate::state::is_running;
use crate::waits::came_of;
use mpi_rules::{Faults, LateFaults};
use mpi_types::{MatchBook, MpiState, Sequence, Write};
use rank_range::Mem;
use std::alloc::{AllocError, Global};

/// What is looked at before the numbers.
pub fn array_faults<M: Mem, B: MatchBook>(
    st: &MpiState<B>,
    m: &M,
    count: &i32,
    requests: u64,
) -> Faults
    ensures { result ≡ arrays.array_faults (areas_of (M.rank_of m.now) (M.top_of m.now) (M.bytes_of m.now)) (data_in (kept st.now.own st.now.sweep (B.held st.now.book))) count.now requests }
{
    Faults {
        other: !is_running(&st.own),
        variable: !is_open(m, requests, count_of(count) as u64 * 4),
        ..no_faults()
    }
}

/// What is looked at of the numbers.
fn number_faults<B: MatchBook>(st: &MpiState<B>, count: &i32, numbers: &[u32]) -> Faults
    ensures { result ≡ arrays.number_faults (data_in (kept st.now.own st.now.sweep (B.held st.now.book))) count.now numbers.now }
{
    Faults {
        request: *count < 0 || (!are_requests(st, numbers) || has_twice(numbers)),
        ..no_faults()
    }
}

/// The numbers of the requests, where nothing is wrong with them.
fn held_numbers<M: Mem, B: MatchBook>(
    alloc: Global,
    st: &MpiState<B>,
    m: &M,
    count: &i32,
    requests: u64,
) -> Result<Sequence<u32>, CallStop>
    ensures ok { IfOk result (λ numbers. AreHeld (areas_of (M.rank_of m.now) (M.top_of m.now) (M.bytes_of m.now)) (data_in (kept st.now.own st.now.sweep (B.held st.now.book))) count.now requests numbers) }
    ensures err { IfErr result (λ stop. Refuses (words.waitall_faults (areas_of (M.rank_of m.now) (M.top_of m.now) (M.bytes_of m.now)) (data_in (kept st.now.own st.now.sweep (B.held st.now.book))) count.now requests (words.numbers_at (areas_of (M.rank_of m.now) (M.top_of m.now) (M.bytes_of m.now)) requests (places.count_of count.now))) stop) }
{
    if let Some(cause) = array_faults(st, m, count, requests).cause() {
        return Err(CallStop::Trap(cause));
    }
    let numbers = match numbers_at(alloc, m, requests, count_of(count)) {
        Ok(numbers) => numbers,
        Err(AllocError) => return Err(CallStop::Memory),
    };
    match number_faults(st, count, numbers.as_slice()).cause() {
        Some(cause) => {
            drop(numbers);
            Err(CallStop::Trap(cause))
        }
        None => Ok(numbers),
    }
}

/// What all the requests have, where each is complete.
fn all_came<B: MatchBook>(
    alloc: Global,
    st: &MpiState<B>,
    numbers: &[u32],
) -> Result<Option<Sequence<Sizes>>, AllocError>
    requires { list_all (words.is_request (data_in (kept st.now.own st.now.sweep (B.held st.now.book)))) numbers.now ≡ true }
    ensures { IfOk result (λ all. all ≡ option_map (map sizes_of) (words.all_came (data_in (kept st.now.own st.now.sweep (B.held st.now.book))) numbers.now)) }
{
    let mut all = Sequence::new(alloc);
    let mut i = 0;
    while i < numbers.len() {
        match came_of(st, numbers[i]) {
            Some(s) => all.push(s)?,
            None => {
                drop(all);
                return Ok(None);
            }
        }
        i += 1;
    }
    Ok(Some(all))
}

fn are_long(all: &[Sizes]) -> bool
    ensures { result ≡ list_any arrays.is_long all.now }
{
    all.iter().any(|s| (s.room as usize) < s.length)
}

fn have_buffers<M: Mem>(m: &M, all: &[Sizes]) -> bool
    ensures { result ≡ list_all (arrays.has_buffer (areas_of (M.rank_of m.now) (M.top_of m.now) (M.bytes_of m.now))) all.now }
{
    let mut i = 0;
    while i < all.len() {
        if !is_open(m, all[i].buffer, all[i].room as u64) {
            return false;
        }
        i += 1;
    }
    true
}

fn have_bodies<M: Mem>(m: &M, all: &[Sizes]) -> bool
    ensures { result ≡ list_all (arrays.has_body (areas_of (M.rank_of m.now) (M.top_of m.now) (M.bytes_of m.now))) all.now }
{
    let mut i = 0;
    while i < all.len() {
        if !is_open(m, all[i].buffer, all[i].length as u64) {
            return false;
        }
        i += 1;
    }
    true
}

fn has_statuses<M: Mem>(m: &M, status: u64, count: usize) -> bool
    requires { count < 2 ^ 32 }
    ensures { result ≡ words.has_statuses (areas_of (M.rank_of m.now) (M.top_of m.now) (M.bytes_of m.now)) status count }
{
    status == 0 || is_open(m, status, count as u64 * 16)
}

/// What is looked at when the requests end.
fn all_faults<M: Mem>(m: &M, all: &[Sizes], status: u64) -> LateFaults
    requires { length all.now < 2 ^ 32 }
    ensures { result ≡ arrays.sizes_faults (areas_of (M.rank_of m.now) (M.top_of m.now) (M.bytes_of m.now)) all.now status }
{
    LateFaults {
        long: are_long(all),
        mismatched: false,
        address: !have_buffers(m, all)
            || (!has_statuses(m, status, all.len()) || !have_bodies(m, all)),
    }
}

/// One of the requests ends.
fn end_one<B: MatchBook>(
    alloc: Global,
    st: &mut MpiState<B>,
    writes: &mut Sequence<Write>,
    s: &Sizes,
    number: u32,
    variable: u64,
    status: u64,
) -> Result<(), AllocError>
    requires live { number ≢ 0 → data_words.is_live (data_in (kept st.old.own st.old.sweep (B.held st.old.book))) number ≡ true }
    requires apart { AreApart st.old.own (B.held st.old.book) }
    requires done { is_some (words.came_of (data_in (kept st.old.own st.old.sweep (B.held st.old.book))) number) ≡ true }
    ensures { OnOk result ((c : Came) → words.came_of (data_in (kept st.old.own st.old.sweep (B.held st.old.book))) number ≡ Some c → s.now ≡ sizes_of c → EndsOne c number variable status (kept st.old.own st.old.sweep (B.held st.old.book)) (kept st.new.own st.new.sweep (B.held st.new.book)) writes.old writes.new) }
{
    let body = take(alloc, st, number);
    push_bytes(writes, s.buffer, body)?;
    push_variable(alloc, writes, Some(variable), number)?;
    push_status(alloc, writes, status, &s.status)
}

/// The place of a status in an array; there is none where statuses are ignored.
fn status_place(status: u64, i: usize) -> u64
    requires { status ≢ 0 → status + 16 * i < 2 ^ 64 }
    ensures { result ≡ arrays.status_at status i }
{
    if status == 0 {
        0
    } else {
        status + 16 * i as u64
    }
}

/// All of the requests end, one after another.
fn end_all<B: MatchBook>(
    alloc: Global,
    st: &mut MpiState<B>,
    all: &[Sizes],
    numbers: &[u32],
    requests: u64,
    status: u64,
) -> Result<Sequence<Write>, AllocError>
    requires apart { AreApart st.old.own (B.held st.old.book) }
    requires live { list_all (words.is_request (data_in (kept st.old.own st.old.sweep (B.held st.old.book)))) numbers.now ≡ true }
    requires once { words.has_twice numbers.now ≡ false }
    requires came { Some all.now ≡ option_map (map sizes_of) (words.all_came (data_in (kept st.old.own st.old.sweep (B.held st.old.book))) numbers.now) }
    requires sizes { length all.now ≡ length numbers.now }
    requires variables { requests + 4 * length numbers.now ≤ 2 ^ 64 }
    requires statuses { status ≢ 0 → status + 16 * length numbers.now ≤ 2 ^ 64 }
    ensures { IfOk result (λ writes. (came : List Came) → words.all_came (data_in (kept st.old.own st.old.sweep (B.held st.old.book))) numbers.now ≡ Some came → EndsAll numbers.now came requests status (kept st.old.own st.old.sweep (B.held st.old.book)) (kept st.new.own st.new.sweep (B.held st.new.book)) writes) }
{
    let mut writes = Sequence::new(alloc);
    let mut i = 0;
    while i < numbers.len() {
        let variable = requests + 4 * i as u64;
        end_one(
            alloc,
            st,
            &mut writes,
            &all[i],
            numbers[i],
            variable,
            status_place(status, i),
        )?;
        i += 1;
    }
    Ok(writes)
}

/// All of the requests end, where nothing is wrong.
fn end_where_open<M: Mem, B: MatchBook>(
    alloc: Global,
    st: &mut MpiState<B>,
    m: &M,
    all: &[Sizes],
    numbers: &[u32],
    requests: u64,
    status: u64,
) -> Result<Option<Done>, CallStop>
    requires apart { AreApart st.old.own (B.held st.old.book) }
    requires live { list_all (words.is_request (data_in (kept st.old.own st.old.sweep (B.held st.old.book)))) numbers.now ≡ true }
    requires once { words.has_twice numbers.now ≡ false }
    requires came { Some all.now ≡ option_map (map sizes_of) (words.all_came (data_in (kept st.old.own st.old.sweep (B.held st.old.book))) numbers.now) }
    requires reached { places.is_open (areas_of (M.rank_of m.now) (M.top_of m.now) (M.bytes_of m.now)) requests (length numbers.now * 4) ≡ true }
    requires sizes { length all.now ≡ length numbers.now }
    requires few { length numbers.now < 2 ^ 31 }
    ensures does { MayDo (words.waited_all (areas_of (M.rank_of m.now) (M.top_of m.now) (M.bytes_of m.now)) (data_in (kept st.old.own st.old.sweep (B.held st.old.book))) requests status numbers.now (words.all_came (data_in (kept st.old.own st.old.sweep (B.held st.old.book))) numbers.now)) (kept st.old.own st.old.sweep (B.held st.old.book)) result (kept st.new.own st.new.sweep (B.held st.new.book)) }
    ensures quiet { IfOk result (λ o. IfSome o (λ done. IsQuiet done)) }
{
    let _rank = m.rank();
    if let Some(cause) = all_faults(m, all, status).cause() {
        return Err(CallStop::Trap(cause));
    }
    let writes = match end_all(alloc, st, all, numbers, requests, status) {
        Ok(writes) => writes,
        Err(AllocError) => return Err(CallStop::Memory),
    };
    Ok(Some(writing(writes)))
}

/// All requests of an array end, where each is complete.
#[tactic(auto, unfolding(mpi_rules::specs::Requests::waitall_reply))]
pub fn waitall<M: Mem, B: MatchBook>(
    alloc: Global,
    st: &mut MpiState<B>,
    m: &M,
    count: &i32,
    requests: u64,
    status: u64,
) -> Result<Option<Done>, CallStop>
    requires { AreApart st.old.own (B.held st.old.book) }
    ensures does { MayDo (words.waitall_reply (areas_of (M.rank_of m.now) (M.top_of m.now) (M.bytes_of m.now)) (data_in (kept st.old.own st.old.sweep (B.held st.old.book))) count.now requests status) (kept st.old.own st.old.sweep (B.held st.old.book)) result (kept st.new.own st.new.sweep (B.held st.new.book)) }
    ensures quiet { IfOk result (λ o. IfSome o (λ done. IsQuiet done)) }
{
    let numbers = match held_numbers(alloc, st, m, count, requests) {
        Ok(numbers) => numbers,
        Err(stop) => return Err(stop),
    };
    let came = match all_came(alloc, st, numbers.as_slice()) {
        Ok(came) => came,
        Err(AllocError) => {
            drop(numbers);
            return Err(CallStop::Memory);
        }
    };
    let Some(all) = came else {
        drop(numbers);
        return Ok(None);
    };
    let result = end_where_open(
        alloc,
        st,
        m,
        all.as_slice(),
        numbers.as_slice(),
        requests,
        status,
    );
    drop(all);
    drop(numbers);
    result
}
