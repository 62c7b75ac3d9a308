//! Calls that end one request: the second tick of a receive, Wait and Test.

ghost use Rattle.std.specs.Prelude.{◌≡◌, ◌++◌, ◌==◌, ◌&&◌, ◌||◌, ◌≢◌, not, [], ◌∷◌, List, true, Some, option_map, pos, is_some, IfOk, IfSome, OnOk, length};
ghost use Rattle.rank_range.specs.Areas.{areas_of};
ghost use Rattle.mpi_types.specs.declared.call.Write.{Write};
ghost use Rattle.mpi_rules.specs.Data as data_words;
ghost use Rattle.mpi_rules.specs.Places as places;
ghost use Rattle.mpi_rules.specs.Requests as words;
ghost use Rattle.mpi_rules.specs.Requests.{Came};
ghost use Rattle.mpi_call.specs.Answers.{kept, data_in, Does, IsQuiet, Took};
ghost use Rattle.mpi_call.specs.Lawful.{AreApart};
ghost use Rattle.mpi_call.specs.Parts.{variable_part, flag_part};
ghost use Rattle.mpi_call.specs.Sizes as sizes;

use crate::done::{CallStop, Done, writing};
use crate::places::{is_open, push_bytes, push_number, push_status};
use crate::requests::{Sizes, take_body};
use am_base::Bytes;
use mpi_rules::LateFaults;
use mpi_types::{MatchBook, MpiState, Sequence, Write};
use rank_range::Mem;
use std::alloc::{AllocError, Global};

/// Whether the status may be written, where it isn't ignored.
fn has_status<M: Mem>(m: &M, status: u64) -> bool
    ensures { result ≡ (status == 0 || places.is_open (areas_of (M.rank_of m.now) (M.top_of m.now) (M.bytes_of m.now)) status 16) }
{
    status == 0 || is_open(m, status, 16)
}

/// Whether the bytes that came, others and the status may be written.
fn may_write<M: Mem>(m: &M, s: &Sizes, others: bool, status: u64) -> bool
    ensures { result ≡ (places.is_open (areas_of (M.rank_of m.now) (M.top_of m.now) (M.bytes_of m.now)) s.now.buffer s.now.length && (others && (status == 0 || places.is_open (areas_of (M.rank_of m.now) (M.top_of m.now) (M.bytes_of m.now)) status 16))) }
{
    is_open(m, s.buffer, s.length as u64) && (others && has_status(m, status))
}

/// Whether the buffer, of all its room, or what is written isn't accessible.
fn is_closed<M: Mem>(m: &M, s: &Sizes, others: bool, status: u64) -> bool
    ensures { result ≡ (not (places.is_open (areas_of (M.rank_of m.now) (M.top_of m.now) (M.bytes_of m.now)) s.now.buffer s.now.room) || not (places.is_open (areas_of (M.rank_of m.now) (M.top_of m.now) (M.bytes_of m.now)) s.now.buffer s.now.length && (others && (status == 0 || places.is_open (areas_of (M.rank_of m.now) (M.top_of m.now) (M.bytes_of m.now)) status 16)))) }
{
    !is_open(m, s.buffer, s.room as u64) || !may_write(m, s, others, status)
}

/// What is looked at when a request ends.
fn came_faults<M: Mem>(m: &M, s: &Sizes, others: bool, status: u64) -> LateFaults
    ensures { (c : Came) (variable more : List Write) → s.now ≡ sizes.sizes_of c → places.are_open (areas_of (M.rank_of m.now) (M.top_of m.now) (M.bytes_of m.now)) variable ≡ true → others ≡ places.are_open (areas_of (M.rank_of m.now) (M.top_of m.now) (M.bytes_of m.now)) more → result ≡ words.came_faults (areas_of (M.rank_of m.now) (M.top_of m.now) (M.bytes_of m.now)) c (words.came_writes c variable more status) }
{
    LateFaults {
        long: (s.room as usize) < s.length,
        mismatched: false,
        address: is_closed(m, s, others, status),
    }
}

/// Whether the flag may be written, where there is one.
fn has_flag<M: Mem>(m: &M, flag: Option<u64>) -> bool
    ensures { result ≡ places.are_open (areas_of (M.rank_of m.now) (M.top_of m.now) (M.bytes_of m.now)) (flag_part flag) }
{
    match flag {
        Some(flag) => is_open(m, flag, 4),
        None => true,
    }
}

pub fn push_variable(
    alloc: Global,
    writes: &mut Sequence<Write>,
    variable: Option<u64>,
    number: u32,
) -> Result<(), AllocError>
    ensures { OnOk result (writes.new ≡ writes.old ++ variable_part variable number) }
{
    let Some(variable) = variable else {
        return Ok(());
    };
    if number == 0 {
        return Ok(());
    }
    push_number(alloc, writes, variable, 0)
}

fn push_flag(
    alloc: Global,
    writes: &mut Sequence<Write>,
    flag: Option<u64>,
) -> Result<(), AllocError>
    ensures { OnOk result (writes.new ≡ writes.old ++ flag_part flag) }
{
    match flag {
        Some(flag) => push_number(alloc, writes, flag, 1),
        None => Ok(()),
    }
}

/// What is written when a request ends.
fn came_writes(
    alloc: Global,
    s: &Sizes,
    body: Bytes,
    number: u32,
    variable: Option<u64>,
    flag: Option<u64>,
    status: u64,
) -> Result<Sequence<Write>, AllocError>
    ensures { IfOk result (λ writes. writes ≡ places.write_of s.now.buffer body ++ (variable_part variable number ++ (flag_part flag ++ places.status_writes status s.now.status))) }
{
    let mut writes = Sequence::new(alloc);
    push_bytes(&mut writes, s.buffer, body)?;
    push_variable(alloc, &mut writes, variable, number)?;
    push_flag(alloc, &mut writes, flag)?;
    push_status(alloc, &mut writes, status, &s.status)?;
    Ok(writes)
}

/// A request that is complete ends, where nothing is wrong.
pub fn end_request<M: Mem, B: MatchBook>(
    alloc: Global,
    st: &mut MpiState<B>,
    m: &M,
    s: &Sizes,
    number: u32,
    variable: Option<u64>,
    flag: Option<u64>,
    status: u64,
) -> Result<Done, CallStop>
    requires live { number ≢ 0 → data_words.is_live (data_in (kept st.old.own st.old.sweep (B.held st.old.book))) number ≡ true }
    requires apart { AreApart st.old.own (B.held st.old.book) }
    requires came { Some s.now ≡ option_map (λ c. sizes.sizes_of c) (words.came_of (data_in (kept st.old.own st.old.sweep (B.held st.old.book))) number) }
    requires variable_open { places.are_open (areas_of (M.rank_of m.now) (M.top_of m.now) (M.bytes_of m.now)) (variable_part variable number) ≡ true }
    ensures does { (c : Came) → words.came_of (data_in (kept st.old.own st.old.sweep (B.held st.old.book))) number ≡ Some c → Does (words.came_reply (areas_of (M.rank_of m.now) (M.top_of m.now) (M.bytes_of m.now)) (words.ending number (data_in (kept st.old.own st.old.sweep (B.held st.old.book)))) c (words.came_writes c (variable_part variable number) (flag_part flag) status)) (kept st.old.own st.old.sweep (B.held st.old.book)) result (kept st.new.own st.new.sweep (B.held st.new.book)) }
    ensures quiet { IfOk result (λ done. IsQuiet done) }
{
    if let Some(cause) = came_faults(m, s, has_flag(m, flag), status).cause() {
        return Err(CallStop::Trap(cause));
    }
    let body = take(alloc, st, number);
    let writes = came_writes(alloc, s, body, number, variable, flag, status)?;
    Ok(writing(writes))
}

/// A complete request ends; `MPI_REQUEST_NULL` has no bytes and doesn't end.
pub fn take<B: MatchBook>(alloc: Global, st: &mut MpiState<B>, number: u32) -> Bytes
    requires live { number ≢ 0 → data_words.is_live (data_in (kept st.old.own st.old.sweep (B.held st.old.book))) number ≡ true }
    requires apart { AreApart st.old.own (B.held st.old.book) }
    requires done { is_some (words.came_of (data_in (kept st.old.own st.old.sweep (B.held st.old.book))) number) ≡ true }
    ensures { IfSome (words.came_of (data_in (kept st.old.own st.old.sweep (B.held st.old.book))) number) (λ c. Took c (words.ending number (data_in (kept st.old.own st.old.sweep (B.held st.old.book)))) (kept st.old.own st.old.sweep (B.held st.old.book)) result (kept st.new.own st.new.sweep (B.held st.new.book))) }
{
    if number == 0 {
        return Bytes::new(alloc);
    }
    take_body(alloc, st, number)
}
