//! The array of requests that Waitall is given.

ghost use Rattle.std.specs.Prelude.{◌≡◌, ◌+◌, ◌*◌, ◌<◌, ◌≤◌, ◌==◌, ◌&&◌, not, drop, length, slice_index, true, IfOk};
ghost use Rattle.std.specs.List.{list_all, list_any};
ghost use Rattle.rank_range.specs.Areas.{areas_of};
ghost use Rattle.mpi_types.specs.Reduce.{elements_of};
ghost use Rattle.mpi_rules.specs.Places as places;
ghost use Rattle.mpi_rules.specs.Requests as words;
ghost use Rattle.mpi_call.specs.Answers.{kept, data_in};

use crate::places::read;
use crate::waits::is_request;
use mpi_types::{MatchBook, MpiState, Sequence};
use rank_range::{Mem, Width, read_number};
use std::alloc::{AllocError, Global};

/// So many numbers of four bytes.
fn numbers_in(alloc: Global, bytes: &[u8], count: u32) -> Result<Sequence<u32>, AllocError>
    requires { count * 4 ≤ length bytes.now }
    ensures { IfOk result (λ numbers. numbers ≡ elements_of 4 count bytes.now) }
{
    let mut numbers = Sequence::new(alloc);
    let mut i = 0;
    while i < count {
        numbers.push(read_number(bytes, 4 * i as usize, Width::Four) as u32)?;
        i += 1;
    }
    Ok(numbers)
}

/// The numbers that an accessible array holds.
pub fn numbers_at<M: Mem>(
    alloc: Global,
    m: &M,
    requests: u64,
    count: u32,
) -> Result<Sequence<u32>, AllocError>
    requires { places.is_open (areas_of (M.rank_of m.now) (M.top_of m.now) (M.bytes_of m.now)) requests (count * 4) ≡ true }
    ensures { IfOk result (λ numbers. numbers ≡ words.numbers_at (areas_of (M.rank_of m.now) (M.top_of m.now) (M.bytes_of m.now)) requests count) }
{
    let bytes = read(alloc, m, requests, count as u64 * 4)?;
    numbers_in(alloc, bytes.as_slice(), count)
}

fn is_among(number: u32, list: &[u32]) -> bool
    ensures { result ≡ list_any (λ m. m == number) list.now }
{
    list.iter().any(|m| *m == number)
}

/// Whether the number there isn't 0 and stands there again later.
fn is_repeated(numbers: &[u32], i: usize) -> bool
    requires { i < length numbers.now }
    ensures { result ≡ (not (slice_index numbers.now i == 0) && list_any (λ m. m == slice_index numbers.now i) (drop (i + 1) numbers.now)) }
{
    numbers[i] != 0 && is_among(numbers[i], &numbers[i + 1..])
}

/// Whether a number that isn't 0 stands twice.
pub fn has_twice(numbers: &[u32]) -> bool
    ensures { result ≡ words.has_twice numbers.now }
{
    let mut i = 0;
    while i < numbers.len() {
        if is_repeated(numbers, i) {
            return true;
        }
        i += 1;
    }
    false
}

/// Whether each is that of a live request or of none.
pub fn are_requests<B: MatchBook>(st: &MpiState<B>, numbers: &[u32]) -> bool
    ensures { result ≡ list_all (words.is_request (data_in (kept st.now.own st.now.sweep (B.held st.now.book)))) numbers.now }
{
    let mut i = 0;
    while i < numbers.len() {
        if !is_request(st, numbers[i]) {
            return false;
        }
        i += 1;
    }
    true
}
