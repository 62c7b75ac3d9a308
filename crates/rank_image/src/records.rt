//! Whether the records of a rank's calls are sound, and the numbers of ranks that it keeps.

ghost use Rattle.std.specs.Prelude.{◌≡◌, ◌<◌, ◌≤◌, length};
ghost use Rattle.std.specs.List.{list_all};
ghost use Rattle.rank_range.specs.Layout.{range_bytes, stack_start};
ghost use Rattle.rank_image.specs.Image.{record_place, fits_record, fit_records, top_at, is_rank, is_from, is_paired_from, is_held_from, has_members, are_ranks};

use crate::middle::Middle;
use crate::tail::Tail;
use am_base::RankId;
use mpi_types::{Communicator, HeldMessage, MatchedPair, Message};
use rank_range::{CONTROL_START, RANGE_BYTES, STACK_START, Width, read_number};

/// How many bytes the record of a call has.
const RECORD_BYTES: usize = 288;

/// Where the record of a call stands.
fn record_place(k: u16) -> usize
    requires { k < 256 }
    ensures { result ≡ record_place k }
{
    CONTROL_START as usize + RECORD_BYTES * k as usize
}

/// Whether the call's frame lies in the data stack, and its record has room for its operands.
fn fits_record(bytes: &[u8], k: u16) -> bool
    requires whole { length bytes.now ≡ range_bytes }
    requires few { k < 256 }
    ensures { result ≡ fits_record bytes.now k }
{
    let place = record_place(k);
    let start = read_number(bytes, place + 8, Width::Eight);
    let end = read_number(bytes, place + 16, Width::Eight);
    let operands = read_number(bytes, place + 24, Width::Eight);
    STACK_START as u64 <= start && start <= end && end <= RANGE_BYTES as u64 && operands <= 32
}

/// Whether that holds of all records of so many calls.
#[tactic(auto, unfolding(crate::specs::Image::fit_records))]
pub fn fit_records(bytes: &[u8], depth: u16) -> bool
    requires whole { length bytes.now ≡ range_bytes }
    requires few { depth ≤ 256 }
    ensures { result ≡ fit_records bytes.now depth }
{
    let mut left = depth;
    while left > 0 {
        left -= 1;
        if !fits_record(bytes, left) {
            return false;
        }
    }
    true
}

/// The offset at which the data stack ends.
#[tactic(auto, unfolding(crate::specs::Image::top_at))]
pub fn top_at(bytes: &[u8], depth: u16) -> u64
    requires whole { length bytes.now ≡ range_bytes }
    requires few { depth ≤ 256 }
    ensures { result ≡ top_at bytes.now depth }
{
    if depth == 0 {
        return STACK_START as u64;
    }
    read_number(bytes, record_place(depth - 1) + 16, Width::Eight)
}

/// Whether the number is one of the run's ranks.
fn is_rank(ranks: usize, r: RankId) -> bool
    ensures { result ≡ is_rank ranks r }
{
    (r.0 as usize) < ranks
}

/// Whether the pairs' messages are of the run's ranks.
fn are_paired_from(ranks: usize, pairs: &[MatchedPair]) -> bool
    ensures { result ≡ list_all (is_paired_from ranks) pairs.now }
{
    for pair in pairs {
        if !is_rank(ranks, pair.message.sender) {
            return false;
        }
    }
    true
}

/// Whether the messages are of the run's ranks.
fn are_from(ranks: usize, messages: &[Message]) -> bool
    ensures { result ≡ list_all (is_from ranks) messages.now }
{
    for message in messages {
        if !is_rank(ranks, message.sender) {
            return false;
        }
    }
    true
}

/// Whether the messages that are held are of the run's ranks.
fn are_held_from(ranks: usize, held: &[HeldMessage]) -> bool
    ensures { result ≡ list_all (is_held_from ranks) held.now }
{
    for one in held {
        if !is_rank(ranks, one.message.sender) {
            return false;
        }
    }
    true
}

/// Whether these are the run's ranks.
fn are_members(ranks: usize, members: &[RankId]) -> bool
    ensures { result ≡ list_all (is_rank ranks) members.now }
{
    for member in members {
        if !is_rank(ranks, *member) {
            return false;
        }
    }
    true
}

/// Whether the communicators' members are the run's ranks.
fn have_members(ranks: usize, communicators: &[Communicator]) -> bool
    ensures { result ≡ list_all (has_members ranks) communicators.now }
{
    for communicator in communicators {
        if !are_members(ranks, communicator.group.members.as_slice()) {
            return false;
        }
    }
    true
}

/// Whether each number of a rank is one of the run's.
#[tactic(auto, unfolding(crate::specs::Image::are_ranks))]
pub fn are_ranks(rank: RankId, middle: &Middle, tail: &Tail) -> bool
    ensures { result ≡ are_ranks rank middle.now tail.now }
{
    let ranks = tail.sent.len();
    is_rank(ranks, rank)
        && are_paired_from(ranks, middle.requests.matched.as_slice())
        && have_members(ranks, middle.communicators.as_slice())
        && are_held_from(ranks, tail.held.as_slice())
        && are_from(ranks, tail.arrived.as_slice())
}
