//! The writer of a rank's requests: those of three lists in one, by their numbers.

ghost use Rattle.std.specs.Prelude.{◌≡◌, ◌++◌, ◌<◌, ◌^◌, true, length, map, OnOk};
ghost use Rattle.std.specs.List.{list_all, flat_map};
ghost use Rattle.rank_image.specs.declared.requests.Request.TheVariants.{Complete, Waiting, Matched};
ghost use Rattle.rank_image.specs.Requests.{request, first_number, merged, requests};

use crate::requests::{put_complete, put_matched, put_waiting};
use am_base::Bytes;
use byte_formats::{put_count32, put_u32};
use mpi_types::{CompleteRequest, MatchedPair, Posted};
use std::alloc::AllocError;

/// Stands where no request is left: more than each number.
const NONE_LEFT: u64 = 0x1_0000_0000;

/// Appends a rank's requests: the next one's number, and the live ones.
#[tactic(auto, unfolding(crate::specs::Requests::requests, crate::specs::Requests::request_list))]
pub fn put_requests(
    out: &mut Bytes,
    next: u32,
    complete: &[CompleteRequest],
    posted: &[Posted],
    matched: &[MatchedPair],
) -> Result<(), AllocError>
    requires { requests.fits (record { next = next; complete = complete.now; posted = posted.now; matched = matched.now }) ≡ true }
    ensures { OnOk result (out.new ≡ out.old ++ requests.spell (record { next = next; complete = complete.now; posted = posted.now; matched = matched.now })) }
{
    put_u32(out, next)?;
    put_count32(out, complete.len() + posted.len() + matched.len())?;
    put_merged(out, complete, posted, matched)
}

/// Appends the requests of three lists, at each step the one with the least number.
fn put_merged(
    out: &mut Bytes,
    complete: &[CompleteRequest],
    posted: &[Posted],
    matched: &[MatchedPair],
) -> Result<(), AllocError>
    requires { list_all request.fits (merged complete.now posted.now matched.now) ≡ true }
    ensures { OnOk result (out.new ≡ out.old ++ flat_map request.spell (merged complete.now posted.now matched.now)) }
{
    let mut ended = complete;
    let mut waiting = posted;
    let mut paired = matched;
    while !(ended.is_empty() && waiting.is_empty() && paired.is_empty()) {
        let first = first_complete(ended);
        let second = first_waiting(waiting);
        let third = first_matched(paired);
        if first <= second && first <= third {
            put_complete(out, &ended[0])?;
            ended = &ended[1..];
            continue;
        }
        if second <= third {
            put_waiting(out, &waiting[0])?;
            waiting = &waiting[1..];
            continue;
        }
        put_matched(out, &paired[0])?;
        paired = &paired[1..];
    }
    Ok(())
}

/// The number of the first complete request.
fn first_complete(requests: &[CompleteRequest]) -> u64
    ensures value { result ≡ first_number (map Complete requests.now) }
    ensures some { 0 < length requests.now → result < 2 ^ 32 }
{
    match requests.first() {
        Some(request) => request.number as u64,
        None => NONE_LEFT,
    }
}

/// The number of the first receive that waits.
fn first_waiting(receives: &[Posted]) -> u64
    ensures value { result ≡ first_number (map Waiting receives.now) }
    ensures some { 0 < length receives.now → result < 2 ^ 32 }
{
    match receives.first() {
        Some(receive) => receive.request as u64,
        None => NONE_LEFT,
    }
}

/// The number of the first receive that has its message.
fn first_matched(pairs: &[MatchedPair]) -> u64
    ensures value { result ≡ first_number (map Matched pairs.now) }
    ensures some { 0 < length pairs.now → result < 2 ^ 32 }
{
    match pairs.first() {
        Some(pair) => pair.receive.request as u64,
        None => NONE_LEFT,
    }
}
