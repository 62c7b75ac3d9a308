//! Finding what a receive or a message meets first.

ghost use Rattle.std.specs.Prelude.{◌≡◌, ◌≢◌, ◌↔◌, IsTrue, MatchOption, All, Any, AllPairs, ◌<◌, ◌≤◌, length, vec_len, vec_capacity};
ghost use Rattle.std.specs.List.{insert};
ghost use Rattle.mpi_types.specs.Accepts.{Accepts, IsAcceptedBy};
ghost use Rattle.mpi_types.specs.First.{NoneOf};
ghost use Rattle.matcher.specs.Search.{IsFirstAt, IsAt, IsPlaceOf};

use mpi_types::{Ctx, MatchedPair, Message, Posted, accepts};

/// Where the first message stands that a receive with this context, source and tag accepts.
pub fn first_accepted(ctx: &Ctx, source: i32, tag: i32, arrived: &[Message]) -> Option<usize>
    ensures { MatchOption result (NoneOf (Accepts ctx.now source tag) arrived.now) (IsFirstAt (Accepts ctx.now source tag) arrived.now) }
{
    for (at, message) in arrived.iter().enumerate() {
        if accepts(ctx, source, tag, message) {
            return Some(at);
        }
    }
    None
}

/// Where the first message stands that the receive accepts.
pub fn first_for(receive: &Posted, arrived: &[Message]) -> Option<usize>
    ensures { MatchOption result (NoneOf (IsAcceptedBy receive.now) arrived.now) (IsFirstAt (IsAcceptedBy receive.now) arrived.now) }
{
    for (at, message) in arrived.iter().enumerate() {
        if receive.accepts(message) {
            return Some(at);
        }
    }
    None
}

/// Where the first receive stands that accepts the message.
pub fn first_accepting(posted: &[Posted], message: &Message) -> Option<usize>
    ensures { MatchOption result (NoneOf (λ r. IsAcceptedBy r message.now) posted.now) (IsFirstAt (λ r. IsAcceptedBy r message.now) posted.now) }
{
    for (at, receive) in posted.iter().enumerate() {
        if receive.accepts(message) {
            return Some(at);
        }
    }
    None
}

/// Where the receive of this request stands.
pub fn receive_at(posted: &[Posted], request: u32) -> Option<usize>
    ensures { MatchOption result (All (λ r. r.request ≢ request) posted.now) (IsAt (λ r. r.request ≡ request) posted.now) }
{
    for (at, receive) in posted.iter().enumerate() {
        if receive.request == request {
            return Some(at);
        }
    }
    None
}

/// Whether the receive of this request is there.
pub fn is_posted(posted: &[Posted], request: u32) -> bool
    ensures { IsTrue result ↔ Any (λ r. r.request ≡ request) posted.now }
{
    posted.iter().any(|r| r.request == request)
}

/// Where the pair of this request stands.
pub fn pair_at(matched: &[MatchedPair], request: u32) -> Option<usize>
    ensures { MatchOption result (All (λ p. p.receive.request ≢ request) matched.now) (IsAt (λ p. p.receive.request ≡ request) matched.now) }
{
    for (at, pair) in matched.iter().enumerate() {
        if pair.receive.request == request {
            return Some(at);
        }
    }
    None
}

/// Where a pair of this request belongs.
pub fn place_of(matched: &[MatchedPair], request: u32) -> usize
    requires { AllPairs (λ lower higher. lower.receive.request < higher.receive.request) matched.now }
    ensures { IsPlaceOf request matched.now result }
{
    for (at, pair) in matched.iter().enumerate() {
        if request <= pair.receive.request {
            return at;
        }
    }
    matched.len()
}

/// Puts a pair at its place, for which there is room.
pub fn put_pair(matched: &mut Vec<MatchedPair>, place: usize, pair: MatchedPair)
    requires room { vec_len matched.old < vec_capacity matched.old }
    requires within { place ≤ length matched.old.items }
    ensures { matched.new.items ≡ insert matched.old.items place pair }
{
    matched.insert(place, pair).unwrap();
}
