//! The plan that refines where ranks are.

ghost use Rattle.std.specs.Prelude.{◌≡◌, ◌+◌, ◌<◌, ◌≤◌, ◌^◌, ℕ, All, Contains, IfOk, IfNone, IfSome, length};
ghost use Rattle.balancers.specs.Loads.{AreByRank, AreLoads, greatest_load, places, total};
ghost use Rattle.balancers.specs.Refining.{HasNoMove, IsAtEnd, IsRefined, limit_of};
ghost use Rattle.balancers.specs.Turns.{Ascend};
ghost use Rattle.balancers.specs.Steps.{AreSums, IsFirstGreatest, IsFirstLeast, IsHeaviestThatFits, IsStep, proc_at, ticks_at};

use crate::loads::{places_of, total_of};
use crate::{Load, Plan};
use am_base::ProcId;
use std::alloc::{AllocError, Global};

/// Moves ranks from the most loaded processor to the least loaded one while it is over the limit, `ceil(21 * total /
/// (20 * processors))` ticks, and one of its ranks may go. The rule is this profile's own.
///
/// # Errors
///
/// Only want of memory.
pub fn refine(alloc: Global, loads: &[Load], live: &[ProcId]) -> Result<Plan, AllocError>
    requires { AreLoads loads.now live.now }
    ensures rule { IfOk result (λ plan. IsRefined loads.now live.now plan) }
    ensures at_live { IfOk result (λ plan. All (λ p. Contains live.now p) plan) }
    ensures no_greater { IfOk result (λ plan. greatest_load plan loads.now live.now ≤ greatest_load (places loads.now) loads.now live.now) }
    ensures at_end { IfOk result (λ plan. IsAtEnd loads.now live.now plan) }
{
    let limit = limit(loads, live);
    let mut plan = places_of(alloc, loads)?;
    let mut sums = sums_of(alloc, loads, live)?;
    while let Some(step) = next_move(loads, live, &plan, &sums, limit) {
        plan[step.rank] = live[step.to];
        sums[step.from] -= step.ticks;
        sums[step.to] += step.ticks;
    }
    Ok(Plan::from_vec(plan))
}

/// A move of a rank between two live processors, which go by their places in the list of them.
#[derive(Clone, Copy)]
pub(crate) struct Move {
    rank: usize,
    ticks: u128,
    from: usize,
    to: usize,
}

/// The limit.
fn limit(loads: &[Load], live: &[ProcId]) -> u128
    requires by_rank { AreByRank loads.now }
    requires some_live { 0 < length live.now }
    ensures { result ≡ limit_of loads.now live.now }
{
    let parts = 20 * live.len() as u128;
    (21 * total_of(loads) + (parts - 1)) / parts
}

/// What each live processor has by the ranks' places.
fn sums_of(alloc: Global, loads: &[Load], live: &[ProcId]) -> Result<Vec<u128>, AllocError>
    requires { AreLoads loads.now live.now }
    ensures { IfOk result (λ sums. AreSums loads.now live.now (places loads.now) sums.items) }
{
    let mut sums = Vec::new(alloc);
    for _ in live {
        sums.push(0u128)?;
    }
    for load in loads {
        let at = place_among(live, load.place);
        sums[at] += u128::from(load.ticks);
    }
    Ok(sums)
}

/// Where `place` stands among the live processors.
fn place_among(live: &[ProcId], place: ProcId) -> usize
    requires ascending { Ascend live.now }
    requires is_live { Contains live.now place }
    ensures inside { result < length live.now }
    ensures there { proc_at live.now result ≡ place }
{
    let number = place.0;
    live.partition_point(move |p| p.0 < number)
}

/// The next move by the rule, where there is one.
fn next_move(
    loads: &[Load],
    live: &[ProcId],
    plan: &[ProcId],
    sums: &[u128],
    limit: u128,
) -> Option<Move>
    requires asked { AreLoads loads.now live.now }
    requires long { length plan.now ≡ length loads.now }
    requires sums { AreSums loads.now live.now plan.now sums.now }
    ensures some { IfSome result (λ step. IsStep loads.now live.now plan.now sums.now limit step) }
    ensures none { IfNone result (HasNoMove loads.now live.now limit plan.now) }
    ensures at_end { IfNone result (limit ≡ limit_of loads.now live.now → IsAtEnd loads.now live.now plan.now) }
{
    let from = most(sums);
    if sums[from] <= limit {
        return None;
    }
    let to = least(sums);
    let room = limit.checked_sub(sums[to])?;
    let rank = heaviest_that_fits(loads, plan, live[from], room)?;
    let ticks = u128::from(loads[rank].ticks);
    Some(Move {
        rank,
        ticks,
        from,
        to,
    })
}

/// The first of the greatest.
fn most(sums: &[u128]) -> usize
    requires { 0 < length sums.now }
    ensures { IsFirstGreatest sums.now (length sums.now) result }
{
    let mut best = 0;
    for (i, sum) in sums.iter().enumerate() {
        if sums[best] < *sum {
            best = i;
        }
    }
    best
}

/// The first of the least.
fn least(sums: &[u128]) -> usize
    requires { 0 < length sums.now }
    ensures { IsFirstLeast sums.now (length sums.now) result }
{
    let mut best = 0;
    for (i, sum) in sums.iter().enumerate() {
        if *sum < sums[best] {
            best = i;
        }
    }
    best
}

/// The heaviest rank at `from` with positive load of at most `room` ticks, ties by rank.
fn heaviest_that_fits(loads: &[Load], plan: &[ProcId], from: ProcId, room: u128) -> Option<usize>
    requires { length plan.now ≡ length loads.now }
    ensures some { IfSome result (λ rank. (0 < ticks_at loads.now rank) × IsHeaviestThatFits loads.now plan.now from.0 room (length loads.now) rank (ticks_at loads.now rank)) }
    ensures none { IfNone result (IsHeaviestThatFits loads.now plan.now from.0 room (length loads.now) 0 0) }
{
    let mut best = 0;
    let mut most = 0;
    for (i, load) in loads.iter().enumerate() {
        if plan[i].0 == from.0 && most < load.ticks && u128::from(load.ticks) <= room {
            best = i;
            most = load.ticks;
        }
    }
    if most == 0 { None } else { Some(best) }
}
