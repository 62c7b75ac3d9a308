//! The plan that spreads ranks greedily.

ghost use Rattle.std.specs.Prelude.{◌≡◌, ◌+◌, ◌<◌, ◌^◌, ℕ, List, All, Contains, IfOk, OnOk, IsPermutation, length};
ghost use Rattle.std.specs.BinaryHeap.{heap_items, heap_len};
ghost use Rattle.am_base.specs.declared.numbers.ProcId.{ProcId};
ghost use Rattle.balancers.specs.Loads.{AreLoads, IsLeast};
ghost use Rattle.balancers.specs.Turns.{AreDistinct, AreHeaviestFirst, AreSpread, Ascend, Holds, given};
ghost use Rattle.balancers.specs.Spreading.{IsSpreadGreedily, IsNearShare};

use crate::loads::places_of;
use crate::{Load, Plan};
use am_base::ProcId;
use std::alloc::{AllocError, Global};
use std::cmp::Reverse;
use std::collections::BinaryHeap;

/// Sends the ranks, heaviest first and ties by rank, each to the live processor with the least load so far, ties by
/// number. The rule is this profile's own.
///
/// # Errors
///
/// Only want of memory.
pub fn greedy(alloc: Global, loads: &[Load], live: &[ProcId]) -> Result<Plan, AllocError>
    requires { AreLoads loads.now live.now }
    ensures rule { IfOk result (λ plan. IsSpreadGreedily loads.now live.now plan) }
    ensures at_live { IfOk result (λ plan. All (λ p. Contains live.now p) plan) }
    ensures near_share { IfOk result (λ plan. IsNearShare loads.now live.now plan) }
{
    let mut plan = places_of(alloc, loads)?;
    let order = heaviest_first(alloc, loads)?;
    spread(alloc, &order, live, plan.as_mut_slice())?;
    Ok(Plan::from_vec(plan))
}

/// A live processor with the ticks that it has so far. The least loaded comes first, ties by number.
type Standing = Reverse<(u128, ProcId)>;

/// The ranks' loads, heaviest first, ties by rank.
fn heaviest_first(alloc: Global, loads: &[Load]) -> Result<Vec<Load>, AllocError>
    ensures moved { IfOk result (λ order. IsPermutation loads.now order.items) }
    ensures sorted { IfOk result (λ order. AreHeaviestFirst order.items) }
{
    let mut order = loads.to_vec(alloc)?;
    order.sort_unstable_by_key(|load| (Reverse(load.ticks), load.rank));
    Ok(order)
}

/// Sends the ranks in this order, each to the live processor with the least load so far.
fn spread(
    alloc: Global,
    order: &[Load],
    live: &[ProcId],
    plan: &mut [ProcId],
) -> Result<(), AllocError>
    requires distinct { AreDistinct order.now }
    requires known { All (λ l. l.rank.0 < length plan.old) order.now }
    requires ascending { Ascend live.now }
    requires some_live { 0 < length live.now }
    ensures { OnOk result (AreSpread live.now order.now (length order.now) plan.new) }
{
    let mut free = all_idle(alloc, live)?;
    for load in order {
        let place = take_least(&mut free, load.ticks)?;
        plan[load.rank.0 as usize] = place;
    }
    Ok(())
}

/// The live processors, each without load.
fn all_idle(alloc: Global, live: &[ProcId]) -> Result<BinaryHeap<Standing>, AllocError>
    ensures { IfOk result (λ free. Holds (λ p. 0) live.now (heap_items free)) }
{
    let mut free = BinaryHeap::new(alloc);
    for p in live {
        free.push(Reverse((0, *p)))?;
    }
    Ok(free)
}

/// Takes the least loaded processor and gives it these ticks.
fn take_least(free: &mut BinaryHeap<Standing>, ticks: u64) -> Result<ProcId, AllocError>
    requires some { 0 < heap_len free.old }
    requires room { All (λ x. x.0.0 + ticks < 2 ^ 128) (heap_items free.old) }
    ensures taken { IfOk result (λ p. (load : ProcId → ℕ) (live : List ProcId) → Ascend live → Holds load live (heap_items free.old) → IsLeast load live p × Holds (given load p ticks) live (heap_items free.new)) }
{
    let Reverse((sum, place)) = free.pop().unwrap();
    free.push(Reverse((sum + u128::from(ticks), place)))?;
    Ok(place)
}
