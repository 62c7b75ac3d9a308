//! The plan that rotates the ranks.

ghost use Rattle.std.specs.Prelude.{◌≡◌, ◌<◌, All, Contains, IfOk, length, find, nat_lt};
ghost use Rattle.balancers.specs.Loads.{AreLoads};
ghost use Rattle.balancers.specs.Rotation.{next_live, rotated, GoesOneOn, LoadsGoOneOn};

use crate::{Load, Plan};
use am_base::ProcId;
use std::alloc::{AllocError, Global};

/// Sends each rank to the next live processor in cyclic order. The rule is this profile's own.
///
/// # Errors
///
/// Only want of memory.
pub fn rotate(alloc: Global, loads: &[Load], live: &[ProcId]) -> Result<Plan, AllocError>
    requires { AreLoads loads.now live.now }
    ensures rule { IfOk result (λ plan. plan ≡ rotated loads.now live.now) }
    ensures at_live { IfOk result (λ plan. All (λ p. Contains live.now p) plan) }
    ensures one_on { IfOk result (λ plan. GoesOneOn loads.now live.now plan) }
    ensures permuted { IfOk result (λ plan. LoadsGoOneOn loads.now live.now plan) }
{
    let mut places = Vec::new(alloc);
    for load in loads {
        places.push(next_behind(live, load.place))?;
    }
    Ok(Plan::from_vec(places))
}

/// The next live processor behind `place`.
fn next_behind(live: &[ProcId], place: ProcId) -> ProcId
    requires { 0 < length live.now }
    ensures { result ≡ next_live live.now place }
{
    first_above(live, place).unwrap_or(live[0])
}

/// The first live processor with a greater number.
fn first_above(live: &[ProcId], place: ProcId) -> Option<ProcId>
    ensures { result ≡ find (λ q. nat_lt place.0 q.0) live.now }
{
    live.iter().copied().find(|p| place.0 < p.0)
}
