//! The loads of ranks and processors.

ghost use Rattle.std.specs.Prelude.{◌≡◌, ◌<◌, ◌^◌, IfOk};
ghost use Rattle.balancers.specs.Loads.{AreByRank, places, total};

use am_base::{ProcId, RankId};
use std::alloc::{AllocError, Global};

/// The load of a rank, in ticks, with its place.
#[derive(Clone, Copy, Debug, PartialEq, Eq)]
pub struct Load {
    pub rank: RankId,
    pub place: ProcId,
    pub ticks: u64,
}

/// The places that the ranks have.
pub(crate) fn places_of(alloc: Global, loads: &[Load]) -> Result<Vec<ProcId>, AllocError>
    ensures { IfOk result (λ v. v.items ≡ places loads.now) }
{
    loads.iter().map(|load| load.place).collect(alloc)
}

/// The ticks of all ranks together. Ranks have numbers below 2^16, so their sum is far below 2^128.
pub(crate) fn total_of(loads: &[Load]) -> u128
    requires { AreByRank loads.now }
    ensures sum { result ≡ total loads.now }
    ensures small { result < 2 ^ 80 }
{
    let mut sum = 0u128;
    for load in loads {
        let _rank = load.rank.0;
        sum += u128::from(load.ticks);
    }
    sum
}
