//! Where a packet goes that arrives.

ghost use Rattle.std.specs.Prelude.{◌≡◌, ℕ, Some, slice_get};
ghost use Rattle.am_base.specs.declared.numbers.ProcId.{ProcId};
ghost use Rattle.location.specs.Places.{IsRank};
ghost use Rattle.forwarding.specs.Routes.{route_by, ForwardingRaises};

use crate::answer::Route;
use am_base::{ProcId, RankId};
use location::Table;

/// Where the packet goes that arrives here for a rank. It takes no memory.
pub fn route(t: &Table, here: ProcId, r: RankId, floor: u32, resident: bool) -> Route
    requires { IsRank t.now r }
    ensures { (known : ℕ × ProcId) → slice_get t.now.pairs r.0 ≡ Some known → result ≡ route_by known here floor resident }
{
    if resident {
        return Route::Accept;
    }
    let (count, place) = t.know(r);
    if floor < count && place.0 != here.0 {
        return Route::Forward {
            floor: count,
            place,
        };
    }
    Route::Wait
}

/// A law: each forwarding raises the packet's floor.
pub fn forwarding_raises_floors()
    ensures { ForwardingRaises }
{}
