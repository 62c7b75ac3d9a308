//! A processor's table of where ranks are.

ghost use Rattle.std.specs.Prelude.{◌≡◌, IfOk, Some, length, slice_get};
ghost use Rattle.location.specs.Places.{IsRank, Learns, at_home, unmoved};

use am_base::{ProcId, RankId};
use std::alloc::{AllocError, Global};
use std::marker::Model;

/// For each rank of a run a pair (count, place): how often the rank had moved, and where it had gone then, as far as this
/// table has been told; and the rank's home.
#[derive(Debug, Drop)]
pub struct Table {
    pairs: Vec<(u32, ProcId)>,
    homes: Vec<ProcId>,
}

impl Model for Table {
    ghost use Rattle.std.specs.Prelude.{◌≡◌, length};
    ghost use Rattle.location.specs.Places.{Places};

    ghost Value = { Places };

    ghost view = { λ t. record { pairs = t.pairs.items; homes = t.homes.items } };

    ghost invariant = { λ t. length t.pairs.items ≡ length t.homes.items };
}

impl Table {
    /// The table of a run with these homes, one for each rank, from which none has moved.
    pub fn new(alloc: Global, homes: &[ProcId]) -> Result<Table, AllocError>
        ensures { IfOk result (λ table. table ≡ at_home homes.now) }
    {
        let pairs = unmoved_pairs(alloc, homes)?;
        let homes = Vec::from_slice(alloc, homes)?;
        Ok(Table { pairs, homes })
    }

    /// Begins anew: the places, one for each rank, are the homes, from which none has moved.
    pub fn reset(&mut self, places: &[ProcId])
        requires { length places.now ≡ length self.old.homes }
        ensures { self.new ≡ at_home places.now }
    {
        self.homes.copy_from_slice(places);
        put_unmoved(&mut self.pairs, places);
    }

    /// What is known of the rank.
    pub fn know(&self, r: RankId) -> (u32, ProcId)
        requires { IsRank self.now r }
        ensures { slice_get self.now.pairs r.0 ≡ Some result }
    {
        self.pairs[r.0 as usize]
    }

    /// Takes over the pair that is told of the rank just where its count is greater than the known one, and tells whether
    /// it did.
    pub fn learn(&mut self, r: RankId, count: u32, place: ProcId) -> bool
        requires { IsRank self.old r }
        ensures { Learns self.old r (count, place) result self.new }
    {
        let (known, _) = self.know(r);
        if count <= known {
            return false;
        }
        self.pairs[r.0 as usize] = (count, place);
        true
    }

    /// The rank's home.
    pub fn home(&self, r: RankId) -> ProcId
        requires { IsRank self.now r }
        ensures { slice_get self.now.homes r.0 ≡ Some result }
    {
        self.homes[r.0 as usize]
    }
}

/// A place for each rank, to which none has moved.
fn unmoved_pairs(alloc: Global, places: &[ProcId]) -> Result<Vec<(u32, ProcId)>, AllocError>
    ensures { IfOk result (λ pairs. pairs.items ≡ unmoved places.now) }
{
    places.iter().map(|place| (0, *place)).collect(alloc)
}

/// The same, in the place of other pairs.
fn put_unmoved(pairs: &mut [(u32, ProcId)], places: &[ProcId])
    requires { length places.now ≡ length pairs.old }
    ensures { pairs.new ≡ unmoved places.now }
{
    for i in 0..places.len() {
        pairs[i] = (0, places[i]);
    }
}
