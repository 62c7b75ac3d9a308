//! The keepers of each rank, and the rank that was lost with both.

ghost use Rattle.std.specs.Prelude.{◌≡◌, ◌<◌, ◌≤◌, ◌++◌, ◌∷◌, [], length, OnOk, OnErr};
ghost use Rattle.buddy_ckpt.specs.Keepers.{has, are_lost, lost_from, LostIsLeast};

use am_base::{ProcId, RankId};
use std::alloc::{AllocError, Global};
use std::marker::Model;

/// The processors that keep a rank's copy: the one that saved it, and its buddy.
#[derive(Clone, Copy, Debug, PartialEq, Eq)]
pub struct Pair {
    pub saver: ProcId,
    pub buddy: ProcId,
}

/// The keepers of each rank, in the order of ranks.
#[derive(Debug, Drop)]
pub struct Keepers {
    pairs: Vec<Pair>,
}

impl Model for Keepers {
    ghost use Rattle.std.specs.Prelude.{List};
    ghost use Rattle.buddy_ckpt.specs.declared.keepers.Pair.{Pair};

    ghost Value = { List Pair };

    ghost view = { λ k. k.pairs.items };
}

impl Keepers {
    /// The keepers of no rank.
    pub fn new(alloc: Global) -> Keepers
        ensures { result ≡ [] }
    {
        Keepers {
            pairs: Vec::new(alloc),
        }
    }

    /// Adds the keepers of the next rank.
    pub fn push(&mut self, pair: Pair) -> Result<(), AllocError>
        ensures ok { OnOk result (self.new ≡ self.old ++ pair ∷ []) }
        ensures err { OnErr result (self.new ≡ self.old) }
    {
        self.pairs.push(pair)?;
        Ok(())
    }

    /// The keepers of each rank.
    pub fn as_slice(&self) -> &[Pair]
        ensures { result.now ≡ self.now }
    {
        self.pairs.as_slice()
    }
}

/// A set of processors: bit `p` stands for processor `p`, of which there are 64 at most.
#[derive(Clone, Copy, Debug, PartialEq, Eq)]
pub struct ProcSet(pub u64);

impl ProcSet {
    /// Whether the processor is in the set.
    #[tactic(auto, unfolding(crate::specs::Keepers::has))]
    pub fn has(&self, p: ProcId) -> bool
        ensures { result ≡ has self.now.0 p.0 }
    {
        p.0 < 64 && (self.0 >> p.0) % 2 == 1
    }
}

/// Whether both keepers of a rank are none of these processors.
fn are_lost(live: &ProcSet, pair: Pair) -> bool
    ensures { result ≡ are_lost live.now.0 pair }
{
    !live.has(pair.saver) && !live.has(pair.buddy)
}

/// The least rank whose two keepers are both none of the live processors, with the one that saved it and that one's buddy. It
/// takes no memory.
pub fn lost_both(k: &Keepers, live: &ProcSet) -> Option<(RankId, ProcId, ProcId)>
    requires { length k.now ≤ 65536 }
    ensures { result ≡ lost_from live.now.0 0 k.now }
{
    let pairs = k.as_slice();
    for i in 0..pairs.len() {
        let pair = pairs[i];
        if are_lost(live, pair) {
            return Some((RankId(i as u16), pair.saver, pair.buddy));
        }
    }
    None
}

/// A law: what `lost_both` answers is the least rank whose keepers are both lost, or tells that there is none.
pub fn lost_is_least()
    ensures { LostIsLeast }
{}
