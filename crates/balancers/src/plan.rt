//! Plans.

ghost use Rattle.std.specs.Prelude.{◌≡◌};

use am_base::ProcId;
use std::marker::Model;

/// A place for each rank, by rank. Contracts see it as the list of the places.
#[derive(Debug, Drop)]
pub struct Plan {
    places: Vec<ProcId>,
}

impl Model for Plan {
    ghost use Rattle.std.specs.Prelude.{List};
    ghost use Rattle.am_base.specs.declared.numbers.ProcId.{ProcId};

    ghost Value = { List ProcId };

    ghost view = { λ p. p.places.items };
}

impl Plan {
    pub(crate) fn from_vec(places: Vec<ProcId>) -> Plan
        ensures { result ≡ places.items }
    {
        Plan { places }
    }

    pub fn as_slice(&self) -> &[ProcId]
        ensures { result.now ≡ self.now }
    {
        self.places.as_slice()
    }
}
