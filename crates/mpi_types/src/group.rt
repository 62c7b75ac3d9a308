//! Groups, and how they are split.

ghost use Rattle.std.specs.Prelude.{◌≡◌, IfOk};

use crate::{Ctx, Sequence};
use am_base::RankId;
use std::alloc::{AllocError, Global};

/// The members of a communicator: its context, and the rank in the world of each member, in member order (MPI 3.1,
/// section 6.2).
#[derive(Debug, Drop)]
pub struct Group {
    pub ctx: Ctx,
    pub members: Sequence<RankId>,
}

impl Group {
    pub fn copied(&self, alloc: Global) -> Result<Group, AllocError>
        ensures { IfOk result (λ g. g ≡ self.now) }
    {
        let ctx = self.ctx.copied(alloc)?;
        let members = Vec::from_slice(alloc, self.members.as_slice())?;
        Ok(Group {
            ctx,
            members: Sequence::from_vec(members),
        })
    }
}

/// A communicator of a rank (MPI 3.1, section 6.4).
#[derive(Debug, Drop)]
pub struct Communicator {
    /// The number by which the rank's program names it.
    pub number: u8,
    pub group: Group,
    /// The position of its next collective, counted from 0.
    pub position: u32,
}

/// What a member gives to a split (MPI 3.1, section 6.4.2).
#[derive(Clone, Copy, Debug, PartialEq, Eq)]
pub struct SplitArg {
    /// Its number in the communicator that is split.
    pub member: u16,
    /// Members of one colour make a communicator. With `UNDEFINED` it joins none.
    pub colour: i32,
    /// Members of one colour are ordered by it.
    pub key: i32,
}
