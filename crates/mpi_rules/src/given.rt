//! What a call leads to beside its answer.

use am_base::RankId;
use mpi_types::{Arg, Group, Message};

/// A message that is sent, and the rank in the world to which it goes.
#[derive(Debug, Drop)]
pub struct SendOut {
    pub to: RankId,
    pub message: Message,
}

/// The collective that a rank joins: the one of this position in the group, with what the rank gives to it.
#[derive(Debug, Drop)]
pub struct Joining {
    pub group: Group,
    pub position: u32,
    pub arg: Arg,
}
