//! What a member joins a collective with.

ghost use Rattle.std.specs.Prelude.{◌≡◌, IfOk};

use crate::{Collective, Ctx, Sequence};
use am_base::Bytes;
use std::alloc::{AllocError, Global};

/// What a member gives to a collective when it joins it. A number that the collective doesn't have is 0.
#[derive(Debug, Drop)]
pub struct Arg {
    /// The member's number in the communicator.
    pub member: u16,
    pub kind: Collective,
    /// The root's number in the communicator.
    pub root: i32,
    /// The operation's number in `mpi.h`.
    pub operation: u8,
    /// The datatype's number in `mpi.h`.
    pub datatype: u8,
    /// How many elements stand in a member's block.
    pub count: u32,
    pub colour: i32,
    pub key: i32,
    /// The bytes that it sends.
    pub body: Bytes,
}

impl Arg {
    pub fn copied(&self, alloc: Global) -> Result<Arg, AllocError>
        ensures { IfOk result (λ a. a ≡ self.now) }
    {
        let body = Bytes::from_slice(alloc, self.body.as_slice())?;
        Ok(Arg {
            member: self.member,
            kind: self.kind,
            root: self.root,
            operation: self.operation,
            datatype: self.datatype,
            count: self.count,
            colour: self.colour,
            key: self.key,
            body,
        })
    }
}

/// Arguments of one collective.
pub type ArgList = Sequence<Arg>;

/// Copies arguments.
pub fn copied_args(alloc: Global, args: &[Arg]) -> Result<ArgList, AllocError>
    ensures { IfOk result (λ copies. copies ≡ args.now) }
{
    let mut copies = Sequence::new(alloc);
    for arg in args {
        copies.push(arg.copied(alloc)?)?;
    }
    Ok(copies)
}

/// Where a message goes in the tree of a collective's members.
#[derive(Clone, Copy, Debug, PartialEq, Eq)]
pub enum Direction {
    /// To the parent, with arguments of the sender and those below it.
    Up,
    /// To a child, with all arguments.
    Down,
}

/// A message in the tree of a collective's members.
#[derive(Debug, Drop)]
pub struct TreeMsg {
    pub ctx: Ctx,
    /// The collective's position in its communicator.
    pub position: u32,
    pub direction: Direction,
    /// The sender's number in the communicator.
    pub member: u16,
    pub args: ArgList,
}

/// A collective that a rank joined and whose call hasn't ended.
#[derive(Debug, Drop)]
pub struct Joined {
    pub ctx: Ctx,
    pub position: u32,
    /// What the rank gave.
    pub arg: Arg,
    /// The arguments of all members in member order, where the rank has gathered them.
    pub gathered: Option<ArgList>,
}

/// What a rank keeps of collectives: the one that it joined, and the messages of the tree that it holds, ascending by
/// context (level by level, a prefix first), position, direction and member.
#[derive(Debug, Drop)]
pub struct Sweep {
    pub joined: Option<Joined>,
    pub tree: Sequence<TreeMsg>,
}
