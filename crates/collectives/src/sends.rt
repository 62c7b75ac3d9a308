//! What a member of a collective sends.

ghost use Rattle.std.specs.Prelude.{◌≡◌, ◌<◌, ◌≤◌, IfOk};
ghost use Rattle.collectives.specs.Sends.{up_send, down_send, down_sends};

use crate::tree::{MOST_MEMBERS, end_of, parent_of};
use mpi_types::{Arg, ArgList, Direction, Joined, Sequence, TreeMsg, copied_args};
use std::alloc::{AllocError, Global};

/// A message of the tree that is to be sent.
#[derive(Debug, Drop)]
pub struct TreeSend {
    /// The number in the communicator of the member to which it goes.
    pub to: u16,
    pub message: TreeMsg,
}

/// What a call of this crate leads to.
#[derive(Debug, Drop)]
pub struct SweepOut {
    /// The messages to send, those to several members ascending by member.
    pub sends: Sequence<TreeSend>,
    /// Whether the member has gathered the arguments of all members in this call. They stand in what it joined.
    pub gathered: bool,
}

/// The message with these arguments to the parent.
pub fn up_send(alloc: Global, joined: &Joined, args: ArgList) -> Result<TreeSend, AllocError>
    requires { 0 < joined.now.arg.member }
    ensures { IfOk result (λ send. send ≡ up_send joined.now args) }
{
    let member = joined.arg.member;
    let ctx = joined.ctx.copied(alloc)?;
    Ok(TreeSend {
        to: parent_of(usize::from(member)) as u16,
        message: TreeMsg {
            ctx,
            position: joined.position,
            direction: Direction::Up,
            member,
            args,
        },
    })
}

/// The message with the arguments of all members to a child.
fn down_send(
    alloc: Global,
    joined: &Joined,
    args: &[Arg],
    child: u16,
) -> Result<TreeSend, AllocError>
    ensures { IfOk result (λ send. send ≡ down_send joined.now args.now child) }
{
    let ctx = joined.ctx.copied(alloc)?;
    let args = copied_args(alloc, args)?;
    Ok(TreeSend {
        to: child,
        message: TreeMsg {
            ctx,
            position: joined.position,
            direction: Direction::Down,
            member: joined.arg.member,
            args,
        },
    })
}

/// The messages with the arguments of all members to the children.
pub fn down_sends(
    alloc: Global,
    members: usize,
    joined: &Joined,
    args: &[Arg],
) -> Result<Sequence<TreeSend>, AllocError>
    requires room { members ≤ MOST_MEMBERS }
    requires within { joined.now.arg.member < members }
    ensures { IfOk result (λ sends. sends ≡ down_sends members joined.now args.now) }
{
    let mut sends = Sequence::new(alloc);
    let member = usize::from(joined.arg.member);
    let end = end_of(members, member);
    let mut child = member + 1;
    while child < end {
        sends.push(down_send(alloc, joined, args, child as u16)?)?;
        child = end_of(members, child);
    }
    Ok(sends)
}
