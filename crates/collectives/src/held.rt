//! The arguments that a member of a collective holds.

ghost use Rattle.std.specs.Prelude.{◌≡◌, ◌<◌, ◌≤◌, ◌∷◌, ◌++◌, IfOk, IfSome, OnOk};
ghost use Rattle.collectives.specs.Held.{is_up, is_up_of, following, are_from, up_args, others_of, here_of};

use crate::order::is_same_ctx;
use crate::tree::MOST_MEMBERS;
use mpi_types::{Arg, ArgList, Ctx, Direction, Joined, Sequence, TreeMsg};
use std::alloc::{AllocError, Global};

fn is_up(direction: Direction) -> bool
    ensures { result ≡ is_up direction }
{
    match direction {
        Direction::Up => true,
        Direction::Down => false,
    }
}

/// Whether the message goes up the tree of this collective.
fn is_up_of(ctx: &Ctx, position: u32, message: &TreeMsg) -> bool
    ensures { result ≡ is_up_of ctx.now position message.now }
{
    is_same_ctx(message.ctx.levels(), ctx.levels())
        && message.position == position
        && is_up(message.direction)
}

/// The number behind the members of these arguments, where they are those from `first` on, one each and in order.
fn following(first: usize, args: &[Arg]) -> Option<usize>
    requires { first ≤ MOST_MEMBERS }
    ensures value { result ≡ following first args.now }
    ensures low { IfSome result (λ after. after ≤ MOST_MEMBERS) }
{
    let mut next = first;
    for arg in args {
        if usize::from(arg.member) != next {
            return None;
        }
        next += 1;
    }
    Some(next)
}

/// Whether the arguments are those of the members from `first` on, up to `end`, one each and in order.
pub fn are_from(first: usize, end: usize, args: &[Arg]) -> bool
    requires { first ≤ MOST_MEMBERS }
    ensures { result ≡ are_from first end args.now }
{
    match following(first, args) {
        None => false,
        Some(after) => after == end,
    }
}

/// Whether the member holds the arguments of all members from itself on, up to `end`.
pub fn holds_all(end: usize, joined: &Joined, tree: &[TreeMsg]) -> bool
    ensures { result ≡ are_from joined.now.arg.member end (here_of joined.now tree.now) }
{
    let mut next = usize::from(joined.arg.member) + 1;
    for message in tree {
        if !is_up_of(&joined.ctx, joined.position, message) {
            continue;
        }
        let Some(after) = following(next, message.args.as_slice()) else {
            return false;
        };
        next = after;
    }
    next == end
}

/// Copies of the arguments that the member holds, its own first.
pub fn here_of(alloc: Global, joined: &Joined, tree: &[TreeMsg]) -> Result<ArgList, AllocError>
    ensures { IfOk result (λ here. here ≡ here_of joined.now tree.now) }
{
    let mut here = Sequence::new(alloc);
    here.push(joined.arg.copied(alloc)?)?;
    for message in tree {
        if is_up_of(&joined.ctx, joined.position, message) {
            push_copies(alloc, &mut here, message.args.as_slice())?;
        }
    }
    Ok(here)
}

fn push_copies(alloc: Global, list: &mut ArgList, args: &[Arg]) -> Result<(), AllocError>
    ensures { OnOk result (list.new ≡ list.old ++ args.now) }
{
    for arg in args {
        list.push(arg.copied(alloc)?)?;
    }
    Ok(())
}

/// The messages that don't go up the tree of the collective that the member joined.
pub fn others_of(joined: &Joined, tree: Sequence<TreeMsg>) -> Sequence<TreeMsg>
    ensures { result ≡ others_of joined.now.ctx joined.now.position tree }
{
    let mut messages = tree.into_vec();
    messages.retain(|message| !is_up_of(&joined.ctx, joined.position, message));
    Sequence::from_vec(messages)
}
