//! The two calls of a member: it joins a collective, and a message of a tree arrives.

ghost use Rattle.std.specs.Prelude.{◌≡◌, ◌<◌, ◌≤◌, [], false, IfOk, IfSome, length};
ghost use Rattle.std.specs.Option.{option_copied};
ghost use Rattle.collectives.specs.Sweeps.{Goes, IsMemberOf, IsOfCtx, IsNotHeld, looked, begun, arrived, awaits, kept, closed, closed_by};

use crate::held::{are_from, here_of, holds_all, others_of};
use crate::order::{is_same_ctx, put};
use crate::sends::{SweepOut, TreeSend, down_sends, up_send};
use crate::tree::{MOST_MEMBERS, end_of};
use mpi_types::{Arg, ArgList, Direction, Group, Joined, Sequence, Sweep, TreeMsg};
use std::alloc::{AllocError, Global};
use std::mem;

/// The member joins the collective of this position in its group, and gives this. It sends the arguments of its subtree
/// to its parent, where it holds all of them; the first member, which then holds those of all, gathers them and sends
/// them to its children.
///
/// # Errors
///
/// Only want of memory. The sweep is then only to be dropped.
pub fn begin(
    alloc: Global,
    s: &mut Sweep,
    g: &Group,
    position: u32,
    a: Arg,
) -> Result<SweepOut, AllocError>
    requires nothing_joined { s.old.joined ≡ None }
    requires room { length g.now.members ≤ MOST_MEMBERS }
    requires member { a.member < length g.now.members }
    ensures { IfOk result (λ out. Goes (begun g.now position a s.old) s.new out) }
{
    let ctx = g.ctx.copied(alloc)?;
    let joined = Joined {
        ctx,
        position,
        arg: a,
        gathered: None,
    };
    let tree = mem::replace(&mut s.tree, Sequence::new(alloc));
    let (sweep, out) = look(alloc, g.members.len(), joined, tree)?;
    *s = sweep;
    Ok(out)
}

/// A message of a tree arrives. The group is that of its context, where the rank has such a communicator. A message of
/// the collective that the member has joined, and hasn't gathered, leads on as in `begin`; one with the arguments of all
/// members goes on to the member's children, and the member gathers them. Any other message is kept.
///
/// # Errors
///
/// Only want of memory. The sweep is then only to be dropped.
pub fn arrive(
    alloc: Global,
    s: &mut Sweep,
    g: Option<&Group>,
    t: TreeMsg,
) -> Result<SweepOut, AllocError>
    requires of_ctx { IfSome (option_copied g) (λ group. IsOfCtx group t) }
    requires member { IfSome (option_copied g) (λ group. IsMemberOf group s.old.joined) }
    requires not_held { IsNotHeld t s.old.tree }
    ensures { IfOk result (λ out. Goes (arrived (option_copied g.entry) s.old t) s.new out) }
{
    let Some(group) = g else {
        return keep(alloc, s, t);
    };
    let Some(joined) = s.joined.take() else {
        return keep(alloc, s, t);
    };
    if !awaits(&joined, &t) {
        s.joined = Some(joined);
        return keep(alloc, s, t);
    }
    let members = group.members.len();
    let tree = mem::replace(&mut s.tree, Sequence::new(alloc));
    let (sweep, out) = match t.direction {
        Direction::Up => look(alloc, members, joined, put(tree, t)?)?,
        Direction::Down => close_by(alloc, members, joined, tree, t)?,
    };
    *s = sweep;
    Ok(out)
}

/// Keeps the message, and does nothing else.
fn keep(alloc: Global, s: &mut Sweep, t: TreeMsg) -> Result<SweepOut, AllocError>
    ensures { IfOk result (λ out. Goes (kept s.old.joined s.old.tree t) s.new out) }
{
    let tree = mem::replace(&mut s.tree, Sequence::new(alloc));
    s.tree = put(tree, t)?;
    Ok(nothing(alloc))
}

fn nothing(alloc: Global) -> SweepOut
    ensures { result ≡ record { sends = []; gathered = false } }
{
    SweepOut {
        sends: Sequence::new(alloc),
        gathered: false,
    }
}

/// Whether the message is of the collective that was joined and isn't gathered yet.
fn awaits(joined: &Joined, t: &TreeMsg) -> bool
    ensures { result ≡ awaits joined.now t.now }
{
    is_same_ctx(joined.ctx.levels(), t.ctx.levels())
        && joined.position == t.position
        && joined.gathered.is_none()
}

/// What a member does that has joined and hasn't gathered, once it holds these messages.
fn look(
    alloc: Global,
    members: usize,
    joined: Joined,
    tree: Sequence<TreeMsg>,
) -> Result<(Sweep, SweepOut), AllocError>
    requires room { members ≤ MOST_MEMBERS }
    requires member { joined.arg.member < members }
    ensures { IfOk result (λ went. Goes (looked members joined tree) went.0 went.1) }
{
    let member = joined.arg.member;
    let end = end_of(members, usize::from(member));
    if !holds_all(end, &joined, tree.as_slice()) {
        let sweep = Sweep {
            joined: Some(joined),
            tree,
        };
        return Ok((sweep, nothing(alloc)));
    }
    let here = here_of(alloc, &joined, tree.as_slice())?;
    let tree = others_of(&joined, tree);
    if member == 0 {
        return close(alloc, members, joined, here, tree);
    }
    let mut sends = Sequence::new(alloc);
    sends.push(up_send(alloc, &joined, here)?)?;
    let sweep = Sweep {
        joined: Some(joined),
        tree,
    };
    let out = SweepOut {
        sends,
        gathered: false,
    };
    Ok((sweep, out))
}

/// The member gathers the arguments of all members, and sends them to its children.
fn close(
    alloc: Global,
    members: usize,
    joined: Joined,
    list: ArgList,
    tree: Sequence<TreeMsg>,
) -> Result<(Sweep, SweepOut), AllocError>
    requires room { members ≤ MOST_MEMBERS }
    requires member { joined.arg.member < members }
    ensures { IfOk result (λ went. Goes (closed members joined list tree) went.0 went.1) }
{
    let sends = down_sends(alloc, members, &joined, list.as_slice())?;
    let joined = Joined {
        ctx: joined.ctx,
        position: joined.position,
        arg: joined.arg,
        gathered: Some(list),
    };
    let sweep = Sweep {
        joined: Some(joined),
        tree,
    };
    let out = SweepOut {
        sends,
        gathered: true,
    };
    Ok((sweep, out))
}

/// The member gathers the arguments that the message brings, where they are those of all members. Else it keeps the
/// message.
fn close_by(
    alloc: Global,
    members: usize,
    joined: Joined,
    tree: Sequence<TreeMsg>,
    t: TreeMsg,
) -> Result<(Sweep, SweepOut), AllocError>
    requires room { members ≤ MOST_MEMBERS }
    requires member { joined.arg.member < members }
    ensures { IfOk result (λ went. Goes (closed_by members joined tree t) went.0 went.1) }
{
    if are_from(0, members, t.args.as_slice()) {
        return close(alloc, members, joined, t.args, tree);
    }
    let sweep = Sweep {
        joined: Some(joined),
        tree: put(tree, t)?,
    };
    Ok((sweep, nothing(alloc)))
}
