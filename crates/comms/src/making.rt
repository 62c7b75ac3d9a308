//! The groups that a duplicate and a split give, and what a split gives to each member.

ghost use Rattle.std.specs.Prelude.{◌≡◌, ◌<◌, ◌↔◌, All, IfOk, length, map};
ghost use Rattle.mpi_types.specs.Groups.{IsInMemberOrder, dup_of, of_colour, rank_of, split_of};
ghost use Rattle.comms.specs.Members.{AreOfMembers, colour_at};

use am_base::RankId;
use mpi_types::{DEEPEST, Group, Level, Sequence, SplitArg, UNDEFINED};
use std::alloc::{AllocError, Global};

/// The group of a duplicate of a communicator, made by its collective of this position. Its members stand in their old
/// order.
///
/// # Errors
///
/// Only want of memory.
pub fn dup(alloc: Global, g: &Group, position: u32) -> Result<Group, AllocError>
    requires { length g.now.ctx < DEEPEST }
    ensures { IfOk result (λ made. made ≡ dup_of g.now position) }
{
    let level = Level {
        position,
        colour: 0,
    };
    let ctx = g.ctx.child(alloc, level)?;
    let members = Vec::from_slice(alloc, g.members.as_slice())?;
    Ok(Group {
        ctx,
        members: Sequence::from_vec(members),
    })
}

/// The group that a split of a communicator, its collective of this position, gives to the member `me`, by what all
/// members give to it: the members with its colour, by key and then by their old numbers. There is none just where its
/// colour is `MPI_UNDEFINED`.
///
/// # Errors
///
/// Only want of memory.
pub fn split(
    alloc: Global,
    g: &Group,
    position: u32,
    list: &[SplitArg],
    me: u16,
) -> Result<Option<Group>, AllocError>
    requires depth { length g.now.ctx < DEEPEST }
    requires each_member { AreOfMembers g.now list.now }
    requires member { me < length g.now.members }
    ensures made { IfOk result (λ made. made ≡ split_of g.now position list.now me) }
    ensures none { IfOk result (λ made. (made ≡ None) ↔ (colour_at list.now me ≡ UNDEFINED)) }
{
    let colour = list[usize::from(me)].colour;
    if colour == UNDEFINED {
        return Ok(None);
    }
    let chosen = in_new_order(alloc, list, colour)?;
    let members = ranks_of(alloc, g, &chosen)?;
    let ctx = g.ctx.child(alloc, Level { position, colour })?;
    Ok(Some(Group {
        ctx,
        members: Sequence::from_vec(members),
    }))
}

/// What the members of a colour give, in their new order.
fn in_new_order(alloc: Global, list: &[SplitArg], colour: i32) -> Result<Vec<SplitArg>, AllocError>
    requires { IsInMemberOrder list.now }
    ensures { IfOk result (λ chosen. chosen.items ≡ of_colour colour list.now) }
{
    let mut chosen: Vec<SplitArg> = list
        .iter()
        .copied()
        .filter(|arg| arg.colour == colour)
        .collect(alloc)?;
    chosen.sort_unstable_by_key(|arg| (arg.key, arg.member));
    Ok(chosen)
}

/// The ranks in the world of these members.
fn ranks_of(alloc: Global, g: &Group, chosen: &[SplitArg]) -> Result<Vec<RankId>, AllocError>
    requires { All (λ a. a.member < length g.now.members) chosen.now }
    ensures { IfOk result (λ ranks. ranks.items ≡ map (λ a. rank_of g.now a.member) chosen.now) }
{
    let members = g.members.as_slice();
    let mut ranks = Vec::new(alloc);
    for arg in chosen {
        ranks.push(members[usize::from(arg.member)])?;
    }
    Ok(ranks)
}
