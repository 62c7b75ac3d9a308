//! The members of a group take part in a collective, and its messages arrive.
ghost use Rattle.std.specs.Prelude.{◌≡◌, IfOk, IsTrue};
ghost use Rattle.collectives.specs.Sweeps.{IsMemberOf, IsNotHeld, IsSameKey};

use crate::failed::Failed;
use am_base::{Bytes, RankId};
use collectives::{SweepOut, TreeSend, arrive, begin};
use mpi_types::{Arg, Collective, Ctx, Group, Joined, Sequence, Sweep, TreeMsg};
use std::alloc::{AllocError, Global};
use std::collections::VecDeque;

/// The number of `MPI_INT` in `mpi.h`.
const INT: u8 = 7;

/// In which collective they take part.
#[derive(Clone, Copy)]
pub enum Call {
    /// A barrier, to which nothing is given.
    Barrier,
    /// An all to all, with one int from each member to each.
    Alltoall,
}

impl Call {
    pub(crate) fn of(kind: &str) -> Option<Call> {
        match kind {
            "barrier" => Some(Call::Barrier),
            "alltoall" => Some(Call::Alltoall),
            _ => None,
        }
    }
}

/// What the members keep, the messages under way in the order in which they were sent, and what was counted.
#[derive(Drop)]
struct Play {
    sweeps: Vec<Sweep>,
    under_way: VecDeque<TreeSend>,
    sent: u64,
    gathered: u64,
}

/// How many messages are sent, and how many members gather, in so many turns of a group of so many members, of which there are fewer
/// than 65,536.
pub(crate) fn swept(
    alloc: Global,
    call: Call,
    members: u32,
    turns: u32,
) -> Result<(u64, u64), Failed> {
    let Ok(count) = u16::try_from(members) else {
        return Err(Failed::Words);
    };
    let group = group_of(alloc, count)?;
    let mut play = play_of(alloc, count)?;
    for turn in 0..turns {
        take_part(alloc, &group, &mut play, call, count, turn)?;
    }
    Ok((play.sent, play.gathered))
}

fn group_of(alloc: Global, count: u16) -> Result<Group, AllocError> {
    let mut members = Vec::new(alloc);
    for number in 0..count {
        members.push(RankId(number))?;
    }
    Ok(Group {
        ctx: Ctx::world(alloc),
        members: Sequence::from_vec(members),
    })
}

fn play_of(alloc: Global, count: u16) -> Result<Play, AllocError> {
    let mut sweeps = Vec::new(alloc);
    for _member in 0..count {
        sweeps.push(Sweep {
            joined: None,
            tree: Sequence::new(alloc),
        })?;
    }
    Ok(Play {
        sweeps,
        under_way: VecDeque::new(alloc),
        sent: 0,
        gathered: 0,
    })
}

/// All members begin the collective of this position, and the messages arrive in order until none is left. There are at most two for
/// each member.
fn take_part(
    alloc: Global,
    group: &Group,
    play: &mut Play,
    call: Call,
    count: u16,
    position: u32,
) -> Result<(), Failed> {
    for member in 0..count {
        step_in(alloc, group, play, call, member, position)?;
    }
    for _message in 0..2 * u32::from(count) {
        step_on(alloc, group, play)?;
    }
    if play.under_way.is_empty() {
        Ok(())
    } else {
        Err(Failed::Refused)
    }
}

/// The member leaves what it joined before, and begins.
fn step_in(
    alloc: Global,
    group: &Group,
    play: &mut Play,
    call: Call,
    member: u16,
    position: u32,
) -> Result<(), Failed> {
    let Some(sweep) = play.sweeps.get_mut(usize::from(member)) else {
        return Err(Failed::Refused);
    };
    let out = joined(alloc, group, sweep, call, member, position)?;
    note(play, out)
}

fn joined(
    alloc: Global,
    group: &Group,
    sweep: &mut Sweep,
    call: Call,
    member: u16,
    position: u32,
) -> Result<SweepOut, Failed> {
    let members = group.members.len();
    if members > 65_536 || usize::from(member) >= members {
        return Err(Failed::Refused);
    }
    let arg = arg_of(alloc, call, member, members)?;
    sweep.joined = None;
    let out = begin(alloc, sweep, group, position, arg)?;
    Ok(out)
}

/// What a member gives: nothing, or an int to each member.
fn arg_of(alloc: Global, call: Call, member: u16, members: usize) -> Result<Arg, AllocError>
    ensures { IfOk result (λ arg. arg.member ≡ member) }
{
    let (kind, count, body) = match call {
        Call::Barrier => (Collective::Barrier, 0, Bytes::new(alloc)),
        Call::Alltoall => (Collective::Alltoall, 1, ints(alloc, member, members)?),
    };
    Ok(Arg {
        member,
        kind,
        root: 0,
        operation: 0,
        datatype: INT,
        count,
        colour: 0,
        key: 0,
        body,
    })
}

/// The member's number, as an int for each member.
fn ints(alloc: Global, member: u16, members: usize) -> Result<Bytes, AllocError> {
    let int = i32::from(member).to_le_bytes();
    let mut body = Bytes::new(alloc);
    for _to in 0..members {
        body.append(&int)?;
    }
    Ok(body)
}

/// The first message that is under way arrives, where there is one.
fn step_on(alloc: Global, group: &Group, play: &mut Play) -> Result<(), Failed> {
    let Some(TreeSend { to, message }) = play.under_way.pop_front() else {
        return Ok(());
    };
    let Some(sweep) = play.sweeps.get_mut(usize::from(to)) else {
        return Err(Failed::Refused);
    };
    let out = heard(alloc, group, sweep, message)?;
    note(play, out)
}

fn heard(
    alloc: Global,
    group: &Group,
    sweep: &mut Sweep,
    message: TreeMsg,
) -> Result<SweepOut, Failed> {
    let may_come = group.ctx.is_same(&message.ctx)
        && group.members.len() <= 65_536
        && is_member(group, &sweep.joined)
        && is_new(&message, sweep.tree.as_slice());
    if !may_come {
        return Err(Failed::Refused);
    }
    let out = arrive(alloc, sweep, Some(group), message)?;
    Ok(out)
}

fn is_member(group: &Group, joined: &Option<Joined>) -> bool
    ensures { IsTrue result → IsMemberOf group.now joined.now }
{
    match joined {
        Some(joined) => usize::from(joined.arg.member) < group.members.len(),
        None => true,
    }
}

/// Whether no message of the same key is held.
fn is_new(message: &TreeMsg, tree: &[TreeMsg]) -> bool
    ensures { IsTrue result → IsNotHeld message.now tree.now }
{
    let Some((first, rest)) = tree.split_first() else {
        return true;
    };
    if is_same_key(message, first) {
        return false;
    }
    is_new(message, rest)
}

fn is_same_key(a: &TreeMsg, b: &TreeMsg) -> bool
    ensures { IsSameKey a.now b.now → IsTrue result }
{
    a.ctx.is_same(&b.ctx)
        && a.position == b.position
        && a.direction == b.direction
        && a.member == b.member
}

/// Counts what a call led to, and puts the messages behind those that are under way.
fn note(play: &mut Play, out: SweepOut) -> Result<(), Failed> {
    if out.gathered {
        play.gathered = play.gathered.saturating_add(1);
    }
    for send in out.sends.into_vec() {
        play.sent = play.sent.saturating_add(1);
        if play.under_way.push_back(send).is_err() {
            return Err(Failed::Memory);
        }
    }
    Ok(())
}
