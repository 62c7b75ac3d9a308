//! Members of a collective that join it and hear of it in many orders.

ghost use Rattle.std.specs.Prelude.{◌≡◌, ◌<◌, ◌≤◌, None, IsTrue, IfOk, length};
ghost use Rattle.collectives.specs.Sweeps.{IsMemberOf, IsNotHeld, IsOfCtx, IsSameKey};

use am_base::{Bytes, RankId};
use collectives::{SweepOut, TreeSend, arrive, begin};
use mpi_types::{Arg, Collective, Ctx, Group, Joined, Sequence, Sweep, TreeMsg};
use std::alloc::{AllocError, Global};
use std::test::Fail;

/// Which of the messages under way arrives next.
#[derive(Clone, Copy, PartialEq, Eq)]
enum Pick {
    First,
    Last,
    /// By a linear congruential generator.
    Seeded,
}

/// The members of a collective and the messages between them.
#[derive(Drop)]
struct Play {
    group: Group,
    sweeps: Vec<Sweep>,
    under_way: Vec<TreeSend>,
    pick: Pick,
    seed: u32,
    joined: usize,
    gathered: usize,
    sent: usize,
}

fn group_of(alloc: Global, count: u16) -> Result<Group, AllocError> {
    let mut members = Vec::new(alloc);
    for number in 0..count {
        members.push(RankId(number))?;
    }
    Ok(Group {
        ctx: Ctx::world(alloc),
        members: Sequence::from_vec(members),
    })
}

fn empty_sweep(alloc: Global) -> Sweep
    ensures { result.joined ≡ None }
{
    Sweep {
        joined: None,
        tree: Sequence::new(alloc),
    }
}

fn play_of(alloc: Global, count: u16, pick: Pick) -> Result<Play, AllocError> {
    let group = group_of(alloc, count)?;
    let mut sweeps = Vec::new(alloc);
    for _ in 0..count {
        sweeps.push(empty_sweep(alloc))?;
    }
    Ok(Play {
        group,
        sweeps,
        under_way: Vec::new(alloc),
        pick,
        seed: 2026,
        joined: 0,
        gathered: 0,
        sent: 0,
    })
}

/// What a member gives: its number as the key, and one byte.
fn arg_of(alloc: Global, member: u16) -> Result<Arg, AllocError>
    ensures { IfOk result (λ arg. arg.member ≡ member) }
{
    let mut body = Bytes::new(alloc);
    body.push(member.to_le_bytes()[0])?;
    Ok(Arg {
        member,
        kind: Collective::Allgather,
        root: 0,
        operation: 0,
        datatype: 1,
        count: 1,
        colour: 0,
        key: i32::from(member),
        body,
    })
}

/// The member joins the collective of this position, if it may.
fn join(
    alloc: Global,
    group: &Group,
    sweep: &mut Sweep,
    position: u32,
    member: u16,
) -> Result<Option<SweepOut>, AllocError> {
    let members = group.members.len();
    if sweep.joined.is_some() || members > 65_536 || usize::from(member) >= members {
        return Ok(None);
    }
    let arg = arg_of(alloc, member)?;
    let out = begin(alloc, sweep, group, position, arg)?;
    Ok(Some(out))
}

fn is_same_key(a: &TreeMsg, b: &TreeMsg) -> bool
    ensures { IsSameKey a.now b.now → IsTrue result }
{
    a.ctx.is_same(&b.ctx)
        && a.position == b.position
        && a.direction == b.direction
        && a.member == b.member
}

/// Whether no message of the same key is held.
fn is_new(message: &TreeMsg, tree: &[TreeMsg]) -> bool
    ensures { IsTrue result → IsNotHeld message.now tree.now }
{
    let Some((first, rest)) = tree.split_first() else {
        return true;
    };
    if is_same_key(message, first) {
        return false;
    }
    is_new(message, rest)
}

fn is_member(group: &Group, joined: &Option<Joined>) -> bool
    ensures { IsTrue result → IsMemberOf group.now joined.now }
{
    match joined {
        Some(joined) => usize::from(joined.arg.member) < group.members.len(),
        None => true,
    }
}

/// A message arrives, if it may.
fn hear(
    alloc: Global,
    group: &Group,
    sweep: &mut Sweep,
    message: TreeMsg,
) -> Result<Option<SweepOut>, AllocError> {
    let may_come = group.ctx.is_same(&message.ctx)
        && group.members.len() <= 65_536
        && is_member(group, &sweep.joined)
        && is_new(&message, sweep.tree.as_slice());
    if !may_come {
        return Ok(None);
    }
    let out = arrive(alloc, sweep, Some(group), message)?;
    Ok(Some(out))
}

/// Notes what a call led to. None may gather before all have joined.
fn note(play: &mut Play, out: SweepOut) -> Result<bool, AllocError> {
    let is_early = out.gathered && play.joined < play.sweeps.len();
    if out.gathered {
        play.gathered = play.gathered.saturating_add(1);
    }
    for send in out.sends.into_vec() {
        play.sent = play.sent.saturating_add(1);
        play.under_way.push(send)?;
    }
    Ok(!is_early)
}

/// The next member joins.
fn step_in(alloc: Global, play: &mut Play, member: u16) -> Result<bool, AllocError> {
    play.joined = play.joined.saturating_add(1);
    let Some(sweep) = play.sweeps.get_mut(usize::from(member)) else {
        return Ok(false);
    };
    match join(alloc, &play.group, sweep, 3, member)? {
        Some(out) => note(play, out),
        None => Ok(false),
    }
}

/// The place among so many of the message that arrives next.
fn next_place(play: &mut Play, len: usize) -> usize
    requires { 0 < len }
    ensures { result < len }
{
    match play.pick {
        Pick::First => 0,
        Pick::Last => len - 1,
        Pick::Seeded => {
            play.seed = play
                .seed
                .wrapping_mul(1_664_525)
                .wrapping_add(1_013_904_223);
            (play.seed >> 16) as usize % len
        }
    }
}

/// A message that is under way arrives, where there is one.
fn step_on(alloc: Global, play: &mut Play) -> Result<bool, AllocError> {
    let len = play.under_way.len();
    if len == 0 {
        return Ok(true);
    }
    let place = next_place(play, len);
    if place >= play.under_way.len() {
        return Ok(false);
    }
    let TreeSend { to, message } = play.under_way.remove(place);
    let Some(sweep) = play.sweeps.get_mut(usize::from(to)) else {
        return Ok(false);
    };
    match hear(alloc, &play.group, sweep, message)? {
        Some(out) => note(play, out),
        None => Ok(false),
    }
}

/// Whether the member has gathered the arguments of so many members.
fn has_all(sweep: &Sweep, count: u16) -> bool {
    let Some(
        Joined {
            gathered: Some(list),
            ..
        },
    ) = &sweep.joined
    else {
        return false;
    };
    let args = list.as_slice();
    for (i, arg) in args.iter().enumerate() {
        let is_right = usize::from(arg.member) == i
            && arg.key == i32::from(arg.member)
            && arg.body.as_slice() == &arg.member.to_le_bytes()[..1];
        if !is_right {
            return false;
        }
    }
    args.len() == usize::from(count) && sweep.tree.is_empty()
}

fn all_have_all(play: &Play, count: u16) -> bool {
    for sweep in play.sweeps.iter() {
        if !has_all(sweep, count) {
            return false;
        }
    }
    true
}

/// Whether each of so many members gathers what all gave, by at most 2 (n - 1) messages. They join upwards or downwards, and
/// messages arrive only when all have joined, or as soon as they are sent.
fn all_gather(
    alloc: Global,
    count: u16,
    pick: Pick,
    is_down: bool,
    is_eager: bool,
) -> Result<bool, AllocError> {
    let mut play = play_of(alloc, count, pick)?;
    let mut is_right = true;
    for i in 0..count {
        let member = if is_down { count - 1 - i } else { i };
        is_right = step_in(alloc, &mut play, member)? && is_right;
        let steps = if is_eager || i + 1 == count {
            2 * usize::from(count)
        } else {
            0
        };
        for _ in 0..steps {
            is_right = step_on(alloc, &mut play)? && is_right;
        }
    }
    let members = usize::from(count);
    Ok(
        is_right
            && play.under_way.is_empty()
            && play.gathered == members
            && play.sent <= (2 * members).saturating_sub(2)
            && all_have_all(&play, count),
    )
}

#[test]
fn all_members_gather_in_any_order(rt: HostRuntime) -> Result<(), Fail> {
    for count in [1, 2, 3, 7, 8, 64] {
        for pick in [Pick::First, Pick::Last, Pick::Seeded] {
            for (is_down, is_eager) in [
                (false, false),
                (true, false),
                (false, true),
                (true, true),
            ] {
                assert!(rt;
                    all_gather(rt.alloc(), count, pick, is_down, is_eager)?,
                    "{count} {is_down} {is_eager}"
                );
            }
        }
    }
    Ok(())
}

/// The message of the first send, where there is just one, to this member.
fn only_send(out: Option<SweepOut>, to: u16) -> Option<TreeMsg> {
    let mut sends = out?.sends.into_vec();
    let send = sends.pop()?;
    if send.to == to && sends.is_empty() {
        Some(send.message)
    } else {
        None
    }
}

/// Whether the message is kept by a rank that has no communicator of its context.
fn is_kept(alloc: Global, sweep: &mut Sweep, message: TreeMsg) -> Result<bool, AllocError> {
    if !is_new(&message, sweep.tree.as_slice()) {
        return Ok(false);
    }
    let held = sweep.tree.len();
    let out = arrive(alloc, sweep, None, message)?;
    Ok(out.sends.is_empty() && !out.gathered && sweep.tree.len().wrapping_sub(held) == 1)
}

/// Of two members the second joins positions 3 and 4 before the first has the communicator. Whether both its messages are kept,
/// and the first one then gathers once at each position.
fn positions_are_apart(alloc: Global) -> Result<bool, AllocError> {
    let group = group_of(alloc, 2)?;
    let mut first = empty_sweep(alloc);
    let mut are_kept = true;
    for position in [4, 3] {
        let mut second = empty_sweep(alloc);
        let out = join(alloc, &group, &mut second, position, 1)?;
        are_kept = match only_send(out, 0) {
            Some(message) => is_kept(alloc, &mut first, message)? && are_kept,
            None => false,
        };
    }
    let mut are_apart = are_kept;
    for (position, left) in [(3, 1), (4, 0)] {
        first.joined = None;
        let gathers = match join(alloc, &group, &mut first, position, 0)? {
            Some(out) => out.gathered && out.sends.len() == 1,
            None => false,
        };
        are_apart = are_apart && gathers && first.tree.len() == left;
    }
    Ok(are_apart && has_all(&first, 2))
}

#[test]
fn early_messages_are_kept(rt: HostRuntime) -> Result<(), Fail> {
    assert!(rt; positions_are_apart(rt.alloc())?);
    Ok(())
}
