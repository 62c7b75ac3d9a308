//! The second ticks of collectives.

ghost use Rattle.std.specs.Prelude.{◌≡◌, ◌<◌, ◌≤◌, ◌+◌, ◌∷◌, ◌++◌, ◌&&◌, not, is_some, take, drop, length, slice_get, unwrap_or, Some, None, IfOk, OnOk};
ghost use Rattle.std.specs.Option.{option_copied};
ghost use Rattle.rank_range.specs.Areas.{areas_of};
ghost use Rattle.mpi_types.specs.Collected as collected_words;
ghost use Rattle.mpi_types.specs.Groups.{split_args_of};
ghost use Rattle.mpi_rules.specs.Collectives as words;
ghost use Rattle.mpi_rules.specs.Data as data_words;
ghost use Rattle.mpi_rules.specs.Places as places;
ghost use Rattle.comms.specs.Members.{AreOfMembers};
ghost use Rattle.mpi_call.specs.Numbers.{place_for};

use am_base::Bytes;
use comms::{dup, split};
use mpi_types::{Arg, Collective, Communicator, Group, OwnData, Sequence, SplitArg, collected};
use std::alloc::{AllocError, Global};
use std::mem;

fn are_alike(a: &Arg, b: &Arg) -> bool
    ensures { result ≡ collected_words.are_alike a.now b.now }
{
    a.kind.number() == b.kind.number()
        && a.root == b.root
        && a.operation == b.operation
        && a.datatype == b.datatype
        && a.count == b.count
}

fn is_same_arg(a: &Arg, b: &Arg) -> bool
    ensures { result ≡ words.is_same_arg a.now b.now }
{
    are_alike(a, b)
        && (a.member == b.member
            && (a.colour == b.colour && (a.key == b.key && a.body.as_slice() == b.body.as_slice())))
}

/// Whether the rank's own argument stands in the list as the rank gave it.
pub fn has_own(own: &Arg, list: &[Arg]) -> bool
    ensures { result ≡ words.has_own own.now list.now }
{
    if list.is_empty() {
        return true;
    }
    match list.get(usize::from(own.member)) {
        Some(arg) => is_same_arg(own, arg),
        None => false,
    }
}

fn split_args(alloc: Global, list: &[Arg]) -> Result<Vec<SplitArg>, AllocError>
    ensures { IfOk result (λ args. args.items ≡ split_args_of list.now) }
{
    let mut args = Vec::new(alloc);
    for arg in list {
        args.push(SplitArg {
            member: arg.member,
            colour: arg.colour,
            key: arg.key,
        })?;
    }
    Ok(args)
}

/// The group of a new communicator, if the rank is in one.
pub fn group_made(
    alloc: Global,
    kind: Collective,
    g: &Group,
    position: u32,
    list: &[Arg],
    member: u16,
) -> Result<Option<Group>, AllocError>
    requires depth { length g.now.ctx < 16 }
    requires each { AreOfMembers g.now (split_args_of list.now) }
    requires member { member < length g.now.members }
    ensures { IfOk result (λ made. made ≡ words.group_made kind g.now position list.now member) }
{
    match kind {
        Collective::CommDup => match dup(alloc, g, position) {
            Ok(made) => Ok(Some(made)),
            Err(AllocError) => Err(AllocError),
        },
        Collective::CommSplit => {
            let args = split_args(alloc, list)?;
            split(alloc, g, position, &args, member)
        }
        Collective::Barrier
        | Collective::Bcast
        | Collective::Reduce
        | Collective::Allreduce
        | Collective::Scan
        | Collective::Gather
        | Collective::Scatter
        | Collective::Allgather
        | Collective::Alltoall
        | Collective::Migrate => Ok(None),
    }
}

fn is_taken(number: usize, list: &[Communicator]) -> bool
    ensures { result ≡ data_words.is_taken number list.now }
{
    list.iter().any(|c| usize::from(c.number) == number)
}

/// The least number from 2 on that no communicator has.
#[tactic(auto, unfolding(mpi_rules::specs::Collectives::new_number))]
pub fn new_number(list: &[Communicator]) -> u8
    requires { length list.now < 64 }
    ensures { result ≡ words.new_number list.now }
{
    for i in 0..list.len() {
        if !is_taken(i + 2, list) {
            return (i + 2) as u8;
        }
    }
    (list.len() + 2) as u8
}

/// Where a communicator of the number stands.
fn place_for(number: u8, list: &[Communicator]) -> usize
    ensures value { result ≡ place_for number list.now }
    ensures within { result ≤ length list.now }
{
    for (i, c) in list.iter().enumerate() {
        if number < c.number {
            return i;
        }
    }
    list.len()
}

/// One more communicator, at its place by number.
pub fn with_communicator(
    list: Sequence<Communicator>,
    new: Communicator,
) -> Result<Sequence<Communicator>, AllocError>
    ensures { IfOk result (λ all. all ≡ data_words.with_communicator new list) }
{
    let mut all = list.into_vec();
    let place = place_for(new.number, all.as_slice());
    all.insert(place, new)?;
    Ok(Sequence::from_vec(all))
}
