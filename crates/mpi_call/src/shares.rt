//! The second ticks of collectives: what a rank gets of what all members gave.

ghost use Rattle.std.specs.Prelude.{◌≡◌, ◌<◌, ◌++◌, ◌||◌, not, length, true, is_some, IfOk, IfErr, IfSome, OnOk};
ghost use Rattle.rank_range.specs.Areas.{areas_of};
ghost use Rattle.mpi_rules.specs.Collectives as words;
ghost use Rattle.mpi_rules.specs.Messages.{group_of};
ghost use Rattle.mpi_rules.specs.Places as places;
ghost use Rattle.mpi_call.specs.Answers.{kept, data_in, IsQuiet, MayDo};
ghost use Rattle.mpi_call.specs.Gathers as gathers;
ghost use Rattle.mpi_call.specs.Gathers.{HasShare, LacksShare, MayGather, MayEnd, IsSettled};

use crate::done::{CallStop, Done, writing};
use crate::gathering::{group_made, has_own, new_number, with_communicator};
use crate::places::{is_open, push_bytes, push_int};
use crate::state::communicator;
use am_base::{Bytes, TrapCause};
use mpi_rules::CollectiveArgs;
use mpi_types::{
    Arg, COMM_NULL, Collective, Communicator, Group, Joined, MatchBook, MpiState, OwnData,
    Sequence, UNDEFINED, Write, collected,
};
use rank_range::Mem;
use std::alloc::{AllocError, Global};
use std::mem;

/// The share, where what all gave fits and the rank's own argument is there as it gave it.
fn fitting_share(alloc: Global, own: &Arg, list: &[Arg]) -> Result<Option<Bytes>, AllocError>
    requires { own.now.member < length list.now }
    ensures { IfOk result (λ share. share ≡ gathers.fitting_share own.now list.now) }
{
    if !has_own(own, list) {
        return Ok(None);
    }
    collected(alloc, list, own.member)
}

fn gives_number(kind: Collective) -> bool
    ensures { result ≡ gathers.gives_number kind }
{
    match kind {
        Collective::CommDup | Collective::CommSplit => true,
        Collective::Barrier
        | Collective::Bcast
        | Collective::Reduce
        | Collective::Allreduce
        | Collective::Scan
        | Collective::Gather
        | Collective::Scatter
        | Collective::Allgather
        | Collective::Alltoall
        | Collective::Migrate => false,
    }
}

/// Whether the number of a communicator may be written, where one is given.
fn has_place<M: Mem>(m: &M, kind: Collective, made: u64) -> bool
    ensures { result ≡ (not (gathers.gives_number kind) || places.is_open (areas_of (M.rank_of m.now) (M.top_of m.now) (M.bytes_of m.now)) made 4) }
{
    !gives_number(kind) || is_open(m, made, 4)
}

/// The rank's share, where nothing is wrong.
fn open_share<M: Mem>(
    alloc: Global,
    m: &M,
    args: &CollectiveArgs,
    own: &Arg,
    list: &[Arg],
) -> Result<Bytes, CallStop>
    requires { own.now.member < length list.now }
    ensures ok { IfOk result (λ bytes. HasShare (areas_of (M.rank_of m.now) (M.top_of m.now) (M.bytes_of m.now)) args.now own.now list.now bytes) }
    ensures err { IfErr result (λ stop. LacksShare (areas_of (M.rank_of m.now) (M.top_of m.now) (M.bytes_of m.now)) args.now own.now list.now stop) }
{
    let share = match fitting_share(alloc, own, list) {
        Ok(share) => share,
        Err(AllocError) => return Err(CallStop::Memory),
    };
    let Some(bytes) = share else {
        return Err(CallStop::Trap(TrapCause::CollectiveMismatch));
    };
    if !is_open(m, args.received.address, bytes.len() as u64) {
        drop(bytes);
        return Err(CallStop::Trap(TrapCause::BadAddress));
    }
    if !has_place(m, args.kind, args.made) {
        drop(bytes);
        return Err(CallStop::Trap(TrapCause::BadAddress));
    }
    Ok(bytes)
}

/// Whether a communicator is made for a rank that gave this colour.
fn makes(kind: Collective, colour: &i32) -> bool
    ensures { result ≡ words.makes_by kind colour.now }
{
    match kind {
        Collective::CommDup => true,
        Collective::CommSplit => *colour != UNDEFINED,
        Collective::Barrier
        | Collective::Bcast
        | Collective::Reduce
        | Collective::Allreduce
        | Collective::Scan
        | Collective::Gather
        | Collective::Scatter
        | Collective::Allgather
        | Collective::Alltoall
        | Collective::Migrate => false,
    }
}

/// The group of the communicator that is made for the rank, if one is.
fn made_by(
    alloc: Global,
    own: &OwnData,
    kind: Collective,
    comm: &i32,
    joined: &Joined,
    list: &[Arg],
) -> Result<Option<Group>, AllocError>
    requires may { MayGather kind own.now comm.now joined.now list.now }
    requires own_there { words.has_own joined.now.arg list.now ≡ true }
    ensures { IfOk result (λ made. made ≡ words.group_made kind (group_of own.now comm.now) joined.now.position list.now joined.now.arg.member) }
{
    if !makes(kind, &joined.arg.colour) {
        return Ok(None);
    }
    match communicator(own, comm) {
        Some(c) => group_made(
            alloc,
            kind,
            &c.group,
            joined.position,
            list,
            joined.arg.member,
        ),
        None => unreachable!(),
    }
}

/// The new communicator is the rank's, and its number is given, or that of none.
fn make(alloc: Global, own: &mut OwnData, made: Option<Group>) -> Result<i32, AllocError>
    requires { is_some made ≡ true → length own.old.communicators < 64 }
    ensures number { IfOk result (λ n. n ≡ words.made_number made own.old) }
    ensures own { OnOk result (own.new ≡ words.own_made made own.old) }
{
    let Some(group) = made else {
        return Ok(COMM_NULL);
    };
    let number = new_number(own.communicators.as_slice());
    let list = mem::replace(&mut own.communicators, Sequence::new(alloc));
    let new = Communicator {
        number,
        group,
        position: 0,
    };
    own.communicators = with_communicator(list, new)?;
    Ok(i32::from(number))
}

/// What a gathered collective writes.
fn share_writes(
    alloc: Global,
    args: &CollectiveArgs,
    bytes: Bytes,
    number: &i32,
) -> Result<Sequence<Write>, AllocError>
    ensures { IfOk result (λ writes. writes ≡ places.write_of args.now.received.address bytes ++ words.made_writes args.now.kind args.now.made number.now) }
{
    let mut writes = Sequence::new(alloc);
    push_bytes(&mut writes, args.received.address, bytes)?;
    if gives_number(args.kind) {
        push_int(alloc, &mut writes, args.made, number)?;
    }
    Ok(writes)
}

/// A gathered collective ends: its communicator is made, and its share is to be written.
fn settle<B: MatchBook>(
    alloc: Global,
    st: &mut MpiState<B>,
    args: &CollectiveArgs,
    bytes: Bytes,
    made: Option<Group>,
) -> Result<Done, AllocError>
    requires { is_some made ≡ true → length st.old.own.communicators < 64 }
    ensures { IfOk result (λ done. IsSettled args.now bytes made (kept st.old.own st.old.sweep (B.held st.old.book)) done (kept st.new.own st.new.sweep (B.held st.new.book))) }
{
    let number = match make(alloc, &mut st.own, made) {
        Ok(number) => number,
        Err(AllocError) => {
            drop(bytes);
            return Err(AllocError);
        }
    };
    st.sweep.joined = None;
    let writes = share_writes(alloc, args, bytes, &number)?;
    Ok(writing(writes))
}

/// What a rank gets of a collective: its share, and the group of a new communicator.
#[derive(Drop)]
pub struct Taken {
    pub bytes: Bytes,
    pub made: Option<Group>,
}

/// What a rank gets of a collective that it has gathered.
fn take_share<M: Mem>(
    alloc: Global,
    own: &OwnData,
    m: &M,
    args: &CollectiveArgs,
    joined: &Joined,
    list: &[Arg],
) -> Result<Taken, CallStop>
    requires { MayGather args.now.kind own.now args.now.comm joined.now list.now }
    ensures ok { IfOk result (λ taken. HasShare (areas_of (M.rank_of m.now) (M.top_of m.now) (M.bytes_of m.now)) args.now joined.now.arg list.now taken.bytes) }
    ensures made { IfOk result (λ taken. taken.made ≡ words.group_made args.now.kind (group_of own.now args.now.comm) joined.now.position list.now joined.now.arg.member) }
    ensures err { IfErr result (λ stop. LacksShare (areas_of (M.rank_of m.now) (M.top_of m.now) (M.bytes_of m.now)) args.now joined.now.arg list.now stop) }
{
    let bytes = match open_share(alloc, m, args, &joined.arg, list) {
        Ok(bytes) => bytes,
        Err(stop) => return Err(stop),
    };
    match made_by(alloc, own, args.kind, &args.comm, joined, list) {
        Ok(made) => Ok(Taken { bytes, made }),
        Err(AllocError) => {
            drop(bytes);
            Err(CallStop::Memory)
        }
    }
}

/// The second tick of a collective. There is nothing yet where the rank hasn't gathered what all members gave.
#[tactic(auto, unfolding(mpi_rules::specs::Collectives::gathered_reply))]
pub fn gathered<M: Mem, B: MatchBook>(
    alloc: Global,
    st: &mut MpiState<B>,
    m: &M,
    args: &CollectiveArgs,
) -> Result<Option<Done>, CallStop>
    requires { MayEnd args.now.kind st.old.own args.now.comm st.old.sweep.joined }
    ensures does { MayDo (words.gathered_reply (areas_of (M.rank_of m.now) (M.top_of m.now) (M.bytes_of m.now)) (data_in (kept st.old.own st.old.sweep (B.held st.old.book))) args.now) (kept st.old.own st.old.sweep (B.held st.old.book)) result (kept st.new.own st.new.sweep (B.held st.new.book)) }
    ensures quiet { IfOk result (λ o. IfSome o (λ done. IsQuiet done)) }
{
    let Some(joined) = &st.sweep.joined else {
        return Ok(None);
    };
    let Some(list) = &joined.gathered else {
        return Ok(None);
    };
    let Taken { bytes, made } = match take_share(alloc, &st.own, m, args, joined, list.as_slice()) {
        Ok(taken) => taken,
        Err(stop) => return Err(stop),
    };
    match settle(alloc, st, args, bytes, made) {
        Ok(done) => Ok(Some(done)),
        Err(AllocError) => Err(CallStop::Memory),
    }
}
