//! Sends and the first ticks of receives.

ghost use Rattle.std.specs.Prelude.{◌≡◌, ◌<◌, ◌≤◌, ◌+◌, ◌^◌, ◌&&◌, ◌||◌, not, pos, int_lt, Some, None, false, true, IfOk, OnOk};
ghost use Rattle.std.specs.Ordering.{int_eq};
ghost use Rattle.rank_range.specs.Areas.{areas_of};
ghost use Rattle.rank_range.specs.Layout.{range_bytes};
ghost use Rattle.mpi_rules.specs.Messages as words;
ghost use Rattle.mpi_types.specs.Collected as collected;
ghost use Rattle.mpi_call.specs.Answers.{kept, data_in, Does, Received};
ghost use Rattle.mpi_call.specs.Lawful.{AreSized, MayTake};

use crate::done::{CallStop, Done};
use crate::numbers::{bytes_of, datatype_named};
use crate::own::no_faults;
use crate::places::{is_open, number_write, read};
use crate::state::{communicator, facts_at, is_full, is_running};
use am_base::{RankId, TrapCause};
use mpi_rules::{Faults, MessageArgs, SendOut};
use mpi_types::{
    ANY_SOURCE, ANY_TAG, CompleteKind, CompleteRequest, Ctx, Hit, MatchBook, Message, MpiState,
    OwnData, PROC_NULL, Posted, Sequence,
};
use rank_range::Mem;
use std::alloc::{AllocError, Global};

/// Whether the number is that of one of so many members.
pub fn is_member(members: usize, number: &i32) -> bool
    ensures { result ≡ collected.is_member members number.now }
{
    match usize::try_from(*number) {
        Ok(number) => number < members,
        Err(_) => false,
    }
}

fn is_peer(members: usize, peer: &i32) -> bool
    ensures { result ≡ words.is_peer members peer.now }
{
    is_member(members, peer) || *peer == PROC_NULL
}

/// Of a receive: its source is a peer or any.
fn is_source(members: usize, peer: &i32) -> bool
    ensures { result ≡ (words.is_peer members peer.now || int_eq peer.now ANY_SOURCE) }
{
    is_peer(members, peer) || *peer == ANY_SOURCE
}

/// Of a receive: its tag is negative and not any.
fn is_bad_tag(tag: &i32) -> bool
    ensures { result ≡ (int_lt tag.now (pos 0) && not (int_eq tag.now ANY_TAG)) }
{
    *tag < 0 && *tag != ANY_TAG
}

/// How many bytes the buffer has.
fn room_of(args: &MessageArgs) -> u64
    ensures { result ≡ words.room_of args.now }
{
    bytes_of(&args.count, &args.datatype)
}

/// What is looked at for sends and receives alike.
fn message_faults<M: Mem, B: MatchBook>(st: &MpiState<B>, m: &M, args: &MessageArgs) -> Faults
    requires { AreSized st.now.own }
    ensures value { result ≡ words.message_faults (areas_of (M.rank_of m.now) (M.top_of m.now) (M.bytes_of m.now)) (data_in (kept st.now.own st.now.sweep (B.held st.now.book))) args.now }
    ensures small { result.buffer ≡ false → words.room_of args.now ≤ range_bytes }
{
    Faults {
        other: !is_running(&st.own),
        comm: !facts_at(&st.own, m, &args.comm).known,
        count: args.count < 0,
        datatype: datatype_named(&args.datatype).is_none(),
        buffer: !is_open(m, args.buffer, room_of(args)),
        ..no_faults()
    }
}

fn send_faults<M: Mem, B: MatchBook>(st: &MpiState<B>, m: &M, args: &MessageArgs) -> Faults
    requires { AreSized st.now.own }
    ensures { result ≡ words.send_faults (areas_of (M.rank_of m.now) (M.top_of m.now) (M.bytes_of m.now)) (data_in (kept st.now.own st.now.sweep (B.held st.now.book))) args.now }
{
    Faults {
        rank: !is_peer(facts_at(&st.own, m, &args.comm).members, &args.peer),
        tag: args.tag < 0,
        ..message_faults(st, m, args)
    }
}

fn isend_faults<M: Mem, B: MatchBook>(st: &MpiState<B>, m: &M, args: &MessageArgs) -> Faults
    requires { AreSized st.now.own }
    ensures { result ≡ words.isend_faults (areas_of (M.rank_of m.now) (M.top_of m.now) (M.bytes_of m.now)) (data_in (kept st.now.own st.now.sweep (B.held st.now.book))) args.now }
{
    Faults {
        request: is_full(st),
        ..send_faults(st, m, args)
    }
}

fn receive_faults<M: Mem, B: MatchBook>(st: &MpiState<B>, m: &M, args: &MessageArgs) -> Faults
    requires { AreSized st.now.own }
    ensures value { result ≡ words.receive_faults (areas_of (M.rank_of m.now) (M.top_of m.now) (M.bytes_of m.now)) (data_in (kept st.now.own st.now.sweep (B.held st.now.book))) args.now }
    ensures small { result.buffer ≡ false → words.room_of args.now ≤ range_bytes }
{
    let members = facts_at(&st.own, m, &args.comm).members;
    Faults {
        request: is_full(st),
        rank: !is_source(members, &args.peer),
        tag: is_bad_tag(&args.tag),
        ..message_faults(st, m, args)
    }
}

/// The context of a communicator; it is that of the world where there is none.
pub fn ctx_of(alloc: Global, own: &OwnData, comm: &i32) -> Result<Ctx, AllocError>
    ensures { IfOk result (λ ctx. ctx ≡ (words.group_of own.now comm.now).ctx) }
{
    match communicator(own, comm) {
        Some(c) => c.group.ctx.copied(alloc),
        None => Ok(Ctx::world(alloc)),
    }
}

/// The rank in the world of a member; it is 0 where there is none.
fn rank_named(own: &OwnData, comm: &i32, member: &i32) -> RankId
    ensures { result ≡ words.rank_named (words.group_of own.now comm.now) member.now }
{
    let Some(c) = communicator(own, comm) else {
        return RankId(0);
    };
    let Ok(member) = usize::try_from(*member) else {
        return RankId(0);
    };
    match c.group.members.as_slice().get(member) {
        Some(rank) => *rank,
        None => RankId(0),
    }
}

#[tactic(auto, unfolding(rank_range::specs::Areas::areas_of))]
fn message_of<M: Mem, B: MatchBook>(
    alloc: Global,
    st: &MpiState<B>,
    m: &M,
    args: &MessageArgs,
) -> Result<Message, AllocError>
    requires { AreSized st.now.own }
    ensures { IfOk result (λ message. message ≡ words.message_of (areas_of (M.rank_of m.now) (M.top_of m.now) (M.bytes_of m.now)) (data_in (kept st.now.own st.now.sweep (B.held st.now.book))) args.now) }
{
    let member = facts_at(&st.own, m, &args.comm).member as u16;
    let body = read(alloc, m, args.buffer, room_of(args))?;
    let ctx = ctx_of(alloc, &st.own, &args.comm)?;
    Ok(Message {
        sender: m.rank(),
        ctx,
        member,
        tag: args.tag,
        body,
    })
}

/// The message, which goes nowhere where the receiver is `MPI_PROC_NULL`.
fn send_of<M: Mem, B: MatchBook>(
    alloc: Global,
    st: &MpiState<B>,
    m: &M,
    args: &MessageArgs,
) -> Result<Option<SendOut>, AllocError>
    requires { AreSized st.now.own }
    ensures { IfOk result (λ send. send ≡ words.send_of (areas_of (M.rank_of m.now) (M.top_of m.now) (M.bytes_of m.now)) (data_in (kept st.now.own st.now.sweep (B.held st.now.book))) args.now) }
{
    if args.peer == PROC_NULL {
        return Ok(None);
    }
    let to = rank_named(&st.own, &args.comm, &args.peer);
    let message = message_of(alloc, st, m, args)?;
    Ok(Some(SendOut { to, message }))
}

#[tactic(auto, unfolding(mpi_rules::specs::Messages::send_reply))]
pub fn send<M: Mem, B: MatchBook>(
    alloc: Global,
    st: &MpiState<B>,
    m: &M,
    args: &MessageArgs,
) -> Result<Done, CallStop>
    requires { AreSized st.now.own }
    ensures { Does (words.send_reply (areas_of (M.rank_of m.now) (M.top_of m.now) (M.bytes_of m.now)) (data_in (kept st.now.own st.now.sweep (B.held st.now.book))) args.now) (kept st.now.own st.now.sweep (B.held st.now.book)) result (kept st.now.own st.now.sweep (B.held st.now.book)) }
{
    if let Some(cause) = send_faults(st, m, args).cause() {
        return Err(CallStop::Trap(cause));
    }
    let send = send_of(alloc, st, m, args)?;
    Ok(Done {
        answer: Some(0),
        writes: Sequence::new(alloc),
        send,
        hit: None,
        sweep: None,
    })
}

/// Takes the next request's number for one that is complete.
fn take_complete(own: &mut OwnData, kind: CompleteKind) -> Result<(), AllocError>
    requires { own.old.next + 1 < 2 ^ 32 }
    ensures { OnOk result (own.new ≡ words.own_with_complete kind own.old) }
{
    own.complete.push(CompleteRequest {
        number: own.next,
        kind,
    })?;
    own.next += 1;
    Ok(())
}

#[tactic(auto, unfolding(mpi_rules::specs::Messages::isend_reply))]
pub fn isend<M: Mem, B: MatchBook>(
    alloc: Global,
    st: &mut MpiState<B>,
    m: &M,
    args: &MessageArgs,
    to: u64,
) -> Result<Done, CallStop>
    requires sized { AreSized st.old.own }
    requires room { st.old.own.next + 1 < 2 ^ 32 }
    ensures { Does (words.isend_reply (areas_of (M.rank_of m.now) (M.top_of m.now) (M.bytes_of m.now)) (data_in (kept st.old.own st.old.sweep (B.held st.old.book))) args.now to) (kept st.old.own st.old.sweep (B.held st.old.book)) result (kept st.new.own st.new.sweep (B.held st.new.book)) }
{
    if let Some(cause) = isend_faults(st, m, args).cause() {
        return Err(CallStop::Trap(cause));
    }
    if !is_open(m, to, 4) {
        return Err(CallStop::Trap(TrapCause::BadAddress));
    }
    let writes = number_write(alloc, to, st.own.next)?;
    let send = send_of(alloc, st, m, args)?;
    take_complete(&mut st.own, CompleteKind::Send)?;
    Ok(Done {
        answer: Some(0),
        writes,
        send,
        hit: None,
        sweep: None,
    })
}

/// The receive, whose buffer is accessible.
fn post_of<B: MatchBook>(
    alloc: Global,
    st: &MpiState<B>,
    args: &MessageArgs,
) -> Result<Posted, AllocError>
    requires { words.room_of args.now < 2 ^ 32 }
    ensures { IfOk result (λ q. q ≡ words.post_of (data_in (kept st.now.own st.now.sweep (B.held st.now.book))) args.now) }
{
    let ctx = ctx_of(alloc, &st.own, &args.comm)?;
    Ok(Posted {
        request: st.own.next,
        ctx,
        source: args.peer,
        tag: args.tag,
        room: room_of(args) as u32,
        buffer: args.buffer,
    })
}

/// The receive takes a request, and is posted where its sender isn't `MPI_PROC_NULL`.
fn receiving<B: MatchBook>(
    alloc: Global,
    st: &mut MpiState<B>,
    args: &MessageArgs,
) -> Result<Option<Hit>, AllocError>
    requires take { MayTake st.old.own (B.held st.old.book) }
    requires room { words.room_of args.now < 2 ^ 32 }
    ensures { IfOk result (λ hit. Received (words.receiving (data_in (kept st.old.own st.old.sweep (B.held st.old.book))) args.now) (kept st.old.own st.old.sweep (B.held st.old.book)) hit (kept st.new.own st.new.sweep (B.held st.new.book))) }
{
    if args.peer == PROC_NULL {
        take_complete(&mut st.own, CompleteKind::NoProcess)?;
        return Ok(None);
    }
    let posted = post_of(alloc, st, args)?;
    st.own.next += 1;
    st.book.post(posted)
}

#[tactic(auto, unfolding(mpi_rules::specs::Messages::receive_reply))]
pub fn receive<M: Mem, B: MatchBook>(
    alloc: Global,
    st: &mut MpiState<B>,
    m: &M,
    args: &MessageArgs,
) -> Result<Done, CallStop>
    requires sized { AreSized st.old.own }
    requires take { MayTake st.old.own (B.held st.old.book) }
    ensures { Does (words.receive_reply (areas_of (M.rank_of m.now) (M.top_of m.now) (M.bytes_of m.now)) (data_in (kept st.old.own st.old.sweep (B.held st.old.book))) args.now) (kept st.old.own st.old.sweep (B.held st.old.book)) result (kept st.new.own st.new.sweep (B.held st.new.book)) }
{
    if let Some(cause) = receive_faults(st, m, args).cause() {
        return Err(CallStop::Trap(cause));
    }
    let hit = receiving(alloc, st, args)?;
    Ok(Done {
        answer: None,
        writes: Sequence::new(alloc),
        send: None,
        hit,
        sweep: None,
    })
}

#[tactic(auto, unfolding(mpi_rules::specs::Messages::ireceive_reply))]
pub fn ireceive<M: Mem, B: MatchBook>(
    alloc: Global,
    st: &mut MpiState<B>,
    m: &M,
    args: &MessageArgs,
    to: u64,
) -> Result<Done, CallStop>
    requires sized { AreSized st.old.own }
    requires take { MayTake st.old.own (B.held st.old.book) }
    ensures { Does (words.ireceive_reply (areas_of (M.rank_of m.now) (M.top_of m.now) (M.bytes_of m.now)) (data_in (kept st.old.own st.old.sweep (B.held st.old.book))) args.now to) (kept st.old.own st.old.sweep (B.held st.old.book)) result (kept st.new.own st.new.sweep (B.held st.new.book)) }
{
    if let Some(cause) = receive_faults(st, m, args).cause() {
        return Err(CallStop::Trap(cause));
    }
    if !is_open(m, to, 4) {
        return Err(CallStop::Trap(TrapCause::BadAddress));
    }
    let writes = number_write(alloc, to, st.own.next)?;
    let hit = receiving(alloc, st, args)?;
    Ok(Done {
        answer: Some(0),
        writes,
        send: None,
        hit,
        sweep: None,
    })
}
