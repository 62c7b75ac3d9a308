//! The first ticks of collectives.

ghost use Rattle.std.specs.Prelude.{◌≡◌, ◌<◌, ◌≤◌, ◌+◌, ◌*◌, ◌^◌, ◌&&◌, ◌||◌, if◌then◌else◌, not, int_lt, pos, None, length, All, IfOk};
ghost use Rattle.std.specs.Ordering.{int_eq};
ghost use Rattle.rank_range.specs.Areas.{areas_of};
ghost use Rattle.mpi_rules.specs.Collectives as words;
ghost use Rattle.mpi_rules.specs.Data as data_words;
ghost use Rattle.mpi_rules.specs.Messages as message_words;
ghost use Rattle.mpi_rules.specs.Places as places;
ghost use Rattle.mpi_call.specs.Answers.{kept, data_in, Does};
ghost use Rattle.mpi_call.specs.Lawful.{AreSized, MayJoin, most_ranks};

use crate::done::{CallStop, Done};
use crate::joining::{
    bytes_differ, bytes_in, has_bad_colour, has_datatype, has_wrong_operation, in_use, is_crowded,
    makes, receives, sends,
};
use crate::messages::is_member;
use crate::numbers::{byte_of, count_of};
use crate::own::no_faults;
use crate::places::{is_open, read};
use crate::state::{communicator, facts_at, is_running};
use mpi_rules::{CollectiveArgs, CommFacts, Elements, Faults};
use mpi_types::{
    Arg, Collective, Communicator, Ctx, Group, MatchBook, MpiState, OwnData, Sequence,
};
use rank_range::Mem;
use std::alloc::{AllocError, Global};
use std::mem;

fn wrong_other(own: &OwnData, facts: &CommFacts, args: &CollectiveArgs) -> bool
    ensures { result ≡ (not (data_words.is_running own.now.phase) || (words.has_bad_colour args.now || words.makes args.now && words.is_crowded facts.now own.now)) }
{
    !is_running(own) || (has_bad_colour(args) || makes(args) && is_crowded(facts, own))
}

fn wrong_count(facts: &CommFacts, args: &CollectiveArgs) -> bool
    requires { facts.now.members ≤ most_ranks }
    ensures { result ≡ (words.in_use (words.sends facts.now args.now) (int_lt args.now.sent.count (pos 0)) || (words.in_use (words.receives facts.now args.now) (int_lt args.now.received.count (pos 0)) || words.bytes_differ facts.now args.now)) }
{
    in_use(sends(facts, args), args.sent.count < 0)
        || (in_use(receives(facts, args), args.received.count < 0) || bytes_differ(facts, args))
}

fn wrong_datatype(facts: &CommFacts, args: &CollectiveArgs) -> bool
    requires { facts.now.members ≤ most_ranks }
    ensures { result ≡ (words.in_use (words.sends facts.now args.now) (not (words.has_datatype args.now.sent)) || words.in_use (words.receives facts.now args.now) (not (words.has_datatype args.now.received))) }
{
    in_use(sends(facts, args), !has_datatype(&args.sent))
        || in_use(receives(facts, args), !has_datatype(&args.received))
}

/// How many bytes so many blocks have.
fn bytes_of_blocks(blocks: usize, e: &Elements) -> u64
    requires { blocks ≤ most_ranks }
    ensures { result ≡ blocks * words.bytes_in e.now }
{
    blocks as u64 * bytes_in(e)
}

fn is_closed<M: Mem>(m: &M, facts: &CommFacts, args: &CollectiveArgs) -> bool
    requires { facts.now.members ≤ most_ranks }
    ensures { result ≡ (not (places.is_open (areas_of (M.rank_of m.now) (M.top_of m.now) (M.bytes_of m.now)) args.now.sent.address (words.sends facts.now args.now * words.bytes_in args.now.sent)) || not (places.is_open (areas_of (M.rank_of m.now) (M.top_of m.now) (M.bytes_of m.now)) args.now.received.address (words.receives facts.now args.now * words.bytes_in args.now.received))) }
{
    !is_open(
        m,
        args.sent.address,
        bytes_of_blocks(sends(facts, args), &args.sent),
    ) || !is_open(
        m,
        args.received.address,
        bytes_of_blocks(receives(facts, args), &args.received),
    )
}

fn join_faults<M: Mem, B: MatchBook>(
    st: &MpiState<B>,
    m: &M,
    facts: &CommFacts,
    args: &CollectiveArgs,
) -> Faults
    requires { facts.now.members ≤ most_ranks }
    ensures { result ≡ words.join_faults (areas_of (M.rank_of m.now) (M.top_of m.now) (M.bytes_of m.now)) (data_in (kept st.now.own st.now.sweep (B.held st.now.book))) facts.now args.now }
{
    Faults {
        other: wrong_other(&st.own, facts, args),
        comm: !facts.known,
        count: wrong_count(facts, args),
        datatype: wrong_datatype(facts, args),
        operation: has_wrong_operation(args),
        root: !is_member(facts.members, &args.root),
        buffer: is_closed(m, facts, args),
        ..no_faults()
    }
}

/// The elements that tell the datatype and the count.
fn told_by(args: &CollectiveArgs) -> Elements
    ensures { result ≡ words.told_by args.now.kind args.now }
{
    match args.kind {
        Collective::Scatter => args.received,
        Collective::Barrier
        | Collective::Bcast
        | Collective::Reduce
        | Collective::Allreduce
        | Collective::Scan
        | Collective::Gather
        | Collective::Allgather
        | Collective::Alltoall
        | Collective::CommDup
        | Collective::CommSplit
        | Collective::Migrate => args.sent,
    }
}

/// What the rank gives.
fn arg_of<M: Mem>(
    alloc: Global,
    m: &M,
    facts: &CommFacts,
    args: &CollectiveArgs,
) -> Result<Arg, AllocError>
    requires members { facts.now.members ≤ most_ranks }
    requires member { facts.now.member ≤ most_ranks }
    ensures { IfOk result (λ arg. arg ≡ words.arg_of (areas_of (M.rank_of m.now) (M.top_of m.now) (M.bytes_of m.now)) facts.now args.now) }
{
    let told = told_by(args);
    let body = read(
        alloc,
        m,
        args.sent.address,
        bytes_of_blocks(sends(facts, args), &args.sent),
    )?;
    Ok(Arg {
        member: facts.member as u16,
        kind: args.kind,
        root: args.root,
        operation: byte_of(&args.operation),
        datatype: byte_of(&told.datatype),
        count: count_of(&told.count),
        colour: args.colour,
        key: args.key,
        body,
    })
}

/// The group of a communicator; it is empty where there is none.
fn group_of(alloc: Global, own: &OwnData, comm: &i32) -> Result<Group, AllocError>
    ensures { IfOk result (λ g. g ≡ message_words.group_of own.now comm.now) }
{
    match communicator(own, comm) {
        Some(c) => c.group.copied(alloc),
        None => Ok(Group {
            ctx: Ctx::world(alloc),
            members: Sequence::new(alloc),
        }),
    }
}

/// The position of a communicator's next collective.
fn position_of(own: &OwnData, comm: &i32) -> u32
    ensures { result ≡ words.position_in (data_words.communicator_in own.now.communicators comm.now) }
{
    match communicator(own, comm) {
        Some(c) => c.position,
        None => 0,
    }
}

fn next_position(c: &Communicator, comm: &i32) -> u32
    requires { c.now.position + 1 < 2 ^ 32 }
    ensures { result ≡ if int_eq (pos c.now.number) comm.now then c.now.position + 1 else c.now.position }
{
    if i32::from(c.number) == *comm {
        c.position + 1
    } else {
        c.position
    }
}

fn step_positions(list: &mut [Communicator], comm: &i32)
    requires { All (λ c. c.position + 1 < 2 ^ 32) list.old }
    ensures { list.new ≡ data_words.with_next_position comm.now list.old }
{
    for c in list.iter_mut() {
        c.position = next_position(c, comm);
    }
}

/// The communicator's next collective has the next position.
fn step(alloc: Global, own: &mut OwnData, comm: &i32)
    requires { All (λ c. c.position + 1 < 2 ^ 32) own.old.communicators }
    ensures { own.new ≡ words.own_joined comm.now own.old }
{
    let mut list = mem::replace(&mut own.communicators, Sequence::new(alloc)).into_vec();
    step_positions(list.as_mut_slice(), comm);
    own.communicators = Sequence::from_vec(list);
}

/// The rank joins a collective.
#[tactic(auto, unfolding(mpi_rules::specs::Collectives::join_reply))]
pub fn join<M: Mem, B: MatchBook>(
    alloc: Global,
    st: &mut MpiState<B>,
    m: &M,
    args: &CollectiveArgs,
) -> Result<Done, CallStop>
    requires sized { AreSized st.old.own }
    requires may { MayJoin (M.rank_of m.now) st.old.own }
    requires nothing_joined { st.old.sweep.joined ≡ None }
    ensures { Does (words.join_reply (areas_of (M.rank_of m.now) (M.top_of m.now) (M.bytes_of m.now)) (data_in (kept st.old.own st.old.sweep (B.held st.old.book))) args.now) (kept st.old.own st.old.sweep (B.held st.old.book)) result (kept st.new.own st.new.sweep (B.held st.new.book)) }
{
    let facts = facts_at(&st.own, m, &args.comm);
    if let Some(cause) = join_faults(st, m, &facts, args).cause() {
        return Err(CallStop::Trap(cause));
    }
    let arg = arg_of(alloc, m, &facts, args)?;
    let group = match group_of(alloc, &st.own, &args.comm) {
        Ok(group) => group,
        Err(AllocError) => {
            drop(arg);
            return Err(CallStop::Memory);
        }
    };
    let position = position_of(&st.own, &args.comm);
    step(alloc, &mut st.own, &args.comm);
    let sweep = collectives::begin(alloc, &mut st.sweep, &group, position, arg)?;
    Ok(Done {
        answer: None,
        writes: Sequence::new(alloc),
        send: None,
        hit: None,
        sweep: Some(sweep),
    })
}
