//! What a rank joins a collective with, and what is wrong with it.

ghost use Rattle.std.specs.Prelude.{◌≡◌, ◌<◌, ◌≤◌, ◌+◌, ◌^◌, ◌==◌, ◌&&◌, not, pos, length};
ghost use Rattle.mpi_rules.specs.Collectives as words;
ghost use Rattle.mpi_types.specs.Collected as collected;
ghost use Rattle.mpi_call.specs.Lawful.{most_ranks};

use crate::numbers::{bytes_of, datatype_named, int_at, operation_named};
use mpi_rules::{CollectiveArgs, CommFacts, Elements};
use mpi_types::{Collective, OwnData, UNDEFINED};

pub fn elements_from(values: &[u64], i: usize) -> Elements
    requires { i + 2 < length values.now }
    ensures { result ≡ words.elements_from values.now i }
{
    Elements {
        address: values[i],
        count: int_at(values, i + 1),
        datatype: int_at(values, i + 2),
    }
}

pub fn no_elements() -> Elements
    ensures { result ≡ words.no_elements }
{
    Elements {
        address: 0,
        count: 0,
        datatype: 0,
    }
}

/// Arguments that have nothing but what is sent and received.
pub fn plain_args(kind: Collective, sent: Elements, received: Elements) -> CollectiveArgs
    ensures { result ≡ words.plain_args kind sent received (pos 0) }
{
    CollectiveArgs {
        kind,
        sent,
        received,
        operation: 0,
        root: 0,
        colour: 0,
        key: 0,
        comm: 0,
        made: 0,
    }
}

/// How many blocks a member sends, of so many members, and where it is the root.
fn sent_blocks(kind: Collective, members: usize, is_root: bool) -> usize
    requires { members ≤ most_ranks }
    ensures value { result ≡ collected.sent_blocks kind members is_root }
    ensures small { result ≤ most_ranks }
{
    match kind {
        Collective::Reduce
        | Collective::Allreduce
        | Collective::Scan
        | Collective::Gather
        | Collective::Allgather => 1,
        Collective::Bcast => usize::from(is_root),
        Collective::Scatter => { if is_root { members } else { 0 } }
        Collective::Alltoall => members,
        Collective::Barrier | Collective::CommDup | Collective::CommSplit | Collective::Migrate =>
            0,
    }
}

/// How many blocks it receives.
fn received_blocks(kind: Collective, members: usize, is_root: bool) -> usize
    requires { members ≤ most_ranks }
    ensures value { result ≡ words.received_blocks kind members is_root }
    ensures small { result ≤ most_ranks }
{
    match kind {
        Collective::Allreduce | Collective::Scan | Collective::Scatter => 1,
        Collective::Bcast => { if is_root { 0 } else { 1 } }
        Collective::Reduce => { if is_root { 1 } else { 0 } }
        Collective::Gather => { if is_root { members } else { 0 } }
        Collective::Allgather | Collective::Alltoall => members,
        Collective::Barrier | Collective::CommDup | Collective::CommSplit | Collective::Migrate =>
            0,
    }
}

fn is_root(facts: &CommFacts, args: &CollectiveArgs) -> bool
    ensures { result ≡ words.is_root facts.now args.now }
{
    match usize::try_from(args.root) {
        Ok(root) => root == facts.member,
        Err(_) => false,
    }
}

pub fn sends(facts: &CommFacts, args: &CollectiveArgs) -> usize
    requires { facts.now.members ≤ most_ranks }
    ensures value { result ≡ words.sends facts.now args.now }
    ensures small { result ≤ most_ranks }
{
    sent_blocks(args.kind, facts.members, is_root(facts, args))
}

pub fn receives(facts: &CommFacts, args: &CollectiveArgs) -> usize
    requires { facts.now.members ≤ most_ranks }
    ensures value { result ≡ words.receives facts.now args.now }
    ensures small { result ≤ most_ranks }
{
    received_blocks(args.kind, facts.members, is_root(facts, args))
}

/// How many bytes a block has.
pub fn bytes_in(e: &Elements) -> u64
    ensures value { result ≡ words.bytes_in e.now }
    ensures fits { result < 2 ^ 34 }
{
    bytes_of(&e.count, &e.datatype)
}

pub fn has_datatype(e: &Elements) -> bool
    ensures { result ≡ words.has_datatype e.now }
{
    datatype_named(&e.datatype).is_some()
}

/// Whether the collective makes a communicator for the rank.
pub fn makes(args: &CollectiveArgs) -> bool
    ensures { result ≡ words.makes args.now }
{
    match args.kind {
        Collective::CommDup => true,
        Collective::CommSplit => args.colour != UNDEFINED,
        Collective::Barrier
        | Collective::Bcast
        | Collective::Reduce
        | Collective::Allreduce
        | Collective::Scan
        | Collective::Gather
        | Collective::Scatter
        | Collective::Allgather
        | Collective::Alltoall
        | Collective::Migrate => false,
    }
}

pub fn has_bad_colour(args: &CollectiveArgs) -> bool
    ensures { result ≡ words.has_bad_colour args.now }
{
    args.colour < 0 && args.colour != UNDEFINED
}

pub fn is_crowded(facts: &CommFacts, own: &OwnData) -> bool
    ensures { result ≡ words.is_crowded facts.now own.now }
{
    own.communicators.len() >= 64 || facts.depth >= 16
}

/// Elements that are sent or received are wrong in this way.
pub fn in_use(blocks: usize, wrong: bool) -> bool
    ensures { result ≡ words.in_use blocks wrong }
{
    blocks != 0 && wrong
}

fn differ(args: &CollectiveArgs) -> bool
    ensures { result ≡ (words.has_datatype args.now.sent && words.has_datatype args.now.received && not (words.bytes_in args.now.sent == words.bytes_in args.now.received)) }
{
    has_datatype(&args.sent)
        && has_datatype(&args.received)
        && bytes_in(&args.sent) != bytes_in(&args.received)
}

pub fn bytes_differ(facts: &CommFacts, args: &CollectiveArgs) -> bool
    requires { facts.now.members ≤ most_ranks }
    ensures { result ≡ words.bytes_differ facts.now args.now }
{
    in_use(
        sends(facts, args),
        in_use(receives(facts, args), differ(args)),
    )
}

pub fn has_wrong_operation(args: &CollectiveArgs) -> bool
    ensures { result ≡ words.has_wrong_operation args.now }
{
    if !args.kind.is_reducing() {
        return false;
    }
    let Some(operation) = operation_named(&args.operation) else {
        return true;
    };
    match datatype_named(&args.sent.datatype) {
        Some(datatype) => !datatype.has(operation),
        None => true,
    }
}
