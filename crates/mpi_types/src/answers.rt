//! What the members of a collective get.

ghost use Rattle.std.specs.Prelude.{◌≡◌, ◌+◌, ◌*◌, ◌<◌, ◌≤◌, ◌^◌, ◌==◌, if◌then◌else◌, [], All, IfOk, length};
ghost use Rattle.std.specs.List.{flat_map, list_all};
ghost use Rattle.mpi_types.specs.Collected.{sent_blocks, root_of, is_member, block_bytes, are_alike, is_allowed, is_type_allowed, is_operation_allowed, is_body_whole, are_bodies_whole, are_sound, Brings, body_of, block_at, reduction, share_of, collected};

use crate::{Arg, Collective, Datatype, Operation, reduced_args};
use am_base::Bytes;
use std::alloc::{AllocError, Global};

/// The bytes that a member gets from a collective, by the arguments of all members in member order (MPI 3.1,
/// chapter 5). `None` is a mismatch, which is one for all members.
pub fn collected(alloc: Global, list: &[Arg], member: u16) -> Result<Option<Bytes>, AllocError>
    requires { member < length list.now }
    ensures { IfOk result (λ share. share ≡ collected list.now member) }
{
    let Some(first) = list.first() else {
        return Ok(Some(Bytes::new(alloc)));
    };
    if !are_sound(list) {
        return Ok(None);
    }
    let share = share(alloc, first, list, usize::from(member))?;
    Ok(Some(share))
}

/// Whether the arguments are those of one collective, and what they say is allowed.
fn are_sound(list: &[Arg]) -> bool
    ensures { result ≡ are_sound list.now }
{
    let Some((first, rest)) = list.split_first() else {
        return true;
    };
    if !are_all_alike(first, rest) {
        return false;
    }
    if !is_allowed(list.len(), first) {
        return false;
    }
    are_bodies_whole(first, list)
}

/// Whether what an argument says is allowed among so many members.
fn is_allowed(members: usize, first: &Arg) -> bool
    ensures { result ≡ is_allowed members first.now }
{
    is_member(members, first) && is_type_allowed(first) && is_operation_allowed(first)
}

fn are_all_alike(first: &Arg, rest: &[Arg]) -> bool
    ensures { result ≡ list_all (are_alike first.now) rest.now }
{
    rest.iter().all(|arg| are_alike(first, arg))
}

fn are_alike(first: &Arg, other: &Arg) -> bool
    ensures { result ≡ are_alike first.now other.now }
{
    first.kind.number() == other.kind.number()
        && first.root == other.root
        && first.operation == other.operation
        && first.datatype == other.datatype
        && first.count == other.count
}

/// Whether the root is one of so many members.
fn is_member(members: usize, first: &Arg) -> bool
    ensures { result ≡ is_member members first.now.root }
{
    match usize::try_from(first.root) {
        Ok(root) => root < members,
        Err(_) => false,
    }
}

/// The root's number.
fn root_of(first: &Arg) -> usize
    ensures { result ≡ root_of first.now.root }
{
    usize::try_from(first.root).unwrap_or(0)
}

fn is_type_allowed(first: &Arg) -> bool
    ensures { result ≡ is_type_allowed first.now.kind first.now.datatype }
{
    if first.kind.is_typed() {
        Datatype::of_byte(first.datatype).is_some()
    } else {
        first.datatype == 0
    }
}

fn is_operation_allowed(first: &Arg) -> bool
    ensures { result ≡ is_operation_allowed first.now.kind first.now.operation first.now.datatype }
{
    if !first.kind.is_reducing() {
        return first.operation == 0;
    }
    let Some(operation) = Operation::of_byte(first.operation) else {
        return false;
    };
    match Datatype::of_byte(first.datatype) {
        Some(datatype) => datatype.has(operation),
        None => false,
    }
}

fn are_bodies_whole(first: &Arg, list: &[Arg]) -> bool
    ensures { result ≡ are_bodies_whole first.now (length list.now) 0 list.now }
{
    for (i, arg) in list.iter().enumerate() {
        if !is_body_whole(first, list.len(), i, arg) {
            return false;
        }
    }
    true
}

/// Whether the body of a member has the length that the first argument gives it, of so many members.
fn is_body_whole(first: &Arg, members: usize, i: usize, arg: &Arg) -> bool
    ensures { result ≡ is_body_whole first.now members i arg.now }
{
    let blocks = sent_blocks(first.kind, members, root_of(first) == i);
    let length = arg.body.len();
    match blocks.checked_mul(block_bytes(first)) {
        Some(bytes) => length == bytes,
        None => false,
    }
}

/// How many bytes a block has.
fn block_bytes(first: &Arg) -> usize
    ensures value { result ≡ block_bytes first.now }
    ensures fits { result < 2 ^ 36 }
{
    match Datatype::of_byte(first.datatype) {
        Some(datatype) => first.count as usize * datatype.size() as usize,
        None => 0,
    }
}

/// How many blocks a member sends.
fn sent_blocks(kind: Collective, members: usize, is_root: bool) -> usize
    ensures { result ≡ sent_blocks kind members is_root }
{
    match kind {
        Collective::Reduce
        | Collective::Allreduce
        | Collective::Scan
        | Collective::Gather
        | Collective::Allgather => 1,
        Collective::Bcast => usize::from(is_root),
        Collective::Scatter => { if is_root { members } else { 0 } }
        Collective::Alltoall => members,
        Collective::Barrier | Collective::CommDup | Collective::CommSplit | Collective::Migrate =>
            0,
    }
}

/// What a member gets where the arguments are sound.
fn share(alloc: Global, first: &Arg, list: &[Arg], member: usize) -> Result<Bytes, AllocError>
    requires brings { Brings first.now list.now }
    requires within { member < length list.now }
    ensures { IfOk result (λ b. b ≡ share_of first.now.kind first.now list.now member) }
{
    match first.kind {
        Collective::Barrier | Collective::CommDup | Collective::CommSplit | Collective::Migrate =>
            Ok(Bytes::new(alloc)),
        Collective::Bcast => broadcast(alloc, first, list, member),
        Collective::Reduce => {
            if root_of(first) == member {
                reduction(alloc, first, list)
            } else {
                Ok(Bytes::new(alloc))
            }
        }
        Collective::Allreduce => reduction(alloc, first, list),
        Collective::Scan => reduction(alloc, first, &list[..member + 1]),
        Collective::Gather => {
            if root_of(first) == member {
                joined_bodies(alloc, list)
            } else {
                Ok(Bytes::new(alloc))
            }
        }
        Collective::Scatter => scattered(alloc, first, list, member),
        Collective::Allgather => joined_bodies(alloc, list),
        Collective::Alltoall => joined_blocks(alloc, list, block_bytes(first), member),
    }
}

fn broadcast(alloc: Global, first: &Arg, list: &[Arg], member: usize) -> Result<Bytes, AllocError>
    requires { root_of first.now.root < length list.now }
    ensures { IfOk result (λ b. b ≡ if root_of first.now.root == member then [] else body_of list.now (root_of first.now.root)) }
{
    let root = root_of(first);
    if root == member {
        return Ok(Bytes::new(alloc));
    }
    Bytes::from_slice(alloc, list[root].body.as_slice())
}

/// The reduction of the elements that the arguments bring.
fn reduction(alloc: Global, first: &Arg, list: &[Arg]) -> Result<Bytes, AllocError>
    requires { All (λ a. block_bytes first.now ≤ length a.body) list.now }
    ensures { IfOk result (λ b. b ≡ reduction first.now list.now) }
{
    let Some(operation) = Operation::of_byte(first.operation) else {
        return Ok(Bytes::new(alloc));
    };
    match Datatype::of_byte(first.datatype) {
        Some(datatype) => reduced_args(alloc, operation, datatype, first.count, list),
        None => Ok(Bytes::new(alloc)),
    }
}

fn joined_bodies(alloc: Global, list: &[Arg]) -> Result<Bytes, AllocError>
    ensures { IfOk result (λ b. b ≡ flat_map (λ a. a.body) list.now) }
{
    let mut out = Bytes::new(alloc);
    for arg in list {
        out.append(arg.body.as_slice())?;
    }
    Ok(out)
}

fn scattered(alloc: Global, first: &Arg, list: &[Arg], member: usize) -> Result<Bytes, AllocError>
    requires root { root_of first.now.root < length list.now }
    requires whole { (member + 1) * block_bytes first.now ≤ length (body_of list.now (root_of first.now.root)) }
    ensures { IfOk result (λ b. b ≡ block_at (block_bytes first.now) member (body_of list.now (root_of first.now.root))) }
{
    let body = list[root_of(first)].body.as_slice();
    Bytes::from_slice(alloc, block(body, block_bytes(first), member))
}

/// The blocks of this number of all bodies.
fn joined_blocks(
    alloc: Global,
    list: &[Arg],
    bytes: usize,
    number: usize,
) -> Result<Bytes, AllocError>
    requires { All (λ a. (number + 1) * bytes ≤ length a.body) list.now }
    ensures { IfOk result (λ b. b ≡ flat_map (λ a. block_at bytes number a.body) list.now) }
{
    let mut out = Bytes::new(alloc);
    for arg in list {
        out.append(block(arg.body.as_slice(), bytes, number))?;
    }
    Ok(out)
}

/// The block of this number, of so many bytes.
fn block(body: &[u8], bytes: usize, number: usize) -> &[u8]
    requires { (number + 1) * bytes ≤ length body.now }
    ensures { result.now ≡ block_at bytes number body.now }
{
    let start = number * bytes;
    &body[start..start + bytes]
}
