//! The order in which a rank holds the messages of trees.

ghost use Rattle.std.specs.Prelude.{◌≡◌, IfOk, OnOk};
ghost use Rattle.mpi_types.specs.Accepts.{is_same_ctx};
ghost use Rattle.mpi_types.specs.Order.{is_level_before, is_ctx_before, direction_number, is_tree_before};
ghost use Rattle.collectives.specs.Held.{place_of, put_message};

use mpi_types::{Direction, Level, Sequence, TreeMsg};
use std::alloc::AllocError;

fn is_level_before(a: &Level, b: &Level) -> bool
    ensures { result ≡ is_level_before a.now b.now }
{
    a.position < b.position || a.position == b.position && a.colour < b.colour
}

/// Whether the context stands before the other: level by level, a prefix first.
fn is_ctx_before(a: &[Level], b: &[Level]) -> bool
    ensures { result ≡ is_ctx_before a.now b.now }
{
    let Some((y, others)) = b.split_first() else {
        return false;
    };
    let Some((x, rest)) = a.split_first() else {
        return true;
    };
    if is_level_before(x, y) {
        return true;
    }
    if x.position != y.position || x.colour != y.colour {
        return false;
    }
    is_ctx_before(rest, others)
}

/// Whether the contexts are equal.
pub fn is_same_ctx(a: &[Level], b: &[Level]) -> bool
    ensures { result ≡ is_same_ctx a.now b.now }
{
    a == b
}

/// The direction's number in images and packets.
fn direction_number(direction: Direction) -> u8
    ensures { result ≡ direction_number direction }
{
    match direction {
        Direction::Up => 0,
        Direction::Down => 1,
    }
}

/// Whether the message stands before the other.
fn is_before(a: &TreeMsg, b: &TreeMsg) -> bool
    ensures { result ≡ is_tree_before a.now b.now }
{
    if is_ctx_before(a.ctx.levels(), b.ctx.levels()) {
        return true;
    }
    if !is_same_ctx(a.ctx.levels(), b.ctx.levels()) {
        return false;
    }
    if a.position != b.position {
        return a.position < b.position;
    }
    let up = direction_number(a.direction);
    let other = direction_number(b.direction);
    up < other || up == other && a.member < b.member
}

/// Where the message is to stand among ordered ones.
fn place_of(message: &TreeMsg, tree: &[TreeMsg]) -> usize
    ensures { result ≡ place_of message.now tree.now }
{
    for (place, other) in tree.iter().enumerate() {
        if is_before(message, other) {
            return place;
        }
    }
    tree.len()
}

/// Puts the message among ordered ones.
pub fn put(tree: Sequence<TreeMsg>, message: TreeMsg) -> Result<Sequence<TreeMsg>, AllocError>
    ensures { IfOk result (λ new. new ≡ put_message message tree) }
{
    let mut messages = tree.into_vec();
    let place = place_of(&message, &messages);
    messages.insert(place, message)?;
    Ok(Sequence::from_vec(messages))
}
