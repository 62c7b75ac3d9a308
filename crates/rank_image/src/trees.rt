//! The order in which a rank holds the messages of trees.

ghost use Rattle.std.specs.Prelude.{◌≡◌};
ghost use Rattle.mpi_types.specs.Accepts.{is_same_ctx};
ghost use Rattle.mpi_types.specs.Order.{is_level_before, is_ctx_before, is_tree_before};

use crate::codes::direction_number;
use crate::order::Order;
use mpi_types::{Level, TreeMsg};

/// Messages of trees by context, position, direction and member.
pub struct ByPlace;

impl Order for ByPlace {
    type Value = TreeMsg;

    ghost test = { is_tree_before };

    fn is_before(a: &TreeMsg, b: &TreeMsg) -> bool {
        if is_ctx_before(a.ctx.levels(), b.ctx.levels()) {
            return true;
        }
        if !is_same_ctx(a.ctx.levels(), b.ctx.levels()) {
            return false;
        }
        if a.position != b.position {
            return a.position < b.position;
        }
        let direction = direction_number(a.direction);
        let other = direction_number(b.direction);
        direction < other || direction == other && a.member < b.member
    }
}

/// Whether a level stands before another one: by position, and then by colour.
fn is_level_before(a: &Level, b: &Level) -> bool
    ensures { result ≡ is_level_before a.now b.now }
{
    a.position < b.position || a.position == b.position && a.colour < b.colour
}

/// Whether a context stands before another one: level by level, a prefix first.
fn is_ctx_before(a: &[Level], b: &[Level]) -> bool
    ensures { result ≡ is_ctx_before a.now b.now }
{
    let Some((y, others)) = b.split_first() else {
        return false;
    };
    let Some((x, rest)) = a.split_first() else {
        return true;
    };
    if is_level_before(x, y) {
        return true;
    }
    if x.position != y.position || x.colour != y.colour {
        return false;
    }
    is_ctx_before(rest, others)
}

/// Whether two contexts are the same.
fn is_same_ctx(a: &[Level], b: &[Level]) -> bool
    ensures { result ≡ is_same_ctx a.now b.now }
{
    a == b
}
