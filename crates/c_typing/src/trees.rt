//! Typed expressions in the making.

ghost use Rattle.std.specs.Prelude.{◌≡◌, IfOk, [], ◌∷◌};
ghost use Rattle.c_typing.specs.Trees as trees;
ghost use Rattle.c_typing.specs.Trees.{step_with};

use crate::types::is_kind;
use c_types::{Counted, Direction, Expr, Given, OffsetBy, Operand, Step};
use rank_range::{Binary, Kind};
use sqlite_items::{Boxed, Items};
use std::alloc::{AllocError, Global};

/// What is done with the value on the left and the one on the right.
#[derive(Clone, Copy)]
pub enum Joining {
    Binary { op: Binary, kind: Kind },
    Greater(Kind),
    AtLeast(Kind),
    Offset { by: OffsetBy, scale: u64 },
    Difference(u64),
    And,
    Or,
    Comma,
    Assign(Kind),
    Copy(u64),
    Update { op: Binary, kind: Kind, at: Kind },
    Advance { direction: Direction, scale: u64 },
}

/// An operand, the kind of its value, and the kind to which it is converted.
#[derive(Drop)]
pub struct Side {
    pub tree: Expr,
    pub from: Kind,
    pub to: Kind,
}

/// An operand alone.
pub fn alone(alloc: Global, first: Operand) -> Expr
    ensures { result ≡ trees.alone first }
{
    Expr {
        first,
        steps: Items::new(alloc),
    }
}

/// One more step behind an expression.
pub fn behind(tree: Expr, step: Step) -> Result<Expr, AllocError>
    ensures { IfOk result (λ e. e ≡ trees.behind tree step) }
{
    let mut tree = tree;
    match tree.steps.push(step) {
        Ok(()) => Ok(tree),
        Err(error) => {
            drop(tree);
            Err(error)
        }
    }
}

/// The value as one of the kind to which it is converted. A kind is itself without a step.
pub fn converted(side: Side) -> Result<Expr, AllocError>
    ensures { IfOk result (λ e. e ≡ trees.converted side) }
{
    let Side { tree, from, to } = side;
    if is_kind(from, to) {
        return Ok(tree);
    }
    behind(tree, Step::Convert { from, to })
}

/// Both operands, each converted, and what is done with them.
pub fn operation(alloc: Global, left: Side, step: Joining, right: Side) -> Result<Expr, AllocError>
    ensures { IfOk result (λ e. e ≡ trees.operation left step right) }
{
    let right = match converted(right) {
        Ok(right) => right,
        Err(error) => {
            drop(left);
            return Err(error);
        }
    };
    joined(alloc, left, step, right)
}

fn joined(alloc: Global, left: Side, step: Joining, right: Expr) -> Result<Expr, AllocError>
    ensures { IfOk result (λ e. e ≡ trees.behind (trees.converted left) (step_with step right)) }
{
    let right = match Boxed::new(alloc, right) {
        Ok(right) => right,
        Err(error) => {
            drop(left);
            return Err(error);
        }
    };
    let left = match converted(left) {
        Ok(left) => left,
        Err(error) => {
            drop(right);
            return Err(error);
        }
    };
    behind(left, step_with(step, right))
}

fn step_with(step: Joining, right: Boxed<Expr>) -> Step
    ensures { result ≡ step_with step right }
{
    match step {
        Joining::Binary { op, kind } => Step::Binary { op, kind, right },
        Joining::Greater(kind) => Step::Greater { kind, right },
        Joining::AtLeast(kind) => Step::AtLeast { kind, right },
        Joining::Offset { by, scale } => Step::Offset { by, scale, right },
        Joining::Difference(size) => Step::Difference { size, right },
        Joining::And => Step::And { right },
        Joining::Or => Step::Or { right },
        Joining::Comma => Step::Comma { right },
        Joining::Assign(kind) => Step::Assign { kind, right },
        Joining::Copy(size) => Step::Copy { size, right },
        Joining::Update { op, kind, at } => Step::Update {
            op,
            kind,
            at,
            right,
        },
        Joining::Advance { direction, scale } => Step::Advance {
            direction,
            scale,
            right,
        },
    }
}

/// `?:`, each branch converted.
pub fn choice(alloc: Global, test: Expr, then: Side, otherwise: Side) -> Result<Expr, AllocError>
    ensures { IfOk result (λ e. e ≡ trees.choice test then otherwise) }
{
    let (then, otherwise) = match branches(alloc, then, otherwise) {
        Ok(both) => both,
        Err(error) => {
            drop(test);
            return Err(error);
        }
    };
    behind(test, Step::Conditional { then, otherwise })
}

fn branches(
    alloc: Global,
    then: Side,
    otherwise: Side,
) -> Result<(Boxed<Expr>, Boxed<Expr>), AllocError>
    ensures then { IfOk result (λ both. both.0 ≡ trees.converted then) }
    ensures otherwise { IfOk result (λ both. both.1 ≡ trees.converted otherwise) }
{
    let then = match branch(alloc, then) {
        Ok(then) => then,
        Err(error) => {
            drop(otherwise);
            return Err(error);
        }
    };
    match branch(alloc, otherwise) {
        Ok(otherwise) => Ok((then, otherwise)),
        Err(error) => {
            drop(then);
            Err(error)
        }
    }
}

fn branch(alloc: Global, side: Side) -> Result<Boxed<Expr>, AllocError>
    ensures { IfOk result (λ e. e ≡ trees.converted side) }
{
    Boxed::new(alloc, converted(side)?)
}

/// `++` or `--`.
pub fn counting(
    tree: Expr,
    counted: Counted,
    direction: Direction,
    given: Given,
) -> Result<Expr, AllocError>
    ensures { IfOk result (λ e. e ≡ trees.counting tree counted direction given) }
{
    behind(
        tree,
        Step::Count {
            counted,
            direction,
            given,
        },
    )
}
