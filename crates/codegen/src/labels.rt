//! Where the labels of a `switch` stand in the code of a statement.

ghost use Rattle.std.specs.Prelude.{◌≡◌, map};
ghost use Rattle.codegen.specs.Statements.{Within, further, first_of, stmt_piece, label_in_order};
ghost use Rattle.codegen.specs.Making.{at_most_word, cut};

use crate::sizes::expr_size;
use crate::statement_sizes::{for_front, stmt_size};
use c_types::Stmt;

/// A place so many instructions further on.
fn further(count: u32, place: Option<u32>) -> Option<u32>
    ensures { result ≡ cut (further count place) }
{
    match place {
        None => None,
        Some(before) => Some(count.saturating_add(before)),
    }
}

/// The first place that there is.
fn first_of(first: Option<u32>, second: Option<u32>) -> Option<u32>
    ensures { result ≡ first_of first second }
{
    match first {
        None => second,
        Some(place) => Some(place),
    }
}

#[cycle(label_of)]
fn label_among(stmts: &[Stmt], label: u32) -> Option<u32>
    ensures { (w : Within) → result ≡ cut (label_in_order (map (stmt_piece w) stmts.now) label) }
{
    let mut found: Option<u32> = None;
    let mut before: u32 = 0;
    for stmt in stmts {
        found = first_of(found, further(before, label_of(stmt, label)));
        before = before.saturating_add(stmt_size(stmt));
    }
    found
}

/// How many instructions of a statement stand before a label of the `switch` around it, where it has that label.
#[cycle(label_of)]
pub fn label_of(stmt: &Stmt, label: u32) -> Option<u32>
    ensures { (w : Within) → result ≡ cut ((stmt_piece w stmt.now).label label) }
{
    match stmt {
        Stmt::Block(stmts) => label_among(stmts.as_slice(), label),
        Stmt::If {
            test,
            then,
            otherwise,
            ..
        } => {
            let front = expr_size(&test.expr).saturating_add(2);
            let first = further(front, label_of(then.get(), label));
            match otherwise {
                None => first,
                Some(second) => {
                    let past = front
                        .saturating_add(stmt_size(then.get()))
                        .saturating_add(1);
                    first_of(first, further(past, label_of(second.get(), label)))
                }
            }
        }
        Stmt::While { test, body, .. } => {
            let front = expr_size(&test.expr).saturating_add(3);
            further(front, label_of(body.get(), label))
        }
        Stmt::Do { test, body, .. } => {
            let front = expr_size(&test.expr).saturating_add(4);
            further(front, label_of(body.get(), label))
        }
        Stmt::For {
            declared,
            start,
            test,
            body,
            ..
        } => further(
            for_front(declared.as_slice(), start, test),
            label_of(body.get(), label),
        ),
        Stmt::Labelled {
            label: number,
            body,
        } => {
            if label == *number {
                Some(0)
            } else {
                label_of(body.get(), label)
            }
        }
        Stmt::Empty { .. } => None,
        Stmt::Express { .. } => None,
        Stmt::Declare(_) => None,
        Stmt::Switch { .. } => None,
        Stmt::Break { .. } => None,
        Stmt::Continue { .. } => None,
        Stmt::Return { .. } => None,
    }
}
