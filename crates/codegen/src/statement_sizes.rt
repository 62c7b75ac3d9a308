//! How many instructions the code of a statement has, or 2^32 - 1 where that is more.

ghost use Rattle.std.specs.Prelude.{◌≡◌, ◌+◌, map};
ghost use Rattle.codegen.specs.Statements.{Within, stmt_piece, sizes_of};
ghost use Rattle.codegen.specs.Sizes.{dropped_size, again_size, zeros_size, return_size, all_declared_size, stores_size, declared_size, cases_size};
ghost use Rattle.codegen.specs.Making.{at_most_word};

use crate::sizes::expr_size;
use c_types::{Case, Declared, FullExpr, Span, Stmt, Store};

/// Of a full expression with one instruction behind it, where it is there.
pub fn with_one(value: &Option<FullExpr>) -> u32
    ensures { result ≡ at_most_word (dropped_size value.now) }
{
    match value {
        None => 0,
        Some(full) => expr_size(&full.expr).saturating_add(1),
    }
}

/// Of the step of a `for`.
pub fn again_size(value: &Option<FullExpr>) -> u32
    ensures { result ≡ at_most_word (again_size value.now) }
{
    match value {
        None => 0,
        Some(full) => expr_size(&full.expr).saturating_add(3),
    }
}

fn return_size(value: &Option<FullExpr>) -> u32
    ensures { result ≡ at_most_word (return_size value.now) }
{
    match value {
        None => 1,
        Some(full) => expr_size(&full.expr),
    }
}

fn stores_size(stores: &[Store]) -> u32
    ensures { result ≡ at_most_word (stores_size stores.now) }
{
    let mut size: u32 = 0;
    for store in stores {
        size = size.saturating_add(expr_size(&store.value.expr).saturating_add(3));
    }
    size
}

fn zeros_size(zeros: &Option<Span>) -> u32
    ensures { result ≡ zeros_size zeros.now }
{
    match zeros {
        None => 0,
        Some(_) => 2,
    }
}

fn declared_size(declared: &Declared) -> u32
    ensures { result ≡ at_most_word (declared_size declared.now) }
{
    stores_size(declared.stores.as_slice())
        .saturating_add(zeros_size(&declared.zeros))
        .saturating_add(1)
}

fn all_declared_size(all: &[Declared]) -> u32
    ensures { result ≡ at_most_word (all_declared_size all.now) }
{
    let mut size: u32 = 0;
    for declared in all {
        size = size.saturating_add(declared_size(declared));
    }
    size
}

/// Of the choice among the cases of a `switch`.
pub fn cases_size(cases: &[Case]) -> u32
    ensures { result ≡ at_most_word (cases_size cases.now) }
{
    let mut size: u32 = 0;
    for _case in cases {
        size = size.saturating_add(6);
    }
    size
}

#[cycle(stmt_size)]
pub fn all_size(stmts: &[Stmt]) -> u32
    ensures { (w : Within) → result ≡ at_most_word (sizes_of (map (stmt_piece w) stmts.now)) }
{
    let mut size: u32 = 0;
    for stmt in stmts {
        size = size.saturating_add(stmt_size(stmt));
    }
    size
}

#[cycle(stmt_size)]
pub fn stmt_size(stmt: &Stmt) -> u32
    ensures { (w : Within) → result ≡ at_most_word ((stmt_piece w stmt.now).size) }
{
    match stmt {
        Stmt::Empty { .. } => 1,
        Stmt::Express { value, .. } => expr_size(&value.expr).saturating_add(2),
        Stmt::Declare(declared) => declared_size(declared),
        Stmt::Block(stmts) => all_size(stmts.as_slice()),
        Stmt::If {
            test,
            then,
            otherwise,
            ..
        } => {
            let first = expr_size(&test.expr).saturating_add(stmt_size(then.get()));
            match otherwise {
                None => first.saturating_add(2),
                Some(second) => first
                    .saturating_add(stmt_size(second.get()))
                    .saturating_add(3),
            }
        }
        Stmt::While { test, body, .. } => expr_size(&test.expr)
            .saturating_add(stmt_size(body.get()))
            .saturating_add(4),
        Stmt::Do { test, body, .. } => expr_size(&test.expr)
            .saturating_add(stmt_size(body.get()))
            .saturating_add(5),
        Stmt::For {
            declared,
            start,
            test,
            step,
            body,
            ..
        } => for_size(declared.as_slice(), start, test, step).saturating_add(stmt_size(body.get())),
        Stmt::Switch {
            value,
            cases,
            body,
            ..
        } => expr_size(&value.expr)
            .saturating_add(cases_size(cases.as_slice()))
            .saturating_add(stmt_size(body.get()))
            .saturating_add(3),
        Stmt::Labelled { body, .. } => stmt_size(body.get()),
        Stmt::Break { .. } => 2,
        Stmt::Continue { .. } => 2,
        Stmt::Return { value, .. } => return_size(value).saturating_add(2),
    }
}

/// Of a `for` without its body.
fn for_size(
    declared: &[Declared],
    start: &Option<FullExpr>,
    test: &Option<FullExpr>,
    step: &Option<FullExpr>,
) -> u32
    ensures { result ≡ at_most_word (all_declared_size declared.now + dropped_size start.now + dropped_size test.now + again_size step.now + 3) }
{
    all_declared_size(declared)
        .saturating_add(with_one(start))
        .saturating_add(with_one(test))
        .saturating_add(again_size(step))
        .saturating_add(3)
}

/// Of a `for` before its body.
pub fn for_front(declared: &[Declared], start: &Option<FullExpr>, test: &Option<FullExpr>) -> u32
    ensures { result ≡ at_most_word (all_declared_size declared.now + dropped_size start.now + dropped_size test.now + 2) }
{
    all_declared_size(declared)
        .saturating_add(with_one(start))
        .saturating_add(with_one(test))
        .saturating_add(2)
}
