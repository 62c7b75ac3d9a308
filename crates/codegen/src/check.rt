//! The first full expression in which more values are pending than may be.

ghost use Rattle.std.specs.Prelude.{◌≡◌, ◌≤◌, None};
ghost use Rattle.std.specs.List.{flat_map};
ghost use Rattle.c_types.specs.Need.{pending, pending_if, in_store, in_declared, pending_of};
ghost use Rattle.codegen.specs.Checking.{first_of, found_in, found_in_body, found_in_all};

use crate::need::need;
use c_types::{Body, Declared, FullExpr, Function, Stmt, Store, TokenAt};

/// How many values may be pending at once: the machine's operands hold no more.
const PENDING_LIMIT: u8 = 32;

/// The first of the token found so far and of one more.
fn first_of(found: Option<TokenAt>, at: TokenAt) -> Option<TokenAt>
    ensures { result ≡ first_of found at }
{
    match found {
        None => Some(at),
        Some(first) => {
            if first.unit < at.unit || (first.unit == at.unit && first.token <= at.token) {
                Some(first)
            } else {
                Some(at)
            }
        }
    }
}

/// One full expression more, below whose value so many others are pending.
fn check_full(found: Option<TokenAt>, unit: u8, full: &FullExpr, below: u8) -> Option<TokenAt>
    requires { below ≤ 32 }
    ensures { result ≡ found_in unit found (pending below full.now) }
{
    if need(&full.expr) <= PENDING_LIMIT - below {
        return found;
    }
    let token = full.token;
    first_of(found, TokenAt { unit, token })
}

fn check_if(found: Option<TokenAt>, unit: u8, value: &Option<FullExpr>) -> Option<TokenAt>
    ensures { result ≡ found_in unit found (pending_if value.now) }
{
    match value {
        None => found,
        Some(full) => check_full(found, unit, full, 0),
    }
}

fn check_stores(found: Option<TokenAt>, unit: u8, stores: &[Store]) -> Option<TokenAt>
    ensures { result ≡ found_in unit found (flat_map in_store stores.now) }
{
    let mut first = found;
    for store in stores {
        first = check_full(first, unit, &store.value, 1);
    }
    first
}

fn check_all_declared(found: Option<TokenAt>, unit: u8, all: &[Declared]) -> Option<TokenAt>
    ensures { result ≡ found_in unit found (flat_map in_declared all.now) }
{
    let mut first = found;
    for declared in all {
        first = check_stores(first, unit, declared.stores.as_slice());
    }
    first
}

#[cycle(check)]
fn check_stmts(found: Option<TokenAt>, unit: u8, stmts: &[Stmt]) -> Option<TokenAt>
    ensures { result ≡ found_in unit found (flat_map pending_of stmts.now) }
{
    let mut first = found;
    for stmt in stmts {
        first = check_stmt(first, unit, stmt);
    }
    first
}

#[cycle(check)]
fn check_stmt(found: Option<TokenAt>, unit: u8, stmt: &Stmt) -> Option<TokenAt>
    ensures { result ≡ found_in unit found (pending_of stmt.now) }
{
    match stmt {
        Stmt::Empty { .. } => found,
        Stmt::Express { value, .. } => check_full(found, unit, value, 0),
        Stmt::Declare(declared) => check_stores(found, unit, declared.stores.as_slice()),
        Stmt::Block(stmts) => check_stmts(found, unit, stmts.as_slice()),
        Stmt::If {
            test,
            then,
            otherwise,
            ..
        } => {
            let first = check_stmt(check_full(found, unit, test, 0), unit, then.get());
            match otherwise {
                None => first,
                Some(second) => check_stmt(first, unit, second.get()),
            }
        }
        Stmt::While { test, body, .. } => {
            check_stmt(check_full(found, unit, test, 0), unit, body.get())
        }
        Stmt::Do { test, body, .. } => {
            check_full(check_stmt(found, unit, body.get()), unit, test, 0)
        }
        Stmt::For {
            declared,
            start,
            test,
            step,
            body,
            ..
        } => {
            let first = check_all_declared(found, unit, declared.as_slice());
            let second = check_if(first, unit, start);
            let third = check_if(second, unit, test);
            check_stmt(check_if(third, unit, step), unit, body.get())
        }
        Stmt::Switch { value, body, .. } => {
            check_stmt(check_full(found, unit, value, 0), unit, body.get())
        }
        Stmt::Labelled { body, .. } => check_stmt(found, unit, body.get()),
        Stmt::Break { .. } => found,
        Stmt::Continue { .. } => found,
        Stmt::Return { value, .. } => check_if(found, unit, value),
    }
}

fn check_body(found: Option<TokenAt>, body: &Option<Body>) -> Option<TokenAt>
    ensures { result ≡ found_in_body found body.now }
{
    match body {
        None => found,
        Some(defined) => check_stmts(found, defined.unit, defined.stmts.as_slice()),
    }
}

/// The first token of a program at which a full expression begins that needs too many values, if there is one.
pub fn first_past(functions: &[Function]) -> Option<TokenAt>
    ensures { result ≡ found_in_all None functions.now }
{
    let mut first: Option<TokenAt> = None;
    for function in functions {
        first = check_body(first, &function.body);
    }
    first
}
