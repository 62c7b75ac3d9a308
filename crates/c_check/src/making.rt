//! Typed statements, made from their parts.

ghost use Rattle.std.specs.Prelude.{◌≡◌, [], ◌∷◌, ◌++◌, IfOk};
ghost use Rattle.c_check.specs.Making as making;

use crate::Labels;
use c_types::{Declared, FullExpr, Stmt as Typed};
use sqlite_items::{Boxed, Items};
use std::alloc::{AllocError, Global};

/// What stands in the parentheses of a `for`.
#[derive(Drop)]
pub struct Heads {
    pub declared: Items<Declared>,
    pub start: Option<FullExpr>,
    pub test: Option<FullExpr>,
    pub step: Option<FullExpr>,
}

pub fn with_stmt(done: Items<Typed>, stmt: Typed) -> Result<Items<Typed>, AllocError>
    ensures { IfOk result (λ ss. ss ≡ done ++ stmt ∷ []) }
{
    let mut done = done;
    match done.push(stmt) {
        Ok(()) => Ok(done),
        Err(error) => {
            drop(done);
            Err(error)
        }
    }
}

pub fn if_stmt(
    alloc: Global,
    line: u32,
    test: FullExpr,
    then: Typed,
    otherwise: Option<Typed>,
) -> Result<Typed, AllocError>
    ensures { IfOk result (λ s. s ≡ making.if_stmt line test then otherwise) }
{
    let then = match Boxed::new(alloc, then) {
        Ok(then) => then,
        Err(error) => {
            drop(test);
            drop(otherwise);
            return Err(error);
        }
    };
    match boxed(alloc, otherwise) {
        Ok(otherwise) => Ok(Typed::If {
            line,
            test,
            then,
            otherwise,
        }),
        Err(error) => {
            drop(test);
            drop(then);
            Err(error)
        }
    }
}

fn boxed(alloc: Global, of: Option<Typed>) -> Result<Option<Boxed<Typed>>, AllocError>
    ensures { IfOk result (λ s. s ≡ of) }
{
    match of {
        Some(of) => Ok(Some(Boxed::new(alloc, of)?)),
        None => Ok(None),
    }
}

pub fn while_stmt(
    alloc: Global,
    line: u32,
    test: FullExpr,
    body: Typed,
) -> Result<Typed, AllocError>
    ensures { IfOk result (λ s. s ≡ making.while_stmt line test body) }
{
    match Boxed::new(alloc, body) {
        Ok(body) => Ok(Typed::While { line, test, body }),
        Err(error) => {
            drop(test);
            Err(error)
        }
    }
}

pub fn do_stmt(alloc: Global, line: u32, body: Typed, test: FullExpr) -> Result<Typed, AllocError>
    ensures { IfOk result (λ s. s ≡ making.do_stmt line body test) }
{
    match Boxed::new(alloc, body) {
        Ok(body) => Ok(Typed::Do { line, body, test }),
        Err(error) => {
            drop(test);
            Err(error)
        }
    }
}

pub fn for_stmt(alloc: Global, line: u32, heads: Heads, body: Typed) -> Result<Typed, AllocError>
    ensures { IfOk result (λ s. s ≡ making.for_stmt line heads body) }
{
    let body = match Boxed::new(alloc, body) {
        Ok(body) => body,
        Err(error) => {
            drop(heads);
            return Err(error);
        }
    };
    let Heads {
        declared,
        start,
        test,
        step,
    } = heads;
    Ok(Typed::For {
        line,
        declared,
        start,
        test,
        step,
        body,
    })
}

pub fn switch_stmt(
    alloc: Global,
    line: u32,
    value: FullExpr,
    labels: Labels,
    body: Typed,
) -> Result<Typed, AllocError>
    ensures { IfOk result (λ s. s ≡ making.switch_stmt line value labels body) }
{
    let body = match Boxed::new(alloc, body) {
        Ok(body) => body,
        Err(error) => {
            drop(value);
            drop(labels);
            return Err(error);
        }
    };
    let Labels { cases, default, .. } = labels;
    Ok(Typed::Switch {
        line,
        value,
        cases,
        default,
        body,
    })
}

pub fn labelled(alloc: Global, label: u32, body: Typed) -> Result<Typed, AllocError>
    ensures { IfOk result (λ s. s ≡ making.labelled label body) }
{
    let body = Boxed::new(alloc, body)?;
    Ok(Typed::Labelled { label, body })
}
