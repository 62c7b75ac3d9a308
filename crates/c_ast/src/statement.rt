//! The trees of statements.

use crate::{Decl, Expr};
use sqlite_items::{Boxed, Items};

/// A statement (C11, 6.8).
#[derive(Drop)]
pub enum Stmt {
    Block {
        token: u32,
        items: Items<BlockItem<Boxed<Stmt>>>,
    },
    /// `[ expr ] ;`
    Express {
        token: u32,
        expr: Option<Expr>,
    },
    If {
        token: u32,
        test: Expr,
        then: Boxed<Stmt>,
        otherwise: Option<Boxed<Stmt>>,
    },
    While {
        token: u32,
        test: Expr,
        body: Boxed<Stmt>,
    },
    Do {
        token: u32,
        body: Boxed<Stmt>,
        test: Expr,
    },
    For {
        token: u32,
        start: ForStart,
        test: Option<Expr>,
        step: Option<Expr>,
        body: Boxed<Stmt>,
    },
    Switch {
        token: u32,
        value: Expr,
        body: Boxed<Stmt>,
    },
    Case {
        token: u32,
        value: Expr,
        body: Boxed<Stmt>,
    },
    Default {
        token: u32,
        body: Boxed<Stmt>,
    },
    Break {
        token: u32,
    },
    Continue {
        token: u32,
    },
    Return {
        token: u32,
        value: Option<Expr>,
    },
}

/// What stands first in the parentheses of a `for`.
#[derive(Drop)]
pub enum ForStart {
    Declaration(Decl),
    Expression(Option<Expr>),
}

/// A part of a block.
#[derive(Drop)]
pub enum BlockItem<S> {
    Declaration(Decl),
    Statement(S),
}
