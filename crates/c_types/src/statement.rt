//! Statements of the typed program.

use crate::FullExpr;
use rank_range::Kind;
use sqlite_items::{Boxed, Items};

/// A statement (C11, 6.8), or an automatic declarator with its initialiser. `line` is that of its first token, or of the
/// declared name: a trap in it is told at this line. Each but a block and a label takes a tick before it acts.
#[derive(Debug, Drop)]
pub enum Stmt {
    /// `;` alone.
    Empty {
        line: u32,
    },
    Express {
        line: u32,
        value: FullExpr,
    },
    Declare(Declared),
    Block(Items<Stmt>),
    If {
        line: u32,
        test: FullExpr,
        then: Boxed<Stmt>,
        otherwise: Option<Boxed<Stmt>>,
    },
    While {
        line: u32,
        test: FullExpr,
        body: Boxed<Stmt>,
    },
    Do {
        line: u32,
        body: Boxed<Stmt>,
        test: FullExpr,
    },
    /// It begins with declarators or with an expression.
    For {
        line: u32,
        declared: Items<Declared>,
        start: Option<FullExpr>,
        test: Option<FullExpr>,
        step: Option<FullExpr>,
        body: Boxed<Stmt>,
    },
    /// The run goes on at the label of the case with this value, else at that of `default`, else behind the statement.
    Switch {
        line: u32,
        value: FullExpr,
        cases: Items<Case>,
        default: Option<u32>,
        body: Boxed<Stmt>,
    },
    /// A statement behind `case` or `default`. The labels of a `switch` are numbered from 0 in their order; those of a
    /// `switch` inside it are its own.
    Labelled {
        label: u32,
        body: Boxed<Stmt>,
    },
    Break {
        line: u32,
    },
    Continue {
        line: u32,
    },
    /// The value is converted to the result's type; without one it is 0.
    Return {
        line: u32,
        value: Option<FullExpr>,
    },
}

/// A `case`: its value, converted to the promoted kind of the value of its `switch`, and its label.
#[derive(Clone, Copy, Debug, PartialEq, Eq)]
pub struct Case {
    pub value: u64,
    pub label: u32,
}

/// An automatic declarator with its initialiser (C11, 6.7.9): the bytes that become zero first, and then the stores in their
/// order.
#[derive(Debug, Drop)]
pub struct Declared {
    pub line: u32,
    pub zeros: Option<Span>,
    pub stores: Items<Store>,
}

/// Bytes of a frame.
#[derive(Clone, Copy, Debug, PartialEq, Eq)]
pub struct Span {
    pub offset: u64,
    pub size: u64,
}

/// A full expression whose value is stored in the frame at this offset. Its address is pending below the value.
#[derive(Debug, Drop)]
pub struct Store {
    pub offset: u64,
    pub stored: Stored,
    pub value: FullExpr,
}

/// What a store puts: a number of a kind, or the bytes of the structure at the address that is the value.
#[derive(Clone, Copy, Debug, PartialEq, Eq)]
pub enum Stored {
    Number(Kind),
    Structure { size: u64 },
}
