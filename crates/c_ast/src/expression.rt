//! The trees of expressions.

use crate::{AssignOp, BinaryOp, Name, NumberType, PrefixOp, TypeName};
use am_base::Bytes;
use sqlite_items::{Boxed, Items};

/// An expression (C11, 6.5): an alternative of `expr`, `assign`, `cond`, `binary`, `unary`, `postfix` or `primary` with
/// more than one part, or a primary one.
#[cycle(ast)]
#[derive(Drop)]
pub enum Expr {
    Name(Name),
    Number {
        token: u32,
        value: u64,
        number_type: NumberType,
    },
    /// A character literal, by its value as an int that is extended to 64 bits with its sign.
    Character {
        token: u32,
        value: u64,
    },
    Text {
        token: u32,
        bytes: Bytes,
    },
    /// `( expr )`
    Paren {
        token: u32,
        inner: Boxed<Expr>,
    },
    /// A primary expression and one or more operators behind it.
    Postfix {
        token: u32,
        first: Boxed<Expr>,
        operators: Items<PostfixOp<Boxed<Expr>>>,
    },
    Prefix {
        token: u32,
        op: PrefixOp,
        operand: Boxed<Expr>,
    },
    /// `sizeof unary`
    SizeofExpr {
        token: u32,
        operand: Boxed<Expr>,
    },
    /// `sizeof ( typename )`
    SizeofType {
        token: u32,
        type_name: Boxed<TypeName>,
    },
    /// `( typename ) unary`
    Cast {
        token: u32,
        type_name: Boxed<TypeName>,
        operand: Boxed<Expr>,
    },
    /// Operands with one or more operators of one of the ten levels between them, from left to right.
    Binary {
        token: u32,
        first: Boxed<Expr>,
        links: Items<Link<Boxed<Expr>>>,
    },
    /// `binary ? expr : cond`
    Conditional {
        token: u32,
        test: Boxed<Expr>,
        at: u32,
        then: Boxed<Expr>,
        otherwise: Boxed<Expr>,
    },
    Assign {
        token: u32,
        place: Boxed<Expr>,
        at: u32,
        op: AssignOp,
        value: Boxed<Expr>,
    },
    /// Two or more expressions with commas between them.
    Comma {
        token: u32,
        first: Boxed<Expr>,
        others: Items<Expr>,
    },
}

/// An operator of a level, and its right operand.
#[derive(Drop)]
pub struct Link<E> {
    pub at: u32,
    pub op: BinaryOp,
    pub right: E,
}

/// An operator behind its operand (C11, 6.5.2).
#[derive(Drop)]
pub enum PostfixOp<E> {
    /// `[ expr ]`
    Index { at: u32, index: E },
    /// `( assign, .. )`
    Call { at: u32, arguments: Items<E> },
    /// `.` name
    Member { at: u32, name: Name },
    /// `->` name
    Arrow { at: u32, name: Name },
    /// `++`
    Increment { at: u32 },
    /// `--`
    Decrement { at: u32 },
}
