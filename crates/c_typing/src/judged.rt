//! What expressions are.

use am_base::{LibCall, MpiCall};
use c_const::Evaluated;
use c_types::{CType, Expr, FunctionType};

/// What an expression is (C11, 6.3.2.1): a place of an object, a value, or a function.
#[derive(Drop)]
pub enum Judged {
    /// The value of the typed expression is the address of the place.
    Place { of: CType, tree: Expr },
    Value(Value),
    Function { of: FunctionType, callee: Callee },
}

/// A value of a type. A structure is told by its address.
#[derive(Drop)]
pub struct Value {
    pub of: CType,
    pub tree: Expr,
    /// What it has as a constant expression, if it has the form of one (C11, 6.6).
    pub constant: Option<Evaluated>,
    pub sort: Sort,
}

/// What is known of a value beside its type.
#[derive(Clone, Copy, Debug, PartialEq, Eq)]
pub enum Sort {
    Plain,
    /// A constant 0 that was cast to `void *` (C11, 6.3.2.3p3).
    NullPointer,
    /// A function that isn't called. It has no value in this profile, and `void` stands for its type.
    Function,
}

/// What is called.
#[derive(Clone, Copy, Debug, PartialEq, Eq)]
pub enum Callee {
    /// A function of the program, by its number.
    Function(u32),
    Library(LibCall),
    Mpi(MpiCall),
}
