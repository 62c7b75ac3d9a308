//! The typed program.

use crate::Stmt;
use am_base::Bytes;
use rank_range::{Kind, Width};
use sqlite_items::Items;

/// The typed program: all its units together. Functions and objects are numbered over all units, and an external name
/// has one number.
#[derive(Debug, Drop)]
pub struct Program {
    /// By number.
    pub functions: Items<Function>,
    /// The definitions of functions, unit by unit in token order.
    pub defined: Items<DefinedFunction>,
    /// The definitions of static objects and the strings, unit by unit in token order. This is their order in the segment.
    pub objects: Items<StaticObject>,
    /// The uses of names of functions and of objects, unit by unit in token order.
    pub uses: Items<Use>,
    /// `main`, where a unit defines it.
    pub main: Option<Main>,
}

/// A token of a unit. Units and their tokens are numbered from 0.
#[derive(Clone, Copy, Debug, PartialEq, Eq)]
pub struct TokenAt {
    pub unit: u8,
    pub token: u32,
}

/// Where the run begins: the number of `main`, and the unit and line of its name.
#[derive(Clone, Copy, Debug, PartialEq, Eq)]
pub struct Main {
    pub function: u32,
    pub unit: u8,
    pub line: u32,
}

/// A function (C11, 6.9.1).
#[derive(Debug, Drop)]
pub struct Function {
    pub name: Bytes,
    /// The first definition, where there is one.
    pub body: Option<Body>,
}

/// What a function does: its arguments are stored as its parameters, and its other bytes are zero; then its statements
/// are executed, in their order. Behind the last one it returns 0.
#[derive(Debug, Drop)]
pub struct Body {
    /// The unit of its lines and tokens.
    pub unit: u8,
    pub parameters: Items<Parameter>,
    /// How many bytes the frame has: a multiple of 16.
    pub frame: u64,
    pub stmts: Items<Stmt>,
}

/// A parameter, by its offset in the frame. A pointer is an unsigned long.
#[derive(Clone, Copy, Debug, PartialEq, Eq)]
pub struct Parameter {
    pub offset: u64,
    pub kind: Kind,
}

/// A definition of a function, at its declared name.
#[derive(Clone, Copy, Debug, PartialEq, Eq)]
pub struct DefinedFunction {
    pub at: TokenAt,
    pub function: u32,
}

/// The use of a name that is evaluated or is in a static initialiser.
#[derive(Clone, Copy, Debug, PartialEq, Eq)]
pub struct Use {
    pub at: TokenAt,
    pub used: Used,
}

/// What a used name names, by its number.
#[derive(Clone, Copy, Debug, PartialEq, Eq)]
pub enum Used {
    Function(u32),
    Object(u32),
}

/// A definition of an object with static storage, at its declared name, or a string, at its token.
#[derive(Debug, Drop)]
pub struct StaticObject {
    pub at: TokenAt,
    pub object: u32,
    pub size: u64,
    pub align: Width,
    pub initial: Initial,
}

/// The bytes with which an object begins; those behind the last one of the list are zero.
#[derive(Debug, Drop)]
pub struct Initial {
    pub bytes: Bytes,
    pub fixes: Items<Fix>,
}

/// Eight bytes of an object that are the address of another one, so many bytes on. They are zero in the list of bytes.
#[derive(Clone, Copy, Debug, PartialEq, Eq)]
pub struct Fix {
    pub offset: u64,
    pub object: u32,
    pub addend: u64,
}
