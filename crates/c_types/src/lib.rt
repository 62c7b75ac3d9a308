//! The types of C, how objects and frames are laid out, and the typed program.
#![tactic(auto)]

mod ctype;
mod expression;
mod laws;
mod names;
mod program;
mod rooms;
mod scope;
mod sizes;
mod statement;
mod structs;
mod table;

pub use ctype::{Base, CType, FunctionType, Member, Part, StructLayout, StructType};
pub use expression::{Counted, Direction, Expr, FullExpr, Given, OffsetBy, Operand, Step};
pub use laws::refusal_is_one;
pub use names::{Named, Names, Tagged};
pub use program::{
    Body, DefinedFunction, Fix, Function, Initial, Main, Parameter, Program, StaticObject, TokenAt,
    Use, Used,
};
pub use rooms::{Rooms, next_is_least};
pub use scope::Scope;
pub use sizes::{align, alignment, is_complete, layout, size};
pub use statement::{Case, Declared, Span, Stmt, Store, Stored};
pub use structs::StructDraft;
pub use table::NameTable;
