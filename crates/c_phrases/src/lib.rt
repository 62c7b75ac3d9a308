//! Expressions and declarations, read from the front of the tokens that are left.
#![tactic(auto)]

mod declarators;
mod ends;
mod expressions;
mod grammar;
mod initialisers;
mod levels;
mod parameters;
mod specifiers;
mod structures;

pub use ends::ended;
pub use initialisers::{bare, decl, decl_from, leave};
pub use levels::{declarator, expr, specs};
