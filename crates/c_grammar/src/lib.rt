//! The grammar, the tokens that are left to read, the names in scope, and what is read from the front of tokens.
#![tactic(auto)]

mod cursor;
mod error;
mod operators;
mod phrases;
mod scope;

pub use cursor::{Cursor, name_at_front, number_of, sees_keyword, sees_mark, tail};
pub use error::ParseError;
pub use operators::{
    assign_at, operator_in, prefix_at, qualifier_of, sees_expr, sees_type, sees_type_in_parens,
    storage_of, word_of,
};
pub use phrases::{Extent, Head, Phrase, ReadDeclarator, ReadDirect, ReadParam, ReadSpecs, Wanted};
pub use scope::{OwnNames, Scope};
