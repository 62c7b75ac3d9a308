//! Constant expressions and static initialisers.
#![tactic(auto)]

mod error;
mod evaluated;
mod expressions;
mod initials;
mod operators;
mod statics;
mod told;

pub use error::ConstError;
pub use evaluated::Evaluated;
pub use expressions::{Number, constant, evaluate, first_token};
pub use initials::initial;
pub use operators::{binary, cast, conditional, number_kind, of_kind, prefix};
pub use statics::{Static, static_value};
pub use told::Told;
