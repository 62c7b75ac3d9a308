//! A book of posted receives and arrived messages that is kept as plain lists.
#![tactic(auto)]

mod copies;
mod list_book;
mod search;

pub use list_book::ListBook;
