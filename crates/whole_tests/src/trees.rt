//! Trees as text: each node is a word in parentheses, with its parts behind it.

mod expressions;
mod page;
mod units;
mod words;

pub(crate) use units::shown;
