//! A first-fit heap whose blocks and holes are nodes within a rank's own bytes.
#![tactic(auto)]

mod edits;
mod heap;
mod holes;
mod live;
mod nodes;
mod zero;

pub use heap::{BadFree, give, other_bytes_tell_nothing, setup, take};
