//! The copies of ranks that processors keep, and which rank is lost with both its keepers.
#![tactic(auto)]

mod keepers;
mod store;

pub use keepers::{Keepers, Pair, ProcSet, lost_both, lost_is_least};
pub use store::{Copy, Store};
