//! Histories of a run: which are allowed, the world after one, and the texts that tell of it.
#![tactic(auto)]

mod laws;
mod report;

pub use laws::{drains_are_whole, marked_drains_are_whole};
pub use report::{End, Standing, append_end, append_rank, name_of};
