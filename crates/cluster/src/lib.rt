//! Runs the code of a program on its ranks, to the end.
#![tactic(auto)]

mod group;
mod job;
mod rank;
mod told;

pub use job::Job;
pub use told::{Told, run};
