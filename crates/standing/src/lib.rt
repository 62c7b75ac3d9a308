//! Worlds of histories, and what ranks stand for at a world.
#![tactic(auto)]

mod laws;

pub use laws::{arrivals_keep, calls_keep, quiet_is_stuck, runs_keep};
