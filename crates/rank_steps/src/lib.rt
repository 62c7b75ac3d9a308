//! What one rank does, as steps: ticks of its machine, and ticks at calls of MPI with their answers.
#![tactic(auto)]

mod laws;

pub use laws::steps_are_joined;
