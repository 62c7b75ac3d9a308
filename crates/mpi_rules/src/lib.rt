//! What the calls of MPI give, as definitions (MPI 3.1), on a rank's MPI data and its memory.
#![tactic(auto)]

mod arguments;
mod faults;
mod given;
mod laws;

pub use arguments::{CollectiveArgs, CommFacts, Elements, MessageArgs};
pub use faults::{Faults, LateFaults};
pub use given::{Joining, SendOut};
pub use laws::replies_may_come;
