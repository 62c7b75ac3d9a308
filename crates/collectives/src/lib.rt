//! How the members of a communicator come to have the arguments of all of them, where they take part in a collective (MPI
//! 3.1, chapter 5): by messages up and down a binomial tree. The tree is this profile's own.
#![tactic(auto)]

mod held;
mod laws;
mod order;
mod sends;
mod sweep;
mod tree;

pub use laws::{
    all_are_gathered, all_gather_at_rest, arrivals_get_lighter, clause_holds, collectives_go_on,
};
pub use sends::{SweepOut, TreeSend};
pub use sweep::{arrive, begin};
