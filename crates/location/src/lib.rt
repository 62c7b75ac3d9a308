//! Where each rank is, as a modelled processor knows it. The rules are this profile's own.
#![tactic(auto)]

mod laws;
mod table;

pub use laws::learnings_are_kept;
pub use table::Table;
