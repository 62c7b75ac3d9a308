//! The groups of communicators that are made of another one (MPI 3.1, section 6.4.2).
#![tactic(auto)]

mod making;

pub use making::{dup, split};
