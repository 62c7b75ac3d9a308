//! What is held of a rank's output until a commit releases it, so that each line is released once. The rules are this
//! profile's own.
#![tactic(auto)]

mod held;
mod laws;

pub use held::{after, drop_released, text};
pub use laws::lines_are_released_once;
