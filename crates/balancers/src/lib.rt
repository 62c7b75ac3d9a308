//! Plans for where ranks are to run: to rotate them, to spread them greedily, and to refine the places that they have.
#![tactic(auto)]

mod loads;
mod plan;
mod refining;
mod rotation;
mod spreading;

pub use loads::Load;
pub use plan::Plan;
pub use refining::refine;
pub use rotation::rotate;
pub use spreading::greedy;
