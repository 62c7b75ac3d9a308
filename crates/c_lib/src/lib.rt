//! The functions of the C library that a rank may call, but for those of the heap and `exit`.
#![tactic(auto)]

mod calls;
mod formats;
mod memory;
mod numbers;
mod printing;
mod texts;

pub use calls::call;
