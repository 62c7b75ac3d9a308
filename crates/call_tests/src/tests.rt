//! The cases, crate by crate.

mod communicators;
mod constants;
mod fields;
mod outputs;
mod places;
mod sweeps;
