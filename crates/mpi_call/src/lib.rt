//! The calls of MPI on one rank: what is wrong with a call, what it gives, and what it leaves (MPI 3.1).
#![tactic(auto)]

mod arrays;
mod begins;
mod counts;
mod decoding;
mod done;
mod ending;
mod finishes;
mod gathering;
mod joining;
mod joins;
mod laws;
mod messages;
mod numbers;
mod own;
mod places;
mod ready;
mod requests;
mod shares;
mod state;
mod waitall;
mod waits;

pub use begins::begin;
pub use done::{Began, CallStop, Finished};
pub use finishes::finish;
pub use laws::{
    arrivals_keep_ranks_steady, begun_calls_keep_ranks_steady, begun_receives_may_finish,
    ended_calls_keep_ranks_steady, ended_calls_keep_requests_in_order, steady_ranks_may_begin,
};
pub use ready::answerable;
