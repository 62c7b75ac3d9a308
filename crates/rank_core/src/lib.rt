//! One rank from its start on: what reaches it.
#![tactic(auto)]

mod arrival;
mod laws;
mod starting;

pub use arrival::{ArriveOut, arrive};
pub use laws::{
    answers_keep_calls_in_turn, arrivals_keep_ranks_settled, ranks_start_settled,
    runs_keep_ranks_settled, settled_ranks_may_call, started_ranks_run,
};
pub use starting::start;
