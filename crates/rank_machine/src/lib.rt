//! Runs the code of a program on one rank, over any memory of a rank. Between two runs a rank is its bytes and its registers.
#![tactic(auto)]

mod access;
mod answers;
mod begin;
mod calls;
mod halt;
mod laws;
mod library;
mod lines;
mod machine;
mod opening;
mod operands;
mod plain;
mod printer;
mod ranks;
mod reaching;
mod records;
mod run;
mod step;
mod stop;
mod work;

pub use answers::answer;
pub use laws::{
    answers_are_taken, answers_lead_on, fresh_ranks_run, ranks_begin_at_start, runs_are_joined,
    runs_lead_on,
};
pub use opening::open;
pub use ranks::go;
pub use stop::Stop;
