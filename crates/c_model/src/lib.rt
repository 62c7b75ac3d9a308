//! What it means to run a typed program on one rank, and what it is for code to mean a program.
#![tactic(auto)]

mod laws;

pub use laws::{
    a_run_takes_its_ticks, more_answers_extend_a_run, more_extends_a_run, more_ticks_extend_a_run,
    runs_are_plain,
};
