//! The code of the stack machine: its instructions, what each of them does, and how a listing spells them. It knows no
//! program.
#![tactic(auto)]

mod code;
mod instr;
mod laws;
mod spelling;

pub use code::{Code, Function, Parameter};
pub use instr::Instr;
pub use laws::{a_stopped_machine_stays, lines_are_told_before};
pub use spelling::listing;
