//! The events of a run: read from a schedule's text, printed as one, and made from a seed.
#![tactic(auto)]

mod error;
mod event;
mod events;
mod lines;
mod made;
mod printed;
mod reader;
mod words;

pub use error::SchedError;
pub use event::{Event, Strategy};
pub use made::{make, turns_suffice};
pub use printed::{print, printed_is_read};
pub use reader::{one_answer, read};
