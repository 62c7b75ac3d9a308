//! Where packets go that arrive at a processor, and those that wait there.
#![tactic(auto)]

mod answer;
mod arrival;
mod room;

pub use answer::Route;
pub use arrival::{forwarding_raises_floors, route};
pub use room::{PacketList, Room};
