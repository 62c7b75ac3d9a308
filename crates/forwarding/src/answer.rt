//! What becomes of a packet that arrives.

use am_base::ProcId;

/// Where a message's packet goes that arrives at a processor.
#[derive(Clone, Copy, Debug, PartialEq, Eq)]
pub enum Route {
    /// To the rank, which is resident.
    Accept,
    /// On to another processor, with this floor.
    Forward { floor: u32, place: ProcId },
    /// Nowhere yet: it waits.
    Wait,
}
