//! The events of a run.

/// How a `balance` event places the ranks.
#[derive(Clone, Copy, Debug, PartialEq, Eq)]
pub enum Strategy {
    /// Each rank goes to the next live processor.
    Rotate,
    /// The heaviest rank first, each to the least loaded processor.
    Greedy,
    /// Ranks leave the most loaded processor while it is over a limit.
    Refine,
}

/// One event of a schedule. A number may be that of no rank and no processor: such an event is skipped in a run.
#[derive(Clone, Copy, Debug, PartialEq, Eq)]
pub enum Event {
    /// The rank runs this number of ticks, or fewer where it then can't tick.
    Run { rank: u32, ticks: u32 },
    /// The packet at this place, modulo their count, arrives.
    Deliver { place: u32 },
    /// Packets arrive until none is in transit.
    Settle,
    /// The rank leaves for the processor.
    Move { rank: u32, processor: u32 },
    /// The ranks are placed anew.
    Balance { strategy: Strategy },
    /// A checkpoint begins: no rank runs or moves.
    Freeze,
    /// The processor keeps a new copy of each of its ranks, and sends its buddy one.
    Save { processor: u32 },
    /// The checkpoint ends: the new copies become the old ones.
    Commit,
    /// The processor is lost.
    Lose { processor: u32 },
    /// All ranks go back to the last checkpoint.
    Recover,
    /// The rest of the run: what is in transit arrives and ranks run until nothing changes.
    Drain,
}
