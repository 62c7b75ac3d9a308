//! The entries of a history.

use am_base::RankId;

/// What can stand in a history.
#[derive(Clone, Copy, Debug, PartialEq, Eq)]
pub enum Entry {
    /// The rank takes one tick.
    Tick {
        rank: RankId,
    },
    /// The rank's posted receive of this request number gets the first message from the sender that it accepts.
    Match {
        rank: RankId,
        request: u32,
        sender: RankId,
    },
    /// The rank gets the list of the collective that it joined.
    Gather {
        rank: RankId,
    },
    /// The mark up to which a history is released.
    Commit,
}

/// Equal entries in a row. `times` is 1 but for ticks.
#[derive(Clone, Copy, Debug, PartialEq, Eq)]
pub struct EntryRun {
    pub entry: Entry,
    pub times: u64,
}
