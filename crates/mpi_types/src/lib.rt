//! The data of MPI that ampi's crates share (MPI 3.1, sections 3.2 to 3.7), and the rule that pairs messages with
//! receives, as the contract of a trait.
#![tactic(auto)]

mod answers;
mod argument;
mod book;
mod call;
mod calls;
mod collective;
mod constants;
mod context;
mod entries;
mod group;
mod history;
mod journal;
mod kinds;
mod laws;
mod lists;
mod message;
mod reduce;
mod sequence;
mod state;
mod status;

pub use answers::collected;
pub use argument::{Arg, ArgList, Direction, Joined, Sweep, TreeMsg, copied_args};
pub use book::{Completion, MatchBook};
pub use call::{Answer, Call, Write};
pub use calls::{BookAnswer, BookCall, Envelope, ask, ask_all, books_agree};
pub use collective::Collective;
pub use constants::{
    AMPI_INFO_LB_SYNC, ANY_SOURCE, ANY_TAG, COMM_NULL, COMM_WORLD, PROC_NULL, REQUEST_NULL,
    SUCCESS, UNDEFINED,
};
pub use context::{Ctx, DEEPEST, Level};
pub use entries::{Entry, EntryRun};
pub use group::{Communicator, Group, SplitArg};
pub use history::History;
pub use journal::{append_header, append_runs};
pub use kinds::{Datatype, Operation};
pub use laws::{acceptance_is_tested, insertion_is_one_place, splits_are_ordered};
pub use lists::{BookLists, MatchedPair};
pub use message::{Hit, Message, Posted, accepts};
pub use reduce::reduced_args;
pub use sequence::Sequence;
pub use state::{
    CompleteKind, CompleteRequest, HeldMessage, MessageList, MpiState, OwnData, Phase, Reorder,
};
pub use status::Status;
