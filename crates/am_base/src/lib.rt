//! Numbers, bytes and lines that every crate of ampi speaks of, and the names that its sources and its reports share:
//! the headers' names, the calls of the library and of MPI, and the causes of traps.
#![tactic(auto)]

mod bytes;
mod calls;
mod digits;
mod fields;
mod headers;
mod lines;
mod numbers;
mod released;
mod traps;

pub use bytes::Bytes;
pub use calls::{HeaderType, LibCall, MpiCall};
pub use digits::{decimal, signed_decimal};
pub use fields::{put_u16, put_u32, put_u64, puts_are_taken_back, take_u16, take_u32, take_u64};
pub use headers::{Header, HeaderItem, HeaderName, header_item};
pub use lines::{Line, LineList};
pub use numbers::{PacketNo, ProcId, RankId};
pub use released::append_released;
pub use traps::TrapCause;
