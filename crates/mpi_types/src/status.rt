//! The status of a receive.

ghost use Rattle.std.specs.Prelude.{◌≡◌, pos, length};

use crate::{ANY_SOURCE, ANY_TAG, Message, PROC_NULL};

/// What a completed receive tells of its message (MPI 3.1, section 3.2.5). `MPI_ERROR` is always 0.
#[derive(Clone, Copy, Debug, PartialEq, Eq)]
pub struct Status {
    /// `MPI_SOURCE`, the sender's number in the communicator.
    pub source: i32,
    /// `MPI_TAG`
    pub tag: i32,
    /// How many bytes the message has.
    pub bytes: u64,
}

impl Status {
    /// The empty status, which a request that names nothing has (MPI 3.1, section 3.7.3).
    pub fn empty() -> Status
        ensures { result ≡ record { source = ANY_SOURCE; tag = ANY_TAG; bytes = 0 } }
    {
        Status {
            source: ANY_SOURCE,
            tag: ANY_TAG,
            bytes: 0,
        }
    }

    /// The status of a receive from `MPI_PROC_NULL` (MPI 3.1, section 3.11).
    pub fn of_no_process() -> Status
        ensures { result ≡ record { source = PROC_NULL; tag = ANY_TAG; bytes = 0 } }
    {
        Status {
            source: PROC_NULL,
            tag: ANY_TAG,
            bytes: 0,
        }
    }

    /// The status of a receive that got the message.
    pub fn of_message(message: &Message) -> Status
        ensures { result ≡ record { source = pos message.now.member; tag = message.now.tag; bytes = length message.now.body } }
    {
        Status {
            source: i32::from(message.member),
            tag: message.tag,
            bytes: message.body.len() as u64,
        }
    }
}
