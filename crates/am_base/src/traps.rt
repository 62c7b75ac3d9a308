//! The causes of traps.

ghost use Rattle.std.specs.Prelude.{◌≡◌, ◌≢◌, MatchOption};
ghost use Rattle.am_base.specs.declared.traps.TrapCause.{TrapCause};
ghost use Rattle.am_base.specs.Traps.{trap_text, trap_number};

/// Why a rank was trapped. The causes, their texts and their numbers are this profile's own.
#[derive(Clone, Copy, Debug, PartialEq, Eq)]
pub enum TrapCause {
    /// An access whose bytes aren't all in one accessible area.
    BadAddress,
    /// `free` of an address at which no live block begins.
    BadFree,
    /// A quotient or remainder by 0.
    DivisionByZero,
    /// The least number divided by -1.
    DivisionOverflow,
    /// A shift by a negative number, or by the width or more.
    ShiftCount,
    /// A call beside 256 calls that haven't returned.
    CallDepth,
    /// A frame that doesn't fit into the data stack.
    DataStack,
    /// A format of `printf` that isn't one, or that wants an argument that isn't there.
    BadFormat,
    /// A print past the bytes that a rank may print.
    TextLimit,
    /// A call before `MPI_Init` or after `MPI_Finalize`, a second `MPI_Init`, one communicator or level too many, a
    /// negative colour.
    ErrOther,
    /// A number that names no communicator of the rank.
    ErrComm,
    /// A number that names no live request, or one request too many.
    ErrRequest,
    /// A negative count, or bytes sent and received that differ.
    ErrCount,
    /// An unknown datatype.
    ErrType,
    /// An unknown operation, or one that the datatype doesn't have.
    ErrOp,
    /// A root that is no member's number.
    ErrRoot,
    /// A rank that is no member's number.
    ErrRank,
    /// A negative tag.
    ErrTag,
    /// A buffer whose bytes aren't all in one accessible area.
    ErrBuffer,
    /// A message longer than the receive's room.
    ErrTruncate,
    /// Members that joined a collective with different arguments.
    CollectiveMismatch,
}

impl TrapCause {
    /// The text by which a report tells the cause.
    pub fn text(self) -> &'static [u8]
        ensures { result.now ≡ trap_text self }
    {
        match self {
            TrapCause::BadAddress => b"bad address",
            TrapCause::BadFree => b"bad free",
            TrapCause::DivisionByZero => b"division by zero",
            TrapCause::DivisionOverflow => b"division overflow",
            TrapCause::ShiftCount => b"shift count",
            TrapCause::CallDepth => b"call depth",
            TrapCause::DataStack => b"data stack",
            TrapCause::BadFormat => b"bad format",
            TrapCause::TextLimit => b"text limit",
            TrapCause::ErrOther => b"MPI_ERR_OTHER",
            TrapCause::ErrComm => b"MPI_ERR_COMM",
            TrapCause::ErrRequest => b"MPI_ERR_REQUEST",
            TrapCause::ErrCount => b"MPI_ERR_COUNT",
            TrapCause::ErrType => b"MPI_ERR_TYPE",
            TrapCause::ErrOp => b"MPI_ERR_OP",
            TrapCause::ErrRoot => b"MPI_ERR_ROOT",
            TrapCause::ErrRank => b"MPI_ERR_RANK",
            TrapCause::ErrTag => b"MPI_ERR_TAG",
            TrapCause::ErrBuffer => b"MPI_ERR_BUFFER",
            TrapCause::ErrTruncate => b"MPI_ERR_TRUNCATE",
            TrapCause::CollectiveMismatch => b"collective mismatch",
        }
    }

    /// Its number in a rank's image.
    pub fn number(self) -> u8
        ensures { result ≡ trap_number self }
    {
        match self {
            TrapCause::BadAddress => 1,
            TrapCause::BadFree => 2,
            TrapCause::DivisionByZero => 3,
            TrapCause::DivisionOverflow => 4,
            TrapCause::ShiftCount => 5,
            TrapCause::CallDepth => 6,
            TrapCause::DataStack => 7,
            TrapCause::BadFormat => 8,
            TrapCause::TextLimit => 9,
            TrapCause::ErrOther => 20,
            TrapCause::ErrComm => 21,
            TrapCause::ErrRequest => 22,
            TrapCause::ErrCount => 23,
            TrapCause::ErrType => 24,
            TrapCause::ErrOp => 25,
            TrapCause::ErrRoot => 26,
            TrapCause::ErrRank => 27,
            TrapCause::ErrTag => 28,
            TrapCause::ErrBuffer => 29,
            TrapCause::ErrTruncate => 30,
            TrapCause::CollectiveMismatch => 31,
        }
    }

    /// The cause of that number.
    pub fn of_number(number: u8) -> Option<TrapCause>
        ensures { MatchOption result ((c : TrapCause) → trap_number c ≢ number) (λ c. trap_number c ≡ number) }
    {
        Some(match number {
            1 => TrapCause::BadAddress,
            2 => TrapCause::BadFree,
            3 => TrapCause::DivisionByZero,
            4 => TrapCause::DivisionOverflow,
            5 => TrapCause::ShiftCount,
            6 => TrapCause::CallDepth,
            7 => TrapCause::DataStack,
            8 => TrapCause::BadFormat,
            9 => TrapCause::TextLimit,
            20 => TrapCause::ErrOther,
            21 => TrapCause::ErrComm,
            22 => TrapCause::ErrRequest,
            23 => TrapCause::ErrCount,
            24 => TrapCause::ErrType,
            25 => TrapCause::ErrOp,
            26 => TrapCause::ErrRoot,
            27 => TrapCause::ErrRank,
            28 => TrapCause::ErrTag,
            29 => TrapCause::ErrBuffer,
            30 => TrapCause::ErrTruncate,
            31 => TrapCause::CollectiveMismatch,
            _ => return None,
        })
    }
}
