//! The calls of the library and of MPI, and the types of their declarations.

ghost use Rattle.std.specs.Prelude.{◌≡◌};
ghost use Rattle.am_base.specs.declared.calls.LibCall.{LibCall};
ghost use Rattle.am_base.specs.declared.calls.MpiCall.{MpiCall};
ghost use Rattle.am_base.specs.Calls.{lib_name, lib_result, lib_parameters, mpi_name, mpi_parameters};

/// The types that the headers' declarations are made of.
#[derive(Clone, Copy, Debug, PartialEq, Eq)]
pub enum HeaderType {
    /// `void`
    Void,
    /// `int`, as which this profile has `MPI_Comm`, `MPI_Datatype`, `MPI_Op`, `MPI_Request` and `MPI_Info` too
    Int,
    /// `unsigned long`, which is `size_t`
    UnsignedLong,
    /// `void *`
    VoidPointer,
    /// `const void *`
    ConstVoidPointer,
    /// `char *`
    CharPointer,
    /// `const char *`
    ConstCharPointer,
    /// `int *`
    IntPointer,
    /// `char ***`
    ArgumentsPointer,
    /// `MPI_Status`
    Status,
    /// `MPI_Status *`
    StatusPointer,
    /// `const MPI_Status *`
    ConstStatusPointer,
}

/// The functions of the C library that a program may call (C11, 7.21 to 7.24).
#[derive(Clone, Copy, Debug, PartialEq, Eq)]
pub enum LibCall {
    Printf,
    Puts,
    Putchar,
    Malloc,
    Calloc,
    Free,
    Memcpy,
    Memset,
    Memcmp,
    Strlen,
    Strcmp,
    Strcpy,
    Atoi,
    Abs,
    Exit,
}

/// The calls of MPI that a program may make (MPI 3.1), and `AMPI_Migrate`.
#[derive(Clone, Copy, Debug, PartialEq, Eq)]
pub enum MpiCall {
    Init,
    Initialized,
    Finalized,
    Finalize,
    CommRank,
    CommSize,
    CommDup,
    CommSplit,
    CommFree,
    Abort,
    Send,
    Recv,
    Isend,
    Irecv,
    Wait,
    Waitall,
    Test,
    GetCount,
    Barrier,
    Bcast,
    Reduce,
    Allreduce,
    Scan,
    Gather,
    Scatter,
    Allgather,
    Alltoall,
    Migrate,
}

impl LibCall {
    /// The name by which a program calls it.
    pub fn name(self) -> &'static [u8]
        ensures { result.now ≡ lib_name self }
    {
        match self {
            LibCall::Printf => b"printf",
            LibCall::Puts => b"puts",
            LibCall::Putchar => b"putchar",
            LibCall::Malloc => b"malloc",
            LibCall::Calloc => b"calloc",
            LibCall::Free => b"free",
            LibCall::Memcpy => b"memcpy",
            LibCall::Memset => b"memset",
            LibCall::Memcmp => b"memcmp",
            LibCall::Strlen => b"strlen",
            LibCall::Strcmp => b"strcmp",
            LibCall::Strcpy => b"strcpy",
            LibCall::Atoi => b"atoi",
            LibCall::Abs => b"abs",
            LibCall::Exit => b"exit",
        }
    }

    /// The type of its result.
    pub fn result(self) -> HeaderType
        ensures { result ≡ lib_result self }
    {
        match self {
            LibCall::Printf
            | LibCall::Puts
            | LibCall::Putchar
            | LibCall::Memcmp
            | LibCall::Strcmp
            | LibCall::Atoi
            | LibCall::Abs => HeaderType::Int,
            LibCall::Malloc | LibCall::Calloc | LibCall::Memcpy | LibCall::Memset =>
                HeaderType::VoidPointer,
            LibCall::Free | LibCall::Exit => HeaderType::Void,
            LibCall::Strlen => HeaderType::UnsignedLong,
            LibCall::Strcpy => HeaderType::CharPointer,
        }
    }

    /// The types of its parameters. `printf` takes further arguments behind them.
    pub fn parameters(self) -> &'static [HeaderType]
        ensures { result.now ≡ lib_parameters self }
    {
        match self {
            LibCall::Printf => &[HeaderType::ConstCharPointer],
            LibCall::Puts => &[HeaderType::ConstCharPointer],
            LibCall::Putchar => &[HeaderType::Int],
            LibCall::Malloc => &[HeaderType::UnsignedLong],
            LibCall::Calloc => &[HeaderType::UnsignedLong, HeaderType::UnsignedLong],
            LibCall::Free => &[HeaderType::VoidPointer],
            LibCall::Memcpy => &[
                HeaderType::VoidPointer,
                HeaderType::ConstVoidPointer,
                HeaderType::UnsignedLong,
            ],
            LibCall::Memset => &[
                HeaderType::VoidPointer,
                HeaderType::Int,
                HeaderType::UnsignedLong,
            ],
            LibCall::Memcmp => &[
                HeaderType::ConstVoidPointer,
                HeaderType::ConstVoidPointer,
                HeaderType::UnsignedLong,
            ],
            LibCall::Strlen => &[HeaderType::ConstCharPointer],
            LibCall::Strcmp => &[HeaderType::ConstCharPointer, HeaderType::ConstCharPointer],
            LibCall::Strcpy => &[HeaderType::CharPointer, HeaderType::ConstCharPointer],
            LibCall::Atoi => &[HeaderType::ConstCharPointer],
            LibCall::Abs => &[HeaderType::Int],
            LibCall::Exit => &[HeaderType::Int],
        }
    }
}

impl MpiCall {
    /// The name by which a program calls it. Each call of MPI answers an `int`.
    pub fn name(self) -> &'static [u8]
        ensures { result.now ≡ mpi_name self }
    {
        match self {
            MpiCall::Init => b"MPI_Init",
            MpiCall::Initialized => b"MPI_Initialized",
            MpiCall::Finalized => b"MPI_Finalized",
            MpiCall::Finalize => b"MPI_Finalize",
            MpiCall::CommRank => b"MPI_Comm_rank",
            MpiCall::CommSize => b"MPI_Comm_size",
            MpiCall::CommDup => b"MPI_Comm_dup",
            MpiCall::CommSplit => b"MPI_Comm_split",
            MpiCall::CommFree => b"MPI_Comm_free",
            MpiCall::Abort => b"MPI_Abort",
            MpiCall::Send => b"MPI_Send",
            MpiCall::Recv => b"MPI_Recv",
            MpiCall::Isend => b"MPI_Isend",
            MpiCall::Irecv => b"MPI_Irecv",
            MpiCall::Wait => b"MPI_Wait",
            MpiCall::Waitall => b"MPI_Waitall",
            MpiCall::Test => b"MPI_Test",
            MpiCall::GetCount => b"MPI_Get_count",
            MpiCall::Barrier => b"MPI_Barrier",
            MpiCall::Bcast => b"MPI_Bcast",
            MpiCall::Reduce => b"MPI_Reduce",
            MpiCall::Allreduce => b"MPI_Allreduce",
            MpiCall::Scan => b"MPI_Scan",
            MpiCall::Gather => b"MPI_Gather",
            MpiCall::Scatter => b"MPI_Scatter",
            MpiCall::Allgather => b"MPI_Allgather",
            MpiCall::Alltoall => b"MPI_Alltoall",
            MpiCall::Migrate => b"AMPI_Migrate",
        }
    }

    /// The types of its parameters.
    pub fn parameters(self) -> &'static [HeaderType]
        ensures { result.now ≡ mpi_parameters self }
    {
        match self {
            MpiCall::Init => &[HeaderType::IntPointer, HeaderType::ArgumentsPointer],
            MpiCall::Initialized => &[HeaderType::IntPointer],
            MpiCall::Finalized => &[HeaderType::IntPointer],
            MpiCall::Finalize => &[],
            MpiCall::CommRank => &[HeaderType::Int, HeaderType::IntPointer],
            MpiCall::CommSize => &[HeaderType::Int, HeaderType::IntPointer],
            MpiCall::CommDup => &[HeaderType::Int, HeaderType::IntPointer],
            MpiCall::CommSplit => &[
                HeaderType::Int,
                HeaderType::Int,
                HeaderType::Int,
                HeaderType::IntPointer,
            ],
            MpiCall::CommFree => &[HeaderType::IntPointer],
            MpiCall::Abort => &[HeaderType::Int, HeaderType::Int],
            MpiCall::Send => &[
                HeaderType::ConstVoidPointer,
                HeaderType::Int,
                HeaderType::Int,
                HeaderType::Int,
                HeaderType::Int,
                HeaderType::Int,
            ],
            MpiCall::Recv => &[
                HeaderType::VoidPointer,
                HeaderType::Int,
                HeaderType::Int,
                HeaderType::Int,
                HeaderType::Int,
                HeaderType::Int,
                HeaderType::StatusPointer,
            ],
            MpiCall::Isend => &[
                HeaderType::ConstVoidPointer,
                HeaderType::Int,
                HeaderType::Int,
                HeaderType::Int,
                HeaderType::Int,
                HeaderType::Int,
                HeaderType::IntPointer,
            ],
            MpiCall::Irecv => &[
                HeaderType::VoidPointer,
                HeaderType::Int,
                HeaderType::Int,
                HeaderType::Int,
                HeaderType::Int,
                HeaderType::Int,
                HeaderType::IntPointer,
            ],
            MpiCall::Wait => &[HeaderType::IntPointer, HeaderType::StatusPointer],
            MpiCall::Waitall => &[
                HeaderType::Int,
                HeaderType::IntPointer,
                HeaderType::StatusPointer,
            ],
            MpiCall::Test => &[
                HeaderType::IntPointer,
                HeaderType::IntPointer,
                HeaderType::StatusPointer,
            ],
            MpiCall::GetCount => &[
                HeaderType::ConstStatusPointer,
                HeaderType::Int,
                HeaderType::IntPointer,
            ],
            MpiCall::Barrier => &[HeaderType::Int],
            MpiCall::Bcast => &[
                HeaderType::VoidPointer,
                HeaderType::Int,
                HeaderType::Int,
                HeaderType::Int,
                HeaderType::Int,
            ],
            MpiCall::Reduce => &[
                HeaderType::ConstVoidPointer,
                HeaderType::VoidPointer,
                HeaderType::Int,
                HeaderType::Int,
                HeaderType::Int,
                HeaderType::Int,
                HeaderType::Int,
            ],
            MpiCall::Allreduce => &[
                HeaderType::ConstVoidPointer,
                HeaderType::VoidPointer,
                HeaderType::Int,
                HeaderType::Int,
                HeaderType::Int,
                HeaderType::Int,
            ],
            MpiCall::Scan => &[
                HeaderType::ConstVoidPointer,
                HeaderType::VoidPointer,
                HeaderType::Int,
                HeaderType::Int,
                HeaderType::Int,
                HeaderType::Int,
            ],
            MpiCall::Gather => &[
                HeaderType::ConstVoidPointer,
                HeaderType::Int,
                HeaderType::Int,
                HeaderType::VoidPointer,
                HeaderType::Int,
                HeaderType::Int,
                HeaderType::Int,
                HeaderType::Int,
            ],
            MpiCall::Scatter => &[
                HeaderType::ConstVoidPointer,
                HeaderType::Int,
                HeaderType::Int,
                HeaderType::VoidPointer,
                HeaderType::Int,
                HeaderType::Int,
                HeaderType::Int,
                HeaderType::Int,
            ],
            MpiCall::Allgather => &[
                HeaderType::ConstVoidPointer,
                HeaderType::Int,
                HeaderType::Int,
                HeaderType::VoidPointer,
                HeaderType::Int,
                HeaderType::Int,
                HeaderType::Int,
            ],
            MpiCall::Alltoall => &[
                HeaderType::ConstVoidPointer,
                HeaderType::Int,
                HeaderType::Int,
                HeaderType::VoidPointer,
                HeaderType::Int,
                HeaderType::Int,
                HeaderType::Int,
            ],
            MpiCall::Migrate => &[HeaderType::Int],
        }
    }
}
