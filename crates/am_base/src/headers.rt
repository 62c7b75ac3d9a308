//! The names that the four headers declare, one table for each. They are known from the header's `#include` on.
ghost use Rattle.std.specs.Prelude.{◌≡◌};
ghost use Rattle.am_base.specs.Headers.{item_in, items_of, rows_of};

use crate::{HeaderType, LibCall, MpiCall};

/// The headers that a source may include.
#[derive(Clone, Copy, Debug, PartialEq, Eq)]
pub enum Header {
    Mpi,
    Stdio,
    Stdlib,
    /// `string.h`
    Strings,
}

/// What a header declares by a name.
#[derive(Clone, Copy, Debug, PartialEq, Eq)]
pub enum HeaderItem {
    /// A type's name.
    TypeName(HeaderType),
    /// A constant of type `int`.
    Constant(i32),
    /// A null pointer constant of this type.
    NullPointer(HeaderType),
    Library(LibCall),
    Mpi(MpiCall),
}

/// A name of a header, and what it stands for.
#[derive(Clone, Copy, Debug)]
pub struct HeaderName {
    pub name: &'static [u8],
    pub item: HeaderItem,
}

/// What the header declares by this name.
pub fn header_item(header: Header, name: &[u8]) -> Option<HeaderItem>
    ensures { result ≡ item_in (items_of header) name.now }
{
    match header {
        Header::Mpi => named(&MPI, name),
        Header::Stdio => named(&STDIO, name),
        Header::Stdlib => named(&STDLIB, name),
        Header::Strings => named(&STRINGS, name),
    }
}

fn named(table: &[HeaderName], name: &[u8]) -> Option<HeaderItem>
    ensures { result ≡ item_in (rows_of table.now) name.now }
{
    for row in table {
        if row.name == name {
            return Some(row.item);
        }
    }
    None
}

const STDIO: [HeaderName; 5] = [
    HeaderName {
        name: b"size_t",
        item: HeaderItem::TypeName(HeaderType::UnsignedLong),
    },
    HeaderName {
        name: b"NULL",
        item: HeaderItem::NullPointer(HeaderType::VoidPointer),
    },
    HeaderName {
        name: b"printf",
        item: HeaderItem::Library(LibCall::Printf),
    },
    HeaderName {
        name: b"puts",
        item: HeaderItem::Library(LibCall::Puts),
    },
    HeaderName {
        name: b"putchar",
        item: HeaderItem::Library(LibCall::Putchar),
    },
];

const STDLIB: [HeaderName; 8] = [
    HeaderName {
        name: b"size_t",
        item: HeaderItem::TypeName(HeaderType::UnsignedLong),
    },
    HeaderName {
        name: b"NULL",
        item: HeaderItem::NullPointer(HeaderType::VoidPointer),
    },
    HeaderName {
        name: b"malloc",
        item: HeaderItem::Library(LibCall::Malloc),
    },
    HeaderName {
        name: b"calloc",
        item: HeaderItem::Library(LibCall::Calloc),
    },
    HeaderName {
        name: b"free",
        item: HeaderItem::Library(LibCall::Free),
    },
    HeaderName {
        name: b"atoi",
        item: HeaderItem::Library(LibCall::Atoi),
    },
    HeaderName {
        name: b"abs",
        item: HeaderItem::Library(LibCall::Abs),
    },
    HeaderName {
        name: b"exit",
        item: HeaderItem::Library(LibCall::Exit),
    },
];

const STRINGS: [HeaderName; 8] = [
    HeaderName {
        name: b"size_t",
        item: HeaderItem::TypeName(HeaderType::UnsignedLong),
    },
    HeaderName {
        name: b"NULL",
        item: HeaderItem::NullPointer(HeaderType::VoidPointer),
    },
    HeaderName {
        name: b"memcpy",
        item: HeaderItem::Library(LibCall::Memcpy),
    },
    HeaderName {
        name: b"memset",
        item: HeaderItem::Library(LibCall::Memset),
    },
    HeaderName {
        name: b"memcmp",
        item: HeaderItem::Library(LibCall::Memcmp),
    },
    HeaderName {
        name: b"strlen",
        item: HeaderItem::Library(LibCall::Strlen),
    },
    HeaderName {
        name: b"strcmp",
        item: HeaderItem::Library(LibCall::Strcmp),
    },
    HeaderName {
        name: b"strcpy",
        item: HeaderItem::Library(LibCall::Strcpy),
    },
];

const MPI: [HeaderName; 67] = [
    HeaderName {
        name: b"MPI_Comm",
        item: HeaderItem::TypeName(HeaderType::Int),
    },
    HeaderName {
        name: b"MPI_Datatype",
        item: HeaderItem::TypeName(HeaderType::Int),
    },
    HeaderName {
        name: b"MPI_Op",
        item: HeaderItem::TypeName(HeaderType::Int),
    },
    HeaderName {
        name: b"MPI_Request",
        item: HeaderItem::TypeName(HeaderType::Int),
    },
    HeaderName {
        name: b"MPI_Info",
        item: HeaderItem::TypeName(HeaderType::Int),
    },
    HeaderName {
        name: b"MPI_Status",
        item: HeaderItem::TypeName(HeaderType::Status),
    },
    HeaderName {
        name: b"MPI_SUCCESS",
        item: HeaderItem::Constant(0),
    },
    HeaderName {
        name: b"MPI_COMM_NULL",
        item: HeaderItem::Constant(0),
    },
    HeaderName {
        name: b"MPI_COMM_WORLD",
        item: HeaderItem::Constant(1),
    },
    HeaderName {
        name: b"MPI_REQUEST_NULL",
        item: HeaderItem::Constant(0),
    },
    HeaderName {
        name: b"MPI_ANY_SOURCE",
        item: HeaderItem::Constant(-1),
    },
    HeaderName {
        name: b"MPI_ANY_TAG",
        item: HeaderItem::Constant(-1),
    },
    HeaderName {
        name: b"MPI_PROC_NULL",
        item: HeaderItem::Constant(-2),
    },
    HeaderName {
        name: b"MPI_UNDEFINED",
        item: HeaderItem::Constant(-32766),
    },
    HeaderName {
        name: b"AMPI_INFO_LB_SYNC",
        item: HeaderItem::Constant(1),
    },
    HeaderName {
        name: b"MPI_CHAR",
        item: HeaderItem::Constant(1),
    },
    HeaderName {
        name: b"MPI_SIGNED_CHAR",
        item: HeaderItem::Constant(2),
    },
    HeaderName {
        name: b"MPI_UNSIGNED_CHAR",
        item: HeaderItem::Constant(3),
    },
    HeaderName {
        name: b"MPI_BYTE",
        item: HeaderItem::Constant(4),
    },
    HeaderName {
        name: b"MPI_SHORT",
        item: HeaderItem::Constant(5),
    },
    HeaderName {
        name: b"MPI_UNSIGNED_SHORT",
        item: HeaderItem::Constant(6),
    },
    HeaderName {
        name: b"MPI_INT",
        item: HeaderItem::Constant(7),
    },
    HeaderName {
        name: b"MPI_UNSIGNED",
        item: HeaderItem::Constant(8),
    },
    HeaderName {
        name: b"MPI_LONG",
        item: HeaderItem::Constant(9),
    },
    HeaderName {
        name: b"MPI_UNSIGNED_LONG",
        item: HeaderItem::Constant(10),
    },
    HeaderName {
        name: b"MPI_LONG_LONG",
        item: HeaderItem::Constant(11),
    },
    HeaderName {
        name: b"MPI_LONG_LONG_INT",
        item: HeaderItem::Constant(11),
    },
    HeaderName {
        name: b"MPI_UNSIGNED_LONG_LONG",
        item: HeaderItem::Constant(12),
    },
    HeaderName {
        name: b"MPI_SUM",
        item: HeaderItem::Constant(1),
    },
    HeaderName {
        name: b"MPI_PROD",
        item: HeaderItem::Constant(2),
    },
    HeaderName {
        name: b"MPI_MAX",
        item: HeaderItem::Constant(3),
    },
    HeaderName {
        name: b"MPI_MIN",
        item: HeaderItem::Constant(4),
    },
    HeaderName {
        name: b"MPI_LAND",
        item: HeaderItem::Constant(5),
    },
    HeaderName {
        name: b"MPI_LOR",
        item: HeaderItem::Constant(6),
    },
    HeaderName {
        name: b"MPI_BAND",
        item: HeaderItem::Constant(7),
    },
    HeaderName {
        name: b"MPI_BOR",
        item: HeaderItem::Constant(8),
    },
    HeaderName {
        name: b"MPI_BXOR",
        item: HeaderItem::Constant(9),
    },
    HeaderName {
        name: b"MPI_STATUS_IGNORE",
        item: HeaderItem::NullPointer(HeaderType::StatusPointer),
    },
    HeaderName {
        name: b"MPI_STATUSES_IGNORE",
        item: HeaderItem::NullPointer(HeaderType::StatusPointer),
    },
    HeaderName {
        name: b"MPI_Init",
        item: HeaderItem::Mpi(MpiCall::Init),
    },
    HeaderName {
        name: b"MPI_Initialized",
        item: HeaderItem::Mpi(MpiCall::Initialized),
    },
    HeaderName {
        name: b"MPI_Finalized",
        item: HeaderItem::Mpi(MpiCall::Finalized),
    },
    HeaderName {
        name: b"MPI_Finalize",
        item: HeaderItem::Mpi(MpiCall::Finalize),
    },
    HeaderName {
        name: b"MPI_Comm_rank",
        item: HeaderItem::Mpi(MpiCall::CommRank),
    },
    HeaderName {
        name: b"MPI_Comm_size",
        item: HeaderItem::Mpi(MpiCall::CommSize),
    },
    HeaderName {
        name: b"MPI_Comm_dup",
        item: HeaderItem::Mpi(MpiCall::CommDup),
    },
    HeaderName {
        name: b"MPI_Comm_split",
        item: HeaderItem::Mpi(MpiCall::CommSplit),
    },
    HeaderName {
        name: b"MPI_Comm_free",
        item: HeaderItem::Mpi(MpiCall::CommFree),
    },
    HeaderName {
        name: b"MPI_Abort",
        item: HeaderItem::Mpi(MpiCall::Abort),
    },
    HeaderName {
        name: b"MPI_Send",
        item: HeaderItem::Mpi(MpiCall::Send),
    },
    HeaderName {
        name: b"MPI_Recv",
        item: HeaderItem::Mpi(MpiCall::Recv),
    },
    HeaderName {
        name: b"MPI_Isend",
        item: HeaderItem::Mpi(MpiCall::Isend),
    },
    HeaderName {
        name: b"MPI_Irecv",
        item: HeaderItem::Mpi(MpiCall::Irecv),
    },
    HeaderName {
        name: b"MPI_Wait",
        item: HeaderItem::Mpi(MpiCall::Wait),
    },
    HeaderName {
        name: b"MPI_Waitall",
        item: HeaderItem::Mpi(MpiCall::Waitall),
    },
    HeaderName {
        name: b"MPI_Test",
        item: HeaderItem::Mpi(MpiCall::Test),
    },
    HeaderName {
        name: b"MPI_Get_count",
        item: HeaderItem::Mpi(MpiCall::GetCount),
    },
    HeaderName {
        name: b"MPI_Barrier",
        item: HeaderItem::Mpi(MpiCall::Barrier),
    },
    HeaderName {
        name: b"MPI_Bcast",
        item: HeaderItem::Mpi(MpiCall::Bcast),
    },
    HeaderName {
        name: b"MPI_Reduce",
        item: HeaderItem::Mpi(MpiCall::Reduce),
    },
    HeaderName {
        name: b"MPI_Allreduce",
        item: HeaderItem::Mpi(MpiCall::Allreduce),
    },
    HeaderName {
        name: b"MPI_Scan",
        item: HeaderItem::Mpi(MpiCall::Scan),
    },
    HeaderName {
        name: b"MPI_Gather",
        item: HeaderItem::Mpi(MpiCall::Gather),
    },
    HeaderName {
        name: b"MPI_Scatter",
        item: HeaderItem::Mpi(MpiCall::Scatter),
    },
    HeaderName {
        name: b"MPI_Allgather",
        item: HeaderItem::Mpi(MpiCall::Allgather),
    },
    HeaderName {
        name: b"MPI_Alltoall",
        item: HeaderItem::Mpi(MpiCall::Alltoall),
    },
    HeaderName {
        name: b"AMPI_Migrate",
        item: HeaderItem::Mpi(MpiCall::Migrate),
    },
];
