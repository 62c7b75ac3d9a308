//! The numbers of `mpi.h` that stand for no datatype and no operation. They are this profile's own.

/// `MPI_SUCCESS`, which every call answers.
pub const SUCCESS: i32 = 0;

/// `MPI_COMM_NULL`, which names no communicator.
pub const COMM_NULL: i32 = 0;

/// `MPI_COMM_WORLD`
pub const COMM_WORLD: i32 = 1;

/// `MPI_REQUEST_NULL`, which names no request.
pub const REQUEST_NULL: i32 = 0;

/// `MPI_ANY_SOURCE`, with which a receive accepts each sender (MPI 3.1, section 3.2.4).
pub const ANY_SOURCE: i32 = -1;

/// `MPI_ANY_TAG`, with which a receive accepts each tag (MPI 3.1, section 3.2.4).
pub const ANY_TAG: i32 = -1;

/// `MPI_PROC_NULL`, the process that isn't there (MPI 3.1, section 3.11).
pub const PROC_NULL: i32 = -2;

/// `MPI_UNDEFINED`
pub const UNDEFINED: i32 = -32766;

/// `AMPI_INFO_LB_SYNC`, the argument of `AMPI_Migrate`, which isn't read.
pub const AMPI_INFO_LB_SYNC: i32 = 1;
