//! The names in scope.

use crate::{CType, FunctionType, Scope, StructType};
use am_base::{LibCall, MpiCall};
use rank_range::Kind;
use sqlite_items::Items;

/// The names in scope (C11, 6.2.1), with their types, constant values and objects; tags are a name space of their own
/// (C11, 6.2.3). Structures outlive the scopes of their tags.
#[derive(Debug, Drop)]
pub struct Names {
    pub ordinary: Scope<Named>,
    pub tags: Scope<Tagged>,
    /// By number.
    pub structs: Items<StructType>,
}

/// What an ordinary name names.
#[derive(Debug, Drop)]
pub enum Named {
    /// A type by a typedef.
    Type(CType),
    /// A type of functions by a typedef.
    FunctionType(FunctionType),
    /// An enumerator or a constant of a header.
    Constant { kind: Kind, value: u64 },
    /// A null pointer of a header: `NULL`, `MPI_STATUS_IGNORE` and `MPI_STATUSES_IGNORE`.
    NullPointer(CType),
    /// A local, by its offset in the frame.
    Local { offset: u64, of: CType },
    /// A static object, by its number.
    Object { number: u32, of: CType },
    /// A function of the program, by its number.
    Function { number: u32, of: FunctionType },
    Library { call: LibCall, of: FunctionType },
    Mpi { call: MpiCall, of: FunctionType },
}

/// What a tag names: a structure, by its number, or an enumeration.
#[derive(Clone, Copy, Debug, PartialEq, Eq)]
pub enum Tagged {
    Struct(u32),
    Enum,
}
