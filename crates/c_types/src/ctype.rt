//! The types of C.

use am_base::Bytes;
use rank_range::{Kind, Width};
use sqlite_items::Items;

/// The type of an object (C11, 6.2.5): what it is made from, and how, from the inside outwards. So the last part of the type
/// of an array of three pointers is the array, and `int *a[3]` is made from `int`, a pointer and an array.
#[derive(Debug, Drop)]
pub struct CType {
    pub base: Base,
    /// Whether the base is `const`.
    pub is_const: bool,
    pub parts: Items<Part>,
}

/// What a type is made from.
#[derive(Clone, Copy, Debug, PartialEq, Eq)]
pub enum Base {
    Void,
    /// A whole type, or an enumeration, which is as `int`.
    Whole(Kind),
    /// A structure, by its number.
    Struct(u32),
}

/// What is made from a type.
#[derive(Clone, Copy, Debug, PartialEq, Eq)]
pub enum Part {
    Pointer { is_const: bool },
    Array(u64),
    /// An array whose size isn't known (C11, 6.2.5p22).
    OpenArray,
}

/// The type of a function (C11, 6.2.5p20).
#[derive(Debug, Drop)]
pub struct FunctionType {
    pub result: CType,
    pub parameters: Items<CType>,
}

/// A structure (C11, 6.7.2.1), by its tag, if it has one. It is complete when it has its layout.
#[derive(Debug, Drop)]
pub struct StructType {
    pub tag: Option<Bytes>,
    pub layout: Option<StructLayout>,
}

/// How the members of a structure lie, in order.
#[derive(Debug, Drop)]
pub struct StructLayout {
    pub members: Items<Member>,
    pub size: u64,
    pub align: Width,
}

/// A member of a structure, by its offset.
#[derive(Debug, Drop)]
pub struct Member {
    pub name: Bytes,
    pub of: CType,
    pub offset: u64,
}
