//! What the headers declare, as names in scope.

ghost use Rattle.std.specs.Prelude.{◌≡◌, IfOk};
ghost use Rattle.c_judge.specs.Headers as headers;
ghost use Rattle.c_judge.specs.Headers.{header_type, header_types, item_named};

use am_base::{Header, HeaderItem, HeaderType, header_item};
use c_types::{Base, CType, FunctionType, Named, Part};
use rank_range::Kind;
use sqlite_items::Items;
use std::alloc::{AllocError, Global};

/// The first token of a unit at which each header is known.
#[derive(Clone, Copy)]
pub struct KnownHeaders {
    pub mpi: Option<u32>,
    pub stdio: Option<u32>,
    pub stdlib: Option<u32>,
    pub strings: Option<u32>,
}

/// The number of the structure that is `MPI_Status`.
pub const STATUS: u32 = 0;

/// What the headers that are known at a token declare by a name.
pub fn item_at(known: KnownHeaders, token: u32, name: &[u8]) -> Option<HeaderItem>
    ensures { result ≡ headers.item_at known token name.now }
{
    if let Some(item) = item_from(known.mpi, Header::Mpi, token, name) {
        return Some(item);
    }
    if let Some(item) = item_from(known.stdio, Header::Stdio, token, name) {
        return Some(item);
    }
    if let Some(item) = item_from(known.stdlib, Header::Stdlib, token, name) {
        return Some(item);
    }
    item_from(known.strings, Header::Strings, token, name)
}

fn item_from(from: Option<u32>, header: Header, token: u32, name: &[u8]) -> Option<HeaderItem>
    ensures { result ≡ headers.item_from from header token name.now }
{
    match from {
        Some(first) => {
            if first <= token {
                header_item(header, name)
            } else {
                None
            }
        }
        None => None,
    }
}

/// What a name of a header means.
pub fn item_named(alloc: Global, item: HeaderItem) -> Result<Named, AllocError>
    ensures { IfOk result (λ n. n ≡ item_named item) }
{
    match item {
        HeaderItem::TypeName(of) => Ok(Named::Type(header_type(alloc, of)?)),
        HeaderItem::Constant(value) => Ok(Named::Constant {
            kind: Kind::Int,
            value: value.cast_unsigned() as u64,
        }),
        HeaderItem::NullPointer(of) => Ok(Named::NullPointer(header_type(alloc, of)?)),
        HeaderItem::Library(call) => Ok(Named::Library {
            call,
            of: header_function(alloc, call.result(), call.parameters())?,
        }),
        HeaderItem::Mpi(call) => Ok(Named::Mpi {
            call,
            of: header_function(alloc, HeaderType::Int, call.parameters())?,
        }),
    }
}

fn header_function(
    alloc: Global,
    gives: HeaderType,
    takes: &[HeaderType],
) -> Result<FunctionType, AllocError>
    ensures { IfOk result (λ f. f ≡ headers.header_function gives takes.now) }
{
    let parameters = header_types(alloc, takes)?;
    match header_type(alloc, gives) {
        Ok(result) => Ok(FunctionType { result, parameters }),
        Err(error) => {
            drop(parameters);
            Err(error)
        }
    }
}

fn header_types(alloc: Global, types: &[HeaderType]) -> Result<Items<CType>, AllocError>
    ensures { IfOk result (λ ts. ts ≡ header_types types.now) }
{
    let mut made = Items::new(alloc);
    for of in types {
        match header_type(alloc, *of) {
            Ok(of) => made.push(of)?,
            Err(error) => {
                drop(made);
                return Err(error);
            }
        }
    }
    Ok(made)
}

/// A type of a header's declaration.
pub fn header_type(alloc: Global, of: HeaderType) -> Result<CType, AllocError>
    ensures { IfOk result (λ t. t ≡ header_type of) }
{
    match of {
        HeaderType::Void => pointers(alloc, Base::Void, false, 0),
        HeaderType::Int => pointers(alloc, Base::Whole(Kind::Int), false, 0),
        HeaderType::UnsignedLong => pointers(alloc, Base::Whole(Kind::UnsignedLong), false, 0),
        HeaderType::VoidPointer => pointers(alloc, Base::Void, false, 1),
        HeaderType::ConstVoidPointer => pointers(alloc, Base::Void, true, 1),
        HeaderType::CharPointer => pointers(alloc, Base::Whole(Kind::Char), false, 1),
        HeaderType::ConstCharPointer => pointers(alloc, Base::Whole(Kind::Char), true, 1),
        HeaderType::IntPointer => pointers(alloc, Base::Whole(Kind::Int), false, 1),
        HeaderType::ArgumentsPointer => pointers(alloc, Base::Whole(Kind::Char), false, 3),
        HeaderType::Status => pointers(alloc, Base::Struct(STATUS), false, 0),
        HeaderType::StatusPointer => pointers(alloc, Base::Struct(STATUS), false, 1),
        HeaderType::ConstStatusPointer => pointers(alloc, Base::Struct(STATUS), true, 1),
    }
}

/// So many pointers to what the type is made from.
fn pointers(alloc: Global, base: Base, is_const: bool, count: u8) -> Result<CType, AllocError>
    ensures { IfOk result (λ t. t ≡ headers.pointers base is_const count) }
{
    let mut parts = Items::new(alloc);
    for _ in 0..count {
        parts.push(Part::Pointer { is_const: false })?;
    }
    Ok(CType {
        base,
        is_const,
        parts,
    })
}
