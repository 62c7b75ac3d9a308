//! The bytes with which static objects begin.

ghost use Rattle.std.specs.Prelude.{◌≡◌, ◌<◌, OnOk};
ghost use Rattle.std.specs.List.{AllByRecursion};
ghost use Rattle.rank_range.specs.Numbers.{bytes_in};
ghost use Rattle.c_types.specs.Sizes.{size_limit};
ghost use Rattle.c_const.specs.Initials.{IsWithin, Puts, Tells, initial_of, is_of_pointers, put_number, so_far, with_store, with_value, with_fix};

use crate::{ConstError, Static, static_value};
use am_base::Bytes;
use c_types::{Fix, Initial, Store, Stored};
use rank_range::{Kind, Width, write_number};
use sqlite_items::Items;
use std::alloc::{AllocError, Global};

/// The bytes and fixes of a static object by the stores of its initialiser, in the order of their tokens (C11, 6.7.9). The
/// first one whose value is no constant is told by its first token.
pub fn initial(alloc: Global, stores: &[Store]) -> Result<Initial, ConstError>
    requires { AllByRecursion IsWithin stores.now }
    ensures { Tells result (initial_of stores.now) }
{
    let mut bytes = Vec::new(alloc);
    let mut fixes = Items::new(alloc);
    for store in stores {
        put_store(&mut bytes, &mut fixes, store)?;
    }
    Ok(Initial {
        bytes: Bytes::from_vec(bytes),
        fixes,
    })
}

fn put_store(bytes: &mut Vec<u8>, fixes: &mut Items<Fix>, store: &Store) -> Result<(), ConstError>
    requires { IsWithin store.now }
    ensures { Puts result store.now.value.token (with_store (so_far bytes.old.items fixes.old) store.now) (so_far bytes.new.items fixes.new) }
{
    let token = store.value.token;
    match store.stored {
        Stored::Number(kind) => {
            let value = static_value(&store.value.expr);
            put_value(bytes, fixes, store.offset, kind, value, token)
        }
        Stored::Structure { size: _ } => Err(ConstError::NotConstant { token }),
    }
}

fn put_value(
    bytes: &mut Vec<u8>,
    fixes: &mut Items<Fix>,
    at: u64,
    kind: Kind,
    value: Option<Static>,
    token: u32,
) -> Result<(), ConstError>
    requires { at < size_limit }
    ensures { Puts result token (with_value (so_far bytes.old.items fixes.old) at kind value) (so_far bytes.new.items fixes.new) }
{
    match value {
        Some(Static::Number(Some(word))) => {
            put_number(bytes, at, kind.width(), word)?;
            Ok(())
        }
        Some(
            Static::Address {
                object,
                addend: Some(addend),
            },
        ) => {
            if !is_of_pointers(kind) {
                return Err(ConstError::NotConstant { token });
            }
            put_fix(bytes, fixes, at, object, addend)?;
            Ok(())
        }
        Some(Static::Number(None)) | Some(Static::Address { addend: None, .. }) | None => {
            Err(ConstError::NotConstant { token })
        }
    }
}

fn is_of_pointers(kind: Kind) -> bool
    ensures { result ≡ is_of_pointers kind }
{
    match kind {
        Kind::UnsignedLong => true,
        Kind::Char
        | Kind::UnsignedChar
        | Kind::Short
        | Kind::UnsignedShort
        | Kind::Int
        | Kind::Unsigned
        | Kind::Long => false,
    }
}

fn put_fix(
    bytes: &mut Vec<u8>,
    fixes: &mut Items<Fix>,
    at: u64,
    object: u32,
    addend: u64,
) -> Result<(), AllocError>
    requires { at < size_limit }
    ensures { OnOk result (so_far bytes.new.items fixes.new ≡ with_fix (so_far bytes.old.items fixes.old) at object addend) }
{
    put_number(bytes, at, Width::Eight, 0)?;
    fixes.push(Fix {
        offset: at,
        object,
        addend,
    })
}

/// Puts the lowest bytes of a word at an offset; what isn't there yet before it is zero.
fn put_number(bytes: &mut Vec<u8>, at: u64, width: Width, word: u64) -> Result<(), AllocError>
    requires { at < size_limit }
    ensures { OnOk result (bytes.new.items ≡ put_number bytes.old.items at (bytes_in width) word) }
{
    let at = at as usize;
    let end = at + width.bytes();
    if bytes.len() < end {
        bytes.resize(end, 0)?;
    }
    write_number(bytes.as_mut_slice(), at, width, word);
    Ok(())
}
