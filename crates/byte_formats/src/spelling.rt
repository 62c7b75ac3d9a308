//! Formats with their readers and their writers.

ghost use Rattle.std.specs.Prelude.{◌≡◌, ◌++◌, true, Some, None, length, IfOk, OnOk, IsErrOf};
ghost use Rattle.std.specs.List.{list_all};
ghost use Rattle.byte_formats.specs.declared.cursor.Unspelled.TheVariants.{Bad};
ghost use Rattle.byte_formats.specs.Formats.{Format, optional, many};
ghost use Rattle.byte_formats.specs.Lawful.{IsFormat, Spells};

use crate::{Cursor, Unspelled, put_u8, take_u8};
use am_base::Bytes;
use std::alloc::{AllocError, Global};

/// A format with its reader and its writer. It stands for no value: a type without fields is enough, so that a crate can
/// spell values of other crates.
pub trait Spelling {
    type Value: Drop;

    ghost format: { Format Self.Value };

    /// Takes a value from the front.
    ///
    /// # Errors
    ///
    /// `Bad` just where none stands in front, else want of memory.
    fn take(alloc: Global, cursor: &mut Cursor<'_>) -> Result<Self::Value, Unspelled>
        ensures ok { IfOk result (λ x. format.read cursor.old.rest.now ≡ Some (x, cursor.new.rest.now)) }
        ensures bad { IsErrOf result Bad → format.read cursor.old.rest.now ≡ None };

    /// Appends the value's spelling. After an error `out` is only to be dropped.
    ///
    /// # Errors
    ///
    /// Only want of memory.
    fn put(out: &mut Bytes, value: &Self::Value) -> Result<(), AllocError>
        requires { format.fits value.now ≡ true }
        ensures { OnOk result (out.new ≡ out.old ++ format.spell value.now) };

    ghost is_format: { IsFormat format };
}

/// Takes an optional value: a byte 0, or a byte 1 and the value.
///
/// # Errors
///
/// `Bad` just where none stands in front, else want of memory.
pub fn take_option<S: Spelling>(
    alloc: Global,
    cursor: &mut Cursor<'_>,
) -> Result<Option<S::Value>, Unspelled>
    ensures ok { IfOk result (λ x. (optional S.format).read cursor.old.rest.now ≡ Some (x, cursor.new.rest.now)) }
    ensures bad { IsErrOf result Bad → (optional S.format).read cursor.old.rest.now ≡ None }
{
    let tag = take_u8(cursor)?;
    if tag == 0 {
        return Ok(None);
    }
    if tag != 1 {
        return Err(Unspelled::Bad);
    }
    let value = S::take(alloc, cursor)?;
    Ok(Some(value))
}

/// Takes so many values, one behind another.
///
/// # Errors
///
/// `Bad` just where so many don't stand in front, else want of memory.
pub fn take_many<S: Spelling>(
    alloc: Global,
    cursor: &mut Cursor<'_>,
    count: usize,
) -> Result<Vec<S::Value>, Unspelled>
    ensures ok { IfOk result (λ x. (many S.format count).read cursor.old.rest.now ≡ Some (x.items, cursor.new.rest.now)) }
    ensures bad { IsErrOf result Bad → (many S.format count).read cursor.old.rest.now ≡ None }
{
    let mut items = Vec::new(alloc);
    for i in 0..count {
        match S::take(alloc, cursor) {
            Ok(item) => items.push(item)?,
            Err(error) => {
                drop(items);
                return Err(error);
            }
        }
    }
    Ok(items)
}

/// Appends an optional value: a byte 0, or a byte 1 and the value. After an error `out` is only to be dropped.
///
/// # Errors
///
/// Only want of memory.
#[tactic(auto, unfolding(crate::specs::Formats::number8))]
pub fn put_option<S: Spelling>(out: &mut Bytes, value: &Option<S::Value>) -> Result<(), AllocError>
    requires { (optional S.format).fits value.now ≡ true }
    ensures { OnOk result (out.new ≡ out.old ++ (optional S.format).spell value.now) }
{
    match value {
        None => put_u8(out, 0),
        Some(value) => {
            put_u8(out, 1)?;
            S::put(out, value)
        }
    }
}

/// Appends values, one behind another. After an error `out` is only to be dropped.
///
/// # Errors
///
/// Only want of memory.
pub fn put_many<S: Spelling>(out: &mut Bytes, items: &[S::Value]) -> Result<(), AllocError>
    requires { list_all S.format.fits items.now ≡ true }
    ensures { OnOk result (out.new ≡ out.old ++ (many S.format (length items.now)).spell items.now) }
{
    for item in items {
        S::put(out, item)?;
    }
    Ok(())
}

/// The value that the bytes spell, all of them.
///
/// # Errors
///
/// `Bad` just where they spell none, else want of memory.
pub fn unspell<S: Spelling>(alloc: Global, bytes: &[u8]) -> Result<S::Value, Unspelled>
    ensures spelled { IfOk result (λ x. Spells S.format bytes.now x) }
    ensures none { IsErrOf result Bad → (x : S.Value) → Spells S.format bytes.now x → ⊥ }
{
    let mut cursor = Cursor { rest: bytes };
    let value = match S::take(alloc, &mut cursor) {
        Ok(value) => value,
        Err(error) => return Err(error),
    };
    if cursor.rest.is_empty() {
        return Ok(value);
    }
    drop(value);
    Err(Unspelled::Bad)
}

/// The bytes that spell the value.
///
/// # Errors
///
/// Only want of memory.
pub fn spell<S: Spelling>(alloc: Global, value: &S::Value) -> Result<Bytes, AllocError>
    requires { S.format.fits value.now ≡ true }
    ensures { IfOk result (λ bytes. Spells S.format bytes value.now) }
{
    let mut out = Bytes::new(alloc);
    S::put(&mut out, value)?;
    Ok(out)
}
