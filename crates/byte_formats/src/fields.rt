//! Numbers of one, two, four and eight bytes.

ghost use Rattle.std.specs.Prelude.{◌≡◌, [], ◌∷◌, ◌++◌, true, Some, None, IfOk, OnOk, IsErrOf};
ghost use Rattle.byte_formats.specs.declared.cursor.Unspelled.TheVariants.{Bad, Memory};
ghost use Rattle.byte_formats.specs.Formats.{number8, number16, number32, number64, signed32, block, text};

use crate::{Cursor, Unspelled};
use am_base::Bytes;
use std::alloc::{AllocError, Global};

/// Takes a number of one byte. It takes no memory, as the next four calls.
///
/// # Errors
///
/// `Bad` just where no such number stands in front.
#[tactic(auto, unfolding(crate::specs::Formats::number8))]
pub fn take_u8(cursor: &mut Cursor<'_>) -> Result<u8, Unspelled>
    ensures ok { IfOk result (λ x. number8.read cursor.old.rest.now ≡ Some (x, cursor.new.rest.now)) }
    ensures bad { IsErrOf result Bad → number8.read cursor.old.rest.now ≡ None }
    ensures sure { IsErrOf result Memory → ⊥ }
{
    let Some((field, rest)) = cursor.rest.split_first_chunk::<1>() else {
        return Err(Unspelled::Bad);
    };
    cursor.rest = rest;
    Ok(field[0])
}

/// Takes a number of two bytes, the lowest first.
#[tactic(auto, unfolding(crate::specs::Formats::number16))]
pub fn take_u16(cursor: &mut Cursor<'_>) -> Result<u16, Unspelled>
    ensures ok { IfOk result (λ x. number16.read cursor.old.rest.now ≡ Some (x, cursor.new.rest.now)) }
    ensures bad { IsErrOf result Bad → number16.read cursor.old.rest.now ≡ None }
    ensures sure { IsErrOf result Memory → ⊥ }
{
    let Some((field, rest)) = cursor.rest.split_first_chunk::<2>() else {
        return Err(Unspelled::Bad);
    };
    cursor.rest = rest;
    Ok(u16::from_le_bytes(*field))
}

/// Takes a number of four bytes, the lowest first.
#[tactic(auto, unfolding(crate::specs::Formats::number32))]
pub fn take_u32(cursor: &mut Cursor<'_>) -> Result<u32, Unspelled>
    ensures ok { IfOk result (λ x. number32.read cursor.old.rest.now ≡ Some (x, cursor.new.rest.now)) }
    ensures bad { IsErrOf result Bad → number32.read cursor.old.rest.now ≡ None }
    ensures sure { IsErrOf result Memory → ⊥ }
{
    let Some((field, rest)) = cursor.rest.split_first_chunk::<4>() else {
        return Err(Unspelled::Bad);
    };
    cursor.rest = rest;
    Ok(u32::from_le_bytes(*field))
}

/// Takes a number of eight bytes, the lowest first.
#[tactic(auto, unfolding(crate::specs::Formats::number64))]
pub fn take_u64(cursor: &mut Cursor<'_>) -> Result<u64, Unspelled>
    ensures ok { IfOk result (λ x. number64.read cursor.old.rest.now ≡ Some (x, cursor.new.rest.now)) }
    ensures bad { IsErrOf result Bad → number64.read cursor.old.rest.now ≡ None }
    ensures sure { IsErrOf result Memory → ⊥ }
{
    let Some((field, rest)) = cursor.rest.split_first_chunk::<8>() else {
        return Err(Unspelled::Bad);
    };
    cursor.rest = rest;
    Ok(u64::from_le_bytes(*field))
}

/// Takes a signed number of four bytes, the lowest first, in two's complement.
#[tactic(auto, unfolding(crate::specs::Formats::signed32))]
pub fn take_i32(cursor: &mut Cursor<'_>) -> Result<i32, Unspelled>
    ensures ok { IfOk result (λ x. signed32.read cursor.old.rest.now ≡ Some (x, cursor.new.rest.now)) }
    ensures bad { IsErrOf result Bad → signed32.read cursor.old.rest.now ≡ None }
    ensures sure { IsErrOf result Memory → ⊥ }
{
    let bits = take_u32(cursor)?;
    Ok(bits.cast_signed())
}

/// Takes so many bytes, and lends them. It takes no memory.
///
/// # Errors
///
/// `Bad` just where fewer are left.
#[tactic(auto, unfolding(crate::specs::Formats::read_block))]
pub fn take_block<'a>(cursor: &mut Cursor<'a>, size: usize) -> Result<&'a [u8], Unspelled>
    ensures ok { IfOk result (λ bytes. (block size).read cursor.old.rest.now ≡ Some (bytes.now, cursor.new.rest.now)) }
    ensures bad { IsErrOf result Bad → (block size).read cursor.old.rest.now ≡ None }
    ensures sure { IsErrOf result Memory → ⊥ }
{
    let bytes = cursor.rest;
    if bytes.len() < size {
        return Err(Unspelled::Bad);
    }
    let (front, rest) = bytes.split_at(size);
    cursor.rest = rest;
    Ok(front)
}

/// Takes a length of four bytes and so many bytes, and copies them.
///
/// # Errors
///
/// `Bad` just where no text stands in front, else want of memory.
pub fn take_text(alloc: Global, cursor: &mut Cursor<'_>) -> Result<Bytes, Unspelled>
    ensures ok { IfOk result (λ x. text.read cursor.old.rest.now ≡ Some (x, cursor.new.rest.now)) }
    ensures bad { IsErrOf result Bad → text.read cursor.old.rest.now ≡ None }
{
    let size = take_u32(cursor)?;
    let bytes = take_block(cursor, size as usize)?;
    Ok(Bytes::from_slice(alloc, bytes)?)
}

/// Appends a number of one byte. After an error `out` is only to be dropped, as in the other calls that append.
///
/// # Errors
///
/// Only want of memory.
#[tactic(auto, unfolding(crate::specs::Formats::number8))]
pub fn put_u8(out: &mut Bytes, x: u8) -> Result<(), AllocError>
    ensures ok { OnOk result (out.new ≡ out.old ++ number8.spell x) }
    ensures byte { OnOk result (out.new ≡ out.old ++ x ∷ []) }
{
    out.push(x)
}

/// Appends a number of two bytes, the lowest first.
#[tactic(auto, unfolding(crate::specs::Formats::number16))]
pub fn put_u16(out: &mut Bytes, x: u16) -> Result<(), AllocError>
    ensures { OnOk result (out.new ≡ out.old ++ number16.spell x) }
{
    am_base::put_u16(out, x)
}

/// Appends a number of four bytes, the lowest first.
#[tactic(auto, unfolding(crate::specs::Formats::number32))]
pub fn put_u32(out: &mut Bytes, x: u32) -> Result<(), AllocError>
    ensures { OnOk result (out.new ≡ out.old ++ number32.spell x) }
{
    am_base::put_u32(out, x)
}

/// Appends a number of eight bytes, the lowest first.
#[tactic(auto, unfolding(crate::specs::Formats::number64))]
pub fn put_u64(out: &mut Bytes, x: u64) -> Result<(), AllocError>
    ensures { OnOk result (out.new ≡ out.old ++ number64.spell x) }
{
    am_base::put_u64(out, x)
}

/// Appends a signed number of four bytes, the lowest first, in two's complement.
#[tactic(auto, unfolding(crate::specs::Formats::signed32))]
pub fn put_i32(out: &mut Bytes, x: i32) -> Result<(), AllocError>
    ensures { OnOk result (out.new ≡ out.old ++ signed32.spell x) }
{
    put_u32(out, x.cast_unsigned())
}

/// Appends the length of a list in a field of one byte. It asks that the length fits, as the next two calls.
pub fn put_count8(out: &mut Bytes, count: usize) -> Result<(), AllocError>
    requires { number8.fits count ≡ true }
    ensures { OnOk result (out.new ≡ out.old ++ number8.spell count) }
{
    put_u8(out, count as u8)
}

/// Appends the length of a list in a field of two bytes.
pub fn put_count16(out: &mut Bytes, count: usize) -> Result<(), AllocError>
    requires { number16.fits count ≡ true }
    ensures { OnOk result (out.new ≡ out.old ++ number16.spell count) }
{
    put_u16(out, count as u16)
}

/// Appends the length of a list in a field of four bytes.
pub fn put_count32(out: &mut Bytes, count: usize) -> Result<(), AllocError>
    requires { number32.fits count ≡ true }
    ensures { OnOk result (out.new ≡ out.old ++ number32.spell count) }
{
    put_u32(out, count as u32)
}

/// Appends a length of four bytes and the bytes.
pub fn put_text(out: &mut Bytes, bytes: &[u8]) -> Result<(), AllocError>
    requires { text.fits bytes.now ≡ true }
    ensures { OnOk result (out.new ≡ out.old ++ text.spell bytes.now) }
{
    put_count32(out, bytes.len())?;
    out.append(bytes)
}
