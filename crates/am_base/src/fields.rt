//! Fields of whole numbers in bytes, the lowest byte first.

ghost use Rattle.std.specs.Prelude.{◌≡◌, ◌↔◌, ◌+◌, ◌≤◌, ◌<◌, ◌^◌, ◌++◌, List, ℕ, length, slice_range, IsSome, IfSome, OnOk, OnErr};
ghost use Rattle.std.specs.Int.{w16, w32, w64, to_le_bytes, from_le_bytes};
ghost use Rattle.am_base.specs.Fields.{Takes, AreTakenBack};

use crate::Bytes;
use byteorder::{ByteOrder, LittleEndian};
use std::alloc::AllocError;

/// Appends the two bytes of `v`, the lowest first.
pub fn put_u16(out: &mut Bytes, v: u16) -> Result<(), AllocError>
    ensures ok { OnOk result (out.new ≡ out.old ++ to_le_bytes w16 v) }
    ensures err { OnErr result (out.new ≡ out.old) }
{
    let mut field = [0u8; 2];
    LittleEndian::write_u16(&mut field, v);
    out.append(&field)
}

/// Appends the four bytes of `v`, the lowest first.
pub fn put_u32(out: &mut Bytes, v: u32) -> Result<(), AllocError>
    ensures ok { OnOk result (out.new ≡ out.old ++ to_le_bytes w32 v) }
    ensures err { OnErr result (out.new ≡ out.old) }
{
    let mut field = [0u8; 4];
    LittleEndian::write_u32(&mut field, v);
    out.append(&field)
}

/// Appends the eight bytes of `v`, the lowest first.
pub fn put_u64(out: &mut Bytes, v: u64) -> Result<(), AllocError>
    ensures ok { OnOk result (out.new ≡ out.old ++ to_le_bytes w64 v) }
    ensures err { OnErr result (out.new ≡ out.old) }
{
    let mut field = [0u8; 8];
    LittleEndian::write_u64(&mut field, v);
    out.append(&field)
}

/// The number in the two bytes from `at` on, and the place behind them.
pub fn take_u16(b: &[u8], at: usize) -> Option<(u16, usize)>
    ensures enough { IsSome result ↔ (at + 2 ≤ length b.now) }
    ensures value { IfSome result (Takes w16 b.now at) }
{
    let field = field_at(b, at, 2)?;
    Some((LittleEndian::read_u16(field), at + 2))
}

/// The number in the four bytes from `at` on, and the place behind them.
pub fn take_u32(b: &[u8], at: usize) -> Option<(u32, usize)>
    ensures enough { IsSome result ↔ (at + 4 ≤ length b.now) }
    ensures value { IfSome result (Takes w32 b.now at) }
{
    let field = field_at(b, at, 4)?;
    Some((LittleEndian::read_u32(field), at + 4))
}

/// The number in the eight bytes from `at` on, and the place behind them.
pub fn take_u64(b: &[u8], at: usize) -> Option<(u64, usize)>
    ensures enough { IsSome result ↔ (at + 8 ≤ length b.now) }
    ensures value { IfSome result (Takes w64 b.now at) }
{
    let field = field_at(b, at, 8)?;
    Some((LittleEndian::read_u64(field), at + 8))
}

/// A law: what is taken where a number was put is that number, whatever stands around it.
pub fn puts_are_taken_back()
    ensures u16 { AreTakenBack w16 (2 ^ 16) }
    ensures u32 { AreTakenBack w32 (2 ^ 32) }
    ensures u64 { AreTakenBack w64 (2 ^ 64) }
{}

/// The `width` bytes from `at` on, where there are that many.
fn field_at(b: &[u8], at: usize, width: usize) -> Option<&[u8]>
    ensures enough { IsSome result ↔ (at + width ≤ length b.now) }
    ensures value { IfSome result (λ field. field.now ≡ slice_range b.now at (at + width)) }
    ensures long { IfSome result (λ field. length field.now ≡ width) }
{
    let rest = b.get(at..)?;
    rest.get(..width)
}
