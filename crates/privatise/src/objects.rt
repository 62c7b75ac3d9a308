//! The bytes and the fixes of one object.

ghost use Rattle.std.specs.Prelude.{◌≡◌, ◌+◌, ◌≤◌, ◌<◌, ◌%◌, ◌^◌, ◌++◌, length, map, OnOk};
ghost use Rattle.std.specs.List.{fold};
ghost use Rattle.rank_range.specs.Layout.{globals_start};
ghost use Rattle.c_types.specs.Segment.{filled, fixes_of, lies_within};
ghost use Rattle.privatise.specs.Addresses.{addressed, bytes_by_offsets};

use crate::offsets::offset_in;
use c_types::{Fix, StaticObject};
use rank_range::{GLOBALS_START, Width, write_number};
use std::alloc::AllocError;

/// Puts the bytes of the object behind the others.
pub fn append_object(
    bytes: &mut Vec<u8>,
    object: &StaticObject,
    offsets: &[u32],
) -> Result<(), AllocError>
    requires { length bytes.old.items + object.now.size < 2 ^ 32 }
    ensures { OnOk result (bytes.new.items ≡ bytes.old.items ++ bytes_by_offsets offsets.now object.now) }
{
    let start = bytes.len();
    fill(bytes, object)?;
    put_addresses(&mut bytes[start..], object, offsets);
    Ok(())
}

/// Puts the initial bytes of the object behind the others, without its addresses.
fn fill(bytes: &mut Vec<u8>, object: &StaticObject) -> Result<(), AllocError>
    requires { length bytes.old.items + object.now.size < 2 ^ 32 }
    ensures { OnOk result (bytes.new.items ≡ bytes.old.items ++ filled object.now) }
{
    let end = bytes.len() + object.size as usize;
    bytes.extend_from_slice(object.initial.bytes.as_slice())?;
    bytes.resize(end, 0)?;
    Ok(())
}

/// Puts the addresses of other objects into the bytes of the object.
fn put_addresses(bytes: &mut [u8], object: &StaticObject, offsets: &[u32])
    requires { length bytes.old ≡ object.now.size }
    ensures { bytes.new ≡ fold (addressed offsets.now) bytes.old (fixes_of object.now) }
{
    for fix in object.initial.fixes.as_slice() {
        if lies_within(object, fix) {
            let address = address_of(offset_in(offsets, fix.object), fix.addend);
            write_number(bytes, fix.offset as usize, Width::Eight, address);
        }
    }
}

/// Puts the offsets of those addresses in the segment behind the others.
pub fn append_fixes(
    fixes: &mut Vec<u32>,
    object: &StaticObject,
    start: u32,
) -> Result<(), AllocError>
    requires { start + object.now.size < 2 ^ 32 }
    ensures { OnOk result (fixes.new.items ≡ fixes.old.items ++ map (λ f. start + f.offset) (fixes_of object.now)) }
{
    for fix in object.initial.fixes.as_slice() {
        if lies_within(object, fix) {
            fixes.push(start + fix.offset as u32)?;
        }
    }
    Ok(())
}

/// Whether the eight bytes of the fix lie in the object.
fn lies_within(object: &StaticObject, fix: &Fix) -> bool
    ensures { result ≡ lies_within object.now fix.now }
{
    object.size >= 8 && fix.offset <= object.size - 8
}

/// The address of the byte at an offset of the segment, so many bytes on, as it is where the rank's base is 0.
fn address_of(offset: u32, addend: u64) -> u64
    ensures { result ≡ (globals_start + (offset + addend)) % 2 ^ 64 }
{
    (GLOBALS_START as u64 + offset as u64).wrapping_add(addend)
}
