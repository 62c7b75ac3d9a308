//! The offset of each object in the segment.

ghost use Rattle.std.specs.Prelude.{◌≡◌, ◌+◌, ◌<◌, ◌^◌, ℕ, length, max, slice_index, IfOk, OnOk, if◌then◌else◌, ◌==◌};
ghost use Rattle.c_types.specs.Segment.{before_objects, object_offsets, IsAccepted};

use c_types::{Program, Rooms};
use rank_range::{GLOBALS_START, HEAP_START, Width};
use std::alloc::{AllocError, Global};

/// How many bytes the globals of a rank have room for.
pub const SEGMENT_LIMIT: u64 = (HEAP_START - GLOBALS_START) as u64;

/// How many bytes the arguments of `main` take at the start of the segment.
pub const ARGUMENTS_BYTES: u64 = 32;

/// The rooms of the segment before its first object: those of the arguments.
pub fn before_objects() -> Rooms
    ensures { result ≡ before_objects }
{
    Rooms {
        end: ARGUMENTS_BYTES,
        align: Width::One,
    }
}

/// The offset of each object by its number, and 0 where no unit defines it.
pub fn offsets_of(alloc: Global, program: &Program) -> Result<Vec<u32>, AllocError>
    requires { IsAccepted program.now }
    ensures { IfOk result (λ offsets. offsets.items ≡ object_offsets program.now.objects) }
{
    let mut offsets = Vec::new(alloc);
    let mut rooms = before_objects();
    for object in program.objects.as_slice() {
        let offset = rooms.take(object.size, object.align);
        put(&mut offsets, object.object as usize, offset as u32)?;
    }
    Ok(offsets)
}

fn put(offsets: &mut Vec<u32>, number: usize, offset: u32) -> Result<(), AllocError>
    requires { number < 2 ^ 32 }
    ensures length { OnOk result (length offsets.new.items ≡ max (length offsets.old.items) (number + 1)) }
    ensures each { OnOk result ((n : ℕ) → slice_index offsets.new.items n ≡ (if number == n then offset else slice_index offsets.old.items n)) }
{
    let count = offsets.len().max(number + 1);
    offsets.resize(count, 0)?;
    offsets[number] = offset;
    Ok(())
}

/// The offset of the object with this number.
pub fn offset_in(offsets: &[u32], number: u32) -> u32
    ensures { result ≡ slice_index offsets.now number }
{
    let number = number as usize;
    if number < offsets.len() {
        offsets[number]
    } else {
        0
    }
}
