//! The segment of a program that isn't refused.

ghost use Rattle.std.specs.Prelude.{◌≡◌, IfOk};
ghost use Rattle.c_types.specs.Segment.{IsAccepted, SegmentOf, segment_bytes, segment_fixes, object_offsets};

use crate::objects::{append_fixes, append_object};
use crate::offsets::{before_objects, offsets_of};
use am_base::Bytes;
use c_types::Program;
use rank_range::{OffsetList, Segment};
use std::alloc::{AllocError, Global};

/// The arguments of `main`: the address of the program's name, a null pointer, the name with its zeros.
const ARGUMENTS: [u8; 32] = [
    16, 0x30, 3, 0, 0, 0, 0, 0, 0, 0, 0, 0, 0, 0, 0, 0, b'a', b'm', b'p', b'i', 0, 0, 0, 0, 0, 0,
    0, 0, 0, 0, 0, 0,
];

/// The segment of these objects.
pub fn laid_out(alloc: Global, program: &Program) -> Result<Segment, AllocError>
    requires { IsAccepted program.now }
    ensures { IfOk result (SegmentOf program.now) }
{
    let offsets = offsets_of(alloc, program)?;
    let bytes = bytes_of(alloc, program, offsets.as_slice())?;
    let fixes = fixes_of(alloc, program)?;
    Ok(Segment {
        bytes: Bytes::from_vec(bytes),
        fixes: OffsetList::from_vec(fixes),
        objects: OffsetList::from_vec(offsets),
    })
}

/// The bytes of the segment.
fn bytes_of(alloc: Global, program: &Program, offsets: &[u32]) -> Result<Vec<u8>, AllocError>
    requires accepted { IsAccepted program.now }
    requires offsets { offsets.now ≡ object_offsets program.now.objects }
    ensures { IfOk result (λ bytes. bytes.items ≡ segment_bytes program.now.objects) }
{
    let mut bytes = Vec::from_slice(alloc, &ARGUMENTS)?;
    let mut rooms = before_objects();
    for object in program.objects.as_slice() {
        let offset = rooms.take(object.size, object.align);
        bytes.resize(offset as usize, 0)?;
        append_object(&mut bytes, object, offsets)?;
    }
    Ok(bytes)
}

/// The offsets of the addresses in the segment.
fn fixes_of(alloc: Global, program: &Program) -> Result<Vec<u32>, AllocError>
    requires { IsAccepted program.now }
    ensures { IfOk result (λ fixes. fixes.items ≡ segment_fixes program.now.objects) }
{
    let mut fixes = Vec::from_slice(alloc, &[0])?;
    let mut rooms = before_objects();
    for object in program.objects.as_slice() {
        let offset = rooms.take(object.size, object.align);
        append_fixes(&mut fixes, object, offset as u32)?;
    }
    Ok(fixes)
}
