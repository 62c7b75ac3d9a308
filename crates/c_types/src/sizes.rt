//! Sizes and alignments.

ghost use Rattle.std.specs.Prelude.{◌≡◌};
ghost use Rattle.rank_range.specs.Numbers.{bytes_in};
ghost use Rattle.c_types.specs.Sizes.{layout_of, is_complete_base, is_complete_in, base_size, size_of, base_align, alignment_of, IsComplete, IsSmall};
ghost use Rattle.std.specs.Option.{option_copied};

use crate::{Base, CType, Part, StructLayout, StructType};
use rank_range::Width;

/// How many bytes an object of the type has.
#[tactic(auto, unfolding(crate::specs::Sizes::size_of))]
pub fn size(of: &CType, structs: &[StructType]) -> u64
    requires complete { IsComplete structs.now of.now }
    requires small { IsSmall structs.now of.now }
    ensures { result ≡ size_of structs.now of.now }
{
    let mut size = base_size(of.base, structs);
    for part in of.parts.as_slice() {
        size = match part {
            Part::Pointer { .. } => 8,
            Part::Array(count) => *count * size,
            Part::OpenArray => 0,
        };
    }
    size
}

/// What divides the address of each object of the type.
pub fn align(of: &CType, structs: &[StructType]) -> u64
    requires { IsComplete structs.now of.now }
    ensures { result ≡ bytes_in (alignment_of structs.now of.now) }
{
    alignment(of, structs).bytes() as u64
}

/// The alignment of the type: 1, 2, 4 or 8 bytes.
#[tactic(auto, unfolding(crate::specs::Sizes::alignment_of))]
pub fn alignment(of: &CType, structs: &[StructType]) -> Width
    requires { IsComplete structs.now of.now }
    ensures { result ≡ alignment_of structs.now of.now }
{
    let mut align = base_align(of.base, structs);
    for part in of.parts.as_slice() {
        align = match part {
            Part::Pointer { .. } => Width::Eight,
            Part::Array(_) | Part::OpenArray => align,
        };
    }
    align
}

/// Whether the type is complete (C11, 6.2.5p1).
pub fn is_complete(of: &CType, structs: &[StructType]) -> bool
    ensures { result ≡ is_complete_in structs.now of.now }
{
    let mut complete = is_complete_base(of.base, structs);
    for part in of.parts.as_slice() {
        complete = match part {
            Part::Pointer { .. } => true,
            Part::Array(_) => complete,
            Part::OpenArray => false,
        };
    }
    complete
}

fn is_complete_base(base: Base, structs: &[StructType]) -> bool
    ensures { result ≡ is_complete_base structs.now base }
{
    match base {
        Base::Void => false,
        Base::Whole(_) => true,
        Base::Struct(number) => layout(structs, number).is_some(),
    }
}

fn base_size(base: Base, structs: &[StructType]) -> u64
    ensures { result ≡ base_size structs.now base }
{
    match base {
        Base::Void => 0,
        Base::Whole(kind) => kind.width().bytes() as u64,
        Base::Struct(number) => match layout(structs, number) {
            Some(layout) => layout.size,
            None => 0,
        },
    }
}

fn base_align(base: Base, structs: &[StructType]) -> Width
    ensures { result ≡ base_align structs.now base }
{
    match base {
        Base::Void => Width::One,
        Base::Whole(kind) => kind.width(),
        Base::Struct(number) => match layout(structs, number) {
            Some(layout) => layout.align,
            None => Width::One,
        },
    }
}

/// The layout of the structure with this number, if it is complete.
pub fn layout(structs: &[StructType], number: u32) -> Option<&StructLayout>
    ensures { option_copied result ≡ layout_of structs.now number }
{
    match sqlite_items::at(structs, number as usize) {
        Some(found) => found.layout.as_ref(),
        None => None,
    }
}
