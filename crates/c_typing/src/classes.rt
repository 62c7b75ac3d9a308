//! What the rules ask of the type of an operand.

ghost use Rattle.std.specs.Prelude.{◌≡◌, ◌-◌, length, take};
ghost use Rattle.c_typing.specs.Classes as classes;
ghost use Rattle.c_typing.specs.Classes.{base_class, target_of, part_class};

use crate::types::{base_measure, last_part, measured_parts};
use crate::{Sort, Value};
use c_types::{Base, CType, Part, StructType};
use rank_range::Kind;

/// What kind of type an operand has (C11, 6.2.5).
#[derive(Clone, Copy, Debug, PartialEq, Eq)]
pub enum Class {
    Void,
    Whole(Kind),
    /// A structure, by its number.
    Struct(u32),
    Pointer(Target),
    Array,
    /// A function that isn't called.
    Function,
}

/// What a pointer points to.
#[derive(Clone, Copy, Debug, PartialEq, Eq)]
pub enum Target {
    Void,
    /// An incomplete type, or one of more bytes than an object may have.
    Unsized,
    /// A complete type of so many bytes.
    Sized(u64),
}

/// The class of a type.
#[tactic(auto, unfolding(crate::specs::Classes::class_of_type))]
pub fn class_of_type(of: &CType, structs: &[StructType]) -> Class
    ensures { result ≡ classes.class_of_type structs.now of.now }
{
    match last_part(of) {
        Some(Part::Pointer { .. }) => Class::Pointer(target_of(of, structs)),
        Some(Part::Array(_) | Part::OpenArray) => Class::Array,
        None => base_class(of.base),
    }
}

fn base_class(base: Base) -> Class
    ensures { result ≡ base_class base }
{
    match base {
        Base::Void => Class::Void,
        Base::Whole(kind) => Class::Whole(kind),
        Base::Struct(number) => Class::Struct(number),
    }
}

/// What a pointer of the type points to.
fn target_of(of: &CType, structs: &[StructType]) -> Target
    ensures { result ≡ target_of structs.now of.now }
{
    let parts = of.parts.as_slice();
    let inner = &parts[..parts.len().saturating_sub(1)];
    if inner.is_empty() && of.base == Base::Void {
        return Target::Void;
    }
    match measured_parts(base_measure(of.base, structs), inner) {
        Some(bytes) => Target::Sized(bytes),
        None => Target::Unsized,
    }
}

/// The class of a value.
pub fn class_of(value: &Value, structs: &[StructType]) -> Class
    ensures { result ≡ classes.class_of structs.now value.now }
{
    match value.sort {
        Sort::Function => Class::Function,
        Sort::Plain | Sort::NullPointer => class_of_type(&value.of, structs),
    }
}

impl Class {
    pub fn is_whole(self) -> bool
        ensures { result ≡ classes.is_whole self }
    {
        matches!(self, Class::Whole(_))
    }

    pub fn is_pointer(self) -> bool
        ensures { result ≡ classes.is_pointer self }
    {
        matches!(self, Class::Pointer(_))
    }

    /// Whether it is a number or a pointer (C11, 6.2.5p21).
    pub fn is_scalar(self) -> bool
        ensures { result ≡ classes.is_scalar self }
    {
        self.is_whole() || self.is_pointer()
    }

    pub fn is_struct(self) -> bool
        ensures { result ≡ classes.is_struct self }
    {
        matches!(self, Class::Struct(_))
    }

    pub fn is_void(self) -> bool
        ensures { result ≡ classes.is_void self }
    {
        matches!(self, Class::Void)
    }

    pub fn is_function(self) -> bool
        ensures { result ≡ classes.is_function self }
    {
        matches!(self, Class::Function)
    }

    /// Whether it is a pointer to `void`.
    pub fn is_void_pointer(self) -> bool
        ensures { result ≡ classes.is_void_pointer self }
    {
        matches!(self, Class::Pointer(Target::Void))
    }

    /// Whether it is a pointer that can't be moved, since what it points to has no size.
    pub fn is_unmoved(self) -> bool
        ensures { result ≡ classes.is_unmoved self }
    {
        matches!(self, Class::Pointer(Target::Void | Target::Unsized))
    }

    /// The kind of a number, and that of a pointer, which is `unsigned long`.
    pub fn kind(self) -> Kind
        ensures { result ≡ classes.kind_in self }
    {
        match self {
            Class::Whole(kind) => kind,
            Class::Void | Class::Struct(_) | Class::Pointer(_) | Class::Array | Class::Function =>
                Kind::UnsignedLong,
        }
    }

    /// By how many bytes a pointer moves.
    pub fn scale(self) -> u64
        ensures { result ≡ classes.scale_in self }
    {
        match self {
            Class::Pointer(Target::Sized(bytes)) => bytes,
            _ => 0,
        }
    }
}
