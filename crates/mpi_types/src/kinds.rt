//! Datatypes and operations.

ghost use Rattle.std.specs.Prelude.{◌≡◌, ◌≢◌, pos, MatchOption};
ghost use Rattle.mpi_types.specs.declared.kinds.Datatype.{Datatype};
ghost use Rattle.mpi_types.specs.declared.kinds.Operation.{Operation};
ghost use Rattle.mpi_types.specs.Tables.{datatype_number, datatype_size, datatype_of, has_operation, operation_number, operation_of, is_on_bits};

/// The datatypes of messages (MPI 3.1, section 3.2.2). Each is `MPI_` and its name in capitals.
#[derive(Clone, Copy, Debug, PartialEq, Eq)]
pub enum Datatype {
    Char,
    SignedChar,
    UnsignedChar,
    Byte,
    Short,
    UnsignedShort,
    Int,
    Unsigned,
    Long,
    UnsignedLong,
    /// `MPI_LONG_LONG`, which is `MPI_LONG_LONG_INT` too.
    LongLong,
    UnsignedLongLong,
}

impl Datatype {
    /// Its number in `mpi.h`.
    pub fn number(self) -> i32
        ensures { result ≡ pos (datatype_number self) }
    {
        match self {
            Datatype::Char => 1,
            Datatype::SignedChar => 2,
            Datatype::UnsignedChar => 3,
            Datatype::Byte => 4,
            Datatype::Short => 5,
            Datatype::UnsignedShort => 6,
            Datatype::Int => 7,
            Datatype::Unsigned => 8,
            Datatype::Long => 9,
            Datatype::UnsignedLong => 10,
            Datatype::LongLong => 11,
            Datatype::UnsignedLongLong => 12,
        }
    }

    /// The datatype of that number.
    pub fn of_number(number: i32) -> Option<Datatype>
        ensures { MatchOption result ((t : Datatype) → pos (datatype_number t) ≢ number) (λ t. pos (datatype_number t) ≡ number) }
    {
        Some(match number {
            1 => Datatype::Char,
            2 => Datatype::SignedChar,
            3 => Datatype::UnsignedChar,
            4 => Datatype::Byte,
            5 => Datatype::Short,
            6 => Datatype::UnsignedShort,
            7 => Datatype::Int,
            8 => Datatype::Unsigned,
            9 => Datatype::Long,
            10 => Datatype::UnsignedLong,
            11 => Datatype::LongLong,
            12 => Datatype::UnsignedLongLong,
            _ => return None,
        })
    }

    /// The datatype of a number in an argument.
    pub fn of_byte(number: u8) -> Option<Datatype>
        ensures { result ≡ datatype_of number }
    {
        Datatype::of_number(i32::from(number))
    }

    /// Whether the operation is defined for its elements: `MPI_BYTE` has those on bits alone (MPI 3.1, section 5.9.2).
    pub fn has(self, operation: Operation) -> bool
        ensures { result ≡ has_operation self operation }
    {
        match self {
            Datatype::Byte => operation.is_on_bits(),
            Datatype::Char
            | Datatype::SignedChar
            | Datatype::UnsignedChar
            | Datatype::Short
            | Datatype::UnsignedShort
            | Datatype::Int
            | Datatype::Unsigned
            | Datatype::Long
            | Datatype::UnsignedLong
            | Datatype::LongLong
            | Datatype::UnsignedLongLong => true,
        }
    }

    /// How many bytes an element has.
    pub fn size(self) -> u32
        ensures { result ≡ datatype_size self }
    {
        match self {
            Datatype::Char | Datatype::SignedChar | Datatype::UnsignedChar | Datatype::Byte => 1,
            Datatype::Short | Datatype::UnsignedShort => 2,
            Datatype::Int | Datatype::Unsigned => 4,
            Datatype::Long
            | Datatype::UnsignedLong
            | Datatype::LongLong
            | Datatype::UnsignedLongLong => 8,
        }
    }
}

/// The operations of reductions (MPI 3.1, section 5.9.2). Each is `MPI_` and its name in capitals.
#[derive(Clone, Copy, Debug, PartialEq, Eq)]
pub enum Operation {
    Sum,
    Prod,
    Max,
    Min,
    Land,
    Lor,
    Band,
    Bor,
    Bxor,
}

impl Operation {
    /// Its number in `mpi.h`.
    pub fn number(self) -> i32
        ensures { result ≡ pos (operation_number self) }
    {
        match self {
            Operation::Sum => 1,
            Operation::Prod => 2,
            Operation::Max => 3,
            Operation::Min => 4,
            Operation::Land => 5,
            Operation::Lor => 6,
            Operation::Band => 7,
            Operation::Bor => 8,
            Operation::Bxor => 9,
        }
    }

    /// The operation of that number.
    pub fn of_number(number: i32) -> Option<Operation>
        ensures { MatchOption result ((o : Operation) → pos (operation_number o) ≢ number) (λ o. pos (operation_number o) ≡ number) }
    {
        Some(match number {
            1 => Operation::Sum,
            2 => Operation::Prod,
            3 => Operation::Max,
            4 => Operation::Min,
            5 => Operation::Land,
            6 => Operation::Lor,
            7 => Operation::Band,
            8 => Operation::Bor,
            9 => Operation::Bxor,
            _ => return None,
        })
    }

    /// The operation of a number in an argument.
    pub fn of_byte(number: u8) -> Option<Operation>
        ensures { result ≡ operation_of number }
    {
        Operation::of_number(i32::from(number))
    }

    /// Whether it works on bits.
    pub fn is_on_bits(self) -> bool
        ensures { result ≡ is_on_bits self }
    {
        match self {
            Operation::Band | Operation::Bor | Operation::Bxor => true,
            Operation::Sum
            | Operation::Prod
            | Operation::Max
            | Operation::Min
            | Operation::Land
            | Operation::Lor => false,
        }
    }
}
