//! Expressions of the typed program.

use am_base::{LibCall, MpiCall};
use rank_range::{Binary, Kind, Unary};
use sqlite_items::{Boxed, Items};

/// An expression: its first operand, and what is then done with the value, one step behind the other. So `a + b * c` has the
/// first operand `a`, and a step that adds `b * c`.
///
/// Each value is a word of 64 bits, that of a number of some `Kind` or an address. A place (C11, 6.3.2.1) has its address
/// as its value, so `&`, `*`, and the decay of an array change nothing and have no step.
#[cycle(tree)]
#[derive(Debug, Drop)]
pub struct Expr {
    pub first: Operand,
    pub steps: Items<Step>,
}

/// What an expression begins with.
#[cycle(tree)]
#[derive(Debug, Drop)]
pub enum Operand {
    /// A constant, by its word: a number, a character, an enumerator, a size, a constant of a header.
    Number(u64),
    /// The address of a local, by its offset in the frame.
    Local(u64),
    /// The address of a static object or a string, by its number.
    Object(u32),
    /// A call of a function of the program, by its number. Each argument has the type of its parameter.
    Call {
        function: u32,
        arguments: Items<Expr>,
    },
    /// A call of the C library.
    Library {
        call: LibCall,
        arguments: Items<Expr>,
    },
    /// A call of MPI.
    Mpi {
        call: MpiCall,
        arguments: Items<Expr>,
    },
}

/// What is done with a value. The word `value` below is the one so far; `right` is evaluated behind it.
#[cycle(tree)]
#[derive(Debug, Drop)]
pub enum Step {
    /// The number of this kind at the address `value`, as C11, 6.3.2.1 has it of a place. A pointer is an unsigned long.
    Load(Kind),
    /// A conversion or a cast between whole types or pointers.
    Convert {
        from: Kind,
        to: Kind,
    },
    /// `-` and `~`, in a promoted kind.
    Unary {
        op: Unary,
        kind: Kind,
    },
    /// `!`: 1 where the word is 0, and else 0.
    Not,
    /// `.` and `->`: the address so many bytes on.
    Member {
        offset: u64,
    },
    /// An operator on two numbers in a kind to which both were converted. The right one of a shift keeps its own.
    Binary {
        op: Binary,
        kind: Kind,
        right: Boxed<Expr>,
    },
    /// `>`
    Greater {
        kind: Kind,
        right: Boxed<Expr>,
    },
    /// `>=`
    AtLeast {
        kind: Kind,
        right: Boxed<Expr>,
    },
    /// `a[b]`, `p + n`, `n + p` and `p - n`: an address, and a number times so many bytes.
    Offset {
        by: OffsetBy,
        scale: u64,
        right: Boxed<Expr>,
    },
    /// `p - q`, in elements of so many bytes.
    Difference {
        size: u64,
        right: Boxed<Expr>,
    },
    /// `&&`
    And {
        right: Boxed<Expr>,
    },
    /// `||`
    Or {
        right: Boxed<Expr>,
    },
    /// `value ? then : otherwise`
    Conditional {
        then: Boxed<Expr>,
        otherwise: Boxed<Expr>,
    },
    /// `,`: the value so far is dropped.
    Comma {
        right: Boxed<Expr>,
    },
    /// `=`: a number of this kind is stored at the address `value`, and is the value.
    Assign {
        kind: Kind,
        right: Boxed<Expr>,
    },
    /// `=` between structures of so many bytes: `right` is the address of the one that is copied, and the value stays.
    Copy {
        size: u64,
        right: Boxed<Expr>,
    },
    /// `a op= b` on a number of this kind at the address `value`: it is converted to the kind `at`, the operator works there,
    /// and what it gives is converted back, stored, and is the value.
    Update {
        op: Binary,
        kind: Kind,
        at: Kind,
        right: Boxed<Expr>,
    },
    /// `p += n` and `p -= n`, where the pointer stands at the address `value`.
    Advance {
        direction: Direction,
        scale: u64,
        right: Boxed<Expr>,
    },
    /// `++` and `--` on what stands at the address `value`.
    Count {
        counted: Counted,
        direction: Direction,
        given: Given,
    },
}

/// Which of two operands is the pointer, and whether the number is added to it.
#[derive(Clone, Copy, Debug, PartialEq, Eq)]
pub enum OffsetBy {
    /// `p + n`
    PointerPlusNumber,
    /// `n + p`
    NumberPlusPointer,
    /// `p - n`
    PointerMinusNumber,
}

/// Whether what is counted grows or falls.
#[derive(Clone, Copy, Debug, PartialEq, Eq)]
pub enum Direction {
    Up,
    Down,
}

/// What `++` and `--` count: a number of a kind by 1, or a pointer by the bytes of what it points to.
#[derive(Clone, Copy, Debug, PartialEq, Eq)]
pub enum Counted {
    Number(Kind),
    Pointer(u64),
}

/// What `++` and `--` give: before their operand what was stored, and behind it what was there before.
#[derive(Clone, Copy, Debug, PartialEq, Eq)]
pub enum Given {
    New,
    Old,
}

/// A full expression (C11, 6.8): one that is no part of another, with its first token.
#[derive(Debug, Drop)]
pub struct FullExpr {
    pub token: u32,
    pub expr: Expr,
}
