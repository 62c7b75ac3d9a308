//! The instructions of the stack machine.

use am_base::{LibCall, MpiCall};
use rank_range::{Binary, Kind, Unary};

/// An instruction of the stack machine. A place is the number of an instruction in its code, from 0. Operands are words
/// of 64 bits. Tick points are `Tick`, `Call`, `Library` and `Mpi`.
#[derive(Clone, Copy, Debug, PartialEq, Eq)]
pub enum Instr {
    /// Puts a word on the operands.
    Push(u64),
    /// Takes the topmost operand away.
    Pop,
    /// Puts the topmost operand on top once more.
    Dup,
    /// Puts the address on the operands that lies so many bytes behind the frame's start.
    Local(u64),
    /// Puts the address on the operands that lies so many bytes behind the start of the globals.
    Global(u32),
    /// Takes an address, and puts the number there.
    Load(Kind),
    /// Takes a word and the address below it, stores the word's low bytes there, and puts the word back.
    Store(Kind),
    /// Takes an address and the one below it, and copies so many bytes from the first to the second, as if by a buffer.
    /// The second one stays.
    Copy(u64),
    /// Takes an address, and makes so many bytes from there on zero.
    Zero(u64),
    /// Takes the second operand and then the first one.
    Binary {
        op: Binary,
        kind: Kind,
    },
    Unary {
        op: Unary,
        kind: Kind,
    },
    /// Takes a word, and puts the number of this kind that its low bytes are.
    Extend(Kind),
    /// Goes on at a place.
    Jump(u32),
    /// Takes a word, and goes on at a place where it is 0.
    JumpIfZero(u32),
    /// Takes a word, and goes on at a place where it isn't 0.
    JumpIfNot(u32),
    /// A tick point. It tells the unit and the line of the traps behind it.
    Tick {
        unit: u8,
        line: u32,
    },
    /// Calls a function of the program, by its number, with so many arguments.
    Call {
        function: u32,
        arguments: u64,
    },
    /// Calls a function of the library.
    Library {
        call: LibCall,
        arguments: u64,
    },
    /// Calls a function of MPI. The second tick of a call is an instruction of its own, directly behind the first one.
    Mpi {
        call: MpiCall,
        arguments: u64,
        second: bool,
    },
    /// Takes a word, which is the function's result, and leaves the function. Leaving `main` ends the rank.
    Return,
}
