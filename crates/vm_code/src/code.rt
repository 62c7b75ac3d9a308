//! The code of a program.

ghost use Rattle.std.specs.Prelude.{length, ◌<◌, ◌^◌};
ghost use Rattle.vm_code.specs.Bounded.{IsBounded};

use crate::Instr;
use rank_range::Kind;
use sqlite_items::Items;

/// Where a parameter lies in its function's frame, and how.
#[derive(Clone, Copy, Debug, PartialEq, Eq)]
pub struct Parameter {
    /// How many bytes it lies behind the frame's start.
    pub offset: u64,
    pub kind: Kind,
}

/// A function of the code.
#[derive(Debug, Drop)]
pub struct Function {
    /// The place of its first instruction.
    pub place: u32,
    /// How many bytes its frame has.
    pub frame: u64,
    pub parameters: Items<Parameter>,
}

/// The code of a program. The first instruction is the call of `main`; a trap there has the unit and the line of the name
/// `main`. Each jump that doesn't lead forward leads to a tick point, so no loop runs without ticks.
#[derive(Debug, Drop)]
pub struct Code {
    pub instrs: Items<Instr>,
    pub functions: Items<Function>,
    pub unit: u8,
    pub line: u32,
    pub ghost bounded: { IsBounded instrs },
    pub ghost short: { length instrs < 2 ^ 32 },
}
