//! What a rank's run is made of: its registers, what it printed, how it stands, and what its calls are given and give.

ghost use Rattle.rank_range.specs.Output.{AreTheCut, ArePrintedTogether};

use crate::{OffsetList, WordList};
use am_base::{Bytes, LineList, MpiCall, TrapCause};
use std::alloc::AllocError;

/// Why and where a rank was trapped: the source by its number from 0, and the line in it from 1.
#[derive(Clone, Copy, Debug, PartialEq, Eq)]
pub struct Trap {
    pub cause: TrapCause,
    pub unit: u8,
    pub line: u32,
}

/// How a rank stands.
#[derive(Clone, Copy, Debug, PartialEq, Eq)]
pub enum Ending {
    /// Neither ended nor trapped.
    Running,
    /// Ended with this status, by the return of `main`, by `exit` or by `MPI_Abort`.
    Ended(i32),
    Trapped(Trap),
}

/// What a rank printed: how many bytes in all, those of its last line as far as there is no newline, the number of its next
/// line, and the lines that no commit has released yet.
#[derive(Debug, Drop)]
pub struct Output {
    pub printed: u32,
    pub unfinished: Bytes,
    pub next: u32,
    pub held: LineList,
}

/// A rank's registers: the place of its next instruction, how many calls haven't returned, the ticks that it took, and what it
/// printed.
#[derive(Debug, Drop)]
pub struct Regs {
    pub position: u32,
    pub depth: u16,
    pub ticks: u64,
    pub output: Output,
}

/// The call of MPI at which a rank stands, with the unit and the line that a trap there has.
#[derive(Debug, Drop)]
pub struct CallOut {
    pub call: MpiCall,
    /// The arguments' words, the first one first.
    pub arguments: WordList,
    /// Whether its first tick was taken, and this is its second.
    pub second: bool,
    pub unit: u8,
    pub line: u32,
}

/// What a rank's globals begin with: the bytes, the offsets in them at which an address of eight bytes wants the rank's base
/// added, and the offset of each object by its number.
#[derive(Debug, Drop)]
pub struct Segment {
    pub bytes: Bytes,
    pub fixes: OffsetList,
    pub objects: OffsetList,
}

/// What a call of the library gives: its value as a word, and the text that it prints.
#[derive(Debug, Drop)]
pub struct LibOut {
    pub value: u64,
    pub text: Bytes,
}

/// Why a call of the library gives nothing. The rank's memory is then as it was.
#[derive(Clone, Copy, Debug, PartialEq, Eq)]
pub enum LibStop {
    Trap(TrapCause),
    /// The host has no memory left.
    Memory,
}

impl From<AllocError> for LibStop {
    ghost use Rattle.std.specs.Prelude.{◌≡◌};
    ghost use Rattle.rank_range.specs.declared.run.LibStop.TheVariants.{Memory};

    ghost from_gives = { λ _ e. e ≡ Memory };

    fn from(_error: AllocError) -> LibStop {
        LibStop::Memory
    }
}

/// Laws: a text is cut into its lines and an unfinished rest in one way only, and one text printed behind another is both
/// printed as one.
pub fn lines_are_the_cut()
    ensures cut { AreTheCut }
    ensures together { ArePrintedTogether }
{}
