//! The segment of a program: the bytes with which the globals of each rank begin.
#![tactic(auto)]

ghost use Rattle.std.specs.Prelude.{IfOk, IfErr};
ghost use Rattle.c_types.specs.declared.program.Program.{Program};
ghost use Rattle.c_types.specs.Segment.{SegmentOf};
ghost use Rattle.privatise.specs.Answers.{IsWhy, IsTold, HasAnswer};
ghost use Rattle.privatise.specs.Fits.{SegmentsFit};

mod definitions;
mod error;
mod first;
mod layout;
mod objects;
mod offsets;
mod refusals;

use c_types::Program;
pub use error::SegError;
use rank_range::Segment;
use std::alloc::Global;

/// Makes the segment of a program: the arguments of `main`, and behind them the objects of all units, each aligned. This
/// profile's own.
///
/// # Errors
///
/// The first refusal of the program: `TooLarge` at the object with which the segment passes 315,392 bytes, `Undefined` at
/// the use of a name that no unit defines and, where no unit defines `main`, at the first token of the first unit, `Twice`
/// at a second definition of a name. `Memory` where no memory is left.
pub fn privatise(alloc: Global, program: &Program) -> Result<Segment, SegError>
    ensures ok { IfOk result (SegmentOf program.now) }
    ensures err { IfErr result (IsWhy program.now) }
    ensures only { IsTold program.now result }
{
    refusals::check(alloc, program)?;
    Ok(layout::laid_out(alloc, program)?)
}

/// A law: each program has a segment or a first refusal.
pub fn some_answer()
    ensures { (program : Program) → HasAnswer program }
{}

/// A law: a program's segment fits into the globals of a rank, and each address in it lies in it.
pub fn segments_fit()
    ensures { SegmentsFit }
{}
