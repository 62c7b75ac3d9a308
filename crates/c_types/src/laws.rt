//! Laws of what refuses a program.

ghost use Rattle.c_types.specs.declared.program.Program.{Program};
ghost use Rattle.c_types.specs.Segment.{RefusalIsOne};

/// A law: a refused program has one first refusal, and no segment.
pub fn refusal_is_one()
    ensures { (program : Program) → RefusalIsOne program }
{}
