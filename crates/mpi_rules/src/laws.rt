//! Laws of what calls give.

ghost use Rattle.mpi_rules.specs.Answers.{RepliesMayCome};

/// A law: each answer that a call gives may come. Its numbers fit, and its bytes go to accessible addresses.
pub fn replies_may_come()
    ensures { RepliesMayCome }
{}
