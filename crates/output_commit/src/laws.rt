//! The law that lines are released once.

ghost use Rattle.output_commit.specs.Once.{IsReleasedOnce, IsRestHeld, HeldAscend, TextsJoin};

/// A law: over any list of commits, rollbacks and prints each line of the history up to its last commit is released once,
/// in order, and no other line is; what is held from the released count on is the rest.
pub fn lines_are_released_once()
    ensures once { IsReleasedOnce }
    ensures rest { IsRestHeld }
    ensures ascend { HeldAscend }
    ensures texts { TextsJoin }
{}
