//! Laws of what a table learns.

ghost use Rattle.location.specs.Learnings.{KnowsTheGreatest, CountsNeverFall, HomesStay};

/// A law: over any list of learnings the pair of a rank is the one with the greatest count, the first of equals, no count
/// falls, and the homes stay.
pub fn learnings_are_kept()
    ensures greatest { KnowsTheGreatest }
    ensures never_fall { CountsNeverFall }
    ensures homes { HomesStay }
{}
