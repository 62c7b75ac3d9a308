//! Laws of runs.
ghost use Rattle.c_model.specs.Laws.{MoreExtends, MoreTicksExtend, MoreAnswersExtend, RunsTakeTicks, RunsArePlain};

/// A law: with more ticks and more answers a run goes on where it was paused or waited, and is else the same.
pub fn more_extends_a_run()
    ensures { MoreExtends }
{}

/// A law: with more ticks a run that isn't paused is the same, and a paused one goes on.
pub fn more_ticks_extend_a_run()
    ensures { MoreTicksExtend }
{}

/// A law: with more answers a run that doesn't wait is the same, and one that waits goes on.
pub fn more_answers_extend_a_run()
    ensures { MoreAnswersExtend }
{}

/// A law: a run takes no more ticks than it may, and a paused run took all of them.
pub fn a_run_takes_its_ticks()
    ensures { RunsTakeTicks }
{}

/// A law: a run is what the plain recursion gives, in which each construct gives a value or halts the run.
pub fn runs_are_plain()
    ensures { RunsArePlain }
{}
