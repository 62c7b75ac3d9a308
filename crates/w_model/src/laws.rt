//! What holds of drains.
ghost use Rattle.w_model.specs.Drain.{DrainsAreWhole};
ghost use Rattle.w_model.specs.Whole.{MarkedDrainsAreWhole};

/// A law: what a drain adds is legal and unmarked, and leaves a run that is stuck.
pub fn drains_are_whole()
    ensures { DrainsAreWhole }
{}

/// A law: a drain with its mark is legal, ends where the run is stuck, and releases all that was printed.
pub fn marked_drains_are_whole()
    ensures { MarkedDrainsAreWhole }
{}
