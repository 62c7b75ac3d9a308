//! Laws of the machine.
ghost use Rattle.vm_code.specs.Laws.{StaysStopped, TellsLines};

/// A law: a machine that has stopped stays so with more instructions.
pub fn a_stopped_machine_stays()
    ensures { StaysStopped }
{}

/// A law: the line of a trap is told by the instructions before it.
pub fn lines_are_told_before()
    ensures { TellsLines }
{}
