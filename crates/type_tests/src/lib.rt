//! Programs written by hand as values of the typed program, and what can be read from them.
#![tactic(auto)]

ghost use Rattle.type_tests.specs.Ring.{RingReads};
ghost use Rattle.type_tests.specs.Copies.{CopiesRead};
ghost use Rattle.type_tests.specs.Turns.{TurnsRead};

/// A law: the needs, lines, calls and the segment of a ring of messages.
pub fn ring_reads()
    ensures { RingReads }
{}

/// A law: those of a structure that is copied through pointers.
pub fn copies_read()
    ensures { CopiesRead }
{}

/// A law: those of a `switch` in a loop.
pub fn turns_read()
    ensures { TurnsRead }
{}
