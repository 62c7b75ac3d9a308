//! What holds of steps one behind another.

ghost use Rattle.rank_steps.specs.Steps.{StepsJoin};

use collectives as _;
use mpi_rules as _;
use vm_code as _;

/// A law: steps behind steps are steps.
pub fn steps_are_joined()
    ensures { StepsJoin }
{}
