//! What ranks do, and what arrives, are steps at the world that they stand for.
ghost use Rattle.standing.specs.Laws.{RunsKeep, CallsKeep, ArrivalsKeep, QuietIsStuck};

use c_model::{a_run_takes_its_ticks, more_ticks_extend_a_run};
use mpi_types::{acceptance_is_tested, insertion_is_one_place};
use rank_steps as _;
use vm_code::a_stopped_machine_stays;

/// A law: ticks at no call of MPI are allowed, and the ranks stand for the world behind them.
pub fn runs_keep()
    ensures { RunsKeep }
{
    a_stopped_machine_stays();
    more_ticks_extend_a_run();
    a_run_takes_its_ticks();
}

/// A law: so is a tick at a call of MPI that joins no collective, with the match of the receive that it posts.
pub fn calls_keep()
    ensures { CallsKeep }
{
    a_stopped_machine_stays();
    acceptance_is_tested();
    insertion_is_one_place();
}

/// A law: so is the match that an arrival makes possible.
pub fn arrivals_keep()
    ensures { ArrivalsKeep }
{
    acceptance_is_tested();
    insertion_is_one_place();
}

/// A law: where nothing is under way, no rank may take a tick and none may gather, no step is possible.
pub fn quiet_is_stuck()
    ensures { QuietIsStuck }
{}
