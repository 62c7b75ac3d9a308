//! What holds of ranks.

ghost use Rattle.rank_core.specs.Settled.{AnswersAreSteps, AnswersAskOn, ArrivesSettled, RunsSettled, SettledCalls, StartsSettled};
ghost use Rattle.rank_core.specs.Started.{StartedRun};

use mpi_call::{arrivals_keep_ranks_steady, steady_ranks_may_begin};
use rank_machine::{fresh_ranks_run, ranks_begin_at_start, runs_lead_on};
use rank_steps as _;
use vm_code as _;

/// A law: a rank before its first tick may run, where its code goes on from its start.
pub fn started_ranks_run()
    ensures { StartedRun }
{
    fresh_ranks_run();
}

/// A law: what holds of a rank between two ticks holds before its first one.
pub fn ranks_start_settled()
    ensures { StartsSettled }
{
    started_ranks_run();
    ranks_begin_at_start();
}

/// A law: it holds behind the arrival of a message.
pub fn arrivals_keep_ranks_settled()
    ensures { ArrivesSettled }
{
    arrivals_keep_ranks_steady();
}

/// A law: it holds behind a run of the machine, if the rank goes on later.
pub fn runs_keep_ranks_settled()
    ensures { RunsSettled }
{
    runs_lead_on();
}

/// A law: a rank of which it holds may make the call at which it waits.
pub fn settled_ranks_may_call()
    ensures { SettledCalls }
{
    steady_ranks_may_begin();
}

/// Laws: an answer is one step of the machine, and behind it the calls come in their turn.
pub fn answers_keep_calls_in_turn()
    ensures steps { AnswersAreSteps }
    ensures turns { AnswersAskOn }
{}
