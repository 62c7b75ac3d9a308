//! What holds of runs one behind another, of a rank before its first one, and of where the condition of a run comes from.

ghost use Rattle.rank_machine.specs.Begun.{BeginAtStart};
ghost use Rattle.rank_machine.specs.Joined.{AreJoined, GoOnAsOne};
ghost use Rattle.rank_machine.specs.Onward.{AnswersAreTaken, AnswersLeadOn, FreshRanksRun, RunsLeadOn};

use rank_range::lines_are_the_cut;
use vm_code::a_stopped_machine_stays;

/// A run of so many ticks and then one of so many more are a run of all these ticks.
pub fn runs_are_joined()
    ensures joined { AreJoined }
    ensures on { GoOnAsOne }
{
    lines_are_the_cut();
}

/// A rank before its first instruction is the machine at its start.
pub fn ranks_begin_at_start()
    ensures { BeginAtStart }
{}

/// A rank with the opening memory of a program may run, where the code goes on from its start.
pub fn fresh_ranks_run()
    ensures { FreshRanksRun }
{}

/// A rank that stopped for the time being may run again.
pub fn runs_lead_on()
    ensures { RunsLeadOn }
{
    a_stopped_machine_stays();
}

/// A rank that stands at a call of MPI takes any answer.
pub fn answers_are_taken()
    ensures { AnswersAreTaken }
{}

/// A rank whose call of MPI was answered may run again.
pub fn answers_lead_on()
    ensures { AnswersLeadOn }
{}
