//! The ranks of a run: rounds of their runs.
ghost use Rattle.std.specs.Prelude.{◌≡◌, ◌+◌, ◌≤◌, ◌<◌, ◌^◌, length, IfOk, OnOk};
ghost use Rattle.cluster.specs.Job.{IsJob, setting};
ghost use Rattle.cluster.specs.Group.{Stand, AddsRun, AddsRound, AddsDrain};

use crate::job::Job;
use crate::rank::Rank;
use am_base::RankId;
use mpi_types::{Entry, EntryRun, History};
use std::alloc::{AllocError, Global};

/// How many ticks each rank gets in a round.
const TICKS_IN_ROUND: u64 = 1000;

/// Runs the rank of this number for up to a round's ticks, adds them to the history and tells how many they are.
fn run_rank(
    alloc: Global,
    ranks: &mut [Rank],
    history: &mut History,
    at: usize,
    job: &Job,
) -> Result<u64, AllocError>
    requires within { at < length ranks.old }
    requires job { IsJob job.now.program.now job.now.segment.now job.now.code.now }
    requires few { job.now.ranks ≤ 256 }
    requires bounded { job.now.bound ≤ 16000000 }
    requires stand { Stand job.now.code.now (setting job.now) ranks.old history.old }
    ensures { IfOk result (AddsRun job.now.code.now (setting job.now) at history.old ranks.new history.new) }
{
    let rank = &mut ranks[at];
    let taken = rank.run(alloc, job, at as u16, TICKS_IN_ROUND)?;
    history.push(EntryRun {
        entry: Entry::Tick {
            rank: RankId(at as u16),
        },
        times: taken,
    })?;
    Ok(taken)
}

/// A round: each rank runs, in order. Tells whether one took a tick.
fn run_round(
    alloc: Global,
    ranks: &mut [Rank],
    history: &mut History,
    job: &Job,
) -> Result<bool, AllocError>
    requires job { IsJob job.now.program.now job.now.segment.now job.now.code.now }
    requires few { job.now.ranks ≤ 256 }
    requires bounded { job.now.bound ≤ 16000000 }
    requires stand { Stand job.now.code.now (setting job.now) ranks.old history.old }
    ensures { IfOk result (AddsRound job.now.code.now (setting job.now) history.old ranks.new history.new) }
{
    let mut some = false;
    for at in 0..ranks.len() {
        if run_rank(alloc, ranks, history, at, job)? > 0 {
            some = true;
        }
    }
    Ok(some)
}

/// Rounds until one adds nothing. After an error the ranks and the history are only to be dropped.
pub fn drain(
    alloc: Global,
    ranks: &mut [Rank],
    history: &mut History,
    job: &Job,
) -> Result<(), AllocError>
    requires job { IsJob job.now.program.now job.now.segment.now job.now.code.now }
    requires few { job.now.ranks ≤ 256 }
    requires bounded { job.now.bound ≤ 16000000 }
    requires stand { Stand job.now.code.now (setting job.now) ranks.old history.old }
    ensures { OnOk result (AddsDrain job.now.code.now (setting job.now) history.old ranks.new history.new) }
{
    'rounds: loop {
        if !run_round(alloc, ranks, history, job)? {
            return Ok(());
        }
    }
}
