//! One rank.
ghost use Rattle.std.specs.Prelude.{◌≡◌, ◌+◌, ◌≤◌, ◌<◌, ◌^◌, IfOk};
ghost use Rattle.std.specs.Result.{result_ok};
ghost use Rattle.cluster.specs.Rank.{stopped_as};

use crate::job::Job;
use am_base::{Bytes, LineList, RankId};
use c_model::{a_run_takes_its_ticks, more_ticks_extend_a_run};
use codegen::laid_out_code_begins_with_main;
use privatise::segments_fit;
use rank_machine::{Stop, fresh_ranks_run, go, open, ranks_begin_at_start, runs_lead_on};
use rank_range::{Ending, FlatMem, Mem, Output, Regs, Trap, lines_are_the_cut};
use std::alloc::{AllocError, Global};
use vm_code::a_stopped_machine_stays;

/// One rank's run so far: its registers and its memory, and how it stands.
#[derive(Debug, Drop)]
pub struct Rank {
    pub regs: Regs,
    pub memory: FlatMem,
    pub ending: Ending,
}

impl Rank {
    ghost use Rattle.rank_range.specs.declared.run.Ending.TheVariants.{Running};
    ghost use Rattle.cluster.specs.Job.{IsJob, setting};
    ghost use Rattle.cluster.specs.Rank.{StandsFor, Ran};
    ghost use Rattle.w_model.specs.Texts.{is_at_bound, is_unended, is_trapped};

    /// A rank before its first tick.
    pub fn new(alloc: Global, job: &Job, number: u16) -> Result<Rank, AllocError>
        requires { IsJob job.now.program.now job.now.segment.now job.now.code.now }
        ensures start { IfOk result (StandsFor job.now.code.now (setting job.now) number) }
        ensures ticks { IfOk result (λ rank. rank.regs.ticks ≡ 0) }
    {
        segments_fit();
        laid_out_code_begins_with_main();
        fresh_ranks_run();
        ranks_begin_at_start();
        let mut memory = FlatMem::fresh(alloc, RankId(number))?;
        open(&mut memory, job.segment);
        Ok(Rank {
            regs: Regs {
                position: 0,
                depth: 0,
                ticks: 0,
                output: Output {
                    printed: 0,
                    unfinished: Bytes::new(alloc),
                    next: 0,
                    held: LineList::new(alloc),
                },
            },
            memory,
            ending: Ending::Running,
        })
    }

    /// Takes ticks while the budget and the bound leave some and the rank hasn't ended, and gives their number. After
    /// an error the rank is only to be dropped.
    pub fn run(
        &mut self,
        alloc: Global,
        job: &Job,
        number: u16,
        budget: u64,
    ) -> Result<u64, AllocError>
        requires job { IsJob job.now.program.now job.now.segment.now job.now.code.now }
        requires bounded { job.now.bound ≤ 16000000 }
        requires stands { StandsFor job.now.code.now (setting job.now) number self.old }
        ensures { IfOk result (λ taken. Ran job.now.code.now (setting job.now) number budget self.old self.new taken) }
    {
        runs_lead_on();
        a_stopped_machine_stays();
        lines_are_the_cut();
        more_ticks_extend_a_run();
        a_run_takes_its_ticks();
        let before = self.regs.ticks;
        if !self.is_unended() || job.bound <= before {
            return Ok(0);
        }
        let most = budget.min(job.bound - before);
        let stop = go(alloc, &mut self.regs, &mut self.memory, job.code, most);
        self.ending = ending_of(stop)?;
        Ok(self.regs.ticks - before)
    }

    /// Whether the rank has as many ticks as it may take, and hasn't ended.
    pub fn is_at_bound(&self, bound: u64) -> bool
        ensures { result ≡ is_at_bound self.now.ending self.now.regs.ticks bound }
    {
        self.is_unended() && self.regs.ticks == bound
    }

    pub fn is_unended(&self) -> bool
        ensures { result ≡ is_unended self.now.ending }
    {
        match self.ending {
            Ending::Running => true,
            Ending::Ended(_) | Ending::Trapped(_) => false,
        }
    }

    pub fn is_trapped(&self) -> bool
        ensures { result ≡ is_trapped self.now.ending }
    {
        match self.ending {
            Ending::Trapped(_) => true,
            Ending::Running | Ending::Ended(_) => false,
        }
    }
}

/// How a rank stands that stopped so.
fn ending_of(stop: Stop) -> Result<Ending, AllocError>
    ensures { stopped_as stop ≡ result_ok result }
{
    match stop {
        Stop::Ended { status } => Ok(Ending::Ended(status)),
        Stop::Trap { cause, unit, line } => Ok(Ending::Trapped(Trap { cause, unit, line })),
        Stop::Paused => Ok(Ending::Running),
        Stop::Call(call) => {
            drop(call);
            Ok(Ending::Running)
        }
        Stop::Memory => Err(AllocError),
    }
}
