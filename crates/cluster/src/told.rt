//! What is told of a run.
ghost use Rattle.std.specs.Prelude.{◌≡◌, ◌≤◌, ◌++◌, [], ◌∷◌, List, ℕ, length, IfOk, OnOk};
ghost use Rattle.std.specs.List.{flat_map, list_any, position};
ghost use Rattle.w_model.specs.Cut.{released_at, rank_numbers};
ghost use Rattle.w_model.specs.Texts.{rank_line_at, end_at, end_untrapped, end_line};
ghost use Rattle.w_model.specs.World.{Setting, World, world_of, start_world};
ghost use Rattle.mpi_types.specs.declared.entries.Entry.{Entry as Event};
ghost use Rattle.cluster.specs.Told.{on_first, is_rank_at_bound, is_rank_unended, is_rank_trapped, Tells, TellsOfRun};
ghost use Rattle.cluster.specs.Job.{IsJob, setting};
ghost use Rattle.cluster.specs.Group.{Stand};
ghost use Rattle.vm_code.specs.declared.code.Code.{Code};

use crate::group::drain;
use crate::job::Job;
use crate::rank::Rank;
use am_base::{Bytes, ProcId, RankId};
use mpi_types::{Entry, EntryRun, History, append_runs};
use output_commit::text as append_lines;
use std::alloc::{AllocError, Global};
use w_model::{End, Standing, append_end, append_rank};

/// The texts that tell of a whole run, and how it ended.
#[derive(Debug, Drop)]
pub struct Told {
    /// The journal behind its first line.
    pub journal: Bytes,
    /// The released lines.
    pub lines: Bytes,
    /// The line of each rank, and how the run ended.
    pub report: Bytes,
    pub end: End,
}

/// Runs the program until no rank can take a tick, and then marks the end.
pub fn run(alloc: Global, job: &Job) -> Result<Told, AllocError>
    requires job { IsJob job.now.program.now job.now.segment.now job.now.code.now }
    requires few { job.now.ranks ≤ 256 }
    requires bounded { job.now.bound ≤ 16000000 }
    ensures { IfOk result (TellsOfRun job.now.files.now (setting job.now)) }
{
    let mut ranks = start(alloc, job)?;
    run_ranks(alloc, ranks.as_mut_slice(), job)
}

/// Runs ranks that took no tick yet, and marks the end.
fn run_ranks(alloc: Global, ranks: &mut [Rank], job: &Job) -> Result<Told, AllocError>
    requires job { IsJob job.now.program.now job.now.segment.now job.now.code.now }
    requires few { job.now.ranks ≤ 256 }
    requires bounded { job.now.bound ≤ 16000000 }
    requires stand { Stand job.now.code.now (setting job.now) ranks.old [] }
    ensures { IfOk result (TellsOfRun job.now.files.now (setting job.now)) }
{
    let mut history = History::new(alloc);
    drain(alloc, ranks, &mut history, job)?;
    history.push(EntryRun {
        entry: Entry::Commit,
        times: 1,
    })?;
    tell(alloc, ranks, &history, job.files, job.bound)
}

/// The texts of a run that ended.
fn tell(
    alloc: Global,
    ranks: &[Rank],
    history: &History,
    files: &[Bytes],
    bound: u64,
) -> Result<Told, AllocError>
    requires { length ranks.now ≤ 256 }
    ensures { IfOk result (λ told. (code : Code) (s : Setting) (h : List Event) → s.bound ≡ bound → Stand code s ranks.now h
        → Tells files.now s h history.now told) }
{
    let mut journal = Bytes::new(alloc);
    append_runs(&mut journal, history.runs())?;
    let mut lines = Bytes::new(alloc);
    append_all_lines(&mut lines, ranks)?;
    let end = end_of(ranks, bound);
    let mut report = Bytes::new(alloc);
    append_report(&mut report, ranks, files, bound, end)?;
    Ok(Told {
        journal,
        lines,
        report,
        end,
    })
}

/// The ranks before their first tick.
fn start(alloc: Global, job: &Job) -> Result<Vec<Rank>, AllocError>
    requires { IsJob job.now.program.now job.now.segment.now job.now.code.now }
    ensures { IfOk result (λ ranks. Stand job.now.code.now (setting job.now) ranks.items []) }
{
    let mut ranks = Vec::with_capacity(alloc, usize::from(job.ranks))?;
    for number in 0..job.ranks {
        ranks.push(Rank::new(alloc, job, number)?)?;
    }
    Ok(ranks)
}

/// Appends all lines that the ranks printed, rank by rank.
fn append_all_lines(out: &mut Bytes, ranks: &[Rank]) -> Result<(), AllocError>
    requires { length ranks.now ≤ 256 }
    ensures { OnOk result ((code : Code) (s : Setting) (h : List Event) → Stand code s ranks.now h
        → out.new ≡ out.old ++ released_at s start_world (world_of h)) }
{
    for at in 0..ranks.len() {
        let rank = &ranks[at];
        append_lines(out, RankId(at as u16), rank.regs.output.held.as_slice())?;
    }
    Ok(())
}

/// Appends the report's lines of the ranks, and how the run ended.
fn append_report(
    out: &mut Bytes,
    ranks: &[Rank],
    files: &[Bytes],
    bound: u64,
    end: End,
) -> Result<(), AllocError>
    requires { length ranks.now ≤ 256 }
    ensures { OnOk result ((code : Code) (s : Setting) (h : List Event) → s.bound ≡ bound → Stand code s ranks.now h
        → out.new ≡ out.old ++ flat_map (rank_line_at files.now s (world_of h) on_first) (rank_numbers s) ++ end_line end) }
{
    append_rank_lines(out, ranks, files, bound)?;
    append_end(out, end)?;
    Ok(())
}

/// Appends the report's lines of the ranks, in order.
fn append_rank_lines(
    out: &mut Bytes,
    ranks: &[Rank],
    files: &[Bytes],
    bound: u64,
) -> Result<(), AllocError>
    requires { length ranks.now ≤ 256 }
    ensures { OnOk result ((code : Code) (s : Setting) (h : List Event) → s.bound ≡ bound → Stand code s ranks.now h
        → out.new ≡ out.old ++ flat_map (rank_line_at files.now s (world_of h) on_first) (rank_numbers s)) }
{
    for at in 0..ranks.len() {
        let rank = &ranks[at];
        let standing = Standing {
            ending: rank.ending,
            ticks: rank.regs.ticks,
            place: ProcId(0),
        };
        append_rank(out, files, RankId(at as u16), standing, bound)?;
    }
    Ok(())
}

/// How the run ended.
fn end_of(ranks: &[Rank], bound: u64) -> End
    requires { length ranks.now ≤ 256 }
    ensures { (code : Code) (s : Setting) (h : List Event) → s.bound ≡ bound → Stand code s ranks.now h → result ≡ end_at s (world_of h) }
{
    match first_trapped(ranks) {
        Some(at) => End::Trapped(RankId(at as u16)),
        None => end_untrapped(ranks, bound),
    }
}

/// How the run ended where no rank was trapped.
fn end_untrapped(ranks: &[Rank], bound: u64) -> End
    ensures { (code : Code) (s : Setting) (h : List Event) → s.bound ≡ bound → Stand code s ranks.now h → result ≡ end_untrapped s (world_of h) }
{
    if is_any_at_bound(ranks, bound) {
        End::OutOfTicks
    } else if is_any_unended(ranks) {
        End::Deadlock
    } else {
        End::Done
    }
}

/// The least rank that was trapped.
fn first_trapped(ranks: &[Rank]) -> Option<usize>
    ensures { result ≡ position is_rank_trapped ranks.now }
{
    ranks.iter().position(|rank| rank.is_trapped())
}

fn is_any_at_bound(ranks: &[Rank], bound: u64) -> bool
    ensures { result ≡ list_any (is_rank_at_bound bound) ranks.now }
{
    ranks.iter().any(|rank| rank.is_at_bound(bound))
}

fn is_any_unended(ranks: &[Rank]) -> bool
    ensures { result ≡ list_any is_rank_unended ranks.now }
{
    ranks.iter().any(|rank| rank.is_unended())
}
