//! Histories.

ghost use Rattle.std.specs.Prelude.{◌≡◌, ◌↔◌, ◌+◌, ◌<◌, ◌^◌, [], ◌∷◌, ◌++◌, replicate, take, length, slice_get, IsTrue, IfOk, IfSome, IfNone, OnOk, OnErr};
ghost use Rattle.mpi_types.specs.Runs.{MayRepeat, run_behind, are_one_run, runs_of, entries_of};

use crate::{Entry, EntryRun};
use std::alloc::{AllocError, Global};
use std::marker::Model;

/// A history, which contracts see as the list of its entries. It keeps equal entries in a row as one run.
#[derive(Debug, Drop)]
pub struct History {
    runs: Vec<EntryRun>,
}

impl Model for History {
    ghost use Rattle.std.specs.Prelude.{List, ◌≡◌};
    ghost use Rattle.mpi_types.specs.declared.entries.Entry.{Entry};
    ghost use Rattle.mpi_types.specs.Runs.{entries_of, runs_of};

    ghost Value = { List Entry };

    ghost view = { λ h. entries_of h.runs.items };

    ghost invariant = { λ h. runs_of (entries_of h.runs.items) ≡ h.runs.items };
}

impl History {
    /// A history without entries.
    pub fn new(alloc: Global) -> History
        ensures { result ≡ [] }
    {
        History {
            runs: Vec::new(alloc),
        }
    }

    /// Adds the entry as many times in a row as the run says.
    pub fn push(&mut self, run: EntryRun) -> Result<(), AllocError>
        requires once_but_ticks { MayRepeat run.entry run.times }
        requires fits { length self.old + run.times < 2 ^ 64 }
        ensures ok { OnOk result (self.new ≡ self.old ++ replicate run.times run.entry) }
        ensures err { OnErr result (self.new ≡ self.old) }
    {
        if run.times == 0 {
            return Ok(());
        }
        add_run(&mut self.runs, run)
    }

    /// Keeps the first runs, so many, and forgets what stands behind them.
    pub fn keep(&mut self, count: usize)
        ensures { self.new ≡ entries_of (take count (runs_of self.old)) }
    {
        self.runs.truncate(count);
    }

    /// The history as runs, each as long as equal entries stand in a row.
    pub fn runs(&self) -> &[EntryRun]
        ensures { result.now ≡ runs_of self.now }
    {
        self.runs.as_slice()
    }
}

/// Adds a run behind runs, into the last one where it is of ticks of the same rank.
fn add_run(runs: &mut Vec<EntryRun>, run: EntryRun) -> Result<(), AllocError>
    requires { length (entries_of runs.old.items) + run.times < 2 ^ 64 }
    ensures ok { OnOk result (runs.new.items ≡ run_behind runs.old.items run) }
    ensures err { OnErr result (runs.new.items ≡ runs.old.items) }
{
    let count = runs.len();
    if count > 0 && is_one_run(run.entry, runs[count - 1].entry) {
        runs[count - 1].times += run.times;
        return Ok(());
    }
    runs.push(run)?;
    Ok(())
}

/// Whether both are ticks of one rank.
fn is_one_run(a: Entry, b: Entry) -> bool
    ensures { result ≡ are_one_run a b }
{
    match (a, b) {
        (Entry::Tick { rank }, Entry::Tick { rank: other }) => rank == other,
        _ => false,
    }
}
