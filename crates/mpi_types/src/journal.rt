//! The journal of a history.

ghost use Rattle.std.specs.Prelude.{◌≡◌, ◌++◌, OnOk};
ghost use Rattle.mpi_types.specs.Journal.{header_line, run_line, run_lines};

use crate::{Entry, EntryRun};
use am_base::{Bytes, decimal};
use std::alloc::AllocError;

/// Appends the journal's first line, with the number of ranks and the bound on ticks. After an error `out` is only to
/// be dropped.
pub fn append_header(out: &mut Bytes, ranks: u16, bound: u64) -> Result<(), AllocError>
    ensures { OnOk result (out.new ≡ out.old ++ header_line ranks bound) }
{
    out.append(b"ampi-journal 1 ")?;
    decimal(out, u64::from(ranks))?;
    out.append(b" ")?;
    decimal(out, bound)?;
    out.append(b"\n")
}

/// Appends the journal's lines of these runs. After an error `out` is only to be dropped.
pub fn append_runs(out: &mut Bytes, runs: &[EntryRun]) -> Result<(), AllocError>
    ensures { OnOk result (out.new ≡ out.old ++ run_lines runs.now) }
{
    for run in runs {
        append_run(out, *run)?;
    }
    Ok(())
}

fn append_run(out: &mut Bytes, run: EntryRun) -> Result<(), AllocError>
    ensures { OnOk result (out.new ≡ out.old ++ run_line run.entry run.times) }
{
    match run.entry {
        Entry::Tick { rank } => {
            out.append(b"T ")?;
            decimal(out, u64::from(rank.0))?;
            out.append(b" ")?;
            decimal(out, run.times)?;
        }
        Entry::Match {
            rank,
            request,
            sender,
        } => {
            out.append(b"M ")?;
            decimal(out, u64::from(rank.0))?;
            out.append(b" ")?;
            decimal(out, u64::from(request))?;
            out.append(b" ")?;
            decimal(out, u64::from(sender.0))?;
        }
        Entry::Gather { rank } => {
            out.append(b"G ")?;
            decimal(out, u64::from(rank.0))?;
        }
        Entry::Commit => out.append(b"C")?,
    }
    out.append(b"\n")
}
