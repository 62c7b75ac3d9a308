//! The texts of a run, put one after another.
ghost use Rattle.std.specs.Prelude.{◌≡◌, ◌≤◌, ◌⊎◌, IfOk, OnOk, OnErr, IsErrOf};
ghost use Rattle.am_io.specs.Faults.{Rose};
ghost use Rattle.cluster.specs.Job.{IsJob, setting};
ghost use Rattle.mpi_types.specs.Journal.{header_line};
ghost use Rattle.ampi.specs.Puts.{puts};
ghost use Rattle.ampi.specs.Runs.{PutsRun, PutsRunPart};

use am_base::Bytes;
use am_io::{SayError, Sink, say};
use cluster::{Job, run};
use mpi_types::append_header;
use std::alloc::{AllocError, Global};
use w_model::End;

/// Runs the program, and puts the journal, the lines and the report.
pub fn put_run<K: Sink, J: Sink>(
    alloc: Global,
    job: &Job,
    out: &mut K,
    journal: &mut J,
) -> Result<End, SayError>
    requires job { IsJob job.now.program.now job.now.segment.now job.now.code.now }
    requires few { job.now.ranks ≤ 256 }
    requires bounded { job.now.bound ≤ 16000000 }
    ensures run { IfOk result (PutsRun job.now.files.now (setting job.now)
        (puts (K.written out.old) (K.written out.new) (J.written journal.old) (J.written journal.new))) }
    ensures part { OnErr result (PutsRunPart job.now.files.now (setting job.now)
        (puts (K.written out.old) (K.written out.new) (J.written journal.old) (J.written journal.new))) }
    ensures failed { IsErrOf result SayError.Failed
        → Rose (K.faults out.old) (K.faults out.new) ⊎ Rose (J.faults journal.old) (J.faults journal.new) }
    ensures kept { (result ≡ Err SayError.Failed → ⊥)
        → (K.faults out.new ≡ K.faults out.old) × (J.faults journal.new ≡ J.faults journal.old) }
{
    let header = header_of(alloc, job.ranks, job.bound)?;
    say(journal, header.as_slice())?;
    let told = run(alloc, job)?;
    say(journal, told.journal.as_slice())?;
    say(out, told.lines.as_slice())?;
    say(out, told.report.as_slice())?;
    Ok(told.end)
}

fn header_of(alloc: Global, ranks: u16, bound: u64) -> Result<Bytes, AllocError>
    ensures { IfOk result (λ header. header ≡ header_line ranks bound) }
{
    let mut header = Bytes::new(alloc);
    append_header(&mut header, ranks, bound)?;
    Ok(header)
}
