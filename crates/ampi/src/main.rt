//! `ampi` runs whole-number C programs that call MPI, each rank as a virtual rank of its own.
#![tactic(auto)]

mod host;
mod loading;
mod run;
mod status;
mod sure;
mod telling;
#[cfg(test)]
mod tests;
mod top;

use am_io::{FsFiles, OutSink};
pub use host::{journal_sink, words_of};
pub use status::Status;
use std::alloc::{AllocError, Global};
use std::env;
use std::process::ExitCode;
use std::rt::{Env, Files};
pub use sure::ampi_surely;
pub use top::ampi;

fn main(rt: HostRuntime) -> ExitCode {
    ExitCode::from(on_host(&rt, rt.alloc()).number())
}

/// Runs on the host's command line, files and standard output.
fn on_host<R: Env + Files + Print + AllocGlobal>(rt: &R, alloc: Global) -> Status {
    match words_of(alloc, env::args(rt)) {
        Ok(words) => {
            let mut journal = journal_sink(rt, &words);
            ampi(
                alloc,
                &words,
                &mut FsFiles::new(rt),
                &mut OutSink::new(rt),
                &mut journal,
            )
        }
        Err(AllocError) => Status::NoMemory,
    }
}
