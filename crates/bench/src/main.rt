//! The work that the scripts of `bench/` time: a word for each figure, how large the work is, and how often it is done.
#![tactic(auto)]

mod failed;
mod heaps;
mod images;
mod lexing;
mod libraries;
mod matches;
mod memories;
mod parsing;
mod plans;
mod schedules;
mod sweeps;
mod work;

use failed::Failed;
use std::alloc::Global;
use std::env;
use std::process::ExitCode;
use work::{SMALL, Work};

/// Takes a figure's name, two numbers and maybe a kind, or `all`, and prints what was counted.
fn main(rt: HostRuntime) -> ExitCode {
    let alloc = rt.alloc();
    let words = match env::args(&rt) {
        Ok(args) => args.skip(1).collect(alloc),
        Err(_) => return Failed::Words.code(),
    };
    let told = match words {
        Ok(words) => told_of(alloc, &words),
        Err(_) => Err(Failed::Memory),
    };
    match told {
        Ok(text) => match print!(rt; "{text}") {
            Ok(()) => ExitCode::SUCCESS,
            Err(_) => Failed::Output.code(),
        },
        Err(failed) => failed.code(),
    }
}

/// The lines of what the words ask for.
fn told_of(alloc: Global, words: &Vec<String>) -> Result<String, Failed> {
    let mut text = String::new(alloc);
    match words.as_slice() {
        [all] if all.as_str() == "all" => {
            for (figure, size, turns) in SMALL {
                let work = Work {
                    figure,
                    size,
                    turns,
                };
                tell(&mut text, alloc, work)?;
            }
        }
        _ => match Work::of(words.as_slice()) {
            Some(work) => tell(&mut text, alloc, work)?,
            None => return Err(Failed::Words),
        },
    }
    Ok(text)
}

/// Does the work, and appends its line.
fn tell(text: &mut String, alloc: Global, work: Work) -> Result<(), Failed> {
    let (count, gathered) = work.done(alloc)?;
    let (name, unit) = work.names();
    write!(text, "{name}: {count} {unit}")?;
    if let Some(members) = gathered {
        write!(text, ", {members} members gathered")?;
    }
    text.push_str("\n")?;
    Ok(())
}
