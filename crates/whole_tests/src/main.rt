//! Plays cases on the layers, each by its public calls, and shows what they answer. The cases stand in data files; what
//! must come stands in `stdout`.
#![tactic(auto)]

mod books;
mod cases;
mod collectives;
mod commands;
mod fields;
mod heaps;
mod lexing;
mod libraries;
mod lines;
mod memory;
mod names;
mod outside;
mod parsing;
mod parts;
mod plans;
mod schedules;
mod stop;
mod tables;
mod trees;
mod word;

use am_io::{Files as _, FsFiles, LoadError, OutSink, say};
use cases::shown;
use outside::show_host;
use std::alloc::Global;
use std::env;
use std::process::ExitCode;
use std::rt::{Env, Files};
use stop::Stop;
use word::{ALL, Word};

/// The longest data file, in bytes.
const MOST_BYTES: u64 = 1 << 20;

fn main(rt: HostRuntime) -> ExitCode {
    match on_host(&rt, rt.alloc()) {
        Ok(()) => ExitCode::SUCCESS,
        Err(stop) => {
            let _ = eprintln!(rt; "whole_tests: {stop}");
            ExitCode::from(stop.status())
        }
    }
}

/// Plays what each word of the command line names.
fn on_host<R: Env + Files + Print + AllocGlobal>(rt: &R, alloc: Global) -> Result<(), Stop> {
    let Ok(words) = env::args(rt) else {
        return Err(Stop::Arguments);
    };
    for word in words.skip(1) {
        play_named(rt, alloc, word.as_str())?;
    }
    Ok(())
}

fn play_named<R: Files + Print>(rt: &R, alloc: Global, name: &str) -> Result<(), Stop> {
    if name == "all" {
        for word in ALL {
            play(rt, alloc, word)?;
        }
        return Ok(());
    }
    match Word::of(name) {
        Some(word) => play(rt, alloc, word),
        None => Err(Stop::Words),
    }
}

/// Plays the cases of a word's data file, and prints them with their answers.
fn play<R: Files + Print>(rt: &R, alloc: Global, word: Word) -> Result<(), Stop> {
    let text = text_of(rt, alloc, word.file())?;
    word.call_laws();
    let mut page = shown(alloc, word, text.as_str())?;
    if word.is_outside() {
        show_host(rt, alloc, &mut page)?;
    }
    let mut sink = OutSink::new(rt);
    say(&mut sink, page.as_bytes())?;
    Ok(())
}

fn text_of<R: Files>(rt: &R, alloc: Global, name: &str) -> Result<String, Stop> {
    let mut files = FsFiles::new(rt);
    match files.load(alloc, name, MOST_BYTES) {
        Ok(bytes) if bytes.len() as u64 <= MOST_BYTES => {
            String::from_utf8(bytes).map_err(|_| Stop::File)
        }
        Err(LoadError::Memory) => Err(Stop::Memory),
        Ok(_) | Err(LoadError::Failed) => Err(Stop::File),
    }
}
