//! The host's files and its standard output. What they hold and take is told by no contract.
ghost use Rattle.std.specs.Prelude.{◌≡◌, ℕ, ◌+◌, ◌-◌, ◌^◌, ◌<◌, ◌≤◌, List, ◌++◌, length, take, None, IfOk, IfSome, OnOk, OnErr, vec_len};
ghost use Rattle.std.specs.Io.KnownBytes.{Appends, Consumes, IsAtEnd};
ghost use Rattle.am_io.specs.Pieces.{AppendsPart};

use crate::{Files, LoadError, Sink, SinkFailed};
use std::alloc::{AllocError, Global};
use std::fs::File;
use std::io::{self, Read, Write};
use std::marker::Model;
use std::path::AsPath;

/// The most bytes that one read asks for.
const READ_SIZE: usize = 4096;

/// The files of the host.
#[derive(Drop)]
pub struct FsFiles<'a, R> {
    rt: &'a R,
    faults: u64,
}

impl<'a, R> Model for FsFiles<'a, R> {
    ghost use Rattle.std.specs.Prelude.{ℕ};

    ghost Value = { ℕ };

    ghost view = { λ f. f.faults };
}

impl<'a, R> FsFiles<'a, R> {
    pub fn new(rt: &'a R) -> FsFiles<'a, R>
        ensures { result ≡ 0 }
    {
        FsFiles { rt, faults: 0 }
    }

    /// How many loads have failed.
    pub fn faults(&self) -> u64
        ensures { result ≡ self.now }
    {
        self.faults
    }
}

impl<R: std::rt::Files> Files for FsFiles<'_, R> {
    ghost held = { λ _. None };

    ghost faults = { λ f. f };

    fn load(&mut self, alloc: Global, name: &str, limit: u64) -> Result<Vec<u8>, LoadError> {
        match read_file(self.rt, alloc, name, limit) {
            Ok(bytes) => Ok(bytes),
            Err(LoadError::Memory) => Err(LoadError::Memory),
            Err(LoadError::Failed) => {
                self.faults = self.faults.saturating_add(1);
                Err(LoadError::Failed)
            }
        }
    }
}

fn read_file<R: std::rt::Files>(
    rt: &R,
    alloc: Global,
    name: &str,
    limit: u64,
) -> Result<Vec<u8>, LoadError>
    ensures { IfOk result (λ v. length v.items ≤ limit + 1) }
{
    match File::open(rt, name) {
        Ok(mut file) => read_front(&mut file, alloc, limit),
        Err(_) => Err(LoadError::Failed),
    }
}

/// Reads to the end, or one byte more than `limit`.
pub(crate) fn read_front<F: Read>(
    file: &mut F,
    alloc: Global,
    limit: u64,
) -> Result<Vec<u8>, LoadError>
    ensures within { IfOk result (λ v. length v.items ≤ limit + 1) }
    ensures bytes { IfOk result (λ v. IfSome (F.remaining file.old) (λ all. v.items ≡ take (limit + 1) all)) }
{
    let mut bytes = Vec::new(alloc);
    while bytes.len() as u64 <= limit {
        let left = limit - bytes.len() as u64;
        if read_more(file, &mut bytes, left)? == 0 {
            break;
        }
    }
    Ok(bytes)
}

/// Appends what one read gives, at most one byte more than `left`, and returns how many bytes that were.
fn read_more<F: Read>(file: &mut F, bytes: &mut Vec<u8>, left: u64) -> Result<usize, LoadError>
    ensures count { IfOk result (λ n. vec_len bytes.new ≡ vec_len bytes.old + n) }
    ensures bound { IfOk result (λ n. n ≤ left + 1) }
    ensures taken { OnOk result ((piece : List ℕ) × (bytes.new.items ≡ bytes.old.items ++ piece)
        × Consumes (F.remaining file.old) (F.remaining file.new) piece) }
    ensures end { IfOk result (λ n. n ≡ 0 → IsAtEnd (F.remaining file.new)) }
{
    let mut buffer = [0u8; READ_SIZE];
    let most = if left < READ_SIZE as u64 {
        left as usize + 1
    } else {
        READ_SIZE
    };
    match file.read(&mut buffer[..most]) {
        Ok(count) => match bytes.extend_from_slice(&buffer[..count]) {
            Ok(()) => Ok(count),
            Err(AllocError) => Err(LoadError::Memory),
        },
        Err(_) => Err(LoadError::Failed),
    }
}

/// Writes all of the piece.
pub(crate) fn write_whole<W: Write>(writer: &mut W, piece: &[u8]) -> Result<(), SinkFailed>
    ensures ok { OnOk result (Appends (W.contents writer.old) (W.contents writer.new) piece.now) }
    ensures part { OnErr result (AppendsPart (W.contents writer.old) (W.contents writer.new) piece.now) }
{
    let mut done = 0;
    while done < piece.len() {
        match writer.write(&piece[done..]) {
            Ok(0) | Err(_) => return Err(SinkFailed),
            Ok(count) => done += count,
        }
    }
    Ok(())
}

/// The standard output.
#[derive(Drop)]
pub struct OutSink<'a, P> {
    out: &'a P,
    faults: u64,
}

impl<'a, P> Model for OutSink<'a, P> {
    ghost use Rattle.std.specs.Prelude.{ℕ};

    ghost Value = { ℕ };

    ghost view = { λ s. s.faults };
}

impl<'a, P> OutSink<'a, P> {
    pub fn new(out: &'a P) -> OutSink<'a, P>
        ensures { result ≡ 0 }
    {
        OutSink { out, faults: 0 }
    }

    /// How many puts have failed.
    pub fn faults(&self) -> u64
        ensures { result ≡ self.now }
    {
        self.faults
    }
}

impl<P: Print> Sink for OutSink<'_, P> {
    ghost written = { λ _. None };

    ghost faults = { λ s. s };

    ghost spare = { λ _. 2 ^ 64 - 1 };

    fn room(&mut self, _n: usize) -> Result<(), AllocError> {
        Ok(())
    }

    fn put(&mut self, piece: &[u8]) -> Result<(), SinkFailed> {
        let mut writer = io::writer(self.out);
        match write_whole(&mut writer, piece) {
            Ok(()) => Ok(()),
            Err(SinkFailed) => {
                self.faults = self.faults.saturating_add(1);
                Err(SinkFailed)
            }
        }
    }
}

/// A file of the host, which the first put makes, and in whose place nothing is left of an older one.
#[derive(Drop)]
pub struct FileSink<'a, R: std::rt::Files, N: AsPath> {
    rt: &'a R,
    name: N,
    file: Option<R::File>,
    faults: u64,
}

impl<'a, R: std::rt::Files, N: AsPath> Model for FileSink<'a, R, N> {
    ghost use Rattle.am_io.specs.Host.{FileSinkState};

    ghost Value = { FileSinkState };

    ghost view = { λ s. record { name = N.path_text s.name; faults = s.faults } };
}

impl<'a, R: std::rt::Files, N: AsPath> FileSink<'a, R, N> {
    /// The name is a `&str`, or a `String` that the sink then owns.
    pub fn new(rt: &'a R, name: N) -> FileSink<'a, R, N>
        ensures named { result.name ≡ N.path_text name }
        ensures none_failed { result.faults ≡ 0 }
    {
        FileSink {
            rt,
            name,
            file: None,
            faults: 0,
        }
    }

    /// How many puts have failed.
    pub fn faults(&self) -> u64
        ensures { result ≡ self.now.faults }
    {
        self.faults
    }
}

impl<R: std::rt::Files, N: AsPath> Sink for FileSink<'_, R, N> {
    ghost written = { λ _. None };

    ghost faults = { λ s. s.faults };

    ghost spare = { λ _. 2 ^ 64 - 1 };

    fn room(&mut self, _n: usize) -> Result<(), AllocError> {
        Ok(())
    }

    fn put(&mut self, piece: &[u8]) -> Result<(), SinkFailed> {
        match write_to(self.rt, self.name.path_text(), &mut self.file, piece) {
            Ok(()) => Ok(()),
            Err(SinkFailed) => {
                self.faults = self.faults.saturating_add(1);
                Err(SinkFailed)
            }
        }
    }
}

/// Writes the piece to the open file, or to one that it makes.
fn write_to<R: std::rt::Files>(
    rt: &R,
    name: &str,
    file: &mut Option<R::File>,
    piece: &[u8],
) -> Result<(), SinkFailed> {
    match file {
        Some(open) => write_whole(open, piece),
        None => {
            let Ok(mut made) = File::create(rt, name) else {
                return Err(SinkFailed);
            };
            let written = write_whole(&mut made, piece);
            *file = Some(made);
            written
        }
    }
}
