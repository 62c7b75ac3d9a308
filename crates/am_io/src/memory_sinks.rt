//! Bytes in memory that are written to, and writes that fail.
ghost use Rattle.std.specs.Prelude.{◌≡◌, ◌+◌, ◌-◌, ◌^◌, ◌≤◌, [], ◌∷◌, ◌++◌, ◌↔◌, length, None, Some, IsTrue, IsOk, IsErr, OnOk, OnErr};
ghost use Rattle.am_io.specs.Memory.{is_failing, after_put};

use crate::{Sink, SinkFailed};
use std::alloc::{AllocError, Global};
use std::marker::Model;

/// Bytes in memory, to which every piece is written.
#[derive(Drop)]
pub struct SureSink {
    bytes: Vec<u8>,
}

impl Model for SureSink {
    ghost use Rattle.std.specs.Prelude.{◌-◌, vec_len, vec_capacity};
    ghost use Rattle.am_io.specs.Memory.{SinkState};

    ghost Value = { SinkState };

    ghost view = { λ s. record { bytes = s.bytes.items; spare = vec_capacity s.bytes - vec_len s.bytes } };
}

impl SureSink {
    pub fn new(alloc: Global) -> SureSink
        ensures { result.bytes ≡ [] }
    {
        SureSink {
            bytes: Vec::new(alloc),
        }
    }

    /// What was written so far.
    pub fn bytes(&self) -> &[u8]
        ensures { result.now ≡ self.now.bytes }
    {
        self.bytes.as_slice()
    }
}

impl Sink for SureSink {
    ghost written = { λ s. Some s.bytes };

    ghost faults = { λ _. 0 };

    ghost spare = { λ s. s.spare };

    fn room(&mut self, n: usize) -> Result<(), AllocError> {
        self.bytes.reserve(n)
    }

    fn put(&mut self, piece: &[u8]) -> Result<(), SinkFailed>
        requires { length piece.now ≤ self.old.spare }
        ensures bytes { self.new.bytes ≡ self.old.bytes ++ piece.now }
        ensures spare { self.old.spare ≤ self.new.spare + length piece.now }
        ensures sure { IsOk result }
    {
        self.bytes.extend_from_slice(piece).unwrap();
        Ok(())
    }
}

/// Bytes in memory, to which some pieces are written in part.
#[derive(Drop)]
pub struct MemSink {
    bytes: Vec<u8>,
    faults: u64,
    puts: u64,
    failing: Vec<u64>,
    taken: usize,
}

impl Model for MemSink {
    ghost use Rattle.std.specs.Prelude.{◌-◌, vec_len, vec_capacity};
    ghost use Rattle.am_io.specs.Memory.{MemSinkState};

    ghost Value = { MemSinkState };

    ghost view = { λ s. record {
      bytes = s.bytes.items;
      spare = vec_capacity s.bytes - vec_len s.bytes;
      faults = s.faults;
      puts = s.puts;
      failing = s.failing.items;
      taken = s.taken;
    } };
}

impl MemSink {
    pub fn new(alloc: Global) -> MemSink
        ensures { result ≡ record { bytes = []; spare = 0; faults = 0; puts = 0; failing = []; taken = 0 } }
    {
        MemSink {
            bytes: Vec::new(alloc),
            faults: 0,
            puts: 0,
            failing: Vec::new(alloc),
            taken: 0,
        }
    }

    /// Lets the put of that number fail, counted from 0.
    pub fn fail_at(&mut self, put: u64) -> Result<(), AllocError>
        ensures ok { OnOk result (self.new ≡ record self.old { failing = self.old.failing ++ put ∷ [] }) }
        ensures err { OnErr result (self.new ≡ self.old) }
    {
        self.failing.push(put)?;
        Ok(())
    }

    /// Lets each put that fails still write that many bytes of its piece, or all if it has fewer.
    pub fn takes(&mut self, count: usize)
        ensures { self.new ≡ record self.old { taken = count } }
    {
        self.taken = count;
    }

    /// What was written so far.
    pub fn bytes(&self) -> &[u8]
        ensures { result.now ≡ self.now.bytes }
    {
        self.bytes.as_slice()
    }

    /// How many puts have failed.
    pub fn faults(&self) -> u64
        ensures { result ≡ self.now.faults }
    {
        self.faults
    }

    /// How many puts there were.
    pub fn puts(&self) -> u64
        ensures { result ≡ self.now.puts }
    {
        self.puts
    }
}

impl Sink for MemSink {
    ghost written = { λ s. Some s.bytes };

    ghost faults = { λ s. s.faults };

    ghost spare = { λ s. s.spare };

    fn room(&mut self, n: usize) -> Result<(), AllocError>
        ensures ok { OnOk result (n ≤ self.new.spare) }
        ensures err { OnErr result (self.new.spare ≡ self.old.spare) }
        ensures others { self.new ≡ record self.old { spare = self.new.spare } }
    {
        self.bytes.reserve(n)
    }

    fn put(&mut self, piece: &[u8]) -> Result<(), SinkFailed>
        requires { length piece.now ≤ self.old.spare }
        ensures failed { IsErr result ↔ IsTrue (is_failing self.old) }
        ensures after { self.new ≡ after_put self.old piece.now self.new.spare }
        ensures spare { self.old.spare ≤ self.new.spare + length piece.now }
        ensures later { self.old.faults ≤ self.new.faults }
    {
        let fails = self.failing.contains(&self.puts);
        self.puts = self.puts.saturating_add(1);
        if fails {
            self.faults = self.faults.saturating_add(1);
            let end = self.taken.min(piece.len());
            self.bytes.extend_from_slice(&piece[..end]).unwrap();
            return Err(SinkFailed);
        }
        self.bytes.extend_from_slice(piece).unwrap();
        Ok(())
    }
}

/// A sink that takes every piece and keeps none.
#[derive(Drop)]
pub struct NullSink;

impl Sink for NullSink {
    ghost written = { λ _. None };

    ghost faults = { λ _. 0 };

    ghost spare = { λ _. 2 ^ 64 - 1 };

    fn room(&mut self, _n: usize) -> Result<(), AllocError> {
        Ok(())
    }

    fn put(&mut self, _piece: &[u8]) -> Result<(), SinkFailed> {
        Ok(())
    }
}
