//! How many ticks a rank took in its last intervals.

ghost use Rattle.std.specs.Prelude.{◌≡◌, ◌+◌, ◌≤◌, ◌++◌, ◌∷◌, [], length, IfOk};
ghost use Rattle.circular_buffer.specs.Buffer.{keep_last};

use circular_buffer::HeapCircularBuffer;
use std::alloc::{AllocError, Global};
use std::marker::Model;

/// How many closed intervals a window has at most.
pub const INTERVALS: usize = 8;

/// The ticks of the last closed intervals, at most 8, the oldest first. An interval runs from one balance to the next.
#[derive(Drop)]
pub struct Window {
    intervals: HeapCircularBuffer<u64>,
}

impl Model for Window {
    ghost use Rattle.std.specs.Prelude.{◌≡◌, ◌≤◌, List, ℕ, length};

    ghost Value = { List ℕ };

    ghost view = { λ w. w.intervals.items };

    ghost invariant = { λ w. (w.intervals.capacity ≡ 8) × (length w.intervals.items ≤ 8) };
}

impl Window {
    /// The window before any interval is closed.
    pub fn new(alloc: Global) -> Result<Window, AllocError>
        ensures { IfOk result (λ w. w ≡ []) }
    {
        let intervals = HeapCircularBuffer::with_capacity(alloc, INTERVALS)?;
        Ok(Window { intervals })
    }

    /// The window of these closed intervals, the oldest first.
    pub fn of(alloc: Global, intervals: &[u64]) -> Result<Window, AllocError>
        requires { length intervals.now ≤ INTERVALS }
        ensures { IfOk result (λ w. w ≡ intervals.now) }
    {
        let mut window = HeapCircularBuffer::with_capacity(alloc, INTERVALS)?;
        let _count = window.fill_from_slice(intervals);
        Ok(Window { intervals: window })
    }

    /// One more interval is closed. Where there are 8, the oldest is forgotten.
    pub fn close(&mut self, ticks: u64)
        ensures { self.new ≡ keep_last 8 (self.old ++ ticks ∷ []) }
    {
        let _forgotten = self.intervals.push_back(ticks);
    }

    /// How many intervals it has.
    pub fn len(&self) -> usize
        ensures value { result ≡ length self.now }
        ensures few { result ≤ INTERVALS }
    {
        self.intervals.len()
    }

    /// The intervals in two parts, the older ones first.
    pub fn parts(&self) -> (&[u64], &[u64])
        ensures value { result.0.now ++ result.1.now ≡ self.now }
        ensures few { length result.0.now + length result.1.now ≤ INTERVALS }
    {
        self.intervals.as_slices()
    }
}

/// The ticks of a rank's current interval, and those of its last closed ones.
#[derive(Drop)]
pub struct Load {
    pub current: u64,
    pub window: Window,
}
