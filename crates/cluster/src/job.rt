//! What is run, and how.

use am_base::Bytes;
use c_types::Program;
use rank_range::Segment;
use vm_code::Code;

/// A program with its segment and its code, and how it is run.
#[derive(Clone, Copy)]
pub struct Job<'a> {
    pub program: &'a Program,
    pub segment: &'a Segment,
    pub code: &'a Code,
    /// The names of its files, by their numbers.
    pub files: &'a [Bytes],
    /// How many ranks run it.
    pub ranks: u16,
    /// How many ticks each may take.
    pub bound: u64,
}
