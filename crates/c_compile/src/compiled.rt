//! What files are compiled to.

use c_types::Program;
use rank_range::Segment;
use vm_code::Code;

/// A typed program, the bytes with which its globals begin, and its code.
#[derive(Drop)]
pub struct Compiled {
    pub program: Program,
    pub segment: Segment,
    pub code: Code,
}
