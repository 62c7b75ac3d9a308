//! The innermost call while it is worked on.

use crate::operands::Operands;

/// The call that is under way, taken out of its record: the place of its next instruction, where it returns to, where its frame
/// begins, its operands, and the number of its record.
#[derive(Drop)]
pub struct Work {
    pub place: u64,
    pub back: u64,
    pub start: u64,
    pub operands: Operands,
    pub number: u16,
}
