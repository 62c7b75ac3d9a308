//! A rank's memory: its addresses, the bytes that it may reach, and what its heap is.
#![tactic(auto)]

pub mod access;
mod flat;
mod heap;
mod kinds;
mod layout;
mod lists;
mod mem;
mod numbers;
mod operators;
mod parts;
mod run;
mod width;

pub use flat::FlatMem;
pub use heap::{
    Block, MOST_BLOCKS, computed_fit_is_first, first_fit, first_fit_is_one, spelled_heap_is_one,
};
pub use kinds::{Kind, convert, extended, usual, words_are_extended};
pub use layout::{
    CONTROL_START, DESCRIPTORS_START, GLOBALS_START, HEAP_START, PAGE_BYTES, PAGES, RANGE_BYTES,
    STACK_START, areas_are_in_the_range, base, is_accessible, place_of, place_of_bytes,
};
pub use lists::{OffsetList, WordList};
pub use mem::{BadAddress, Mem};
pub use numbers::{read_number, stored_numbers_are_loaded, write_number};
pub use operators::{Binary, Unary, operate, operate_one, words_are_given};
pub use run::{CallOut, Ending, LibOut, LibStop, Output, Regs, Segment, Trap, lines_are_the_cut};
pub use width::Width;
