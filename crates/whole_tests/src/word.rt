//! The words of the command line: one for each layer.

use am_base::puts_are_taken_back;
use isomalloc::other_bytes_tell_nothing;
use mpi_types::{acceptance_is_tested, insertion_is_one_place, splits_are_ordered};
use rank_range::access::texts_end_at_a_zero;
use rank_range::{
    areas_are_in_the_range, computed_fit_is_first, first_fit_is_one, lines_are_the_cut,
    spelled_heap_is_one, stored_numbers_are_loaded, words_are_extended,
};
use run_words::{files_are_few, one_meaning, ranks_are_few, ticks_are_bounded};
use schedule::{printed_is_read, turns_suffice};

/// A layer.
#[derive(Clone, Copy)]
pub enum Word {
    Fields,
    Names,
    Files,
    Words,
    Lex,
    Parse,
    Schedule,
    Plans,
    Memory,
    Heap,
    Library,
    Match,
    Collect,
}

/// The layers in the order in which `all` plays them.
pub const ALL: [Word; 13] = [
    Word::Fields,
    Word::Names,
    Word::Files,
    Word::Words,
    Word::Lex,
    Word::Parse,
    Word::Schedule,
    Word::Plans,
    Word::Memory,
    Word::Heap,
    Word::Library,
    Word::Match,
    Word::Collect,
];

impl Word {
    pub(crate) fn of(name: &str) -> Option<Word> {
        for word in ALL {
            if word.name() == name {
                return Some(word);
            }
        }
        None
    }

    pub(crate) fn name(self) -> &'static str {
        match self {
            Word::Fields => "fields",
            Word::Names => "names",
            Word::Files => "files",
            Word::Words => "words",
            Word::Lex => "lex",
            Word::Parse => "parse",
            Word::Schedule => "schedule",
            Word::Plans => "plans",
            Word::Memory => "memory",
            Word::Heap => "heap",
            Word::Library => "library",
            Word::Match => "match",
            Word::Collect => "collect",
        }
    }

    /// The name of its data file.
    pub(crate) fn file(self) -> &'static str {
        match self {
            Word::Fields => "fields.txt",
            Word::Names => "names.txt",
            Word::Files => "files.txt",
            Word::Words => "words.txt",
            Word::Lex => "lex.txt",
            Word::Parse => "parse.txt",
            Word::Schedule => "schedule.txt",
            Word::Plans => "plans.txt",
            Word::Memory => "memory.txt",
            Word::Heap => "heap.txt",
            Word::Library => "library.txt",
            Word::Match => "match.txt",
            Word::Collect => "collect.txt",
        }
    }

    /// Whether it is the layer of the host's files.
    pub(crate) fn is_outside(self) -> bool {
        matches!(self, Word::Files)
    }

    /// Calls the layer's laws, which do nothing when they run.
    pub(crate) fn call_laws(self) {
        match self {
            Word::Fields => puts_are_taken_back(),
            Word::Words => {
                one_meaning();
                files_are_few();
                ranks_are_few();
                ticks_are_bounded();
            }
            Word::Lex => c_lex::one_answer(),
            Word::Parse => c_ast::each_has_a_leaf(),
            Word::Schedule => {
                schedule::one_answer();
                printed_is_read();
                turns_suffice();
            }
            Word::Memory => {
                stored_numbers_are_loaded();
                areas_are_in_the_range();
                texts_end_at_a_zero();
                words_are_extended();
                lines_are_the_cut();
            }
            Word::Heap => {
                first_fit_is_one();
                computed_fit_is_first();
                spelled_heap_is_one();
                other_bytes_tell_nothing();
            }
            Word::Match => acceptance_is_tested(),
            Word::Collect => {
                splits_are_ordered();
                insertion_is_one_place();
            }
            Word::Names | Word::Files | Word::Plans | Word::Library => {}
        }
    }
}
