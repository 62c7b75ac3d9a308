//! The words of the command line, as `ampi run [--ranks N] [--ticks N] [--journal FILE] FILE...` and `ampi code FILE...` take them.
#![tactic(auto)]

mod command;
mod reading;

pub use command::{
    Command, WordsError, code_files, files_are_few, journal_name, one_command, one_meaning,
    ranks_are_few, read_words, ticks_are_bounded,
};
