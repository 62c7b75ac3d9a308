//! What accepted words ask for.
ghost use Rattle.std.specs.Prelude.{◌≡◌, ◌≤◌, length, map, string_bytes, None, Some, IfOk, IfSome, IfNone, IsErrOf};
ghost use Rattle.run_words.specs.Words.{AskForRun, AskForCode};
ghost use Rattle.run_words.specs.Asks.{AreAccepted, bytes_of_words, IsAskedBy, IsJournalOf};

use crate::reading::{are_files, files_in, run_of};
use std::alloc::{AllocError, Global};
use thiserror::Error;

/// What accepted words ask for.
#[derive(Debug, Drop)]
pub struct Command {
    /// The names of its files, in order.
    pub files: Vec<String>,
    pub ranks: u16,
    /// The bound on each rank's ticks.
    pub ticks: u64,
}

/// Why no command was read.
#[derive(Debug, Drop, Error)]
pub enum WordsError {
    #[error("usage: ampi run [--ranks N] [--ticks N] [--journal FILE] FILE...")]
    Bad,
    #[error("out of memory")]
    Memory,
}

impl From<AllocError> for WordsError {
    ghost use Rattle.std.specs.Prelude.{◌≡◌};
    ghost use Rattle.run_words.specs.declared.command.WordsError.TheVariants.{Memory};

    ghost from_gives = { λ _ e. e ≡ Memory };

    fn from(_error: AllocError) -> WordsError {
        WordsError::Memory
    }
}

/// Reads the words of a command line, without the program's name. Only the files' names take memory.
pub fn read_words(alloc: Global, words: &Vec<String>) -> Result<Command, WordsError>
    ensures accepted { IfOk result (IsAskedBy (bytes_of_words words.now)) }
    ensures bad { IsErrOf result WordsError.Bad → (asked : _) → AskForRun (bytes_of_words words.now) asked → ⊥ }
    ensures memory { IsErrOf result WordsError.Memory → AreAccepted (bytes_of_words words.now) }
{
    let run = run_of(words).ok_or(WordsError::Bad)?;
    Ok(Command {
        files: files_in(alloc, run.parts)?,
        ranks: run.ranks,
        ticks: run.ticks,
    })
}

/// The value of `--journal` of accepted words, and `None` too for refused words. It takes no memory.
pub fn journal_name(words: &Vec<String>) -> Option<&str>
    ensures some { IfSome result (λ name. IsJournalOf (bytes_of_words words.now) (Some name.now)) }
    ensures none { IfNone result ((asked : _) → AskForRun (bytes_of_words words.now) asked → asked.journal ≡ None) }
{
    run_of(words)?.journal
}

/// The names of the files of which accepted words want the listing, and `None` for other words. It takes no memory.
pub fn code_files(words: &Vec<String>) -> Option<&[String]>
    ensures some { IfSome result (λ files. AskForCode (bytes_of_words words.now) (map string_bytes files.now)) }
    ensures none { IfNone result ((files : _) → AskForCode (bytes_of_words words.now) files → ⊥) }
{
    let (first, files) = words.split_first()?;
    if first.as_str() != "code" {
        return None;
    }
    if !are_files(files) {
        return None;
    }
    Some(files)
}

/// A law: words ask for a run or for a listing, not for both, and for that of one list of files at most.
pub fn one_command()
    ensures apart { (words : _) (asked : _) (files : _) → AskForRun words asked → AskForCode words files → ⊥ }
    ensures one { (words : _) (a b : _) → AskForCode words a → AskForCode words b → a ≡ b }
{}

/// A law: words ask for one run at most.
pub fn one_meaning()
    ensures { (words : _) (a b : _) → AskForRun words a → AskForRun words b
        → (a.files ≡ b.files) × (a.ranks ≡ b.ranks) × (a.ticks ≡ b.ticks) × (a.journal ≡ b.journal) }
{}

/// A law: words ask for 1 to 16 files.
pub fn files_are_few()
    ensures run { (words : _) (asked : _) → AskForRun words asked → (1 ≤ length asked.files) × (length asked.files ≤ 16) }
    ensures code { (words : _) (files : _) → AskForCode words files → (1 ≤ length files) × (length files ≤ 16) }
{}

/// A law: words ask for 1 to 256 ranks.
pub fn ranks_are_few()
    ensures { (words : _) (asked : _) → AskForRun words asked → (1 ≤ asked.ranks) × (asked.ranks ≤ 256) }
{}

/// A law: words ask for at most 16,000,000 ticks.
pub fn ticks_are_bounded()
    ensures { (words : _) (asked : _) → AskForRun words asked → asked.ticks ≤ 16000000 }
{}
