//! What the program is handed on the host.
ghost use Rattle.std.specs.Prelude.{◌≡◌, [], drop, None, IsErr, IfOk, IfSome, IfNone, OnOk};
ghost use Rattle.std.specs.Vec.Iter.{into_iter_items};
ghost use Rattle.run_words.specs.Asks.{bytes_of_words, IsJournalOf};
ghost use Rattle.run_words.specs.Words.{AskForRun};

use am_io::FileSink;
use run_words::journal_name;
use std::alloc::{AllocError, Global};
use std::env::Args;
use std::io::{self, ErrorKind};
use std::rt::Files;

/// The words of a command line that begins with the program's name. One with an argument that is no text has none, and so
/// is refused.
pub fn words_of(alloc: Global, args: io::Result<Args>) -> Result<Vec<String>, AllocError>
    ensures told { IfOk args (λ args. IfOk result (λ words. words.items ≡ drop 1 (into_iter_items args))) }
    ensures untold { IsErr args → IfOk result (λ words. words.items ≡ []) }
{
    match args {
        Ok(args) => args.skip(1).collect(alloc),
        Err(error) if error.kind() == ErrorKind::OutOfMemory => Err(AllocError),
        Err(_) => Ok(Vec::new(alloc)),
    }
}

/// The sink of the journal: the file that accepted words name, and none otherwise.
pub fn journal_sink<'a, R: Files>(
    rt: &'a R,
    words: &'a Vec<String>,
) -> Option<FileSink<'a, R, &'a str>>
    ensures some { IfSome result (λ sink. IsJournalOf (bytes_of_words words.now) sink.name) }
    ensures none { IfNone result ((asked : _) → AskForRun (bytes_of_words words.now) asked → asked.journal ≡ None) }
    ensures none_failed { IfSome result (λ sink. sink.faults ≡ 0) }
{
    match journal_name(words) {
        Some(name) => Some(FileSink::new(rt, name)),
        None => None,
    }
}
