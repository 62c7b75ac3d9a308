//! The program where nothing outside can fail.
ghost use Rattle.std.specs.Prelude.{Some};
ghost use Rattle.run_words.specs.Asks.{bytes_of_words};
ghost use Rattle.ampi.specs.Answers.{Answers, IsAccepted, reads};
ghost use Rattle.ampi.specs.Puts.{puts};
ghost use Rattle.ampi.specs.Yields.{EndsRunOrNoMemory};

use crate::{Status, ampi};
use am_io::{SureFiles, SureSink};
use std::alloc::Global;

/// The program over files, an output and a journal that never fail: accepted words and an accepted source are run to the
/// end, unless memory runs out.
pub fn ampi_surely(
    alloc: Global,
    words: &Vec<String>,
    files: &mut SureFiles,
    out: &mut SureSink,
    journal: &mut SureSink,
) -> Status
    ensures answers { Answers (bytes_of_words words.now) (reads (Some files.old) 0 0)
        (puts (Some out.old.bytes) (Some out.new.bytes) (Some journal.old.bytes) (Some journal.new.bytes)) result }
    ensures complete { (asked : _) (compiled : _)
        → IsAccepted (bytes_of_words words.now) (Some files.old) asked compiled → EndsRunOrNoMemory result }
{
    ampi(alloc, words, files, out, journal)
}
