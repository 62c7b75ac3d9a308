//! A source of declarations is read as its tokens.
ghost use Rattle.std.specs.Prelude.{◌<◌, ◌^◌, length};

use crate::failed::Failed;
use c_lex::{LexError, lex};
use std::alloc::{AllocError, Global};

/// Declarations of 256 bytes.
const DECLARATIONS: &str = "\
typedef struct row { unsigned long key; char name[16]; struct row *next; } row;
static const unsigned long mask = 0xff00ff00UL, half = 1 << 31; // two numbers
extern int found(const row *first, int (*same)(char a, char b));
char *hinted = \"a\\tb\", c = 'x';
";

/// How many tokens are read in so many turns, from a source of so many times 256 bytes. One of 2^31 bytes or more isn't read.
pub(crate) fn tokens_in(alloc: Global, parts: u32, turns: u32) -> Result<u64, Failed> {
    let source = source_of(alloc, parts)?;
    let bytes = source.as_str().as_bytes();
    if bytes.len() >= 1 << 31 {
        return Err(Failed::Words);
    }
    let mut count = 0u64;
    for _turn in 0..turns {
        count = count.saturating_add(tokens_of(alloc, bytes)?);
    }
    Ok(count)
}

fn source_of(alloc: Global, parts: u32) -> Result<String, AllocError> {
    let mut source = String::new(alloc);
    for _part in 0..parts {
        source.push_str(DECLARATIONS)?;
    }
    Ok(source)
}

fn tokens_of(alloc: Global, source: &[u8]) -> Result<u64, Failed>
    requires { length source.now < 2 ^ 31 }
{
    match lex(alloc, source) {
        Ok(tokens) => Ok(tokens.len() as u64),
        Err(error) => Err(failed_by(error)),
    }
}

/// What it is for the figure that a source has no tokens.
pub(crate) fn failed_by(error: LexError) -> Failed {
    match error {
        LexError::Memory => Failed::Memory,
        _ => Failed::Refused,
    }
}
