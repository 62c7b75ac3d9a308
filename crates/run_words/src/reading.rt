//! Words read from the first on.
ghost use Rattle.std.specs.Prelude.{◌≡◌, ◌≤◌, ◌∷◌, drop, length, map, string_bytes, None, IfOk, IfSome, MatchOption};
ghost use Rattle.std.specs.Option.{option_map};
ghost use Rattle.run_words.specs.steps.Reading.{Said, nothing_said, is_number as is_number_lem, is_plain as is_plain_lem, ranks_said, ticks_said, with_file as with_file_lem, with_ranks as with_ranks_lem, with_ticks as with_ticks_lem, with_journal as with_journal_lem, said_with, files_in as files_in_lem, has_value as has_value_lem, are_files as are_files_lem, asked_of};
ghost use Rattle.run_words.specs.steps.Views.{said_by, asked_in};

use std::alloc::{AllocError, Global};

/// What accepted words ask for, borrowed from them.
#[derive(Clone, Copy)]
pub struct Run<'a> {
    /// The words behind `run`, among which the files' names stand.
    pub parts: &'a [String],
    pub ranks: u16,
    pub ticks: u64,
    pub journal: Option<&'a str>,
}

/// What the words so far have said.
#[derive(Clone, Copy)]
struct Found<'a> {
    /// How many files.
    files: u8,
    ranks: Option<u16>,
    ticks: Option<u64>,
    journal: Option<&'a str>,
}

/// What the words ask for, if they are accepted.
pub fn run_of(words: &[String]) -> Option<Run<'_>>
    ensures { option_map asked_in result ≡ asked_of (map string_bytes words.now) }
{
    let (first, parts) = words.split_first()?;
    if first.as_str() != "run" {
        return None;
    }
    let found = found_in(parts)?;
    if found.files == 0 {
        return None;
    }
    Some(Run {
        parts,
        ranks: found.ranks.unwrap_or(1),
        ticks: found.ticks.unwrap_or(1_000_000),
        journal: found.journal,
    })
}

/// What the words behind `run` say, if each may stand where it stands.
fn found_in(words: &[String]) -> Option<Found<'_>>
    ensures { option_map said_by result ≡ said_with (map string_bytes words.now) nothing_said }
{
    let mut found = Found {
        files: 0,
        ranks: None,
        ticks: None,
        journal: None,
    };
    let mut rest = words;
    while let Some((word, after)) = rest.split_first() {
        (found, rest) = with_part(found, word, after)?;
    }
    Some(found)
}

/// What is said with the part that begins with `word`, and the words behind that part.
fn with_part<'a>(
    found: Found<'a>,
    word: &'a str,
    after: &'a [String],
) -> Option<(Found<'a>, &'a [String])>
    ensures reads { MatchOption result
        (said_with (word.now ∷ map string_bytes after.now) (said_by found.entry) ≡ None)
        (λ p. said_with (word.now ∷ map string_bytes after.now) (said_by found.entry)
        ≡ said_with (map string_bytes p.1.now) (said_by p.0)) }
    ensures shorter { IfSome result (λ p. length p.1.now ≤ length after.now) }
{
    if word == "--ranks" {
        let (value, rest) = after.split_first()?;
        return Some((with_ranks(found, value)?, rest));
    }
    if word == "--journal" {
        let (name, rest) = after.split_first()?;
        return Some((with_journal(found, name)?, rest));
    }
    if word == "--ticks" {
        let (value, rest) = after.split_first()?;
        return Some((with_ticks(found, value)?, rest));
    }
    Some((with_file(found, word)?, after))
}

/// What is said with the name of one file more, of which there may be 16.
fn with_file<'a>(found: Found<'a>, name: &'a str) -> Option<Found<'a>>
    ensures { option_map said_by result ≡ with_file_lem (said_by found.entry) name.now }
{
    if !is_plain(name) || found.files >= 16 {
        return None;
    }
    Some(Found {
        files: found.files + 1,
        ..found
    })
}

/// What is said with a value of `--ranks`, which may stand once.
fn with_ranks<'a>(found: Found<'a>, value: &str) -> Option<Found<'a>>
    ensures { option_map said_by result ≡ with_ranks_lem (said_by found.entry) value.now }
{
    if found.ranks.is_some() {
        return None;
    }
    Some(Found {
        ranks: Some(ranks_in(value)?),
        ..found
    })
}

/// What is said with a value of `--ticks`, which may stand once.
fn with_ticks<'a>(found: Found<'a>, value: &str) -> Option<Found<'a>>
    ensures { option_map said_by result ≡ with_ticks_lem (said_by found.entry) value.now }
{
    if found.ticks.is_some() {
        return None;
    }
    Some(Found {
        ticks: Some(ticks_in(value)?),
        ..found
    })
}

/// What is said with a value of `--journal`, which may stand once.
fn with_journal<'a>(found: Found<'a>, name: &'a str) -> Option<Found<'a>>
    ensures { option_map said_by result ≡ with_journal_lem (said_by found.entry) name.now }
{
    if !is_plain(name) || found.journal.is_some() {
        return None;
    }
    Some(Found {
        journal: Some(name),
        ..found
    })
}

/// The number that a value of `--ranks` writes, if it may be one.
fn ranks_in(value: &str) -> Option<u16>
    ensures { result ≡ ranks_said value.now }
{
    if !is_number(value) {
        return None;
    }
    let ranks = value.parse().ok()?;
    (1..=256).contains(&ranks).then_some(ranks)
}

/// The number that a value of `--ticks` writes, if it may be one.
fn ticks_in(value: &str) -> Option<u64>
    ensures { result ≡ ticks_said value.now }
{
    if !is_number(value) {
        return None;
    }
    let ticks = value.parse().ok()?;
    (0..=16_000_000).contains(&ticks).then_some(ticks)
}

/// Whether a word is 1 to 20 decimal digits.
fn is_number(word: &str) -> bool
    ensures { result ≡ is_number_lem word.now }
{
    let digits = word.as_bytes();
    (1..=20).contains(&digits.len()) && digits.iter().all(|b| b.is_ascii_digit())
}

/// Whether a word may be a file's name: it isn't empty, and no dash begins it.
pub fn is_plain(word: &str) -> bool
    ensures { result ≡ is_plain_lem word.now }
{
    word.as_bytes().first().is_some_and(|b| *b != b'-')
}

/// The names of the files among the words behind `run`, in order.
pub fn files_in(alloc: Global, parts: &[String]) -> Result<Vec<String>, AllocError>
    ensures { IfOk result (λ files. map string_bytes files.items ≡ files_in_lem (map string_bytes parts.now)) }
{
    let mut files = Vec::new(alloc);
    let mut rest = parts;
    while let Some((word, after)) = rest.split_first() {
        if has_value(word) {
            rest = behind_first(after);
        } else {
            files.push(String::from_str(alloc, word)?)?;
            rest = after;
        }
    }
    Ok(files)
}

/// The words behind the first one.
fn behind_first(words: &[String]) -> &[String]
    ensures { result.now ≡ drop 1 words.now }
{
    match words.split_first() {
        Some((_, rest)) => rest,
        None => words,
    }
}

/// Whether a word is the name of an option with a value.
fn has_value(word: &str) -> bool
    ensures { result ≡ has_value_lem word.now }
{
    word == "--ranks" || word == "--journal" || word == "--ticks"
}

/// Whether words are the names of 1 to 16 files.
pub fn are_files(names: &[String]) -> bool
    ensures { result ≡ are_files_lem (map string_bytes names.now) }
{
    (1..=16).contains(&names.len()) && names.iter().all(|name| is_plain(name))
}
