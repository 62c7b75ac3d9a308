//! Reading a schedule.

ghost use Rattle.std.specs.Prelude.{◌≡◌, ℕ, ◌+◌, ◌<◌, ◌≤◌, ◌^◌, List, [], length, IfOk, IfSome, IsErrOf, option_map};
ghost use Rattle.schedule.specs.Grammar.{IsSchedule, IsAnswered, Answer, Bad, Many};
ghost use Rattle.schedule.specs.Results.{Gives};
ghost use Rattle.schedule.specs.Reading.{answer_of, answer_behind, opened, lines_of};

use crate::events::{event_in, is_first};
use crate::lines::{is_skipped, line_at};
use crate::{Event, SchedError};
use std::alloc::Global;

/// The greatest number of events in a schedule.
const MOST_EVENTS: usize = 1_000_000;

/// Reads the events of a schedule, by this profile's own grammar. A schedule has 16,777,216 bytes at most, which is far
/// below the limit here.
pub fn read(alloc: Global, text: &[u8]) -> Result<Vec<Event>, SchedError>
    requires { length text.now < 2 ^ 32 }
    // What is read is what the text says.
    ensures schedule { IfOk result (λ events. IsSchedule text.now events.items) }
    ensures bad_line { (n : ℕ) → IsErrOf result (SchedError.BadLine n) → IsAnswered text.now (Bad n) }
    ensures too_many { (n : ℕ) → IsErrOf result (SchedError.TooMany n) → IsAnswered text.now (Many n) }
    // What the text says is read, unless memory runs out.
    ensures only { (answer : Answer) → IsAnswered text.now answer → Gives result answer }
{
    read_text(alloc, text)
}

/// A law: each text has one answer. It is a schedule of one list of events, or bad at one line, or has too many events
/// from one line on.
pub fn one_answer()
    ensures some { (text : List ℕ) → (answer : Answer) × IsAnswered text answer }
    ensures only { (text : List ℕ) (a b : Answer) → IsAnswered text a → IsAnswered text b → a ≡ b }
{}

/// The events of a text, from its front on.
fn read_text(alloc: Global, text: &[u8]) -> Result<Vec<Event>, SchedError>
    requires { length text.now < 2 ^ 32 }
    ensures { Gives result (answer_of text.now) }
{
    let Some((passed, rest)) = behind_first(text) else {
        return Err(SchedError::BadLine { line: 1 });
    };
    read_events(alloc, rest, passed)
}

/// How many lines there are up to the schedule's first line, that one included, and the text behind it.
fn behind_first(text: &[u8]) -> Option<(u32, &[u8])>
    requires { length text.now < 2 ^ 32 }
    ensures value { option_map (λ found. (found.0, lines_of found.1.now)) result ≡ opened 0 (lines_of text.now) }
    ensures short { IfSome result (λ found. found.0 + length found.1.now ≤ length text.now) }
{
    let mut rest = text;
    let mut passed = 0;
    while !rest.is_empty() {
        let (line, behind) = line_at(rest);
        passed += 1;
        if !is_skipped(line) {
            return is_first(line).then_some((passed, behind));
        }
        rest = behind;
    }
    None
}

/// The events of the lines behind the first, where `passed` lines were passed.
fn read_events(alloc: Global, text: &[u8], passed: u32) -> Result<Vec<Event>, SchedError>
    requires { passed + length text.now < 2 ^ 32 }
    ensures { Gives result (answer_behind passed [] (lines_of text.now)) }
{
    let mut events = Vec::new(alloc);
    let mut rest = text;
    let mut number = passed;
    while !rest.is_empty() {
        let (line, behind) = line_at(rest);
        number += 1;
        if !is_skipped(line) {
            let Some(event) = event_in(line) else {
                return Err(SchedError::BadLine { line: number });
            };
            if events.len() == MOST_EVENTS {
                return Err(SchedError::TooMany { line: number });
            }
            events.push(event)?;
        }
        rest = behind;
    }
    Ok(events)
}
