//! One event from the words of its line.

ghost use Rattle.std.specs.Prelude.{◌≡◌};
ghost use Rattle.schedule.specs.Reading.{strategy_in, lone_event, numbered_event, event_with_one, event_with_two, event_in, is_first};

use crate::words::{number_in, word_at};
use crate::{Event, Strategy};

/// Whether a line is the first of a schedule: `ampi-schedule 1`.
#[tactic(auto, unfolding(crate::specs::Reading::is_first))]
pub fn is_first(line: &[u8]) -> bool
    ensures { result ≡ is_first line.now }
{
    let Some((name, rest)) = word_at(line) else {
        return false;
    };
    let Some((version, rest)) = word_at(rest) else {
        return false;
    };
    if word_at(rest).is_some() {
        return false;
    }
    name == b"ampi-schedule".as_slice() && version == b"1".as_slice()
}

/// The event that a line tells, if it tells one.
#[tactic(auto, unfolding(crate::specs::Reading::event_in))]
pub fn event_in(line: &[u8]) -> Option<Event>
    ensures { result ≡ event_in line.now }
{
    let (name, rest) = word_at(line)?;
    let Some((first, rest)) = word_at(rest) else {
        return lone_event(name);
    };
    let Some((second, rest)) = word_at(rest) else {
        return event_with_one(name, first);
    };
    if word_at(rest).is_some() {
        return None;
    }
    event_with_two(name, first, second)
}

/// The event of one word.
#[tactic(auto, unfolding(crate::specs::Reading::lone_event))]
fn lone_event(name: &[u8]) -> Option<Event>
    ensures { result ≡ lone_event name.now }
{
    if name == b"settle".as_slice() {
        return Some(Event::Settle);
    }
    if name == b"freeze".as_slice() {
        return Some(Event::Freeze);
    }
    if name == b"commit".as_slice() {
        return Some(Event::Commit);
    }
    if name == b"recover".as_slice() {
        return Some(Event::Recover);
    }
    if name == b"drain".as_slice() {
        return Some(Event::Drain);
    }
    None
}

/// The event of a name and one argument.
#[tactic(auto, unfolding(crate::specs::Reading::event_with_one))]
fn event_with_one(name: &[u8], argument: &[u8]) -> Option<Event>
    ensures { result ≡ event_with_one name.now argument.now }
{
    if name == b"balance".as_slice() {
        let strategy = strategy_in(argument)?;
        return Some(Event::Balance { strategy });
    }
    numbered_event(name, number_in(argument)?)
}

/// The event of a name and a number.
fn numbered_event(name: &[u8], number: u32) -> Option<Event>
    ensures { result ≡ numbered_event name.now number }
{
    if name == b"deliver".as_slice() {
        return Some(Event::Deliver { place: number });
    }
    if name == b"save".as_slice() {
        return Some(Event::Save { processor: number });
    }
    if name == b"lose".as_slice() {
        return Some(Event::Lose { processor: number });
    }
    None
}

/// The event of a name and two numbers.
#[tactic(auto, unfolding(crate::specs::Reading::event_with_two))]
fn event_with_two(name: &[u8], first: &[u8], second: &[u8]) -> Option<Event>
    ensures { result ≡ event_with_two name.now first.now second.now }
{
    let rank = number_in(first)?;
    let number = number_in(second)?;
    if name == b"run".as_slice() {
        return Some(Event::Run {
            rank,
            ticks: number,
        });
    }
    if name == b"move".as_slice() {
        return Some(Event::Move {
            rank,
            processor: number,
        });
    }
    None
}

/// The strategy of this name.
#[tactic(auto, unfolding(crate::specs::Reading::strategy_in))]
fn strategy_in(word: &[u8]) -> Option<Strategy>
    ensures { result ≡ strategy_in word.now }
{
    if word == b"rotate".as_slice() {
        return Some(Strategy::Rotate);
    }
    if word == b"greedy".as_slice() {
        return Some(Strategy::Greedy);
    }
    if word == b"refine".as_slice() {
        return Some(Strategy::Refine);
    }
    None
}
