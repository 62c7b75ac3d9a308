//! Made schedules.

ghost use Rattle.std.specs.Prelude.{◌≡◌, ◌≤◌, ◌<◌, ◌++◌, IfOk, OnOk};
ghost use Rattle.rand_pcg.specs.Lcg.{Lcg};
ghost use Rattle.schedule.specs.Made.{made, drawn, saves, block, strategy_of, makes_loss, loss, single_event, events_of_turn, TurnsSuffice};

use crate::{Event, Strategy};
use rand_core::utils::NextWord;
use rand_pcg::Lcg64Xsh32;
use std::alloc::{AllocError, Global};

/// The words that a turn draws: the first decides the kind of event, the next two its numbers.
#[derive(Clone, Copy)]
struct Turn {
    choice: u32,
    first: u32,
    second: u32,
}

/// Makes the first `count` events of the seed's schedule, for a number of ranks and of processors. The table of turns is this
/// profile's own.
pub fn make(
    alloc: Global,
    seed: u64,
    count: u32,
    ranks: u16,
    processors: u16,
) -> Result<Vec<Event>, AllocError>
    requires ranks { 1 ≤ ranks }
    requires processors { 1 ≤ processors }
    ensures { IfOk result (λ events. events.items ≡ made seed count ranks processors) }
{
    let count = count as usize;
    let mut events = Vec::new(alloc);
    let mut generator = Lcg64Xsh32::new(seed, 1);
    let mut losses = 0;
    while events.len() < count {
        let turn = drawn(&mut generator);
        let is_loss = makes_loss(turn, processors, losses);
        append_turn(&mut events, turn, ranks, processors, is_loss)?;
        losses += u32::from(is_loss);
    }
    events.truncate(count);
    Ok(events)
}

/// A law: as many turns as events are wanted are enough, and more turns make the same events.
pub fn turns_suffice()
    ensures { TurnsSuffice }
{}

/// Draws the three words of a turn.
#[tactic(auto, unfolding(crate::specs::Made::drawn))]
fn drawn(generator: &mut Lcg64Xsh32) -> Turn
    ensures { (result, generator.new) ≡ drawn generator.old }
{
    let choice = generator.next_word();
    let first = generator.next_word();
    let second = generator.next_word();
    Turn {
        choice,
        first,
        second,
    }
}

/// Whether a turn loses a processor. Less than half of them are lost.
fn makes_loss(turn: Turn, processors: u16, losses: u32) -> bool
    ensures { result ≡ makes_loss processors losses turn }
{
    turn.choice % 100 == 99 && turn.second % 64 == 0 && losses < u32::from(processors / 2)
}

/// Appends the events of a turn, by its choice.
#[tactic(auto, unfolding(crate::specs::Made::events_of_turn))]
fn append_turn(
    events: &mut Vec<Event>,
    turn: Turn,
    ranks: u16,
    processors: u16,
    is_loss: bool,
) -> Result<(), AllocError>
    requires ranks { 1 ≤ ranks }
    requires processors { 1 ≤ processors }
    ensures ok { OnOk result (events.new.items ≡ events.old.items ++ events_of_turn ranks processors is_loss turn) }
{
    let kind = turn.choice % 100;
    if kind == 98 && turn.first % 8 == 0 {
        return append_block(events, processors);
    }
    if is_loss {
        return append_loss(events, turn.first % u32::from(processors), processors);
    }
    events.push(single_event(turn, u32::from(ranks), u32::from(processors)))?;
    Ok(())
}

/// The event of a turn that makes one.
fn single_event(turn: Turn, ranks: u32, processors: u32) -> Event
    requires ranks { 1 ≤ ranks }
    requires processors { 1 ≤ processors }
    ensures { result ≡ single_event ranks processors turn }
{
    match turn.choice % 100 {
        0..=59 => Event::Run {
            rank: turn.first % ranks,
            ticks: 1 + turn.second % 200,
        },
        60..=89 => Event::Deliver {
            place: turn.first % 1024,
        },
        90..=94 => Event::Move {
            rank: turn.first % ranks,
            processor: turn.second % processors,
        },
        95 => Event::Balance {
            strategy: strategy_of(turn.first),
        },
        _ => Event::Settle,
    }
}

/// The strategy that a word decides.
fn strategy_of(word: u32) -> Strategy
    ensures { result ≡ strategy_of word }
{
    match word % 3 {
        0 => Strategy::Rotate,
        1 => Strategy::Greedy,
        _ => Strategy::Refine,
    }
}

/// Appends the loss of a processor, and a checkpoint behind it.
fn append_loss(events: &mut Vec<Event>, processor: u32, processors: u16) -> Result<(), AllocError>
    ensures ok { OnOk result (events.new.items ≡ events.old.items ++ loss processor processors) }
{
    events.push(Event::Lose { processor })?;
    events.push(Event::Recover)?;
    events.push(Event::Settle)?;
    append_block(events, processors)
}

/// Appends a checkpoint.
fn append_block(events: &mut Vec<Event>, processors: u16) -> Result<(), AllocError>
    ensures ok { OnOk result (events.new.items ≡ events.old.items ++ block processors) }
{
    events.push(Event::Freeze)?;
    events.push(Event::Settle)?;
    append_saves(events, processors)?;
    events.push(Event::Settle)?;
    events.push(Event::Commit)?;
    Ok(())
}

/// Appends the `save` of each processor.
fn append_saves(events: &mut Vec<Event>, processors: u16) -> Result<(), AllocError>
    ensures ok { OnOk result (events.new.items ≡ events.old.items ++ saves processors) }
{
    for processor in 0..processors {
        events.push(Event::Save {
            processor: u32::from(processor),
        })?;
    }
    Ok(())
}
