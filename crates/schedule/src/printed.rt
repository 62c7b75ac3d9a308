//! The text of a schedule.

ghost use Rattle.std.specs.Prelude.{◌≡◌, ◌≤◌, ◌++◌, length, codes, IfOk, OnOk};
ghost use Rattle.std.specs.Fmt.{decimal};
ghost use Rattle.schedule.specs.Grammar.{IsSchedule, most_events, parts_of, strategy_name};
ghost use Rattle.schedule.specs.Printed.{printed, line_text, HasSmallNumbers, PrintedIsRead};

use crate::{Event, Strategy};
use am_base::{Bytes, decimal};
use std::alloc::{AllocError, Global};

/// The text of a schedule: single spaces, line feeds, no leading zeros. The format is this profile's own.
pub fn print(alloc: Global, events: &[Event]) -> Result<Bytes, AllocError>
    ensures text { IfOk result (λ text. text ≡ printed events.now) }
    // What was printed is a schedule of the events, up to the greatest number of them.
    ensures back { IfOk result (λ text. length events.now ≤ most_events → IsSchedule text events.now) }
{
    let mut out = Bytes::from_slice(alloc, b"ampi-schedule 1\n")?;
    for event in events {
        append_event(&mut out, *event)?;
    }
    Ok(out)
}

/// A law: what is printed of events whose numbers fit a line is a schedule of them.
pub fn printed_is_read()
    ensures { PrintedIsRead }
{}

/// Appends the line of an event.
fn append_event(out: &mut Bytes, event: Event) -> Result<(), AllocError>
    ensures ok { OnOk result (out.new ≡ out.old ++ line_text (parts_of event)) }
    ensures small { HasSmallNumbers event }
{
    match event {
        Event::Run { rank, ticks } => append_two(out, b"run ", rank, ticks),
        Event::Deliver { place } => append_one(out, b"deliver ", place),
        Event::Settle => out.append(b"settle\n"),
        Event::Move { rank, processor } => append_two(out, b"move ", rank, processor),
        Event::Balance { strategy } => append_balance(out, strategy),
        Event::Freeze => out.append(b"freeze\n"),
        Event::Save { processor } => append_one(out, b"save ", processor),
        Event::Commit => out.append(b"commit\n"),
        Event::Lose { processor } => append_one(out, b"lose ", processor),
        Event::Recover => out.append(b"recover\n"),
        Event::Drain => out.append(b"drain\n"),
    }
}

/// Appends a name, with the space behind it, and a number.
fn append_one(out: &mut Bytes, name: &[u8], number: u32) -> Result<(), AllocError>
    ensures ok { OnOk result (out.new ≡ out.old ++ name.now ++ decimal number ++ codes "\n") }
{
    out.append(name)?;
    decimal(out, u64::from(number))?;
    out.append(b"\n")
}

/// Appends a name, with the space behind it, and two numbers.
fn append_two(out: &mut Bytes, name: &[u8], first: u32, second: u32) -> Result<(), AllocError>
    ensures ok { OnOk result
        (out.new ≡ out.old ++ name.now ++ decimal first ++ codes " " ++ decimal second ++ codes "\n") }
{
    out.append(name)?;
    decimal(out, u64::from(first))?;
    out.append(b" ")?;
    decimal(out, u64::from(second))?;
    out.append(b"\n")
}

/// Appends the line of a `balance` event.
fn append_balance(out: &mut Bytes, strategy: Strategy) -> Result<(), AllocError>
    ensures ok { OnOk result (out.new ≡ out.old ++ line_text (parts_of (Event.Balance strategy))) }
{
    out.append(b"balance ")?;
    match strategy {
        Strategy::Rotate => out.append(b"rotate\n"),
        Strategy::Greedy => out.append(b"greedy\n"),
        Strategy::Refine => out.append(b"refine\n"),
    }
}
