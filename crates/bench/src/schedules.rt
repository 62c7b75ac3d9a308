//! A made schedule's text is read.
ghost use Rattle.std.specs.Prelude.{◌<◌, ◌^◌, length};

use crate::failed::Failed;
use schedule::{SchedError, make, print, read};
use std::alloc::Global;

/// How many events are read in so many turns, from the text of so many made ones for 256 ranks on 64 processors. A text of 2^32 bytes or
/// more isn't read.
pub(crate) fn events_read(alloc: Global, events: u32, turns: u32) -> Result<u64, Failed> {
    let made = make(alloc, 1, events, 256, 64)?;
    let text = print(alloc, &made)?;
    if text.as_slice().len() >= 1 << 32 {
        return Err(Failed::Words);
    }
    let mut count = 0u64;
    for _turn in 0..turns {
        count = count.saturating_add(events_of(alloc, text.as_slice())?);
    }
    Ok(count)
}

fn events_of(alloc: Global, text: &[u8]) -> Result<u64, Failed>
    requires { length text.now < 2 ^ 32 }
{
    match read(alloc, text) {
        Ok(events) => Ok(events.len() as u64),
        Err(SchedError::Memory) => Err(Failed::Memory),
        Err(_) => Err(Failed::Refused),
    }
}
