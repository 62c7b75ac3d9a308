//! What is to be done: by which figure, how large, and how often.
use crate::failed::Failed;
use crate::heaps::{self, Pattern};
use crate::libraries::{self, Function};
use crate::memories::{self, Bulk};
use crate::parsing::{self, Shape};
use crate::plans::{self, Rule};
use crate::sweeps::{self, Call};
use crate::{images, lexing, matches, schedules};
use std::alloc::Global;

#[derive(Clone, Copy)]
pub enum Figure {
    Lex,
    Parse(Shape),
    Match,
    Heap(Pattern),
    Balance(Rule),
    Schedule,
    Memory(Bulk),
    Library(Function),
    Sweep(Call),
    Packet,
}

#[derive(Clone, Copy)]
pub struct Work {
    pub figure: Figure,
    pub size: u32,
    pub turns: u32,
}

/// Each figure once, small: its size, and its turns.
pub const SMALL: [(Figure, u32, u32); 21] = [
    (Figure::Lex, 4, 3),
    (Figure::Parse(Shape::Flat), 2, 3),
    (Figure::Parse(Shape::Deep), 2, 3),
    (Figure::Parse(Shape::Names), 2, 3),
    (Figure::Match, 10, 4),
    (Figure::Heap(Pattern::Fill), 10, 3),
    (Figure::Heap(Pattern::Sawtooth), 10, 3),
    (Figure::Heap(Pattern::Random), 10, 30),
    (Figure::Balance(Rule::Rotate), 100, 2),
    (Figure::Balance(Rule::Greedy), 100, 2),
    (Figure::Balance(Rule::Refine), 100, 2),
    (Figure::Schedule, 10, 2),
    (Figure::Memory(Bulk::Copy), 1000, 3),
    (Figure::Memory(Bulk::Fill), 1000, 3),
    (Figure::Memory(Bulk::Write), 1000, 3),
    (Figure::Memory(Bulk::View), 1000, 3),
    (Figure::Library(Function::Printf), 10, 3),
    (Figure::Library(Function::Memcpy), 1000, 3),
    (Figure::Sweep(Call::Barrier), 8, 3),
    (Figure::Sweep(Call::Alltoall), 8, 3),
    (Figure::Packet, 10, 3),
];

impl Work {
    /// The work that the words name: a figure, its size, how often it is done, and its kind where it has several.
    pub(crate) fn of(words: &[String]) -> Option<Work> {
        let (name, size, turns, kind) = match words {
            [name, size, turns] => (name, size, turns, ""),
            [name, size, turns, kind] => (name, size, turns, kind.as_str()),
            _ => return None,
        };
        Some(Work {
            figure: Figure::of(name.as_str(), kind)?,
            size: size.parse().ok()?,
            turns: turns.parse().ok()?,
        })
    }

    /// How much was counted while the work was done, and how many members gathered where it is a collective.
    pub(crate) fn done(self, alloc: Global) -> Result<(u64, Option<u64>), Failed> {
        if let Figure::Sweep(call) = self.figure {
            let (sent, gathered) = sweeps::swept(alloc, call, self.size, self.turns)?;
            return Ok((sent, Some(gathered)));
        }
        Ok((self.count(alloc)?, None))
    }

    /// The one count of the work, of a collective that of the messages.
    fn count(self, alloc: Global) -> Result<u64, Failed> {
        match self.figure {
            Figure::Lex => lexing::tokens_in(alloc, self.size, self.turns),
            Figure::Parse(shape) => parsing::externals_in(alloc, shape, self.size, self.turns),
            Figure::Match => matches::made_behind(alloc, self.size, self.turns),
            Figure::Heap(pattern) => heaps::calls_answered(alloc, pattern, self.size, self.turns),
            Figure::Balance(rule) => plans::places_planned(alloc, rule, self.size, self.turns),
            Figure::Schedule => schedules::events_read(alloc, self.size, self.turns),
            Figure::Memory(bulk) => memories::bytes_moved(alloc, bulk, self.size, self.turns),
            Figure::Library(function) => {
                libraries::bytes_given(alloc, function, self.size, self.turns)
            }
            Figure::Sweep(call) => Ok(sweeps::swept(alloc, call, self.size, self.turns)?.0),
            Figure::Packet => images::bytes_encoded(alloc, self.size, self.turns),
        }
    }

    /// The figure's name, and what is counted.
    pub(crate) fn names(self) -> (&'static str, &'static str) {
        match self.figure {
            Figure::Lex => ("lex", "tokens"),
            Figure::Parse(Shape::Flat) => ("parse flat", "functions and declarations"),
            Figure::Parse(Shape::Deep) => ("parse deep", "functions and declarations"),
            Figure::Parse(Shape::Names) => ("parse names", "functions and declarations"),
            Figure::Match => ("match", "matches"),
            Figure::Heap(Pattern::Fill) => ("heap fill", "calls"),
            Figure::Heap(Pattern::Sawtooth) => ("heap sawtooth", "calls"),
            Figure::Heap(Pattern::Random) => ("heap random", "calls"),
            Figure::Balance(Rule::Rotate) => ("balance rotate", "places"),
            Figure::Balance(Rule::Greedy) => ("balance greedy", "places"),
            Figure::Balance(Rule::Refine) => ("balance refine", "places"),
            Figure::Schedule => ("schedule", "events"),
            Figure::Memory(Bulk::Copy) => ("memory copy", "bytes"),
            Figure::Memory(Bulk::Fill) => ("memory fill", "bytes"),
            Figure::Memory(Bulk::Write) => ("memory write", "bytes"),
            Figure::Memory(Bulk::View) => ("memory view", "bytes"),
            Figure::Library(Function::Printf) => ("library printf", "bytes"),
            Figure::Library(Function::Memcpy) => ("library memcpy", "bytes"),
            Figure::Sweep(Call::Barrier) => ("sweep barrier", "messages"),
            Figure::Sweep(Call::Alltoall) => ("sweep alltoall", "messages"),
            Figure::Packet => ("packet", "bytes"),
        }
    }
}

impl Figure {
    fn of(name: &str, kind: &str) -> Option<Figure> {
        match (name, kind) {
            ("lex", "") => Some(Figure::Lex),
            ("match", "") => Some(Figure::Match),
            ("schedule", "") => Some(Figure::Schedule),
            ("packet", "") => Some(Figure::Packet),
            ("parse", _) => Shape::of(kind).map(Figure::Parse),
            ("heap", _) => Pattern::of(kind).map(Figure::Heap),
            ("balance", _) => Rule::of(kind).map(Figure::Balance),
            ("memory", _) => Bulk::of(kind).map(Figure::Memory),
            ("library", _) => Function::of(kind).map(Figure::Library),
            ("sweep", _) => Call::of(kind).map(Figure::Sweep),
            _ => None,
        }
    }
}
