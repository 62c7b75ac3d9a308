//! What a rank prints, with room for the line that its unfinished text may become.

ghost use Rattle.std.specs.Prelude.{◌≡◌, ◌+◌, ◌<◌, ◌≤◌, ◌^◌, ◌∷◌, [], length, IfOk, IfErr, OnOk, OnErr};
ghost use Rattle.rank_range.specs.Output.{text_limit, with_text, with_last_line};
ghost use Rattle.rank_machine.specs.Printing.{IsCut};

use am_base::{Bytes, Line, LineList};
use rank_range::Output;
use std::alloc::{AllocError, Global};
use std::marker::Model;
use std::mem;

/// How many bytes a rank may print.
pub const TEXT_LIMIT: u32 = 1_048_576;

/// The byte of a newline.
const NEWLINE: u8 = 10;

/// How many bytes a line may have.
const LINE_BYTES: usize = 4096;

/// What a rank printed, with room for one more line. Contracts see the output.
#[derive(Drop)]
pub struct Printer {
    printed: u32,
    unfinished: Bytes,
    next: u32,
    held: Vec<Line>,
}

impl Model for Printer {
    ghost use Rattle.std.specs.Prelude.{◌+◌, ◌<◌, ◌≤◌, length, vec_len, vec_capacity};
    ghost use Rattle.rank_range.specs.Output.{text_limit};
    ghost use Rattle.rank_range.specs.declared.run.Output.{Output};

    ghost Value = { Output };

    ghost view = { λ p. record { printed = p.printed; unfinished = p.unfinished; next = p.next; held = p.held.items } };

    ghost invariant = { λ p. (vec_len p.held < vec_capacity p.held) × (p.next + length p.unfinished ≤ p.printed) × (p.printed ≤ text_limit) };
}

impl Printer {
    /// The output with room for one more line, or as it was where the host has no memory for that.
    pub fn open(output: Output) -> Result<Printer, Output>
        requires numbers { output.next + length output.unfinished ≤ output.printed }
        requires limit { output.printed ≤ text_limit }
        ensures ok { IfOk result (λ p. p ≡ output) }
        ensures err { IfErr result (λ o. o ≡ output) }
    {
        let Output {
            printed,
            unfinished,
            next,
            held,
        } = output;
        let mut lines = held.into_vec();
        match lines.reserve(1) {
            Ok(()) => Ok(Printer {
                printed,
                unfinished,
                next,
                held: lines,
            }),
            Err(_) => Err(Output {
                printed,
                unfinished,
                next,
                held: LineList::from_vec(lines),
            }),
        }
    }

    /// How many bytes were printed.
    pub fn printed(&self) -> u32
        ensures value { result ≡ self.now.printed }
        ensures limit { result ≤ text_limit }
    {
        self.printed
    }

    /// Prints a text. Where the host has no memory for it, nothing changes.
    pub fn print(&mut self, alloc: Global, text: &[u8]) -> Result<(), AllocError>
        requires { self.old.printed + length text.now ≤ text_limit }
        ensures ok { OnOk result (self.new ≡ with_text self.old text.now) }
        ensures err { OnErr result (self.new ≡ self.old) }
    {
        let part = Bytes::from_slice(alloc, self.unfinished.as_slice())?;
        let mut cut = Cut {
            lines: Vec::new(alloc),
            part,
            next: self.next,
        };
        cut_text(alloc, &mut cut, text)?;
        let Cut {
            mut lines,
            part,
            next,
        } = cut;
        let wanted = lines.len() + 1;
        self.held.reserve(wanted)?;
        let _done = self.held.append(&mut lines);
        self.unfinished = part;
        self.printed += text.len() as u32;
        self.next = next;
        Ok(())
    }

    /// The output where the rank goes on later.
    pub fn close(self) -> Output
        ensures value { result ≡ self }
        ensures numbers { result.next + length result.unfinished ≤ result.printed }
        ensures limit { result.printed ≤ text_limit }
    {
        let Printer {
            printed,
            unfinished,
            next,
            held,
        } = self;
        Output {
            printed,
            unfinished,
            next,
            held: LineList::from_vec(held),
        }
    }

    /// The output where the rank is ended or trapped: text without a newline is a line. There is room for it.
    pub fn finish(self, alloc: Global) -> Output
        ensures value { result ≡ with_last_line self }
        ensures numbers { result.next + length result.unfinished ≤ result.printed }
        ensures limit { result.printed ≤ text_limit }
    {
        let Printer {
            printed,
            unfinished,
            next,
            mut held,
        } = self;
        if unfinished.is_empty() {
            return Output {
                printed,
                unfinished,
                next,
                held: LineList::from_vec(held),
            };
        }
        let _done = held.push(Line {
            number: next,
            text: unfinished,
        });
        Output {
            printed,
            unfinished: Bytes::new(alloc),
            next: next + 1,
            held: LineList::from_vec(held),
        }
    }
}

/// Lines that a text was cut into, the part behind them that is no whole line yet, and the number of the next line.
#[derive(Drop)]
pub struct Cut {
    pub lines: Vec<Line>,
    pub part: Bytes,
    pub next: u32,
}

/// Cuts the text behind the part into lines.
fn cut_text(alloc: Global, cut: &mut Cut, text: &[u8]) -> Result<(), AllocError>
    requires { cut.old.next + length cut.old.part + length text.now < 2 ^ 32 }
    ensures { OnOk result (IsCut cut.old cut.new text.now) }
{
    for byte in text {
        cut_byte(alloc, cut, *byte)?;
    }
    Ok(())
}

fn cut_byte(alloc: Global, cut: &mut Cut, byte: u8) -> Result<(), AllocError>
    requires { cut.old.next + 1 < 2 ^ 32 }
    ensures { OnOk result (IsCut cut.old cut.new (byte ∷ [])) }
{
    if byte != NEWLINE {
        cut.part.push(byte)?;
        if cut.part.len() != LINE_BYTES {
            return Ok(());
        }
    }
    let text = mem::replace(&mut cut.part, Bytes::new(alloc));
    let number = cut.next;
    cut.lines.push(Line { number, text })?;
    cut.next += 1;
    Ok(())
}
