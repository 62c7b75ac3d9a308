//! A rank's registers, its ending, its ticks, its output and its load, with their readers and writers.

ghost use Rattle.std.specs.Prelude.{◌≡◌, ◌≤◌, ◌<◌, ◌^◌, ◌++◌, true, length, sum, Some, None, IfOk, OnOk, IsErrOf};
ghost use Rattle.byte_formats.specs.declared.cursor.Unspelled.TheVariants.{Bad};
ghost use Rattle.byte_formats.specs.Formats.{number16, number32, number64, both};
ghost use Rattle.rank_image.specs.Messages.{at_most};
ghost use Rattle.rank_image.specs.Head.{trap, ending, phase, line, lines, is_next_line, ends_below, output, window, load, head, within_ticks};
ghost use Rattle.rank_image.specs.HeadLaws.{trap_is, ending_is, line_is, lines_is, output_is, load_is, head_is};

use crate::codes::{cause_of, phase_number, phase_of};
use crate::load::{Load, Window};
use crate::order::{Order, ascend_in};
use am_base::{Bytes, Line, LineList};
use byte_formats::{
    Cursor, Number64, Spelling, Unspelled, put_count8, put_count32, put_i32, put_many, put_text,
    put_u8, put_u16, put_u32, put_u64, take_i32, take_many, take_text, take_u8, take_u16, take_u32,
    take_u64,
};
use mpi_types::Phase;
use rank_range::{Ending, Output, Regs, Trap};
use std::alloc::{AllocError, Global};

/// The first parts of a rank.
#[derive(Drop)]
pub struct Head {
    pub regs: Regs,
    pub ending: Ending,
    pub phase: Phase,
    pub load: Load,
}

/// Takes a trap.
#[tactic(auto, unfolding(crate::specs::Head::trap, crate::specs::Head::cause))]
fn take_trap(cursor: &mut Cursor<'_>) -> Result<Trap, Unspelled>
    ensures ok { IfOk result (λ x. trap.read cursor.old.rest.now ≡ Some (x, cursor.new.rest.now)) }
    ensures bad { IsErrOf result Bad → trap.read cursor.old.rest.now ≡ None }
{
    let number = take_u8(cursor)?;
    let Some(cause) = cause_of(number) else {
        return Err(Unspelled::Bad);
    };
    let unit = take_u8(cursor)?;
    let line = take_u32(cursor)?;
    Ok(Trap { cause, unit, line })
}

/// Appends a trap.
#[tactic(auto, unfolding(crate::specs::Head::trap, crate::specs::Head::cause))]
fn put_trap(out: &mut Bytes, value: &Trap) -> Result<(), AllocError>
    ensures { OnOk result (out.new ≡ out.old ++ trap.spell value.now) }
{
    put_u8(out, value.cause.number())?;
    put_u8(out, value.unit)?;
    put_u32(out, value.line)
}

/// Takes how a rank stands.
#[tactic(auto, unfolding(crate::specs::Head::ending))]
fn take_ending(cursor: &mut Cursor<'_>) -> Result<Ending, Unspelled>
    ensures ok { IfOk result (λ x. ending.read cursor.old.rest.now ≡ Some (x, cursor.new.rest.now)) }
    ensures bad { IsErrOf result Bad → ending.read cursor.old.rest.now ≡ None }
{
    let tag = take_u8(cursor)?;
    if tag == 0 {
        return Ok(Ending::Running);
    }
    if tag == 1 {
        let status = take_i32(cursor)?;
        return Ok(Ending::Ended(status));
    }
    if tag == 2 {
        let trap = take_trap(cursor)?;
        return Ok(Ending::Trapped(trap));
    }
    Err(Unspelled::Bad)
}

/// Appends how a rank stands.
#[tactic(auto, unfolding(crate::specs::Head::ending))]
fn put_ending(out: &mut Bytes, value: &Ending) -> Result<(), AllocError>
    ensures { OnOk result (out.new ≡ out.old ++ ending.spell value.now) }
{
    match value {
        Ending::Running => put_u8(out, 0),
        Ending::Ended(status) => {
            put_u8(out, 1)?;
            put_i32(out, *status)
        }
        Ending::Trapped(trap) => {
            put_u8(out, 2)?;
            put_trap(out, trap)
        }
    }
}

/// Takes how far a rank is with MPI.
#[tactic(auto, unfolding(crate::specs::Head::phase))]
fn take_phase(cursor: &mut Cursor<'_>) -> Result<Phase, Unspelled>
    ensures ok { IfOk result (λ x. phase.read cursor.old.rest.now ≡ Some (x, cursor.new.rest.now)) }
    ensures bad { IsErrOf result Bad → phase.read cursor.old.rest.now ≡ None }
{
    let number = take_u8(cursor)?;
    match phase_of(number) {
        Some(phase) => Ok(phase),
        None => Err(Unspelled::Bad),
    }
}

/// Appends how far a rank is with MPI.
#[tactic(auto, unfolding(crate::specs::Head::phase))]
fn put_phase(out: &mut Bytes, value: Phase) -> Result<(), AllocError>
    ensures { OnOk result (out.new ≡ out.old ++ phase.spell value) }
{
    put_u8(out, phase_number(value))
}

/// Held lines.
pub struct LineFormat;

impl Spelling for LineFormat {
    type Value = Line;

    ghost format = { line };

    #[tactic(auto, unfolding(crate::specs::Head::line))]
    fn take(alloc: Global, cursor: &mut Cursor<'_>) -> Result<Line, Unspelled> {
        let number = take_u32(cursor)?;
        let text = take_text(alloc, cursor)?;
        Ok(Line { number, text })
    }

    #[tactic(auto, unfolding(crate::specs::Head::line))]
    fn put(out: &mut Bytes, value: &Line) -> Result<(), AllocError> {
        put_u32(out, value.number)?;
        put_text(out, value.text.as_slice())
    }

    ghost is_format = { line_is };
}

/// Lines whose numbers ascend by 1.
struct NextLine;

impl Order for NextLine {
    type Value = Line;

    ghost test = { is_next_line };

    fn is_before(a: &Line, b: &Line) -> bool {
        b.number as u64 == a.number as u64 + 1
    }
}

/// Whether the last line, if there is one, stands directly below the next one's number.
fn are_below(lines: &[Line], next: u32) -> bool
    ensures { result ≡ ends_below next lines.now }
{
    match lines.last() {
        Some(line) => next as u64 == line.number as u64 + 1,
        None => true,
    }
}

/// Takes held lines.
#[tactic(auto, unfolding(crate::specs::Head::lines))]
fn take_lines(alloc: Global, cursor: &mut Cursor<'_>) -> Result<LineList, Unspelled>
    ensures ok { IfOk result (λ x. lines.read cursor.old.rest.now ≡ Some (x, cursor.new.rest.now)) }
    ensures bad { IsErrOf result Bad → lines.read cursor.old.rest.now ≡ None }
{
    let count = take_u32(cursor)?;
    let found = take_many::<LineFormat>(alloc, cursor, count as usize)?;
    if ascend_in::<NextLine>(found.as_slice()) {
        return Ok(LineList::from_vec(found));
    }
    drop(found);
    Err(Unspelled::Bad)
}

/// Appends held lines.
#[tactic(auto, unfolding(crate::specs::Head::lines))]
fn put_lines(out: &mut Bytes, value: &LineList) -> Result<(), AllocError>
    requires { lines.fits value.now ≡ true }
    ensures { OnOk result (out.new ≡ out.old ++ lines.spell value.now) }
{
    put_count32(out, value.len())?;
    put_many::<LineFormat>(out, value.as_slice())
}

/// Takes what was printed.
#[tactic(auto, unfolding(crate::specs::Head::output))]
fn take_output(alloc: Global, cursor: &mut Cursor<'_>) -> Result<Output, Unspelled>
    ensures ok { IfOk result (λ x. output.read cursor.old.rest.now ≡ Some (x, cursor.new.rest.now)) }
    ensures bad { IsErrOf result Bad → output.read cursor.old.rest.now ≡ None }
{
    let printed = take_u32(cursor)?;
    let unfinished = take_text(alloc, cursor)?;
    let next = match take_u32(cursor) {
        Ok(next) => next,
        Err(error) => {
            drop(unfinished);
            return Err(error);
        }
    };
    let held = match take_lines(alloc, cursor) {
        Ok(held) => held,
        Err(error) => {
            drop(unfinished);
            return Err(error);
        }
    };
    if are_below(held.as_slice(), next) {
        return Ok(Output {
            printed,
            unfinished,
            next,
            held,
        });
    }
    drop(unfinished);
    drop(held);
    Err(Unspelled::Bad)
}

/// Appends what was printed.
#[tactic(auto, unfolding(crate::specs::Head::output))]
fn put_output(out: &mut Bytes, value: &Output) -> Result<(), AllocError>
    requires { output.fits value.now ≡ true }
    ensures { OnOk result (out.new ≡ out.old ++ output.spell value.now) }
{
    put_u32(out, value.printed)?;
    put_text(out, value.unfinished.as_slice())?;
    put_u32(out, value.next)?;
    put_lines(out, &value.held)
}

/// Takes the ticks of the closed intervals.
#[tactic(auto, unfolding(crate::specs::Head::window))]
fn take_window(alloc: Global, cursor: &mut Cursor<'_>) -> Result<Window, Unspelled>
    ensures ok { IfOk result (λ x. window.read cursor.old.rest.now ≡ Some (x, cursor.new.rest.now)) }
    ensures bad { IsErrOf result Bad → window.read cursor.old.rest.now ≡ None }
{
    let count = take_u8(cursor)?;
    if count > 8 {
        return Err(Unspelled::Bad);
    }
    let intervals = take_many::<Number64>(alloc, cursor, count as usize)?;
    let window = Window::of(alloc, intervals.as_slice());
    drop(intervals);
    Ok(window?)
}

/// Appends the ticks of the closed intervals.
#[tactic(auto, unfolding(crate::specs::Head::window))]
fn put_window(out: &mut Bytes, value: &Window) -> Result<(), AllocError>
    requires { window.fits value.now ≡ true }
    ensures { OnOk result (out.new ≡ out.old ++ window.spell value.now) }
{
    put_count8(out, value.len())?;
    let (older, newer) = value.parts();
    put_many::<Number64>(out, older)?;
    put_many::<Number64>(out, newer)
}

/// Takes a load.
#[tactic(auto, unfolding(crate::specs::Head::load))]
fn take_load(alloc: Global, cursor: &mut Cursor<'_>) -> Result<Load, Unspelled>
    ensures ok { IfOk result (λ x. load.read cursor.old.rest.now ≡ Some (x, cursor.new.rest.now)) }
    ensures bad { IsErrOf result Bad → load.read cursor.old.rest.now ≡ None }
{
    let current = take_u64(cursor)?;
    let window = take_window(alloc, cursor)?;
    Ok(Load { current, window })
}

/// Appends a load.
#[tactic(auto, unfolding(crate::specs::Head::load))]
fn put_load(out: &mut Bytes, value: &Load) -> Result<(), AllocError>
    requires { load.fits value.now ≡ true }
    ensures { OnOk result (out.new ≡ out.old ++ load.spell value.now) }
{
    put_u64(out, value.current)?;
    put_window(out, &value.window)
}

/// Takes a rank's ticks and how far it is with MPI.
fn take_clock(cursor: &mut Cursor<'_>) -> Result<(u64, Phase), Unspelled>
    ensures ok { IfOk result (λ x. (both number64 phase).read cursor.old.rest.now ≡ Some (x, cursor.new.rest.now)) }
    ensures bad { IsErrOf result Bad → (both number64 phase).read cursor.old.rest.now ≡ None }
{
    let ticks = take_u64(cursor)?;
    let phase = take_phase(cursor)?;
    Ok((ticks, phase))
}

/// Takes the position of the next instruction, and the depth of calls.
fn take_place(cursor: &mut Cursor<'_>) -> Result<(u32, u16), Unspelled>
    ensures ok { IfOk result (λ x. (both number32 (at_most 256 number16)).read cursor.old.rest.now ≡ Some (x, cursor.new.rest.now)) }
    ensures bad { IsErrOf result Bad → (both number32 (at_most 256 number16)).read cursor.old.rest.now ≡ None }
    ensures few { IfOk result (λ x. x.1 ≤ 256) }
{
    let position = take_u32(cursor)?;
    let depth = take_u16(cursor)?;
    if depth > 256 {
        return Err(Unspelled::Bad);
    }
    Ok((position, depth))
}

/// Takes what was printed, and the load.
fn take_results(alloc: Global, cursor: &mut Cursor<'_>) -> Result<(Output, Load), Unspelled>
    ensures ok { IfOk result (λ x. (both output load).read cursor.old.rest.now ≡ Some (x, cursor.new.rest.now)) }
    ensures bad { IsErrOf result Bad → (both output load).read cursor.old.rest.now ≡ None }
{
    let output = take_output(alloc, cursor)?;
    match take_load(alloc, cursor) {
        Ok(load) => Ok((output, load)),
        Err(error) => {
            drop(output);
            Err(error)
        }
    }
}

/// Takes the first parts of a rank.
#[tactic(auto, unfolding(crate::specs::Head::head))]
pub fn take_head(alloc: Global, cursor: &mut Cursor<'_>) -> Result<Head, Unspelled>
    ensures ok { IfOk result (λ x. head.read cursor.old.rest.now ≡ Some (x, cursor.new.rest.now)) }
    ensures bad { IsErrOf result Bad → head.read cursor.old.rest.now ≡ None }
    ensures few { IfOk result (λ x. x.regs.depth ≤ 256) }
{
    let (position, depth) = take_place(cursor)?;
    let ending = take_ending(cursor)?;
    let (ticks, phase) = take_clock(cursor)?;
    let (output, load) = take_results(alloc, cursor)?;
    if is_within(&load, ticks) {
        let regs = Regs {
            position,
            depth,
            ticks,
            output,
        };
        return Ok(Head {
            regs,
            ending,
            phase,
            load,
        });
    }
    drop(output);
    drop(load);
    Err(Unspelled::Bad)
}

/// Whether the intervals' ticks are no more than the ticks in all.
fn is_within(load: &Load, ticks: u64) -> bool
    ensures { result ≡ within_ticks load.now ticks }
{
    let (older, newer) = load.window.parts();
    total(older) + total(newer) + load.current as u128 <= ticks as u128
}

/// The sum of at most 8 intervals.
fn total(intervals: &[u64]) -> u128
    requires { length intervals.now ≤ 8 }
    ensures value { result ≡ sum intervals.now }
    ensures few { result < 2 ^ 68 }
{
    let mut total: u128 = 0;
    for ticks in intervals {
        total += *ticks as u128;
    }
    total
}

/// Appends the first parts of a rank.
#[tactic(auto, unfolding(crate::specs::Head::head))]
pub fn put_head(
    out: &mut Bytes,
    regs: &Regs,
    ending: &Ending,
    phase: Phase,
    load: &Load,
) -> Result<(), AllocError>
    requires { head.fits (record { regs = regs.now; ending = ending.now; phase = phase; load = load.now }) ≡ true }
    ensures { OnOk result (out.new ≡ out.old ++ head.spell (record { regs = regs.now; ending = ending.now; phase = phase; load = load.now })) }
{
    put_u32(out, regs.position)?;
    put_u16(out, regs.depth)?;
    put_ending(out, ending)?;
    put_u64(out, regs.ticks)?;
    put_phase(out, phase)?;
    put_results(out, &regs.output, load)
}

/// Appends what was printed, and the load.
fn put_results(out: &mut Bytes, printed: &Output, value: &Load) -> Result<(), AllocError>
    requires { (both output load).fits (printed.now, value.now) ≡ true }
    ensures { OnOk result (out.new ≡ out.old ++ (both output load).spell (printed.now, value.now)) }
{
    put_output(out, printed)?;
    put_load(out, value)
}
