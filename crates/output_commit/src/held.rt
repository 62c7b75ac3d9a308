//! The lines that a rank holds back.

ghost use Rattle.std.specs.Prelude.{◌≡◌, ◌++◌, OnOk};
ghost use Rattle.am_base.specs.Released.{released_lines};
ghost use Rattle.output_commit.specs.Held.{AscendByOne, unreleased};

use am_base::{Bytes, Line, LineList, RankId, append_released};
use core::mem::replace_with;
use std::alloc::AllocError;

/// The held lines that aren't released yet, where lines below `released` are.
pub fn after(held: &LineList, released: u32) -> &[Line]
    requires { AscendByOne held.now }
    ensures { result.now ≡ unreleased released held.now }
{
    let lines = held.as_slice();
    let Some(first) = lines.first() else {
        return lines;
    };
    let gone = released.saturating_sub(first.number) as usize;
    &lines[gone.min(lines.len())..]
}

/// Drops the held lines that are released, where lines below `released` are.
pub fn drop_released(held: &mut LineList, released: u32)
    ensures { held.new ≡ unreleased released held.old }
{
    replace_with(held, released, without_released);
}

/// Appends lines of the rank as they are released. After an error `out` is only to be dropped.
///
/// # Errors
///
/// Only want of memory.
pub fn text(out: &mut Bytes, r: RankId, lines: &[Line]) -> Result<(), AllocError>
    ensures { OnOk result (out.new ≡ out.old ++ released_lines r.0 lines.now) }
{
    for line in lines {
        append_released(out, r, line.text.as_slice())?;
    }
    Ok(())
}

fn without_released(held: LineList, released: u32) -> (LineList, ())
    ensures { result.0 ≡ unreleased released held }
{
    let mut lines = held.into_vec();
    keep_from(&mut lines, released);
    (LineList::from_vec(lines), ())
}

fn keep_from(lines: &mut Vec<Line>, released: u32)
    ensures { lines.new.items ≡ unreleased released lines.old.items }
{
    lines.retain(|line| released <= line.number);
}
