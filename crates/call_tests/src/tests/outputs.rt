//! What is released of a rank's held lines.

ghost use Rattle.std.specs.Prelude.{◌≡◌, ◌+◌, ◌≤◌, OnOk, IfOk};
ghost use Rattle.output_commit.specs.Held.{AscendByOne};

use am_base::{Bytes, Line, LineList, RankId};
use output_commit::{after, drop_released, text};
use std::alloc::{AllocError, Global};
use std::test::Fail;

/// What a rank holds: the numbers of its first line and of the one behind its last, and how many lines are released; and
/// what is then released of it.
const HELD: [(u32, u32, u32, &str); 8] = [
    (0, 0, 0, ""),
    (0, 0, 7, ""),
    (0, 2, 0, "[9] 0\n[9] 1\n"),
    (0, 2, 1, "[9] 1\n"),
    (0, 2, 2, ""),
    (0, 2, 9, ""),
    (3, 5, 1, "[9] 3\n[9] 4\n"),
    (3, 5, 4, "[9] 4\n"),
];

fn line(alloc: Global, number: u32) -> Result<Line, AllocError>
    ensures { IfOk result (λ line. line.number ≡ number) }
{
    let mut digits = Bytes::new(alloc);
    am_base::decimal(&mut digits, u64::from(number))?;
    Ok(Line {
        number,
        text: digits,
    })
}

/// At most two lines, from this number on.
fn held(alloc: Global, first: u32, end: u32) -> Result<LineList, AllocError>
    requires { first + 1 ≤ 1000 }
    ensures { IfOk result (λ lines. AscendByOne lines) }
{
    let mut lines = LineList::new(alloc);
    if first < end {
        lines.push(line(alloc, first)?)?;
    }
    if first + 1 < end {
        lines.push(line(alloc, first + 1)?)?;
    }
    Ok(lines)
}

/// Whether this is released, and the same again where the released lines were dropped before.
fn releases(
    alloc: Global,
    mut lines: LineList,
    released: u32,
    want: &str,
) -> Result<bool, AllocError>
    requires { AscendByOne lines }
{
    let mut before = Bytes::new(alloc);
    text(&mut before, RankId(9), after(&lines, released))?;
    drop_released(&mut lines, released);
    let mut behind = Bytes::new(alloc);
    text(&mut behind, RankId(9), lines.as_slice())?;
    Ok(before.as_slice() == want.as_bytes() && behind.as_slice() == want.as_bytes())
}

#[test]
fn a_line_is_released_once(rt: HostRuntime) -> Result<(), Fail> {
    for (first, end, released, want) in HELD {
        assert!(rt; first < 999);
        let lines = held(rt.alloc(), first, end)?;
        assert!(rt;
            releases(rt.alloc(), lines, released, want)?,
            "{first} {end} {released}"
        );
    }
    Ok(())
}
