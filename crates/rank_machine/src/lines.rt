//! At which line a trap is told.

ghost use Rattle.std.specs.Prelude.{◌≡◌};
ghost use Rattle.vm_code.specs.Lines.{Place, told_by, place_of};
ghost use Rattle.rank_machine.specs.Told.{told_or, line_at};

use vm_code::{Code, Instr, lines_are_told_before};

/// A line of a source.
#[derive(Clone, Copy)]
pub struct Line {
    pub unit: u8,
    pub line: u32,
}

/// Where a trap at the place in the code is told.
pub fn line_of(code: &Code, place: u64) -> Line
    ensures { result ≡ line_at code.now place }
{
    lines_are_told_before();
    let instrs = code.instrs.as_slice();
    let mut at = if place < instrs.len() as u64 {
        place as usize
    } else {
        instrs.len()
    };
    while at > 0 {
        at -= 1;
        if let Some(line) = told(instrs[at]) {
            return line;
        }
    }
    Line {
        unit: code.unit,
        line: code.line,
    }
}

/// The line that an instruction tells.
fn told(instr: Instr) -> Option<Line>
    ensures { (before : Place) → told_by before instr ≡ told_or before result }
{
    match instr {
        Instr::Tick { unit, line } => Some(Line { unit, line }),
        _ => None,
    }
}
