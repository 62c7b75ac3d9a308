//! The report: how each rank stands, and how the run ended.
ghost use Rattle.std.specs.Prelude.{◌≡◌, ◌++◌, OnOk};
ghost use Rattle.w_model.specs.Texts.{rank_line, state_text, name_of, end_line};

use am_base::{Bytes, ProcId, RankId, decimal, signed_decimal};
use rank_range::Ending;
use std::alloc::AllocError;

/// How a run that is stuck ended.
#[derive(Clone, Copy, Debug, PartialEq, Eq)]
pub enum End {
    /// Every rank ended.
    Done,
    /// No rank was trapped, a rank hasn't ended, and none that hasn't is at the bound on ticks.
    Deadlock,
    /// No rank was trapped, and a rank that hasn't ended is at the bound on ticks.
    OutOfTicks,
    /// A rank was trapped, and this is the least.
    Trapped(RankId),
}

/// How far a rank came: whether it ended, its ticks, and the processor on which it stands.
#[derive(Clone, Copy, Debug, PartialEq, Eq)]
pub struct Standing {
    pub ending: Ending,
    pub ticks: u64,
    pub place: ProcId,
}

/// Appends the report's line of a rank that runs the program in these files, by their names. After an error `out` is only to be dropped.
pub fn append_rank(
    out: &mut Bytes,
    files: &[Bytes],
    rank: RankId,
    standing: Standing,
    bound: u64,
) -> Result<(), AllocError>
    ensures { OnOk result (out.new ≡ out.old ++ rank_line files.now rank.0 standing.ending standing.ticks bound standing.place.0) }
{
    out.append(b"rank ")?;
    decimal(out, u64::from(rank.0))?;
    append_state(out, files, standing, bound)?;
    out.append(b" ticks ")?;
    decimal(out, standing.ticks)?;
    out.append(b" on ")?;
    decimal(out, u64::from(standing.place.0))?;
    out.append(b"\n")
}

/// The name of a file by its number.
pub fn name_of(files: &[Bytes], unit: u8) -> &[u8]
    ensures { result.now ≡ name_of files.now unit }
{
    match files.get(usize::from(unit)) {
        Some(name) => name.as_slice(),
        None => &[],
    }
}

fn append_state(
    out: &mut Bytes,
    files: &[Bytes],
    standing: Standing,
    bound: u64,
) -> Result<(), AllocError>
    ensures { OnOk result (out.new ≡ out.old ++ state_text files.now standing.ending standing.ticks bound) }
{
    match standing.ending {
        Ending::Ended(status) => {
            out.append(b" ended ")?;
            signed_decimal(out, status)
        }
        Ending::Trapped(why) => {
            out.append(b" trapped ")?;
            out.append(why.cause.text())?;
            out.append(b" at ")?;
            out.append(name_of(files, why.unit))?;
            out.append(b":")?;
            decimal(out, u64::from(why.line))
        }
        Ending::Running if standing.ticks == bound => out.append(b" at bound"),
        Ending::Running => out.append(b" waiting"),
    }
}

/// Appends the report's last line. After an error `out` is only to be dropped.
pub fn append_end(out: &mut Bytes, end: End) -> Result<(), AllocError>
    ensures { OnOk result (out.new ≡ out.old ++ end_line end) }
{
    match end {
        End::Done => out.append(b"ampi: done\n"),
        End::Deadlock => out.append(b"ampi: deadlock\n"),
        End::OutOfTicks => out.append(b"ampi: out of ticks\n"),
        End::Trapped(rank) => {
            out.append(b"ampi: trapped rank ")?;
            decimal(out, u64::from(rank.0))?;
            out.append(b"\n")
        }
    }
}
