//! How a rank's line is released.

ghost use Rattle.std.specs.Prelude.{◌≡◌, ◌++◌, OnOk};
ghost use Rattle.am_base.specs.Released.{released_line};

use crate::{Bytes, RankId, decimal};
use std::alloc::AllocError;

/// Appends a line that the rank printed, as it is released. After an error `out` is only to be dropped.
pub fn append_released(out: &mut Bytes, rank: RankId, text: &[u8]) -> Result<(), AllocError>
    ensures { OnOk result (out.new ≡ out.old ++ released_line rank.0 text.now) }
{
    out.append(b"[")?;
    decimal(out, u64::from(rank.0))?;
    out.append(b"] ")?;
    out.append(text)?;
    out.append(b"\n")
}
