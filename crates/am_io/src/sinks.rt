//! Where a program writes.
ghost use Rattle.std.specs.Prelude.{◌≡◌, ℕ, ◌+◌, ◌≤◌, List, length, Option, OnOk, OnErr};
ghost use Rattle.std.specs.Io.KnownBytes.{Appends, Keeps};
ghost use Rattle.am_io.specs.Faults.{Rose};
ghost use Rattle.am_io.specs.Pieces.{AppendsPart};

use std::alloc::AllocError;
use thiserror::Error;

/// A write failed.
#[derive(Debug, Drop, Error)]
#[error("the output could not be written")]
pub struct SinkFailed;

/// Where a program writes.
pub trait Sink {
    // What was written, where it is told.
    ghost written: { Self → Option (List ℕ) };

    // How many writes have failed.
    ghost faults: { Self → ℕ };

    // How many bytes may be put without memory of the host.
    ghost spare: { Self → ℕ };

    /// Makes room for `n` bytes, so that putting them needs no memory.
    fn room(&mut self, n: usize) -> Result<(), AllocError>
        ensures ok { OnOk result (n ≤ spare self.new) }
        ensures err { OnErr result (spare self.new ≡ spare self.old) }
        ensures written { Keeps (written self.old) (written self.new) }
        ensures faults { faults self.new ≡ faults self.old };

    /// Writes the piece, or a first part of it where the write fails.
    fn put(&mut self, piece: &[u8]) -> Result<(), SinkFailed>
        requires { length piece.now ≤ spare self.old }
        ensures ok { OnOk result (Appends (written self.old) (written self.new) piece.now) }
        ensures spare { OnOk result (spare self.old ≤ spare self.new + length piece.now) }
        ensures kept { OnOk result (faults self.new ≡ faults self.old) }
        ensures part { OnErr result (AppendsPart (written self.old) (written self.new) piece.now) }
        ensures failed { OnErr result (Rose (faults self.old) (faults self.new)) }
        ensures later { faults self.old ≤ faults self.new };
}
