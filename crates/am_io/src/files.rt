//! Where a program reads files.
ghost use Rattle.std.specs.Prelude.{◌≡◌, ℕ, ◌+◌, ◌≤◌, length, IfOk, OnOk, IsErrOf};
ghost use Rattle.am_io.specs.Faults.{Rose};
ghost use Rattle.am_io.specs.Contents.{Held, Loads};

use std::alloc::Global;
use thiserror::Error;

/// Why a file was not loaded.
#[derive(Debug, Drop, Error)]
pub enum LoadError {
    #[error("the file could not be read")]
    Failed,
    #[error("there is not enough memory")]
    Memory,
}

/// Where a program reads files.
pub trait Files {
    // The files that it holds, where they are told.
    ghost held: { Self → Held };

    // How many loads have failed.
    ghost faults: { Self → ℕ };

    /// Reads the file of that name, up to one byte more than `limit`, so that a caller sees that a file is too long.
    fn load(&mut self, alloc: Global, name: &str, limit: u64) -> Result<Vec<u8>, LoadError>
        ensures bytes { IfOk result (λ v. Loads (held self.old) name.now limit v.items) }
        ensures within { IfOk result (λ v. length v.items ≤ limit + 1) }
        ensures same { held self.new ≡ held self.old }
        ensures later { faults self.old ≤ faults self.new }
        ensures failed { IsErrOf result LoadError.Failed → Rose (faults self.old) (faults self.new) }
        ensures ok { OnOk result (faults self.new ≡ faults self.old) }
        ensures memory { IsErrOf result LoadError.Memory → faults self.new ≡ faults self.old };
}
