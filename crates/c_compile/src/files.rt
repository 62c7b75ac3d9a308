//! From files to sources.

ghost use Rattle.std.specs.Prelude.{◌≡◌, ◌<◌, ◌≤◌, ◌^◌, length, IfOk, IfErr};
ghost use Rattle.std.specs.List.{AllByRecursion};
ghost use Rattle.c_compile.specs.Programs as programs;
ghost use Rattle.c_compile.specs.Programs.{AreShort, AreSources, IsWhyOfFiles};

use crate::error::TextError;
use crate::texts::source_of;
use crate::{CompileError, Refusal};
use am_base::Bytes;
use c_check::Source;
use sqlite_items::Items;
use std::alloc::{AllocError, Global};

/// The sources that files are.
pub fn sources_of(alloc: Global, files: &[Bytes]) -> Result<Items<Source>, CompileError>
    requires few { length files.now ≤ 256 }
    requires short { AreShort files.now }
    ensures ok { IfOk result (λ sources. AreSources files.now sources) }
    ensures err { IfErr result (IsWhyOfFiles files.now) }
{
    let mut sources = Items::new(alloc);
    for (unit, text) in files.iter().enumerate() {
        match source_of(alloc, text.as_slice()) {
            Ok(source) => {
                if let Err(AllocError) = sources.push(source) {
                    drop(sources);
                    return Err(CompileError::Memory);
                }
            }
            Err(error) => {
                drop(sources);
                return Err(told_of_file(unit as u8, error));
            }
        }
    }
    Ok(sources)
}

fn told_of_file(unit: u8, error: TextError) -> CompileError
    ensures { result ≡ programs.told_of_file unit error }
{
    match error {
        TextError::Wrong { cause, line } => CompileError::Refused(Refusal { cause, unit, line }),
        TextError::Memory => CompileError::Memory,
    }
}
