//! From the texts of a program's files to its segment and its code, or the one refusal that is told.
#![tactic(auto)]

ghost use Rattle.std.specs.Prelude.{◌≤◌, length, IfOk, IfErr};
ghost use Rattle.c_compile.specs.Programs.{AreShort, IsCompiled, IsWhy};
ghost use Rattle.c_compile.specs.Once.{AnswersAreOne};

mod cause;
mod compiled;
mod error;
mod files;
mod known;
mod lines;
mod programs;
mod texts;

use am_base::Bytes;
use c_grammar_laws::{one_refusal, one_unit};
use c_types::refusal_is_one;
pub use cause::Cause;
use codegen::refusals_are_answered;
pub use compiled::Compiled;
pub use error::{CompileError, Refusal};
pub use known::known_where_included;
use std::alloc::Global;

/// Compiles the files of a program, each of fewer than 2^31 bytes.
///
/// # Errors
///
/// The refusal of the first file that is no source; where all are sources, the broken rule that is least by file, token and number; where none is
/// broken, the first refusal of the segment; where there is none, too many pending values, or a program outside of what code is made for. `Memory`
/// where memory runs out.
pub fn compile(alloc: Global, files: &[Bytes]) -> Result<Compiled, CompileError>
    requires few { length files.now ≤ 256 }
    requires short { AreShort files.now }
    // What is made is the files' program, its segment, and code that means it.
    ensures compiled { IfOk result (IsCompiled files.now) }
    // What is told of refused files is so: the cause, the file and the line.
    ensures refused { IfErr result (IsWhy files.now) }
{
    match files::sources_of(alloc, files) {
        Ok(sources) => programs::compile_sources(alloc, sources.as_slice()),
        Err(error) => Err(error),
    }
}

/// A law: files are compiled in one way, or refused for one cause, in one file and at one line.
pub fn answers_are_one()
    ensures { AnswersAreOne }
{
    c_lex::one_answer();
    one_unit();
    one_refusal();
    refusal_is_one();
    refusals_are_answered();
}
