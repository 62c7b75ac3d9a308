//! From sources to a program, its segment and its code.

ghost use Rattle.std.specs.Prelude.{◌≡◌, IfOk, IfErr};
ghost use Rattle.c_types.specs.Segment.{SegmentOf};
ghost use Rattle.c_compile.specs.Programs as programs;
ghost use Rattle.c_compile.specs.Programs.{line_at, IsMadeOf, IsWhyOfSources, IsWhyOfProgram, IsMadeWith};

use crate::lines::line_in;
use crate::{Cause, CompileError, Compiled, Refusal};
use c_check::{CheckError, Source, check};
use c_types::{Program, TokenAt};
use codegen::{GenError, generate};
use privatise::{SegError, privatise};
use rank_range::Segment;
use std::alloc::Global;

/// What sources are compiled to.
pub fn compile_sources(alloc: Global, sources: &[Source]) -> Result<Compiled, CompileError>
    ensures ok { IfOk result (IsMadeOf sources.now) }
    ensures err { IfErr result (IsWhyOfSources sources.now) }
{
    match check(alloc, sources) {
        Ok(program) => compile_program(alloc, sources, program),
        Err(error) => Err(told_by_check(sources, error)),
    }
}

fn compile_program(
    alloc: Global,
    sources: &[Source],
    program: Program,
) -> Result<Compiled, CompileError>
    ensures ok { IfOk result (IsMadeWith program) }
    ensures err { IfErr result (IsWhyOfProgram sources.now program) }
{
    match privatise(alloc, &program) {
        Ok(segment) => compile_with_segment(alloc, sources, program, segment),
        Err(error) => {
            drop(program);
            Err(told_of_segment(sources, error))
        }
    }
}

fn compile_with_segment(
    alloc: Global,
    sources: &[Source],
    program: Program,
    segment: Segment,
) -> Result<Compiled, CompileError>
    requires { SegmentOf program segment }
    ensures ok { IfOk result (IsMadeWith program) }
    ensures err { IfErr result (IsWhyOfProgram sources.now program) }
{
    match generate(alloc, &program, &segment) {
        Ok(code) => Ok(Compiled {
            program,
            segment,
            code,
        }),
        Err(error) => {
            drop(program);
            drop(segment);
            Err(told_of_code(sources, error))
        }
    }
}

fn told_by_check(sources: &[Source], error: CheckError) -> CompileError
    ensures { result ≡ programs.told_by_check sources.now error }
{
    match error {
        CheckError::Rule { rule, unit, token } => {
            refused_at(sources, Cause::Rule(rule), TokenAt { unit, token })
        }
        CheckError::Memory => CompileError::Memory,
    }
}

fn told_of_segment(sources: &[Source], error: SegError) -> CompileError
    ensures { result ≡ programs.told_of_segment sources.now error }
{
    match error {
        SegError::TooLarge { unit, token } => {
            refused_at(sources, Cause::TooLarge, TokenAt { unit, token })
        }
        SegError::Undefined { unit, token } => {
            refused_at(sources, Cause::Undefined, TokenAt { unit, token })
        }
        SegError::Twice { unit, token } => {
            refused_at(sources, Cause::Twice, TokenAt { unit, token })
        }
        SegError::Memory => CompileError::Memory,
    }
}

/// What has a segment has a `main`.
fn told_of_code(sources: &[Source], error: GenError) -> CompileError
    ensures { result ≡ programs.told_of_code sources.now error }
{
    match error {
        GenError::TooComplex { unit, token } => {
            refused_at(sources, Cause::TooComplex, TokenAt { unit, token })
        }
        GenError::NoMain => refused_at(sources, Cause::Undefined, TokenAt { unit: 0, token: 0 }),
        GenError::NotCovered | GenError::TooLong => CompileError::Refused(Refusal {
            cause: Cause::NotBuilt,
            unit: 0,
            line: 1,
        }),
        GenError::Memory => CompileError::Memory,
    }
}

/// The refusal at a token.
fn refused_at(sources: &[Source], cause: Cause, at: TokenAt) -> CompileError
    ensures { result ≡ programs.told_at sources.now cause at }
{
    CompileError::Refused(Refusal {
        cause,
        unit: at.unit,
        line: line_at(sources, at),
    })
}

/// The line of a token of these sources.
fn line_at(sources: &[Source], at: TokenAt) -> u32
    ensures { result ≡ line_at sources.now at }
{
    match sqlite_items::at(sources, at.unit as usize) {
        Some(source) => line_in(source.lines.as_slice(), at.token),
        None => 1,
    }
}
