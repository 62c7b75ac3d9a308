//! The code of functions and of a program.

ghost use Rattle.std.specs.Prelude.{◌≡◌, ◌+◌, ◌<◌, ◌^◌, OnOk, IfOk, length};
ghost use Rattle.c_model.specs.Statements.{parameters_of, parameter_count};
ghost use Rattle.codegen.specs.Statements.{body_part, function_part, functions_part, entry_at, entries_from, offset_in, program_part};
ghost use Rattle.codegen.specs.Making.{Adds};

use crate::draft::Draft;
use crate::statement_sizes::all_size;
use crate::statements::{Places, emit_stmts};
use c_types::{Body, Function, Main, Parameter, Program};
use rank_range::Segment;
use sqlite_items::Items;
use std::alloc::{AllocError, Global};
use vm_code::{Function as CodeFunction, Instr, Parameter as CodeParameter};

/// The statements of a function, and behind them a return of 0.
fn emit_body(draft: &mut Draft, segment: &Segment, body: &Body) -> Result<(), AllocError>
    ensures { OnOk result (Adds draft.old draft.new (body_part (offset_in segment.now) body.now)) }
{
    let end = draft.ahead(all_size(body.stmts.as_slice()));
    let places = Places {
        to_break: end,
        to_continue: end,
    };
    emit_stmts(draft, segment, body.unit, places, body.stmts.as_slice())?;
    draft.put(Instr::Push(0))?;
    draft.put(Instr::Return)
}

fn emit_function(
    draft: &mut Draft,
    segment: &Segment,
    function: &Function,
) -> Result<(), AllocError>
    ensures { OnOk result (Adds draft.old draft.new (function_part (offset_in segment.now) function.now)) }
{
    match &function.body {
        None => Ok(()),
        Some(body) => emit_body(draft, segment, body),
    }
}

fn parameters_of(
    alloc: Global,
    parameters: &[Parameter],
) -> Result<Items<CodeParameter>, AllocError>
    ensures { IfOk result (λ made. made ≡ parameters_of parameters.now) }
{
    let mut made: Items<CodeParameter> = Items::new(alloc);
    for parameter in parameters {
        made.push(CodeParameter {
            offset: parameter.offset,
            kind: parameter.kind,
        })?;
    }
    Ok(made)
}

/// A function as the code has it, where it begins at this place.
fn entry_of(alloc: Global, place: u32, body: &Option<Body>) -> Result<CodeFunction, AllocError>
    ensures { IfOk result (λ entry. entry ≡ entry_at place body.now) }
{
    match body {
        None => Ok(CodeFunction {
            place,
            frame: 0,
            parameters: Items::new(alloc),
        }),
        Some(defined) => {
            let parameters = parameters_of(alloc, defined.parameters.as_slice())?;
            Ok(CodeFunction {
                place,
                frame: defined.frame,
                parameters,
            })
        }
    }
}

/// How many parameters a function has.
fn parameter_count(program: &Program, number: u32) -> u64
    ensures { result ≡ parameter_count program.now number }
{
    match program.functions.get(number as usize) {
        None => 0,
        Some(function) => match &function.body {
            None => 0,
            Some(body) => body.parameters.len() as u64,
        },
    }
}

/// The code of functions in their order, and where each stands.
fn emit_functions(
    alloc: Global,
    draft: &mut Draft,
    segment: &Segment,
    functions: &[Function],
) -> Result<Items<CodeFunction>, AllocError>
    ensures code { OnOk result (Adds draft.old draft.new (functions_part (offset_in segment.now) functions.now)) }
    ensures entries { IfOk result (λ entries. length draft.new.instrs < 2 ^ 32 → entries ≡ entries_from (offset_in segment.now) (length draft.old.instrs) functions.now) }
{
    let mut entries: Items<CodeFunction> = Items::new(alloc);
    for function in functions {
        let entry = entry_of(alloc, draft.end(), &function.body)?;
        entries.push(entry)?;
        emit_function(draft, segment, function)?;
    }
    Ok(entries)
}

/// The code of a program, and where its functions stand in it.
pub fn emit_program(
    alloc: Global,
    draft: &mut Draft,
    program: &Program,
    segment: &Segment,
    main: Main,
) -> Result<Items<CodeFunction>, AllocError>
    ensures code { OnOk result (Adds draft.old draft.new (program_part program.now segment.now main)) }
    ensures entries { IfOk result (λ entries. length draft.new.instrs < 2 ^ 32 → entries ≡ entries_from (offset_in segment.now) (length draft.old.instrs + 1) program.now.functions) }
{
    draft.put(Instr::Call {
        function: main.function,
        arguments: parameter_count(program, main.function),
    })?;
    emit_functions(alloc, draft, segment, program.functions.as_slice())
}
