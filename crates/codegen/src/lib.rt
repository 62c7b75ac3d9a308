//! Makes the code of a typed program for the stack machine.
#![tactic(auto)]

ghost use Rattle.codegen.specs.Answers.{Answers, Checks, Makes};

mod check;
mod covers;
mod draft;
mod error;
mod expressions;
mod functions;
mod labels;
mod laws;
mod need;
mod sizes;
mod statement_sizes;
mod statements;

use c_types::{Main, Program};
use draft::Draft;
pub use error::GenError;
pub use laws::{
    laid_out_code_begins_with_main, laid_out_code_is_bounded, laid_out_code_means_its_program,
    refusals_are_answered, some_answer_is_there,
};
use rank_range::Segment;
use std::alloc::Global;
use vm_code::Code;

/// How many instructions are too many: their places would be no numbers of 32 bits.
const TOO_MANY: usize = 4_294_967_296;

/// Makes the code of a program with its segment. It means the program: wherever the program's run stands, the machine stops
/// there too.
///
/// # Errors
///
/// `TooComplex` where more than 32 values are pending at once in a full expression (this profile's own limit), with the first
/// token of the first such one. `NoMain` where the program has no `main`. `NotCovered` where `main` has no body or more than two
/// parameters, where a function without a body is called, or where a `for` begins with declarators and an expression both.
/// `TooLong` where the code would have 2^32 instructions or more. `Memory` where no memory is left; it is asked for only where
/// none of the first three is to be told.
pub fn generate(alloc: Global, program: &Program, segment: &Segment) -> Result<Code, GenError>
    ensures { Answers program.now segment.now result }
{
    match checked(program) {
        Err(error) => Err(error),
        Ok(main) => make(alloc, program, segment, main),
    }
}

/// The `main` of a program of which code can be made. It takes no memory.
fn checked(program: &Program) -> Result<Main, GenError>
    ensures { Checks program.now result }
{
    if let Some(at) = check::first_past(program.functions.as_slice()) {
        return Err(GenError::TooComplex {
            unit: at.unit,
            token: at.token,
        });
    }
    let Some(main) = program.main else {
        return Err(GenError::NoMain);
    };
    if !covers::covers_main(program, main) {
        return Err(GenError::NotCovered);
    }
    Ok(main)
}

/// Makes the code of a program with this `main`.
fn make(alloc: Global, program: &Program, segment: &Segment, main: Main) -> Result<Code, GenError>
    ensures { Makes program.now segment.now main result }
{
    let mut draft = Draft::new(alloc);
    let functions = functions::emit_program(alloc, &mut draft, program, segment, main)?;
    let Draft { instrs } = draft;
    if instrs.len() >= TOO_MANY {
        return Err(GenError::TooLong);
    }
    Ok(Code {
        instrs,
        functions,
        unit: main.unit,
        line: main.line,
    })
}
