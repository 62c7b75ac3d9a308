//! What refuses a program.

ghost use Rattle.std.specs.Prelude.{◌≡◌, OnOk, IfErr};
ghost use Rattle.c_types.specs.Segment.{Refuses, TooLarge, Undefined, Twice, IsTooLarge, IsUndefinedUse, IsAccepted, is_defined};
ghost use Rattle.privatise.specs.First.{IsFirst};
ghost use Rattle.privatise.specs.Defined.{KnowsFunctions, KnowsObjects};
ghost use Rattle.privatise.specs.Answers.{IsWhy};

use crate::SegError;
use crate::definitions::{Definitions, of_functions, of_objects};
use crate::first::{earlier, first_of, is_at};
use crate::offsets::{SEGMENT_LIMIT, before_objects};
use c_types::{Program, TokenAt, Used};
use std::alloc::Global;

/// Tells the first refusal of the program, if there is one.
pub fn check(alloc: Global, program: &Program) -> Result<(), SegError>
    ensures ok { OnOk result (IsAccepted program.now) }
    ensures err { IfErr result (IsWhy program.now) }
{
    let functions = of_functions(alloc, program)?;
    let objects = of_objects(alloc, program)?;
    let too_large = too_large(program);
    let unknown = undefined_use(program, &functions, &objects);
    let undefined = or_missing_main(program, unknown);
    let twice = first_of(functions.second(), objects.second());
    told(program, too_large, undefined, twice)
}

/// The object with which the segment passes its limit.
fn too_large(program: &Program) -> Option<TokenAt>
    ensures { IsFirst (IsTooLarge program.now) result }
{
    let mut rooms = before_objects();
    for object in program.objects.as_slice() {
        if object.size > SEGMENT_LIMIT {
            return Some(object.at);
        }
        rooms.take(object.size, object.align);
        if rooms.end > SEGMENT_LIMIT {
            return Some(object.at);
        }
    }
    None
}

/// The first use of a name that no unit defines.
fn undefined_use(
    program: &Program,
    functions: &Definitions,
    objects: &Definitions,
) -> Option<TokenAt>
    requires functions { KnowsFunctions program.now functions.now }
    requires objects { KnowsObjects program.now objects.now }
    ensures { IsFirst (IsUndefinedUse program.now) result }
{
    let mut first = None;
    for name in program.uses.as_slice() {
        if !is_defined(program, name.used, functions, objects) {
            first = earlier(first, name.at);
        }
    }
    first
}

/// Whether a unit defines what the name names.
fn is_defined(program: &Program, used: Used, functions: &Definitions, objects: &Definitions) -> bool
    requires functions { KnowsFunctions program.now functions.now }
    requires objects { KnowsObjects program.now objects.now }
    ensures { result ≡ is_defined program.now used }
{
    match used {
        Used::Function(number) => functions.has(number),
        Used::Object(number) => objects.has(number),
    }
}

/// A `main` that no unit defines is missed at the first token of the first unit.
fn or_missing_main(program: &Program, unknown: Option<TokenAt>) -> Option<TokenAt>
    requires { IsFirst (IsUndefinedUse program.now) unknown }
    ensures { IsFirst (Refuses program.now Undefined) result }
{
    match program.main {
        Some(_) => unknown,
        None => Some(TokenAt { unit: 0, token: 0 }),
    }
}

/// The first of the three refusals, and of those at one token the first in this order.
fn told(
    program: &Program,
    too_large: Option<TokenAt>,
    undefined: Option<TokenAt>,
    twice: Option<TokenAt>,
) -> Result<(), SegError>
    requires too_large { IsFirst (Refuses program.now TooLarge) too_large }
    requires undefined { IsFirst (Refuses program.now Undefined) undefined }
    requires twice { IsFirst (Refuses program.now Twice) twice }
    ensures ok { OnOk result (IsAccepted program.now) }
    ensures err { IfErr result (IsWhy program.now) }
{
    let Some(at) = first_of(first_of(too_large, undefined), twice) else {
        return Ok(());
    };
    let TokenAt { unit, token } = at;
    if is_at(too_large, at) {
        return Err(SegError::TooLarge { unit, token });
    }
    if is_at(undefined, at) {
        return Err(SegError::Undefined { unit, token });
    }
    Err(SegError::Twice { unit, token })
}
