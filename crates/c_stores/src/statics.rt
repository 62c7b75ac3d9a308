//! The bytes with which static objects begin.

ghost use Rattle.std.specs.List.{AllByRecursion};
ghost use Rattle.c_const.specs.Initials.{IsWithin};
ghost use Rattle.c_judge.specs.State.{Gives};
ghost use Rattle.c_stores.specs.Statics as statics;

use c_const::{ConstError, initial};
use c_judge::Checker;
use c_types::{Initial, Store};
use c_typing::Rule;
use std::alloc::{AllocError, Global};

/// The bytes and fixes of a static object, by what its initialiser stores. The first expression that isn't constant is told by its first token.
pub fn static_initial(
    checker: &mut Checker,
    alloc: Global,
    stores: &[Store],
) -> Result<Option<Initial>, AllocError>
    requires { AllByRecursion IsWithin stores.now }
    ensures { Gives result checker.new (statics.static_initial stores.now checker.old) }
{
    match initial(alloc, stores) {
        Ok(initial) => Ok(Some(initial)),
        Err(ConstError::NotConstant { token }) => {
            checker.note(token, Rule::NotConstant);
            Ok(None)
        }
        Err(ConstError::Memory) => Err(AllocError),
    }
}
