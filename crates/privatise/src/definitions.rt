//! Which functions and objects are defined, and which are defined twice.

ghost use Rattle.std.specs.Prelude.{◌≡◌, ◌==◌, ◌||◌, ◌<◌, ◌^◌, ℕ, false, IfOk, OnOk, if◌then◌else◌};
ghost use Rattle.privatise.specs.First.{earlier};
ghost use Rattle.privatise.specs.Defined.{is_marked, KnowsFunctions, KnowsObjects};

use crate::first::earlier;
use c_types::{Program, TokenAt};
use std::alloc::{AllocError, Global};

/// The numbers that are defined, and the first token at which a number is defined that was defined before.
#[derive(Debug, Drop)]
pub struct Definitions {
    /// By number.
    marks: Vec<bool>,
    second: Option<TokenAt>,
}

impl Definitions {
    fn none(alloc: Global) -> Definitions
        ensures marks { (n : ℕ) → is_marked result n ≡ false }
        ensures second { result.second ≡ None }
    {
        Definitions {
            marks: Vec::new(alloc),
            second: None,
        }
    }

    /// Whether the number is defined.
    pub fn has(&self, number: u32) -> bool
        ensures { result ≡ is_marked self.now number }
    {
        let number = number as usize;
        number < self.marks.len() && self.marks[number]
    }

    /// The first token at which a number is defined that was defined before.
    pub fn second(&self) -> Option<TokenAt>
        ensures { result ≡ self.now.second }
    {
        self.second
    }

    /// Takes a definition more.
    fn define(&mut self, number: u32, at: TokenAt) -> Result<(), AllocError>
        ensures marks { OnOk result ((n : ℕ) → is_marked self.new n ≡ (is_marked self.old n || number == n)) }
        ensures second { OnOk result (self.new.second ≡ (if is_marked self.old number then earlier self.old.second at else self.old.second)) }
    {
        if self.has(number) {
            self.second = earlier(self.second, at);
            return Ok(());
        }
        self.mark(number as usize)
    }

    fn mark(&mut self, number: usize) -> Result<(), AllocError>
        requires { number < 2 ^ 32 }
        ensures marks { OnOk result ((n : ℕ) → is_marked self.new n ≡ (is_marked self.old n || number == n)) }
        ensures second { OnOk result (self.new.second ≡ self.old.second) }
    {
        let count = self.marks.len().max(number + 1);
        self.marks.resize(count, false)?;
        self.marks[number] = true;
        Ok(())
    }
}

/// The definitions of functions.
pub fn of_functions(alloc: Global, program: &Program) -> Result<Definitions, AllocError>
    ensures { IfOk result (KnowsFunctions program.now) }
{
    let mut definitions = Definitions::none(alloc);
    for definition in program.defined.as_slice() {
        definitions.define(definition.function, definition.at)?;
    }
    Ok(definitions)
}

/// The definitions of objects.
pub fn of_objects(alloc: Global, program: &Program) -> Result<Definitions, AllocError>
    ensures { IfOk result (KnowsObjects program.now) }
{
    let mut definitions = Definitions::none(alloc);
    for object in program.objects.as_slice() {
        definitions.define(object.object, object.at)?;
    }
    Ok(definitions)
}
