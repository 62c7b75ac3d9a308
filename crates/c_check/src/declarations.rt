//! Declarations (C11, 6.7), by what their specifiers and declarators are.

ghost use Rattle.std.specs.Prelude.{◌≡◌, IfOk, OnOk, map, reverse, []};
ghost use Rattle.c_judge.specs.Gathered.{nothing};
ghost use Rattle.c_judge.specs.Judging.{specifier, declarator};
ghost use Rattle.c_check.specs.Draft.{Gives};
ghost use Rattle.c_check.specs.Declarations as declarations;
ghost use Rattle.c_check.specs.Statements.{giving, with_declarations};

use crate::draft::line_at;
use crate::{Draft, StorageWords};
use c_ast::{Decl, Declarator, Init, InitDeclarator, Name, Specifier};
use c_judge::{Built, Gathered, Made, Shape, Standing, applied, copied_built, declared_name};
use c_types::{CType, Declared, FunctionType, Stmt as Typed};
use c_typing::Rule;
use sqlite_items::Items;
use std::alloc::{AllocError, Global};

impl Draft {
    /// The automatic declarators with initialisers that a declaration has.
    #[tactic(auto, unfolding(crate::specs::Draft::then_with, crate::specs::Declarations::declaration))]
    pub fn declaration(
        &mut self,
        alloc: Global,
        lines: &[u32],
        of: &Decl,
    ) -> Result<Items<Declared>, AllocError>
        ensures { Gives result self.new (declarations.declaration lines.now of.now self.old) }
    {
        let at = standing(of);
        let (words, built) = self.specified(alloc, of.specs.specifiers.as_slice(), at)?;
        let done = self.declare_all(alloc, lines, words, &built, of.declared.as_slice());
        drop(built);
        done
    }

    /// The same, as statements behind others.
    pub fn declare_in_block(
        &mut self,
        alloc: Global,
        lines: &[u32],
        of: &Decl,
        done: Items<Typed>,
    ) -> Result<Items<Typed>, AllocError>
        ensures { Gives result self.new (giving (with_declarations done) (declarations.declaration lines.now of.now self.old)) }
    {
        match self.declaration(alloc, lines, of) {
            Ok(declared) => with_declared(alloc, done, declared),
            Err(error) => {
                drop(done);
                Err(error)
            }
        }
    }

    /// What the specifiers of a declaration say of its storage, and the type that they are.
    #[tactic(auto, unfolding(crate::specs::Draft::then_with))]
    pub fn specified(
        &mut self,
        alloc: Global,
        specifiers: &[Specifier],
        at: Standing,
    ) -> Result<(StorageWords, Option<Built>), AllocError>
        ensures { Gives result self.new (declarations.specified (map specifier specifiers.now) at self.old) }
    {
        let gathered = self.gather(alloc, specifiers, at)?;
        let words = StorageWords::of(&gathered);
        self.note_if(
            words.is_extern && words.is_static,
            at.place,
            Rule::LinkagesDisagree,
        );
        Ok((words, gathered.built(alloc)))
    }

    fn gather(
        &mut self,
        alloc: Global,
        specifiers: &[Specifier],
        at: Standing,
    ) -> Result<Gathered, AllocError>
        ensures { Gives result self.new (declarations.gathered (map specifier specifiers.now) at nothing self.old) }
    {
        let mut gathered = Gathered::nothing();
        for one in specifiers {
            gathered = self.checker.specifier(alloc, one, at, gathered)?;
        }
        Ok(gathered)
    }

    #[tactic(auto, unfolding(crate::specs::Draft::then_with))]
    fn declare_all(
        &mut self,
        alloc: Global,
        lines: &[u32],
        words: StorageWords,
        built: &Option<Built>,
        declared: &[InitDeclarator],
    ) -> Result<Items<Declared>, AllocError>
        ensures { Gives result self.new (declarations.declare_all lines.now words built.now declared.now [] self.old) }
    {
        let mut done = Items::new(alloc);
        for one in declared {
            done = self.declare_next(alloc, lines, words, built, one, done)?;
        }
        Ok(done)
    }

    #[tactic(auto, unfolding(crate::specs::Draft::then_with))]
    fn declare_next(
        &mut self,
        alloc: Global,
        lines: &[u32],
        words: StorageWords,
        built: &Option<Built>,
        one: &InitDeclarator,
        done: Items<Declared>,
    ) -> Result<Items<Declared>, AllocError>
        ensures { Gives result self.new (declarations.declare_next lines.now words built.now one.now done self.old) }
    {
        match self.declare_one(alloc, lines, words, built, one) {
            Ok(declared) => with_one(done, declared),
            Err(error) => {
                drop(done);
                Err(error)
            }
        }
    }

    /// A declarator, and what its initialiser does.
    #[tactic(auto, unfolding(crate::specs::Draft::then_with))]
    fn declare_one(
        &mut self,
        alloc: Global,
        lines: &[u32],
        words: StorageWords,
        built: &Option<Built>,
        one: &InitDeclarator,
    ) -> Result<Option<Declared>, AllocError>
        ensures { Gives result self.new (declarations.declare_one lines.now words built.now one.now self.old) }
    {
        let built = copied_built(alloc, built)?;
        let of = self.declared_type(alloc, &one.declarator, false, built)?;
        let name = declared_name(&one.declarator);
        let line = line_at(lines, name.token);
        self.declare(alloc, line, words, name, of, &one.init)
    }

    /// The type that a declarator gives its name.
    #[tactic(auto, unfolding(crate::specs::Draft::then_with))]
    pub fn declared_type(
        &mut self,
        alloc: Global,
        of: &Declarator,
        keep: bool,
        built: Option<Built>,
    ) -> Result<Option<Built>, AllocError>
        ensures { Gives result self.new (declarations.declared_type (declarator of.now) keep built self.old) }
    {
        match self.checker.declarator(alloc, of, keep, Items::new(alloc)) {
            Ok(shapes) => self.shaped(declared_name(of).token, built, shapes),
            Err(error) => {
                drop(built);
                Err(error)
            }
        }
    }

    fn shaped(
        &mut self,
        token: u32,
        built: Option<Built>,
        shapes: Items<Shape>,
    ) -> Result<Option<Built>, AllocError>
        ensures { Gives result self.new (declarations.shaped token built shapes self.old) }
    {
        let Made { of, rule } = applied(self.checker.sight.structs.as_slice(), built, shapes)?;
        if let Some(rule) = rule {
            self.note(token, rule);
        }
        Ok(of)
    }

    /// A name is declared with a type, if it has one.
    fn declare(
        &mut self,
        alloc: Global,
        line: u32,
        words: StorageWords,
        name: &Name,
        of: Option<Built>,
        init: &Option<Init>,
    ) -> Result<Option<Declared>, AllocError>
        ensures { Gives result self.new (declarations.declare line words name.now of init.now self.old) }
    {
        match of {
            None => {
                self.declare_unknown(alloc, words, name)?;
                Ok(None)
            }
            Some(of) => {
                if words.is_typedef {
                    self.note_if(init.is_some(), name.token, Rule::InitialiserUnfit);
                    self.declare_typedef(alloc, name, of)?;
                    return Ok(None);
                }
                match of {
                    Built::Function(of) => {
                        self.declare_plain_function(alloc, words, name, of, init.is_some())?;
                        Ok(None)
                    }
                    Built::Object(of) => self.declare_thing(alloc, line, words, name, of, init),
                }
            }
        }
    }

    /// A function has no initialiser (C11, 6.7.9p3).
    fn declare_plain_function(
        &mut self,
        alloc: Global,
        words: StorageWords,
        name: &Name,
        of: FunctionType,
        has_init: bool,
    ) -> Result<(), AllocError>
        ensures { OnOk result (self.new ≡ declarations.with_function words name.now of has_init self.old) }
    {
        self.note_if(has_init, name.token, Rule::Incomplete);
        self.declare_function(alloc, words, name, of)?;
        Ok(())
    }

    /// A name whose declaration breaks a rule is in scope, and means nothing.
    pub fn declare_unknown(
        &mut self,
        alloc: Global,
        words: StorageWords,
        name: &Name,
    ) -> Result<(), AllocError>
        ensures { OnOk result (self.new ≡ declarations.with_unknown words name.now self.old) }
    {
        if words.is_typedef || (self.is_in_block() && !words.is_extern) {
            return self.checker.declare_name(alloc, name, None);
        }
        self.mean(alloc, name, None)
    }

    /// An object is declared.
    fn declare_thing(
        &mut self,
        alloc: Global,
        line: u32,
        words: StorageWords,
        name: &Name,
        of: CType,
        init: &Option<Init>,
    ) -> Result<Option<Declared>, AllocError>
        ensures { Gives result self.new (declarations.declare_thing line words name.now of init.now self.old) }
    {
        if !self.is_in_block() || words.is_extern {
            self.declare_linked(alloc, words, name, of, init)?;
            return Ok(None);
        }
        if self.lacks_room(&of, init.is_some()) {
            drop(of);
            self.refuse_local(alloc, name)?;
            return Ok(None);
        }
        if words.is_static {
            self.declare_static(alloc, name, of, init)?;
            return Ok(None);
        }
        self.declare_automatic(alloc, line, name, of, init)
    }
}

/// Where the specifiers of a declaration stand.
fn standing(of: &Decl) -> Standing
    ensures { result ≡ declarations.standing of.now }
{
    match of.declared.as_slice().first() {
        Some(first) => Standing {
            place: declared_name(&first.declarator).token,
            is_alone: false,
        },
        None => Standing {
            place: of.specs.token,
            is_alone: true,
        },
    }
}

fn with_one(
    done: Items<Declared>,
    declared: Option<Declared>,
) -> Result<Items<Declared>, AllocError>
    ensures { IfOk result (λ ds. ds ≡ declarations.with_one done declared) }
{
    let mut done = done;
    match declared {
        Some(declared) => match done.push(declared) {
            Ok(()) => Ok(done),
            Err(error) => {
                drop(done);
                Err(error)
            }
        },
        None => Ok(done),
    }
}

/// The same, the last one first.
fn reversed(alloc: Global, declared: Items<Declared>) -> Result<Items<Declared>, AllocError>
    ensures { IfOk result (λ ds. ds ≡ reverse declared) }
{
    let mut left = declared;
    let mut back = Items::new(alloc);
    while let Some(one) = left.pop() {
        match back.push(one) {
            Ok(()) => {}
            Err(error) => {
                drop(left);
                drop(back);
                return Err(error);
            }
        }
    }
    drop(left);
    Ok(back)
}

/// Declarators as statements, behind others.
fn with_declared(
    alloc: Global,
    done: Items<Typed>,
    declared: Items<Declared>,
) -> Result<Items<Typed>, AllocError>
    ensures { IfOk result (λ ss. ss ≡ with_declarations done declared) }
{
    let mut done = done;
    let mut left = match reversed(alloc, declared) {
        Ok(left) => left,
        Err(error) => {
            drop(done);
            return Err(error);
        }
    };
    while let Some(one) = left.pop() {
        match done.push(Typed::Declare(one)) {
            Ok(()) => {}
            Err(error) => {
                drop(left);
                drop(done);
                return Err(error);
            }
        }
    }
    drop(left);
    Ok(done)
}
