//! Objects of blocks, which have no linkage (C11, 6.2.4 and 6.7.9).

ghost use Rattle.std.specs.Prelude.{◌≡◌, OnOk};
ghost use Rattle.c_check.specs.Draft.{Gives};
ghost use Rattle.c_check.specs.Locals as locals;

use crate::Draft;
use crate::objects::is_open_array;
use c_ast::{Init, Name};
use c_stores::{Initialised, initialise};
use c_types::{CType, Declared, Named, Span};
use c_typing::{Rule, copied_type, measured};
use std::alloc::{AllocError, Global};

impl Draft {
    /// Whether an object of a block has no complete type. An initialiser completes the type of an array (C11, 6.7p7 and 6.7.9p22).
    pub fn lacks_room(&self, of: &CType, has_init: bool) -> bool
        ensures { result ≡ locals.lacks_room of.now has_init self.now }
    {
        measured(of, self.checker.sight.structs.as_slice()).is_none()
            && !(has_init && is_open_array(of))
    }

    /// An object of a block without a complete type.
    pub fn refuse_local(&mut self, alloc: Global, name: &Name) -> Result<(), AllocError>
        ensures { OnOk result (self.new ≡ locals.refused name.now self.old) }
    {
        self.note(name.token, Rule::Incomplete);
        self.checker.declare_name(alloc, name, None)
    }

    /// Declares an automatic object at a line; what its initialiser does, if it has one.
    pub fn declare_automatic(
        &mut self,
        alloc: Global,
        line: u32,
        name: &Name,
        of: CType,
        init: &Option<Init>,
    ) -> Result<Option<Declared>, AllocError>
        ensures { Gives result self.new (locals.automatic line name.now of init.now self.old) }
    {
        match init {
            Some(init) => self.declare_initialised(alloc, line, name, of, init),
            None => {
                let offset = self.checker.take_room(&of);
                let meaning = Some(Named::Local { offset, of });
                self.checker.declare_name(alloc, name, meaning)?;
                Ok(None)
            }
        }
    }

    /// The name is in scope in its initialiser (C11, 6.2.1p7). Only behind it an array's size may be known.
    #[tactic(auto, unfolding(crate::specs::Draft::then_with))]
    fn declare_initialised(
        &mut self,
        alloc: Global,
        line: u32,
        name: &Name,
        of: CType,
        init: &Init,
    ) -> Result<Option<Declared>, AllocError>
        ensures { Gives result self.new (locals.initialised line name.now of init.now self.old) }
    {
        let offset = self.next_offset(&of);
        match self.declare_at(alloc, name, offset, &of) {
            Ok(()) => {
                let done = initialise(&mut self.checker, alloc, name.token, offset, of, init)?;
                self.end_automatic(alloc, line, name, offset, done)
            }
            Err(error) => {
                drop(of);
                Err(error)
            }
        }
    }

    /// Where the next local of the type begins in the frame.
    fn next_offset(&mut self, of: &CType) -> u64
        ensures offset { result ≡ locals.next_offset of.now self.old }
        ensures same { self.new ≡ self.old }
    {
        let before = self.checker.rooms;
        let offset = self.checker.take_room(of);
        self.checker.rooms = before;
        offset
    }

    fn declare_at(
        &mut self,
        alloc: Global,
        name: &Name,
        offset: u64,
        of: &CType,
    ) -> Result<(), AllocError>
        ensures { OnOk result (self.new ≡ locals.with_local name.now offset of.now self.old) }
    {
        let of = copied_type(alloc, of)?;
        let meaning = Some(Named::Local { offset, of });
        self.checker.declare_name(alloc, name, meaning)
    }

    fn end_automatic(
        &mut self,
        alloc: Global,
        line: u32,
        name: &Name,
        offset: u64,
        done: Initialised,
    ) -> Result<Option<Declared>, AllocError>
        ensures { Gives result self.new (locals.ended line name.now offset done self.old) }
    {
        let Initialised { of, zeros, stores } = done;
        let Some(of) = of else {
            drop(stores);
            return Ok(None);
        };
        let size = measured(&of, self.checker.sight.structs.as_slice()).unwrap_or(0);
        self.checker.take_room(&of);
        match self.mean(alloc, name, Some(Named::Local { offset, of })) {
            Ok(()) => Ok(Some(Declared {
                line,
                zeros: span(zeros, offset, size),
                stores,
            })),
            Err(error) => {
                drop(stores);
                Err(error)
            }
        }
    }
}

fn span(zeros: bool, offset: u64, size: u64) -> Option<Span>
    ensures { result ≡ locals.span zeros offset size }
{
    if zeros {
        Some(Span { offset, size })
    } else {
        None
    }
}
