//! Objects that are declared outside all functions or with `extern`, and their definitions (C11, 6.7 and 6.9.2).

ghost use Rattle.std.specs.Prelude.{◌≡◌, OnOk};
ghost use Rattle.c_check.specs.Draft.{Gives};
ghost use Rattle.c_check.specs.Objects as objects;

use crate::declaring::is_main;
use crate::{Begun, Draft, Linkage, StorageWords};
use am_base::Bytes;
use c_ast::Name;
use c_judge::Built;
use c_types::{CType, Initial, Part, StaticObject, TokenAt};
use c_typing::{Rule, measured};
use rank_range::Width;
use sqlite_items::Items;
use std::alloc::{AllocError, Global};

impl Draft {
    /// Declares an object outside all functions or with `extern`, and gives its number if no rule is broken.
    pub fn declare_object(
        &mut self,
        alloc: Global,
        words: StorageWords,
        name: &Name,
        of: CType,
        has_init: bool,
    ) -> Result<Option<u32>, AllocError>
        ensures { Gives result self.new (objects.object words name.now of has_init self.old) }
    {
        let is_unfit = self.is_in_block() && has_init;
        self.note_if(is_main(name), name.token, Rule::BadMain);
        self.note_if(is_unfit, name.token, Rule::InitialiserUnfit);
        if self.is_taken(false, name) {
            drop(of);
            self.note(name.token, Rule::DeclaredTwice);
            return Ok(None);
        }
        match self.linkage(words, false, name.text.as_slice()) {
            Some(linkage) => self.link_object(alloc, words, linkage, name, of, has_init),
            None => {
                drop(of);
                self.disagree(alloc, name)
            }
        }
    }

    fn link_object(
        &mut self,
        alloc: Global,
        words: StorageWords,
        linkage: Linkage,
        name: &Name,
        of: CType,
        has_init: bool,
    ) -> Result<Option<u32>, AllocError>
        ensures { Gives result self.new (objects.linked_object words linkage name.now of has_init self.old) }
    {
        if self.defines(words, has_init) && self.lacks_type(linkage, &of, has_init) {
            drop(of);
            self.note(name.token, Rule::Incomplete);
            self.mean(alloc, name, None)?;
            return Ok(None);
        }
        self.link(alloc, linkage, name, Built::Object(of))
    }

    /// Whether a declaration of an object defines it (C11, 6.9.2p1 and p2).
    pub fn defines(&self, words: StorageWords, has_init: bool) -> bool
        ensures { result ≡ objects.defines words has_init self.now }
    {
        !self.is_in_block() && (!words.is_extern || has_init)
    }

    /// Whether the definition of an object needs a type that is complete, and has none. An initialiser completes the type of an array
    /// (C11, 6.7.9p22 and 6.9.2p3).
    fn lacks_type(&self, linkage: Linkage, of: &CType, has_init: bool) -> bool
        ensures { result ≡ objects.lacks_type linkage of.now has_init self.now }
    {
        let is_complete = measured(of, self.checker.sight.structs.as_slice()).is_some();
        if is_complete {
            return false;
        }
        if has_init {
            !is_open_array(of)
        } else {
            is_internal(linkage)
        }
    }

    /// The place in the list of objects of what defines an object at a name. A tentative definition stands for later ones of its
    /// unit, and of two with initialisers each has a place of its own.
    pub fn begin_definition(
        &mut self,
        alloc: Global,
        name: &Name,
        number: u32,
        has_init: bool,
    ) -> Result<usize, AllocError>
        ensures { Gives result self.new (objects.definition name.now number has_init self.old) }
    {
        match self.begun.look_up(name.text.as_slice()) {
            Some(begun) => {
                let (place, is_initialised) = (begun.place, begun.is_initialised);
                if is_initialised && has_init {
                    return self.put_object(alloc, name.token, number);
                }
                self.put_begun(alloc, name, number, place, is_initialised || has_init)?;
                Ok(place)
            }
            None => {
                let place = self.put_object(alloc, name.token, number)?;
                self.put_begun(alloc, name, number, place, has_init)?;
                Ok(place)
            }
        }
    }

    fn put_begun(
        &mut self,
        alloc: Global,
        name: &Name,
        number: u32,
        place: usize,
        is_initialised: bool,
    ) -> Result<(), AllocError>
        ensures { OnOk result (self.new ≡ objects.with_begun name.now number place is_initialised self.old) }
    {
        let text = Bytes::from_slice(alloc, name.text.as_slice())?;
        let begun = Begun {
            name: Bytes::from_slice(alloc, name.text.as_slice())?,
            token: name.token,
            number,
            place,
            is_initialised,
        };
        self.begun.declare(text, begun)
    }

    /// A place for an object that is defined at a token. What it has is told later.
    pub fn put_object(
        &mut self,
        alloc: Global,
        token: u32,
        number: u32,
    ) -> Result<usize, AllocError>
        ensures { Gives result self.new (objects.placed token number self.old) }
    {
        let place = self.checker.objects.len();
        let object = empty_object(alloc, self.at(token), number, 0, Width::One);
        self.checker.objects.push(object)?;
        Ok(place)
    }

    pub fn at(&self, token: u32) -> TokenAt
        ensures { result ≡ objects.at token self.now }
    {
        TokenAt {
            unit: self.checker.unit,
            token,
        }
    }
}

/// An object whose bytes are zero.
pub fn empty_object(
    alloc: Global,
    at: TokenAt,
    object: u32,
    size: u64,
    align: Width,
) -> StaticObject
    ensures { result ≡ objects.empty_object at object size align }
{
    StaticObject {
        at,
        object,
        size,
        align,
        initial: Initial {
            bytes: Bytes::new(alloc),
            fixes: Items::new(alloc),
        },
    }
}

fn is_internal(linkage: Linkage) -> bool
    ensures { result ≡ objects.is_internal linkage }
{
    match linkage {
        Linkage::Internal => true,
        Linkage::External => false,
    }
}

pub fn is_open_array(of: &CType) -> bool
    ensures { result ≡ objects.is_open_array of.now }
{
    match of.parts.as_slice().last() {
        Some(Part::OpenArray) => true,
        Some(_) | None => false,
    }
}
