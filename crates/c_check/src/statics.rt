//! Static objects with what they begin with (C11, 6.2.4p3, 6.7.9p4 and 6.9.2).

ghost use Rattle.std.specs.Prelude.{◌≡◌, IfOk, OnOk};
ghost use Rattle.std.specs.List.{AllByRecursion};
ghost use Rattle.std.specs.Option.{option_copied};
ghost use Rattle.c_const.specs.Initials.{IsWithin};
ghost use Rattle.c_check.specs.Draft.{Gives};
ghost use Rattle.c_check.specs.Statics as statics;
ghost use Rattle.c_check.specs.Statics.{type_of};

use crate::{Draft, Linkage, StorageWords};
use am_base::Bytes;
use c_ast::{Init, Name};
use c_judge::{Built, alignment};
use c_stores::{Initialised, initialise, static_initial};
use c_types::{CType, Initial, Named, StaticObject};
use c_typing::{copied_type, measured};
use sqlite_items::Items;
use std::alloc::{AllocError, Global};

impl Draft {
    /// Declares an object of a block with static storage.
    pub fn declare_static(
        &mut self,
        alloc: Global,
        name: &Name,
        of: CType,
        init: &Option<Init>,
    ) -> Result<(), AllocError>
        ensures { OnOk result (self.new ≡ statics.static_thing name.now of init.now self.old) }
    {
        let number = self.next_object();
        let place = match self.place_static(alloc, name, number, &of) {
            Ok(place) => place,
            Err(error) => {
                drop(of);
                return Err(error);
            }
        };
        match init {
            Some(init) => {
                let done = self.initialise_static(alloc, name, number, place, of, init)?;
                self.complete_static(alloc, name, number, done)
            }
            None => {
                self.fill(alloc, name, number, place, &of);
                drop(of);
                Ok(())
            }
        }
    }

    fn next_object(&mut self) -> u32
        ensures number { result ≡ self.old.checker.object_count }
        ensures counted { self.new ≡ statics.with_number self.old }
    {
        let number = self.checker.object_count;
        self.checker.object_count = number.wrapping_add(1);
        number
    }

    fn place_static(
        &mut self,
        alloc: Global,
        name: &Name,
        number: u32,
        of: &CType,
    ) -> Result<usize, AllocError>
        ensures { Gives result self.new (statics.static_placed name.now number of.now self.old) }
    {
        let of = copied_type(alloc, of)?;
        let meaning = Some(Named::Object { number, of });
        self.checker.declare_name(alloc, name, meaning)?;
        self.put_object(alloc, name.token, number)
    }

    /// Behind its initialiser an object has its size.
    fn complete_static(
        &mut self,
        alloc: Global,
        name: &Name,
        number: u32,
        of: Option<CType>,
    ) -> Result<(), AllocError>
        ensures { OnOk result (self.new ≡ statics.with_complete name.now number of self.old) }
    {
        match of {
            Some(of) => self.mean(alloc, name, Some(Named::Object { number, of })),
            None => Ok(()),
        }
    }

    /// What a static object begins with, at its place; its type behind the initialiser.
    #[tactic(auto, unfolding(crate::specs::Draft::then_with))]
    fn initialise_static(
        &mut self,
        alloc: Global,
        name: &Name,
        number: u32,
        place: usize,
        of: CType,
        init: &Init,
    ) -> Result<Option<CType>, AllocError>
        ensures { Gives result self.new (statics.initialised name.now number place of init.now self.old) }
    {
        let done = initialise(&mut self.checker, alloc, name.token, 0, of, init)?;
        self.end_static(alloc, name, number, place, done)
    }

    #[tactic(auto, unfolding(crate::specs::Draft::then_with))]
    fn end_static(
        &mut self,
        alloc: Global,
        name: &Name,
        number: u32,
        place: usize,
        done: Initialised,
    ) -> Result<Option<CType>, AllocError>
        requires { AllByRecursion IsWithin done.stores }
        ensures { Gives result self.new (statics.ended name.now number place done self.old) }
    {
        let Initialised { of, stores, .. } = done;
        let initial = static_initial(&mut self.checker, alloc, stores.as_slice());
        drop(stores);
        match initial {
            Ok(initial) => Ok(self.told(name, number, place, of, initial)),
            Err(error) => {
                drop(of);
                Err(error)
            }
        }
    }

    fn told(
        &mut self,
        name: &Name,
        number: u32,
        place: usize,
        of: Option<CType>,
        initial: Option<Initial>,
    ) -> Option<CType>
        ensures value { result ≡ of }
        ensures state { self.new ≡ statics.with_told name.now number place of initial self.old }
    {
        match (of, initial) {
            (Some(of), Some(initial)) => {
                self.put_filled(name, number, place, &of, initial);
                Some(of)
            }
            (of, initial) => {
                drop(initial);
                of
            }
        }
    }

    /// An object of the type whose bytes are zero, at its place.
    pub fn fill(&mut self, alloc: Global, name: &Name, number: u32, place: usize, of: &CType)
        ensures { self.new ≡ statics.with_filled name.now number place of.now statics.nothing_initial self.old }
    {
        let initial = Initial {
            bytes: Bytes::new(alloc),
            fixes: Items::new(alloc),
        };
        self.put_filled(name, number, place, of, initial);
    }

    fn put_filled(&mut self, name: &Name, number: u32, place: usize, of: &CType, initial: Initial)
        ensures { self.new ≡ statics.with_filled name.now number place of.now initial self.old }
    {
        let structs = self.checker.sight.structs.as_slice();
        let object = StaticObject {
            at: self.at(name.token),
            object: number,
            size: measured(of, structs).unwrap_or(0),
            align: alignment(of, structs),
            initial,
        };
        self.put_at(place, object);
    }

    /// Puts an object at its place.
    pub fn put_at(&mut self, place: usize, object: StaticObject)
        ensures { self.new ≡ statics.with_object_at place object self.old }
    {
        if place < self.checker.objects.len() {
            self.checker.objects.set(place, object);
        }
    }

    /// Declares an object outside all functions or with `extern`, and defines it where its declaration does.
    pub fn declare_linked(
        &mut self,
        alloc: Global,
        words: StorageWords,
        name: &Name,
        of: CType,
        init: &Option<Init>,
    ) -> Result<(), AllocError>
        ensures { OnOk result (self.new ≡ statics.linked_thing words name.now of init.now self.old) }
    {
        let has_init = init.is_some();
        let number = self.declare_object(alloc, words, name, of, has_init)?;
        match number {
            Some(number) => {
                if !self.defines(words, has_init) {
                    return Ok(());
                }
                self.define(alloc, name, number, init)
            }
            None => Ok(()),
        }
    }

    fn define(
        &mut self,
        alloc: Global,
        name: &Name,
        number: u32,
        init: &Option<Init>,
    ) -> Result<(), AllocError>
        ensures { OnOk result (self.new ≡ statics.with_definition name.now number init.now self.old) }
    {
        let place = self.begin_definition(alloc, name, number, init.is_some())?;
        match init {
            Some(init) => self.define_initialised(alloc, name, number, place, init),
            None => Ok(()),
        }
    }

    /// The type is the composite one, behind the initialiser the complete one.
    fn define_initialised(
        &mut self,
        alloc: Global,
        name: &Name,
        number: u32,
        place: usize,
        init: &Init,
    ) -> Result<(), AllocError>
        ensures { OnOk result (self.new ≡ statics.with_initialised name.now number place init.now self.old) }
    {
        let Some(of) = self.type_seen(alloc, name, number)? else {
            return Ok(());
        };
        match self.initialise_static(alloc, name, number, place, of, init)? {
            Some(of) => {
                let linkage = self.linkage_of(name.text.as_slice(), number);
                self.link(alloc, linkage, name, Built::Object(of))?;
                Ok(())
            }
            None => Ok(()),
        }
    }

    /// The type of an object where it is visible.
    fn type_seen(
        &self,
        alloc: Global,
        name: &Name,
        number: u32,
    ) -> Result<Option<CType>, AllocError>
        ensures { IfOk result (λ t. t ≡ statics.type_seen name.now number self.now) }
    {
        match type_of(self.checker.sight.look_up(name.text.as_slice()), number) {
            Some(of) => Ok(Some(copied_type(alloc, of)?)),
            None => Ok(None),
        }
    }

    fn linkage_of(&self, name: &[u8], number: u32) -> Linkage
        ensures { result ≡ statics.linkage_of name.now number self.now }
    {
        if self.has_number(Linkage::Internal, name, number) {
            Linkage::Internal
        } else {
            Linkage::External
        }
    }
}

/// The type of the object with this number that a name means.
pub fn type_of(meaning: Option<&Option<Named>>, number: u32) -> Option<&CType>
    ensures { option_copied result ≡ type_of (option_copied meaning.entry) number }
{
    match meaning {
        Some(Some(Named::Object { number: n, of })) => {
            if *n == number { Some(of) } else { None }
        }
        Some(_) | None => None,
    }
}
