//! Names in scope with what they mean.

ghost use Rattle.std.specs.Prelude.{◌≡◌, ◌≤◌, [], ◌∷◌, ◌++◌, length, take, OnOk, OnErr};
ghost use Rattle.std.specs.Option.{option_copied};
ghost use Rattle.c_types.specs.Names.{meant};

use crate::NameTable;
use am_base::Bytes;
use sqlite_items::Items;
use std::alloc::{AllocError, Global};

/// The names in scope, and what each means, both in the order of their declarations.
#[derive(Debug, Drop)]
pub struct Scope<T> {
    pub names: NameTable,
    pub meanings: Items<T>,
}

impl<T: Drop> Scope<T> {
    pub fn new(alloc: Global) -> Scope<T>
        ensures names { result.names ≡ [] }
        ensures meanings { result.meanings ≡ [] }
    {
        Scope {
            names: NameTable::new(alloc),
            meanings: Items::new(alloc),
        }
    }

    pub fn declare(&mut self, name: Bytes, meaning: T) -> Result<(), AllocError>
        ensures names { OnOk result (self.new.names ≡ self.old.names ++ name ∷ []) }
        ensures meanings { OnOk result (self.new.meanings ≡ self.old.meanings ++ meaning ∷ []) }
        ensures err { OnErr result (self.new ≡ self.old) }
    {
        self.meanings.push(meaning)?;
        let Err(error) = self.names.declare(name) else {
            return Ok(());
        };
        self.meanings.pop();
        Err(error)
    }

    /// What a name means by its innermost declaration.
    #[tactic(auto, unfolding(crate::specs::Names::meant))]
    pub fn look_up(&self, name: &[u8]) -> Option<&T>
        ensures { option_copied result ≡ meant self.now.names self.now.meanings name.now }
    {
        match self.names.find(name) {
            Some(place) => sqlite_items::at(self.meanings.as_slice(), place),
            None => None,
        }
    }

    /// Takes the names that were declared behind the first `len` ones out of scope.
    pub fn close(&mut self, len: usize)
        requires names { len ≤ length self.old.names }
        requires meanings { len ≤ length self.old.meanings }
        ensures names { self.new.names ≡ take len self.old.names }
        ensures meanings { self.new.meanings ≡ take len self.old.meanings }
    {
        self.names.close(len);
        while self.meanings.len() > len {
            self.meanings.pop();
        }
    }
}
