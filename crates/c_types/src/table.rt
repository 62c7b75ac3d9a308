//! A table of names, in which the innermost is found.

ghost use Rattle.std.specs.Prelude.{◌≡◌, ◌≤◌, ◌<◌, ◌-◌, [], ◌∷◌, ◌++◌, length, take, OnOk, OnErr};
ghost use Rattle.c_types.specs.Names.{innermost};
ghost use Rattle.c_types.specs.Tables.{meaning_of, Restores};

use am_base::Bytes;
use indexmap::IndexMap;
use std::alloc::{AllocError, Global};
use std::marker::Model;

/// A name, and where it was declared before, so that the end of a scope takes no search.
#[derive(Debug, Drop)]
pub struct DeclaredName {
    name: Bytes,
    hidden: Option<usize>,
}

/// The names in scope, in the order of their declarations: so the innermost declaration of a name is its last one.
#[derive(Debug, Drop)]
pub struct NameTable {
    names: Vec<DeclaredName>,
    /// For each name the place of its innermost declaration; nothing where it isn't declared any more.
    places: IndexMap<Vec<u8>, Option<usize>>,
}

impl Model for NameTable {
    ghost use Rattle.std.specs.Prelude.{List, ℕ};
    ghost use Rattle.c_types.specs.Tables.{names_of, IsTable};

    ghost Value = { List (List ℕ) };

    ghost view = { λ t. names_of t.names.items };

    ghost invariant = { λ t. IsTable t.names.items t.places.entries };
}

impl NameTable {
    pub fn new(alloc: Global) -> NameTable
        ensures { result ≡ [] }
    {
        NameTable {
            names: Vec::new(alloc),
            places: IndexMap::new(alloc),
        }
    }

    /// How many names there are.
    pub fn len(&self) -> usize
        ensures { result ≡ length self.now }
    {
        self.names.as_slice().len()
    }

    pub fn declare(&mut self, name: Bytes) -> Result<(), AllocError>
        ensures ok { OnOk result (self.new ≡ self.old ++ name ∷ []) }
        ensures err { OnErr result (self.new ≡ self.old) }
    {
        let place = self.names.as_slice().len();
        let hidden = place_in(&self.places, name.as_slice());
        let key = Vec::from_slice(*self.names.allocator(), name.as_slice())?;
        self.names.push(DeclaredName { name, hidden })?;
        let Err(_) = self.places.insert(key, Some(place)) else {
            return Ok(());
        };
        self.names.pop();
        Err(AllocError)
    }

    /// The place of the innermost declaration of a name.
    pub fn find(&self, name: &[u8]) -> Option<usize>
        ensures { result ≡ innermost self.now name.now }
    {
        place_in(&self.places, name)
    }

    /// Takes the names that were declared behind the first `len` ones out of scope.
    pub fn close(&mut self, len: usize)
        requires { len ≤ length self.old }
        ensures { self.new ≡ take len self.old }
    {
        while self.len() > len {
            self.forget_last();
        }
    }

    fn forget_last(&mut self)
        requires { 0 < length self.old }
        ensures { self.new ≡ take (length self.old - 1) self.old }
    {
        if let Some(last) = self.names.pop() {
            restore(&mut self.places, &last);
        }
    }
}

fn place_in(places: &IndexMap<Vec<u8>, Option<usize>>, name: &[u8]) -> Option<usize>
    ensures { result ≡ meaning_of places.now.entries name.now }
{
    match places.get(name) {
        Some(place) => *place,
        None => None,
    }
}

/// Lets what the last declaration hides stand again.
fn restore(places: &mut IndexMap<Vec<u8>, Option<usize>>, last: &DeclaredName)
    ensures { Restores last.now places.old.entries places.new.entries }
{
    if let Some(place) = places.get_mut(last.name.as_slice()) {
        *place = last.hidden;
    }
}
