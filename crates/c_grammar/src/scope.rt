//! The names in scope.

ghost use Rattle.std.specs.Prelude.{◌≡◌, ◌-◌, ◌≤◌, ◌++◌, [], length, take, drop, IfOk, OnOk, OnErr};
ghost use Rattle.std.specs.List.{list_any};
ghost use Rattle.std.specs.Str.{bytes_eq};
ghost use Rattle.c_grammar.specs.Names.{declared, is_type_in, is_type_of, of_known};
ghost use Rattle.c_grammar.specs.Meanings.{meaning_of, Restores, RestoresAll};
ghost use Rattle.c_grammar.specs.Owns.{Open, Closed, settled, own_names};

use am_base::Bytes;
use c_lex::Headers;
use indexmap::IndexMap;
use std::alloc::{AllocError, Global};
use std::marker::Model;

/// A name that is declared: by a typedef, or otherwise.
#[derive(Debug, Drop)]
pub struct KnownName {
    name: Bytes,
    is_type: bool,
    /// What the name stood for before, so that the end of a scope takes no search.
    hidden: Option<bool>,
}

/// The names in scope. Contracts see the one that was declared last first.
#[derive(Debug, Drop)]
pub struct Scope {
    names: Vec<KnownName>,
    /// For each name whether it stands for a type now; nothing where it isn't declared any more.
    meanings: IndexMap<Vec<u8>, Option<bool>>,
}

impl Model for Scope {
    ghost use Rattle.c_grammar.specs.Names.{Names, of_known};
    ghost use Rattle.c_grammar.specs.Meanings.{IsScope};

    ghost Value = { Names };

    ghost view = { λ s. of_known s.names.items };

    ghost invariant = { λ s. IsScope s.names.items s.meanings.entries };
}

impl Scope {
    pub fn new(alloc: Global) -> Scope
        ensures { result ≡ [] }
    {
        Scope {
            names: Vec::new(alloc),
            meanings: IndexMap::new(alloc),
        }
    }

    /// How many names there are.
    pub fn len(&self) -> usize
        ensures { result ≡ length self.now }
    {
        self.names.as_slice().len()
    }

    pub fn declare(&mut self, name: Bytes, is_type: bool) -> Result<(), AllocError>
        ensures ok { OnOk result (self.new ≡ declared self.old name is_type) }
        ensures err { OnErr result (self.new ≡ self.old) }
    {
        let hidden = meaning(&self.meanings, name.as_slice());
        let key = Vec::from_slice(*self.names.allocator(), name.as_slice())?;
        self.names.push(KnownName {
            name,
            is_type,
            hidden,
        })?;
        let Err(_) = self.meanings.insert(key, Some(is_type)) else {
            return Ok(());
        };
        self.names.pop();
        Err(AllocError)
    }

    /// Whether the name stands for a type, where these headers are known.
    pub fn is_type(&self, headers: Headers, name: &[u8]) -> bool
        ensures { result ≡ is_type_in self.now headers name.now }
    {
        match meaning(&self.meanings, name) {
            Some(is_type) => is_type,
            None => is_type_of(headers, name),
        }
    }

    /// Takes the names that were declared behind the first `len` ones out of scope.
    pub fn close(&mut self, len: usize) -> Result<Scope, AllocError>
        requires { len ≤ length self.old }
        ensures inner { IfOk result (λ inner. inner ≡ take (length self.old - len) self.old) }
        ensures left { OnOk result (self.new ≡ drop (length self.old - len) self.old) }
    {
        let names = self.names.split_off(len)?;
        restore_all(&mut self.meanings, names.as_slice());
        let mut inner = Scope::new(*self.names.allocator());
        inner.declare_all(names)?;
        Ok(inner)
    }

    /// Brings names into scope again.
    pub fn reopen(&mut self, inner: Scope) -> Result<(), AllocError>
        ensures { OnOk result (self.new ≡ inner ++ self.old) }
    {
        let Scope { names, meanings: _ } = inner;
        self.declare_all(names)
    }

    fn declare_all(&mut self, names: Vec<KnownName>) -> Result<(), AllocError>
        ensures { OnOk result (self.new ≡ of_known names.items ++ self.old) }
    {
        for known in names {
            let KnownName { name, is_type, .. } = known;
            self.declare(name, is_type)?;
        }
        Ok(())
    }
}

/// What the name stands for.
fn meaning(meanings: &IndexMap<Vec<u8>, Option<bool>>, name: &[u8]) -> Option<bool>
    ensures { result ≡ meaning_of meanings.now.entries name.now }
{
    match meanings.get(name) {
        Some(meaning) => *meaning,
        None => None,
    }
}

/// Lets what the last declaration hides stand again.
fn restore(meanings: &mut IndexMap<Vec<u8>, Option<bool>>, last: &KnownName)
    ensures { Restores last.now meanings.old.entries meanings.new.entries }
{
    if let Some(meaning) = meanings.get_mut(last.name.as_slice()) {
        *meaning = last.hidden;
    }
}

/// The same for the last ones.
fn restore_all(meanings: &mut IndexMap<Vec<u8>, Option<bool>>, names: &[KnownName])
    ensures { RestoresAll names.now meanings.old.entries meanings.new.entries }
{
    let mut count = names.len();
    'backward: while count > 0 {
        count -= 1;
        restore(meanings, &names[count]);
    }
}

/// The types of `mpi.h`.
const MPI_TYPES: [&[u8]; 6] = [
    b"MPI_Comm",
    b"MPI_Datatype",
    b"MPI_Op",
    b"MPI_Request",
    b"MPI_Info",
    b"MPI_Status",
];

/// Whether the name is a type of these headers.
fn is_type_of(headers: Headers, name: &[u8]) -> bool
    ensures { result ≡ is_type_of headers name.now }
{
    if headers.mpi && is_one_of(name, &MPI_TYPES) {
        return true;
    }
    let is_standard = headers.stdio || headers.stdlib || headers.strings;
    is_standard && name == b"size_t".as_slice()
}

fn is_one_of(name: &[u8], names: &[&[u8]]) -> bool
    ensures { result ≡ list_any (λ other. bytes_eq name.now other.now) names.now }
{
    names.iter().any(|other| name == *other)
}

/// What the parameters of a declared function bring, once it is known which they are.
#[derive(Debug, Drop)]
pub struct OwnNames {
    names: Option<Scope>,
}

impl Model for OwnNames {
    ghost use Rattle.c_grammar.specs.Owns.{Own, own_of};

    ghost Value = { Own };

    ghost view = { λ o. own_of o.names };
}

impl OwnNames {
    pub fn open() -> OwnNames
        ensures { result ≡ Open }
    {
        OwnNames { names: None }
    }

    /// These names, unless others came first.
    pub fn settled(self, names: Scope) -> OwnNames
        ensures { result ≡ settled self names }
    {
        if self.names.is_some() {
            return self;
        }
        OwnNames { names: Some(names) }
    }

    pub fn into_names(self, alloc: Global) -> Scope
        ensures { result ≡ own_names self }
    {
        match self.names {
            Some(names) => names,
            None => Scope::new(alloc),
        }
    }
}
