//! Names with linkage (C11, 6.2.2 and 6.2.7).

ghost use Rattle.std.specs.Prelude.{◌≡◌, IfOk, OnOk};
ghost use Rattle.std.specs.Option.{option_copied};
ghost use Rattle.c_check.specs.Draft.{Gives};
ghost use Rattle.c_check.specs.Linkage as linking;
ghost use Rattle.c_check.specs.Linkage.{named_of, sees, builts_agree};

use crate::redeclared::{agrees, functions_agree, merged_function};
use crate::{Draft, Link};
use am_base::{Bytes, HeaderItem};
use c_ast::Name;
use c_judge::{Built, Gathered, copied_function, item_at};
use c_types::{Function, FunctionType, Named};
use c_typing::{Rule, copied_type, merged};
use std::alloc::{AllocError, Global};

/// What storage-class specifiers say (C11, 6.7.1).
#[derive(Clone, Copy)]
pub struct StorageWords {
    pub is_typedef: bool,
    pub is_extern: bool,
    pub is_static: bool,
}

#[derive(Clone, Copy)]
pub enum Linkage {
    /// Over all units.
    External,
    /// In one unit.
    Internal,
}

impl StorageWords {
    pub fn of(gathered: &Gathered) -> StorageWords
        ensures { result ≡ linking.words_of gathered.now }
    {
        StorageWords {
            is_typedef: gathered.is_typedef,
            is_extern: gathered.is_extern,
            is_static: gathered.is_static,
        }
    }
}

impl Draft {
    /// Whether the innermost scope is a block.
    pub fn is_in_block(&self) -> bool
        ensures { result ≡ linking.is_in_block self.now }
    {
        self.checker.sight.opened.is_some()
    }

    /// What a header declares by a name, if no declaration hides it.
    pub fn header_item(&self, name: &Name) -> Option<HeaderItem>
        ensures { result ≡ linking.item_seen name.now self.now }
    {
        match self.checker.sight.look_up(name.text.as_slice()) {
            Some(_) => None,
            None => item_at(self.checker.known, name.token, name.text.as_slice()),
        }
    }

    /// What has the linkage and the name.
    #[tactic(auto, unfolding(crate::specs::Linkage::linked))]
    pub fn linked(&self, of: Linkage, name: &[u8]) -> Option<&Link>
        ensures { option_copied result ≡ linking.linked of name.now self.now }
    {
        match of {
            Linkage::External => self.external.look_up(name),
            Linkage::Internal => self.internal.look_up(name),
        }
    }

    /// Whether this unit has declared the name with external linkage.
    fn is_outer(&self, name: &[u8]) -> bool
        ensures { result ≡ linking.is_outer name.now self.now }
    {
        match self.linked(Linkage::External, name) {
            Some(link) => link.unit == self.checker.unit,
            None => false,
        }
    }

    /// The linkage that a declaration gives to a function, or to an object that is declared outside all functions or with `extern`, or
    /// nothing where it disagrees with another one of this unit (C11, 6.2.2p3 to p7).
    pub fn linkage(&self, words: StorageWords, is_function: bool, name: &[u8]) -> Option<Linkage>
        ensures { result ≡ linking.linkage words is_function name.now self.now }
    {
        if words.is_static {
            if (is_function && self.is_in_block()) || self.is_outer(name) {
                return None;
            }
            return Some(Linkage::Internal);
        }
        match self.linked(Linkage::Internal, name) {
            None => Some(Linkage::External),
            Some(link) => {
                if (words.is_extern || is_function)
                    && sees(self.checker.sight.look_up(name), link)
                {
                    Some(Linkage::Internal)
                } else {
                    None
                }
            }
        }
    }

    /// One more declaration of a name with linkage: the number of what it names, or nothing where the types of its declarations
    /// don't agree (C11, 6.2.7p2).
    pub fn link(
        &mut self,
        alloc: Global,
        linkage: Linkage,
        name: &Name,
        of: Built,
    ) -> Result<Option<u32>, AllocError>
        ensures { Gives result self.new (linking.link linkage name.now of self.old) }
    {
        let unit = self.checker.unit;
        let link = match self.linked(linkage, name.text.as_slice()) {
            None => return self.begin_link(alloc, linkage, name, of),
            Some(link) => {
                if builts_agree(&link.of, &of) {
                    Some(link.with(alloc, unit, &of))
                } else {
                    None
                }
            }
        };
        match link {
            Some(Ok(link)) => self.go_on_linked(alloc, linkage, name, link, of),
            Some(Err(error)) => {
                drop(of);
                Err(error)
            }
            None => {
                drop(of);
                self.note(name.token, Rule::DeclaredDifferently);
                self.mean(alloc, name, None)?;
                Ok(None)
            }
        }
    }

    /// The first declaration of a name with the linkage.
    fn begin_link(
        &mut self,
        alloc: Global,
        linkage: Linkage,
        name: &Name,
        of: Built,
    ) -> Result<Option<u32>, AllocError>
        ensures { Gives result self.new (linking.begun linkage name.now of self.old) }
    {
        let link = match self.fresh(alloc, name, &of) {
            Ok(link) => link,
            Err(error) => {
                drop(of);
                return Err(error);
            }
        };
        self.put_linked(alloc, linkage, name, link, of)
    }

    /// A new object or function.
    fn fresh(&mut self, alloc: Global, name: &Name, of: &Built) -> Result<Link, AllocError>
        ensures { Gives result self.new (linking.fresh name.now of.now self.old) }
    {
        let unit = self.checker.unit;
        let copy = copied(alloc, of)?;
        match self.number_of(alloc, name, of) {
            Ok(number) => Ok(Link {
                number,
                of: copy,
                unit,
            }),
            Err(error) => {
                drop(copy);
                Err(error)
            }
        }
    }

    fn number_of(&mut self, alloc: Global, name: &Name, of: &Built) -> Result<u32, AllocError>
        ensures { Gives result self.new (linking.numbered name.now of.now self.old) }
    {
        match of {
            Built::Object(_) => {
                let number = self.checker.object_count;
                self.checker.object_count = number.wrapping_add(1);
                Ok(number)
            }
            Built::Function(_) => {
                let number = (self.functions.len() % 0x1_0000_0000) as u32;
                let name = Bytes::from_slice(alloc, name.text.as_slice())?;
                self.functions.push(Function { name, body: None })?;
                Ok(number)
            }
        }
    }

    /// A later declaration of a name with the linkage.
    fn go_on_linked(
        &mut self,
        alloc: Global,
        linkage: Linkage,
        name: &Name,
        link: Link,
        of: Built,
    ) -> Result<Option<u32>, AllocError>
        ensures { Gives result self.new (linking.gone_on linkage name.now link of self.old) }
    {
        let seen = self.checker.sight.look_up(name.text.as_slice());
        match merged_seen(alloc, seen, link.number, of) {
            Ok(of) => self.put_linked(alloc, linkage, name, link, of),
            Err(error) => {
                drop(link);
                Err(error)
            }
        }
    }

    fn put_linked(
        &mut self,
        alloc: Global,
        linkage: Linkage,
        name: &Name,
        link: Link,
        of: Built,
    ) -> Result<Option<u32>, AllocError>
        ensures { Gives result self.new (linking.put linkage name.now link of self.old) }
    {
        let number = link.number;
        match self.put_link(alloc, linkage, name, link) {
            Ok(()) => {
                self.mean(alloc, name, Some(named_of(number, of)))?;
                Ok(Some(number))
            }
            Err(error) => {
                drop(of);
                Err(error)
            }
        }
    }

    fn put_link(
        &mut self,
        alloc: Global,
        linkage: Linkage,
        name: &Name,
        link: Link,
    ) -> Result<(), AllocError>
        ensures { OnOk result (self.new ≡ linking.with_link linkage name.now.text link self.old) }
    {
        match Bytes::from_slice(alloc, name.text.as_slice()) {
            Ok(text) => match linkage {
                Linkage::External => self.external.declare(text, link),
                Linkage::Internal => self.internal.declare(text, link),
            },
            Err(error) => {
                drop(link);
                Err(error)
            }
        }
    }

    /// A name means this from here on, in the innermost scope.
    pub fn mean(
        &mut self,
        alloc: Global,
        name: &Name,
        meaning: Option<Named>,
    ) -> Result<(), AllocError>
        ensures { OnOk result (self.new ≡ linking.with_meaning name.now.text meaning self.old) }
    {
        match Bytes::from_slice(alloc, name.text.as_slice()) {
            Ok(text) => self.checker.sight.declare(text, meaning),
            Err(error) => {
                drop(meaning);
                Err(error)
            }
        }
    }
}

impl Link {
    /// With one more declaration, whose type agrees.
    fn with(&self, alloc: Global, unit: u8, of: &Built) -> Result<Link, AllocError>
        ensures { IfOk result (λ l. l ≡ linking.with_declaration unit of.now self.now) }
    {
        let copy = copied(alloc, of)?;
        Ok(Link {
            number: self.number,
            of: merged_built(alloc, copy, &self.of)?,
            unit,
        })
    }
}

fn named_of(number: u32, of: Built) -> Named
    ensures { result ≡ named_of number of }
{
    match of {
        Built::Object(of) => Named::Object { number, of },
        Built::Function(of) => Named::Function { number, of },
    }
}

/// Whether what a name means is what is linked. What breaks a rule may be anything.
fn sees(meaning: Option<&Option<Named>>, link: &Link) -> bool
    ensures { result ≡ sees (option_copied meaning.entry) link.now }
{
    match meaning {
        Some(Some(Named::Object { number, of: _ })) => {
            *number == link.number && !is_function(&link.of)
        }
        Some(Some(Named::Function { number, of: _ })) => {
            *number == link.number && is_function(&link.of)
        }
        Some(None) => true,
        Some(Some(_)) | None => false,
    }
}

pub fn is_function(of: &Built) -> bool
    ensures { result ≡ linking.is_function of.now }
{
    match of {
        Built::Object(_) => false,
        Built::Function(_) => true,
    }
}

fn builts_agree(a: &Built, b: &Built) -> bool
    ensures { result ≡ builts_agree a.now b.now }
{
    match (a, b) {
        (Built::Object(a), Built::Object(b)) => agrees(a, b),
        (Built::Function(a), Built::Function(b)) => functions_agree(a, b),
        (Built::Object(_), Built::Function(_)) | (Built::Function(_), Built::Object(_)) => false,
    }
}

fn copied(alloc: Global, of: &Built) -> Result<Built, AllocError>
    ensures { IfOk result (λ b. b ≡ of.now) }
{
    match of {
        Built::Object(of) => Ok(Built::Object(copied_type(alloc, of)?)),
        Built::Function(of) => Ok(Built::Function(copied_function(alloc, of)?)),
    }
}

/// The composite type of two types that agree.
fn merged_built(alloc: Global, a: Built, b: &Built) -> Result<Built, AllocError>
    ensures { IfOk result (λ m. m ≡ linking.merged_built a b.now) }
{
    match a {
        Built::Object(a) => Ok(Built::Object(match b {
            Built::Object(b) => merged(a, b),
            Built::Function(_) => a,
        })),
        Built::Function(a) => match b {
            Built::Function(b) => merged_own(alloc, a, b),
            Built::Object(_) => Ok(Built::Function(a)),
        },
    }
}

fn merged_own(alloc: Global, a: FunctionType, b: &FunctionType) -> Result<Built, AllocError>
    ensures { IfOk result (λ m. m ≡ linking.merged_own a b.now) }
{
    let both = merged_function(alloc, &a, b);
    drop(a);
    Ok(Built::Function(both?))
}

/// The composite type of a declaration and of the one that is visible, where that is of the same object or function (C11, 6.2.7p4).
fn merged_seen(
    alloc: Global,
    seen: Option<&Option<Named>>,
    number: u32,
    of: Built,
) -> Result<Built, AllocError>
    ensures { IfOk result (λ m. m ≡ linking.merged_seen (option_copied seen.entry) number of) }
{
    match of {
        Built::Object(of) => Ok(Built::Object(match seen {
            Some(
                Some(
                    Named::Object {
                        number: n,
                        of: seen,
                    },
                ),
            ) => { if *n == number { merged(of, seen) } else { of } }
            Some(_) | None => of,
        })),
        Built::Function(of) => match seen {
            Some(
                Some(
                    Named::Function {
                        number: n,
                        of: seen,
                    },
                ),
            ) => {
                if *n == number {
                    merged_own(alloc, of, seen)
                } else {
                    Ok(Built::Function(of))
                }
            }
            Some(_) | None => Ok(Built::Function(of)),
        },
    }
}
