//! The names in scope (C11, 6.2.1 and 6.2.3).

ghost use Rattle.std.specs.Prelude.{◌≡◌, OnOk};
ghost use Rattle.std.specs.Option.{option_copied};
ghost use Rattle.c_judge.specs.Sight as sight;
ghost use Rattle.c_judge.specs.Scopes as scopes;

use am_base::Bytes;
use c_types::{Named, Scope, StructType, Tagged};
use sqlite_items::Items;
use std::alloc::AllocError;

/// The names in scope, and all structures. A name whose declaration breaks a rule is in scope and means nothing.
#[derive(Drop)]
pub struct Sight {
    /// Names that are declared outside all functions.
    pub file: Scope<Option<Named>>,
    /// Names of the blocks and parameter lists that are open, the innermost last.
    pub block: Scope<Option<Named>>,
    pub file_tags: Scope<Tagged>,
    pub block_tags: Scope<Tagged>,
    /// The structures by number, over all units; for each whether its members have begun, and whether one is `const`.
    pub structs: Items<StructType>,
    pub begun: Items<bool>,
    pub fixed: Items<bool>,
    /// Where the innermost block begins; nothing outside all blocks.
    pub opened: Option<Marks>,
}

/// How many names and tags of blocks are in scope.
#[derive(Clone, Copy, Debug, PartialEq, Eq)]
pub struct Marks {
    pub names: usize,
    pub tags: usize,
}

impl Sight {
    /// What a name means by its innermost declaration, if it has one.
    #[tactic(auto, unfolding(crate::specs::Sight::meaning_in))]
    pub fn look_up(&self, name: &[u8]) -> Option<&Option<Named>>
        ensures { option_copied result ≡ sight.meaning_in self.now name.now }
    {
        match self.block.look_up(name) {
            Some(meaning) => Some(meaning),
            None => self.file.look_up(name),
        }
    }

    /// What a name means that is declared in the innermost scope.
    #[tactic(auto, unfolding(crate::specs::Sight::declared_here))]
    pub fn declared_here(&self, name: &[u8]) -> Option<&Option<Named>>
        ensures { option_copied result ≡ sight.declared_here self.now name.now }
    {
        match self.opened {
            None => self.file.look_up(name),
            Some(marks) => match self.block.names.find(name) {
                Some(place) => {
                    if place >= marks.names {
                        sqlite_items::at(self.block.meanings.as_slice(), place)
                    } else {
                        None
                    }
                }
                None => None,
            },
        }
    }

    /// Declares a name in the innermost scope.
    #[tactic(auto, unfolding(crate::specs::Sight::with_name))]
    pub fn declare(&mut self, name: Bytes, meaning: Option<Named>) -> Result<(), AllocError>
        ensures { OnOk result (self.new ≡ sight.with_name name meaning self.old) }
    {
        match self.opened {
            None => self.file.declare(name, meaning),
            Some(_) => self.block.declare(name, meaning),
        }
    }

    /// What a tag names by its innermost declaration.
    #[tactic(auto, unfolding(crate::specs::Sight::tag_in))]
    pub fn tag(&self, name: &[u8]) -> Option<Tagged>
        ensures { result ≡ sight.tag_in self.now name.now }
    {
        match self.block_tags.look_up(name) {
            Some(tagged) => Some(*tagged),
            None => self.file_tags.look_up(name).copied(),
        }
    }

    /// What a tag names that is declared in the innermost scope.
    #[tactic(auto, unfolding(crate::specs::Sight::tag_here))]
    pub fn tag_here(&self, name: &[u8]) -> Option<Tagged>
        ensures { result ≡ sight.tag_here self.now name.now }
    {
        match self.opened {
            None => self.file_tags.look_up(name).copied(),
            Some(marks) => match self.block_tags.names.find(name) {
                Some(place) => {
                    if place >= marks.tags {
                        sqlite_items::at(self.block_tags.meanings.as_slice(), place).copied()
                    } else {
                        None
                    }
                }
                None => None,
            },
        }
    }

    /// Declares a tag in the innermost scope.
    #[tactic(auto, unfolding(crate::specs::Sight::with_tag))]
    pub fn declare_tag(&mut self, name: Bytes, tagged: Tagged) -> Result<(), AllocError>
        ensures { OnOk result (self.new ≡ sight.with_tag name tagged self.old) }
    {
        match self.opened {
            None => self.file_tags.declare(name, tagged),
            Some(_) => self.block_tags.declare(name, tagged),
        }
    }

    /// Begins a scope, and gives what was the innermost one.
    pub fn open(&mut self) -> Option<Marks>
        ensures before { result ≡ self.old.opened }
        ensures opened { self.new ≡ sight.opened self.old }
    {
        let before = self.opened;
        self.opened = Some(Marks {
            names: self.block.names.len(),
            tags: self.block_tags.names.len(),
        });
        before
    }

    /// Ends the innermost scope; `before` was the innermost one when it began.
    #[tactic(auto, unfolding(crate::specs::Scopes::closed))]
    pub fn close(&mut self, before: Option<Marks>)
        ensures { self.new ≡ scopes.closed before self.old }
    {
        if let Some(marks) = self.opened {
            cut(&mut self.block, marks.names);
            cut(&mut self.block_tags, marks.tags);
        }
        self.opened = before;
    }
}

/// Takes what was declared behind a mark out of scope.
fn cut<T: Drop>(scope: &mut Scope<T>, mark: usize)
    ensures { scope.new ≡ scopes.cut mark scope.old }
{
    if mark <= scope.names.len() && mark <= scope.meanings.len() {
        scope.close(mark);
    }
}
