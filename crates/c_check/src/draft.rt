//! What is known while the units of a program are checked.

ghost use Rattle.std.specs.Prelude.{◌≡◌};
ghost use Rattle.c_check.specs.Draft as draft;
ghost use Rattle.c_check.specs.Draft.{line_at};

use crate::Labels;
use am_base::Bytes;
use c_judge::{Built, Checker, Marks};
use c_types::{CType, DefinedFunction, Function, Main, Scope};
use c_typing::Rule;
use sqlite_items::Items;

/// What is known while the units of a program are checked.
#[derive(Drop)]
pub struct Draft {
    pub checker: Checker,
    /// What has external linkage (C11, 6.2.2), over all units.
    pub external: Scope<Link>,
    /// What has internal linkage, in the unit that is checked.
    pub internal: Scope<Link>,
    /// What defines objects in the unit that is checked.
    pub begun: Scope<Begun>,
    /// By number.
    pub functions: Items<Function>,
    pub defined: Items<DefinedFunction>,
    pub main: Option<Main>,
    /// What the function gives whose body is checked.
    pub result: Option<CType>,
    /// The labels of the innermost `switch` so far.
    pub labels: Labels,
}

/// What a name with linkage names: an object or a function, by its number, with the type that all its declarations make.
#[derive(Drop)]
pub struct Link {
    pub number: u32,
    pub of: Built,
    /// The unit of the last declaration.
    pub unit: u8,
}

/// What defines an object in the unit that is checked (C11, 6.9.2): its first definition, and whether there was an initialiser.
#[derive(Drop)]
pub struct Begun {
    pub name: Bytes,
    pub token: u32,
    pub number: u32,
    /// In the list of objects.
    pub place: usize,
    pub is_initialised: bool,
}

/// What a statement stands in.
#[derive(Clone, Copy)]
pub struct Inside {
    pub is_loop: bool,
    pub is_switch: bool,
}

impl Inside {
    /// The body of a function.
    pub fn body() -> Inside
        ensures { result ≡ draft.in_body }
    {
        Inside {
            is_loop: false,
            is_switch: false,
        }
    }

    pub fn in_loop(self) -> Inside
        ensures { result ≡ draft.in_loop self }
    {
        Inside {
            is_loop: true,
            is_switch: self.is_switch,
        }
    }

    /// `continue` in a `switch` goes on with the loop around it.
    pub fn in_switch(self) -> Inside
        ensures { result ≡ draft.in_switch self }
    {
        Inside {
            is_loop: self.is_loop,
            is_switch: true,
        }
    }
}

impl Draft {
    /// Notes a broken rule.
    pub fn note(&mut self, token: u32, rule: Rule)
        ensures { self.new ≡ draft.with_broken token rule self.old }
    {
        self.checker.note(token, rule);
    }

    /// Notes a rule where it is broken.
    pub fn note_if(&mut self, is_broken: bool, token: u32, rule: Rule)
        ensures { self.new ≡ draft.broken_if is_broken token rule self.old }
    {
        if is_broken {
            self.note(token, rule);
        }
    }

    /// Begins a scope, and gives what was the innermost one.
    pub fn open(&mut self) -> Option<Marks>
        ensures before { result ≡ self.old.checker.sight.opened }
        ensures opened { self.new ≡ draft.opened self.old }
    {
        self.checker.sight.open()
    }

    /// Ends the innermost scope.
    pub fn close(&mut self, before: Option<Marks>)
        ensures { self.new ≡ draft.closed before self.old }
    {
        self.checker.sight.close(before);
    }
}

/// The line of a token.
pub fn line_at(lines: &[u32], token: u32) -> u32
    ensures { result ≡ line_at lines.now token }
{
    match sqlite_items::at(lines, token as usize) {
        Some(line) => *line,
        None => 0,
    }
}
