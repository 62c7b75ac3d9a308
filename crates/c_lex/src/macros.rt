//! The macros that are defined.

ghost use Rattle.std.specs.Prelude.{◌≡◌, ◌↔◌, ◌≤◌, ◌∷◌, [], IsTrue, length, OnOk, OnErr, IsErrOf};
ghost use Rattle.c_lex.specs.declared.macros.ExpandError.TheVariants.{Memory};
ghost use Rattle.c_lex.specs.Pieces.{Macro};
ghost use Rattle.c_lex.specs.Faults.{IsDefined};
ghost use Rattle.c_lex.specs.Tokens.{names_of, Puts, PassesMost, most_tokens, BecomesSome, BecomesOne};

use crate::expand::{Mark, Site, put, replace};
use crate::lexeme::Lexeme;
use crate::table::Table;
use crate::token::{Headers, Token};
use am_base::Bytes;
use indexmap::IndexSet;
use std::alloc::{AllocError, AllocFailed, Global};
use std::marker::Model;

/// The macros that are defined so far. Contracts see them as a list, the last one first.
#[derive(Debug, Drop)]
pub struct Macros {
    table: Table,
    /// Of each macro in the table.
    marks: Vec<Mark>,
}

impl Model for Macros {
    ghost use Rattle.std.specs.Prelude.{List};
    ghost use Rattle.c_lex.specs.Pieces.{Macro};
    ghost use Rattle.c_lex.specs.Table.{macros_in};
    ghost use Rattle.c_lex.specs.Frames.{AreKept};

    ghost Value = { List Macro };

    ghost view = { λ m. macros_in m.table };

    ghost invariant = { λ m. AreKept m.table m.marks.items };
}

/// Why a token isn't replaced.
#[derive(Clone, Copy, Debug, PartialEq, Eq)]
pub enum ExpandError {
    /// What it becomes is too many tokens.
    TooMany,
    Memory,
}

impl From<AllocError> for ExpandError {
    ghost from_gives = { λ _ e. e ≡ Memory };

    fn from(_e: AllocError) -> ExpandError {
        ExpandError::Memory
    }
}

impl<T: Drop> From<AllocFailed<T>> for ExpandError {
    ghost from_gives = { λ _ e. e ≡ Memory };

    fn from(_e: AllocFailed<T>) -> ExpandError {
        ExpandError::Memory
    }
}

impl Macros {
    pub fn new(alloc: Global) -> Macros
        ensures { result ≡ [] }
    {
        let table = Table {
            names: IndexSet::new(alloc),
            bodies: Vec::new(alloc),
        };
        Macros {
            table,
            marks: Vec::new(alloc),
        }
    }

    pub fn is_defined(&self, name: &[u8]) -> bool
        ensures { IsTrue result ↔ IsDefined (names_of self.now) name.now }
    {
        self.table.is_defined(name)
    }

    /// Adds a macro whose name isn't defined yet.
    pub fn define(&mut self, name: Bytes, body: Vec<Lexeme>) -> Result<(), AllocError>
        requires { IsDefined (names_of self.old) name → ⊥ }
        ensures ok { OnOk result (self.new ≡ record { name = name; body = body.items } ∷ self.old) }
        ensures err { OnErr result (self.new ≡ self.old) }
    {
        self.marks.push(Mark {
            is_empty: false,
            place: 0,
        })?;
        let Err(_) = self.table.define(name.into_vec(), body) else {
            return Ok(());
        };
        self.marks.pop();
        Err(AllocError)
    }

    /// Appends what the token becomes, each token on this line and behind these headers, where that isn't too much.
    pub fn expand(
        &mut self,
        alloc: Global,
        lexeme: Lexeme,
        line: u32,
        headers: Headers,
        out: &mut Vec<Token>,
    ) -> Result<(), ExpandError>
        requires { length out.old.items ≤ most_tokens }
        ensures same { self.new ≡ self.old }
        ensures ok { OnOk result (Puts self.old lexeme line headers out.old.items out.new.items) }
        ensures few { OnOk result (length out.new.items ≤ most_tokens) }
        ensures many { IsErrOf result ExpandError.TooMany → PassesMost self.old lexeme (length out.old.items) }
    {
        let site = Site { line, headers };
        let Some(number) = self.table.number_of(&lexeme) else {
            return put(lexeme, site, out);
        };
        if self.marks[number].is_empty {
            return Ok(());
        }
        replace(alloc, &self.table, number, site, &mut self.marks, out)
    }
}

/// Laws: a list of tokens becomes just one other, where no name is defined twice.
pub fn one_becomes()
    ensures some { BecomesSome }
    ensures only { BecomesOne }
{}
