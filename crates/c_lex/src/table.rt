//! The macros by number.

ghost use Rattle.std.specs.Prelude.{◌≡◌, ◌↔◌, ◌+◌, ◌^◌, ◌<◌, ◌++◌, ◌∷◌, [], ℕ, List, length, slice_get, option_copied, IfSome, IfNone, IsTrue, OnOk, OnErr};
ghost use Rattle.c_lex.specs.Faults.{IsDefined};
ghost use Rattle.c_lex.specs.Lexemes.{name_token};
ghost use Rattle.c_lex.specs.Expanding.{is_name_token};
ghost use Rattle.c_lex.specs.Table.{names_in, bodies_in, name_in, macro_in, Same};

use crate::lexeme::Lexeme;
use crate::token::TokenKind;
use indexmap::IndexSet;
use std::alloc::AllocError;

/// The macros by their numbers, in the order in which they are defined.
#[derive(Debug, Drop)]
pub struct Table {
    pub names: IndexSet<Vec<u8>>,
    /// The tokens of each.
    pub bodies: Vec<Vec<Lexeme>>,
}

/// Whether the token is a name, which has no value.
fn is_name(lexeme: &Lexeme) -> bool
    ensures { result ≡ is_name_token lexeme.now }
{
    matches!(lexeme.kind, TokenKind::Name) && lexeme.value == 0
}

impl Table {
    /// The macro that the token names.
    pub fn number_of(&self, lexeme: &Lexeme) -> Option<usize>
        ensures some { IfSome result (λ i. (i < length (names_in self.now)) × (lexeme.now ≡ name_token (name_in self.now i))) }
        ensures none { IfNone result ((word : List ℕ) → lexeme.now ≡ name_token word → IsDefined (names_in self.now) word → ⊥) }
    {
        if !is_name(lexeme) {
            return None;
        }
        self.names.get_index_of(lexeme.text.as_slice())
    }

    /// Adds a macro whose name isn't defined yet.
    pub fn define(&mut self, name: Vec<u8>, body: Vec<Lexeme>) -> Result<(), AllocError>
        requires { IsDefined (names_in self.old) name.items → ⊥ }
        ensures names { OnOk result (names_in self.new ≡ names_in self.old ++ name.items ∷ []) }
        ensures bodies { OnOk result (bodies_in self.new ≡ bodies_in self.old ++ body.items ∷ []) }
        ensures err { OnErr result (Same self.old self.new) }
    {
        self.bodies.push(body)?;
        let Err(_) = self.names.insert(name) else {
            return Ok(());
        };
        self.bodies.pop();
        Err(AllocError)
    }

    pub fn is_defined(&self, name: &[u8]) -> bool
        ensures { IsTrue result ↔ IsDefined (names_in self.now) name.now }
    {
        self.names.contains(name)
    }

    /// A token of a macro, from 0 on.
    pub fn token(&self, number: usize, place: usize) -> Option<&Lexeme>
        requires { number < length (bodies_in self.now) }
        ensures token { option_copied result ≡ slice_get (macro_in self.now number).body place }
        ensures fits { IfSome result (λ _. place + 1 < 2 ^ 64) }
    {
        self.bodies[number].get(place)
    }
}
