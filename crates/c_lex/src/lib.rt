//! The tokens of a C source (C11, 5.1.1.2 and 6.4, cut to this profile): comments, directives and macros, words, numbers,
//! literals and punctuators.
#![tactic(auto)]

ghost use Rattle.std.specs.Prelude.{◌≡◌, ◌<◌, ◌^◌, List, ℕ, length, IfOk, IfErr, IfSome};
ghost use Rattle.c_lex.specs.Tokens.{AreTokens, Answer, IsAnswer, fault_of, Gives};

mod blanks;
mod directives;
mod error;
mod expand;
mod fronts;
mod joining;
mod lexeme;
mod literals;
mod macros;
mod marks;
mod numbers;
mod pieces;
mod strings;
mod suffixes;
mod table;
mod token;
mod words;

pub use error::LexError;
use std::alloc::Global;
pub use token::{Header, Headers, Keyword, Mark, NumberType, Token, TokenKind};

/// Reads a source of fewer than 2^31 bytes as its tokens. Directives are no tokens: macros are replaced, pragmas are
/// skipped, and each token tells which headers were included before it. Strings next to each other are one token.
///
/// # Errors
///
/// The first byte that offends, by its place from 0 on; `Memory` where memory runs out.
pub fn lex(alloc: Global, text: &[u8]) -> Result<Vec<Token>, LexError>
    requires { length text.now < 2 ^ 31 }
    // What is read is the source's tokens.
    ensures tokens { IfOk result (λ tokens. AreTokens text.now tokens.items) }
    // What is refused is wrong, for this cause and first at this byte.
    ensures fault { IfErr result (λ e. IfSome (fault_of e) (λ fault. IsAnswer text.now fault)) }
    // What the source is, is told, unless memory runs out.
    ensures only { (answer : Answer) → IsAnswer text.now answer → Gives result answer }
{
    let tokens = pieces::read(alloc, text)?;
    let joined = joining::join(alloc, tokens)?;
    Ok(joined)
}

/// A law: a source is one list of tokens, or wrong for one cause and first at one byte.
pub fn one_answer()
    ensures some { (text : List ℕ) → (answer : Answer) × IsAnswer text answer }
    ensures only { (text : List ℕ) (a b : Answer) → IsAnswer text a → IsAnswer text b → a ≡ b }
{}
