//! The parser of the grammar: from tokens to a tree.
#![tactic(auto)]

ghost use Rattle.std.specs.Prelude.{◌<◌, ◌^◌, length, IfOk, IfErr, IfSome};
ghost use Rattle.c_grammar.specs.Grammar.{ParsesWithin};
ghost use Rattle.c_grammar.specs.Refusals.{IsRefused, IsUnexpected, IsTooNested, token_of, unexpected_of, nested_of};

mod nested;
mod statements;
mod units;

use c_ast::Unit;
pub use c_grammar::ParseError;
use c_lex::Token;
use std::alloc::Global;

/// How deep tokens may nest.
const LIMIT: u8 = 64;

/// Reads the tokens of a file, fewer than 2^32, as a unit: with no nesting over 64, and no chain of operators over 512.
///
/// # Errors
///
/// The number of the first token that shows that they are no such unit, where the end counts as the last token; `Memory` where
/// memory runs out.
pub fn parse(alloc: Global, tokens: &[Token]) -> Result<Unit, ParseError>
    requires { length tokens.now < 2 ^ 32 }
    // What is read is the tokens' unit.
    ensures parses { IfOk result (λ unit. ParsesWithin 64 512 tokens.now unit) }
    // A unit within the limits begins with the tokens before the one that is told, and none goes on with that one.
    ensures refused { IfErr result (λ e. IfSome (token_of e) (λ k. IsRefused 64 512 tokens.now k)) }
    // A token that is told as unexpected is one that no unit at all goes on with, and its place isn't too deep, or it closes the
    // innermost bracket.
    ensures unexpected { IfErr result (λ e. IfSome (unexpected_of e) (λ k. IsUnexpected 64 512 tokens.now k)) }
    // A token that is told as nested too deeply is one that some unit goes on with, or its place is too deep for any token.
    ensures nested { IfErr result (λ e. IfSome (nested_of e) (λ k. IsTooNested 64 512 tokens.now k)) }
{
    let read = units::unit(alloc, tokens.len() as u32, tokens, LIMIT);
    nested::settled(alloc, tokens, read)
}
