//! Laws of the grammar: what its definitions determine, apart from any parser.
#![tactic(auto)]

ghost use Rattle.std.specs.Prelude.{◌≡◌, ◌≤◌, ℕ, List, length};
ghost use Rattle.c_lex.specs.declared.token.Token.{Token};
ghost use Rattle.c_ast.specs.declared.declaration.Unit.{Unit as AUnit};
ghost use Rattle.c_grammar.specs.Grammar.{Parses, ParsesWithin};
ghost use Rattle.c_grammar.specs.Refusals.{GoesOn, IsRefused};
ghost use Rattle.c_grammar_laws.specs.Answers.{Answer, IsAnswer};

/// A law: tokens are of one unit at most.
pub fn one_unit()
    ensures { (ts : List Token) (a b : AUnit) → Parses ts a → Parses ts b → a ≡ b }
{}

/// A law: all of a unit within limits goes on; just one token is the first that is refused.
pub fn one_refusal()
    ensures goes_on { (limit most : ℕ) (ts : List Token) (unit : AUnit) → ParsesWithin limit most ts unit → (k : ℕ) → k ≤ length ts → GoesOn limit most ts k }
    ensures one { (limit most : ℕ) (ts : List Token) (a b : ℕ) → IsRefused limit most ts a → IsRefused limit most ts b → a ≡ b }
{}

/// A law: each list of tokens is a unit within the parser's limits, or has a token that is refused for one of the two causes; and it is
/// just one of these, for all limits.
pub fn one_answer()
    ensures some { (ts : List Token) → (answer : Answer) × IsAnswer 64 512 ts answer }
    ensures only { (limit most : ℕ) (ts : List Token) (a b : Answer) → IsAnswer limit most ts a → IsAnswer limit most ts b → a ≡ b }
{}
