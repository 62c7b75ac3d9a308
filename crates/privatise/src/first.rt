//! The first of some tokens.

ghost use Rattle.std.specs.Prelude.{◌≡◌, ◌↔◌, IsTrue};
ghost use Rattle.privatise.specs.First.{earlier, first_of, is_before};

use c_types::TokenAt;

/// The first one of a token and those before, if there are any.
pub fn earlier(first: Option<TokenAt>, at: TokenAt) -> Option<TokenAt>
    ensures { result ≡ earlier first at }
{
    match first {
        Some(first) => Some(if is_before(at, first) { at } else { first }),
        None => Some(at),
    }
}

/// The first one of both, if there are any.
pub fn first_of(a: Option<TokenAt>, b: Option<TokenAt>) -> Option<TokenAt>
    ensures { result ≡ first_of a b }
{
    match b {
        Some(at) => earlier(a, at),
        None => a,
    }
}

/// Whether it is this token.
pub fn is_at(first: Option<TokenAt>, at: TokenAt) -> bool
    ensures { IsTrue result ↔ (first ≡ Some at) }
{
    match first {
        Some(first) => first == at,
        None => false,
    }
}

/// Whether the token stands in an earlier unit, or before the other one in the same unit.
fn is_before(a: TokenAt, b: TokenAt) -> bool
    ensures { result ≡ is_before a b }
{
    a.unit < b.unit || (a.unit == b.unit && a.token < b.token)
}
