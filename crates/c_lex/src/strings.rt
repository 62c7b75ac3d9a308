//! String literals.

ghost use Rattle.std.specs.Prelude.{◌≡◌, ℕ, ◌∷◌, ◌+◌, ◌<◌, ◌^◌, length, IfOk, IfErr, IfSome};
ghost use Rattle.c_lex.specs.Faults.{Cause, IsBadToken};
ghost use Rattle.c_lex.specs.Tokens.{Fault, fault_of};
ghost use Rattle.c_lex.specs.Fronts.{IsSeen};

use crate::LexError;
use crate::fronts::Seen;
use crate::lexeme::Lexeme;
use crate::literals::{after_quote, character_at, is_closed};
use crate::token::TokenKind;
use am_base::Bytes;
use std::alloc::Global;

/// The string that begins at the place `at`, and the text behind it. Its first quote is taken.
pub fn string_at(alloc: Global, at: u32, body: &[u8]) -> Result<(Seen, &[u8]), LexError>
    requires { at + (1 + length body.now) < 2 ^ 31 }
    ensures seen { IfOk result (λ found. IsSeen (34 ∷ body.now) found.0 found.1.now) }
    ensures wrong { IfErr result (λ e. IfSome (fault_of e) (λ fault. (cause : Cause) × (k : ℕ) × IsBadToken (34 ∷ body.now) cause k × (fault ≡ Fault cause (at + k)))) }
{
    if !is_closed(b'"', body) {
        return Err(LexError::Unclosed { at });
    }
    let mut bytes = Bytes::new(alloc);
    let mut rest = body;
    'characters: while let Some((byte, next)) = character_at(b'"', rest) {
        bytes.push(byte)?;
        rest = next;
    }
    let Some(behind) = after_quote(b'"', rest) else {
        let taken = (body.len() - rest.len()) as u32;
        return Err(LexError::BadByte { at: at + 1 + taken });
    };
    let lexeme = Lexeme {
        kind: TokenKind::Text,
        value: 0,
        text: bytes,
    };
    Ok((Seen::Token(lexeme), behind))
}
