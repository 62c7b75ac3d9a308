//! Tokens without their place.

use crate::token::TokenKind;
use am_base::Bytes;

/// A token without its place.
#[derive(Debug, Drop)]
pub struct Lexeme {
    pub kind: TokenKind,
    /// As in a token.
    pub value: u64,
    /// As in a token.
    pub text: Bytes,
}
