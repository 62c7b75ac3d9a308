//! Joining strings that stand next to each other.

ghost use Rattle.std.specs.Prelude.{◌≡◌, ◌&&◌, IfOk, OnOk};
ghost use Rattle.c_lex.specs.Tokens.{is_text, joined};
ghost use Rattle.c_lex.specs.Joining.{added};

use crate::token::{Token, TokenKind};
use std::alloc::{AllocError, Global};

/// Whether both tokens are strings.
fn are_texts(left: &Token, right: &Token) -> bool
    ensures { result ≡ (is_text left.now.kind && is_text right.now.kind) }
{
    matches!((left.kind, right.kind), (TokenKind::Text, TokenKind::Text))
}

/// Appends a token, to the last one where both are strings.
fn add(out: &mut Vec<Token>, token: Token) -> Result<(), AllocError>
    ensures { OnOk result (out.new.items ≡ added out.old.items token) }
{
    let Some(mut last) = out.pop() else {
        out.push(token)?;
        return Ok(());
    };
    if are_texts(&last, &token) {
        last.text.append(token.text.as_slice())?;
        out.push(last)?;
        return Ok(());
    }
    out.push(last)?;
    out.push(token)?;
    Ok(())
}

/// Strings next to each other become one.
pub fn join(alloc: Global, tokens: Vec<Token>) -> Result<Vec<Token>, AllocError>
    ensures { IfOk result (λ out. out.items ≡ joined tokens.items) }
{
    let mut out = Vec::new(alloc);
    for token in tokens {
        add(&mut out, token)?;
    }
    Ok(out)
}
