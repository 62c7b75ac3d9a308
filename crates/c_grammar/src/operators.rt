//! What keywords and punctuators stand for.

ghost use Rattle.std.specs.Prelude.{◌≡◌};
ghost use Rattle.c_grammar.specs.Words.{storage_of, qualifier_of, word_of, prefix_of, operator_of, assign_of};
ghost use Rattle.c_grammar.specs.ReadingExpr.{prefix_at, operator_at, operator_in, of_level, assign_at, starts_type, sees_type, kind_starts, sees_expr, sees_type_in_parens};

use crate::cursor::{sees_mark, tail};
use crate::scope::Scope;
use c_ast::{AssignOp, BinaryOp, PrefixOp, Qualifier, Storage, TypeWord};
use c_lex::{Keyword, Mark, Token, TokenKind};

/// The specifier that a token is, if it says nothing of the type (C11, 6.7.1 and 6.7.4).
pub fn storage_of(kind: TokenKind) -> Option<Storage>
    ensures { result ≡ storage_of kind }
{
    Some(match kind {
        TokenKind::Keyword(Keyword::Typedef) => Storage::Typedef,
        TokenKind::Keyword(Keyword::Extern) => Storage::Extern,
        TokenKind::Keyword(Keyword::Static) => Storage::Static,
        TokenKind::Keyword(Keyword::Auto) => Storage::Auto,
        TokenKind::Keyword(Keyword::Register) => Storage::Register,
        TokenKind::Keyword(Keyword::Inline) => Storage::Inline,
        _ => return None,
    })
}

/// The type qualifier that a token is (C11, 6.7.3).
pub fn qualifier_of(kind: TokenKind) -> Option<Qualifier>
    ensures { result ≡ qualifier_of kind }
{
    Some(match kind {
        TokenKind::Keyword(Keyword::Const) => Qualifier::Const,
        TokenKind::Keyword(Keyword::Volatile) => Qualifier::Volatile,
        TokenKind::Keyword(Keyword::Restrict) => Qualifier::Restrict,
        _ => return None,
    })
}

/// The word of a type that a token is (C11, 6.7.2).
pub fn word_of(kind: TokenKind) -> Option<TypeWord>
    ensures { result ≡ word_of kind }
{
    Some(match kind {
        TokenKind::Keyword(Keyword::Void) => TypeWord::Void,
        TokenKind::Keyword(Keyword::Char) => TypeWord::Char,
        TokenKind::Keyword(Keyword::Short) => TypeWord::Short,
        TokenKind::Keyword(Keyword::Int) => TypeWord::Int,
        TokenKind::Keyword(Keyword::Long) => TypeWord::Long,
        TokenKind::Keyword(Keyword::Signed) => TypeWord::Signed,
        TokenKind::Keyword(Keyword::Unsigned) => TypeWord::Unsigned,
        _ => return None,
    })
}

/// The operator before its operand that a token is (C11, 6.5.3).
pub fn prefix_of(kind: TokenKind) -> Option<PrefixOp>
    ensures { result ≡ prefix_of kind }
{
    Some(match kind {
        TokenKind::Mark(Mark::PlusPlus) => PrefixOp::Increment,
        TokenKind::Mark(Mark::MinusMinus) => PrefixOp::Decrement,
        TokenKind::Mark(Mark::Ampersand) => PrefixOp::Address,
        TokenKind::Mark(Mark::Star) => PrefixOp::Deref,
        TokenKind::Mark(Mark::Plus) => PrefixOp::Plus,
        TokenKind::Mark(Mark::Minus) => PrefixOp::Minus,
        TokenKind::Mark(Mark::Tilde) => PrefixOp::Complement,
        TokenKind::Mark(Mark::Bang) => PrefixOp::Not,
        _ => return None,
    })
}

/// The operator between two operands that a token is, with its level, from 1 to 10: the lower it is, the closer the
/// operator binds (C11, 6.5.5 to 6.5.14).
pub fn operator_of(kind: TokenKind) -> Option<(u8, BinaryOp)>
    ensures { result ≡ operator_of kind }
{
    Some(match kind {
        TokenKind::Mark(Mark::Star) => (1, BinaryOp::Multiply),
        TokenKind::Mark(Mark::Slash) => (1, BinaryOp::Divide),
        TokenKind::Mark(Mark::Percent) => (1, BinaryOp::Remainder),
        TokenKind::Mark(Mark::Plus) => (2, BinaryOp::Add),
        TokenKind::Mark(Mark::Minus) => (2, BinaryOp::Subtract),
        TokenKind::Mark(Mark::ShiftLeft) => (3, BinaryOp::ShiftLeft),
        TokenKind::Mark(Mark::ShiftRight) => (3, BinaryOp::ShiftRight),
        TokenKind::Mark(Mark::Less) => (4, BinaryOp::Less),
        TokenKind::Mark(Mark::Greater) => (4, BinaryOp::Greater),
        TokenKind::Mark(Mark::AtMost) => (4, BinaryOp::AtMost),
        TokenKind::Mark(Mark::AtLeast) => (4, BinaryOp::AtLeast),
        TokenKind::Mark(Mark::Equal) => (5, BinaryOp::Equal),
        TokenKind::Mark(Mark::NotEqual) => (5, BinaryOp::NotEqual),
        TokenKind::Mark(Mark::Ampersand) => (6, BinaryOp::BitAnd),
        TokenKind::Mark(Mark::Caret) => (7, BinaryOp::BitXor),
        TokenKind::Mark(Mark::Bar) => (8, BinaryOp::BitOr),
        TokenKind::Mark(Mark::AndAnd) => (9, BinaryOp::And),
        TokenKind::Mark(Mark::OrOr) => (10, BinaryOp::Or),
        _ => return None,
    })
}

/// The assignment operator that a token is (C11, 6.5.16).
pub fn assign_of(kind: TokenKind) -> Option<AssignOp>
    ensures { result ≡ assign_of kind }
{
    Some(match kind {
        TokenKind::Mark(Mark::Assign) => AssignOp::Set,
        TokenKind::Mark(Mark::StarAssign) => AssignOp::Multiply,
        TokenKind::Mark(Mark::SlashAssign) => AssignOp::Divide,
        TokenKind::Mark(Mark::PercentAssign) => AssignOp::Remainder,
        TokenKind::Mark(Mark::PlusAssign) => AssignOp::Add,
        TokenKind::Mark(Mark::MinusAssign) => AssignOp::Subtract,
        TokenKind::Mark(Mark::ShiftLeftAssign) => AssignOp::ShiftLeft,
        TokenKind::Mark(Mark::ShiftRightAssign) => AssignOp::ShiftRight,
        TokenKind::Mark(Mark::AmpersandAssign) => AssignOp::BitAnd,
        TokenKind::Mark(Mark::CaretAssign) => AssignOp::BitXor,
        TokenKind::Mark(Mark::BarAssign) => AssignOp::BitOr,
        _ => return None,
    })
}

/// The operator before its operand that comes next.
pub fn prefix_at(tokens: &[Token]) -> Option<PrefixOp>
    ensures { result ≡ prefix_at tokens.now }
{
    match tokens {
        [] => None,
        [first, ..] => prefix_of(first.kind),
    }
}

/// The operator between two operands that comes next, with its level.
pub fn operator_at(tokens: &[Token]) -> Option<(u8, BinaryOp)>
    ensures { result ≡ operator_at tokens.now }
{
    match tokens {
        [] => None,
        [first, ..] => operator_of(first.kind),
    }
}

/// The same, if it is of this level.
pub fn operator_in(level: u8, tokens: &[Token]) -> Option<BinaryOp>
    ensures { result ≡ operator_in level tokens.now }
{
    match operator_at(tokens) {
        Some((found, operator)) if found == level => Some(operator),
        _ => None,
    }
}

/// The assignment operator that comes next.
pub fn assign_at(tokens: &[Token]) -> Option<AssignOp>
    ensures { result ≡ assign_at tokens.now }
{
    match tokens {
        [] => None,
        [first, ..] => assign_of(first.kind),
    }
}

/// Whether a type name may begin with the token, where these names are in scope.
pub fn starts_type(names: &Scope, token: &Token) -> bool
    ensures { result ≡ starts_type names.now token.now }
{
    let kind = token.kind;
    if storage_of(kind).is_some() || qualifier_of(kind).is_some() || word_of(kind).is_some() {
        return true;
    }
    match kind {
        TokenKind::Keyword(keyword) => keyword == Keyword::Struct || keyword == Keyword::Enum,
        TokenKind::Name => names.is_type(token.headers, token.text.as_slice()),
        _ => false,
    }
}

/// Whether a type name may begin here.
pub fn sees_type(names: &Scope, tokens: &[Token]) -> bool
    ensures { result ≡ sees_type names.now tokens.now }
{
    match tokens {
        [] => false,
        [first, ..] => starts_type(names, first),
    }
}

/// Whether an expression may begin with the token, where these names are in scope.
fn starts_expr(names: &Scope, token: &Token) -> bool
    ensures { result ≡ kind_starts names.now token.now token.now.kind }
{
    match token.kind {
        TokenKind::Mark(mark) => mark == Mark::OpenParen || prefix_of(token.kind).is_some(),
        TokenKind::Keyword(keyword) => keyword == Keyword::Sizeof,
        TokenKind::Name => !names.is_type(token.headers, token.text.as_slice()),
        TokenKind::Number(_) | TokenKind::Character | TokenKind::Text => true,
    }
}

/// Whether an expression may begin here.
pub fn sees_expr(names: &Scope, tokens: &[Token]) -> bool
    ensures { result ≡ sees_expr names.now tokens.now }
{
    match tokens {
        [] => false,
        [first, ..] => starts_expr(names, first),
    }
}

/// Whether a `(` comes next, and a type name may begin behind it.
pub fn sees_type_in_parens(names: &Scope, tokens: &[Token]) -> bool
    ensures { result ≡ sees_type_in_parens names.now tokens.now }
{
    sees_mark(Mark::OpenParen, tokens) && sees_type(names, tail(tokens))
}
