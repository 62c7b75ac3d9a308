//! Strings that initialise arrays of characters.

ghost use Rattle.std.specs.Prelude.{◌≡◌, ◌+◌, ◌<◌, ◌≤◌, ◌^◌, length, IfOk, None};
ghost use Rattle.std.specs.Option.{option_copied};
ghost use Rattle.c_types.specs.Sizes.{size_limit};
ghost use Rattle.c_stores.specs.Texts as texts;
ghost use Rattle.c_stores.specs.Texts.{character_store, text_kind, text_of, text_rule, with_text};

use crate::spots::LIMIT;
use c_ast::Expr as Tree;
use c_types::{Base, CType, Expr, FullExpr, Operand, Part, Store, Stored};
use c_typing::Rule;
use rank_range::{Kind, extended};
use sqlite_items::Items;
use std::alloc::{AllocError, Global};

/// The characters of a string. In parentheses it is none (C11, 6.7.9p14).
pub fn text_of(e: &Tree) -> Option<&[u8]>
    ensures { option_copied result ≡ text_of e.now }
{
    match e {
        Tree::Text { token: _, bytes } => Some(bytes.as_slice()),
        Tree::Name(_)
        | Tree::Number { .. }
        | Tree::Character { .. }
        | Tree::Paren { .. }
        | Tree::Postfix { .. }
        | Tree::Prefix { .. }
        | Tree::SizeofExpr { .. }
        | Tree::SizeofType { .. }
        | Tree::Cast { .. }
        | Tree::Binary { .. }
        | Tree::Conditional { .. }
        | Tree::Assign { .. }
        | Tree::Comma { .. } => None,
    }
}

/// What keeps a string of so many characters from initialising an array at an offset: the array is too short, where the string's zero doesn't
/// count (C11, 6.7.9p14), or too large.
pub fn text_rule(of: &CType, offset: u64, count: u64) -> Option<Rule>
    requires { offset < size_limit }
    ensures fits { result ≡ None → offset + count ≤ size_limit }
    ensures value { result ≡ text_rule of.now offset count }
{
    let (room, misfit) = match of.parts.as_slice().last().copied() {
        Some(Part::Array(room)) => (room, Rule::InitialiserUnfit),
        Some(Part::Pointer { .. } | Part::OpenArray) | None => (LIMIT - 1, Rule::TooLarge),
    };
    if room < count {
        return Some(misfit);
    }
    if LIMIT - offset < count {
        return Some(Rule::TooLarge);
    }
    None
}

/// The kind of the elements.
pub fn text_kind(of: &CType) -> Kind
    ensures { result ≡ text_kind of.now }
{
    match of.base {
        Base::Whole(kind) => kind,
        Base::Void | Base::Struct(_) => Kind::Char,
    }
}

/// The stores of a string's characters, behind others. What stands behind the last one is zero.
pub fn put_text(
    alloc: Global,
    stores: Items<Store>,
    token: u32,
    kind: Kind,
    offset: u64,
    bytes: &[u8],
) -> Result<Items<Store>, AllocError>
    requires { offset + length bytes.now < 2 ^ 64 }
    ensures { IfOk result (λ s. s ≡ with_text token kind offset stores bytes.now) }
{
    let mut stores = stores;
    let mut at = offset;
    for byte in bytes {
        match stores.push(character_store(alloc, token, kind, at, *byte)) {
            Ok(()) => at += 1,
            Err(error) => {
                drop(stores);
                return Err(error);
            }
        }
    }
    Ok(stores)
}

fn character_store(alloc: Global, token: u32, kind: Kind, offset: u64, byte: u8) -> Store
    ensures { result ≡ character_store token kind offset byte }
{
    Store {
        offset,
        stored: Stored::Number(kind),
        value: FullExpr {
            token,
            expr: Expr {
                first: Operand::Number(extended(kind, byte as u64)),
                steps: Items::new(alloc),
            },
        },
    }
}
