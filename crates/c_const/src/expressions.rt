//! The value of a constant expression.

ghost use Rattle.std.specs.Prelude.{◌≡◌, map};
ghost use Rattle.c_const.specs.Constants as constants;
ghost use Rattle.c_const.specs.Constants.{evaluated, first_token, constant_named, names_in, told_in, size_told, cast_told, evaluated_links, constant_of};

use crate::operators::{binary, cast, conditional, number_kind, of_kind, prefix};
use crate::{ConstError, Evaluated, Told};
use c_ast::{Expr, Link};
use c_types::{Named, Names};
use indexmap::IndexMap;
use rank_range::Kind;
use sqlite_items::Boxed;

/// The value of a constant expression: the word of a number of the kind.
#[derive(Clone, Copy, Debug, PartialEq, Eq)]
pub struct Number {
    pub kind: Kind,
    pub word: u64,
}

/// The value of a constant expression (C11, 6.6). `types` tells of each cast and `sizeof` in it, by its first token. What
/// isn't told of, and each cast to a type that isn't whole, is no constant.
pub fn constant(e: &Expr, env: &Names, types: &IndexMap<u32, Told>) -> Result<Number, ConstError>
    ensures { result ≡ constant_of env.now types.now.entries e.now }
{
    match evaluate(e, env, types) {
        Some(
            Evaluated {
                kind,
                word: Some(word),
            },
        ) => Ok(Number { kind, word }),
        Some(
            Evaluated {
                kind: _,
                word: None,
            },
        )
        | None => Err(ConstError::NotConstant {
            token: first_token(e),
        }),
    }
}

/// The number of the first token of an expression.
pub fn first_token(e: &Expr) -> u32
    ensures { result ≡ first_token e.now }
{
    match e {
        Expr::Name(name) => name.token,
        Expr::Number { token, .. }
        | Expr::Character { token, .. }
        | Expr::Text { token, .. }
        | Expr::Paren { token, .. }
        | Expr::Postfix { token, .. }
        | Expr::Prefix { token, .. }
        | Expr::SizeofExpr { token, .. }
        | Expr::SizeofType { token, .. }
        | Expr::Cast { token, .. }
        | Expr::Binary { token, .. }
        | Expr::Conditional { token, .. }
        | Expr::Assign { token, .. }
        | Expr::Comma { token, .. } => *token,
    }
}

/// What an expression has, if it has the form of a constant expression.
#[cycle(evaluate)]
pub fn evaluate(e: &Expr, env: &Names, types: &IndexMap<u32, Told>) -> Option<Evaluated>
    ensures { result ≡ evaluated (names_in env.now) (told_in types.now.entries) e.now }
{
    match e {
        Expr::Name(name) => named(env, name.text.as_slice()),
        Expr::Number {
            token: _,
            value,
            number_type,
        } => Some(of_kind(number_kind(*number_type), *value)),
        Expr::Character { token: _, value } => Some(of_kind(Kind::Int, *value)),
        Expr::Paren { token: _, inner } => evaluate(inner.get(), env, types),
        Expr::Prefix {
            token: _,
            op,
            operand,
        } => prefix(*op, evaluate(operand.get(), env, types)),
        Expr::SizeofExpr { token, operand: _ } => size_at(types, *token),
        Expr::SizeofType {
            token,
            type_name: _,
        } => size_at(types, *token),
        Expr::Cast {
            token,
            type_name: _,
            operand,
        } => cast_at(types, *token, evaluate(operand.get(), env, types)),
        Expr::Binary {
            token: _,
            first,
            links,
        } => chain(
            evaluate(first.get(), env, types),
            links.as_slice(),
            env,
            types,
        ),
        Expr::Conditional {
            token: _,
            test,
            at: _,
            then,
            otherwise,
        } => conditional(
            evaluate(test.get(), env, types),
            evaluate(then.get(), env, types),
            evaluate(otherwise.get(), env, types),
        ),
        Expr::Text { .. } | Expr::Postfix { .. } | Expr::Assign { .. } | Expr::Comma { .. } => None,
    }
}

/// What operators of one level give, from left to right, behind what the first operand has.
#[cycle(evaluate)]
fn chain(
    first: Option<Evaluated>,
    links: &[Link<Boxed<Expr>>],
    env: &Names,
    types: &IndexMap<u32, Told>,
) -> Option<Evaluated>
    ensures { result ≡ constants.chain first (evaluated_links (names_in env.now) (told_in types.now.entries) links.now) }
{
    let mut value = first;
    for link in links {
        value = binary(link.op, value, evaluate(link.right.get(), env, types));
    }
    value
}

/// The value of a name that means a constant.
fn named(env: &Names, name: &[u8]) -> Option<Evaluated>
    ensures { result ≡ constant_named (names_in env.now name.now) }
{
    match env.ordinary.look_up(name) {
        Some(Named::Constant { kind, value }) => Some(of_kind(*kind, *value)),
        _ => None,
    }
}

fn told_at(types: &IndexMap<u32, Told>, token: u32) -> Option<Told>
    ensures { result ≡ told_in types.now.entries token }
{
    types.get(&token).copied()
}

fn size_at(types: &IndexMap<u32, Told>, token: u32) -> Option<Evaluated>
    ensures { result ≡ size_told (told_in types.now.entries token) }
{
    match told_at(types, token) {
        Some(Told::Size(bytes)) => Some(of_kind(Kind::UnsignedLong, bytes)),
        _ => None,
    }
}

fn cast_at(types: &IndexMap<u32, Told>, token: u32, value: Option<Evaluated>) -> Option<Evaluated>
    ensures { result ≡ cast_told (told_in types.now.entries token) value }
{
    match told_at(types, token) {
        Some(Told::Whole(kind)) => cast(kind, value),
        _ => None,
    }
}
