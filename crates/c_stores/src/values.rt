//! Expressions as initialisers.

ghost use Rattle.std.specs.Prelude.{◌≡◌, ◌+◌, ◌<◌, length, IfOk, IfSome, Result};
ghost use Rattle.c_types.specs.Sizes.{size_limit};
ghost use Rattle.c_types.specs.declared.expression.Expr.{Expr};
ghost use Rattle.c_typing.specs.Rules.{Tells};
ghost use Rattle.c_typing.specs.declared.rules.Rule.{Rule};
ghost use Rattle.c_judge.specs.State.{Gives};
ghost use Rattle.c_stores.specs.Values as values;
ghost use Rattle.c_stores.specs.Values.{IsTarget, kept, only_text, put_in, store_of, text_item, text_last, value_mode, want_of};

use crate::texts::{put_text, text_kind, text_of, text_rule};
use crate::{Dealt, Spot, Taken, Target, Turn, Want, is_text_array, next_spot, taken_by};
use c_ast::Expr as Tree;
use c_const::first_token;
use c_judge::{Checker, Mode};
use c_types::{CType, Expr, FullExpr, Store, StructType};
use c_typing::{Class, Judged, Rule, TypeError, class_of, class_of_type, stored};
use std::alloc::{AllocError, Global};

/// An initialiser's value is used, and evaluated.
pub fn value_mode() -> Mode
    ensures { result ≡ value_mode }
{
    Mode {
        is_used: true,
        is_evaluated: true,
    }
}

/// An expression in a list.
pub fn value_item(
    checker: &mut Checker,
    alloc: Global,
    target: Target,
    of: &CType,
    dealt: Dealt,
    e: &Tree,
) -> Result<Dealt, AllocError>
    requires { IsTarget target }
    ensures { Gives result checker.new (values.value_item e.now target of.now dealt checker.old) }
{
    let Some(bytes) = text_of(e) else {
        return expr_item(checker, alloc, target, of, dealt, e);
    };
    let structs = checker.sight.structs.as_slice();
    match text_spot(alloc, structs, of, target, dealt.turn) {
        Ok(Some(spot)) => { text_item(checker, alloc, target, first_token(e), bytes, spot, dealt) }
        Ok(None) => expr_item(checker, alloc, target, of, dealt, e),
        Err(error) => {
            drop(dealt);
            Err(error)
        }
    }
}

/// The array of characters whose turn it is, if it is one's.
fn text_spot(
    alloc: Global,
    structs: &[StructType],
    of: &CType,
    target: Target,
    turn: Turn,
) -> Result<Option<Spot>, AllocError>
    requires { target.offset < size_limit }
    ensures value { IfOk result (λ s. s ≡ values.text_spot structs.now of.now target turn) }
    ensures within { IfOk result (λ s. IfSome s (λ p. target.offset + p.offset < size_limit)) }
{
    let found = next_spot(alloc, structs, of, target, turn, Want::Text)?;
    Ok(only_text(found))
}

fn only_text(found: Option<Spot>) -> Option<Spot>
    ensures { result ≡ only_text found }
{
    match found {
        Some(spot) => {
            if !is_text_array(&spot.of) {
                drop(spot);
                return None;
            }
            Some(spot)
        }
        None => None,
    }
}

/// A string for an array of characters.
pub fn text_item(
    checker: &mut Checker,
    alloc: Global,
    target: Target,
    token: u32,
    bytes: &[u8],
    spot: Spot,
    dealt: Dealt,
) -> Result<Dealt, AllocError>
    requires target { IsTarget target }
    requires part { target.offset + spot.offset < size_limit }
    ensures { Gives result checker.new (text_item token bytes.now spot target dealt checker.old) }
{
    let Dealt { stores, turn } = dealt;
    let Spot {
        of,
        offset,
        next,
        is_whole,
    } = spot;
    let kind = text_kind(&of);
    let begin = target.offset + offset;
    let rule = text_rule(&of, begin, bytes.len() as u64);
    drop(of);
    if let Some(rule) = rule {
        checker.note(target.token, rule);
        return Ok(Dealt::from(stores, turn.passed(offset, next, true)));
    }
    let stores = put_text(alloc, stores, token, kind, target.base + begin, bytes)?;
    let last = text_last(is_whole, offset, bytes.len() as u64);
    Ok(Dealt::from(stores, turn.passed(last, next, false)))
}

fn text_last(is_whole: bool, offset: u64, count: u64) -> u64
    ensures { result ≡ text_last is_whole offset count }
{
    if is_whole { count } else { offset }
}

/// An expression that is no string for an array of characters.
fn expr_item(
    checker: &mut Checker,
    alloc: Global,
    target: Target,
    of: &CType,
    dealt: Dealt,
    e: &Tree,
) -> Result<Dealt, AllocError>
    requires { IsTarget target }
    ensures { Gives result checker.new (values.expr_item e.now target of.now dealt checker.old) }
{
    match checker.expr(alloc, e, value_mode()) {
        Ok(judged) => put(checker, alloc, target, of, first_token(e), dealt, judged),
        Err(error) => {
            drop(dealt);
            Err(error)
        }
    }
}

/// What an expression is, for the object whose turn it is.
fn put(
    checker: &mut Checker,
    alloc: Global,
    target: Target,
    of: &CType,
    token: u32,
    dealt: Dealt,
    judged: Option<Judged>,
) -> Result<Dealt, AllocError>
    requires { IsTarget target }
    ensures { Gives result checker.new (values.put target of.now token dealt judged checker.old) }
{
    let structs = checker.sight.structs.as_slice();
    let want = want_of(structs, &judged);
    match next_spot(alloc, structs, of, target, dealt.turn, want) {
        Ok(spot) => put_in(checker, alloc, target, token, spot, judged, dealt),
        Err(error) => {
            drop(judged);
            drop(dealt);
            Err(error)
        }
    }
}

/// What objects the expression can initialise.
fn want_of(structs: &[StructType], judged: &Option<Judged>) -> Want
    ensures { result ≡ want_of structs.now judged.now }
{
    let class = match judged {
        Some(Judged::Place { of, tree: _ }) => class_of_type(of, structs),
        Some(Judged::Value(value)) => class_of(value, structs),
        Some(Judged::Function { of: _, callee: _ }) | None => Class::Function,
    };
    match class {
        Class::Struct(number) => Want::Structure(number),
        Class::Void | Class::Whole(_) | Class::Pointer(_) | Class::Array | Class::Function => {
            Want::Plain
        }
    }
}

fn put_in(
    checker: &mut Checker,
    alloc: Global,
    target: Target,
    token: u32,
    spot: Option<Spot>,
    judged: Option<Judged>,
    dealt: Dealt,
) -> Result<Dealt, AllocError>
    requires target { IsTarget target }
    requires part { IfSome spot (λ p. target.offset + p.offset < size_limit) }
    ensures { Gives result checker.new (put_in target token spot judged dealt checker.old) }
{
    match (spot, judged) {
        (Some(spot), Some(judged)) => {
            store_value(checker, alloc, target, token, spot, judged, dealt)
        }
        (Some(spot), None) => {
            let (offset, next) = (spot.offset, spot.next);
            drop(spot);
            let Dealt { stores, turn } = dealt;
            Ok(Dealt::from(stores, turn.passed(offset, next, true)))
        }
        (None, judged) => {
            let is_broken = judged.is_none();
            drop(judged);
            let Dealt { stores, turn } = dealt;
            Ok(Dealt::from(stores, turn.over(is_broken)))
        }
    }
}

/// A value for an object.
pub fn store_value(
    checker: &mut Checker,
    alloc: Global,
    target: Target,
    token: u32,
    spot: Spot,
    judged: Judged,
    dealt: Dealt,
) -> Result<Dealt, AllocError>
    requires target { IsTarget target }
    requires part { target.offset + spot.offset < size_limit }
    ensures { Gives result checker.new (values.store_value target token spot judged dealt checker.old) }
{
    let structs = checker.sight.structs.as_slice();
    let taken = taken_by(structs, &spot);
    let told = stored(alloc, structs, &spot.of, Rule::InitialiserUnfit, judged);
    drop(spot);
    keep(checker, target, token, taken, told, dealt)
}

fn keep(
    checker: &mut Checker,
    target: Target,
    token: u32,
    taken: Taken,
    told: Result<Expr, TypeError>,
    dealt: Dealt,
) -> Result<Dealt, AllocError>
    requires target { IsTarget target }
    requires part { target.offset + taken.offset < size_limit }
    ensures { (meant : Result Expr Rule) → Tells told meant → Gives result checker.new (kept target token taken meant dealt checker.old) }
{
    let Dealt { stores, turn } = dealt;
    match told {
        Ok(expr) => {
            let mut stores = stores;
            match stores.push(store_of(target, token, taken, expr)) {
                Ok(()) => Ok(Dealt::from(stores, turn.passed(taken.offset, taken.next, false))),
                Err(error) => {
                    drop(stores);
                    Err(error)
                }
            }
        }
        Err(TypeError::Broken(rule)) => {
            checker.note(target.token, rule);
            Ok(Dealt::from(stores, turn.passed(taken.offset, taken.next, true)))
        }
        Err(TypeError::Memory) => {
            drop(stores);
            Err(AllocError)
        }
    }
}

fn store_of(target: Target, token: u32, taken: Taken, expr: Expr) -> Store
    requires target { IsTarget target }
    requires part { target.offset + taken.offset < size_limit }
    ensures { result ≡ store_of target token taken expr }
{
    Store {
        offset: target.base + (target.offset + taken.offset),
        stored: taken.stored,
        value: FullExpr { token, expr },
    }
}
