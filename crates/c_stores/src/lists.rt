//! Initialisers by recursion over their trees.

ghost use Rattle.std.specs.Prelude.{◌≡◌, ◌+◌, ◌<◌, ◌^◌, is_some, map, IfOk};
ghost use Rattle.std.specs.Option.{option_copied};
ghost use Rattle.c_types.specs.Sizes.{size_limit};
ghost use Rattle.c_judge.specs.State.{Gives};
ghost use Rattle.c_stores.specs.Values.{IsTarget};
ghost use Rattle.c_stores.specs.Within.{AllLieIn};
ghost use Rattle.c_stores.specs.Lists as lists;
ghost use Rattle.c_stores.specs.Lists.{ended, initialising, note_over, text_for, whole_item};

use crate::texts::text_of;
use crate::values::{store_value, text_item, value_item, value_mode};
use crate::{Dealt, Placing, Plan, Spot, Target, Turn, is_text_array, list_plan, over_rule, sized};
use c_ast::{Expr, Init};
use c_const::first_token;
use c_judge::Checker;
use c_types::{CType, Store};
use c_typing::{Class, Judged, Rule, class_of_type, copied_type};
use sqlite_items::Items;
use std::alloc::{AllocError, Global};

/// What an initialiser stores.
#[derive(Drop)]
pub struct Initialised {
    /// The type of the object. An array of open size has its size by its initialiser; it is nothing where a rule is broken there.
    pub of: Option<CType>,
    /// Whether all of the object becomes zero first.
    pub zeros: bool,
    /// In the order of their tokens.
    pub stores: Items<Store>,
}

/// What the initialiser of a declared object stores. Its type is complete, or an array of open size: other types are refused before. The rules are
/// told at the token of the declared name. `base` is where the object begins in its frame; that of a static object is 0.
pub fn initialise(
    checker: &mut Checker,
    alloc: Global,
    token: u32,
    base: u64,
    of: CType,
    init: &Init,
) -> Result<Initialised, AllocError>
    requires { base + size_limit < 2 ^ 64 }
    ensures value { Gives result checker.new ((initialising init.now).object token base of checker.old) }
    ensures within { IfOk result (λ i. AllLieIn base i.stores) }
{
    object_stores(checker, alloc, token, base, of, init)
}

fn object_stores(
    checker: &mut Checker,
    alloc: Global,
    token: u32,
    base: u64,
    of: CType,
    init: &Init,
) -> Result<Initialised, AllocError>
    requires { base + size_limit < 2 ^ 64 }
    ensures { Gives result checker.new ((initialising init.now).object token base of checker.old) }
{
    let target = Target {
        token,
        base,
        offset: 0,
    };
    match init {
        Init::Value(e) => whole_value(checker, alloc, target, of, e),
        Init::List { token: _, items } => {
            let start = Dealt::from(Items::new(alloc), Turn::first());
            match deal_all(checker, alloc, target, &of, start, items.as_slice()) {
                Ok(dealt) => braced_end(checker, target, of, dealt),
                Err(error) => {
                    drop(of);
                    Err(error)
                }
            }
        }
    }
}

fn braced_end(
    checker: &mut Checker,
    target: Target,
    of: CType,
    dealt: Dealt,
) -> Result<Initialised, AllocError>
    ensures { Gives result checker.new (lists.braced_end target of dealt checker.old) }
{
    note_over(checker, target, &of, dealt.turn);
    finished(checker, true, of, dealt)
}

/// A list is told that has an initialiser for which no object is left.
fn note_over(checker: &mut Checker, target: Target, of: &CType, turn: Turn)
    ensures { checker.new ≡ note_over target of.now turn checker.old }
{
    if turn.is_over && !turn.is_broken {
        checker.note(target.token, over_rule(of));
    }
}

fn finished(
    checker: &mut Checker,
    zeros: bool,
    of: CType,
    dealt: Dealt,
) -> Result<Initialised, AllocError>
    ensures { Gives result checker.new (lists.finished zeros of dealt checker.old) }
{
    let Dealt { stores, turn } = dealt;
    match sized(checker.sight.structs.as_slice(), of, turn) {
        Ok(of) => Ok(Initialised { of, zeros, stores }),
        Err(error) => {
            drop(stores);
            Err(error)
        }
    }
}

/// An expression that is all of an initialiser.
fn whole_value(
    checker: &mut Checker,
    alloc: Global,
    target: Target,
    of: CType,
    e: &Expr,
) -> Result<Initialised, AllocError>
    requires { IsTarget target }
    ensures { Gives result checker.new (lists.whole_value e.now target of checker.old) }
{
    let is_text = is_text_for(&of, e);
    match whole_dealt(checker, alloc, target, &of, e) {
        Ok(dealt) => finished(checker, is_text, of, dealt),
        Err(error) => {
            drop(of);
            Err(error)
        }
    }
}

/// The characters of a string that is for an array of characters.
fn text_for<'a>(of: &CType, e: &'a Expr) -> Option<&'a [u8]>
    ensures { option_copied result ≡ text_for of.now e.now }
{
    if !is_text_array(of) {
        return None;
    }
    text_of(e)
}

fn is_text_for(of: &CType, e: &Expr) -> bool
    ensures { result ≡ is_some (text_for of.now e.now) }
{
    text_for(of, e).is_some()
}

fn whole_dealt(
    checker: &mut Checker,
    alloc: Global,
    target: Target,
    of: &CType,
    e: &Expr,
) -> Result<Dealt, AllocError>
    requires { IsTarget target }
    ensures { Gives result checker.new (lists.whole_dealt e.now target of.now checker.old) }
{
    match text_for(of, e) {
        Some(bytes) => whole_text(checker, alloc, target, of, first_token(e), bytes),
        None => whole_expr(checker, alloc, target, of, e),
    }
}

fn whole_spot(alloc: Global, of: &CType) -> Result<Spot, AllocError>
    ensures { IfOk result (λ p. p ≡ lists.whole_spot of.now) }
{
    Ok(Spot {
        of: copied_type(alloc, of)?,
        offset: 0,
        next: None,
        is_whole: true,
    })
}

fn whole_text(
    checker: &mut Checker,
    alloc: Global,
    target: Target,
    of: &CType,
    token: u32,
    bytes: &[u8],
) -> Result<Dealt, AllocError>
    requires { IsTarget target }
    ensures { Gives result checker.new (lists.whole_text token bytes.now target of.now checker.old) }
{
    let spot = whole_spot(alloc, of)?;
    let start = Dealt::from(Items::new(alloc), Turn::first());
    text_item(checker, alloc, target, token, bytes, spot, start)
}

fn whole_expr(
    checker: &mut Checker,
    alloc: Global,
    target: Target,
    of: &CType,
    e: &Expr,
) -> Result<Dealt, AllocError>
    requires { IsTarget target }
    ensures { Gives result checker.new (lists.whole_expr e.now target of.now checker.old) }
{
    let judged = checker.expr(alloc, e, value_mode())?;
    whole_item(checker, alloc, target, of, first_token(e), judged)
}

/// An array isn't initialised by an expression that is no string (C11, 6.7.9p16).
fn whole_item(
    checker: &mut Checker,
    alloc: Global,
    target: Target,
    of: &CType,
    token: u32,
    judged: Option<Judged>,
) -> Result<Dealt, AllocError>
    requires { IsTarget target }
    ensures { Gives result checker.new (whole_item target of.now token judged checker.old) }
{
    let Some(judged) = judged else {
        return Ok(Dealt::from(Items::new(alloc), Turn::broken()));
    };
    if class_of_type(of, checker.sight.structs.as_slice()) == Class::Array {
        drop(judged);
        checker.note(target.token, Rule::InitialiserUnfit);
        return Ok(Dealt::from(Items::new(alloc), Turn::broken()));
    }
    match whole_spot(alloc, of) {
        Ok(spot) => {
            let start = Dealt::from(Items::new(alloc), Turn::first());
            store_value(checker, alloc, target, token, spot, judged, start)
        }
        Err(error) => {
            drop(judged);
            Err(error)
        }
    }
}

/// The initialisers of a list, one behind the other.
#[cycle(deal)]
fn deal_all(
    checker: &mut Checker,
    alloc: Global,
    target: Target,
    of: &CType,
    dealt: Dealt,
    items: &[Init],
) -> Result<Dealt, AllocError>
    requires { IsTarget target }
    ensures { Gives result checker.new (lists.deal_all (map initialising items.now) target of.now dealt checker.old) }
{
    let mut dealt = dealt;
    for one in items {
        dealt = deal(checker, alloc, target, of, dealt, one)?;
    }
    Ok(dealt)
}

#[cycle(deal)]
fn deal(
    checker: &mut Checker,
    alloc: Global,
    target: Target,
    of: &CType,
    dealt: Dealt,
    one: &Init,
) -> Result<Dealt, AllocError>
    requires { IsTarget target }
    ensures { Gives result checker.new ((initialising one.now).item target of.now dealt checker.old) }
{
    match one {
        Init::Value(e) => value_item(checker, alloc, target, of, dealt, e),
        Init::List { token: _, items } => {
            list_item(checker, alloc, target, of, dealt, items.as_slice())
        }
    }
}

/// A list within a list.
#[cycle(deal)]
fn list_item(
    checker: &mut Checker,
    alloc: Global,
    target: Target,
    of: &CType,
    dealt: Dealt,
    items: &[Init],
) -> Result<Dealt, AllocError>
    requires { IsTarget target }
    ensures { Gives result checker.new (lists.list_item (map initialising items.now) target of.now dealt checker.old) }
{
    let Dealt { stores, turn } = dealt;
    let structs = checker.sight.structs.as_slice();
    let plan = match list_plan(alloc, structs, of, target, turn) {
        Ok(plan) => plan,
        Err(error) => {
            drop(stores);
            return Err(error);
        }
    };
    let Plan {
        target: inner,
        of,
        turn: start,
        placing,
    } = plan;
    let start = Dealt::from(stores, start);
    match deal_all(checker, alloc, inner, &of, start, items) {
        Ok(dealt) => {
            let done = list_end(checker, target, &of, placing, turn, dealt);
            drop(of);
            Ok(done)
        }
        Err(error) => {
            drop(of);
            Err(error)
        }
    }
}

/// What a list within a list leaves behind it.
fn list_end(
    checker: &mut Checker,
    target: Target,
    of: &CType,
    placing: Placing,
    turn: Turn,
    dealt: Dealt,
) -> Dealt
    ensures value { result ≡ (ended target of.now placing turn dealt checker.old).0 }
    ensures state { checker.new ≡ (ended target of.now placing turn dealt checker.old).1 }
{
    let Dealt {
        stores,
        turn: inner,
    } = dealt;
    match placing {
        Placing::Within { offset, next } => {
            note_over(checker, target, of, inner);
            Dealt::from(stores, turn.passed(offset, next, inner.is_spoilt()))
        }
        Placing::Unfit { offset, next } => {
            if !inner.is_broken {
                checker.note(target.token, Rule::InitialiserUnfit);
            }
            Dealt::from(stores, turn.passed(offset, next, true))
        }
        Placing::Over => Dealt::from(stores, turn.over(inner.is_broken)),
    }
}
