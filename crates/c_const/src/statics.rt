//! The values of static initialisers, on the typed program's expressions.

ghost use Rattle.std.specs.Prelude.{◌≡◌, map};
ghost use Rattle.c_const.specs.Statics as statics;
ghost use Rattle.c_const.specs.Statics.{static_first, static_behind, static_of, behind_all, number_in, converted, changed, denied, both, either, chosen, member, moved, moved_word, offset_by};

use crate::operators::{
    and_word, changed_word, chosen_word, converted_word, falsity_word, operated, or_word,
};
use c_types::{Expr, OffsetBy, Operand, Step};
use rank_range::{Binary, Kind, Unary};

/// What a static initialiser may be (C11, 6.6): a number, or the address of a static object or a string, by its number, so
/// many bytes on. The word is absent where the evaluation traps.
#[derive(Clone, Copy, Debug, PartialEq, Eq)]
pub enum Static {
    Number(Option<u64>),
    Address { object: u32, addend: Option<u64> },
}

/// What an expression is, if it has the form of a static initialiser's.
#[cycle(value)]
pub fn static_value(e: &Expr) -> Option<Static>
    ensures { result ≡ static_of e.now }
{
    let mut value = first(&e.first);
    for step in e.steps.as_slice() {
        value = behind(step, value);
    }
    value
}

fn first(operand: &Operand) -> Option<Static>
    ensures { result ≡ static_first operand.now }
{
    match operand {
        Operand::Number(word) => Some(Static::Number(Some(*word))),
        Operand::Object(number) => Some(Static::Address {
            object: *number,
            addend: Some(0),
        }),
        Operand::Local(_) | Operand::Call { .. } | Operand::Library { .. } | Operand::Mpi { .. } =>
            None,
    }
}

#[cycle(value)]
fn behind(step: &Step, a: Option<Static>) -> Option<Static>
    ensures { result ≡ static_behind step.now a }
{
    match step {
        Step::Convert { from, to } => converted(*from, *to, number_in(a)),
        Step::Unary { op, kind } => changed(*op, *kind, number_in(a)),
        Step::Not => denied(number_in(a)),
        Step::Member { offset } => member(*offset, a),
        Step::Binary { op, kind, right } => {
            binary(
                *op,
                *kind,
                number_in(a),
                number_in(static_value(right.get())),
            )
        }
        Step::Greater { kind, right } => {
            binary(
                Binary::Less,
                *kind,
                number_in(static_value(right.get())),
                number_in(a),
            )
        }
        Step::AtLeast { kind, right } => {
            binary(
                Binary::AtMost,
                *kind,
                number_in(static_value(right.get())),
                number_in(a),
            )
        }
        Step::Offset { by, scale, right } => {
            offset_by(*by, *scale, a, static_value(right.get()))
        }
        Step::And { right } => both(number_in(a), number_in(static_value(right.get()))),
        Step::Or { right } => either(number_in(a), number_in(static_value(right.get()))),
        Step::Conditional { then, otherwise } => chosen(
            number_in(a),
            number_in(static_value(then.get())),
            number_in(static_value(otherwise.get())),
        ),
        Step::Load(_)
        | Step::Difference { .. }
        | Step::Comma { .. }
        | Step::Assign { .. }
        | Step::Copy { .. }
        | Step::Update { .. }
        | Step::Advance { .. }
        | Step::Count { .. } => None,
    }
}

fn number_in(value: Option<Static>) -> Option<Option<u64>>
    ensures { result ≡ number_in value }
{
    match value {
        Some(Static::Number(word)) => Some(word),
        Some(Static::Address { .. }) | None => None,
    }
}

fn converted(from: Kind, to: Kind, a: Option<Option<u64>>) -> Option<Static>
    ensures { result ≡ converted from to a }
{
    match a {
        Some(word) => Some(Static::Number(converted_word(from, to, word))),
        None => None,
    }
}

fn changed(op: Unary, kind: Kind, a: Option<Option<u64>>) -> Option<Static>
    ensures { result ≡ changed op kind a }
{
    match a {
        Some(word) => Some(Static::Number(changed_word(op, kind, word))),
        None => None,
    }
}

fn denied(a: Option<Option<u64>>) -> Option<Static>
    ensures { result ≡ denied a }
{
    match a {
        Some(word) => Some(Static::Number(falsity_word(word))),
        None => None,
    }
}

fn binary(op: Binary, kind: Kind, a: Option<Option<u64>>, b: Option<Option<u64>>) -> Option<Static>
    ensures { result ≡ statics.binary op kind a b }
{
    match (a, b) {
        (Some(x), Some(y)) => Some(Static::Number(operated(op, kind, x, y))),
        (Some(_), None) | (None, _) => None,
    }
}

fn both(a: Option<Option<u64>>, b: Option<Option<u64>>) -> Option<Static>
    ensures { result ≡ both a b }
{
    match (a, b) {
        (Some(x), Some(y)) => Some(Static::Number(and_word(x, y))),
        (Some(_), None) | (None, _) => None,
    }
}

fn either(a: Option<Option<u64>>, b: Option<Option<u64>>) -> Option<Static>
    ensures { result ≡ either a b }
{
    match (a, b) {
        (Some(x), Some(y)) => Some(Static::Number(or_word(x, y))),
        (Some(_), None) | (None, _) => None,
    }
}

fn chosen(
    test: Option<Option<u64>>,
    a: Option<Option<u64>>,
    b: Option<Option<u64>>,
) -> Option<Static>
    ensures { result ≡ chosen test a b }
{
    match (test, a, b) {
        (Some(t), Some(x), Some(y)) => Some(Static::Number(chosen_word(t, x, y))),
        (Some(_), Some(_), None) | (Some(_), None, _) | (None, _, _) => None,
    }
}

fn member(offset: u64, a: Option<Static>) -> Option<Static>
    ensures { result ≡ member offset a }
{
    match a {
        Some(Static::Address { object, addend }) => Some(Static::Address {
            object,
            addend: operated(Binary::Add, Kind::UnsignedLong, addend, Some(offset)),
        }),
        Some(Static::Number(_)) | None => None,
    }
}

fn moved_word(op: Binary, scale: u64, p: Option<u64>, n: Option<u64>) -> Option<u64>
    ensures { result ≡ moved_word op scale p n }
{
    let distance = operated(Binary::Multiply, Kind::UnsignedLong, n, Some(scale));
    operated(op, Kind::UnsignedLong, p, distance)
}

/// An address, or a number that was cast to one, and a number times the scale that is added to it or taken from it.
fn moved(op: Binary, scale: u64, a: Option<Static>, number: Option<Option<u64>>) -> Option<Static>
    ensures { result ≡ moved op scale a number }
{
    match (a, number) {
        (Some(Static::Address { object, addend }), Some(n)) => Some(Static::Address {
            object,
            addend: moved_word(op, scale, addend, n),
        }),
        (Some(Static::Number(p)), Some(n)) => Some(Static::Number(moved_word(op, scale, p, n))),
        (Some(_), None) | (None, _) => None,
    }
}

fn offset_by(by: OffsetBy, scale: u64, a: Option<Static>, b: Option<Static>) -> Option<Static>
    ensures { result ≡ offset_by by scale a b }
{
    match by {
        OffsetBy::PointerPlusNumber => moved(Binary::Add, scale, a, number_in(b)),
        OffsetBy::NumberPlusPointer => moved(Binary::Add, scale, b, number_in(a)),
        OffsetBy::PointerMinusNumber => moved(Binary::Subtract, scale, a, number_in(b)),
    }
}
