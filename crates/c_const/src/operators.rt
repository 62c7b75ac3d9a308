//! The operators of constant expressions, on what their operands have. An operand that hasn't the form of a constant expression
//! is `None`.

ghost use Rattle.std.specs.Prelude.{◌≡◌};
ghost use Rattle.rank_range.specs.Kinds.{promoted};
ghost use Rattle.c_const.specs.Constants as constants;
ghost use Rattle.c_const.specs.Constants.{prefixed, operated, common_word, arithmetic, compared, shifted, and_word, or_word, truth_word, falsity_word, joined, chosen, chosen_word, converted_word, as_kind, changed, changed_word, test_of, cast_to, prefixed_part};

use crate::Evaluated;
use c_ast::{BinaryOp, NumberType, PrefixOp};
use rank_range::{Binary, Kind, Unary, convert, extended, operate, operate_one, usual};

/// The value of the kind that a word stands for.
pub fn of_kind(kind: Kind, word: u64) -> Evaluated
    ensures { result ≡ constants.of_kind kind word }
{
    Evaluated {
        kind,
        word: Some(extended(kind, word)),
    }
}

/// The type of a number (C11, 6.4.4.1).
pub fn number_kind(number_type: NumberType) -> Kind
    ensures { result ≡ constants.number_kind number_type }
{
    match number_type {
        NumberType::Int => Kind::Int,
        NumberType::UnsignedInt => Kind::Unsigned,
        NumberType::Long => Kind::Long,
        NumberType::UnsignedLong => Kind::UnsignedLong,
    }
}

/// A cast to a whole type (C11, 6.5.4).
pub fn cast(to: Kind, value: Option<Evaluated>) -> Option<Evaluated>
    ensures { result ≡ cast_to to value }
{
    match value {
        Some(v) => Some(as_kind(v, to)),
        None => None,
    }
}

/// An operator before its operand (C11, 6.5.3.3).
pub fn prefix(op: PrefixOp, value: Option<Evaluated>) -> Option<Evaluated>
    ensures { result ≡ prefixed_part op value }
{
    match value {
        Some(v) => prefixed(op, v),
        None => None,
    }
}

/// An operator between two operands (C11, 6.5.5 to 6.5.14).
pub fn binary(op: BinaryOp, a: Option<Evaluated>, b: Option<Evaluated>) -> Option<Evaluated>
    ensures { result ≡ constants.binary op a b }
{
    match (a, b) {
        (Some(a), Some(b)) => Some(joined(op, a, b)),
        (Some(_), None) | (None, _) => None,
    }
}

/// `?:` (C11, 6.5.15).
pub fn conditional(
    test: Option<Evaluated>,
    then: Option<Evaluated>,
    otherwise: Option<Evaluated>,
) -> Option<Evaluated>
    ensures { result ≡ constants.conditional test then otherwise }
{
    match (test, then, otherwise) {
        (Some(t), Some(a), Some(b)) => Some(chosen(t, a, b)),
        (Some(_), Some(_), None) | (Some(_), None, _) | (None, _, _) => None,
    }
}

pub(crate) fn converted_word(from: Kind, to: Kind, word: Option<u64>) -> Option<u64>
    ensures { result ≡ converted_word from to word }
{
    match word {
        Some(word) => Some(convert(word, from, to)),
        None => None,
    }
}

fn as_kind(value: Evaluated, to: Kind) -> Evaluated
    ensures { result ≡ as_kind to value }
{
    Evaluated {
        kind: to,
        word: converted_word(value.kind, to, value.word),
    }
}

fn promoted(value: Evaluated) -> Evaluated
    ensures { result ≡ as_kind (promoted value.kind) value }
{
    as_kind(value, value.kind.promoted())
}

fn prefixed(op: PrefixOp, value: Evaluated) -> Option<Evaluated>
    ensures { result ≡ prefixed op value }
{
    match op {
        PrefixOp::Increment | PrefixOp::Decrement | PrefixOp::Address | PrefixOp::Deref => None,
        PrefixOp::Plus => Some(promoted(value)),
        PrefixOp::Minus => Some(changed(Unary::Negate, promoted(value))),
        PrefixOp::Complement => Some(changed(Unary::Complement, promoted(value))),
        PrefixOp::Not => Some(test_of(falsity_word(value.word))),
    }
}

fn changed(op: Unary, value: Evaluated) -> Evaluated
    ensures { result ≡ changed op value }
{
    Evaluated {
        kind: value.kind,
        word: changed_word(op, value.kind, value.word),
    }
}

pub(crate) fn changed_word(op: Unary, kind: Kind, word: Option<u64>) -> Option<u64>
    ensures { result ≡ changed_word op kind word }
{
    match word {
        Some(word) => Some(operate_one(op, kind, word)),
        None => None,
    }
}

/// The value of a test.
fn test_of(word: Option<u64>) -> Evaluated
    ensures { result ≡ test_of word }
{
    Evaluated {
        kind: Kind::Int,
        word,
    }
}

fn truth_word(word: Option<u64>) -> Option<u64>
    ensures { result ≡ truth_word word }
{
    match word {
        Some(0) => Some(0),
        Some(_) => Some(1),
        None => None,
    }
}

pub(crate) fn falsity_word(word: Option<u64>) -> Option<u64>
    ensures { result ≡ falsity_word word }
{
    match word {
        Some(0) => Some(1),
        Some(_) => Some(0),
        None => None,
    }
}

fn joined(op: BinaryOp, a: Evaluated, b: Evaluated) -> Evaluated
    ensures { result ≡ joined op a b }
{
    match op {
        BinaryOp::Or => test_of(or_word(a.word, b.word)),
        BinaryOp::And => test_of(and_word(a.word, b.word)),
        BinaryOp::BitOr => arithmetic(Binary::Or, a, b),
        BinaryOp::BitXor => arithmetic(Binary::Xor, a, b),
        BinaryOp::BitAnd => arithmetic(Binary::And, a, b),
        BinaryOp::Equal => compared(Binary::Equal, a, b),
        BinaryOp::NotEqual => compared(Binary::NotEqual, a, b),
        BinaryOp::Less => compared(Binary::Less, a, b),
        BinaryOp::Greater => compared(Binary::Less, b, a),
        BinaryOp::AtMost => compared(Binary::AtMost, a, b),
        BinaryOp::AtLeast => compared(Binary::AtMost, b, a),
        BinaryOp::ShiftLeft => shifted(Binary::ShiftLeft, a, b),
        BinaryOp::ShiftRight => shifted(Binary::ShiftRight, a, b),
        BinaryOp::Add => arithmetic(Binary::Add, a, b),
        BinaryOp::Subtract => arithmetic(Binary::Subtract, a, b),
        BinaryOp::Multiply => arithmetic(Binary::Multiply, a, b),
        BinaryOp::Divide => arithmetic(Binary::Divide, a, b),
        BinaryOp::Remainder => arithmetic(Binary::Remainder, a, b),
    }
}

/// What an operator gives, where both operands have a value and it doesn't trap.
pub(crate) fn operated(op: Binary, kind: Kind, a: Option<u64>, b: Option<u64>) -> Option<u64>
    ensures { result ≡ operated op kind a b }
{
    match (a, b) {
        (Some(a), Some(b)) => untrapped(op, kind, a, b),
        (Some(_), None) | (None, _) => None,
    }
}

fn untrapped(op: Binary, kind: Kind, a: u64, b: u64) -> Option<u64>
    ensures { result ≡ operated op kind (Some a) (Some b) }
{
    match operate(op, kind, a, b) {
        Ok(word) => Some(word),
        Err(_) => None,
    }
}

/// What an operator gives in the kind of the usual conversions (C11, 6.3.1.8).
fn common_word(op: Binary, a: Evaluated, b: Evaluated) -> Option<u64>
    ensures { result ≡ common_word op a b }
{
    let kind = usual(a.kind, b.kind);
    let left = converted_word(a.kind, kind, a.word);
    let right = converted_word(b.kind, kind, b.word);
    operated(op, kind, left, right)
}

fn arithmetic(op: Binary, a: Evaluated, b: Evaluated) -> Evaluated
    ensures { result ≡ arithmetic op a b }
{
    Evaluated {
        kind: usual(a.kind, b.kind),
        word: common_word(op, a, b),
    }
}

fn compared(op: Binary, a: Evaluated, b: Evaluated) -> Evaluated
    ensures { result ≡ compared op a b }
{
    test_of(common_word(op, a, b))
}

/// A shift (C11, 6.5.7): each operand is promoted by itself.
fn shifted(op: Binary, a: Evaluated, b: Evaluated) -> Evaluated
    ensures { result ≡ shifted op a b }
{
    let left = promoted(a);
    let count = promoted(b);
    Evaluated {
        kind: left.kind,
        word: operated(op, left.kind, left.word, count.word),
    }
}

pub(crate) fn and_word(a: Option<u64>, b: Option<u64>) -> Option<u64>
    ensures { result ≡ and_word a b }
{
    match a {
        Some(0) => Some(0),
        Some(_) => truth_word(b),
        None => None,
    }
}

pub(crate) fn or_word(a: Option<u64>, b: Option<u64>) -> Option<u64>
    ensures { result ≡ or_word a b }
{
    match a {
        Some(0) => truth_word(b),
        Some(_) => Some(1),
        None => None,
    }
}

/// Of two words the one that a test chooses.
pub(crate) fn chosen_word(test: Option<u64>, a: Option<u64>, b: Option<u64>) -> Option<u64>
    ensures { result ≡ chosen_word test a b }
{
    match test {
        Some(0) => b,
        Some(_) => a,
        None => None,
    }
}

fn chosen(test: Evaluated, a: Evaluated, b: Evaluated) -> Evaluated
    ensures { result ≡ chosen test a b }
{
    let kind = usual(a.kind, b.kind);
    let then = converted_word(a.kind, kind, a.word);
    let otherwise = converted_word(b.kind, kind, b.word);
    Evaluated {
        kind,
        word: chosen_word(test.word, then, otherwise),
    }
}
