//! The operators on whole numbers.

ghost use Rattle.std.specs.Prelude.{◌≡◌, true, pos, negsuc, ◌+ℤ◌, ◌-ℤ◌, ◌*ℤ◌, neg_ℤ, int_lt, int_div, int_rem};
ghost use Rattle.std.specs.Ordering.{int_eq};
ghost use Rattle.std.specs.Int.{int_shr};
ghost use Rattle.rank_range.specs.Kinds.{is_signed, reduced, word_of, value_of};
ghost use Rattle.rank_range.specs.Operators as operators;
ghost use Rattle.rank_range.specs.Operators.{truth, least, divided, division_trap, shifted, int_shl, AreGivenWords, IsGivenWord};

use crate::{Kind, extended};
use am_base::TrapCause;

/// An operator on one number.
#[derive(Clone, Copy, Debug, PartialEq, Eq)]
pub enum Unary {
    /// `-`
    Negate,
    /// `~`
    Complement,
}

/// An operator on two numbers. `>` and `>=` are `<` and `<=` of the numbers changed about.
#[derive(Clone, Copy, Debug, PartialEq, Eq)]
pub enum Binary {
    Add,
    Subtract,
    Multiply,
    Divide,
    Remainder,
    And,
    Or,
    Xor,
    ShiftLeft,
    ShiftRight,
    Equal,
    NotEqual,
    Less,
    AtMost,
}

/// What the operator gives on the number of the kind in the word.
#[tactic(auto, unfolding(crate::specs::Operators::operate_one))]
pub fn operate_one(op: Unary, kind: Kind, a: u64) -> u64
    ensures { result ≡ operators.operate_one op kind a }
{
    match op {
        Unary::Negate => negate(kind, a),
        Unary::Complement => complement(kind, a),
    }
}

/// What the operator gives on the numbers of the kind in the words, or a trap. The count of a shift has a kind of its
/// own, and is the whole word `b`.
#[tactic(auto, unfolding(crate::specs::Operators::operate, crate::specs::Kinds::extended))]
pub fn operate(op: Binary, kind: Kind, a: u64, b: u64) -> Result<u64, TrapCause>
    ensures { result ≡ operators.operate op kind a b }
{
    match op {
        Binary::Add => Ok(add(kind, a, b)),
        Binary::Subtract => Ok(subtract(kind, a, b)),
        Binary::Multiply => Ok(multiply(kind, a, b)),
        Binary::Divide => divide(kind, a, b),
        Binary::Remainder => remainder(kind, a, b),
        Binary::And => Ok(extended(kind, extended(kind, a) & extended(kind, b))),
        Binary::Or => Ok(extended(kind, extended(kind, a) | extended(kind, b))),
        Binary::Xor => Ok(extended(kind, extended(kind, a) ^ extended(kind, b))),
        Binary::ShiftLeft => shift_left(kind, a, b),
        Binary::ShiftRight => shift_right(kind, a, b),
        Binary::Equal => Ok(truth(is_equal(kind, a, b))),
        Binary::NotEqual => Ok(truth(!is_equal(kind, a, b))),
        Binary::Less => Ok(truth(is_less(kind, a, b))),
        Binary::AtMost => Ok(truth(!is_less(kind, b, a))),
    }
}

fn negate(kind: Kind, a: u64) -> u64
    ensures { result ≡ word_of (reduced kind (neg_ℤ (value_of kind a))) }
{
    extended(kind, 0u64.wrapping_sub(a))
}

fn complement(kind: Kind, a: u64) -> u64
    ensures { result ≡ word_of (reduced kind (negsuc 0 -ℤ value_of kind a)) }
{
    extended(kind, u64::MAX - a)
}

fn add(kind: Kind, a: u64, b: u64) -> u64
    ensures { result ≡ word_of (reduced kind (value_of kind a +ℤ value_of kind b)) }
{
    extended(kind, a.wrapping_add(b))
}

fn subtract(kind: Kind, a: u64, b: u64) -> u64
    ensures { result ≡ word_of (reduced kind (value_of kind a -ℤ value_of kind b)) }
{
    extended(kind, a.wrapping_sub(b))
}

fn multiply(kind: Kind, a: u64, b: u64) -> u64
    ensures { result ≡ word_of (reduced kind (value_of kind a *ℤ value_of kind b)) }
{
    extended(kind, a.wrapping_mul(b))
}

/// A word of the least number of the kind.
fn least(kind: Kind) -> u64
    ensures { value_of kind result ≡ least kind }
{
    match kind {
        Kind::Char => 0x80,
        Kind::Short => 0x8000,
        Kind::Int => 0x8000_0000,
        Kind::Long => 0x8000_0000_0000_0000,
        Kind::UnsignedChar | Kind::UnsignedShort | Kind::Unsigned | Kind::UnsignedLong => 0,
    }
}

fn is_zero(kind: Kind, a: u64) -> bool
    ensures { result ≡ int_eq (value_of kind a) (pos 0) }
{
    is_equal(kind, a, 0)
}

fn is_least(kind: Kind, a: u64) -> bool
    ensures { result ≡ int_eq (value_of kind a) (least kind) }
{
    is_equal(kind, a, least(kind))
}

fn is_minus_one(kind: Kind, a: u64) -> bool
    ensures { result ≡ int_eq (value_of kind a) (negsuc 0) }
{
    if !kind.is_signed() {
        return false;
    }
    is_equal(kind, a, u64::MAX)
}

/// Why a number can't be divided by another, if so: the divisor is 0, or the least number is divided by -1.
fn division_trap(kind: Kind, a: u64, b: u64) -> Option<TrapCause>
    ensures { result ≡ division_trap kind (value_of kind a) (value_of kind b) }
{
    if is_zero(kind, b) {
        return Some(TrapCause::DivisionByZero);
    }
    if is_least(kind, a) && is_minus_one(kind, b) {
        return Some(TrapCause::DivisionOverflow);
    }
    None
}

/// The number of a signed kind in the word.
fn number_in(kind: Kind, a: u64) -> i64
    requires { is_signed kind ≡ true }
    ensures { result ≡ value_of kind a }
{
    extended(kind, a).cast_signed()
}

/// The word of a number, reduced to the kind.
fn reduced_word(kind: Kind, z: i64) -> u64
    ensures { result ≡ word_of (reduced kind z) }
{
    extended(kind, z.cast_unsigned())
}

fn divide(kind: Kind, a: u64, b: u64) -> Result<u64, TrapCause>
    ensures { result ≡ divided int_div kind (value_of kind a) (value_of kind b) }
{
    if let Some(cause) = division_trap(kind, a, b) {
        return Err(cause);
    }
    if kind.is_signed() {
        let quotient = number_in(kind, a) / number_in(kind, b);
        return Ok(reduced_word(kind, quotient));
    }
    let divisor = extended(kind, b);
    Ok(extended(kind, extended(kind, a) / divisor))
}

fn remainder(kind: Kind, a: u64, b: u64) -> Result<u64, TrapCause>
    ensures { result ≡ divided int_rem kind (value_of kind a) (value_of kind b) }
{
    if let Some(cause) = division_trap(kind, a, b) {
        return Err(cause);
    }
    if kind.is_signed() {
        let rest = number_in(kind, a) % number_in(kind, b);
        return Ok(reduced_word(kind, rest));
    }
    let divisor = extended(kind, b);
    Ok(extended(kind, extended(kind, a) % divisor))
}

fn shift_left(kind: Kind, a: u64, count: u64) -> Result<u64, TrapCause>
    ensures { result ≡ shifted int_shl kind (value_of kind a) count }
{
    if count >= kind.bits() {
        return Err(TrapCause::ShiftCount);
    }
    Ok(extended(kind, a << count))
}

fn shift_right(kind: Kind, a: u64, count: u64) -> Result<u64, TrapCause>
    ensures { result ≡ shifted int_shr kind (value_of kind a) count }
{
    if count >= kind.bits() {
        return Err(TrapCause::ShiftCount);
    }
    if kind.is_signed() {
        return Ok(reduced_word(kind, number_in(kind, a) >> count));
    }
    Ok(extended(kind, extended(kind, a) >> count))
}

fn is_equal(kind: Kind, a: u64, b: u64) -> bool
    ensures { result ≡ int_eq (value_of kind a) (value_of kind b) }
{
    extended(kind, a) == extended(kind, b)
}

/// Whether the number of the kind in the word `a` is less than the one in `b`.
fn is_less(kind: Kind, a: u64, b: u64) -> bool
    ensures { result ≡ int_lt (value_of kind a) (value_of kind b) }
{
    if kind.is_signed() {
        number_in(kind, a) < number_in(kind, b)
    } else {
        extended(kind, a) < extended(kind, b)
    }
}

/// The value of a test.
fn truth(is: bool) -> u64
    ensures { result ≡ truth is }
{
    if is { 1 } else { 0 }
}

/// Laws: what an operator gives is the word of a number of its kind, and of `int` where it is a test.
pub fn words_are_given()
    ensures two { AreGivenWords }
    ensures one { IsGivenWord }
{}
