//! The values of expressions: what is read from places (C11, 6.3.2.1).

ghost use Rattle.std.specs.Prelude.{◌≡◌, IfOk};
ghost use Rattle.c_typing.specs.Values as values;
ghost use Rattle.c_typing.specs.Values.{plain, read, loaded, decayed, uncalled};

use crate::trees::{alone, behind};
use crate::types::{last_part, pointer_to, without_last};
use crate::{Judged, Sort, Value};
use c_const::{Evaluated, of_kind};
use c_types::{Base, CType, Expr, Operand, Part, Step};
use rank_range::Kind;
use sqlite_items::Items;
use std::alloc::{AllocError, Global};

/// A whole type.
pub fn whole_type(alloc: Global, kind: Kind) -> CType
    ensures { result ≡ values.whole_type kind }
{
    CType {
        base: Base::Whole(kind),
        is_const: false,
        parts: Items::new(alloc),
    }
}

/// `void`.
pub fn void_type(alloc: Global) -> CType
    ensures { result ≡ values.void_type }
{
    CType {
        base: Base::Void,
        is_const: false,
        parts: Items::new(alloc),
    }
}

/// A value that is no constant.
pub fn plain(of: CType, tree: Expr) -> Value
    ensures { result ≡ plain of tree }
{
    Value {
        of,
        tree,
        constant: None,
        sort: Sort::Plain,
    }
}

/// A number of the kind, by its word.
pub fn number(alloc: Global, kind: Kind, word: u64) -> Value
    ensures { result ≡ values.number kind word }
{
    Value {
        of: whole_type(alloc, kind),
        tree: alone(alloc, Operand::Number(rank_range::extended(kind, word))),
        constant: Some(of_kind(kind, word)),
        sort: Sort::Plain,
    }
}

/// The value of an expression. A place is read: an array becomes a pointer to its first element, a number or pointer is
/// loaded, and a structure is told by its address.
#[tactic(auto, unfolding(crate::specs::Values::used))]
pub fn used(alloc: Global, judged: Judged) -> Result<Value, AllocError>
    ensures { IfOk result (λ v. v ≡ values.used judged) }
{
    match judged {
        Judged::Value(value) => Ok(value),
        Judged::Function { of, callee: _ } => {
            drop(of);
            Ok(uncalled(alloc))
        }
        Judged::Place { of, tree } => read(of, tree),
    }
}

/// The values of two expressions.
pub fn both_used(alloc: Global, a: Judged, b: Judged) -> Result<(Value, Value), AllocError>
    ensures left { IfOk result (λ both. both.0 ≡ values.used a) }
    ensures right { IfOk result (λ both. both.1 ≡ values.used b) }
{
    let a = match used(alloc, a) {
        Ok(a) => a,
        Err(error) => {
            drop(b);
            return Err(error);
        }
    };
    match used(alloc, b) {
        Ok(b) => Ok((a, b)),
        Err(error) => {
            drop(a);
            Err(error)
        }
    }
}

fn uncalled(alloc: Global) -> Value
    ensures { result ≡ uncalled }
{
    Value {
        of: void_type(alloc),
        tree: alone(alloc, Operand::Number(0)),
        constant: None,
        sort: Sort::Function,
    }
}

fn read(of: CType, tree: Expr) -> Result<Value, AllocError>
    ensures { IfOk result (λ v. v ≡ read of tree) }
{
    match (last_part(&of), of.base) {
        (Some(Part::Pointer { .. }), _) => loaded(of, Kind::UnsignedLong, tree),
        (Some(Part::Array(_) | Part::OpenArray), _) => decayed(of, tree),
        (None, Base::Whole(kind)) => loaded(of, kind, tree),
        (None, Base::Void | Base::Struct(_)) => Ok(plain(of, tree)),
    }
}

fn loaded(of: CType, kind: Kind, tree: Expr) -> Result<Value, AllocError>
    ensures { IfOk result (λ v. v ≡ loaded of kind tree) }
{
    match behind(tree, Step::Load(kind)) {
        Ok(tree) => Ok(plain(of, tree)),
        Err(error) => {
            drop(of);
            Err(error)
        }
    }
}

fn decayed(of: CType, tree: Expr) -> Result<Value, AllocError>
    ensures { IfOk result (λ v. v ≡ decayed of tree) }
{
    match pointer_to(without_last(of)) {
        Ok(of) => Ok(plain(of, tree)),
        Err(error) => {
            drop(tree);
            Err(error)
        }
    }
}

/// Whether the value is a null pointer constant (C11, 6.3.2.3p3).
pub fn is_zero(value: &Value) -> bool
    ensures { result ≡ values.is_zero value.now }
{
    value.sort == Sort::NullPointer || is_zero_constant(value.constant)
}

/// Whether the value is a constant 0 of a whole type.
pub fn is_zero_constant(constant: Option<Evaluated>) -> bool
    ensures { result ≡ values.is_zero_constant constant }
{
    match constant {
        Some(
            Evaluated {
                kind: _,
                word: Some(word),
            },
        ) => word == 0,
        Some(
            Evaluated {
                kind: _,
                word: None,
            },
        )
        | None => false,
    }
}
