//! What a name is where it stands in an expression (C11, 6.5.1).

ghost use Rattle.std.specs.Prelude.{◌≡◌, IfOk};
ghost use Rattle.c_judge.specs.Naming as naming;
ghost use Rattle.c_judge.specs.Naming.{meant_by};

use crate::Sight;
use crate::headers::{KnownHeaders, item_at, item_named};
use c_types::{Base, CType, Expr, FunctionType, Named, Operand, Used};
use c_typing::{Callee, Judged, Sort, Value, copied_type, number};
use sqlite_items::Items;
use std::alloc::{AllocError, Global};

/// What a name is.
#[derive(Drop)]
pub enum Found {
    /// It isn't declared as an object, a function or a constant.
    Undeclared,
    /// Its declaration breaks a rule.
    Unknown,
    /// What it is, and what it uses of the program.
    Judged { judged: Judged, used: Option<Used> },
}

/// What a name is that stands at a token.
#[tactic(auto, unfolding(crate::specs::Naming::found))]
pub fn look_up_name(
    alloc: Global,
    sight: &Sight,
    known: KnownHeaders,
    token: u32,
    name: &[u8],
) -> Result<Found, AllocError>
    ensures { IfOk result (λ f. f ≡ naming.found sight.now known token name.now) }
{
    match sight.look_up(name) {
        Some(Some(named)) => meant_by(alloc, named),
        Some(None) => Ok(Found::Unknown),
        None => match item_at(known, token, name) {
            Some(item) => {
                let named = item_named(alloc, item)?;
                let found = meant_by(alloc, &named);
                drop(named);
                found
            }
            None => Ok(Found::Undeclared),
        },
    }
}

fn meant_by(alloc: Global, named: &Named) -> Result<Found, AllocError>
    ensures { IfOk result (λ f. f ≡ meant_by named.now) }
{
    match named {
        Named::Type(_) | Named::FunctionType(_) => Ok(Found::Undeclared),
        Named::Constant { kind, value } => Ok(unused(Judged::Value(number(alloc, *kind, *value)))),
        Named::NullPointer(of) => null_pointer(alloc, of),
        Named::Local { offset, of } => place(alloc, Operand::Local(*offset), of, None),
        Named::Object { number, of } => place(
            alloc,
            Operand::Object(*number),
            of,
            Some(Used::Object(*number)),
        ),
        Named::Function { number, of } => function(
            alloc,
            Callee::Function(*number),
            of,
            Some(Used::Function(*number)),
        ),
        Named::Library { call, of } => function(alloc, Callee::Library(*call), of, None),
        Named::Mpi { call, of } => function(alloc, Callee::Mpi(*call), of, None),
    }
}

fn unused(judged: Judged) -> Found
    ensures { result ≡ naming.unused judged }
{
    Found::Judged { judged, used: None }
}

/// A header's null pointer. That of type `void *` is a null pointer constant.
fn null_pointer(alloc: Global, of: &CType) -> Result<Found, AllocError>
    ensures { IfOk result (λ f. f ≡ naming.null_pointer of.now) }
{
    let sort = if of.base == Base::Void {
        Sort::NullPointer
    } else {
        Sort::Plain
    };
    let of = copied_type(alloc, of)?;
    let tree = alone(alloc, Operand::Number(0));
    Ok(unused(Judged::Value(Value {
        of,
        tree,
        constant: None,
        sort,
    })))
}

pub(crate) fn alone(alloc: Global, first: Operand) -> Expr
    ensures { result ≡ naming.alone first }
{
    Expr {
        first,
        steps: Items::new(alloc),
    }
}

fn place(
    alloc: Global,
    operand: Operand,
    of: &CType,
    used: Option<Used>,
) -> Result<Found, AllocError>
    ensures { IfOk result (λ f. f ≡ naming.place operand of.now used) }
{
    match copied_type(alloc, of) {
        Ok(of) => Ok(Found::Judged {
            judged: Judged::Place {
                of,
                tree: alone(alloc, operand),
            },
            used,
        }),
        Err(error) => {
            drop(operand);
            Err(error)
        }
    }
}

fn function(
    alloc: Global,
    callee: Callee,
    of: &FunctionType,
    used: Option<Used>,
) -> Result<Found, AllocError>
    ensures { IfOk result (λ f. f ≡ naming.function callee of.now used) }
{
    Ok(Found::Judged {
        judged: Judged::Function {
            of: copied_function(alloc, of)?,
            callee,
        },
        used,
    })
}

/// The same type of a function.
pub fn copied_function(alloc: Global, of: &FunctionType) -> Result<FunctionType, AllocError>
    ensures { IfOk result (λ f. f ≡ of.now) }
{
    let mut parameters = Items::new(alloc);
    for parameter in of.parameters.as_slice() {
        match copied_type(alloc, parameter) {
            Ok(of) => parameters.push(of)?,
            Err(error) => {
                drop(parameters);
                return Err(error);
            }
        }
    }
    match copied_type(alloc, &of.result) {
        Ok(result) => Ok(FunctionType { result, parameters }),
        Err(error) => {
            drop(parameters);
            Err(error)
        }
    }
}
