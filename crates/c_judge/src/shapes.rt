//! What declarators make of a type (C11, 6.7.6).

ghost use Rattle.std.specs.Prelude.{◌≡◌, IfOk};
ghost use Rattle.c_judge.specs.Shapes as shapes;
ghost use Rattle.c_judge.specs.Shapes.{with_shape, pointed, arrayed, called_for};

use c_types::{CType, FunctionType, Part, StructType};
use c_typing::{Class, Rule, class_of_type, lesser, measured};
use sqlite_items::Items;
use std::alloc::AllocError;

/// A type of an object or of a function.
#[derive(Drop)]
pub enum Built {
    Object(CType),
    Function(FunctionType),
}

/// What a declarator makes next of a type, from the type outwards to the name.
#[derive(Drop)]
pub enum Shape {
    Pointer { is_const: bool },
    Array(Extent),
    /// A function, by the types of its parameters.
    Function(Items<CType>),
    /// A part has a broken rule.
    Unknown,
}

/// How many elements an array has.
#[derive(Clone, Copy, Debug, PartialEq, Eq)]
pub enum Extent {
    Count(u64),
    /// `[]`
    Open,
    /// A number of elements that isn't greater than 0 (C11, 6.7.6.2p1).
    Bad,
}

/// A type so far, which is nothing where a part of it has a broken rule, and the rule with the least number that it breaks.
#[derive(Drop)]
pub struct Made {
    pub of: Option<Built>,
    pub rule: Option<Rule>,
}

/// The type that a declarator's shapes make of a type. The last shape is made first.
#[tactic(auto, unfolding(crate::specs::Shapes::applied))]
pub fn applied(
    structs: &[StructType],
    of: Option<Built>,
    parts: Items<Shape>,
) -> Result<Made, AllocError>
    ensures { IfOk result (λ m. m ≡ shapes.applied structs.now of parts) }
{
    let mut parts = parts;
    let mut made = Made { of, rule: None };
    while let Some(shape) = parts.pop() {
        made = match with_shape(structs, made, shape) {
            Ok(made) => made,
            Err(error) => {
                drop(parts);
                return Err(error);
            }
        };
    }
    drop(parts);
    Ok(made)
}

fn with_shape(structs: &[StructType], made: Made, shape: Shape) -> Result<Made, AllocError>
    ensures { IfOk result (λ m. m ≡ with_shape structs.now made shape) }
{
    let Made { of, rule } = made;
    match shape {
        Shape::Pointer { is_const } => pointed(of, rule, is_const),
        Shape::Array(extent) => arrayed(structs, of, rule, extent),
        Shape::Function(parameters) => Ok(called_for(structs, of, rule, parameters)),
        Shape::Unknown => {
            drop(of);
            Ok(Made { of: None, rule })
        }
    }
}

/// A pointer to a function isn't allowed, which is this profile's own.
fn pointed(of: Option<Built>, rule: Option<Rule>, is_const: bool) -> Result<Made, AllocError>
    ensures { IfOk result (λ m. m ≡ pointed of rule is_const) }
{
    match of {
        None => Ok(Made { of: None, rule }),
        Some(Built::Function(of)) => {
            drop(of);
            Ok(broken(rule, Rule::BadParameterOrResult))
        }
        Some(Built::Object(of)) => {
            let mut of = of;
            match of.parts.push(Part::Pointer { is_const }) {
                Ok(()) => Ok(Made {
                    of: Some(Built::Object(of)),
                    rule,
                }),
                Err(error) => {
                    drop(of);
                    Err(error)
                }
            }
        }
    }
}

fn broken(before: Option<Rule>, rule: Rule) -> Made
    ensures { result ≡ shapes.broken before rule }
{
    Made {
        of: None,
        rule: lesser(before, Some(rule)),
    }
}

fn arrayed(
    structs: &[StructType],
    of: Option<Built>,
    rule: Option<Rule>,
    extent: Extent,
) -> Result<Made, AllocError>
    ensures { IfOk result (λ m. m ≡ arrayed structs.now of rule extent) }
{
    match of {
        None => Ok(Made {
            of: None,
            rule: lesser(rule, extent_rule(extent)),
        }),
        Some(Built::Function(of)) => {
            drop(of);
            Ok(broken(rule, Rule::Incomplete))
        }
        Some(Built::Object(of)) => array_of(structs, of, rule, extent),
    }
}

fn extent_rule(extent: Extent) -> Option<Rule>
    ensures { result ≡ shapes.extent_rule extent }
{
    match extent {
        Extent::Bad => Some(Rule::BadArraySize),
        Extent::Count(_) | Extent::Open => None,
    }
}

/// An array has elements of a complete type (C11, 6.7.6.2p1).
fn array_of(
    structs: &[StructType],
    of: CType,
    rule: Option<Rule>,
    extent: Extent,
) -> Result<Made, AllocError>
    ensures { IfOk result (λ m. m ≡ shapes.array_of structs.now of rule extent) }
{
    if measured(&of, structs).is_none() {
        drop(of);
        return Ok(broken(rule, Rule::Incomplete));
    }
    let part = match extent {
        Extent::Bad => {
            drop(of);
            return Ok(broken(rule, Rule::BadArraySize));
        }
        Extent::Open => Part::OpenArray,
        Extent::Count(count) => Part::Array(count),
    };
    let mut of = of;
    match of.parts.push(part) {
        Ok(()) => Ok(limited(structs, of, rule, part)),
        Err(error) => {
            drop(of);
            Err(error)
        }
    }
}

/// An array may have no more bytes than an object may have.
fn limited(structs: &[StructType], of: CType, rule: Option<Rule>, part: Part) -> Made
    ensures { result ≡ shapes.limited structs.now of rule part }
{
    if part != Part::OpenArray && measured(&of, structs).is_none() {
        drop(of);
        return broken(rule, Rule::TooLarge);
    }
    Made {
        of: Some(Built::Object(of)),
        rule,
    }
}

/// A function gives nothing, a number or a pointer, which is this profile's own.
fn called_for(
    structs: &[StructType],
    of: Option<Built>,
    rule: Option<Rule>,
    parameters: Items<CType>,
) -> Made
    ensures { result ≡ called_for structs.now of rule parameters }
{
    match of {
        None => {
            drop(parameters);
            Made { of: None, rule }
        }
        Some(Built::Function(of)) => {
            drop(of);
            drop(parameters);
            broken(rule, Rule::BadParameterOrResult)
        }
        Some(Built::Object(of)) => {
            if !is_result(class_of_type(&of, structs)) {
                drop(of);
                drop(parameters);
                return broken(rule, Rule::BadParameterOrResult);
            }
            Made {
                of: Some(Built::Function(FunctionType {
                    result: of,
                    parameters,
                })),
                rule,
            }
        }
    }
}

fn is_result(class: Class) -> bool
    ensures { result ≡ shapes.is_result class }
{
    class.is_void() || class.is_scalar()
}
