//! Parts of a unit that are read by themselves, and what there is to say of them beside their trees.

use crate::scope::OwnNames;
use am_base::Bytes;
use c_ast::{Abstract, Declarator, Direct, Expr, ForStart, Specifier, Specs, TypeName};
use sqlite_items::Boxed;

/// Where an expression ends that stands inside another part: with prefix operators, with `?:`, with assignments, with commas.
#[derive(Clone, Copy, Debug, PartialEq, Eq)]
pub enum Extent {
    Unary,
    Cond,
    Assign,
    Comma,
}

/// What is to be read one level further in.
#[derive(Clone, Copy, Debug, PartialEq, Eq)]
pub enum Wanted {
    Expr(Extent),
    Specs,
    Declarator,
    Unnamed,
    ParamDeclarator,
    TypeInParens,
}

/// Specifiers, and whether a `typedef` is among them.
#[derive(Drop)]
pub struct ReadSpecs {
    pub specs: Specs<Specifier>,
    pub is_typedef: bool,
}

/// A declarator without its pointers and suffixes, the name that it declares, and what the parameters of its function bring.
#[derive(Drop)]
pub struct ReadDirect {
    pub tree: Direct<Boxed<Declarator>>,
    pub name: Bytes,
    pub own: OwnNames,
}

/// A declarator, the name that it declares, and what the parameters of its function bring.
#[derive(Drop)]
pub struct ReadDeclarator {
    pub tree: Declarator,
    pub name: Bytes,
    pub own: OwnNames,
}

/// What stands behind the specifiers of a parameter.
#[derive(Drop)]
pub enum ReadParam {
    Named(ReadDeclarator),
    Unnamed(Abstract<Boxed<Expr>>),
}

/// What was read one level further in.
#[derive(Drop)]
pub enum Phrase {
    Expr(Expr),
    Specs(ReadSpecs),
    Declarator(ReadDeclarator),
    Unnamed(Abstract<Boxed<Expr>>),
    Param(ReadParam),
    TypeInParens(TypeName),
}

/// What stands in the parentheses of a `for`.
#[derive(Drop)]
pub struct Head {
    pub start: ForStart,
    pub test: Option<Expr>,
    pub step: Option<Expr>,
}
