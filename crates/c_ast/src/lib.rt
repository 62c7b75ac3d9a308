//! The trees of the grammar: what a source's tokens spell.
//!
//! Each type is a production, each variant one of its alternatives, and each field a part, in order. A part that may be
//! repeated is a list. `token` is the number of the first token, from 0 on; `at` is that of an operator.
#![tactic(auto)]

ghost use Rattle.c_ast.specs.Leaves.{HasLeaf};

mod declaration;
mod expression;
mod statement;
mod words;

pub use declaration::{
    Abstract, Decl, Declarator, Direct, DirectSuffix, EnumSpec, Enumerator, External, Init,
    InitDeclarator, Member, Param, Specifier, Specs, StructSpec, TypeName, Unit,
};
pub use expression::{Expr, Link, PostfixOp};
pub use statement::{BlockItem, ForStart, Stmt};
pub use words::{AssignOp, BinaryOp, Name, NumberType, PrefixOp, Qualifier, Storage, TypeWord};

/// A law: each expression has a leaf.
pub fn each_has_a_leaf()
    ensures { HasLeaf }
{}
