//! The full expressions of statements (C11, 6.8), by what they are.

ghost use Rattle.std.specs.Prelude.{◌≡◌, Result};
ghost use Rattle.c_types.specs.declared.expression.Expr.{Expr};
ghost use Rattle.c_typing.specs.Rules.{Tells};
ghost use Rattle.c_typing.specs.declared.rules.Rule.{Rule};
ghost use Rattle.c_judge.specs.State.{Gives};
ghost use Rattle.c_check.specs.Values as values;
ghost use Rattle.c_check.specs.Values.{tree_of, full, settled_tree};

use c_judge::Checker;
use c_types::{CType, Expr, FullExpr, Operand, StructType};
use c_typing::{Class, Judged, Rule, TypeError, class_of_type, dropped, stored, switched, tested};
use rank_range::Kind;
use sqlite_items::Items;
use std::alloc::{AllocError, Global};

/// A full expression that begins at a token. One that breaks a rule stands as 0, in a program that isn't told.
fn full(alloc: Global, token: u32, tree: Option<Expr>) -> FullExpr
    ensures { result ≡ full token tree }
{
    let expr = match tree {
        Some(tree) => tree,
        None => Expr {
            first: Operand::Number(0),
            steps: Items::new(alloc),
        },
    };
    FullExpr { token, expr }
}

/// A tree, and the rule that it breaks, which is noted at a token.
fn settle_tree(
    checker: &mut Checker,
    at: u32,
    told: Result<Expr, TypeError>,
) -> Result<Option<Expr>, AllocError>
    ensures { (meant : Result Expr Rule) → Tells told meant → Gives result checker.new (settled_tree at meant checker.old) }
{
    match told {
        Ok(tree) => Ok(Some(tree)),
        Err(TypeError::Broken(rule)) => {
            checker.note(at, rule);
            Ok(None)
        }
        Err(TypeError::Memory) => Err(AllocError),
    }
}

/// A test at a statement's token, whose expression begins at another one.
pub fn test(
    checker: &mut Checker,
    alloc: Global,
    at: u32,
    token: u32,
    judged: Option<Judged>,
) -> Result<FullExpr, AllocError>
    ensures { Gives result checker.new (values.test at token judged checker.old) }
{
    let tree = match judged {
        Some(judged) => {
            let told = tested(alloc, checker.sight.structs.as_slice(), judged);
            settle_tree(checker, at, told)?
        }
        None => None,
    };
    Ok(full(alloc, token, tree))
}

/// An expression whose value isn't used.
pub fn unused(
    checker: &mut Checker,
    alloc: Global,
    token: u32,
    judged: Option<Judged>,
) -> Result<FullExpr, AllocError>
    ensures { Gives result checker.new (values.unused token judged checker.old) }
{
    let tree = match judged {
        Some(judged) => Some(dropped(alloc, judged)?),
        None => None,
    };
    Ok(full(alloc, token, tree))
}

/// The value of a `switch`, and its promoted kind.
pub fn choice(
    checker: &mut Checker,
    alloc: Global,
    at: u32,
    token: u32,
    judged: Option<Judged>,
) -> Result<(FullExpr, Option<Kind>), AllocError>
    ensures { Gives result checker.new (values.choice at token judged checker.old) }
{
    match judged {
        Some(judged) => match switched(alloc, checker.sight.structs.as_slice(), judged) {
            Ok((tree, kind)) => Ok((full(alloc, token, Some(tree)), Some(kind))),
            Err(TypeError::Broken(rule)) => {
                checker.note(at, rule);
                Ok((full(alloc, token, None), None))
            }
            Err(TypeError::Memory) => Err(AllocError),
        },
        None => Ok((full(alloc, token, None), None)),
    }
}

/// What is returned from a function that gives a value of a type.
pub fn returned(
    checker: &mut Checker,
    alloc: Global,
    at: u32,
    token: u32,
    to: &CType,
    judged: Option<Judged>,
) -> Result<FullExpr, AllocError>
    ensures { Gives result checker.new (values.returned at token to.now judged checker.old) }
{
    let tree = match judged {
        Some(judged) => {
            let told = returned_tree(alloc, checker.sight.structs.as_slice(), to, judged);
            settle_tree(checker, at, told)?
        }
        None => None,
    };
    Ok(full(alloc, token, tree))
}

/// A value is returned where one is wanted, and is converted as if it were stored (C11, 6.8.6.4).
fn returned_tree(
    alloc: Global,
    structs: &[StructType],
    to: &CType,
    judged: Judged,
) -> Result<Expr, TypeError>
    ensures { Tells result (values.returned_tree structs.now to.now judged) }
{
    if class_of_type(to, structs).is_void() {
        drop(judged);
        return Err(TypeError::Broken(Rule::ValueNotWanted));
    }
    stored(alloc, structs, to, Rule::StructUsed, judged)
}
