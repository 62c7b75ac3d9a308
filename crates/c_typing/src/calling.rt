//! Calls (C11, 6.5.2.2), and values that are tested or dropped.

ghost use Rattle.std.specs.Prelude.{◌≡◌, IfOk, OnOk};
ghost use Rattle.std.specs.Option.{option_copied};
ghost use Rattle.c_typing.specs.Rules.{Tells};
ghost use Rattle.c_typing.specs.Rules as rules;
ghost use Rattle.c_typing.specs.Calling as calling;
ghost use Rattle.c_typing.specs.Calling.{fits_count, called};

use crate::classes::class_of;
use crate::trees::{Side, alone, converted};
use crate::values::{plain, used};
use crate::{Callee, Class, Judged, Rule, TypeError, Value, stored};
use am_base::LibCall;
use c_types::{CType, Expr, FunctionType, Operand, StructType};
use rank_range::Kind;
use sqlite_items::Items;
use std::alloc::{AllocError, Global};

/// The arguments of a call so far.
#[derive(Drop)]
pub struct Arguments {
    /// The rule with the least number that one of them breaks.
    pub rule: Option<Rule>,
    pub trees: Items<Expr>,
}

impl Arguments {
    pub fn new(alloc: Global) -> Arguments
        ensures { result ≡ calling.no_arguments }
    {
        Arguments {
            rule: None,
            trees: Items::new(alloc),
        }
    }

    /// One more argument, for a parameter of this type, or for none.
    #[tactic(auto, unfolding(crate::specs::Calling::with_argument))]
    pub fn pass(
        &mut self,
        alloc: Global,
        structs: &[StructType],
        to: Option<&CType>,
        judged: Judged,
    ) -> Result<(), AllocError>
        ensures { OnOk result (self.new ≡ calling.with_argument structs.now (option_copied to.entry) judged self.old) }
    {
        let passed = match to {
            Some(to) => stored(alloc, structs, to, Rule::StructUsed, judged),
            None => promoted(alloc, structs, judged),
        };
        match passed {
            Ok(tree) => self.trees.push(tree),
            Err(TypeError::Broken(rule)) => {
                self.rule = lesser(self.rule, Some(rule));
                self.trees.push(alone(alloc, Operand::Number(0)))
            }
            Err(TypeError::Memory) => Err(AllocError),
        }
    }
}

/// Of two rules the one with the lesser number.
pub fn lesser(a: Option<Rule>, b: Option<Rule>) -> Option<Rule>
    ensures { result ≡ rules.lesser a b }
{
    match (a, b) {
        (Some(a), Some(b)) => Some(if a.number() <= b.number() { a } else { b }),
        (Some(a), None) => Some(a),
        (None, b) => b,
    }
}

/// An argument without a parameter: a number is promoted (C11, 6.5.2.2p6).
#[tactic(auto, unfolding(crate::specs::Calling::promoted_argument))]
fn promoted(alloc: Global, structs: &[StructType], judged: Judged) -> Result<Expr, TypeError>
    ensures { Tells result (calling.promoted_argument structs.now judged) }
{
    let value = used(alloc, judged)?;
    let class = class_of(&value, structs);
    if let Some(rule) = passed_rule(class) {
        drop(value);
        return Err(TypeError::Broken(rule));
    }
    let Value { of, tree, .. } = value;
    drop(of);
    Ok(converted(Side {
        tree,
        from: class.kind(),
        to: promoted_kind(class),
    })?)
}

fn passed_rule(class: Class) -> Option<Rule>
    ensures { result ≡ rules.first_of (calling.passed_rows class) }
{
    if class.is_function() {
        return Some(Rule::NotScalar);
    }
    if class.is_void() {
        return Some(Rule::VoidUsed);
    }
    if class.is_struct() {
        return Some(Rule::StructUsed);
    }
    None
}

fn promoted_kind(class: Class) -> Kind
    ensures { result ≡ calling.promoted_kind class }
{
    class.kind().promoted()
}

/// A call with these arguments.
#[tactic(auto, unfolding(crate::specs::Calling::call))]
pub fn call(alloc: Global, callee: Judged, arguments: Arguments) -> Result<Judged, TypeError>
    ensures { Tells result (calling.call callee arguments) }
{
    let count = arguments.trees.len();
    if let Some(rule) = lesser(arguments.rule, callee_rule(&callee, count)) {
        drop(callee);
        drop(arguments);
        return Err(TypeError::Broken(rule));
    }
    let Arguments { trees, .. } = arguments;
    match callee {
        Judged::Function { of, callee } => {
            let FunctionType { result, parameters } = of;
            drop(parameters);
            Ok(Judged::Value(called(alloc, result, callee, trees)))
        }
        Judged::Value(value) => {
            drop(value);
            drop(trees);
            Err(TypeError::Broken(Rule::NotFunction))
        }
        Judged::Place { of, tree } => {
            drop(of);
            drop(tree);
            drop(trees);
            Err(TypeError::Broken(Rule::NotFunction))
        }
    }
}

fn callee_rule(callee: &Judged, count: usize) -> Option<Rule>
    ensures { result ≡ calling.callee_rule callee.now count }
{
    match callee {
        Judged::Function { of, callee } => {
            if fits_count(*callee, of.parameters.len(), count) {
                None
            } else {
                Some(Rule::WrongCount)
            }
        }
        Judged::Place { of: _, tree: _ } | Judged::Value(_) => Some(Rule::NotFunction),
    }
}

/// Whether a function with so many parameters takes so many arguments: `printf` takes more.
fn fits_count(callee: Callee, parameters: usize, count: usize) -> bool
    ensures { result ≡ fits_count callee parameters count }
{
    match callee {
        Callee::Library(LibCall::Printf) => parameters <= count,
        Callee::Library(_) | Callee::Function(_) | Callee::Mpi(_) => parameters == count,
    }
}

fn called(alloc: Global, of: CType, callee: Callee, arguments: Items<Expr>) -> Value
    ensures { result ≡ called of callee arguments }
{
    let operand = match callee {
        Callee::Function(function) => Operand::Call {
            function,
            arguments,
        },
        Callee::Library(call) => Operand::Library { call, arguments },
        Callee::Mpi(call) => Operand::Mpi { call, arguments },
    };
    plain(of, alone(alloc, operand))
}

/// A test: a number or a pointer.
#[tactic(auto, unfolding(crate::specs::Calling::tested))]
pub fn tested(alloc: Global, structs: &[StructType], judged: Judged) -> Result<Expr, TypeError>
    ensures { Tells result (calling.tested structs.now judged) }
{
    let value = used(alloc, judged)?;
    if !class_of(&value, structs).is_scalar() {
        drop(value);
        return Err(TypeError::Broken(Rule::NotScalar));
    }
    let Value { of, tree, .. } = value;
    drop(of);
    Ok(tree)
}

/// The value of a `switch`, promoted, and its kind (C11, 6.8.4.2).
#[tactic(auto, unfolding(crate::specs::Calling::switched))]
pub fn switched(
    alloc: Global,
    structs: &[StructType],
    judged: Judged,
) -> Result<(Expr, Kind), TypeError>
    ensures { Tells result (calling.switched structs.now judged) }
{
    let value = used(alloc, judged)?;
    let class = class_of(&value, structs);
    if !class.is_whole() {
        drop(value);
        return Err(TypeError::Broken(Rule::NotWhole));
    }
    let Value { of, tree, .. } = value;
    drop(of);
    let to = promoted_kind(class);
    let tree = converted(Side {
        tree,
        from: class.kind(),
        to,
    })?;
    Ok((tree, to))
}

/// The value of an expression that isn't used.
#[tactic(auto, unfolding(crate::specs::Calling::dropped))]
pub fn dropped(alloc: Global, judged: Judged) -> Result<Expr, AllocError>
    ensures { IfOk result (λ e. e ≡ calling.dropped judged) }
{
    let value = used(alloc, judged)?;
    let Value { of, tree, .. } = value;
    drop(of);
    Ok(tree)
}
