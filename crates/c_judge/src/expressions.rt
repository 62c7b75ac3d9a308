//! What expressions are (C11, 6.5): the parts that stand outside the recursion over trees.

ghost use Rattle.std.specs.Prelude.{◌≡◌};
ghost use Rattle.std.specs.Option.{option_copied};
ghost use Rattle.c_typing.specs.Rules.{Tells};
ghost use Rattle.c_judge.specs.State.{Gives, settled};
ghost use Rattle.c_judge.specs.Expressions as expressions;

use crate::{Built, Checker, Mode};
use c_ast::{AssignOp, BinaryOp, Name, PrefixOp};
use c_types::{Direction, Given};
use c_typing::{Arguments, Judged, Rule, TypeError};
use rank_range::{Binary, Unary};
use std::alloc::{AllocError, Global};

impl Mode {
    /// That of an operand, whose value is used.
    pub fn operand(self) -> Mode
        ensures { result ≡ expressions.operand self }
    {
        Mode {
            is_used: true,
            is_evaluated: self.is_evaluated,
        }
    }

    /// That of an operand whose value isn't used.
    pub fn unused(self) -> Mode
        ensures { result ≡ expressions.unused self }
    {
        Mode {
            is_used: false,
            is_evaluated: self.is_evaluated,
        }
    }

    /// That of the operand of `sizeof`.
    pub fn unevaluated() -> Mode
        ensures { result ≡ expressions.unevaluated }
    {
        Mode {
            is_used: false,
            is_evaluated: false,
        }
    }
}

impl Checker {
    /// An operator before its operand.
    pub fn prefix(
        &mut self,
        alloc: Global,
        op: PrefixOp,
        token: u32,
        operand: Option<Judged>,
    ) -> Result<Option<Judged>, AllocError>
        ensures { Gives result self.new (expressions.with_prefix op token operand self.old) }
    {
        match operand {
            Some(operand) => {
                let told = self.prefixed(alloc, op, operand);
                self.settle(token, told)
            }
            None => Ok(None),
        }
    }

    fn prefixed(&self, alloc: Global, op: PrefixOp, operand: Judged) -> Result<Judged, TypeError>
        ensures { Tells result (expressions.prefixed op self.now operand) }
    {
        let structs = self.sight.structs.as_slice();
        let fixed = self.sight.fixed.as_slice();
        match op {
            PrefixOp::Increment => {
                c_typing::count(structs, fixed, Direction::Up, Given::New, operand)
            }
            PrefixOp::Decrement => {
                c_typing::count(structs, fixed, Direction::Down, Given::New, operand)
            }
            PrefixOp::Address => c_typing::address(operand),
            PrefixOp::Deref => c_typing::deref(alloc, structs, operand),
            PrefixOp::Plus => c_typing::sign(alloc, structs, op, None, operand),
            PrefixOp::Minus => c_typing::sign(alloc, structs, op, Some(Unary::Negate), operand),
            PrefixOp::Complement => {
                c_typing::sign(alloc, structs, op, Some(Unary::Complement), operand)
            }
            PrefixOp::Not => c_typing::deny(alloc, structs, operand),
        }
    }

    /// An operator between its operands.
    pub fn link(
        &mut self,
        alloc: Global,
        op: BinaryOp,
        at: u32,
        a: Option<Judged>,
        b: Option<Judged>,
    ) -> Result<Option<Judged>, AllocError>
        ensures { Gives result self.new (expressions.linked op at a b self.old) }
    {
        match (a, b) {
            (Some(a), Some(b)) => {
                let told = c_typing::binary(alloc, self.sight.structs.as_slice(), op, a, b);
                self.settle(at, told)
            }
            (Some(a), None) => {
                drop(a);
                Ok(None)
            }
            (None, b) => {
                drop(b);
                Ok(None)
            }
        }
    }

    /// `a[b]`
    pub fn index(
        &mut self,
        alloc: Global,
        at: u32,
        a: Option<Judged>,
        b: Option<Judged>,
    ) -> Result<Option<Judged>, AllocError>
        ensures { Gives result self.new (expressions.indexed at a b self.old) }
    {
        match (a, b) {
            (Some(a), Some(b)) => {
                let told = c_typing::index(alloc, self.sight.structs.as_slice(), a, b);
                self.settle(at, told)
            }
            (Some(a), None) => {
                drop(a);
                Ok(None)
            }
            (None, b) => {
                drop(b);
                Ok(None)
            }
        }
    }

    /// `a.name`
    pub fn member(
        &mut self,
        alloc: Global,
        name: &Name,
        a: Option<Judged>,
    ) -> Result<Option<Judged>, AllocError>
        ensures { Gives result self.new (expressions.member_named name.now a self.old) }
    {
        match a {
            Some(a) => {
                let structs = self.sight.structs.as_slice();
                let told = c_typing::member(alloc, structs, name.text.as_slice(), a);
                self.settle(name.token, told)
            }
            None => Ok(None),
        }
    }

    /// `a->name`
    pub fn arrow(
        &mut self,
        alloc: Global,
        name: &Name,
        a: Option<Judged>,
    ) -> Result<Option<Judged>, AllocError>
        ensures { Gives result self.new (expressions.arrow_named name.now a self.old) }
    {
        match a {
            Some(a) => {
                let structs = self.sight.structs.as_slice();
                let told = c_typing::arrow(alloc, structs, name.text.as_slice(), a);
                self.settle(name.token, told)
            }
            None => Ok(None),
        }
    }

    /// `a++` and `a--`
    pub fn count(
        &mut self,
        direction: Direction,
        at: u32,
        a: Option<Judged>,
    ) -> Result<Option<Judged>, AllocError>
        ensures { Gives result self.new (expressions.counted direction at a self.old) }
    {
        match a {
            Some(a) => {
                let structs = self.sight.structs.as_slice();
                let fixed = self.sight.fixed.as_slice();
                let told = c_typing::count(structs, fixed, direction, Given::Old, a);
                self.settle(at, told)
            }
            None => Ok(None),
        }
    }

    /// One more argument of a call, for the parameter with this number.
    pub fn pass(
        &self,
        alloc: Global,
        callee: &Option<Judged>,
        number: usize,
        arguments: Option<Arguments>,
        argument: Option<Judged>,
    ) -> Result<Option<Arguments>, AllocError>
        ensures { Gives result self.now (expressions.passed (expressions.parameter callee.now number) arguments argument self.now) }
    {
        match (arguments, argument) {
            (Some(arguments), Some(argument)) => {
                let mut arguments = arguments;
                let structs = self.sight.structs.as_slice();
                match arguments.pass(alloc, structs, parameter(callee, number), argument) {
                    Ok(()) => Ok(Some(arguments)),
                    Err(error) => {
                        drop(arguments);
                        Err(error)
                    }
                }
            }
            (Some(arguments), None) => {
                drop(arguments);
                Ok(None)
            }
            (None, argument) => {
                drop(argument);
                Ok(None)
            }
        }
    }

    /// A call.
    pub fn call(
        &mut self,
        alloc: Global,
        at: u32,
        callee: Option<Judged>,
        arguments: Option<Arguments>,
    ) -> Result<Option<Judged>, AllocError>
        ensures { Gives result self.new (expressions.called at callee arguments self.old) }
    {
        match (callee, arguments) {
            (Some(callee), Some(arguments)) => {
                let told = c_typing::call(alloc, callee, arguments);
                self.settle(at, told)
            }
            (Some(callee), None) => {
                drop(callee);
                Ok(None)
            }
            (None, arguments) => {
                drop(arguments);
                Ok(None)
            }
        }
    }

    /// `sizeof` of an expression.
    pub fn size(
        &mut self,
        alloc: Global,
        token: u32,
        operand: Option<Judged>,
    ) -> Result<Option<Judged>, AllocError>
        ensures { Gives result self.new (expressions.sized token operand self.old) }
    {
        match operand {
            Some(operand) => {
                let structs = self.sight.structs.as_slice();
                let told = c_typing::size_of_judged(alloc, structs, &operand);
                drop(operand);
                self.settle_rule(token, told)
            }
            None => Ok(None),
        }
    }

    /// `sizeof` of a type.
    pub fn size_of_built(
        &mut self,
        alloc: Global,
        token: u32,
        of: Option<Built>,
    ) -> Result<Option<Judged>, AllocError>
        ensures { Gives result self.new (expressions.sized_type token of self.old) }
    {
        match of {
            Some(Built::Object(of)) => {
                let structs = self.sight.structs.as_slice();
                let told = c_typing::size_of_type(alloc, structs, &of);
                drop(of);
                self.settle_rule(token, told)
            }
            Some(Built::Function(of)) => {
                drop(of);
                self.settle_rule(token, Err(Rule::Incomplete))
            }
            None => Ok(None),
        }
    }

    fn settle_rule(
        &mut self,
        token: u32,
        told: Result<Judged, Rule>,
    ) -> Result<Option<Judged>, AllocError>
        ensures { Gives result self.new (settled token told self.old) }
    {
        match told {
            Ok(judged) => Ok(Some(judged)),
            Err(rule) => {
                self.note(token, rule);
                Ok(None)
            }
        }
    }

    /// The mode of what is cast.
    pub fn cast_mode(&self, to: &Option<Built>, mode: Mode) -> Mode
        ensures { result ≡ expressions.cast_mode self.now to.now mode }
    {
        let is_used = match to {
            Some(Built::Object(of)) => {
                !c_typing::class_of_type(of, self.sight.structs.as_slice()).is_void()
            }
            Some(Built::Function(_)) | None => true,
        };
        Mode {
            is_used,
            is_evaluated: mode.is_evaluated,
        }
    }

    /// A cast.
    pub fn cast(
        &mut self,
        alloc: Global,
        token: u32,
        to: Option<Built>,
        operand: Option<Judged>,
    ) -> Result<Option<Judged>, AllocError>
        ensures { Gives result self.new (expressions.casted token to operand self.old) }
    {
        match (to, operand) {
            (Some(Built::Object(to)), Some(operand)) => {
                let told = c_typing::cast(alloc, self.sight.structs.as_slice(), to, operand);
                self.settle(token, told)
            }
            (Some(Built::Function(to)), Some(operand)) => {
                drop(to);
                drop(operand);
                self.note(token, Rule::NotScalar);
                Ok(None)
            }
            (Some(to), None) => {
                drop(to);
                Ok(None)
            }
            (None, operand) => {
                drop(operand);
                Ok(None)
            }
        }
    }

    /// `?:`
    pub fn choose(
        &mut self,
        alloc: Global,
        at: u32,
        test: Option<Judged>,
        a: Option<Judged>,
        b: Option<Judged>,
    ) -> Result<Option<Judged>, AllocError>
        ensures { Gives result self.new (expressions.choose at test a b self.old) }
    {
        match (test, a, b) {
            (Some(test), Some(a), Some(b)) => {
                let structs = self.sight.structs.as_slice();
                let told = c_typing::conditional(alloc, structs, test, a, b);
                self.settle(at, told)
            }
            (Some(test), Some(a), None) => {
                drop(test);
                drop(a);
                Ok(None)
            }
            (Some(test), None, b) => {
                drop(test);
                drop(b);
                Ok(None)
            }
            (None, a, b) => {
                drop(a);
                drop(b);
                Ok(None)
            }
        }
    }

    /// An assignment.
    pub fn assign(
        &mut self,
        alloc: Global,
        op: AssignOp,
        at: u32,
        a: Option<Judged>,
        b: Option<Judged>,
    ) -> Result<Option<Judged>, AllocError>
        ensures { Gives result self.new (expressions.with_assign op at a b self.old) }
    {
        match (a, b) {
            (Some(a), Some(b)) => {
                let told = self.assigned(alloc, op, a, b);
                self.settle(at, told)
            }
            (Some(a), None) => {
                drop(a);
                Ok(None)
            }
            (None, b) => {
                drop(b);
                Ok(None)
            }
        }
    }

    fn assigned(
        &self,
        alloc: Global,
        op: AssignOp,
        a: Judged,
        b: Judged,
    ) -> Result<Judged, TypeError>
        ensures { Tells result (expressions.assigned op self.now a b) }
    {
        let structs = self.sight.structs.as_slice();
        let fixed = self.sight.fixed.as_slice();
        let op = match op {
            AssignOp::Set => return c_typing::assign(alloc, structs, fixed, a, b),
            AssignOp::Multiply => Binary::Multiply,
            AssignOp::Divide => Binary::Divide,
            AssignOp::Remainder => Binary::Remainder,
            AssignOp::Add => Binary::Add,
            AssignOp::Subtract => Binary::Subtract,
            AssignOp::ShiftLeft => Binary::ShiftLeft,
            AssignOp::ShiftRight => Binary::ShiftRight,
            AssignOp::BitAnd => Binary::And,
            AssignOp::BitXor => Binary::Xor,
            AssignOp::BitOr => Binary::Or,
        };
        c_typing::update(alloc, structs, fixed, op, a, b)
    }

    /// A comma, which stands before this token.
    pub fn comma(
        &mut self,
        alloc: Global,
        token: u32,
        is_used: bool,
        a: Option<Judged>,
        b: Option<Judged>,
    ) -> Result<Option<Judged>, AllocError>
        ensures { Gives result self.new (expressions.with_comma token is_used a b self.old) }
    {
        match (a, b) {
            (Some(a), Some(b)) => {
                let structs = self.sight.structs.as_slice();
                let told = c_typing::comma(alloc, structs, is_used, a, b);
                self.settle(token.saturating_sub(1), told)
            }
            (Some(a), None) => {
                drop(a);
                Ok(None)
            }
            (None, b) => {
                drop(b);
                Ok(None)
            }
        }
    }
}

/// The type of a function's parameter, by its number.
fn parameter(callee: &Option<Judged>, number: usize) -> Option<&c_types::CType>
    ensures { option_copied result ≡ expressions.parameter callee.now number }
{
    match callee {
        Some(Judged::Function { of, callee: _ }) => of.parameters.get(number),
        Some(Judged::Place { of: _, tree: _ }) | Some(Judged::Value(_)) | None => None,
    }
}
