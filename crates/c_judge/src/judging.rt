//! Expressions, by recursion over their trees.

ghost use Rattle.std.specs.Prelude.{◌≡◌, map, Some};
ghost use Rattle.c_typing.specs.Calling.{no_arguments};
ghost use Rattle.c_judge.specs.State.{Gives};
ghost use Rattle.c_judge.specs.Expressions.{with_operators, with_operator, pass_all, with_links, cast_to, choose_both, choose_last, assign_value, with_commas};
ghost use Rattle.c_judge.specs.Judging as judging;
ghost use Rattle.c_judge.specs.Judging.{expression};
ghost use Rattle.c_judge.specs.Parts.{link_of, operator_of};

use crate::{Built, Checker, Mode};
use c_ast::{AssignOp, Expr, Link, PostfixOp};
use c_const::{first_token, number_kind};
use c_types::Direction;
use c_typing::{Arguments, Judged, number};
use rank_range::Kind;
use sqlite_items::Boxed;
use std::alloc::{AllocError, Global};

impl Checker {
    /// What an expression is.
    #[cycle(judge)]
    pub fn expr(
        &mut self,
        alloc: Global,
        e: &Expr,
        mode: Mode,
    ) -> Result<Option<Judged>, AllocError>
        ensures { Gives result self.new ((expression e.now).judge mode self.old) }
    {
        match e {
            Expr::Name(name) => self.name(alloc, name.token, name.text.as_slice(), mode),
            Expr::Number {
                token: _,
                value,
                number_type,
            } => Ok(Some(Judged::Value(number(alloc, number_kind(*number_type), *value)))),
            Expr::Character { token: _, value } => {
                Ok(Some(Judged::Value(number(alloc, Kind::Int, *value))))
            }
            Expr::Text { token, bytes } => self.text(alloc, *token, bytes.as_slice()),
            Expr::Paren { token: _, inner } => self.expr(alloc, inner.get(), mode),
            Expr::Postfix {
                token: _,
                first,
                operators,
            } => {
                let first = self.expr(alloc, first.get(), mode.operand())?;
                self.operators(alloc, first, operators.as_slice(), mode)
            }
            Expr::Prefix { token, op, operand } => {
                let operand = self.expr(alloc, operand.get(), mode.operand())?;
                self.prefix(alloc, *op, *token, operand)
            }
            Expr::SizeofExpr { token, operand } => {
                let operand = self.expr(alloc, operand.get(), Mode::unevaluated())?;
                self.size(alloc, *token, operand)
            }
            Expr::SizeofType { token, type_name } => {
                let of = self.type_name(alloc, type_name.get())?;
                self.size_of_built(alloc, *token, of)
            }
            Expr::Cast {
                token,
                type_name,
                operand,
            } => {
                let to = self.type_name(alloc, type_name.get())?;
                self.cast_operand(alloc, *token, to, operand.get(), mode)
            }
            Expr::Binary {
                token: _,
                first,
                links,
            } => {
                let first = self.expr(alloc, first.get(), mode.operand())?;
                self.links(alloc, first, links.as_slice(), mode)
            }
            Expr::Conditional {
                token: _,
                test,
                at,
                then,
                otherwise,
            } => {
                let test = self.expr(alloc, test.get(), mode.operand())?;
                self.branches(alloc, *at, test, then.get(), otherwise.get(), mode)
            }
            Expr::Assign {
                token: _,
                place,
                at,
                op,
                value,
            } => {
                let place = self.expr(alloc, place.get(), mode.operand())?;
                self.assign_value(alloc, *op, *at, place, value.get(), mode)
            }
            Expr::Comma {
                token: _,
                first,
                others,
            } => {
                let first = self.expr(alloc, first.get(), mode.unused())?;
                self.commas(alloc, first, others.as_slice(), mode)
            }
        }
    }

    /// The operators behind an operand.
    #[cycle(judge)]
    fn operators(
        &mut self,
        alloc: Global,
        first: Option<Judged>,
        operators: &[PostfixOp<Boxed<Expr>>],
        mode: Mode,
    ) -> Result<Option<Judged>, AllocError>
        ensures { Gives result self.new (with_operators (map operator_of operators.now) mode first self.old) }
    {
        let mut value = first;
        for operator in operators {
            value = self.operator(alloc, value, operator, mode)?;
        }
        Ok(value)
    }

    #[cycle(judge)]
    fn operator(
        &mut self,
        alloc: Global,
        value: Option<Judged>,
        operator: &PostfixOp<Boxed<Expr>>,
        mode: Mode,
    ) -> Result<Option<Judged>, AllocError>
        ensures { Gives result self.new (with_operator (operator_of operator.now) mode value self.old) }
    {
        match operator {
            PostfixOp::Index { at, index } => {
                match self.expr(alloc, index.get(), mode.operand()) {
                    Ok(index) => self.index(alloc, *at, value, index),
                    Err(error) => {
                        drop(value);
                        Err(error)
                    }
                }
            }
            PostfixOp::Call { at, arguments } => {
                match self.arguments(alloc, &value, arguments.as_slice(), mode) {
                    Ok(arguments) => self.call(alloc, *at, value, arguments),
                    Err(error) => {
                        drop(value);
                        Err(error)
                    }
                }
            }
            PostfixOp::Member { at: _, name } => self.member(alloc, name, value),
            PostfixOp::Arrow { at: _, name } => self.arrow(alloc, name, value),
            PostfixOp::Increment { at } => self.count(Direction::Up, *at, value),
            PostfixOp::Decrement { at } => self.count(Direction::Down, *at, value),
        }
    }

    /// The arguments of a call, one for each parameter.
    #[cycle(judge)]
    fn arguments(
        &mut self,
        alloc: Global,
        callee: &Option<Judged>,
        arguments: &[Boxed<Expr>],
        mode: Mode,
    ) -> Result<Option<Arguments>, AllocError>
        ensures { Gives result self.new (pass_all (map expression arguments.now) mode callee.now 0 (Some no_arguments) self.old) }
    {
        let mut passed = Some(Arguments::new(alloc));
        let mut number = 0;
        for argument in arguments {
            let judged = match self.expr(alloc, argument.get(), mode.operand()) {
                Ok(judged) => judged,
                Err(error) => {
                    drop(passed);
                    return Err(error);
                }
            };
            passed = self.pass(alloc, callee, number, passed, judged)?;
            number += 1;
        }
        Ok(passed)
    }

    /// Operators of one level between their operands.
    #[cycle(judge)]
    fn links(
        &mut self,
        alloc: Global,
        first: Option<Judged>,
        links: &[Link<Boxed<Expr>>],
        mode: Mode,
    ) -> Result<Option<Judged>, AllocError>
        ensures { Gives result self.new (with_links (map link_of links.now) mode first self.old) }
    {
        let mut value = first;
        for link in links {
            let right = match self.expr(alloc, link.right.get(), mode.operand()) {
                Ok(right) => right,
                Err(error) => {
                    drop(value);
                    return Err(error);
                }
            };
            value = self.link(alloc, link.op, link.at, value, right)?;
        }
        Ok(value)
    }

    /// What is cast to a type.
    #[cycle(judge)]
    fn cast_operand(
        &mut self,
        alloc: Global,
        token: u32,
        to: Option<Built>,
        operand: &Expr,
        mode: Mode,
    ) -> Result<Option<Judged>, AllocError>
        ensures { Gives result self.new (cast_to token (expression operand.now) mode to self.old) }
    {
        let mode = self.cast_mode(&to, mode);
        match self.expr(alloc, operand, mode) {
            Ok(operand) => self.cast(alloc, token, to, operand),
            Err(error) => {
                drop(to);
                Err(error)
            }
        }
    }

    /// The branches of `?:`.
    #[cycle(judge)]
    fn branches(
        &mut self,
        alloc: Global,
        at: u32,
        test: Option<Judged>,
        then: &Expr,
        otherwise: &Expr,
        mode: Mode,
    ) -> Result<Option<Judged>, AllocError>
        ensures { Gives result self.new (choose_both at (expression then.now) (expression otherwise.now) mode test self.old) }
    {
        let then = match self.expr(alloc, then, mode.operand()) {
            Ok(then) => then,
            Err(error) => {
                drop(test);
                return Err(error);
            }
        };
        match self.expr(alloc, otherwise, mode.operand()) {
            Ok(otherwise) => self.choose(alloc, at, test, then, otherwise),
            Err(error) => {
                drop(test);
                drop(then);
                Err(error)
            }
        }
    }

    /// What is assigned to a place.
    #[cycle(judge)]
    fn assign_value(
        &mut self,
        alloc: Global,
        op: AssignOp,
        at: u32,
        place: Option<Judged>,
        value: &Expr,
        mode: Mode,
    ) -> Result<Option<Judged>, AllocError>
        ensures { Gives result self.new (assign_value op at (expression value.now) mode place self.old) }
    {
        match self.expr(alloc, value, mode.operand()) {
            Ok(value) => self.assign(alloc, op, at, place, value),
            Err(error) => {
                drop(place);
                Err(error)
            }
        }
    }

    /// Commas, of which only the last value may be used.
    #[cycle(judge)]
    fn commas(
        &mut self,
        alloc: Global,
        first: Option<Judged>,
        others: &[Expr],
        mode: Mode,
    ) -> Result<Option<Judged>, AllocError>
        ensures { Gives result self.new (with_commas (map expression others.now) mode first self.old) }
    {
        let mut value = first;
        let mut left = others.len();
        for other in others {
            left -= 1;
            let its_mode = if left == 0 { mode } else { mode.unused() };
            let right = match self.expr(alloc, other, its_mode) {
                Ok(right) => right,
                Err(error) => {
                    drop(value);
                    return Err(error);
                }
            };
            value = self.comma(alloc, first_token(other), its_mode.is_used, value, right)?;
        }
        Ok(value)
    }
}
