//! What expressions give (JLS 15), by way of a function that calls methods.

ghost use Rattle.std.specs.Prelude.{[], ◌∷◌};
ghost use Rattle.access_blocks.specs.Expressions.{followed, value_of, values_of};
ghost use Rattle.access_blocks.specs.Statements.{seen_by};
ghost use Rattle.access_blocks.specs.Calls.{calls_within};
ghost use Rattle.body_run.specs.Applications.{applied, binary_value, conditional_value, gathered_element_value};
ghost use Rattle.body_run.specs.Called.{Calls};
ghost use Rattle.body_run.specs.Seen.{Evaluates, machine_of};

use crate::application::{Application, apply};
use crate::machine::Machine;
use crate::operators::{binary, is_true};
use crate::stop::Stop;
use crate::vectors::{copied, counted, element_of, gathered_at, longs_in, longs_of, variable_of};
use access_blocks::{Body, Expression};
use sdg_base::{BinOp, Val};
use std::alloc::Global;

/// What runs bodies, where calls may stand so deep in each other: the methods, and the function that calls one of them by its
/// number, on arguments and on gathered values, with so many turns.
#[derive(Clone, Copy)]
pub(crate) struct Interpreter<'m, F> {
    pub alloc: Global,
    pub methods: &'m [Body],
    pub depth: u32,
    pub call: F,
}

impl<
    F: Fn(Global, &[Body], u32, usize, Vec<Val>, &[Val], u32) -> Result<(Val, u32), Stop>,
> Interpreter<'_, F> {
    /// The value of an expression in a machine, with the turns that are left of so many.
    #[cycle(expressions)]
    pub(crate) fn value(
        &self,
        expression: &Expression,
        machine: &Machine,
        turns: u32,
    ) -> Result<(Val, u32), Stop>
        requires { Calls self.now.methods self.now.depth (F.pre self.now.call) (F.post self.now.call) }
        ensures { Evaluates (λ v. v) result (value_of (calls_within self.now.depth self.now.methods.now) expression.now (seen_by (machine_of machine.now)) turns) }
    {
        match expression {
            Expression::Nothing => Ok((Val::Unit, turns)),
            Expression::Int(n) => Ok((Val::Int(*n), turns)),
            Expression::Long(n) => Ok((Val::Long(*n), turns)),
            Expression::Bool(b) => Ok((Val::Bool(*b), turns)),
            Expression::Variable(variable) => variable_of(self.alloc, machine, *variable, turns),
            Expression::CarriedKey => copied(self.alloc, &machine.key, turns),
            Expression::Unary(op, operand) => {
                self.applied(Application::Unary(*op), operand.get(), machine, turns)
            }
            Expression::Binary(op, first, second) => {
                self.binary(*op, first.get(), second.get(), machine, turns)
            }
            Expression::Cast(to, operand) => {
                self.applied(Application::Cast(*to), operand.get(), machine, turns)
            }
            Expression::Conditional(test, first, second) => {
                self.conditional(test.get(), first.get(), second.get(), machine, turns)
            }
            Expression::NewVector(length) => {
                self.applied(Application::NewVector, length.get(), machine, turns)
            }
            Expression::VectorSize(variable) => {
                counted(longs_of(machine, *variable).len(), turns)
            }
            Expression::VectorElement(variable, index) => {
                self.applied(
                    Application::VectorElement(*variable),
                    index.get(),
                    machine,
                    turns,
                )
            }
            Expression::GatheredLength => counted(machine.gathered.len(), turns),
            Expression::Gathered(at) => {
                self.applied(Application::Gathered, at.get(), machine, turns)
            }
            Expression::GatheredSize(at) => {
                self.applied(Application::GatheredSize, at.get(), machine, turns)
            }
            Expression::GatheredElement(at, index) => {
                self.gathered_element(at.get(), index.get(), machine, turns)
            }
            Expression::Call(method, args) => {
                self.called(*method, args.as_slice(), machine, turns)
            }
            Expression::Merge(method) => self.merged(*method, machine, turns),
        }
    }

    /// What is made of the value of an operand.
    #[inline(never)]
    #[cycle(expressions)]
    fn applied(
        &self,
        application: Application,
        operand: &Expression,
        machine: &Machine,
        turns: u32,
    ) -> Result<(Val, u32), Stop>
        requires { Calls self.now.methods self.now.depth (F.pre self.now.call) (F.post self.now.call) }
        ensures { Evaluates (λ v. v) result (followed (value_of (calls_within self.now.depth self.now.methods.now) operand.now (seen_by (machine_of machine.now)) turns) (λ v left. applied application v (seen_by (machine_of machine.now)) left)) }
    {
        let (operand, left) = self.value(operand, machine, turns)?;
        apply(self.alloc, application, operand, machine, left)
    }

    /// The value of a binary operator. The second operand of `&&` and of `||` is evaluated only where the first does not
    /// settle the value (JLS 15.23, 15.24).
    #[inline(never)]
    #[cycle(expressions)]
    fn binary(
        &self,
        op: BinOp,
        first: &Expression,
        second: &Expression,
        machine: &Machine,
        turns: u32,
    ) -> Result<(Val, u32), Stop>
        requires { Calls self.now.methods self.now.depth (F.pre self.now.call) (F.post self.now.call) }
        ensures { Evaluates (λ v. v) result (binary_value (calls_within self.now.depth self.now.methods.now) op first.now second.now (seen_by (machine_of machine.now)) turns) }
    {
        let (first, left) = self.value(first, machine, turns)?;
        match op {
            BinOp::AndAlso => {
                if is_true(first) {
                    self.value(second, machine, left)
                } else {
                    Ok((Val::Bool(false), left))
                }
            }
            BinOp::OrElse => {
                if is_true(first) {
                    Ok((Val::Bool(true), left))
                } else {
                    self.value(second, machine, left)
                }
            }
            _ => {
                let (second, left) = self.value(second, machine, left)?;
                binary(op, &first, &second, left)
            }
        }
    }

    /// The value of a conditional, of which one branch alone is evaluated (JLS 15.25).
    #[inline(never)]
    #[cycle(expressions)]
    fn conditional(
        &self,
        test: &Expression,
        first: &Expression,
        second: &Expression,
        machine: &Machine,
        turns: u32,
    ) -> Result<(Val, u32), Stop>
        requires { Calls self.now.methods self.now.depth (F.pre self.now.call) (F.post self.now.call) }
        ensures { Evaluates (λ v. v) result (conditional_value (calls_within self.now.depth self.now.methods.now) test.now first.now second.now (seen_by (machine_of machine.now)) turns) }
    {
        let (test, left) = self.value(test, machine, turns)?;
        if is_true(test) {
            self.value(first, machine, left)
        } else {
            self.value(second, machine, left)
        }
    }

    /// An element of a gathered vector. The index of the vector is tested before the index of the element is evaluated
    /// (JLS 15.10.4).
    #[inline(never)]
    #[cycle(expressions)]
    fn gathered_element(
        &self,
        at: &Expression,
        index: &Expression,
        machine: &Machine,
        turns: u32,
    ) -> Result<(Val, u32), Stop>
        requires { Calls self.now.methods self.now.depth (F.pre self.now.call) (F.post self.now.call) }
        ensures { Evaluates (λ v. v) result (gathered_element_value (calls_within self.now.depth self.now.methods.now) at.now index.now (seen_by (machine_of machine.now)) turns) }
    {
        let (at, left) = self.value(at, machine, turns)?;
        let (vector, left) = gathered_at(machine, &at, left)?;
        let (index, left) = self.value(index, machine, left)?;
        element_of(longs_in(vector), &index, left)
    }

    /// What a call of a method gives.
    #[inline(never)]
    #[cycle(expressions)]
    fn called(
        &self,
        method: usize,
        arguments: &[Expression],
        machine: &Machine,
        turns: u32,
    ) -> Result<(Val, u32), Stop>
        requires { Calls self.now.methods self.now.depth (F.pre self.now.call) (F.post self.now.call) }
        ensures { Evaluates (λ v. v) result (followed (values_of (calls_within self.now.depth self.now.methods.now) arguments.now (seen_by (machine_of machine.now)) turns)
            (λ vs left. calls_within self.now.depth self.now.methods.now method vs [] left)) }
    {
        let (args, left) = self.values(arguments, machine, turns)?;
        (self.call)(
            self.alloc,
            self.methods,
            self.depth,
            method,
            args,
            &[],
            left,
        )
    }

    /// What a call of a merge method on the gathered values gives. Its parameter has no value of its own.
    #[inline(never)]
    fn merged(&self, method: usize, machine: &Machine, turns: u32) -> Result<(Val, u32), Stop>
        requires { Calls self.now.methods self.now.depth (F.pre self.now.call) (F.post self.now.call) }
        ensures { Evaluates (λ v. v) result (calls_within self.now.depth self.now.methods.now method (Val.Unit ∷ []) machine.now.gathered turns) }
    {
        let mut args = Vec::new(self.alloc);
        args.push(Val::Unit)?;
        let gathered = machine.gathered.as_slice();
        (self.call)(
            self.alloc,
            self.methods,
            self.depth,
            method,
            args,
            gathered,
            turns,
        )
    }

    /// The values of arguments from left to right (JLS 15.12.4.2).
    #[inline(never)]
    #[cycle(expressions)]
    pub(crate) fn values(
        &self,
        arguments: &[Expression],
        machine: &Machine,
        turns: u32,
    ) -> Result<(Vec<Val>, u32), Stop>
        requires { Calls self.now.methods self.now.depth (F.pre self.now.call) (F.post self.now.call) }
        ensures { Evaluates (λ vs. vs.items) result (values_of (calls_within self.now.depth self.now.methods.now) arguments.now (seen_by (machine_of machine.now)) turns) }
    {
        let mut values = Vec::new(self.alloc);
        let mut left = turns;
        for argument in arguments {
            let (value, rest) = self.value(argument, machine, left)?;
            values.push(value)?;
            left = rest;
        }
        Ok((values, left))
    }
}
