//! What statements without statements in them do, and marks, by way of a function that calls methods.

ghost use Rattle.std.specs.Prelude.{slice_get};
ghost use Rattle.access_blocks.specs.declared.body.Statement.TheOpen as s;
ghost use Rattle.access_blocks.specs.Statements as spec;
ghost use Rattle.access_blocks.specs.Calls.{calls_within};
ghost use Rattle.body_run.specs.Called.{Calls};
ghost use Rattle.body_run.specs.Seen.{machine_of, Completes, Passes};

use crate::completion::Completion;
use crate::expressions::Interpreter;
use crate::machine::Machine;
use crate::stop::Stop;
use access_blocks::{Access, Body, Expression, Gather};
use sdg_base::Val;
use sqlite_items::{Boxed, Items};
use std::alloc::Global;

impl<
    F: Fn(Global, &[Body], u32, usize, Vec<Val>, &[Val], u32) -> Result<(Val, u32), Stop>,
> Interpreter<'_, F> {
    /// Assigns the value of an expression to a variable.
    #[inline(never)]
    pub(crate) fn assign(
        &self,
        variable: usize,
        value: &Expression,
        machine: &mut Machine,
    ) -> Result<Completion, Stop>
        requires { Calls self.now.methods self.now.depth (F.pre self.now.call) (F.post self.now.call) }
        ensures { Completes result (machine_of machine.new) (spec.statement_step (calls_within self.now.depth self.now.methods.now) (s.Assign variable value.now) (machine_of machine.old)) }
    {
        let (value, left) = self.value(value, machine, machine.turns)?;
        machine.turns = left;
        machine.set_variable(variable, value);
        Ok(Completion::Normal)
    }

    /// Sets an element of the vector in a variable, once its index and then its value are evaluated.
    #[inline(never)]
    pub(crate) fn set_element(
        &self,
        variable: usize,
        index: &Expression,
        element: &Expression,
        machine: &mut Machine,
    ) -> Result<Completion, Stop>
        requires { Calls self.now.methods self.now.depth (F.pre self.now.call) (F.post self.now.call) }
        ensures { Completes result (machine_of machine.new) (spec.statement_step (calls_within self.now.depth self.now.methods.now) (s.SetElement variable index.now element.now) (machine_of machine.old)) }
    {
        let (index, left) = self.value(index, machine, machine.turns)?;
        machine.turns = left;
        let (element, left) = self.value(element, machine, machine.turns)?;
        machine.turns = left;
        machine.set_element(variable, &index, &element)
    }

    /// Evaluates an expression, whose value is dropped.
    #[inline(never)]
    pub(crate) fn evaluate(
        &self,
        value: &Expression,
        machine: &mut Machine,
    ) -> Result<Completion, Stop>
        requires { Calls self.now.methods self.now.depth (F.pre self.now.call) (F.post self.now.call) }
        ensures { Completes result (machine_of machine.new) (spec.statement_step (calls_within self.now.depth self.now.methods.now) (s.Evaluate value.now) (machine_of machine.old)) }
    {
        let (_, left) = self.value(value, machine, machine.turns)?;
        machine.turns = left;
        Ok(Completion::Normal)
    }

    /// Calls a method of a field on the machine's part of it, once its arguments are evaluated.
    #[inline(never)]
    pub(crate) fn access(&self, access: &Access, machine: &mut Machine) -> Result<Completion, Stop>
        requires { Calls self.now.methods self.now.depth (F.pre self.now.call) (F.post self.now.call) }
        ensures { Completes result (machine_of machine.new) (spec.access (calls_within self.now.depth self.now.methods.now) access.now (machine_of machine.old)) }
    {
        let (args, left) = self.values(access.args.as_slice(), machine, machine.turns)?;
        machine.turns = left;
        let args = Items::from_vec(args);
        machine.call_on(
            self.alloc,
            access.field,
            access.target,
            access.method,
            &args,
        )
    }

    /// Passes a mark: its key is evaluated, where it has one, and then a turn is spent.
    #[inline(never)]
    pub(crate) fn mark(&self, key: &Option<Expression>, machine: &mut Machine) -> Result<(), Stop>
        requires { Calls self.now.methods self.now.depth (F.pre self.now.call) (F.post self.now.call) }
        ensures { Passes result (machine_of machine.new) (spec.marked (calls_within self.now.depth self.now.methods.now) key.now (machine_of machine.old)) }
    {
        match key {
            None => machine.spend(),
            Some(key) => {
                let (key, left) = self.value(key, machine, machine.turns)?;
                machine.turns = left;
                machine.spend()?;
                machine.key = key;
                Ok(())
            }
        }
    }

    /// Gathers the answers of no instances, once the arguments are evaluated and a turn is spent. The instances of a field
    /// that has some are visited by whoever runs the body, in steps of their own.
    #[inline(never)]
    pub(crate) fn gather(&self, gather: &Gather, machine: &mut Machine) -> Result<Completion, Stop>
        requires { Calls self.now.methods self.now.depth (F.pre self.now.call) (F.post self.now.call) }
        ensures { Completes result (machine_of machine.new) (spec.gathering (calls_within self.now.depth self.now.methods.now) gather.now.args (machine_of machine.old)) }
    {
        let (_, left) = self.values(gather.args.as_slice(), machine, machine.turns)?;
        machine.turns = left;
        machine.spend()?;
        machine.key = Val::Unit;
        machine.gathered = Items::new(self.alloc);
        Ok(Completion::Normal)
    }

    /// Returns, with the value of an expression where there is one.
    #[inline(never)]
    pub(crate) fn returned(
        &self,
        value: &Option<Boxed<Expression>>,
        machine: &mut Machine,
    ) -> Result<Completion, Stop>
        requires { Calls self.now.methods self.now.depth (F.pre self.now.call) (F.post self.now.call) }
        ensures { Completes result (machine_of machine.new) (spec.returned (calls_within self.now.depth self.now.methods.now) value.now (machine_of machine.old)) }
    {
        match value {
            None => Ok(Completion::Returns(Val::Unit)),
            Some(value) => {
                let (value, left) = self.value(value.get(), machine, machine.turns)?;
                machine.turns = left;
                Ok(Completion::Returns(value))
            }
        }
    }
}
