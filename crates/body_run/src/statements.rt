//! What statements do (JLS 14), by way of a function that calls methods.

ghost use Rattle.access_blocks.specs.Statements as spec;
ghost use Rattle.access_blocks.specs.Calls.{calls_within};
ghost use Rattle.body_run.specs.Called.{Calls};
ghost use Rattle.body_run.specs.Passes as passes;
ghost use Rattle.body_run.specs.Seen.{machine_of, Completes, Goes};

use crate::completion::Completion;
use crate::expressions::Interpreter;
use crate::machine::Machine;
use crate::operators::is_true;
use crate::stop::Stop;
use access_blocks::{Body, Expression, Halt, Statement};
use sdg_base::Val;
use sqlite_items::Boxed;
use std::alloc::Global;

impl<
    F: Fn(Global, &[Body], u32, usize, Vec<Val>, &[Val], u32) -> Result<(Val, u32), Stop>,
> Interpreter<'_, F> {
    /// Runs a statement.
    #[cycle(statements)]
    pub(crate) fn statement(
        &self,
        statement: &Statement,
        machine: &mut Machine,
    ) -> Result<Completion, Stop>
        requires { Calls self.now.methods self.now.depth (F.pre self.now.call) (F.post self.now.call) }
        ensures { Completes result (machine_of machine.new) (spec.meaning (calls_within self.now.depth self.now.methods.now) statement.now (machine_of machine.old)) }
    {
        match statement {
            Statement::Assign(variable, value) => self.assign(*variable, value.get(), machine),
            Statement::SetElement(variable, index, element) => {
                self.set_element(*variable, index.get(), element.get(), machine)
            }
            Statement::Evaluate(value) => self.evaluate(value.get(), machine),
            Statement::Access(access) => self.access(access.get(), machine),
            Statement::Gather(gather) => self.gather(gather.get(), machine),
            Statement::Marked(mark, body) => {
                self.mark(&mark.get().key, machine)?;
                self.statement(body.get(), machine)
            }
            Statement::Opened(statement) => self.statement(statement.get(), machine),
            Statement::Block(items) => self.in_order(items.as_slice(), machine),
            Statement::If(test, first, second) => {
                let (test, left) = self.value(test.get(), machine, machine.turns)?;
                machine.turns = left;
                if is_true(test) {
                    self.statement(first.get(), machine)
                } else {
                    match second {
                        None => Ok(Completion::Normal),
                        Some(second) => self.statement(second.get(), machine),
                    }
                }
            }
            Statement::Loop(start, test, update, body) => {
                self.whole_loop(
                    start.as_slice(),
                    test,
                    update.as_slice(),
                    body.get(),
                    machine,
                )
            }
            Statement::Break => Ok(Completion::Breaks),
            Statement::Continue => Ok(Completion::Continues),
            Statement::Return(value) => self.returned(value, machine),
        }
    }

    /// Runs statements in order, as long as they complete normally.
    #[inline(never)]
    #[cycle(statements)]
    pub(crate) fn in_order(
        &self,
        statements: &[Statement],
        machine: &mut Machine,
    ) -> Result<Completion, Stop>
        requires { Calls self.now.methods self.now.depth (F.pre self.now.call) (F.post self.now.call) }
        ensures { Completes result (machine_of machine.new) (spec.meanings (calls_within self.now.depth self.now.methods.now) statements.now (machine_of machine.old)) }
    {
        for statement in statements {
            match self.statement(statement, machine)? {
                Completion::Normal => {}
                ended => return Ok(ended),
            }
        }
        Ok(Completion::Normal)
    }

    /// Runs a loop (JLS 14.12, 14.14.1).
    #[inline(never)]
    #[cycle(statements)]
    fn whole_loop(
        &self,
        start: &[Statement],
        test: &Option<Boxed<Expression>>,
        update: &[Statement],
        body: &Statement,
        machine: &mut Machine,
    ) -> Result<Completion, Stop>
        requires { Calls self.now.methods self.now.depth (F.pre self.now.call) (F.post self.now.call) }
        ensures { Completes result (machine_of machine.new) (spec.after (spec.meanings (calls_within self.now.depth self.now.methods.now) start.now (machine_of machine.old))
            (spec.looped (calls_within self.now.depth self.now.methods.now) test.now
            (spec.meanings (calls_within self.now.depth self.now.methods.now) update.now) (spec.meaning (calls_within self.now.depth self.now.methods.now) body.now))) }
    {
        match self.in_order(start, machine)? {
            Completion::Normal => self.looped(test, update, body, machine),
            ended => Ok(ended),
        }
    }

    /// Runs a loop behind its start . No loop has more passes than there are turns, and then one test
    /// more.
    #[inline(never)]
    #[cycle(statements)]
    fn looped(
        &self,
        test: &Option<Boxed<Expression>>,
        update: &[Statement],
        body: &Statement,
        machine: &mut Machine,
    ) -> Result<Completion, Stop>
        requires { Calls self.now.methods self.now.depth (F.pre self.now.call) (F.post self.now.call) }
        ensures { Completes result (machine_of machine.new) (spec.looped (calls_within self.now.depth self.now.methods.now) test.now
            (spec.meanings (calls_within self.now.depth self.now.methods.now) update.now) (spec.meaning (calls_within self.now.depth self.now.methods.now) body.now) (machine_of machine.old)) }
    {
        let most = u64::from(machine.turns) + 1;
        for _ in 0..most {
            match self.pass(test, update, body, machine)? {
                None => {}
                Some(completion) => return Ok(completion),
            }
        }
        Err(Stop::Halt(Halt::OutOfTurns))
    }

    /// One pass of a loop, or its end, with how it completes, where the condition does not hold.
    #[inline(never)]
    #[cycle(statements)]
    fn pass(
        &self,
        test: &Option<Boxed<Expression>>,
        update: &[Statement],
        body: &Statement,
        machine: &mut Machine,
    ) -> Result<Option<Completion>, Stop>
        requires { Calls self.now.methods self.now.depth (F.pre self.now.call) (F.post self.now.call) }
        ensures { Goes result (machine_of machine.new) (passes.pass (calls_within self.now.depth self.now.methods.now) test.now
            (spec.meanings (calls_within self.now.depth self.now.methods.now) update.now) (spec.meaning (calls_within self.now.depth self.now.methods.now) body.now) (machine_of machine.old)) }
    {
        match test {
            None => self.round(update, body, machine),
            Some(test) => {
                let (test, left) = self.value(test.get(), machine, machine.turns)?;
                machine.turns = left;
                if is_true(test) {
                    self.round(update, body, machine)
                } else {
                    Ok(Some(Completion::Normal))
                }
            }
        }
    }

    /// One pass of a loop whose condition holds, which spends a turn. `continue` goes on with the update, and `break` leaves
    /// the loop (JLS 14.14.1.3, 14.15, 14.16).
    #[inline(never)]
    #[cycle(statements)]
    fn round(
        &self,
        update: &[Statement],
        body: &Statement,
        machine: &mut Machine,
    ) -> Result<Option<Completion>, Stop>
        requires { Calls self.now.methods self.now.depth (F.pre self.now.call) (F.post self.now.call) }
        ensures { Goes result (machine_of machine.new) (passes.round
            (spec.meanings (calls_within self.now.depth self.now.methods.now) update.now) (spec.meaning (calls_within self.now.depth self.now.methods.now) body.now) (machine_of machine.old)) }
    {
        machine.spend()?;
        match self.statement(body, machine)? {
            Completion::Normal | Completion::Continues => self.updated(update, machine),
            Completion::Breaks => Ok(Some(Completion::Normal)),
            ended => Ok(Some(ended)),
        }
    }

    /// Updates what a loop goes over.
    #[inline(never)]
    #[cycle(statements)]
    fn updated(
        &self,
        update: &[Statement],
        machine: &mut Machine,
    ) -> Result<Option<Completion>, Stop>
        requires { Calls self.now.methods self.now.depth (F.pre self.now.call) (F.post self.now.call) }
        ensures { Goes result (machine_of machine.new) (passes.updated (spec.meanings (calls_within self.now.depth self.now.methods.now) update.now) (machine_of machine.old)) }
    {
        match self.in_order(update, machine)? {
            Completion::Normal => Ok(None),
            ended => Ok(Some(ended)),
        }
    }
}
