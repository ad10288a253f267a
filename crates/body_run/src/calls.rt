//! Calls of methods: a body run on its arguments (JLS 15.12).

ghost use Rattle.std.specs.Prelude.{◌≡◌, ◌++◌, IfOk, map, drop};
ghost use Rattle.std.specs.Option.{option_copied};
ghost use Rattle.access_blocks.specs.Statements.{meanings};
ghost use Rattle.access_blocks.specs.Calls as spec;
ghost use Rattle.body_run.specs.Called.{Calls};
ghost use Rattle.body_run.specs.Seen.{machine_of, completion_of, Evaluates};

use crate::completion::Completion;
use crate::expressions::Interpreter;
use crate::field_state::FieldState;
use crate::machine::Machine;
use crate::stop::Stop;
use access_blocks::{Body, Halt};
use java_tree::ValueType;
use sdg_base::{Val, Vals, copy_values};
use sqlite_items::{Items, at};
use std::alloc::{AllocError, Global};

/// What a local without initialiser starts as.
fn start_value(alloc: Global, value_type: ValueType) -> Val
    ensures { result ≡ spec.start_value value_type }
{
    match value_type {
        ValueType::Int => Val::Int(0),
        ValueType::Long => Val::Long(0),
        ValueType::Boolean => Val::Bool(false),
        ValueType::Vector => Val::Vector(Items::new(alloc)),
    }
}

/// The types of locals, which are those behind the parameters'.
fn behind(types: &[ValueType], arity: usize) -> &[ValueType]
    ensures { result.now ≡ drop arity types.now }
{
    if arity <= types.len() {
        &types[arity..]
    } else {
        &[]
    }
}

/// The arguments, and each local at its start.
fn with_locals(alloc: Global, args: Vec<Val>, locals: &[ValueType]) -> Result<Vec<Val>, AllocError>
    ensures { IfOk result (λ variables. variables.items ≡ args.items ++ map spec.start_value locals.now) }
{
    let mut variables = args;
    for local in locals {
        variables.push(start_value(alloc, *local))?;
    }
    Ok(variables)
}

impl Machine {
    /// The machine at the start of a body: its variables are the arguments, and each local at its start.
    ///
    /// # Errors
    /// For want of memory.
    pub fn start(
        alloc: Global,
        body: &Body,
        args: Vec<Val>,
        gathered: Vals,
        turns: u32,
        fields: Vec<FieldState>,
    ) -> Result<Machine, AllocError>
        ensures { IfOk result (λ m. machine_of m ≡ spec.machine_at_start body.now args.items gathered turns fields.items) }
    {
        let locals = behind(body.variables.as_slice(), body.arity);
        let variables = with_locals(alloc, args, locals)?;
        Ok(Machine {
            variables,
            key: Val::Unit,
            gathered,
            turns,
            fields,
            instance: 0,
        })
    }
}

/// What a body gives that has completed; a void body may complete normally.
fn given_by(completion: Completion, turns: u32) -> Result<(Val, u32), Stop>
    ensures { Evaluates (λ v. v) result (spec.given_by (completion_of completion) turns) }
{
    match completion {
        Completion::Returns(value) => Ok((value, turns)),
        Completion::Halts(halt) => Err(Stop::Halt(halt)),
        Completion::Normal | Completion::Breaks | Completion::Continues => Ok((Val::Unit, turns)),
    }
}

impl<
    F: Fn(Global, &[Body], u32, usize, Vec<Val>, &[Val], u32) -> Result<(Val, u32), Stop>,
> Interpreter<'_, F> {
    /// What a body gives that works on no field; `Unit` where there is none.
    #[inline(never)]
    fn ran(
        &self,
        body: Option<&Body>,
        args: Vec<Val>,
        gathered: &[Val],
        turns: u32,
    ) -> Result<(Val, u32), Stop>
        requires { Calls self.now.methods self.now.depth (F.pre self.now.call) (F.post self.now.call) }
        ensures { Evaluates (λ v. v) result (spec.ran (spec.calls_within self.now.depth self.now.methods.now) (option_copied body.entry) args.items gathered.now turns) }
    {
        match body {
            None => Ok((Val::Unit, turns)),
            Some(body) => {
                let gathered = copy_values(self.alloc, gathered)?;
                let fields = Vec::new(self.alloc);
                let machine = Machine::start(self.alloc, body, args, gathered, turns, fields)?;
                self.result(body, machine)
            }
        }
    }

    /// What a body gives in a machine.
    #[inline(never)]
    fn result(&self, body: &Body, machine: Machine) -> Result<(Val, u32), Stop>
        requires { Calls self.now.methods self.now.depth (F.pre self.now.call) (F.post self.now.call) }
        ensures { Evaluates (λ v. v) result (spec.result_of (meanings (spec.calls_within self.now.depth self.now.methods.now) body.now.statements (machine_of machine))) }
    {
        let mut machine = machine;
        let completion = self.in_order(body.statements.as_slice(), &mut machine)?;
        given_by(completion, machine.turns)
    }
}

/// Calls a method by its number, on arguments and on gathered values, with so many turns left, of which the call spends one.
/// Calls stand at most so deep in each other.
pub(crate) fn call_within(
    alloc: Global,
    methods: &[Body],
    depth: u32,
    method: usize,
    args: Vec<Val>,
    gathered: &[Val],
    turns: u32,
) -> Result<(Val, u32), Stop>
    ensures { Evaluates (λ v. v) result (spec.calls_within depth methods.now method args.items gathered.now turns) }
{
    if depth == 0 || turns == 0 {
        return Err(Stop::Halt(Halt::OutOfTurns));
    }
    Interpreter {
        alloc,
        methods,
        depth: depth - 1,
        call: call_within,
    }
    .ran(at(methods, method), args, gathered, turns - 1)
}
