//! The calls one after the other.

ghost use Rattle.std.specs.Prelude.{◌≡◌, All, IfOk, length};
ghost use Rattle.std.specs.List.{zip};
ghost use Rattle.early_forms.specs.Names.{BodyIsKnown, EndingIsKnown, IsProper, StatementIsKnown};
ghost use Rattle.early_forms.specs.Trees.{body_tree, class_tree, ending_tree};
ghost use Rattle.early_plain.specs.Bodies.{StatementRuns, begin_at};
ghost use Rattle.early_plain.specs.Fits.{CallFits, IsLong};
ghost use Rattle.early_plain.specs.Machines.{at};
ghost use Rattle.early_plain.specs.Plain.{ArePlain, Completes, Runs};
ghost use Rattle.early_plain.specs.Scopes.{names_in};

use crate::machine::Machine;
use crate::sums::long_of;
use crate::tables::Tables;
use early_forms::{Ending, Statement, StraightClass, StraightMethod};
use sdg_base::{Call, Calls, Outcome, Outcomes, Val};
use sqlite_items::Items;
use std::alloc::{AllocError, Global};

/// Runs a statement, and answers whether the call goes on: it doesn't where no turn is left.
fn run_statement<'a>(
    machine: &mut Machine<'a>,
    tables: &mut Tables,
    statement: &'a Statement,
) -> Result<bool, AllocError>
    requires { StatementIsKnown (names_in tables.old) (names_in machine.old.scope) statement.now }
    ensures { IfOk result (λ goes_on. StatementRuns statement.now (at machine.old tables.old) (at machine.new tables.new) goes_on) }
{
    match statement {
        Statement::Get { local, field, key } => {
            let key_value = long_of(key, &machine.scope);
            if !machine.passes(field, key) {
                return Ok(false);
            }
            let read = tables.get(field, key_value);
            machine.declare(local, read)?;
        }
        Statement::Set { local, value } => {
            let set = long_of(value, &machine.scope);
            machine.declare(local, set)?;
        }
        Statement::Put { field, key, value } => {
            let key_value = long_of(key, &machine.scope);
            if !machine.passes(field, key) {
                return Ok(false);
            }
            let put_value = long_of(value, &machine.scope);
            tables.put(field, key_value, put_value)?;
        }
    }
    Ok(true)
}

/// Runs the end of a body.
fn run_ending<'a>(machine: &mut Machine<'a>, tables: &Tables, ending: &'a Ending) -> Outcome
    requires { EndingIsKnown (names_in tables.now) (names_in machine.old.scope) ending.now }
    ensures { Completes (names_in tables.now) (ending_tree ending.now) (at machine.old tables.now) result tables.now }
{
    match ending {
        Ending::Nothing => Outcome::Value(Val::Unit),
        Ending::Get { field, key } => {
            let key_value = long_of(key, &machine.scope);
            if machine.passes(field, key) {
                let read = tables.get(field, key_value);
                Outcome::Value(Val::Long(read))
            } else {
                Outcome::Limit
            }
        }
        Ending::Sum { value } => Outcome::Value(Val::Long(long_of(value, &machine.scope))),
    }
}

/// Runs a method's body on the fields.
fn run_method(
    alloc: Global,
    method: &StraightMethod,
    arguments: &[Val],
    tables: &mut Tables,
) -> Result<Outcome, AllocError>
    requires known { BodyIsKnown (names_in tables.old) method.now.parameters method.now.statements method.now.ending }
    requires as_many { length arguments.now ≡ length method.now.parameters }
    requires longs { All IsLong arguments.now }
    ensures runs { IfOk result (λ end. Completes (names_in tables.old) (body_tree method.now.statements method.now.ending) (begin_at (zip method.now.parameters arguments.now) tables.old) end tables.new) }
    ensures fields { IfOk result (λ end. names_in tables.new ≡ names_in tables.old) }
{
    let mut machine = Machine::new(alloc, method.parameters.as_slice(), arguments);
    for statement in method.statements.as_slice() {
        if !run_statement(&mut machine, tables, statement)? {
            return Ok(Outcome::Limit);
        }
    }
    Ok(run_ending(&mut machine, tables, &method.ending))
}

fn run_call(
    alloc: Global,
    class: &StraightClass,
    call: &Call,
    tables: &mut Tables,
) -> Result<Outcome, AllocError>
    requires proper { IsProper class.now }
    requires fits { CallFits class.now call.now }
    requires fields { names_in tables.old ≡ class.now.fields }
    ensures runs { IfOk result (λ end. Runs (class_tree class.now) call.now tables.old end tables.new) }
    ensures fields { IfOk result (λ end. names_in tables.new ≡ class.now.fields) }
{
    let method = &class.methods.as_slice()[usize::from(call.method)];
    run_method(alloc, method, call.args.as_slice(), tables)
}

/// Runs the calls one after the other, from fields without entries on, and answers how each ended.
///
/// The outcomes are those of the statements of the class as Java runs them (JLS 14, 15).
pub fn plain(alloc: Global, class: &StraightClass, calls: &Calls) -> Result<Outcomes, AllocError>
    requires proper { IsProper class.now }
    requires fit { All (CallFits class.now) calls.now }
    ensures plain { IfOk result (λ outcomes. ArePlain (class_tree class.now) calls.now outcomes) }
    ensures each { IfOk result (λ outcomes. length outcomes ≡ length calls.now) }
{
    let mut tables = Tables::new(alloc, class.fields.as_slice())?;
    let mut outcomes = Items::new(alloc);
    for call in calls.as_slice() {
        outcomes.push(run_call(alloc, class, call, &mut tables)?)?;
    }
    Ok(outcomes)
}
