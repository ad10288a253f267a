//! Calls run one after the other.

ghost use Rattle.std.specs.Prelude.{◌≡◌, map, IfOk, OnOk};
ghost use Rattle.access_blocks.specs.Source.{field_at_start};
ghost use Rattle.plain_java.specs.Plain as spec;
ghost use Rattle.plain_java.specs.Calling.{Completes};

use access_blocks::{Body, Holder, Program};
use body_run::{FieldState, Machine, run_all};
use sdg_base::{Call, Calls, Outcome, Outcomes, TURNS_AT_START, Val, copy_of};
use sqlite_items::Items;
use state_classes::AnyState;
use std::alloc::{AllocError, Global};

/// A field before the first call. A partial one has no instance.
fn field_of(alloc: Global, holder: &Holder) -> FieldState
    ensures { result ≡ field_at_start 0 holder.now }
{
    if holder.is_partial {
        FieldState::instances(Vec::new(alloc))
    } else {
        FieldState::whole(AnyState::new(alloc, holder.class))
    }
}

fn fields_of(alloc: Global, holders: &[Holder]) -> Result<Vec<FieldState>, AllocError>
    ensures { IfOk result (λ v. v.items ≡ map (field_at_start 0) holders.now) }
{
    let mut fields = Vec::new(alloc);
    for holder in holders {
        fields.push(field_of(alloc, holder))?;
    }
    Ok(fields)
}

fn arguments(alloc: Global, values: &[Val]) -> Result<Vec<Val>, AllocError>
    ensures { IfOk result (λ v. v.items ≡ values.now) }
{
    let mut arguments = Vec::new(alloc);
    for value in values {
        arguments.push(copy_of(alloc, value)?)?;
    }
    Ok(arguments)
}

/// Runs a body on the fields as they are: how the call ended, and the fields after it.
fn run_body(
    alloc: Global,
    program: &Program,
    body: &Body,
    values: &[Val],
    fields: Vec<FieldState>,
) -> Result<(Outcome, Vec<FieldState>), AllocError>
    ensures { IfOk result (λ r. Completes (spec.body_completed program.now (Some body.now) values.now fields.items) r.0 r.1.items) }
{
    let arguments = arguments(alloc, values)?;
    let gathered = Items::new(alloc);
    let mut machine = Machine::start(alloc, body, arguments, gathered, TURNS_AT_START, fields)?;
    let completion = run_all(
        alloc,
        program.methods.as_slice(),
        body.statements.as_slice(),
        &mut machine,
    )?;
    let Machine { fields, .. } = machine;
    Ok((completion.outcome(), fields))
}

/// Runs a call. One of a method that is not there changes nothing.
fn run_call(
    alloc: Global,
    program: &Program,
    call: &Call,
    fields: Vec<FieldState>,
) -> Result<(Outcome, Vec<FieldState>), AllocError>
    ensures { IfOk result (λ r. Completes (spec.call_completed program.now call.now fields.items) r.0 r.1.items) }
{
    match program.methods.get(usize::from(call.method)) {
        Some(body) => run_body(alloc, program, body, call.args.as_slice(), fields),
        None => Ok((Outcome::Value(Val::Unit), fields)),
    }
}

/// Runs calls whole, one after the other, from fields without entries on, and answers how each ended (JLS 14, 15). The
/// first is call 1.
///
/// The class has no partial field: of such a field there is no instance here. A call of a method that is not there ends
/// without a value.
///
/// # Errors
///
/// There is no memory left.
pub fn plain(alloc: Global, program: &Program, calls: &Calls) -> Result<Outcomes, AllocError>
    ensures plain { IfOk result (λ outcomes. outcomes ≡ spec.plain program.now calls.now) }
{
    let mut fields = fields_of(alloc, program.fields.as_slice())?;
    let mut outcomes = Items::new(alloc);
    for call in calls.as_slice() {
        let (outcome, left) = run_call(alloc, program, call, fields)?;
        fields = left;
        outcomes.push(outcome)?;
    }
    Ok(outcomes)
}
