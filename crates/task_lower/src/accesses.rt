//! The code of accesses to fields, of the marks before them, and of those that gather.

ghost use Rattle.std.specs.Prelude.{◌≡◌, [], ◌∷◌, ◌++◌, OnOk, IfOk, map, option_to_list};
ghost use Rattle.std.specs.List.{flat_map, range_with_len};
ghost use Rattle.std.specs.Option.{option_copied, option_map};
ghost use Rattle.body_code.specs.Codes.{plain};
ghost use Rattle.body_code.specs.StatementCode as spec;
ghost use Rattle.state_classes.specs.Shown.{signature_of};
ghost use Rattle.task_lower.specs.Pushing.{Pushes};
ghost use Rattle.task_lower.specs.Drafting.{Emits};

use crate::draft::{Draft, count_task, cut};
use crate::expressions::{expression, expressions};
use crate::instructions::{narrow, push};
use crate::scope::Scope;
use access_blocks::{Access, Expression, Gather, Mark, Target};
use flat_code::{GraphField, Instr, VarType, VariableType};
use sdg_base::{Name, ValueType};
use sqlite_items::Items;
use state_classes::{Method, Signature, state_method};
use std::alloc::{AllocError, Global};

fn name_in(alloc: Global, field: Option<&GraphField>) -> Result<Name, AllocError>
    ensures { IfOk result (λ name. name ≡ spec.name_in (option_copied field.entry)) }
{
    match field {
        None => Ok(Items::new(alloc)),
        Some(field) => Items::from_slice(alloc, field.name.as_slice()),
    }
}

fn field_name(alloc: Global, scope: &Scope<'_>, field: usize) -> Result<Name, AllocError>
    ensures { IfOk result (λ name. name ≡ spec.field_name scope.now field) }
{
    name_in(alloc, scope.field(field))
}

fn signature_in(field: Option<&GraphField>, method: Method) -> Option<Signature>
    ensures { option_map signature_of result ≡ spec.signature_in (option_copied field.entry) method }
{
    match field {
        None => None,
        Some(field) => state_method(field.class, method.text().as_bytes()),
    }
}

fn signature_by(scope: &Scope<'_>, field: usize, method: Method) -> Option<Signature>
    ensures { option_map signature_of result ≡ spec.signature_of scope.now field method }
{
    signature_in(scope.field(field), method)
}

fn result_type(scope: &Scope<'_>, field: usize, method: Method) -> ValueType
    ensures { result ≡ spec.result_of (spec.signature_of scope.now field method) }
{
    match signature_by(scope, field, method) {
        None => ValueType::Void,
        Some(signature) => signature.result,
    }
}

fn argument_types(scope: &Scope<'_>, field: usize, method: Method) -> &'static [ValueType]
    ensures { result.now ≡ spec.arguments_of (spec.signature_of scope.now field method) }
{
    match signature_by(scope, field, method) {
        None => &[],
        Some(signature) => signature.arguments,
    }
}

/// A value that is on top is dropped.
pub fn pop(code: &mut Items<Instr>, found: ValueType) -> Result<(), AllocError>
    ensures { OnOk result (Pushes (plain (spec.popped found)) code.old code.new) }
{
    match found {
        ValueType::Void => Ok(()),
        _ => push(code, Instr::Pop),
    }
}

/// An answer goes to its target.
fn put(code: &mut Items<Instr>, target: Target, found: ValueType) -> Result<(), AllocError>
    ensures { OnOk result (Pushes (plain (spec.targeted target found)) code.old code.new) }
{
    match target {
        Target::Dropped => pop(code, found),
        Target::Variable(variable) => push(code, Instr::Store(narrow(variable)?)),
        Target::Returned => push(code, Instr::Return),
    }
}

fn access_field(
    alloc: Global,
    scope: &Scope<'_>,
    code: &mut Items<Instr>,
    field: usize,
    method: Method,
) -> Result<(), AllocError>
    ensures { OnOk result (Pushes (plain (Instr.Access (spec.field_name scope.now field) method ∷ [])) code.old code.new) }
{
    let name = field_name(alloc, scope, field)?;
    push(code, Instr::Access(name, method))
}

/// The code of an access.
pub fn access(
    alloc: Global,
    scope: &Scope<'_>,
    code: &mut Items<Instr>,
    access: &Access,
) -> Result<(), AllocError>
    ensures { OnOk result (Pushes (spec.access scope.now access.now) code.old code.new) }
{
    expressions(alloc, scope, code, access.args.as_slice())?;
    access_field(alloc, scope, code, access.field, access.method)?;
    let found = result_type(scope, access.field, access.method);
    put(code, access.target, found)?;
    Ok(())
}

/// The key of a mark, if it has one.
fn key(
    alloc: Global,
    scope: &Scope<'_>,
    code: &mut Items<Instr>,
    key: &Option<Expression>,
) -> Result<(), AllocError>
    ensures { OnOk result (Pushes (spec.key_code scope.now key.now) code.old code.new) }
{
    if let Some(key) = key {
        expression(alloc, scope, code, key)?;
    }
    Ok(())
}

/// The code of a mark: the key, and behind it the cut.
pub fn mark(
    alloc: Global,
    scope: &Scope<'_>,
    draft: &mut Draft,
    mark: &Mark,
) -> Result<(), AllocError>
    ensures { OnOk result (Emits (spec.then_piece (spec.of_code (spec.key_code scope.now mark.now.key)) spec.cut) draft.old draft.new []) }
{
    key(alloc, scope, &mut draft.code, &mark.key)?;
    cut(draft)?;
    Ok(())
}

/// Each argument is stored into a variable of its own.
fn store_arguments(
    alloc: Global,
    scope: &Scope<'_>,
    code: &mut Items<Instr>,
    args: &[Expression],
    first: usize,
) -> Result<(), AllocError>
    ensures { OnOk result (Pushes (spec.stored_from scope.now.context args.now first) code.old code.new) }
{
    let mut variable = narrow(first)?;
    for e in args {
        expression(alloc, scope, code, e)?;
        push(code, Instr::Store(variable))?;
        let Some(next) = variable.checked_add(1) else {
            return Err(AllocError);
        };
        variable = next;
    }
    Ok(())
}

fn load_arguments(code: &mut Items<Instr>, first: usize, count: usize) -> Result<(), AllocError>
    ensures { OnOk result (Pushes (plain (map Instr.Load (range_with_len first count))) code.old code.new) }
{
    let mut variable = narrow(first)?;
    for _ in 0..count {
        push(code, Instr::Load(variable))?;
        let Some(next) = variable.checked_add(1) else {
            return Err(AllocError);
        };
        variable = next;
    }
    Ok(())
}

fn var_type(found: ValueType) -> Option<VarType>
    ensures { option_to_list result ≡ spec.var_type found }
{
    match found {
        ValueType::Int => Some(VarType::Int),
        ValueType::Long => Some(VarType::Long),
        ValueType::Boolean => Some(VarType::Boolean),
        ValueType::Vector => Some(VarType::Vector),
        ValueType::Void => None,
    }
}

/// A variable for each argument.
fn declare_arguments(
    variables: &mut Items<VariableType>,
    types: &[ValueType],
) -> Result<(), AllocError>
    ensures { OnOk result (variables.new ≡ variables.old ++ map VariableType.One (flat_map spec.var_type types.now)) }
{
    for found in types {
        if let Some(carried) = var_type(*found) {
            variables.push(VariableType::One(carried))?;
        }
    }
    Ok(())
}

/// The visit loads the arguments, accesses its instance, and brings its part to the join, which is the next task.
fn visit(
    alloc: Global,
    scope: &Scope<'_>,
    draft: &mut Draft,
    gather: &Gather,
) -> Result<(), AllocError>
    ensures { OnOk result (Emits (spec.visit scope.now gather.now) draft.old draft.new []) }
{
    load_arguments(&mut draft.code, draft.variables.len(), gather.args.len())?;
    access_field(alloc, scope, &mut draft.code, gather.field, gather.method)?;
    push(&mut draft.code, Instr::Part(draft.tasks))?;
    declare_arguments(
        &mut draft.variables,
        argument_types(scope, gather.field, gather.method),
    )?;
    count_task(draft)?;
    Ok(())
}

/// The code of an access that gathers.
pub fn gather(
    alloc: Global,
    scope: &Scope<'_>,
    draft: &mut Draft,
    gather: &Gather,
) -> Result<(), AllocError>
    ensures { OnOk result (Emits (spec.gather scope.now gather.now) draft.old draft.new []) }
{
    let first = draft.variables.len();
    store_arguments(alloc, scope, &mut draft.code, gather.args.as_slice(), first)?;
    cut(draft)?;
    visit(alloc, scope, draft, gather)?;
    Ok(())
}
