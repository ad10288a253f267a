//! The code of a method's body.

ghost use Rattle.std.specs.Prelude.{◌≡◌, ◌+◌, [], ◌∷◌, ◌++◌, OnOk, IfOk, map, slice_get};
ghost use Rattle.std.specs.List.{flat_map, list_any};
ghost use Rattle.body_code.specs.ClassCode as spec;
ghost use Rattle.task_lower.specs.Drafting.{place_of};

use crate::completing::body_completes;
use crate::draft::{Draft, fill};
use crate::early::early;
use crate::instructions::{narrow, place, push};
use crate::scope::Scope;
use crate::statements::statements;
use crate::types::type_by;
use access_blocks::Body;
use body_code::Callee;
use flat_code::{GraphField, Instr, VarType, VariableType as FlatType};
use java_tree::{MethodKind, ValueType as VariableType};
use sdg_base::ValueType;
use sqlite_items::Items;
use std::alloc::{AllocError, Global};

/// The type of a variable of a declared one.
pub fn var_type_by(found: VariableType) -> VarType
    ensures { result ≡ spec.var_type_by found }
{
    match found {
        VariableType::Int => VarType::Int,
        VariableType::Long => VarType::Long,
        VariableType::Boolean => VarType::Boolean,
        VariableType::Vector => VarType::Vector,
    }
}

fn start_code(code: &mut Items<Instr>, found: VariableType) -> Result<(), AllocError>
    ensures { OnOk result (code.new ≡ code.old ++ spec.start_code (spec.var_type_by found)) }
{
    match found {
        VariableType::Int => code.push(Instr::Int(0)),
        VariableType::Long => code.push(Instr::Long(0)),
        VariableType::Boolean => code.push(Instr::Bool(false)),
        VariableType::Vector => {
            code.push(Instr::Int(0))?;
            code.push(Instr::NewVector)
        }
    }
}

fn start(code: &mut Items<Instr>, found: Option<VariableType>) -> Result<(), AllocError>
    ensures { OnOk result (code.new ≡ code.old ++ spec.start_of found) }
{
    match found {
        None => Ok(()),
        Some(found) => {
            start_code(code, found)?;
            Ok(())
        }
    }
}

fn variable_at(variables: &[VariableType], number: usize) -> Option<VariableType>
    ensures { result ≡ slice_get variables.now number }
{
    variables.get(number).copied()
}

/// A variable is set before the body.
#[tactic(auto, using(crate::proofs::Pushed::set_code))]
fn set_at_start(
    code: &mut Items<Instr>,
    variables: &[VariableType],
    variable: usize,
) -> Result<(), AllocError>
    ensures { OnOk result (code.new ≡ code.old ++ (spec.start_of (slice_get variables.now variable) ++ Instr.Store variable ∷ [])) }
{
    let number = narrow(variable)?;
    start(code, variable_at(variables, variable))?;
    code.push(Instr::Store(number))?;
    Ok(())
}

fn set_all(code: &mut Items<Instr>, body: &Body, early: &[usize]) -> Result<(), AllocError>
    ensures { OnOk result (code.new ≡ code.old ++ flat_map (spec.set_at_start body.now) early.now) }
{
    for variable in early {
        set_at_start(code, body.variables.as_slice(), *variable)?;
    }
    Ok(())
}

/// The code before the statements of a body.
fn started(alloc: Global, body: &Body) -> Result<Items<Instr>, AllocError>
    ensures { IfOk result (λ code. code ≡ spec.started body.now) }
{
    let mut code = Items::new(alloc);
    let early = early(alloc, body)?;
    set_all(&mut code, body, early.as_slice())?;
    Ok(code)
}

/// The number of the first task that a body cuts.
fn first_cut(kind: MethodKind, task: u32) -> Result<u32, AllocError>
    ensures { IfOk result (λ first. first ≡ spec.first_cut kind task) }
{
    match kind {
        MethodKind::Entry => match task.checked_add(1) {
            Some(first) => Ok(first),
            None => Err(AllocError),
        },
        MethodKind::Helper | MethodKind::Merge => Ok(task),
    }
}

/// A variable of each type more.
fn ones(types: &mut Items<FlatType>, variables: &[VariableType]) -> Result<(), AllocError>
    ensures { OnOk result (types.new ≡ types.old ++ map spec.one_of variables.now) }
{
    for found in variables {
        types.push(FlatType::One(var_type_by(*found)))?;
    }
    Ok(())
}

/// The first variable is a collection.
fn with_collection(
    types: &mut Items<FlatType>,
    variables: &[VariableType],
) -> Result<(), AllocError>
    ensures { OnOk result (types.new ≡ types.old ++ spec.with_collection variables.now) }
{
    match variables {
        [] => Ok(()),
        [first, others @ ..] => {
            types.push(FlatType::Collection(var_type_by(*first)))?;
            ones(types, others)
        }
    }
}

/// The types of the variables of a body. That of a merge method's parameter is a collection.
fn variables_of(
    alloc: Global,
    kind: MethodKind,
    variables: &[VariableType],
) -> Result<Items<FlatType>, AllocError>
    ensures { IfOk result (λ types. types ≡ spec.variables_of kind variables.now) }
{
    let mut types = Items::new(alloc);
    match kind {
        MethodKind::Merge => with_collection(&mut types, variables)?,
        MethodKind::Entry | MethodKind::Helper => ones(&mut types, variables)?,
    }
    Ok(types)
}

fn first_type(variables: &[VariableType]) -> Option<ValueType>
    ensures { result ≡ spec.first_type variables.now }
{
    match variables.first() {
        None => None,
        Some(found) => Some(type_by(*found)),
    }
}

/// The type of the members of the collection that a merge method takes.
fn members_of(kind: MethodKind, variables: &[VariableType]) -> Option<ValueType>
    ensures { result ≡ spec.members_of kind variables.now }
{
    match kind {
        MethodKind::Merge => first_type(variables),
        MethodKind::Entry | MethodKind::Helper => None,
    }
}

fn is_jump_to(at: usize, instr: &Instr) -> bool
    ensures { result ≡ spec.is_jump_to at instr.now }
{
    match instr {
        Instr::Jump(to) | Instr::IfFalse(to) => *to as usize == at,
        _ => false,
    }
}

fn has_jump_to(at: usize, code: &[Instr]) -> bool
    ensures { result ≡ list_any (spec.is_jump_to at) code.now }
{
    for instr in code {
        if is_jump_to(at, instr) {
            return true;
        }
    }
    false
}

/// What stands behind the last statement.
fn end(code: &mut Items<Instr>, completes: bool) -> Result<(), AllocError>
    ensures { OnOk result (code.new ≡ spec.ended completes code.old) }
{
    if completes {
        return code.push(Instr::ReturnVoid);
    }
    if has_jump_to(code.len(), code.as_slice()) {
        let at = place(code)?;
        code.push(Instr::Turn)?;
        code.push(Instr::Jump(at))?;
    }
    Ok(())
}

/// What is there before the statements of a body.
fn begun(alloc: Global, body: &Body, task: u32) -> Result<Draft, AllocError>
    ensures code { IfOk result (λ draft. draft.code ≡ spec.started body.now) }
    ensures place { IfOk result (λ draft. place_of draft ≡ spec.body_place body.now task) }
    ensures variables { IfOk result (λ draft. draft.variables ≡ spec.variables_of body.now.kind body.now.variables) }
{
    Ok(Draft {
        code: started(alloc, body)?,
        tasks: first_cut(body.kind, task)?,
        variables: variables_of(alloc, body.kind, body.variables.as_slice())?,
    })
}

/// The code of a body whose first task has this number.
pub fn body_draft(
    alloc: Global,
    fields: &[GraphField],
    methods: &[Callee],
    body: &Body,
    task: u32,
) -> Result<Draft, AllocError>
    ensures code { IfOk result (λ draft. draft.code ≡ spec.body_code fields.now methods.now body.now task) }
    ensures tasks { IfOk result (λ draft. draft.tasks ≡ task + spec.tasks_of fields.now methods.now body.now) }
    ensures variables { IfOk result (λ draft. draft.variables ≡ spec.variables_of body.now.kind body.now.variables ++ map FlatType.One (spec.body_piece fields.now methods.now body.now).carried) }
{
    let variables = body.variables.as_slice();
    let scope = Scope::new(fields, methods, variables, members_of(body.kind, variables));
    let mut draft = begun(alloc, body, task)?;
    let holes = statements(alloc, &scope, &mut draft, body.statements.as_slice())?;
    fill(&mut draft.code, holes, 0, 0);
    end(&mut draft.code, body_completes(body.statements.as_slice()))?;
    Ok(draft)
}
