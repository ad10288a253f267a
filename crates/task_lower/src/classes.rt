//! The flat code of a class.

ghost use Rattle.std.specs.Prelude.{◌≡◌, ◌+◌, [], ◌∷◌, ◌++◌, IfOk, OnOk};
ghost use Rattle.access_blocks.specs.Programs.{fields_in, methods_in};
ghost use Rattle.access_blocks.specs.ResolvingStatements.{declared_type};
ghost use Rattle.body_code.specs.ClassCode as spec;

use crate::bodies::{body_draft, var_type_by};
use crate::draft::Draft;
use crate::instructions::narrow;
use crate::types::type_by;
use access_blocks::{Body, Holder, Marked, Program};
use body_code::Callee;
use flat_code::{FieldKind, Flat, GraphField, GraphMethod, MethodKind, VarType};
use java_tree::words::value_type;
use java_tree::{
    Class, Field, Member, Method, MethodKind as SourceKind, ResultType, TypeName,
    ValueType as VariableType,
};
use sdg_base::ValueType;
use sqlite_items::Items;
use std::alloc::{AllocError, Global};

fn declared_type(name: &TypeName) -> VariableType
    ensures { result ≡ declared_type name.now }
{
    value_type(name).unwrap_or(VariableType::Int)
}

fn kind_by(is_partial: bool) -> FieldKind
    ensures { result ≡ spec.kind_by is_partial }
{
    if is_partial {
        FieldKind::Partial
    } else {
        FieldKind::Partitioned
    }
}

fn graph_field(alloc: Global, field: &Field, holder: Holder) -> Result<GraphField, AllocError>
    ensures { IfOk result (λ f. f ≡ spec.graph_field field.now holder) }
{
    Ok(GraphField {
        name: Items::from_slice(alloc, field.name.as_slice())?,
        class: holder.class,
        kind: kind_by(holder.is_partial),
    })
}

fn graph_fields(
    alloc: Global,
    members: &[Member],
    holders: &[Holder],
) -> Result<Items<GraphField>, AllocError>
    ensures { IfOk result (λ all. all ≡ spec.graph_fields (fields_in members.now) holders.now) }
{
    let mut all = Items::new(alloc);
    let mut rest = holders;
    for member in members {
        if let Member::Field(field) = member {
            let [holder, others @ ..] = rest else {
                return Ok(all);
            };
            all.push(graph_field(alloc, field, *holder)?)?;
            rest = others;
        }
    }
    Ok(all)
}

fn result_type(found: &ResultType) -> ValueType
    ensures { result ≡ spec.result_type found.now }
{
    match found {
        ResultType::Void => ValueType::Void,
        ResultType::Type(name) => type_by(declared_type(name)),
    }
}

fn result_of(found: &ResultType) -> Option<VarType>
    ensures { result ≡ spec.result_of found.now }
{
    match found {
        ResultType::Void => None,
        ResultType::Type(name) => Some(var_type_by(declared_type(name))),
    }
}

/// The types of so many first variables.
fn taken_types(
    alloc: Global,
    arity: usize,
    variables: &[VariableType],
) -> Result<Items<ValueType>, AllocError>
    ensures { IfOk result (λ types. types ≡ spec.taken_types arity variables.now) }
{
    let mut types = Items::new(alloc);
    let taken = &variables[..arity.min(variables.len())];
    for found in taken {
        types.push(type_by(*found))?;
    }
    Ok(types)
}

fn callee(alloc: Global, method: &Method, body: &Body) -> Result<Callee, AllocError>
    ensures { IfOk result (λ c. c ≡ spec.callee method.now body.now) }
{
    Ok(Callee {
        kind: body.kind,
        params: taken_types(alloc, body.arity, body.variables.as_slice())?,
        result: result_type(&method.result),
    })
}

/// Each method as its callers know it.
fn callees(alloc: Global, members: &[Member], bodies: &[Body]) -> Result<Items<Callee>, AllocError>
    ensures { IfOk result (λ all. all ≡ spec.callees (methods_in members.now) bodies.now) }
{
    let mut all = Items::new(alloc);
    let mut rest = bodies;
    for member in members {
        if let Member::Method(method) = member {
            let [body, others @ ..] = rest else {
                return Ok(all);
            };
            all.push(callee(alloc, method, body)?)?;
            rest = others;
        }
    }
    Ok(all)
}

fn graph_kind(kind: SourceKind) -> MethodKind
    ensures { result ≡ spec.graph_kind kind }
{
    match kind {
        SourceKind::Entry => MethodKind::Entry,
        SourceKind::Helper => MethodKind::Helper,
        SourceKind::Merge => MethodKind::Merge,
    }
}

/// Adds a method whose first task has this number, and gives the number of the first task behind it.
fn add_method(
    alloc: Global,
    fields: &[GraphField],
    callees: &[Callee],
    all: &mut Items<GraphMethod>,
    method: &Method,
    body: &Body,
    task: u32,
) -> Result<u32, AllocError>
    ensures method { OnOk result (all.new ≡ all.old ++ spec.graph_method fields.now callees.now method.now body.now task ∷ []) }
    ensures task { IfOk result (λ next. next ≡ task + spec.tasks_of fields.now callees.now body.now) }
{
    let draft = body_draft(alloc, fields, callees, body, task)?;
    let Draft {
        code,
        tasks,
        variables,
    } = draft;
    let made = GraphMethod {
        code,
        kind: graph_kind(body.kind),
        name: Items::from_slice(alloc, method.name.as_slice())?,
        params: narrow(body.arity)?,
        result: result_of(&method.result),
        vars: variables,
    };
    all.push(made)?;
    Ok(tasks)
}

fn graph_methods(
    alloc: Global,
    fields: &[GraphField],
    callees: &[Callee],
    members: &[Member],
    bodies: &[Body],
) -> Result<Items<GraphMethod>, AllocError>
    ensures { IfOk result (λ all. all ≡ spec.graph_methods fields.now callees.now (methods_in members.now) bodies.now 0) }
{
    let mut all = Items::new(alloc);
    let mut rest = bodies;
    let mut task = 0u32;
    for member in members {
        if let Member::Method(method) = member {
            let [body, others @ ..] = rest else {
                return Ok(all);
            };
            task = add_method(alloc, fields, callees, &mut all, method, body, task)?;
            rest = others;
        }
    }
    Ok(all)
}

fn code_of_class(alloc: Global, class: &Class, program: &Program) -> Result<Flat, AllocError>
    ensures { IfOk result (λ flat. flat ≡ spec.code_of_class class.now program.now) }
{
    let members = class.members.as_slice();
    let bodies = program.methods.as_slice();
    let fields = graph_fields(alloc, members, program.fields.as_slice())?;
    let callees = callees(alloc, members, bodies)?;
    let methods = graph_methods(
        alloc,
        fields.as_slice(),
        callees.as_slice(),
        members,
        bodies,
    )?;
    Ok(Flat {
        class: Items::from_slice(alloc, class.name.as_slice())?,
        fields,
        methods,
    })
}

/// The flat code of a class.
///
/// # Errors
///
/// There is no memory left. A number that is too large for its place in an instruction counts as one that memory does not
/// hold.
#[tactic(auto, unfolding(body_code::specs::ClassCode::flat_of))]
pub fn lower(alloc: Global, marked: &Marked) -> Result<Flat, AllocError>
    ensures { IfOk result (λ flat. flat ≡ spec.flat_of marked.now) }
{
    code_of_class(alloc, &marked.annotated.typed.class, &marked.program)
}
