//! What calls of an accepted class run on: its program or its form, and its
//! methods and fields as callers and histories name them.

ghost use Rattle.std.specs.Prelude.{◌≡◌, ◌++◌, ◌≤◌, List, length, map, IfOk, IfSome, OnOk};
ghost use Rattle.java_tree.specs.declared.tree.Class.{Class as ClassOf};
ghost use Rattle.java_tree.specs.Kinds as kinds;
ghost use Rattle.run_text.specs.declared.entrance.Entrance.{Entrance as EntranceOf};
ghost use Rattle.access_blocks.specs.Programs as blocks;
ghost use Rattle.sdg_top.specs.Accepted.{annotated_of};
ghost use Rattle.sdg_top.specs.Called.{IsCalled, IsFormOf};
ghost use Rattle.sdg_top.specs.Entrances as spec;

use access_blocks::{Marked, Program, marks};
use annotations::{Annotated, FieldKind, kind_of_field};
use early_forms::{StraightClass, straight_form};
use java_tree::{Class, Member, Method, MethodKind, Param, TypeName, Typed, discard, kind_of};
use run_text::{Entrance, Field, ValueType};
use sqlite_items::Items;
use std::alloc::{AllocError, Global};

/// The most methods, and the most fields, that have numbers. An accepted class has 256 and 64 at most.
const MOST_MEMBERS: usize = 65536;

/// A class of the form that runs, and its entry methods.
#[derive(Drop)]
pub(crate) struct Form {
    pub class: StraightClass,
    pub entrances: Vec<Entrance>,
}

/// The program of a class, its entry methods, and its fields by number.
#[derive(Drop)]
pub(crate) struct Called {
    pub program: Program,
    pub entrances: Vec<Entrance>,
    pub fields: Vec<Field>,
}

fn value_type_of(name: &TypeName) -> ValueType
    ensures { result ≡ spec.value_type_of name.now }
{
    match name {
        TypeName::Int => ValueType::Int,
        TypeName::Long => ValueType::Long,
        TypeName::Boolean => ValueType::Boolean,
        TypeName::Named(_) => ValueType::Vector,
    }
}

fn value_types(alloc: Global, params: &[Param]) -> Result<Items<ValueType>, AllocError>
    ensures { IfOk result (λ types. types ≡ map (λ p. spec.value_type_of p.type_name) params.now) }
{
    let mut types = Items::new(alloc);
    for param in params {
        types.push(value_type_of(&param.type_name))?;
    }
    Ok(types)
}

/// A method as a caller sees it.
fn entrance(alloc: Global, number: u16, method: &Method) -> Result<Entrance, AllocError>
    ensures { IfOk result (λ e. e ≡ spec.entrance_of number method.now) }
{
    Ok(Entrance {
        number,
        name: Items::from_slice(alloc, method.name.as_slice())?,
        parameters: value_types(alloc, method.params.as_slice())?,
    })
}

/// Adds a method to the entry methods, if it is one.
fn add_method(
    alloc: Global,
    entrances: &mut Vec<Entrance>,
    number: u16,
    method: &Method,
) -> Result<(), AllocError>
    ensures { OnOk result ((others : List EntranceOf) → entrances.new.items ++ others ≡ entrances.old.items ++ spec.with_entrance (kinds.kind_of method.now) (spec.entrance_of number method.now) others) }
{
    if matches!(kind_of(method), MethodKind::Entry) {
        entrances.push(entrance(alloc, number, method)?)?;
    }
    Ok(())
}

/// The entry methods of a class, in text order.
fn entrances_of(alloc: Global, class: &Class) -> Result<Vec<Entrance>, AllocError>
    ensures are { IfOk result (λ v. v.items ≡ spec.entrances_of class.now) }
    ensures few { IfOk result (λ v. length v.items ≤ 65536) }
{
    let mut entrances = Vec::new(alloc);
    let mut number = 0usize;
    for member in class.members.as_slice() {
        let Member::Method(method) = member else {
            continue;
        };
        if number >= MOST_MEMBERS {
            break;
        }
        add_method(alloc, &mut entrances, number as u16, method)?;
        number += 1;
    }
    Ok(entrances)
}

fn is_partial(kind: FieldKind) -> bool
    ensures { result ≡ blocks.is_partial kind }
{
    match kind {
        FieldKind::Partitioned => false,
        FieldKind::Partial => true,
    }
}

/// A field as a history names it.
fn named_field(alloc: Global, field: &java_tree::Field) -> Result<Field, AllocError>
    ensures { IfOk result (λ f. f ≡ spec.named_field field.now) }
{
    Ok(Field {
        name: Items::from_slice(alloc, field.name.as_slice())?,
        partial: is_partial(kind_of_field(field)),
    })
}

/// The fields of a class, in text order.
fn fields_of(alloc: Global, class: &Class) -> Result<Vec<Field>, AllocError>
    ensures are { IfOk result (λ v. v.items ≡ spec.fields_of class.now) }
    ensures few { IfOk result (λ v. length v.items ≤ 65536) }
{
    let mut fields = Vec::new(alloc);
    for member in class.members.as_slice() {
        let Member::Field(field) = member else {
            continue;
        };
        if fields.len() >= MOST_MEMBERS {
            break;
        }
        fields.push(named_field(alloc, field)?)?;
    }
    Ok(fields)
}

/// Lets an accepted class go.
pub(crate) fn let_go(annotated: Annotated) {
    let Annotated { typed, .. } = annotated;
    let Typed { class, .. } = typed;
    discard(class);
}

/// The form of an accepted class, if it is of the form that runs.
fn form_seen(alloc: Global, class: &Class) -> Result<Option<Form>, AllocError>
    ensures form { IfOk result (IsFormOf class.now) }
    ensures few { IfOk result (λ o. IfSome o (λ form. length form.entrances.items ≤ 65536)) }
{
    match straight_form(alloc, class)? {
        Some(form) => Ok(Some(Form {
            class: form,
            entrances: entrances_of(alloc, class)?,
        })),
        None => Ok(None),
    }
}

/// The form of an accepted class, if it is of the form that runs. The class is let go.
pub(crate) fn form_of(alloc: Global, annotated: Annotated) -> Result<Option<Form>, AllocError>
    ensures form { IfOk result (IsFormOf annotated.typed.class) }
    ensures few { IfOk result (λ o. IfSome o (λ form. length form.entrances.items ≤ 65536)) }
{
    let form = form_seen(alloc, &annotated.typed.class);
    let_go(annotated);
    form
}

/// The program of an accepted class. The class is let go.
fn program_of(alloc: Global, annotated: Annotated) -> Result<Program, AllocError>
    ensures { IfOk result (λ program. program ≡ blocks.program_of annotated) }
{
    let Marked { annotated, program } = marks(alloc, annotated)?;
    let_go(annotated);
    Ok(program)
}

/// The entry methods and the fields of a class.
fn members_of(alloc: Global, class: &Class) -> Result<(Vec<Entrance>, Vec<Field>), AllocError>
    ensures entrances { IfOk result (λ m. m.0.items ≡ spec.entrances_of class.now) }
    ensures fields { IfOk result (λ m. m.1.items ≡ spec.fields_of class.now) }
    ensures few_entrances { IfOk result (λ m. length m.0.items ≤ 65536) }
    ensures few_fields { IfOk result (λ m. length m.1.items ≤ 65536) }
{
    Ok((entrances_of(alloc, class)?, fields_of(alloc, class)?))
}

/// What calls of an accepted class run on. The class is let go.
pub(crate) fn resolved(alloc: Global, annotated: Annotated) -> Result<Called, AllocError>
    ensures called { (class : ClassOf) → annotated ≡ annotated_of class → IfOk result (IsCalled class) }
    ensures few_entrances { IfOk result (λ c. length c.entrances.items ≤ 65536) }
    ensures few_fields { IfOk result (λ c. length c.fields.items ≤ 65536) }
{
    match members_of(alloc, &annotated.typed.class) {
        Ok((entrances, fields)) => Ok(Called {
            program: program_of(alloc, annotated)?,
            entrances,
            fields,
        }),
        Err(error) => {
            let_go(annotated);
            Err(error)
        }
    }
}
