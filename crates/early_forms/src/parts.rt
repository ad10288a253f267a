//! The parts of a class's tree, where it has the productions of the straight form.

ghost use Rattle.std.specs.Prelude.{◌≡◌, ◌↔◌, [], ◌∷◌, map, codes, IsTrue, IfOk};
ghost use Rattle.std.specs.Option.{option_copied};
ghost use Rattle.early_forms.specs.Trees.{result_of, long_parameter, method_tree, table_member, method_member, class_tree};
ghost use Rattle.early_forms.specs.Parts.{PartsOf, TablesAtHead, MembersOf};

use crate::bodies::body_of;
use crate::straight::{Ending, StraightClass, StraightMethod};
use crate::sums::copy_name;
use java_tree::{Class, FieldModifier, Member, Method, Param, Place, ResultType, TypeName};
use sdg_base::Name;
use sqlite_items::Items;
use std::alloc::{AllocError, Global};

fn is_long(type_name: &TypeName) -> bool
    ensures { IsTrue result ↔ (type_name.now ≡ TypeName.Long) }
{
    matches!(type_name, TypeName::Long)
}

fn parameter_of(parameter: &Param) -> Option<&Name>
    ensures { PartsOf long_parameter parameter.now (option_copied result) }
{
    if is_long(&parameter.type_name) && !parameter.is_collection && !parameter.is_array {
        Some(&parameter.name)
    } else {
        None
    }
}

#[tactic(auto, using(crate::proofs::Maps::map_more, crate::proofs::Maps::map_all, crate::proofs::Maps::map_none))]
fn parameters_of(alloc: Global, parameters: &[Param]) -> Result<Option<Items<Name>>, AllocError>
    ensures { IfOk result (PartsOf (map long_parameter) parameters.now) }
{
    let mut names = Items::new(alloc);
    for parameter in parameters {
        let Some(name) = parameter_of(parameter) else {
            return Ok(None);
        };
        names.push(copy_name(alloc, name)?)?;
    }
    Ok(Some(names))
}

fn is_result_of(result_type: &ResultType, ending: &Ending) -> bool
    ensures { IsTrue result ↔ (result_type.now ≡ result_of ending.now) }
{
    match (ending, result_type) {
        (Ending::Nothing, ResultType::Void) => true,
        (Ending::Nothing, _) => false,
        (_, ResultType::Type(TypeName::Long)) => true,
        _ => false,
    }
}

#[tactic(auto, using(crate::proofs::Injective::body_result))]
fn method_of(alloc: Global, method: &Method) -> Result<Option<StraightMethod>, AllocError>
    ensures { IfOk result (PartsOf method_tree method.now) }
{
    if !method.modifiers.is_empty() {
        return Ok(None);
    }
    let Some((statements, ending)) = body_of(alloc, method.body.as_slice())? else {
        return Ok(None);
    };
    if !is_result_of(&method.result, &ending) {
        return Ok(None);
    }
    let Some(parameters) = parameters_of(alloc, method.params.as_slice())? else {
        return Ok(None);
    };
    let name = copy_name(alloc, &method.name)?;
    Ok(Some(StraightMethod {
        name,
        parameters,
        statements,
        ending,
    }))
}

fn member_of(alloc: Global, member: &Member) -> Result<Option<StraightMethod>, AllocError>
    ensures { IfOk result (PartsOf method_member member.now) }
{
    match member {
        Member::Method(method) => method_of(alloc, method),
        Member::Field(_) => Ok(None),
    }
}

#[tactic(auto, using(crate::proofs::Maps::map_more, crate::proofs::Maps::map_all, crate::proofs::Maps::map_none))]
fn methods_of(
    alloc: Global,
    members: &[Member],
) -> Result<Option<Items<StraightMethod>>, AllocError>
    ensures { IfOk result (PartsOf (map method_member) members.now) }
{
    let mut methods = Items::new(alloc);
    for member in members {
        let Some(method) = member_of(alloc, member)? else {
            return Ok(None);
        };
        methods.push(method)?;
    }
    Ok(Some(methods))
}

fn is_partitioned(modifiers: &[FieldModifier]) -> bool
    ensures { IsTrue result ↔ (modifiers.now ≡ FieldModifier.Partitioned ∷ []) }
{
    matches!(modifiers, [FieldModifier::Partitioned])
}

fn is_table(name: &Name) -> bool
    ensures { IsTrue result ↔ (name.now ≡ codes "Table") }
{
    name.as_slice() == b"Table".as_slice()
}

fn table_of(member: &Member) -> Option<&Name>
    ensures { PartsOf table_member member.now (option_copied result) }
{
    match member {
        Member::Field(field) => {
            if is_partitioned(field.modifiers.as_slice())
                && is_table(&field.type_name)
                && is_table(&field.maker)
            {
                Some(&field.name)
            } else {
                None
            }
        }
        Member::Method(_) => None,
    }
}

fn tables_of(alloc: Global, members: &[Member]) -> Result<Items<Name>, AllocError>
    ensures { IfOk result (TablesAtHead members.now) }
{
    let mut fields = Items::new(alloc);
    for member in members {
        let Some(field) = table_of(member) else {
            return Ok(fields);
        };
        fields.push(copy_name(alloc, field)?)?;
    }
    Ok(fields)
}

fn members_of(
    alloc: Global,
    name: &Name,
    members: &[Member],
    places: &[Place],
) -> Result<Option<StraightClass>, AllocError>
    ensures { IfOk result (MembersOf name.now members.now places.now) }
{
    let fields = tables_of(alloc, members)?;
    let (_, others) = members.split_at(fields.len());
    let Some(methods) = methods_of(alloc, others)? else {
        return Ok(None);
    };
    let name = copy_name(alloc, name)?;
    let places = Items::from_slice(alloc, places)?;
    Ok(Some(StraightClass {
        name,
        fields,
        methods,
        places,
    }))
}

/// The parts of a class's tree, or `None` where it has not the productions of the straight form,
/// whatever its names.
///
/// # Errors
///
/// There is no memory left.
pub fn parts_of(alloc: Global, class: &Class) -> Result<Option<StraightClass>, AllocError>
    ensures { IfOk result (PartsOf class_tree class.now) }
{
    if class.package.is_some() || !class.imports.is_empty() || !class.modifiers.is_empty() {
        return Ok(None);
    }
    members_of(
        alloc,
        &class.name,
        class.members.as_slice(),
        class.places.as_slice(),
    )
}
