//! The fields and methods of a class.

ghost use Rattle.std.specs.Prelude.{◌≡◌, not, map, IfOk, OnOk};
ghost use Rattle.std.specs.List.{list_any};
ghost use Rattle.java_tree.specs.declared.tree.Member.TheVariants as members;
ghost use Rattle.java_types.specs.Declarations as spec;
ghost use Rattle.java_types.specs.Check.{env_of};
ghost use Rattle.java_types.specs.Fits.{is_known};

use crate::calls::METHODS_MAX;
use crate::fits;
use crate::names::Names;
use crate::simples::declared_type;
use crate::walk::{Env, Signature, Variable};
use java_tree::{
    Class, Declaration, ExprType, Field, Member, Method, Param, ResultType, kind_of, words,
};
use sdg_base::ClassName;
use sqlite_items::Items;
use std::alloc::{AllocError, Global};

/// How many fields a class may have.
pub const FIELDS_MAX: usize = 64;

fn state_or_none(class: Option<ClassName>) -> ExprType
    ensures { result ≡ spec.state_or_none class }
{
    match class {
        Some(class) => ExprType::State(class),
        None => ExprType::Unknown,
    }
}

fn field_type(number: usize, field: &Field) -> ExprType
    ensures { result ≡ spec.field_type number field.now }
{
    let is_reserved = words::is_reserved(field.name.as_slice());
    let is_of_maker = words::is_text(field.type_name.as_slice(), field.maker.as_slice());
    if is_reserved || (FIELDS_MAX <= number || !is_of_maker) {
        ExprType::Unknown
    } else {
        state_or_none(words::state_class(field.type_name.as_slice()))
    }
}

pub fn result_type(r: &ResultType) -> ExprType
    ensures { result ≡ spec.result_type r.now }
{
    match r {
        ResultType::Void => ExprType::Void,
        ResultType::Type(name) => declared_type(name),
    }
}

fn collection_of(found: ExprType) -> ExprType
    ensures { result ≡ spec.collection_of found }
{
    match found {
        ExprType::Value(item) => ExprType::Collection(item),
        _ => ExprType::Unknown,
    }
}

pub fn param_type(param: &Param) -> ExprType
    ensures { result ≡ spec.param_type param.now }
{
    let found = declared_type(&param.type_name);
    if param.is_array {
        collection_of(found)
    } else {
        found
    }
}

fn has_no_type(param: &Param) -> bool
    ensures { result ≡ not (is_known (spec.param_type param.now)) }
{
    !fits::is_known(param_type(param))
}

fn have_no_type(params: &[Param]) -> bool
    ensures { result ≡ list_any (λ p. not (is_known (spec.param_type p))) params.now }
{
    params.iter().any(has_no_type)
}

fn is_sound(number: usize, method: &Method) -> bool
    ensures { result ≡ spec.is_sound number method.now }
{
    let is_reserved = words::is_reserved(method.name.as_slice());
    let is_typed = fits::is_known(result_type(&method.result));
    !(is_reserved
        || (METHODS_MAX <= number || (!is_typed || have_no_type(method.params.as_slice()))))
}

fn param_types(alloc: Global, params: &[Param]) -> Result<Items<ExprType>, AllocError>
    ensures { IfOk result (λ types. types ≡ map spec.param_type params.now) }
{
    let mut types = Items::new(alloc);
    for param in params {
        types.push(param_type(param))?;
    }
    Ok(types)
}

fn add_field(fields: &mut Names<Variable>, field: &Field) -> Result<(), AllocError>
    ensures { OnOk result (fields.new ≡ spec.with_field fields.old (members.Field field.now)) }
{
    let variable = Variable {
        declaration: Declaration::Field(fields.len()),
        found: field_type(fields.len(), field),
    };
    fields.add(field.name.as_slice(), variable)
}

fn add_method(
    alloc: Global,
    methods: &mut Names<Signature>,
    method: &Method,
) -> Result<(), AllocError>
    ensures { OnOk result (methods.new ≡ spec.with_method methods.old (members.Method method.now)) }
{
    let signature = Signature {
        number: methods.len(),
        is_sound: is_sound(methods.len(), method),
        kind: kind_of(method),
        result: result_type(&method.result),
        params: param_types(alloc, method.params.as_slice())?,
    };
    methods.add(method.name.as_slice(), signature)
}

fn add_member(
    alloc: Global,
    fields: &mut Names<Variable>,
    methods: &mut Names<Signature>,
    member: &Member,
) -> Result<(), AllocError>
    ensures fields { OnOk result (fields.new ≡ spec.with_field fields.old member.now) }
    ensures methods { OnOk result (methods.new ≡ spec.with_method methods.old member.now) }
{
    match member {
        Member::Field(field) => add_field(fields, field),
        Member::Method(method) => add_method(alloc, methods, method),
    }
}

/// What is declared in a class.
pub fn env_of(alloc: Global, class: &Class) -> Result<Env, AllocError>
    ensures { IfOk result (λ env. env ≡ env_of class.now) }
{
    let mut fields = Names::new(alloc);
    let mut methods = Names::new(alloc);
    for member in class.members.as_slice() {
        add_member(alloc, &mut fields, &mut methods, member)?;
    }
    Ok(Env {
        limit: class.places.len(),
        class_name: Items::from_slice(alloc, class.name.as_slice())?,
        fields,
        methods,
    })
}
