//! Fields and methods.

ghost use Rattle.std.specs.Prelude.{◌≡◌, not, nat_eq, OnOk};
ghost use Rattle.std.specs.List.{list_any};
ghost use Rattle.annotations.specs.Kinds.{is_partitioned_modifier, kind_of_field};
ghost use Rattle.annotations.specs.Members as spec;

use crate::site::FieldKind;
use crate::statements::block;
use crate::walk::{Env, Walk};
use java_tree::{
    Class, Field, FieldModifier, Import, Member, Method, MethodKind, Param, QualifiedName, kind_of,
    words,
};
use sdg_base::ClassName;
use sqlite_items::Items;
use std::alloc::{AllocError, Global};

fn is_partitioned_modifier(modifier: FieldModifier) -> bool
    ensures { result ≡ is_partitioned_modifier modifier }
{
    matches!(modifier, FieldModifier::Partitioned)
}

fn is_annotation(modifier: FieldModifier) -> bool
    ensures { result ≡ spec.is_annotation modifier }
{
    match modifier {
        FieldModifier::Partitioned | FieldModifier::Partial => true,
        FieldModifier::Public | FieldModifier::Private => false,
    }
}

fn is_partitioned(modifiers: &[FieldModifier]) -> bool
    ensures { result ≡ list_any is_partitioned_modifier modifiers.now }
{
    modifiers.iter().any(|m| is_partitioned_modifier(*m))
}

/// The kind of a field, if it has one.
pub fn kind_of_field(field: &Field) -> FieldKind
    ensures { result ≡ kind_of_field field.now }
{
    if is_partitioned(field.modifiers.as_slice()) {
        FieldKind::Partitioned
    } else {
        FieldKind::Partial
    }
}

/// Whether there is exactly one annotation.
fn is_annotated(modifiers: &[FieldModifier]) -> bool
    ensures { result ≡ nat_eq (spec.annotations modifiers.now) 1 }
{
    let mut count: usize = 0;
    for modifier in modifiers {
        if is_annotation(*modifier) {
            count += 1;
        }
    }
    count == 1
}

fn is_counter(class: Option<ClassName>) -> bool
    ensures { result ≡ spec.is_counter class }
{
    matches!(class, Some(ClassName::Counter))
}

/// Begins a field of this kind.
fn meet(walk: &mut Walk, kind: FieldKind)
    ensures { walk.new ≡ spec.met kind walk.old }
{
    if let FieldKind::Partial = kind
        && walk.partial.is_none()
    {
        walk.partial = Some(walk.at);
    }
}

#[tactic(auto, unfolding(crate::specs::Members::field_walk))]
fn field(env: &Env, walk: &mut Walk, f: &Field) -> Result<(), AllocError>
    ensures { OnOk result (walk.new ≡ spec.field_walk env.now f.now walk.old) }
{
    meet(walk, kind_of_field(f));
    let at = walk.at;
    let class = words::state_class(f.type_name.as_slice());
    let partitioned = is_partitioned(f.modifiers.as_slice());
    walk.note(!is_annotated(f.modifiers.as_slice()), at, 1)?;
    walk.note(partitioned && is_counter(class), at, 2)?;
    for modifier in f.modifiers.as_slice() {
        walk.pass_if(env, is_annotation(*modifier), 1);
        walk.pass(env, 1);
    }
    walk.pass(env, 8);
    Ok(())
}

/// A parameter, with the token before it.
#[tactic(auto, unfolding(crate::specs::Members::param_walk, crate::specs::Walks::noted))]
fn param(env: &Env, walk: &mut Walk, p: &Param) -> Result<(), AllocError>
    ensures { OnOk result (walk.new ≡ spec.param_walk env.now walk.old p.now) }
{
    walk.pass(env, 1);
    let at = walk.at;
    walk.note(p.is_array && !p.is_collection, at, 11)?;
    walk.collections.push(p.is_array)?;
    walk.pass_if(env, p.is_collection, 2);
    walk.pass_if(env, p.is_array, 2);
    walk.pass(env, 2);
    Ok(())
}

#[tactic(auto, unfolding(crate::specs::Members::params_walk))]
fn params(env: &Env, walk: &mut Walk, all: &[Param]) -> Result<(), AllocError>
    ensures { OnOk result (walk.new ≡ spec.params_walk env.now all.now walk.old) }
{
    for p in all {
        param(env, walk, p)?;
    }
    walk.pass_if(env, all.is_empty(), 1);
    walk.pass(env, 1);
    Ok(())
}

fn is_entry(kind: MethodKind) -> bool
    ensures { result ≡ spec.is_entry kind }
{
    match kind {
        MethodKind::Entry => true,
        MethodKind::Helper | MethodKind::Merge => false,
    }
}

/// Begins a method, where no name has a meaning yet.
#[tactic(auto, unfolding(crate::specs::Members::entered))]
fn enter(alloc: Global, walk: &mut Walk, in_entry: bool)
    ensures { walk.new ≡ spec.entered in_entry walk.old }
{
    walk.in_entry = in_entry;
    walk.collections = Items::new(alloc);
    walk.locals = Items::new(alloc);
}

fn takes_collection(params: &[Param]) -> bool
    ensures { result ≡ list_any (λ p. p.is_collection) params.now }
{
    params.iter().any(|p| p.is_collection)
}

fn takes_no_array(params: &[Param]) -> bool
    ensures { result ≡ list_any (λ p. not p.is_array) params.now }
{
    params.iter().any(|p| !p.is_array)
}

fn is_ill_collected(params: &[Param]) -> bool
    ensures { result ≡ spec.is_ill_collected params.now }
{
    takes_collection(params) && (params.len() != 1 || takes_no_array(params))
}

#[tactic(auto, unfolding(crate::specs::Members::method_walk))]
fn method(alloc: Global, env: &Env, walk: &mut Walk, m: &Method) -> Result<(), AllocError>
    ensures { OnOk result (walk.new ≡ spec.method_walk env.now m.now walk.old) }
{
    let at = walk.at;
    walk.note(is_ill_collected(m.params.as_slice()), at, 11)?;
    enter(alloc, walk, is_entry(kind_of(m)));
    walk.pass(env, m.modifiers.len());
    walk.pass(env, 2);
    params(env, walk, m.params.as_slice())?;
    block(env, walk, m.body.as_slice())
}

fn member(alloc: Global, env: &Env, walk: &mut Walk, m: &Member) -> Result<(), AllocError>
    ensures { OnOk result (walk.new ≡ spec.member_walk env.now walk.old m.now) }
{
    match m {
        Member::Field(f) => field(env, walk, f),
        Member::Method(m) => method(alloc, env, walk, m),
    }
}

#[tactic(auto, unfolding(crate::specs::Members::past_qualified))]
fn pass_qualified(env: &Env, walk: &mut Walk, name: &QualifiedName)
    ensures { walk.new ≡ spec.past_qualified env.now name.now walk.old }
{
    walk.pass(env, 1);
    walk.pass(env, name.others.len());
    walk.pass(env, name.others.len());
}

fn pass_package(env: &Env, walk: &mut Walk, name: &Option<QualifiedName>)
    ensures { walk.new ≡ spec.past_package env.now name.now walk.old }
{
    if let Some(name) = name {
        walk.pass(env, 2);
        pass_qualified(env, walk, name);
    }
}

#[tactic(auto, unfolding(crate::specs::Members::past_import))]
fn pass_import(env: &Env, walk: &mut Walk, import: &Import)
    ensures { walk.new ≡ spec.past_import env.now walk.old import.now }
{
    walk.pass(env, 2);
    walk.pass_if(env, import.is_static, 1);
    pass_qualified(env, walk, &import.name);
    walk.pass_if(env, import.is_on_demand, 2);
}

/// Goes up to the first member.
#[tactic(auto, unfolding(crate::specs::Members::past_head))]
fn pass_head(env: &Env, walk: &mut Walk, class: &Class)
    ensures { walk.new ≡ spec.past_head env.now class.now walk.old }
{
    pass_package(env, walk, &class.package);
    for import in class.imports.as_slice() {
        pass_import(env, walk, import);
    }
    walk.pass(env, class.modifiers.len());
    walk.pass(env, 3);
}

/// Goes behind the last member.
pub fn members(alloc: Global, env: &Env, walk: &mut Walk, class: &Class) -> Result<(), AllocError>
    ensures { OnOk result (walk.new ≡ spec.members_walk env.now class.now walk.old) }
{
    pass_head(env, walk, class);
    for m in class.members.as_slice() {
        member(alloc, env, walk, m)?;
    }
    Ok(())
}
