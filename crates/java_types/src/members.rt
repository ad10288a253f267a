//! Rules on fields and methods.

ghost use Rattle.std.specs.Prelude.{◌≡◌, OnOk};
ghost use Rattle.java_types.specs.Members as spec;

use crate::calls::METHODS_MAX;
use crate::declarations::{FIELDS_MAX, param_type, result_type};
use crate::names::Names;
use crate::statements::{Around, block};
use crate::walk::{Env, Variable, Walk};
use java_tree::{
    Class, Declaration, Field, FieldModifier, Import, Member, Method, Param, QualifiedName,
    ResultType, words,
};
use sqlite_items::Items;
use std::alloc::{AllocError, Global};

/// The names of the fields and methods that stand before.
#[derive(Drop)]
pub struct Seen {
    pub fields: Names<()>,
    pub methods: Names<()>,
}

fn pass_field_modifier(env: &Env, walk: &mut Walk, modifier: FieldModifier)
    ensures { walk.new ≡ spec.past_field_modifier env.now walk.old modifier }
{
    match modifier {
        FieldModifier::Partitioned | FieldModifier::Partial => walk.pass(env, 2),
        FieldModifier::Public | FieldModifier::Private => walk.pass(env, 1),
    }
}

/// Notes what is wrong with the name of a field or a method, and adds it.
#[tactic(auto, unfolding(crate::specs::Members::named_member))]
fn named_member(
    walk: &mut Walk,
    seen: &mut Names<()>,
    name: &[u8],
    most: usize,
    at: usize,
) -> Result<(), AllocError>
    ensures seen { OnOk result (seen.new ≡ (spec.named_member name.now most at seen.old walk.old).seen) }
    ensures walk { OnOk result (walk.new ≡ (spec.named_member name.now most at seen.old walk.old).walk) }
{
    let twice = seen.get(name).is_some();
    let too_many = !twice && seen.len() >= most;
    walk.note(twice || words::is_reserved(name), at, 2)?;
    walk.note(too_many, at, 14)?;
    seen.add(name, ())
}

#[tactic(auto, unfolding(crate::specs::Members::field_walk))]
fn field(env: &Env, walk: &mut Walk, f: &Field, at: usize) -> Result<(), AllocError>
    ensures { OnOk result (walk.new ≡ spec.field_walk env.now f.now at walk.old) }
{
    let class_name = env.class_name.as_slice();
    let type_name = f.type_name.as_slice();
    let maker = f.maker.as_slice();
    let is_state = words::state_class(type_name).is_some();
    walk.note(!is_state || !words::is_text(type_name, maker), at, 4)?;
    for modifier in f.modifiers.as_slice() {
        pass_field_modifier(env, walk, *modifier);
    }
    let type_at = walk.at;
    walk.note(!words::is_type(class_name, type_name), type_at, 3)?;
    walk.pass(env, 4);
    let maker_at = walk.at;
    walk.note(!words::is_type(class_name, maker), maker_at, 3)?;
    walk.pass(env, 4);
    Ok(())
}

/// A parameter, with the token before it.
#[tactic(auto, unfolding(crate::specs::Members::param_walk))]
fn param(env: &Env, walk: &mut Walk, number: usize, p: &Param) -> Result<(), AllocError>
    ensures { OnOk result (walk.new ≡ spec.param_walk env.now number p.now walk.old) }
{
    walk.pass(env, 1);
    let at = walk.at;
    walk.pass_if(env, p.is_collection, 2);
    walk.typed_name(env, at, &p.type_name)?;
    walk.pass_if(env, p.is_array, 2);
    let variable = Variable {
        declaration: Declaration::Parameter(number),
        found: param_type(p),
    };
    walk.declare(env, at, p.name.as_slice(), variable)
}

#[tactic(auto, unfolding(crate::specs::Members::params_walk))]
fn params(env: &Env, walk: &mut Walk, all: &[Param]) -> Result<(), AllocError>
    ensures { OnOk result (walk.new ≡ spec.params_walk env.now all.now walk.old) }
{
    for (number, p) in all.iter().enumerate() {
        param(env, walk, number, p)?;
    }
    walk.pass_if(env, all.is_empty(), 1);
    walk.pass(env, 1);
    Ok(())
}

fn result_of(env: &Env, walk: &mut Walk, r: &ResultType) -> Result<(), AllocError>
    ensures { OnOk result (walk.new ≡ spec.result_walk env.now r.now walk.old) }
{
    match r {
        ResultType::Void => {
            walk.pass(env, 1);
            Ok(())
        }
        ResultType::Type(name) => {
            let at = walk.at;
            walk.typed_name(env, at, name)?;
            Ok(())
        }
    }
}

/// Begins a method, where nothing is in scope.
#[tactic(auto, unfolding(crate::specs::Members::entered))]
fn enter(alloc: Global, env: &Env, walk: &mut Walk, name: &[u8])
    ensures { walk.new ≡ spec.entered env.now name.now walk.old }
{
    walk.variables = Names::new(alloc);
    walk.locals = Items::new(alloc);
    walk.caller = match env.methods.get(name) {
        Some(signature) => signature.number,
        None => 0,
    };
}

#[tactic(auto, unfolding(crate::specs::Members::method_walk))]
fn method(alloc: Global, env: &Env, walk: &mut Walk, m: &Method) -> Result<(), AllocError>
    ensures { OnOk result (walk.new ≡ spec.method_walk env.now m.now walk.old) }
{
    walk.pass(env, m.modifiers.len());
    result_of(env, walk, &m.result)?;
    walk.pass(env, 1);
    enter(alloc, env, walk, m.name.as_slice());
    params(env, walk, m.params.as_slice())?;
    let around = Around {
        result: result_type(&m.result),
        in_loop: false,
    };
    block(env, walk, around, m.body.as_slice())
}

fn member(
    alloc: Global,
    env: &Env,
    walk: &mut Walk,
    seen: &mut Seen,
    m: &Member,
) -> Result<(), AllocError>
    ensures seen { OnOk result (seen.new ≡ (spec.member_walk env.now (record { seen = seen.old; walk = walk.old }) m.now).seen) }
    ensures walk { OnOk result (walk.new ≡ (spec.member_walk env.now (record { seen = seen.old; walk = walk.old }) m.now).walk) }
{
    let at = walk.at;
    match m {
        Member::Field(f) => {
            named_member(walk, &mut seen.fields, f.name.as_slice(), FIELDS_MAX, at)?;
            field(env, walk, f, at)
        }
        Member::Method(m) => {
            named_member(walk, &mut seen.methods, m.name.as_slice(), METHODS_MAX, at)?;
            method(alloc, env, walk, m)
        }
    }
}

#[tactic(auto, unfolding(crate::specs::Members::past_qualified))]
fn pass_qualified(env: &Env, walk: &mut Walk, name: &QualifiedName)
    ensures { walk.new ≡ spec.past_qualified env.now name.now walk.old }
{
    walk.pass(env, 1);
    walk.pass(env, name.others.len());
    walk.pass(env, name.others.len());
}

fn pass_package(env: &Env, walk: &mut Walk, name: &Option<QualifiedName>)
    ensures { walk.new ≡ spec.past_package env.now name.now walk.old }
{
    if let Some(name) = name {
        walk.pass(env, 2);
        pass_qualified(env, walk, name);
    }
}

#[tactic(auto, unfolding(crate::specs::Members::past_import))]
fn pass_import(env: &Env, walk: &mut Walk, import: &Import)
    ensures { walk.new ≡ spec.past_import env.now walk.old import.now }
{
    walk.pass(env, 2);
    walk.pass_if(env, import.is_static, 1);
    pass_qualified(env, walk, &import.name);
    walk.pass_if(env, import.is_on_demand, 2);
}

/// Goes up to the first member.
#[tactic(auto, unfolding(crate::specs::Members::head_walk))]
fn head(env: &Env, walk: &mut Walk, class: &Class) -> Result<(), AllocError>
    ensures { OnOk result (walk.new ≡ spec.head_walk env.now class.now walk.old) }
{
    walk.note(words::is_reserved(class.name.as_slice()), 0, 2)?;
    pass_package(env, walk, &class.package);
    for import in class.imports.as_slice() {
        pass_import(env, walk, import);
    }
    walk.pass(env, class.modifiers.len());
    walk.pass(env, 3);
    Ok(())
}

pub fn members(alloc: Global, env: &Env, walk: &mut Walk, class: &Class) -> Result<(), AllocError>
    ensures { OnOk result (walk.new ≡ spec.members_walk env.now class.now walk.old) }
{
    let mut seen = Seen {
        fields: Names::new(alloc),
        methods: Names::new(alloc),
    };
    head(env, walk, class)?;
    for m in class.members.as_slice() {
        member(alloc, env, walk, &mut seen, m)?;
    }
    Ok(())
}
