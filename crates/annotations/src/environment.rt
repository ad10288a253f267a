//! What is declared in a class.

ghost use Rattle.std.specs.Prelude.{◌≡◌, IfOk, OnOk};
ghost use Rattle.annotations.specs.Kinds.{with_kind};
ghost use Rattle.annotations.specs.Environment as spec;

use crate::members::kind_of_field;
use crate::site::Kinds;
use crate::walk::Env;
use java_tree::{Class, Declaration, Member, MethodKind, kind_of, words};
use sdg_base::ClassName;
use sqlite_items::Items;
use std::alloc::{AllocError, Global};

fn add_member(
    kinds: &mut Kinds,
    classes: &mut Items<Option<ClassName>>,
    methods: &mut Items<MethodKind>,
    member: &Member,
) -> Result<(), AllocError>
    ensures kinds { OnOk result (kinds.new ≡ with_kind kinds.old member.now) }
    ensures classes { OnOk result (classes.new ≡ spec.with_class classes.old member.now) }
    ensures methods { OnOk result (methods.new ≡ spec.with_method methods.old member.now) }
{
    match member {
        Member::Field(field) => {
            kinds.push(kind_of_field(field))?;
            classes.push(words::state_class(field.type_name.as_slice()))
        }
        Member::Method(method) => methods.push(kind_of(method)),
    }
}

/// What is declared in a class, with what its names stand for.
pub fn env_of(alloc: Global, class: &Class, names: Items<Declaration>) -> Result<Env, AllocError>
    ensures { IfOk result (λ env. env ≡ spec.env_of class.now names) }
{
    let mut kinds = Items::new(alloc);
    let mut classes = Items::new(alloc);
    let mut methods = Items::new(alloc);
    for member in class.members.as_slice() {
        add_member(&mut kinds, &mut classes, &mut methods, member)?;
    }
    Ok(Env {
        limit: class.places.len(),
        kinds,
        classes,
        methods,
        names,
    })
}
