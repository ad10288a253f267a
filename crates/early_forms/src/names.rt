//! Names of declarations: which are distinct and free, and whether a class is proper.

ghost use Rattle.std.specs.Prelude.{◌≡◌, ◌↔◌, ◌∷◌, ◌++◌, ◌<◌, ◌≤◌, ◌^◌, map, length, IsTrue, IfOk, OnOk, All, Contains};
ghost use Rattle.std.specs.List.{Any};
ghost use Rattle.early_forms.specs.Names.{class_names, AreFree, AreDistinct, MethodIsProper, IsProper, HasFormSize, declared_names, locals, variables};

use crate::scope::{body_is_known, declared_by};
use crate::straight::{Statement, StraightClass, StraightMethod};
use sdg_base::Name;
use std::alloc::{AllocError, Global};
use std::collections::BTreeSet;

const FIELDS_MAX: usize = 2;

/// As many methods as a number of 16 bits can name.
const METHODS_MAX: usize = 0x1_0000;

fn are_distinct(alloc: Global, names: &[&[u8]]) -> Result<bool, AllocError>
    ensures { IfOk result (λ b. IsTrue b ↔ AreDistinct (map (λ name. name.now) names.now)) }
{
    let mut seen = BTreeSet::new(alloc);
    for name in names {
        if !seen.insert(*name)? {
            return Ok(false);
        }
    }
    Ok(true)
}

/// Whether it is the name of a class that holds state, or of the vector.
fn is_class_name(name: &[u8]) -> bool
    ensures { IsTrue result ↔ Contains class_names name.now }
{
    matches!(name, b"Table" | b"Matrix" | b"Counter" | b"Vector")
}

fn has_class_name(names: &[&[u8]]) -> bool
    ensures { IsTrue result ↔ Any (λ name. Contains class_names name.now) names.now }
{
    names.iter().any(|name| is_class_name(name))
}

fn are_free(names: &[&[u8]]) -> bool
    ensures { IsTrue result ↔ AreFree (map (λ name. name.now) names.now) }
{
    !has_class_name(names)
}

fn add_names<'a>(texts: &mut Vec<&'a [u8]>, names: &'a [Name]) -> Result<(), AllocError>
    ensures { OnOk result (map (λ text. text.now) texts.new.items ≡ map (λ text. text.now) texts.old.items ++ names.now) }
{
    for name in names {
        texts.push(name.as_slice())?;
    }
    Ok(())
}

fn add_local<'a>(texts: &mut Vec<&'a [u8]>, statement: &'a Statement) -> Result<(), AllocError>
    ensures { OnOk result (map (λ text. text.now) texts.new.items ≡ map (λ text. text.now) texts.old.items ++ declared_names statement.now) }
{
    if let Some(local) = declared_by(statement) {
        texts.push(local.as_slice())?;
    }
    Ok(())
}

fn add_locals<'a>(texts: &mut Vec<&'a [u8]>, statements: &'a [Statement]) -> Result<(), AllocError>
    ensures { OnOk result (map (λ text. text.now) texts.new.items ≡ map (λ text. text.now) texts.old.items ++ locals statements.now) }
{
    for statement in statements {
        add_local(texts, statement)?;
    }
    Ok(())
}

fn texts_of(alloc: Global, names: &[Name]) -> Result<Vec<&[u8]>, AllocError>
    ensures { IfOk result (λ v. map (λ text. text.now) v.items ≡ names.now) }
{
    let mut texts = Vec::new(alloc);
    add_names(&mut texts, names)?;
    Ok(texts)
}

/// Names, and behind them those of the method's variables.
fn names_with<'a>(
    alloc: Global,
    first: &'a [Name],
    method: &'a StraightMethod,
) -> Result<Vec<&'a [u8]>, AllocError>
    ensures { IfOk result (λ v. map (λ text. text.now) v.items ≡ first.now ++ variables method.now) }
{
    let mut texts = texts_of(alloc, first)?;
    add_names(&mut texts, method.parameters.as_slice())?;
    add_locals(&mut texts, method.statements.as_slice())?;
    Ok(texts)
}

fn names_after<'a>(
    alloc: Global,
    first: &'a Name,
    names: &'a [Name],
) -> Result<Vec<&'a [u8]>, AllocError>
    ensures { IfOk result (λ v. map (λ text. text.now) v.items ≡ first.now ∷ names.now) }
{
    let mut texts = texts_of(alloc, names)?;
    texts.insert(0, first.as_slice())?;
    Ok(texts)
}

/// The names of a method: its own, and those of its variables.
fn names_of(alloc: Global, method: &StraightMethod) -> Result<Vec<&[u8]>, AllocError>
    ensures { IfOk result (λ v. map (λ text. text.now) v.items ≡ (method.now).name ∷ variables method.now) }
{
    let mut texts = names_after(alloc, &method.name, method.parameters.as_slice())?;
    add_locals(&mut texts, method.statements.as_slice())?;
    Ok(texts)
}

fn method_is_proper(
    alloc: Global,
    fields: &[Name],
    method: &StraightMethod,
) -> Result<bool, AllocError>
    ensures { IfOk result (λ b. IsTrue b ↔ MethodIsProper fields.now method.now) }
{
    let in_class = names_with(alloc, fields, method)?;
    if !are_distinct(alloc, in_class.as_slice())? {
        return Ok(false);
    }
    if !body_is_known(alloc, fields, method)? {
        return Ok(false);
    }
    let own = names_of(alloc, method)?;
    Ok(are_free(own.as_slice()))
}

fn methods_are_proper(
    alloc: Global,
    fields: &[Name],
    methods: &[StraightMethod],
) -> Result<bool, AllocError>
    ensures { IfOk result (λ b. IsTrue b ↔ All (MethodIsProper fields.now) methods.now) }
{
    for method in methods {
        if !method_is_proper(alloc, fields, method)? {
            return Ok(false);
        }
    }
    Ok(true)
}

#[tactic(auto, using(crate::proofs::Maps::maps_more, std::proofs::lemmas::List::take_all))]
fn method_names(alloc: Global, methods: &[StraightMethod]) -> Result<Vec<&[u8]>, AllocError>
    ensures { IfOk result (λ v. map (λ text. text.now) v.items ≡ map (λ m. m.name) methods.now) }
{
    let mut names = Vec::new(alloc);
    for method in methods {
        names.push(method.name.as_slice())?;
    }
    Ok(names)
}

fn methods_differ(alloc: Global, methods: &[StraightMethod]) -> Result<bool, AllocError>
    ensures { IfOk result (λ b. IsTrue b ↔ AreDistinct (map (λ m. m.name) methods.now)) }
{
    let names = method_names(alloc, methods)?;
    are_distinct(alloc, names.as_slice())
}

fn fields_differ(alloc: Global, fields: &[Name]) -> Result<bool, AllocError>
    ensures { IfOk result (λ b. IsTrue b ↔ AreDistinct fields.now) }
{
    let names = texts_of(alloc, fields)?;
    are_distinct(alloc, names.as_slice())
}

fn class_is_free(alloc: Global, class: &StraightClass) -> Result<bool, AllocError>
    ensures { let c = class.now in IfOk result (λ b. IsTrue b ↔ AreFree (c.name ∷ c.fields)) }
{
    let names = names_after(alloc, &class.name, class.fields.as_slice())?;
    Ok(are_free(names.as_slice()))
}

fn has_form_size(class: &StraightClass) -> bool
    ensures { IsTrue result ↔ HasFormSize class.now }
{
    let fields = class.fields.len();
    0 < fields && fields <= FIELDS_MAX && class.methods.len() <= METHODS_MAX
}

/// Whether the sizes, names and literals of a class are such that it means something: it has one or
/// two fields and not too many methods, its fields have different names and so have its methods, no
/// parameter or local has the name of another or of a field, each variable is read only where it is
/// declared before, each literal is of type `int` (JLS 3.10.1), and nothing has the name of the
/// vector or of a class that holds state.
///
/// # Errors
///
/// There is no memory left.
pub fn is_proper(alloc: Global, class: &StraightClass) -> Result<bool, AllocError>
    ensures { IfOk result (λ b. IsTrue b ↔ IsProper class.now) }
{
    let fields = class.fields.as_slice();
    let methods = class.methods.as_slice();
    if !has_form_size(class) || !fields_differ(alloc, fields)? {
        return Ok(false);
    }
    if !methods_differ(alloc, methods)? || !methods_are_proper(alloc, fields, methods)? {
        return Ok(false);
    }
    class_is_free(alloc, class)
}
