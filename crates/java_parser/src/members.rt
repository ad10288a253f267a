//! The rules for what stands around the bodies of methods: package, imports, modifiers, fields, types
//! and parameters.

ghost use Rattle.std.specs.Prelude.{◌≡◌, map, is_some};
ghost use Rattle.java_parser.specs.Words.{ReturnsReading, kinds, kind_of, begins};
ghost use Rattle.java_parser.specs.Members as spec;

use crate::error::Refusal;
use crate::lists::listed;
use crate::words::{Wanted, after, begins, name};
use java_tree::{
    Field, FieldModifier, Import, Kind, Modifier, Param, QualifiedName, Reserved, ResultType,
    Symbol, Token, TypeName,
};
use sdg_base::Name;
use sqlite_items::Items;
use std::alloc::Global;

/// Whether this word stands behind the first token.
#[tactic(auto, unfolding(crate::specs::Members::behind))]
pub(crate) fn begins_behind(tokens: &[Token], wanted: Wanted<'_>) -> bool
    ensures { result ≡ spec.behind (begins (kind_of wanted.entry)) (kinds tokens.now) }
{
    match tokens {
        [] => false,
        [_, rest @ ..] => begins(rest, wanted),
    }
}

/// Words that may be left out, of which the first tells whether they are there.
#[tactic(auto, unfolding(crate::specs::Members::optional_at))]
pub(crate) fn optional<'t>(
    tokens: &'t [Token],
    first: Wanted<'_>,
    others: &[Wanted<'_>],
) -> Result<(bool, &'t [Token]), Refusal>
    ensures { ReturnsReading (λ x. (x.0, kinds x.1.now)) result (spec.optional_at (kind_of first.entry) (map kind_of others.now) (kinds tokens.now)) }
{
    if !begins(tokens, first) {
        return Ok((false, tokens));
    }
    let rest = after(tokens, &[first])?;
    let rest = after(rest, others)?;
    Ok((true, rest))
}

#[tactic(auto, unfolding(crate::specs::Members::dotted_at))]
fn dotted(alloc: Global, tokens: &[Token]) -> Result<(Name, &[Token]), Refusal>
    ensures { ReturnsReading (λ x. (x.0, kinds x.1.now)) result (spec.dotted_at (kinds tokens.now)) }
{
    let rest = after(tokens, &[Wanted::Symbol(Symbol::Dot)])?;
    name(alloc, rest)
}

#[tactic(auto, unfolding(crate::specs::Members::has_dotted))]
fn has_dotted(is_import: bool, tokens: &[Token]) -> bool
    ensures { result ≡ spec.has_dotted is_import (kinds tokens.now) }
{
    begins(tokens, Wanted::Symbol(Symbol::Dot))
        && !(is_import && begins_behind(tokens, Wanted::Symbol(Symbol::Star)))
}

/// The names behind the first. Each takes a token, so there are no more turns than tokens.
fn names(
    alloc: Global,
    is_import: bool,
    tokens: &[Token],
) -> Result<(Items<Name>, &[Token]), Refusal>
    ensures { ReturnsReading (λ x. (x.0, kinds x.1.now)) result (spec.names_at is_import (kinds tokens.now)) }
{
    let mut names = Items::new(alloc);
    let mut rest = tokens;
    for _ in 0..tokens.len() {
        if !has_dotted(is_import, rest) {
            return Ok((names, rest));
        }
        let (name, behind) = dotted(alloc, rest)?;
        names.push(name)?;
        rest = behind;
    }
    Err(Refusal::NoClass { left: rest.len() })
}

#[tactic(auto, unfolding(crate::specs::Members::qualified_at))]
fn qualified(
    alloc: Global,
    is_import: bool,
    tokens: &[Token],
) -> Result<(QualifiedName, &[Token]), Refusal>
    ensures { ReturnsReading (λ x. (x.0, kinds x.1.now)) result (spec.qualified_at is_import (kinds tokens.now)) }
{
    let (first, rest) = name(alloc, tokens)?;
    let (others, rest) = names(alloc, is_import, rest)?;
    Ok((QualifiedName { first, others }, rest))
}

#[tactic(auto, unfolding(crate::specs::Members::package_at))]
pub(crate) fn package(
    alloc: Global,
    tokens: &[Token],
) -> Result<(Option<QualifiedName>, &[Token]), Refusal>
    ensures { ReturnsReading (λ x. (x.0, kinds x.1.now)) result (spec.package_at (kinds tokens.now)) }
{
    if !begins(tokens, Wanted::Reserved(Reserved::Package)) {
        return Ok((None, tokens));
    }
    let rest = after(tokens, &[Wanted::Reserved(Reserved::Package)])?;
    let (name, rest) = qualified(alloc, false, rest)?;
    let rest = after(rest, &[Wanted::Symbol(Symbol::Semicolon)])?;
    Ok((Some(name), rest))
}

#[tactic(auto, unfolding(crate::specs::Members::import_at))]
fn import(alloc: Global, tokens: &[Token]) -> Result<(Import, &[Token]), Refusal>
    ensures { ReturnsReading (λ x. (x.0, kinds x.1.now)) result (spec.import_at (kinds tokens.now)) }
{
    let rest = after(tokens, &[Wanted::Reserved(Reserved::Import)])?;
    let (is_static, rest) = optional(rest, Wanted::Reserved(Reserved::Static), &[])?;
    let (name, rest) = qualified(alloc, true, rest)?;
    let (is_on_demand, rest) = optional(
        rest,
        Wanted::Symbol(Symbol::Dot),
        &[Wanted::Symbol(Symbol::Star)],
    )?;
    let rest = after(rest, &[Wanted::Symbol(Symbol::Semicolon)])?;
    Ok((
        Import {
            is_static,
            name,
            is_on_demand,
        },
        rest,
    ))
}

/// The imports. Each takes a token, so there are no more turns than tokens.
pub(crate) fn imports(alloc: Global, tokens: &[Token]) -> Result<(Items<Import>, &[Token]), Refusal>
    ensures { ReturnsReading (λ x. (x.0, kinds x.1.now)) result (spec.imports_at (kinds tokens.now)) }
{
    let mut imports = Items::new(alloc);
    let mut rest = tokens;
    for _ in 0..tokens.len() {
        if !begins(rest, Wanted::Reserved(Reserved::Import)) {
            return Ok((imports, rest));
        }
        let (import, behind) = import(alloc, rest)?;
        imports.push(import)?;
        rest = behind;
    }
    Err(Refusal::NoClass { left: rest.len() })
}

fn modifier_of(word: Reserved) -> Option<Modifier>
    ensures { result ≡ spec.modifier_of word }
{
    match word {
        Reserved::Public => Some(Modifier::Public),
        Reserved::Private => Some(Modifier::Private),
        Reserved::Static => Some(Modifier::Static),
        _ => None,
    }
}

#[tactic(auto, unfolding(crate::specs::Members::modifier_ahead))]
fn modifier_ahead(tokens: &[Token]) -> Option<Modifier>
    ensures { result ≡ spec.modifier_ahead (kinds tokens.now) }
{
    match tokens {
        [
            Token {
                kind: Kind::Reserved(word),
                ..
            },
            ..
        ] => modifier_of(*word),
        _ => None,
    }
}

fn has_modifier(tokens: &[Token]) -> bool
    ensures { result ≡ spec.has_modifier (kinds tokens.now) }
{
    modifier_ahead(tokens).is_some()
}

/// A thing that the first token alone is.
#[tactic(auto, unfolding(crate::specs::Members::first_is))]
fn first_is<T: Copy>(thing: Option<T>, tokens: &[Token]) -> Result<(T, &[Token]), Refusal>
    ensures { ReturnsReading (λ x. (x.0, kinds x.1.now)) result (spec.first_is thing (kinds tokens.now)) }
{
    match (thing, tokens) {
        (Some(thing), [_, rest @ ..]) => Ok((thing, rest)),
        _ => Err(Refusal::NoClass { left: tokens.len() }),
    }
}

#[tactic(auto, unfolding(crate::specs::Members::modifier_at))]
fn modifier(tokens: &[Token]) -> Result<(Modifier, &[Token]), Refusal>
    ensures { ReturnsReading (λ x. (x.0, kinds x.1.now)) result (spec.modifier_at (kinds tokens.now)) }
{
    first_is(modifier_ahead(tokens), tokens)
}

/// The modifiers of a class or a method. Each takes a token, so there are no more turns than tokens.
pub(crate) fn modifiers(
    alloc: Global,
    tokens: &[Token],
) -> Result<(Items<Modifier>, &[Token]), Refusal>
    ensures { ReturnsReading (λ x. (x.0, kinds x.1.now)) result (spec.modifiers_at (kinds tokens.now)) }
{
    let mut modifiers = Items::new(alloc);
    let mut rest = tokens;
    for _ in 0..tokens.len() {
        if !has_modifier(rest) {
            return Ok((modifiers, rest));
        }
        let (modifier, behind) = modifier(rest)?;
        modifiers.push(modifier)?;
        rest = behind;
    }
    Err(Refusal::NoClass { left: rest.len() })
}

/// The tokens after `@` and this name.
#[tactic(auto, unfolding(crate::specs::Members::annotated))]
pub(crate) fn annotated<'t>(tokens: &'t [Token], name: &[u8]) -> Result<&'t [Token], Refusal>
    ensures { ReturnsReading (λ rest. kinds rest.now) result (spec.annotated name.now (kinds tokens.now)) }
{
    after(tokens, &[Wanted::Symbol(Symbol::At), Wanted::Name(name)])
}

/// Whether this name stands behind the first token.
#[tactic(auto, unfolding(crate::specs::Members::is_named))]
pub(crate) fn is_named(tokens: &[Token], name: &[u8]) -> bool
    ensures { result ≡ spec.is_named name.now (kinds tokens.now) }
{
    begins_behind(tokens, Wanted::Name(name))
}

#[tactic(auto, unfolding(crate::specs::Members::annotation_at))]
fn annotation(tokens: &[Token]) -> Result<(FieldModifier, &[Token]), Refusal>
    ensures { ReturnsReading (λ x. (x.0, kinds x.1.now)) result (spec.annotation_at (kinds tokens.now)) }
{
    if is_named(tokens, b"Partitioned") {
        let rest = annotated(tokens, b"Partitioned")?;
        return Ok((FieldModifier::Partitioned, rest));
    }
    let rest = annotated(tokens, b"Partial")?;
    Ok((FieldModifier::Partial, rest))
}

#[tactic(auto, unfolding(crate::specs::Members::access_of))]
fn access_of(modifier: Modifier) -> Option<FieldModifier>
    ensures { result ≡ spec.access_of modifier }
{
    match modifier {
        Modifier::Public => Some(FieldModifier::Public),
        Modifier::Private => Some(FieldModifier::Private),
        Modifier::Static => None,
    }
}

#[tactic(auto, unfolding(crate::specs::Members::access_ahead))]
pub(crate) fn access_ahead(tokens: &[Token]) -> Option<FieldModifier>
    ensures { result ≡ spec.access_ahead (kinds tokens.now) }
{
    match modifier_ahead(tokens) {
        Some(modifier) => access_of(modifier),
        None => None,
    }
}

#[tactic(auto, unfolding(crate::specs::Members::has_field_modifier))]
fn has_field_modifier(tokens: &[Token]) -> bool
    ensures { result ≡ spec.has_field_modifier (kinds tokens.now) }
{
    begins(tokens, Wanted::Symbol(Symbol::At)) || access_ahead(tokens).is_some()
}

#[tactic(auto, unfolding(crate::specs::Members::field_modifier_at))]
fn field_modifier(tokens: &[Token]) -> Result<(FieldModifier, &[Token]), Refusal>
    ensures { ReturnsReading (λ x. (x.0, kinds x.1.now)) result (spec.field_modifier_at (kinds tokens.now)) }
{
    if begins(tokens, Wanted::Symbol(Symbol::At)) {
        annotation(tokens)
    } else {
        first_is(access_ahead(tokens), tokens)
    }
}

/// The modifiers of a field. Each takes a token, so there are no more turns than tokens.
fn field_modifiers(
    alloc: Global,
    tokens: &[Token],
) -> Result<(Items<FieldModifier>, &[Token]), Refusal>
    ensures { ReturnsReading (λ x. (x.0, kinds x.1.now)) result (spec.field_modifiers_at (kinds tokens.now)) }
{
    let mut modifiers = Items::new(alloc);
    let mut rest = tokens;
    for _ in 0..tokens.len() {
        if !has_field_modifier(rest) {
            return Ok((modifiers, rest));
        }
        let (modifier, behind) = field_modifier(rest)?;
        modifiers.push(modifier)?;
        rest = behind;
    }
    Err(Refusal::NoClass { left: rest.len() })
}

#[tactic(auto, unfolding(crate::specs::Members::field_at))]
pub(crate) fn field(alloc: Global, tokens: &[Token]) -> Result<(Field, &[Token]), Refusal>
    ensures { ReturnsReading (λ x. (x.0, kinds x.1.now)) result (spec.field_at (kinds tokens.now)) }
{
    let (modifiers, rest) = field_modifiers(alloc, tokens)?;
    let (type_name, rest) = name(alloc, rest)?;
    let (called, rest) = name(alloc, rest)?;
    let rest = after(
        rest,
        &[
            Wanted::Symbol(Symbol::Assign),
            Wanted::Reserved(Reserved::New),
        ],
    )?;
    let (maker, rest) = name(alloc, rest)?;
    let rest = after(
        rest,
        &[
            Wanted::Symbol(Symbol::OpenParen),
            Wanted::Symbol(Symbol::CloseParen),
            Wanted::Symbol(Symbol::Semicolon),
        ],
    )?;
    Ok((
        Field {
            modifiers,
            type_name,
            name: called,
            maker,
        },
        rest,
    ))
}

pub(crate) fn type_of(word: Reserved) -> Option<TypeName>
    ensures { result ≡ spec.type_of word }
{
    match word {
        Reserved::Int => Some(TypeName::Int),
        Reserved::Long => Some(TypeName::Long),
        Reserved::Boolean => Some(TypeName::Boolean),
        _ => None,
    }
}

#[tactic(auto, unfolding(crate::specs::Members::type_at, crate::specs::Members::type_ahead, crate::specs::Members::first_is))]
pub(crate) fn type_name(alloc: Global, tokens: &[Token]) -> Result<(TypeName, &[Token]), Refusal>
    ensures { ReturnsReading (λ x. (x.0, kinds x.1.now)) result (spec.type_at (kinds tokens.now)) }
{
    match tokens {
        [
            Token {
                kind: Kind::Identifier(name),
                ..
            },
            rest @ ..,
        ] => {
            let name = Items::from_slice(alloc, name.as_slice())?;
            Ok((TypeName::Named(name), rest))
        }
        [
            Token {
                kind: Kind::Reserved(word),
                ..
            },
            rest @ ..,
        ] => match type_of(*word) {
            Some(found) => Ok((found, rest)),
            None => Err(Refusal::NoClass { left: tokens.len() }),
        },
        _ => Err(Refusal::NoClass { left: tokens.len() }),
    }
}

#[tactic(auto, unfolding(crate::specs::Members::result_at))]
pub(crate) fn result_type(
    alloc: Global,
    tokens: &[Token],
) -> Result<(ResultType, &[Token]), Refusal>
    ensures { ReturnsReading (λ x. (x.0, kinds x.1.now)) result (spec.result_at (kinds tokens.now)) }
{
    if begins(tokens, Wanted::Reserved(Reserved::Void)) {
        let rest = after(tokens, &[Wanted::Reserved(Reserved::Void)])?;
        return Ok((ResultType::Void, rest));
    }
    let (found, rest) = type_name(alloc, tokens)?;
    Ok((ResultType::Type(found), rest))
}

#[tactic(auto, unfolding(crate::specs::Members::param_at))]
fn param(alloc: Global, tokens: &[Token]) -> Result<(Param, &[Token]), Refusal>
    ensures { ReturnsReading (λ x. (x.0, kinds x.1.now)) result (spec.param_at (kinds tokens.now)) }
{
    let (is_collection, rest) = optional(
        tokens,
        Wanted::Symbol(Symbol::At),
        &[Wanted::Name(b"Collection")],
    )?;
    let (type_name, rest) = type_name(alloc, rest)?;
    let (is_array, rest) = optional(
        rest,
        Wanted::Symbol(Symbol::OpenBracket),
        &[Wanted::Symbol(Symbol::CloseBracket)],
    )?;
    let (name, rest) = name(alloc, rest)?;
    Ok((
        Param {
            is_collection,
            type_name,
            is_array,
            name,
        },
        rest,
    ))
}

#[tactic(auto, unfolding(crate::specs::Members::other_param_at))]
fn other_param(alloc: Global, tokens: &[Token]) -> Result<(Param, &[Token]), Refusal>
    ensures { ReturnsReading (λ x. (x.0, kinds x.1.now)) result (spec.other_param_at (kinds tokens.now)) }
{
    let rest = after(tokens, &[Wanted::Symbol(Symbol::Comma)])?;
    param(alloc, rest)
}

/// The parameters behind the first. Each takes a token, so there are no more turns than tokens.
fn other_params(alloc: Global, tokens: &[Token]) -> Result<(Items<Param>, &[Token]), Refusal>
    ensures { ReturnsReading (λ x. (x.0, kinds x.1.now)) result (spec.other_params_at (kinds tokens.now)) }
{
    let mut params = Items::new(alloc);
    let mut rest = tokens;
    for _ in 0..tokens.len() {
        if !begins(rest, Wanted::Symbol(Symbol::Comma)) {
            return Ok((params, rest));
        }
        let (param, behind) = other_param(alloc, rest)?;
        params.push(param)?;
        rest = behind;
    }
    Err(Refusal::NoClass { left: rest.len() })
}

#[tactic(auto, unfolding(crate::specs::Members::params_at))]
pub(crate) fn params(alloc: Global, tokens: &[Token]) -> Result<(Items<Param>, &[Token]), Refusal>
    ensures { ReturnsReading (λ x. (x.0, kinds x.1.now)) result (spec.params_at (kinds tokens.now)) }
{
    if begins(tokens, Wanted::Symbol(Symbol::CloseParen)) {
        return Ok((Items::new(alloc), tokens));
    }
    let (first, rest) = param(alloc, tokens)?;
    let (others, rest) = other_params(alloc, rest)?;
    Ok((listed(alloc, first, others)?, rest))
}
