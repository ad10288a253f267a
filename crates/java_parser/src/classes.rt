//! The rules for methods, members and the class.

ghost use Rattle.std.specs.Prelude.{◌≡◌, map, IfOk};
ghost use Rattle.java_parser.specs.Words.{ReturnsReading, kinds};
ghost use Rattle.java_parser.specs.Members.{behind};
ghost use Rattle.java_parser.specs.Classes as spec;

use crate::error::Refusal;
use crate::members::{
    access_ahead, begins_behind, field, imports, modifiers, package, params, result_type,
};
use crate::simples::begins_name;
use crate::statements::{block, has_more};
use crate::words::{Wanted, after, begins, name};
use java_tree::{Class, Member, Method, Place, Reserved, Symbol, Token};
use sqlite_items::Items;
use std::alloc::{AllocError, Global};

/// A name, and `=` behind it.
#[tactic(auto, unfolding(crate::specs::Classes::initialises))]
fn initialises(tokens: &[Token]) -> bool
    ensures { result ≡ spec.initialises (kinds tokens.now) }
{
    begins_name(tokens) && begins_behind(tokens, Wanted::Symbol(Symbol::Assign))
}

#[tactic(auto, unfolding(crate::specs::Members::behind))]
fn initialises_behind(tokens: &[Token]) -> bool
    ensures { result ≡ behind spec.initialises (kinds tokens.now) }
{
    match tokens {
        [] => false,
        [_, rest @ ..] => initialises(rest),
    }
}

/// An annotation, or a type, a name and `=`.
#[tactic(auto, unfolding(crate::specs::Classes::declares))]
fn declares(tokens: &[Token]) -> bool
    ensures { result ≡ spec.declares (kinds tokens.now) }
{
    begins(tokens, Wanted::Symbol(Symbol::At)) || begins_name(tokens) && initialises_behind(tokens)
}

/// Whether a member is a field: what follows `public` and `private` tells.
#[tactic(auto, unfolding(crate::specs::Classes::field_ahead))]
fn field_ahead(tokens: &[Token]) -> bool
    ensures { result ≡ spec.field_ahead (kinds tokens.now) }
{
    let mut rest = tokens;
    loop {
        match rest {
            [] => return false,
            [_, behind @ ..] => {
                if access_ahead(rest).is_none() {
                    return declares(rest);
                }
                rest = behind;
            }
        }
    }
}

#[tactic(auto, unfolding(crate::specs::Classes::method_at))]
fn method(alloc: Global, levels: usize, tokens: &[Token]) -> Result<(Method, &[Token]), Refusal>
    ensures { ReturnsReading (λ x. (x.0, kinds x.1.now)) result (spec.method_at levels (kinds tokens.now)) }
{
    let (modifiers, rest) = modifiers(alloc, tokens)?;
    let (kind, rest) = result_type(alloc, rest)?;
    let (name, rest) = name(alloc, rest)?;
    let rest = after(rest, &[Wanted::Symbol(Symbol::OpenParen)])?;
    let (params, rest) = params(alloc, rest)?;
    let rest = after(rest, &[Wanted::Symbol(Symbol::CloseParen)])?;
    let (body, rest) = block(alloc, levels, rest)?;
    Ok((
        Method {
            modifiers,
            result: kind,
            name,
            params,
            body,
        },
        rest,
    ))
}

#[tactic(auto, unfolding(crate::specs::Classes::member_at))]
fn member(alloc: Global, levels: usize, tokens: &[Token]) -> Result<(Member, &[Token]), Refusal>
    ensures { ReturnsReading (λ x. (x.0, kinds x.1.now)) result (spec.member_at levels (kinds tokens.now)) }
{
    if field_ahead(tokens) {
        let (field, rest) = field(alloc, tokens)?;
        return Ok((Member::Field(field), rest));
    }
    let (method, rest) = method(alloc, levels, tokens)?;
    Ok((Member::Method(method), rest))
}

/// The members, up to the brace that closes the class. Each takes a token, so there are no more turns
/// than tokens.
fn members(
    alloc: Global,
    levels: usize,
    tokens: &[Token],
) -> Result<(Items<Member>, &[Token]), Refusal>
    ensures { ReturnsReading (λ x. (x.0, kinds x.1.now)) result (spec.members_at levels (kinds tokens.now)) }
{
    let mut members = Items::new(alloc);
    let mut rest = tokens;
    for _ in 0..tokens.len() {
        if !has_more(rest) {
            return Ok((members, rest));
        }
        let (member, behind) = member(alloc, levels, rest)?;
        members.push(member)?;
        rest = behind;
    }
    Err(Refusal::NoClass { left: rest.len() })
}

/// Where each token begins.
fn places(alloc: Global, tokens: &[Token]) -> Result<Items<Place>, AllocError>
    ensures { IfOk result (λ all. all ≡ map (λ t. t.place) tokens.now) }
{
    let mut places = Items::from_vec(Vec::with_capacity(alloc, tokens.len())?);
    for token in tokens {
        places.push(token.place)?;
    }
    Ok(places)
}

/// The class that all of the tokens are, with this many levels inside the bodies of its methods.
#[tactic(auto, unfolding(crate::specs::Classes::class_at))]
pub(crate) fn class(alloc: Global, levels: usize, tokens: &[Token]) -> Result<Class, Refusal>
    ensures { ReturnsReading (λ x. x) result (spec.class_at levels (map (λ t. t.place) tokens.now) (kinds tokens.now)) }
{
    let places = places(alloc, tokens)?;
    let (package, rest) = package(alloc, tokens)?;
    let (imports, rest) = imports(alloc, rest)?;
    let (modifiers, rest) = modifiers(alloc, rest)?;
    let rest = after(rest, &[Wanted::Reserved(Reserved::Class)])?;
    let (name, rest) = name(alloc, rest)?;
    let rest = after(rest, &[Wanted::Symbol(Symbol::OpenBrace)])?;
    let (members, rest) = members(alloc, levels, rest)?;
    let rest = after(rest, &[Wanted::Symbol(Symbol::CloseBrace)])?;
    match rest {
        [] => Ok(Class {
            package,
            imports,
            modifiers,
            name,
            members,
            places,
        }),
        _ => Err(Refusal::NoClass { left: rest.len() }),
    }
}
