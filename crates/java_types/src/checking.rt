//! The check of a whole class.

ghost use Rattle.std.specs.Prelude.{◌≡◌, [], map, IfOk, IfErr};
ghost use Rattle.java_types.specs.Check as spec;

use crate::calls::Calls;
use crate::declarations::env_of;
use crate::error::TypeError;
use crate::members::members;
use crate::names::Names;
use crate::walk::{Finding, Walk};
use java_tree::{Class, Place, Typed, Types, discard};
use sqlite_items::Items;
use std::alloc::{AllocError, Global};

/// A broken rule and its place.
#[derive(Clone, Copy)]
pub struct Refused {
    pub place: Place,
    pub rule: u8,
}

/// Where a token stands; one without a place stands before all others.
fn place_at(places: &[Place], token: usize) -> Place
    ensures { result ≡ spec.place_at places.now token }
{
    places
        .get(token)
        .copied()
        .unwrap_or(Place { line: 0, column: 0 })
}

fn refused_at(places: &[Place], finding: Finding) -> Refused
    ensures { result ≡ spec.refused_at places.now finding }
{
    Refused {
        place: place_at(places, finding.token),
        rule: finding.rule,
    }
}

/// Whether one comes before the other: by place, and at one place by rule.
fn is_before(a: Refused, b: Refused) -> bool
    ensures { result ≡ spec.is_before a b }
{
    if a.place.line == b.place.line {
        if a.place.column == b.place.column {
            a.rule < b.rule
        } else {
            a.place.column < b.place.column
        }
    } else {
        a.place.line < b.place.line
    }
}

/// The first of what is refused, if anything is.
#[tactic(auto, using(crate::proofs::Lists::fold_map))]
fn first_of(places: &[Place], findings: &[Finding]) -> Option<Refused>
    ensures { result ≡ spec.first_of (map (spec.refused_at places.now) findings.now) }
{
    let mut first: Option<Refused> = None;
    for finding in findings {
        first = earlier(first, refused_at(places, *finding));
    }
    first
}

fn earlier(first: Option<Refused>, other: Refused) -> Option<Refused>
    ensures { result ≡ spec.earlier first other }
{
    match first {
        None => Some(other),
        Some(first) => {
            if is_before(other, first) {
                Some(other)
            } else {
                Some(first)
            }
        }
    }
}

#[tactic(auto, unfolding(crate::specs::Check::whole))]
fn walk_of(alloc: Global, class: &Class) -> Result<Walk, AllocError>
    ensures { IfOk result (λ w. w ≡ spec.whole class.now) }
{
    let env = env_of(alloc, class)?;
    let mut walk = Walk {
        at: 0,
        caller: 0,
        variables: Names::new(alloc),
        locals: Items::new(alloc),
        calls: Calls::new(alloc)?,
        types: Items::new(alloc),
        names: Items::new(alloc),
        findings: Items::new(alloc),
    };
    members(alloc, &env, &mut walk, class)?;
    Ok(walk)
}

fn refusal(refused: Refused) -> TypeError
    ensures { result ≡ TypeError.Rule refused.rule refused.place }
{
    let Refused { place, rule } = refused;
    TypeError::Rule { rule, place }
}

/// The types of a class, or what is refused first.
fn judged(alloc: Global, class: &Class) -> Result<Types, TypeError>
    ensures found { IfOk result (λ types. (types ≡ spec.types_of class.now) × (spec.findings_of class.now ≡ [])) }
    ensures refused { IfErr result (spec.IsRefusal class.now) }
{
    let Ok(walk) = walk_of(alloc, class) else {
        return Err(TypeError::Memory);
    };
    match first_of(class.places.as_slice(), walk.findings.as_slice()) {
        None => {
            let Walk { types, names, .. } = walk;
            Ok(Types {
                exprs: types,
                names,
            })
        }
        Some(refused) => Err(refusal(refused)),
    }
}

/// The types of a class, or the first rule on types that it breaks.
///
/// # Errors
///
/// A rule on types is broken, or there is no memory left.
pub fn check(alloc: Global, class: Class) -> Result<Typed, TypeError>
    // The class with its types, where no rule is broken.
    ensures found { IfOk result (λ t. (t.class ≡ class) × (t.types ≡ spec.types_of class) × (spec.findings_of class ≡ [])) }
    // Otherwise the finding at the least place, and at one place that of the least rule.
    ensures refused { IfErr result (spec.IsRefusal class) }
{
    match judged(alloc, &class) {
        Ok(types) => Ok(Typed { class, types }),
        Err(error) => {
            discard(class);
            Err(error)
        }
    }
}
