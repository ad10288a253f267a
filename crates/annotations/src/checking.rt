//! The check of a whole class.

ghost use Rattle.std.specs.Prelude.{◌≡◌, [], map, IfOk, IfErr};
ghost use Rattle.annotations.specs.Kinds.{kinds_of};
ghost use Rattle.annotations.specs.Environment.{env_of};
ghost use Rattle.annotations.specs.Members.{members_walk};
ghost use Rattle.annotations.specs.Check as spec;

use crate::class::Annotated;
use crate::environment::env_of;
use crate::error::AnnotError;
use crate::members::members;
use crate::site::{Kinds, Sites};
use crate::walk::{Env, Finding, Walk};
use java_tree::{Class, Declaration, Place, Typed, Types, discard};
use sqlite_items::Items;
use std::alloc::{AllocError, Global};

/// A broken rule and its place.
#[derive(Clone, Copy)]
pub struct Refused {
    pub place: Place,
    pub rule: u8,
}

/// What is found of a class, and what its names stand for.
#[derive(Drop)]
pub struct Found {
    pub names: Items<Declaration>,
    pub kinds: Kinds,
    pub sites: Sites,
    pub partial: Option<usize>,
    pub findings: Items<Finding>,
}

/// Where a token stands; one without a place stands before all others.
fn place_at(places: &[Place], token: usize) -> Place
    ensures { result ≡ spec.place_at places.now token }
{
    places
        .get(token)
        .copied()
        .unwrap_or(Place { line: 0, column: 0 })
}

fn refused_at(places: &[Place], finding: Finding) -> Refused
    ensures { result ≡ spec.refused_at places.now finding }
{
    Refused {
        place: place_at(places, finding.token),
        rule: finding.rule,
    }
}

/// Whether one comes before the other: by place, and at one place by rule.
fn is_before(a: Refused, b: Refused) -> bool
    ensures { result ≡ spec.is_before a b }
{
    if a.place.line == b.place.line {
        if a.place.column == b.place.column {
            a.rule < b.rule
        } else {
            a.place.column < b.place.column
        }
    } else {
        a.place.line < b.place.line
    }
}

fn earlier(first: Option<Refused>, other: Refused) -> Option<Refused>
    ensures { result ≡ spec.earlier first other }
{
    match first {
        None => Some(other),
        Some(first) => {
            if is_before(other, first) {
                Some(other)
            } else {
                Some(first)
            }
        }
    }
}

/// The first of what is refused, if anything is.
#[tactic(auto, using(crate::proofs::Lists::fold_map))]
fn first_of(places: &[Place], findings: &[Finding]) -> Option<Refused>
    ensures { result ≡ spec.first_of (map (spec.refused_at places.now) findings.now) }
{
    let mut first: Option<Refused> = None;
    for finding in findings {
        first = earlier(first, refused_at(places, *finding));
    }
    first
}

fn walk_of(alloc: Global, class: &Class, env: &Env) -> Result<Walk, AllocError>
    ensures { IfOk result (λ w. w ≡ members_walk env.now class.now spec.start) }
{
    let mut walk = Walk {
        at: 0,
        used: 0,
        in_entry: false,
        in_header: false,
        collections: Items::new(alloc),
        locals: Items::new(alloc),
        awaited: None,
        partial: None,
        sites: Items::new(alloc),
        findings: Items::new(alloc),
    };
    members(alloc, env, &mut walk, class)?;
    Ok(walk)
}

#[tactic(auto, unfolding(crate::specs::Check::whole))]
fn found_in(alloc: Global, class: &Class, names: Items<Declaration>) -> Result<Found, AllocError>
    ensures names { IfOk result (λ f. f.names ≡ names) }
    ensures kinds { IfOk result (λ f. f.kinds ≡ kinds_of class.now) }
    ensures sites { IfOk result (λ f. f.sites ≡ (spec.whole class.now names).sites) }
    ensures partial { IfOk result (λ f. f.partial ≡ (spec.whole class.now names).partial) }
    ensures findings { IfOk result (λ f. f.findings ≡ (spec.whole class.now names).findings) }
{
    let env = env_of(alloc, class, names)?;
    let walk = walk_of(alloc, class, &env)?;
    Ok(Found {
        names: env.names,
        kinds: env.kinds,
        sites: walk.sites,
        partial: walk.partial,
        findings: walk.findings,
    })
}

fn refusal(refused: Refused) -> AnnotError
    ensures { result ≡ AnnotError.Rule refused.rule refused.place }
{
    let Refused { place, rule } = refused;
    AnnotError::Rule { rule, place }
}

/// The place of a token, if there is one.
fn place_if(places: &[Place], token: Option<usize>) -> Option<Place>
    ensures { result ≡ spec.place_if places.now token }
{
    match token {
        Some(token) => Some(place_at(places, token)),
        None => None,
    }
}

/// What is found of a class, or what is refused first.
#[tactic(auto, using(crate::proofs::Firsts::only_memory))]
fn judged(alloc: Global, class: &Class, names: Items<Declaration>) -> Result<Found, AnnotError>
    ensures names { IfOk result (λ f. f.names ≡ names) }
    ensures kinds { IfOk result (λ f. f.kinds ≡ kinds_of class.now) }
    ensures sites { IfOk result (λ f. f.sites ≡ (spec.whole class.now names).sites) }
    ensures partial { IfOk result (λ f. f.partial ≡ (spec.whole class.now names).partial) }
    ensures sound { IfOk result (λ f. spec.broken class.now names ≡ []) }
    ensures refused { IfErr result (spec.Refuses (spec.broken class.now names)) }
    ensures accepted { spec.broken class.now names ≡ [] → IfErr result (λ e. e ≡ AnnotError.Memory) }
{
    let Ok(found) = found_in(alloc, class, names) else {
        return Err(AnnotError::Memory);
    };
    match first_of(class.places.as_slice(), found.findings.as_slice()) {
        None => Ok(found),
        Some(refused) => Err(refusal(refused)),
    }
}

/// The kinds of the fields of a class, the sites of its accesses and the place of its first partial field, or the first rule
/// on annotations that it breaks.
///
/// The class is one that the rules on types accept, with its types. Its sites stand in text order, one for each call of
/// a field's method.
///
/// # Errors
///
/// A rule on annotations is broken, or there is no memory left.
pub fn annotated(alloc: Global, typed: Typed) -> Result<Annotated, AnnotError>
    // The class as it was, with its kinds and sites, where no rule is broken.
    ensures same { IfOk result (λ a. a.typed ≡ typed) }
    ensures kinds { IfOk result (λ a. a.kinds ≡ kinds_of typed.class) }
    ensures sites { IfOk result (λ a. a.sites ≡ spec.sites_of typed) }
    ensures partial { IfOk result (λ a. a.partial ≡ spec.first_partial typed) }
    ensures sound { IfOk result (λ a. spec.findings_of typed ≡ []) }
    // Otherwise the finding at the least place, and at one place that of the least rule.
    ensures refused { IfErr result (spec.Refuses (spec.findings_of typed)) }
    // A class that breaks no rule is refused for want of memory alone.
    ensures accepted { spec.findings_of typed ≡ [] → IfErr result (λ e. e ≡ AnnotError.Memory) }
{
    let Typed { class, types } = typed;
    let Types { exprs, names } = types;
    match judged(alloc, &class, names) {
        Ok(found) => {
            let Found {
                names,
                kinds,
                sites,
                partial,
                ..
            } = found;
            let partial = place_if(class.places.as_slice(), partial);
            let types = Types { exprs, names };
            let typed = Typed { class, types };
            Ok(Annotated {
                typed,
                kinds,
                sites,
                partial,
            })
        }
        Err(error) => {
            discard(class);
            Err(error)
        }
    }
}
