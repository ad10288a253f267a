//! Which statements are units: all their accesses go to one part, by a key that they don't change.

ghost use Rattle.std.specs.Prelude.{◌≡◌, fold, map};
ghost use Rattle.std.specs.List.{list_any, flat_map};
ghost use Rattle.std.specs.Option.{option_map};
ghost use Rattle.access_blocks.specs.Marks as spec;

use crate::body::{Access, Choice, Statement, Target};
use crate::place::{Reached, Site};
use sqlite_items::Boxed;

fn same_choice(a: Choice, b: Choice) -> bool
    ensures { result ≡ spec.same_choice a b }
{
    match (a, b) {
        (Choice::Literal(a), Choice::Literal(b)) => a == b,
        (Choice::Variable(a), Choice::Variable(b)) => a == b,
        (Choice::Instance, Choice::Instance) => true,
        _ => false,
    }
}

fn same_part(a: Option<Choice>, b: Option<Choice>) -> bool
    ensures { result ≡ spec.same_part a b }
{
    match (a, b) {
        (Some(a), Some(b)) => same_choice(a, b),
        _ => false,
    }
}

/// Whether two accesses go to one part.
pub fn same_site(a: Site, b: Site) -> bool
    ensures { result ≡ spec.same_site a b }
{
    a.field == b.field && same_part(a.choice, b.choice)
}

pub fn site_of(access: &Access) -> Site
    ensures { result ≡ spec.site_of access.now }
{
    Site {
        field: access.field,
        choice: Some(access.choice),
    }
}

fn one_or_several(is_one: bool, site: Site) -> Reached
    ensures { result ≡ spec.one_or_several is_one site }
{
    if is_one {
        Reached::One(site)
    } else {
        Reached::Several
    }
}

/// One more access.
fn also(before: Reached, site: Site) -> Reached
    ensures { result ≡ spec.also before site }
{
    match before {
        Reached::Nothing => one_or_several(same_site(site, site), site),
        Reached::One(first) => one_or_several(same_site(first, site), first),
        Reached::Several => Reached::Several,
    }
}

/// What is known behind a statement. Where the accesses differ no more is looked at.
#[cycle(reaching)]
#[tactic(auto, using(crate::proofs::Accesses::several_stay))]
fn reached(st: &Statement, before: Reached) -> Reached
    ensures { result ≡ fold spec.also before (spec.sites_in st.now) }
{
    if let Reached::Several = before {
        return Reached::Several;
    }
    match st {
        Statement::Access(access) => also(before, site_of(access.get())),
        Statement::Gather(gather) => also(
            before,
            Site {
                field: gather.get().field,
                choice: None,
            },
        ),
        Statement::Marked(_, body) | Statement::Opened(body) => reached(body.get(), before),
        Statement::Block(items) => all_reached(items.as_slice(), before),
        Statement::If(_, first, second) => {
            let before = reached(first.get(), before);
            match second {
                None => before,
                Some(second) => reached(second.get(), before),
            }
        }
        Statement::Loop(start, _, update, body) => {
            let before = all_reached(start.as_slice(), before);
            let before = all_reached(update.as_slice(), before);
            reached(body.get(), before)
        }
        Statement::Assign(_, _)
        | Statement::SetElement(_, _, _)
        | Statement::Evaluate(_)
        | Statement::Break
        | Statement::Continue
        | Statement::Return(_) => before,
    }
}

#[cycle(reaching)]
fn all_reached(all: &[Statement], before: Reached) -> Reached
    ensures { result ≡ fold spec.also before (flat_map (λ xs. xs) (map spec.sites_in all.now)) }
{
    let mut known = before;
    for st in all {
        known = reached(st, known);
    }
    known
}

/// Whether a statement assigns or declares a variable, also within.
#[cycle(assigning)]
fn assigns(variable: usize, st: &Statement) -> bool
    ensures { result ≡ spec.assigns variable st.now }
{
    match st {
        Statement::Assign(assigned, _) => *assigned == variable,
        Statement::Access(access) => is_target(variable, access.get().target),
        Statement::Marked(_, body) | Statement::Opened(body) => assigns(variable, body.get()),
        Statement::Block(items) => any_assigns(variable, items.as_slice()),
        Statement::If(_, first, second) => {
            assigns(variable, first.get()) || second_assigns(variable, second)
        }
        Statement::Loop(start, _, update, body) => {
            any_assigns(variable, start.as_slice())
                || any_assigns(variable, update.as_slice())
                || assigns(variable, body.get())
        }
        Statement::SetElement(_, _, _)
        | Statement::Evaluate(_)
        | Statement::Gather(_)
        | Statement::Break
        | Statement::Continue
        | Statement::Return(_) => false,
    }
}

fn is_target(variable: usize, target: Target) -> bool
    ensures { result ≡ spec.is_target variable target }
{
    match target {
        Target::Variable(assigned) => assigned == variable,
        Target::Dropped | Target::Returned => false,
    }
}

#[cycle(assigning)]
fn second_assigns(variable: usize, second: &Option<Boxed<Statement>>) -> bool
    ensures { result ≡ spec.in_second (option_map (spec.assigns variable) second.now) }
{
    match second {
        None => false,
        Some(second) => assigns(variable, second.get()),
    }
}

#[cycle(assigning)]
fn any_assigns(variable: usize, all: &[Statement]) -> bool
    ensures { result ≡ list_any (λ b. b) (map (spec.assigns variable) all.now) }
{
    for st in all {
        if assigns(variable, st) {
            return true;
        }
    }
    false
}

/// Whether a statement changes the key by which a part is chosen.
fn changes_key(choice: Option<Choice>, st: &Statement) -> bool
    ensures { result ≡ spec.changes_key choice st.now }
{
    match choice {
        Some(Choice::Variable(variable)) => assigns(variable, st),
        _ => false,
    }
}

/// The part that the accesses go to, if it is one.
fn part_of(st: &Statement, known: Reached) -> Option<Site>
    ensures { result ≡ spec.part_of st.now known }
{
    match known {
        Reached::One(site) if !changes_key(site.choice, st) => Some(site),
        _ => None,
    }
}

#[tactic(auto, using(crate::proofs::Accesses::one_of_is))]
fn one_of(st: &Statement) -> Option<Site>
    ensures { result ≡ spec.one_of st.now (spec.sites_in st.now) }
{
    part_of(st, reached(st, Reached::Nothing))
}

fn is_any(known: Reached) -> bool
    ensures { result ≡ spec.is_any known }
{
    !matches!(known, Reached::Nothing)
}

/// The site of a statement that is a unit: of a simple one with an access to one part, whatever its key; of a compound
/// one whose accesses are all to one part.
pub fn unit_of(st: &Statement) -> Option<Site>
    ensures { result ≡ spec.unit_of st.now }
{
    match st {
        Statement::Access(access) => Some(site_of(access.get())),
        Statement::Gather(_) => None,
        _ => one_of(st),
    }
}

/// Whether a statement has an access.
#[tactic(auto, using(crate::proofs::Accesses::any_is))]
pub fn has_access(st: &Statement) -> bool
    ensures { result ≡ spec.has_access st.now }
{
    is_any(reached(st, Reached::Nothing))
}

/// The current site behind a statement, which ends where its key is assigned or declared.
pub fn kept(st: &Statement, current: Option<Site>) -> Option<Site>
    ensures { result ≡ spec.kept st.now current }
{
    match current {
        Some(site) if !changes_key(site.choice, st) => Some(site),
        _ => None,
    }
}
