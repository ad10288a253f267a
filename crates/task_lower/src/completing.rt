//! Which statements can complete normally (JLS 14.22).

ghost use Rattle.std.specs.Prelude.{◌≡◌, map, not};
ghost use Rattle.std.specs.Option.{option_map};
ghost use Rattle.body_code.specs.Completing as spec;
ghost use Rattle.task_lower.specs.Shown.{leaving_by};

use crate::constants::goes_on;
use access_blocks::{Statement, Target};
use sqlite_items::Boxed;

/// Whether a statement completes normally, and whether a `break` in it leaves the loop around it.
#[derive(Clone, Copy)]
pub struct Leaving {
    pub completes: bool,
    pub breaks: bool,
}

fn made(completes: bool, breaks: bool) -> Leaving
    ensures { leaving_by result ≡ spec.leaving completes breaks }
{
    Leaving { completes, breaks }
}

fn is_returned(target: Target) -> bool
    ensures { result ≡ spec.is_returned target }
{
    match target {
        Target::Returned => true,
        Target::Dropped | Target::Variable(_) => false,
    }
}

#[cycle(leavings)]
fn leaving_of(st: &Statement) -> Leaving
    ensures { leaving_by result ≡ spec.leaving_of st.now }
{
    match st {
        Statement::Access(access) => made(!is_returned(access.get().target), false),
        Statement::Marked(_, body) => leaving_of(body.get()),
        Statement::Opened(body) => leaving_of(body.get()),
        Statement::Block(items) => leaving_of_all(items.as_slice()),
        Statement::If(_, first, second) => with_second(leaving_of(first.get()), second),
        Statement::Loop(_, test, _, body) => {
            let body = leaving_of(body.get());
            made(!goes_on(test) || body.breaks, false)
        }
        Statement::Break => made(false, true),
        Statement::Continue => made(false, false),
        Statement::Return(_) => made(false, false),
        Statement::Assign(_, _)
        | Statement::SetElement(_, _, _)
        | Statement::Evaluate(_)
        | Statement::Gather(_) => made(true, false),
    }
}

#[cycle(leavings)]
fn with_second(first: Leaving, second: &Option<Boxed<Statement>>) -> Leaving
    ensures { leaving_by result ≡ spec.of_second (leaving_by first) (option_map spec.leaving_of second.now) }
{
    match second {
        None => made(true, first.breaks),
        Some(second) => {
            let second = leaving_of(second.get());
            made(
                first.completes || second.completes,
                first.breaks || second.breaks,
            )
        }
    }
}

#[cycle(leavings)]
#[tactic(auto, using(crate::proofs::ListEnds::from_start))]
fn leaving_of_all(all: &[Statement]) -> Leaving
    ensures { leaving_by result ≡ spec.leaving (spec.completing (map spec.leaving_of all.now)) (spec.breaking (map spec.leaving_of all.now)) }
{
    let mut completes = true;
    let mut breaks = false;
    for st in all {
        let found = leaving_of(st);
        completes = found.completes;
        breaks = breaks || found.breaks;
    }
    made(completes, breaks)
}

/// Whether the statements of a body complete normally.
pub fn body_completes(all: &[Statement]) -> bool
    ensures { result ≡ spec.body_completes all.now }
{
    leaving_of_all(all).completes
}
