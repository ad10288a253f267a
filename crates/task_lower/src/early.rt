//! The locals that are read before the place where their text first assigns them.

ghost use Rattle.std.specs.Prelude.{◌≡◌, [], ◌∷◌, ◌++◌, ◌||◌, if◌then◌else◌, OnOk, IfOk, map, nat_eq, nat_lt};
ghost use Rattle.std.specs.Option.{option_map};
ghost use Rattle.std.specs.HashSet.{contains};
ghost use Rattle.body_code.specs.Early as spec;
ghost use Rattle.body_code.specs.Typing.{needs_of_all};
ghost use Rattle.task_lower.specs.Early.{Notes, noted, with_key, early_by};

use crate::needs::{is_read, is_read_in, key_reads, note};
use access_blocks::{Access, Body, Mark, Statement, Target};
use sqlite_items::{Boxed, Items};
use std::alloc::{AllocError, Global};
use std::collections::HashSet;

/// A variable that is assigned, and whether it is read for its value.
#[derive(Clone, Copy)]
pub struct Assigned {
    pub variable: usize,
    pub is_read: bool,
}

fn assigned_by_access(all: &mut Items<Assigned>, access: &Access) -> Result<(), AllocError>
    ensures { OnOk result (all.new ≡ all.old ++ map noted (spec.to_target access.now.target (needs_of_all access.now.args).variables)) }
{
    match access.target {
        Target::Variable(variable) => {
            let is_read = is_read_in(variable, access.args.as_slice());
            all.push(Assigned { variable, is_read })?;
            Ok(())
        }
        Target::Dropped | Target::Returned => Ok(()),
    }
}

/// The same, with what the key of a block reads before it.
fn behind_key(
    all: &mut Items<Assigned>,
    key: &HashSet<usize>,
    body: &[Assigned],
) -> Result<(), AllocError>
    ensures { OnOk result (all.new ≡ all.old ++ map (with_key (contains nat_eq key.now)) body.now) }
{
    for a in body {
        let variable = a.variable;
        let is_read = key.contains(&variable) || a.is_read;
        all.push(Assigned { variable, is_read })?;
    }
    Ok(())
}

/// The variables that a statement assigns, in text order.
#[cycle(assigning)]
fn note_assigned(alloc: Global, all: &mut Items<Assigned>, st: &Statement) -> Result<(), AllocError>
    ensures { OnOk result (all.new ≡ all.old ++ map noted (spec.assigned_in st.now)) }
{
    match st {
        Statement::Assign(variable, e) => {
            let variable = *variable;
            let is_read = is_read(variable, e.get());
            all.push(Assigned { variable, is_read })?;
            Ok(())
        }
        Statement::Access(access) => assigned_by_access(all, access.get()),
        Statement::Marked(mark, body) => marked(alloc, all, mark.get(), body.get()),
        Statement::Opened(body) => note_assigned(alloc, all, body.get()),
        Statement::Block(items) => all_assigned(alloc, all, items.as_slice()),
        Statement::If(_, first, second) => {
            note_assigned(alloc, all, first.get())?;
            second_assigned(alloc, all, second)
        }
        Statement::Loop(start, _, update, body) => {
            all_assigned(alloc, all, start.as_slice())?;
            all_assigned(alloc, all, update.as_slice())?;
            note_assigned(alloc, all, body.get())
        }
        Statement::SetElement(_, _, _)
        | Statement::Evaluate(_)
        | Statement::Gather(_)
        | Statement::Break
        | Statement::Continue
        | Statement::Return(_) => Ok(()),
    }
}

#[cycle(assigning)]
fn marked(
    alloc: Global,
    all: &mut Items<Assigned>,
    mark: &Mark,
    body: &Statement,
) -> Result<(), AllocError>
    ensures { OnOk result (all.new ≡ all.old ++ map noted (map (spec.with_reads (spec.key_reads mark.now.key)) (spec.assigned_in body.now))) }
{
    let key = key_reads(alloc, &mark.key)?;
    let mut within = Items::new(alloc);
    note_assigned(alloc, &mut within, body)?;
    behind_key(all, &key, within.as_slice())?;
    Ok(())
}

#[cycle(assigning)]
fn second_assigned(
    alloc: Global,
    all: &mut Items<Assigned>,
    second: &Option<Boxed<Statement>>,
) -> Result<(), AllocError>
    ensures { OnOk result (all.new ≡ all.old ++ map noted (spec.of_second (option_map spec.assigned_in second.now))) }
{
    match second {
        None => Ok(()),
        Some(second) => note_assigned(alloc, all, second.get()),
    }
}

#[cycle(assigning)]
fn all_assigned(
    alloc: Global,
    all: &mut Items<Assigned>,
    statements: &[Statement],
) -> Result<(), AllocError>
    ensures { OnOk result (all.new ≡ all.old ++ map noted (spec.all_of (map spec.assigned_in statements.now))) }
{
    for st in statements {
        note_assigned(alloc, all, st)?;
    }
    Ok(())
}

/// Whether a variable is assigned already. So many first variables are assigned from the start.
fn is_seen(seen: &HashSet<usize>, arity: usize, variable: usize) -> bool
    ensures { result ≡ (nat_lt variable arity || contains nat_eq seen.now variable) }
{
    variable < arity || seen.contains(&variable)
}

fn push_if(early: &mut Items<usize>, is_read: bool, variable: usize) -> Result<(), AllocError>
    ensures { OnOk result (early.new ≡ (if is_read then early.old ++ variable ∷ [] else early.old)) }
{
    if is_read {
        early.push(variable)?;
    }
    Ok(())
}

/// One variable is assigned: it is early where that is the first time and it is read for its value.
#[tactic(auto, using(crate::proofs::ReadSets::notes_seen, crate::proofs::ReadSets::notes_first))]
fn assign(
    seen: &mut HashSet<usize>,
    early: &mut Items<usize>,
    arity: usize,
    a: Assigned,
) -> Result<(), AllocError>
    ensures { OnOk result (Notes arity a seen.old seen.new early.old early.new) }
{
    if is_seen(seen, arity, a.variable) {
        return Ok(());
    }
    note(seen, a.variable)?;
    push_if(early, a.is_read, a.variable)?;
    Ok(())
}

/// Those that are read for their own first value.
fn early_in(alloc: Global, arity: usize, all: &[Assigned]) -> Result<Items<usize>, AllocError>
    ensures { IfOk result (λ early. early ≡ early_by (λ v. nat_lt v arity) all.now) }
{
    let mut seen: HashSet<usize> = HashSet::new(alloc);
    let mut early = Items::new(alloc);
    for a in all {
        assign(&mut seen, &mut early, arity, *a)?;
    }
    Ok(early)
}

/// The locals that are read before the place where their text first assigns them.
pub fn early(alloc: Global, body: &Body) -> Result<Items<usize>, AllocError>
    ensures { IfOk result (λ early. early ≡ spec.early body.now) }
{
    let mut all = Items::new(alloc);
    all_assigned(alloc, &mut all, body.statements.as_slice())?;
    let early = early_in(alloc, body.arity, all.as_slice())?;
    Ok(early)
}
