//! The locals that aren't definitely assigned.

ghost use Rattle.std.specs.Prelude.{◌≡◌, ℕ, List, IfOk, OnOk};
ghost use Rattle.std.specs.List.{list_any};
ghost use Rattle.std.specs.Str.{bytes_eq};
ghost use Rattle.java_flow.specs.Assigned.{all_assigned, all_but, also, both, except, unless};
ghost use Rattle.java_flow.specs.Sets.{stands};

use crate::bits;
use crate::numbers::Numbers;
use sdg_base::Name;
use sqlite_items::Items;
use std::alloc::{AllocError, Global};

/// A set of locals: those that have a number as bits, and any other by name. All locals of a class
/// have one, so that there are no others, but nothing rests on that.
#[derive(Drop)]
pub struct Unassigned {
    numbered: Vec<u64>,
    others: Vec<Name>,
}

fn is_same(a: &Name, b: &Name) -> bool
    ensures { result ≡ bytes_eq a.now b.now }
{
    a.as_slice() == b.as_slice()
}

fn is_in(names: &[Name], name: &Name) -> bool
    ensures { result ≡ list_any (bytes_eq name.now) names.now }
{
    names.iter().any(|other| is_same(name, other))
}

/// A name is left out.
#[tactic(auto, using(crate::proofs::NameSets::left_out, crate::proofs::NameSets::put_in))]
fn leave_out(alloc: Global, names: &mut Vec<Name>, name: &Name) -> Result<(), AllocError>
    ensures { OnOk result (all_but names.new.items ≡ except name.now (all_but names.old.items)) }
{
    if !is_in(names, name) {
        names.push(Items::from_slice(alloc, name.as_slice())?)?;
    }
    Ok(())
}

/// A name is left out no more.
fn let_in(names: &mut Vec<Name>, name: &Name)
    ensures { all_but names.new.items ≡ also name.now (all_but names.old.items) }
{
    names.retain(|other| other.as_slice() != name.as_slice());
}

/// These names are left out too.
fn leave_all_out(alloc: Global, names: &mut Vec<Name>, others: &[Name]) -> Result<(), AllocError>
    ensures { OnOk result (all_but names.new.items ≡ both (all_but names.old.items) (all_but others.now)) }
{
    for name in others {
        leave_out(alloc, names, name)?;
    }
    Ok(())
}

/// Every local is assigned.
pub fn none(alloc: Global) -> Unassigned
    ensures { (numbers : List (List ℕ)) → stands numbers result ≡ all_assigned }
{
    Unassigned {
        numbered: Vec::new(alloc),
        others: Vec::new(alloc),
    }
}

pub fn is_assigned(numbers: &Numbers, set: &Unassigned, name: &Name) -> bool
    ensures { result ≡ stands numbers.now set.now name.now }
{
    match numbers.number(name) {
        Some(number) => !bits::has(&set.numbered, number),
        None => !is_in(&set.others, name),
    }
}

/// A local is declared, and not assigned.
pub fn declare(
    alloc: Global,
    numbers: &Numbers,
    set: &mut Unassigned,
    name: &Name,
) -> Result<(), AllocError>
    ensures { OnOk result (stands numbers.now set.new ≡ except name.now (stands numbers.now set.old)) }
{
    match numbers.number(name) {
        Some(number) => bits::put(&mut set.numbered, number),
        None => leave_out(alloc, &mut set.others, name),
    }
}

/// A local is assigned, or its scope has ended.
pub fn assign(numbers: &Numbers, set: &mut Unassigned, name: &Name)
    ensures { stands numbers.now set.new ≡ also name.now (stands numbers.now set.old) }
{
    match numbers.number(name) {
        Some(number) => bits::take(&mut set.numbered, number),
        None => let_in(&mut set.others, name),
    }
}

/// What is assigned on two ways.
pub fn join(alloc: Global, set: &mut Unassigned, other: &Unassigned) -> Result<(), AllocError>
    ensures { OnOk result ((numbers : List (List ℕ)) → stands numbers set.new ≡ both (stands numbers set.old) (stands numbers other.now)) }
{
    bits::join(&mut set.numbered, &other.numbered)?;
    leave_all_out(alloc, &mut set.others, &other.others)
}

fn copy(alloc: Global, set: &Unassigned) -> Result<Unassigned, AllocError>
    ensures { IfOk result (λ copy. (numbers : List (List ℕ)) → stands numbers copy ≡ stands numbers set.now) }
{
    let mut others = Vec::new(alloc);
    leave_all_out(alloc, &mut others, &set.others)?;
    Ok(Unassigned {
        numbered: Vec::from_slice(alloc, &set.numbered)?,
        others,
    })
}

/// The same locals again, or none where every variable is assigned.
pub fn copy_unless(alloc: Global, is_cut: bool, set: &Unassigned) -> Result<Unassigned, AllocError>
    ensures { IfOk result (λ copy. (numbers : List (List ℕ)) → stands numbers copy ≡ unless is_cut (stands numbers set.now)) }
{
    if is_cut {
        Ok(none(alloc))
    } else {
        copy(alloc, set)
    }
}
