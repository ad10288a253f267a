//! The code of sums.

ghost use Rattle.std.specs.Prelude.{◌≡◌, ◌∷◌, ◌++◌, [], ℕ, List, OnOk, All};
ghost use Rattle.early_cutter.specs.Bounds.{AtomFits, SumFits};
ghost use Rattle.early_cutter.specs.Scopes.{Numbers};
ghost use Rattle.early_cutter.specs.Sums.{type_of, promoted, atom_code, cast_code, plus_code, others_code, long_code};

use crate::point::{Scope, number_of};
use early_forms::{Atom, Sum};
use early_task_code::Instr;
use sdg_base::{BinOp, Num};
use sqlite_items::Items;
use std::alloc::AllocError;

fn type_of(atom: &Atom) -> Num
    ensures { result ≡ type_of atom.now }
{
    match atom {
        Atom::Literal(_) => Num::Int,
        Atom::Variable(_) => Num::Long,
    }
}

fn promoted(left: Num, right: Num) -> Num
    ensures { result ≡ promoted left right }
{
    match (left, right) {
        (Num::Int, Num::Int) => Num::Int,
        _ => Num::Long,
    }
}

fn atom_instr(scope: &Scope, atom: &Atom) -> Instr
    requires { AtomFits atom.now }
    ensures { (names : List (List ℕ)) → Numbers scope.now names → result ≡ atom_code names atom.now }
{
    match atom {
        Atom::Literal(digits) => Instr::Int(*digits as i32),
        Atom::Variable(name) => Instr::Load(number_of(scope, name)),
    }
}

fn add_cast(code: &mut Items<Instr>, from: Num, to: Num) -> Result<(), AllocError>
    ensures { OnOk result (code.new ≡ code.old ++ cast_code from to) }
{
    match (from, to) {
        (Num::Int, Num::Long) => code.push(Instr::Cast(Num::Long)),
        _ => Ok(()),
    }
}

fn add_atom(
    code: &mut Items<Instr>,
    scope: &Scope,
    type_so_far: Num,
    atom: &Atom,
) -> Result<(), AllocError>
    requires { AtomFits atom.now }
    ensures { OnOk result ((names : List (List ℕ)) → Numbers scope.now names → code.new ≡ code.old ++ plus_code names type_so_far atom.now) }
{
    let sum_type = promoted(type_so_far, type_of(atom));
    add_cast(code, type_so_far, sum_type)?;
    code.push(atom_instr(scope, atom))?;
    add_cast(code, type_of(atom), sum_type)?;
    code.push(Instr::Bin(BinOp::Add, sum_type))
}

fn add_others(
    code: &mut Items<Instr>,
    scope: &Scope,
    first_type: Num,
    others: &[Atom],
) -> Result<(), AllocError>
    requires { All AtomFits others.now }
    ensures { OnOk result ((names : List (List ℕ)) → Numbers scope.now names → code.new ≡ code.old ++ others_code names first_type others.now) }
{
    let mut type_so_far = first_type;
    for atom in others {
        add_atom(code, scope, type_so_far, atom)?;
        type_so_far = promoted(type_so_far, type_of(atom));
    }
    add_cast(code, type_so_far, Num::Long)
}

/// Adds the code that pushes a sum as a `long`.
pub fn add_long(code: &mut Items<Instr>, scope: &Scope, sum: &Sum) -> Result<(), AllocError>
    requires { SumFits sum.now }
    ensures { OnOk result ((names : List (List ℕ)) → Numbers scope.now names → code.new ≡ code.old ++ long_code names sum.now) }
{
    code.push(atom_instr(scope, &sum.first))?;
    add_others(code, scope, type_of(&sum.first), sum.others.as_slice())
}
