//! The values of atoms and of their sums.

ghost use Rattle.std.specs.Prelude.{◌≡◌, Some};
ghost use Rattle.sdg_base.specs.Operators.{IsNumber};
ghost use Rattle.early_forms.specs.Trees.{plain, sum_tree};
ghost use Rattle.early_source.specs.Expressions.{long_of as written_long};
ghost use Rattle.early_forms.specs.Names.{AtomIsKnown, SumIsKnown};
ghost use Rattle.early_plain.specs.Results.{atom_value};
ghost use Rattle.early_plain.specs.Scopes.{names_in};

use crate::scope::Scope;
use early_forms::{Atom, Sum};
use sdg_base::{Val, add, widen};

/// The value of an atom: a literal without suffix is an `int` (JLS 3.10.1), and variables are `long`.
fn value_of(atom: &Atom, scope: &Scope) -> Val
    requires { AtomIsKnown (names_in scope.now) atom.now }
    ensures value { result ≡ atom_value scope.now atom.now }
    ensures number { IsNumber result }
{
    match atom {
        Atom::Literal(digits) => Val::Int(*digits as i32),
        Atom::Variable(name) => Val::Long(scope.get(name)),
    }
}

/// The value of a sum where a `long` is wanted. The sum is taken from left to right, two `int` add up
/// to an `int` (JLS 15.18.2), and its value is widened at last (JLS 5.2, 5.3).
pub fn long_of(sum: &Sum, scope: &Scope) -> i64
    requires { SumIsKnown (names_in scope.now) sum.now }
    ensures { written_long (plain (sum_tree sum.now)) scope.now ≡ Some (Val.Long result) }
{
    let mut total = value_of(&sum.first, scope);
    for atom in sum.others.as_slice() {
        total = add(&total, &value_of(atom, scope));
    }
    widen(&total)
}
