//! What the names in a body mean: which variables, literals and fields are known where they stand.

ghost use Rattle.std.specs.Prelude.{◌≡◌, ◌↔◌, ◌∷◌, ◌++◌, [], ℕ, List, IsTrue, IfOk, OnOk, All, Contains, MatchOption};
ghost use Rattle.early_forms.specs.Names.{AtomIsKnown, SumIsKnown, StatementIsKnown, EndingIsKnown, BodyIsKnown, declared_names};
ghost use Rattle.early_forms.specs.Scope.{is_held, Holds};

use crate::straight::{Atom, Ending, Statement, StraightMethod, Sum};
use sdg_base::Name;
use std::alloc::{AllocError, Global};
use std::collections::BTreeSet;

/// The first number that is no literal of type `int` (JLS 3.10.1).
const INT_END: u64 = 0x8000_0000;

/// The variables that are in scope at a place of a body.
type Scope<'a> = BTreeSet<&'a [u8]>;

fn declare<'a>(scope: &mut Scope<'a>, name: &'a Name) -> Result<(), AllocError>
    ensures { OnOk result ((names : List (List ℕ)) → Holds scope.old.keys names → Holds scope.new.keys (names ++ name.now ∷ [])) }
{
    scope.insert(name.as_slice())?;
    Ok(())
}

fn scope_of(alloc: Global, parameters: &[Name]) -> Result<Scope<'_>, AllocError>
    ensures { IfOk result (λ scope. Holds scope.keys parameters.now) }
{
    let mut scope = BTreeSet::new(alloc);
    for parameter in parameters {
        declare(&mut scope, parameter)?;
    }
    Ok(scope)
}

pub fn declared_by(statement: &Statement) -> Option<&Name>
    ensures { MatchOption result (declared_names statement.now ≡ []) (λ name. declared_names statement.now ≡ name.now ∷ []) }
{
    match statement {
        Statement::Get { local, .. } | Statement::Set { local, .. } => Some(local),
        Statement::Put { .. } => None,
    }
}

fn declare_local<'a>(scope: &mut Scope<'a>, statement: &'a Statement) -> Result<(), AllocError>
    ensures { OnOk result ((names : List (List ℕ)) → Holds scope.old.keys names → Holds scope.new.keys (names ++ declared_names statement.now)) }
{
    match declared_by(statement) {
        Some(local) => declare(scope, local),
        None => Ok(()),
    }
}

fn is_in_scope<'a>(scope: &Scope<'a>, name: &'a Name) -> bool
    ensures { result ≡ is_held scope.now.keys name.now }
{
    scope.contains(&name.as_slice())
}

fn is_field(fields: &[Name], name: &Name) -> bool
    ensures { IsTrue result ↔ Contains fields.now name.now }
{
    fields
        .iter()
        .any(|field| field.as_slice() == name.as_slice())
}

fn atom_is_known<'a>(scope: &Scope<'a>, atom: &'a Atom) -> bool
    ensures { (names : List (List ℕ)) → Holds scope.now.keys names → IsTrue result ↔ AtomIsKnown names atom.now }
{
    match atom {
        Atom::Literal(n) => *n < INT_END,
        Atom::Variable(name) => is_in_scope(scope, name),
    }
}

fn atoms_are_known<'a>(scope: &Scope<'a>, atoms: &'a [Atom]) -> bool
    ensures { (names : List (List ℕ)) → Holds scope.now.keys names → IsTrue result ↔ All (AtomIsKnown names) atoms.now }
{
    for atom in atoms {
        if !atom_is_known(scope, atom) {
            return false;
        }
    }
    true
}

fn sum_is_known<'a>(scope: &Scope<'a>, sum: &'a Sum) -> bool
    ensures { (names : List (List ℕ)) → Holds scope.now.keys names → IsTrue result ↔ SumIsKnown names sum.now }
{
    atom_is_known(scope, &sum.first) && atoms_are_known(scope, sum.others.as_slice())
}

fn statement_is_known<'a>(fields: &[Name], scope: &Scope<'a>, statement: &'a Statement) -> bool
    ensures { (names : List (List ℕ)) → Holds scope.now.keys names → IsTrue result ↔ StatementIsKnown fields.now names statement.now }
{
    match statement {
        Statement::Get { field, key, .. } => is_field(fields, field) && sum_is_known(scope, key),
        Statement::Set { value, .. } => sum_is_known(scope, value),
        Statement::Put { field, key, value } => {
            is_field(fields, field) && sum_is_known(scope, key) && sum_is_known(scope, value)
        }
    }
}

fn ending_is_known<'a>(fields: &[Name], scope: &Scope<'a>, ending: &'a Ending) -> bool
    ensures { (names : List (List ℕ)) → Holds scope.now.keys names → IsTrue result ↔ EndingIsKnown fields.now names ending.now }
{
    match ending {
        Ending::Nothing => true,
        Ending::Get { field, key } => is_field(fields, field) && sum_is_known(scope, key),
        Ending::Sum { value } => sum_is_known(scope, value),
    }
}

/// Whether each atom of a body is a literal of type `int`, a parameter or an earlier local, and each
/// access is one of a field.
pub fn body_is_known(
    alloc: Global,
    fields: &[Name],
    method: &StraightMethod,
) -> Result<bool, AllocError>
    ensures { let m = method.now in IfOk result (λ b. IsTrue b ↔ BodyIsKnown fields.now m.parameters m.statements m.ending) }
{
    let mut scope = scope_of(alloc, method.parameters.as_slice())?;
    let statements = method.statements.as_slice();
    for statement in statements {
        if !statement_is_known(fields, &scope, statement) {
            return Ok(false);
        }
        declare_local(&mut scope, statement)?;
    }
    Ok(ending_is_known(fields, &scope, &method.ending))
}
