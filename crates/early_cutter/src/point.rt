//! Where the lowering stands in a body: the numbers of the variables, the current site, the next task.

ghost use Rattle.std.specs.Prelude.{◌≡◌, ◌∷◌, ◌++◌, [], ℕ, List, None, IfOk, OnOk, IsTrue, ◌↔◌, ◌+◌};
ghost use Rattle.early_source.specs.Sites.{Compound};
ghost use Rattle.early_plain.specs.Keys.{written_key};
ghost use Rattle.early_cutter.specs.Points.{number_in};
ghost use Rattle.early_cutter.specs.Scopes.{Numbers};

use early_forms::Sum;
use early_plain::Site;
use sdg_base::Name;
use std::alloc::{AllocError, Global};
use std::collections::BTreeMap;

/// The variables in scope with their numbers, which are their places.
#[derive(Drop)]
pub struct Scope<'a> {
    pub numbers: BTreeMap<&'a [u8], u32>,
    pub count: u32,
}

/// A place in a body: the variables in scope, the access that the block reached last, and the next task.
#[derive(Drop)]
pub struct Here<'a> {
    pub scope: Scope<'a>,
    pub site: Option<Site<'a>>,
    pub task: u32,
}

/// A length as a number of 32 bits. No memory holds a class where it is none.
pub fn small(length: usize) -> Result<u32, AllocError>
    ensures { IfOk result (λ number. number ≡ length) }
{
    u32::try_from(length).map_err(|_| AllocError)
}

/// The next number, where it is one of 32 bits. No memory holds a class that has more.
pub fn next_number(number: u32) -> Result<u32, AllocError>
    ensures { IfOk result (λ next. next ≡ number + 1) }
{
    number.checked_add(1).ok_or(AllocError)
}

pub fn declare<'a>(scope: &mut Scope<'a>, name: &'a Name) -> Result<(), AllocError>
    ensures { OnOk result ((names : List (List ℕ)) → Numbers scope.old names → Numbers scope.new (names ++ name.now ∷ [])) }
{
    let count = next_number(scope.count)?;
    let text = name.as_slice();
    if !scope.numbers.contains_key(text) {
        scope.numbers.insert(text, scope.count)?;
    }
    scope.count = count;
    Ok(())
}

pub fn scope_of(alloc: Global, parameters: &[Name]) -> Result<Scope<'_>, AllocError>
    ensures { IfOk result (λ scope. Numbers scope parameters.now) }
{
    let mut scope = Scope {
        numbers: BTreeMap::new(alloc),
        count: 0,
    };
    for parameter in parameters {
        declare(&mut scope, parameter)?;
    }
    Ok(scope)
}

pub fn number_of(scope: &Scope, name: &Name) -> u32
    ensures { (names : List (List ℕ)) → Numbers scope.now names → result ≡ number_in names name.now }
{
    match scope.numbers.get(name.as_slice()) {
        Some(number) => *number,
        None => scope.count,
    }
}

pub fn is_compound(key: &Sum) -> bool
    ensures { IsTrue result ↔ (written_key key.now ≡ Compound) }
{
    !key.others.is_empty()
}
