//! The variables that a sum sees.

ghost use Rattle.std.specs.Prelude.{◌≡◌, ◌∷◌, All, Contains, IfOk, OnOk, length};
ghost use Rattle.std.specs.List.{zip};
ghost use Rattle.std.specs.Option.{option_copied};
ghost use Rattle.early_source.specs.Variables.{named};
ghost use Rattle.early_plain.specs.Fits.{IsLong};
ghost use Rattle.early_plain.specs.Scopes.{names_in};

use sdg_base::{Name, Val, widen};
use std::alloc::{AllocError, Global};
use std::marker::Model;

/// A local with its value, which is a `long`.
#[derive(Drop)]
struct Local<'a> {
    name: &'a Name,
    value: Val,
}

/// The parameters of a method with the arguments of a call, and the locals in the order of their
/// declarations. It is seen as each variable beside its value, the latest first.
#[derive(Drop)]
pub struct Scope<'a> {
    locals: Vec<Local<'a>>,
    parameters: &'a [Name],
    arguments: &'a [Val],
}

impl<'a> Model for Scope<'a> {
    ghost use Rattle.std.specs.Prelude.{◌≡◌, All, length};
    ghost use Rattle.std.specs.List.{zip};
    ghost use Rattle.early_source.specs.Variables.{Variables};
    ghost use Rattle.early_plain.specs.Fits.{IsLong};
    ghost use Rattle.early_plain.specs.Scopes.{with_locals};

    ghost Value = { Variables };

    ghost view = { λ s. with_locals (zip s.parameters.now s.arguments.now) s.locals.items };

    ghost invariant = { λ s. (length s.arguments.now ≡ length s.parameters.now) × All IsLong s.arguments.now × All (λ l. IsLong l.value) s.locals.items };
}

impl<'a> Scope<'a> {
    /// The variables as a call begins: one argument a parameter.
    pub fn new(alloc: Global, parameters: &'a [Name], arguments: &'a [Val]) -> Scope<'a>
        requires as_many { length arguments.now ≡ length parameters.now }
        requires longs { All IsLong arguments.now }
        ensures { result ≡ zip parameters.now arguments.now }
    {
        Scope {
            locals: Vec::new(alloc),
            parameters,
            arguments,
        }
    }

    /// Declares a local with its value.
    pub fn declare(&mut self, name: &'a Name, value: i64) -> Result<(), AllocError>
        ensures { OnOk result (self.new ≡ (name.now, Val.Long value) ∷ self.old) }
    {
        self.locals.push(Local {
            name,
            value: Val::Long(value),
        })?;
        Ok(())
    }

    /// The value of a variable.
    pub fn get(&self, name: &Name) -> i64
        requires { Contains (names_in self.now) name.now }
        ensures { named name.now self.now ≡ Some (Val.Long result) }
    {
        let mut found = argument_of(name, self.parameters, self.arguments);
        for local in &self.locals {
            if local.name.as_slice() == name.as_slice() {
                found = Some(&local.value);
            }
        }
        match found {
            Some(value) => widen(value),
            None => unreachable!(),
        }
    }
}

fn argument_of<'a>(name: &Name, parameters: &[Name], arguments: &'a [Val]) -> Option<&'a Val>
    requires { length arguments.now ≡ length parameters.now }
    ensures { option_copied result ≡ named name.now (zip parameters.now arguments.now) }
{
    for (at, parameter) in parameters.iter().enumerate() {
        if parameter.as_slice() == name.as_slice() {
            return Some(&arguments[at]);
        }
    }
    None
}
