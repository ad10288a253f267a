//! Where the body of a method stands.

ghost use Rattle.std.specs.Prelude.{◌≡◌, All, OnOk, None, length};
ghost use Rattle.std.specs.List.{zip};
ghost use Rattle.sdg_base.specs.Limits.{turns_at_start};
ghost use Rattle.early_plain.specs.Fits.{IsLong};
ghost use Rattle.early_plain.specs.Keys.{written_site};
ghost use Rattle.early_plain.specs.Machines.{DeclaresVariable, Passes};

use crate::scope::Scope;
use crate::site::{Site, is_ended, is_same};
use early_forms::Sum;
use sdg_base::{Name, TURNS_AT_START, Val};
use std::alloc::{AllocError, Global};

/// The site of the last access, the variables, and the turns left.
#[derive(Drop)]
pub struct Machine<'a> {
    pub site: Option<Site<'a>>,
    pub scope: Scope<'a>,
    pub turns: u32,
}

impl<'a> Machine<'a> {
    /// The machine as a call begins.
    pub fn new(alloc: Global, parameters: &'a [Name], arguments: &'a [Val]) -> Machine<'a>
        requires as_many { length arguments.now ≡ length parameters.now }
        requires longs { All IsLong arguments.now }
        ensures site { result.site ≡ None }
        ensures scope { result.scope ≡ zip parameters.now arguments.now }
        ensures turns { result.turns ≡ turns_at_start }
    {
        Machine {
            site: None,
            scope: Scope::new(alloc, parameters, arguments),
            turns: TURNS_AT_START,
        }
    }

    /// Goes to an access, past the mark before it where its site isn't the current one, and answers
    /// whether a turn was left for the mark.
    pub fn passes(&mut self, field: &'a Name, key: &'a Sum) -> bool
        ensures { Passes (written_site field.now key.now) self.old self.new result }
    {
        let site = Site { field, key };
        if !is_same(&self.site, &site) {
            if self.turns == 0 {
                return false;
            }
            self.turns -= 1;
        }
        self.site = Some(site);
        true
    }

    /// Declares a local with its value.
    pub fn declare(&mut self, name: &'a Name, value: i64) -> Result<(), AllocError>
        ensures { OnOk result (DeclaresVariable name.now value self.old self.new) }
    {
        self.scope.declare(name, value)?;
        if is_ended(&self.site, name) {
            self.site = None;
        }
        Ok(())
    }
}
