//! The stack on which instructions work.

ghost use Rattle.std.specs.Prelude.{◌≡◌, ◌≢◌, [], ◌∷◌, IsSome, IfOk, MatchOption, OnOk, OnErr, Some};
ghost use Rattle.flat_code.specs.Machine.{arguments};

use sdg_base::Val;
use std::alloc::{AllocError, Global};
use std::marker::Model;

/// Values, seen as the list of them from the top down.
#[derive(Drop)]
pub struct Stack {
    values: Vec<Val>,
}

impl Model for Stack {
    ghost use Rattle.std.specs.Prelude.{List, reverse};
    ghost use Rattle.sdg_base.specs.declared.val.Val.{Val};

    ghost Value = { List Val };

    ghost view = { λ s. reverse s.values.items };
}

impl Stack {
    /// No values. It takes no memory.
    pub fn new(alloc: Global) -> Stack
        ensures { result ≡ [] }
    {
        Stack {
            values: Vec::new(alloc),
        }
    }

    pub fn push(&mut self, value: Val) -> Result<(), AllocError>
        ensures ok { OnOk result (self.new ≡ value ∷ self.old) }
        ensures err { OnErr result (self.new ≡ self.old) }
    {
        self.values.push(value)?;
        Ok(())
    }

    /// Takes the top value, where there is one.
    pub fn take(&mut self) -> Option<Val>
        ensures { MatchOption result ((self.old ≡ []) × (self.new ≡ [])) (λ top. self.old ≡ top ∷ self.new) }
    {
        self.values.pop()
    }

    /// Takes the top value.
    pub fn pop(&mut self) -> Val
        requires { self.old ≢ [] }
        ensures { self.old ≡ result ∷ self.new }
    {
        match self.values.pop() {
            Some(value) => value,
            None => unreachable!(),
        }
    }

    /// Takes so many values, in the order in which they were pushed.
    pub fn pop_many(&mut self, count: usize) -> Result<Vec<Val>, AllocError>
        requires { IsSome (arguments count self.old) }
        ensures { IfOk result (λ args. arguments count self.old ≡ Some (args.items, self.new)) }
    {
        let rest = self.values.len() - count;
        let args = self.values.split_off(rest)?;
        Ok(args)
    }
}
