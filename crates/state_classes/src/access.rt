//! Calls of methods of whatever holds state.

ghost use Rattle.std.specs.Prelude.{◌≡◌, IfOk, OnErr};
ghost use Rattle.state_classes.specs.States.{State, called};

use crate::method::Method;
use sdg_base::{Outcome, Vals};
use std::alloc::{AllocError, Global};

/// Whatever holds the state of an object of one of the classes, and answers calls of its methods.
pub trait Access {
    /// What it holds.
    ghost held: { Self → State };

    /// Calls a method, which answers and changes what the method's meaning says. A method that its
    /// class does not have, and arguments of other types, answer nothing and change nothing.
    ///
    /// # Errors
    /// For want of memory. What it holds is then as it was.
    fn call(&mut self, alloc: Global, method: Method, args: &Vals) -> Result<Outcome, AllocError>
        ensures ok { IfOk result (λ outcome. called method args.now (held self.old) ≡ (outcome, held self.new)) }
        ensures err { OnErr result (held self.new ≡ held self.old) };
}
