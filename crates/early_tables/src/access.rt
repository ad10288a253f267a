//! Calls of methods of whatever holds state.

ghost use Rattle.std.specs.Prelude.{◌≡◌, Some, IsSome, IfOk, OnErr};
ghost use Rattle.early_tables.specs.States.{State, call_on};

use crate::method::Method;
use sdg_base::{Outcome, Vals};
use std::alloc::{AllocError, Global};

/// Whatever holds state, and answers calls of the methods of its class.
pub trait Access {
    /// What it holds.
    ghost held: { Self → State };

    /// Calls a method. An `Err` leaves what it holds as it was.
    fn call(&mut self, alloc: Global, method: Method, args: &Vals) -> Result<Outcome, AllocError>
        // Its class has the method, and the arguments are of the method's types.
        requires { IsSome (call_on method args.now (held self.old)) }
        ensures ok { IfOk result (λ outcome. call_on method args.now (held self.old) ≡ Some (outcome, held self.new)) }
        ensures err { OnErr result (held self.new ≡ held self.old) };
}
