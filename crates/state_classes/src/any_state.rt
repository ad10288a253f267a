//! An object of whichever class that holds state.

ghost use Rattle.std.specs.Prelude.{◌≡◌};
ghost use Rattle.state_classes.specs.States.{empty_state, class_of};

use crate::access::Access;
use crate::counter::Counter;
use crate::matrix::Matrix;
use crate::method::Method;
use crate::object::Object;
use crate::table::Table;
use sdg_base::{ClassName, Outcome, Vals};
use std::alloc::{AllocError, Global};
use std::marker::Model;

/// An object of whichever class that holds state, seen as what it holds.
#[derive(Drop)]
pub struct AnyState {
    object: Object,
}

impl Model for AnyState {
    ghost use Rattle.state_classes.specs.States.{State};
    ghost use Rattle.state_classes.specs.Objects.{state_of};

    ghost Value = { State };

    ghost view = { λ s. state_of s.object };
}

impl AnyState {
    /// A new object of a class: one without entries, or a counter that stands at 0. It takes no
    /// memory.
    pub fn new(alloc: Global, class: ClassName) -> AnyState
        ensures { result ≡ empty_state class }
    {
        AnyState {
            object: match class {
                ClassName::Table => Object::Table(Table::new(alloc)),
                ClassName::Matrix => Object::Matrix(Matrix::new(alloc)),
                ClassName::Counter => Object::Counter(Counter::new(alloc)),
            },
        }
    }

    /// Its class.
    pub fn class(&self) -> ClassName
        ensures { result ≡ class_of self.now }
    {
        match &self.object {
            Object::Table(_) => ClassName::Table,
            Object::Matrix(_) => ClassName::Matrix,
            Object::Counter(_) => ClassName::Counter,
        }
    }
}

impl Access for AnyState {
    ghost held = { λ s. s };

    fn call(&mut self, alloc: Global, method: Method, args: &Vals) -> Result<Outcome, AllocError> {
        match &mut self.object {
            Object::Table(table) => Access::call(table, alloc, method, args),
            Object::Matrix(matrix) => Access::call(matrix, alloc, method, args),
            Object::Counter(counter) => Access::call(counter, alloc, method, args),
        }
    }
}
