//! Numbers for names.

ghost use Rattle.std.specs.Prelude.{◌≡◌, []};
ghost use Rattle.java_flow.specs.Sets.{number_of};

use indexmap::IndexSet;
use sdg_base::Name;
use std::alloc::{AllocError, Global};
use std::marker::Model;

/// Names in the order in which they came. No name comes twice. Its place is its number.
#[derive(Drop)]
pub struct Numbers {
    alloc: Global,
    names: IndexSet<Vec<u8>>,
}

impl Model for Numbers {
    ghost use Rattle.std.specs.Prelude.{List, ℕ, map};

    ghost Value = { List (List ℕ) };

    ghost view = { λ n. map (λ name. name.items) n.names.keys };
}

impl Numbers {
    /// No names.
    pub fn new(alloc: Global) -> Numbers
        ensures { result ≡ [] }
    {
        Numbers {
            alloc,
            names: IndexSet::new(alloc),
        }
    }

    /// Gives a name a number, if it has none.
    pub(crate) fn add(&mut self, name: &Name) -> Result<(), AllocError> {
        let name = name.as_slice();
        if self.names.contains(name) {
            return Ok(());
        }
        let key = Vec::from_slice(self.alloc, name)?;
        match self.names.insert(key) {
            Ok(_) => Ok(()),
            Err(_) => Err(AllocError),
        }
    }

    /// The number of a name.
    pub fn number(&self, name: &Name) -> Option<usize>
        ensures { result ≡ number_of name.now self.now }
    {
        self.names.get_index_of(name.as_slice())
    }
}
