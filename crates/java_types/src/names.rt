//! Names and what each stands for.

ghost use Rattle.std.specs.Prelude.{◌≡◌, [], length, take, OnOk};
ghost use Rattle.std.specs.Option.{option_copied};
ghost use Rattle.java_types.specs.Names.{entry_of, with_entry};

use indexmap::IndexMap;
use std::alloc::{AllocError, Global};
use std::marker::Model;

/// Names with what each stands for, in the order in which they came. No name comes twice.
#[derive(Drop)]
pub struct Names<T> {
    alloc: Global,
    entries: IndexMap<Vec<u8>, T>,
}

impl<T> Model for Names<T> {
    ghost use Rattle.std.specs.Prelude.{List, ℕ, map};

    ghost Value = { List (List ℕ × T) };

    ghost view = { λ n. map (λ e. (e.0.items, e.1)) n.entries.entries };
}

impl<T> Names<T> {
    pub fn new(alloc: Global) -> Names<T>
        ensures { result ≡ [] }
    {
        Names {
            alloc,
            entries: IndexMap::new(alloc),
        }
    }

    pub fn len(&self) -> usize
        ensures { result ≡ length self.now }
    {
        self.entries.len()
    }

    /// What the name stands for.
    pub fn get(&self, name: &[u8]) -> Option<&T>
        ensures { option_copied result ≡ entry_of name.now self.now }
    {
        self.entries.get(name)
    }
}

impl<T: Drop> Names<T> {
    /// Adds a name behind the others. A name that is there already keeps what it stands for.
    pub fn add(&mut self, name: &[u8], item: T) -> Result<(), AllocError>
        ensures { OnOk result (self.new ≡ with_entry name.now item self.old) }
    {
        if self.entries.contains_key(name) {
            return Ok(());
        }
        let key = Vec::from_slice(self.alloc, name)?;
        match self.entries.insert(key, item) {
            Ok(_) => Ok(()),
            Err(_) => Err(AllocError),
        }
    }

    /// Keeps the first names.
    pub fn truncate(&mut self, len: usize)
        ensures { self.new ≡ take len self.old }
    {
        self.entries.truncate(len);
    }
}
