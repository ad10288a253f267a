//! `Table`, a finite map from `long` to `long`.

ghost use Rattle.std.specs.Prelude.{◌≡◌, [], OnOk, OnErr};
ghost use Rattle.early_tables.specs.Contents.{value_at, with_value};

use crate::access::Access;
use crate::method::Method;
use sdg_base::{Outcome, Val, Vals};
use std::alloc::{AllocError, Global};
use std::collections::BTreeMap;
use std::marker::Model;

/// A finite map from `long` to `long`, seen as the list of its entries in rising key order.
#[derive(Drop)]
pub struct Table {
    entries: BTreeMap<i64, i64>,
}

impl Model for Table {
    ghost use Rattle.early_tables.specs.Entries.{Entries};

    ghost Value = { Entries };

    ghost view = { λ t. t.entries.entries };
}

impl Table {
    /// A table without entries. It takes no memory.
    pub fn new(alloc: Global) -> Table
        ensures { result ≡ [] }
    {
        Table {
            entries: BTreeMap::new(alloc),
        }
    }

    /// The value under a key. An absent entry reads as 0.
    pub fn get(&self, key: i64) -> i64
        ensures { result ≡ value_at key self.now }
    {
        self.entries.get(&key).copied().unwrap_or(0)
    }

    /// Sets the value under a key.
    pub fn put(&mut self, key: i64, value: i64) -> Result<(), AllocError>
        ensures ok { OnOk result (self.new ≡ with_value key value self.old) }
        ensures err { OnErr result (self.new ≡ self.old) }
    {
        self.entries.insert(key, value)?;
        Ok(())
    }
}

impl Access for Table {
    ghost use Rattle.early_tables.specs.States.{OfTable};

    ghost held = { λ t. OfTable t };

    fn call(&mut self, _alloc: Global, method: Method, args: &Vals) -> Result<Outcome, AllocError> {
        match (method, args.as_slice()) {
            (Method::Get, [Val::Long(key)]) => Ok(Outcome::Value(Val::Long(self.get(*key)))),
            (Method::Put, [Val::Long(key), Val::Long(value)]) => {
                self.put(*key, *value)?;
                Ok(Outcome::Value(Val::Unit))
            }
            _ => unreachable!(),
        }
    }
}
