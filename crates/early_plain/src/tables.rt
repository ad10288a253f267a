//! The fields of a class.

ghost use Rattle.std.specs.Prelude.{◌≡◌, ◌<◌, [], Contains, IfOk, OnOk, length, map};
ghost use Rattle.early_tables.specs.Contents.{value_at, with_value};
ghost use Rattle.early_source.specs.Variables.{renewed};
ghost use Rattle.early_plain.specs.Fields.{IsFirst, entries_of};
ghost use Rattle.early_plain.specs.Scopes.{names_in};

use early_tables::Table;
use sdg_base::Name;
use std::alloc::{AllocError, Global};
use std::marker::Model;

/// The fields of a class, each a table, seen as each name beside the table's entries.
#[derive(Drop)]
pub struct Tables<'a> {
    names: &'a [Name],
    tables: Vec<Table>,
}

impl<'a> Model for Tables<'a> {
    ghost use Rattle.std.specs.Prelude.{◌≡◌, length};
    ghost use Rattle.std.specs.List.{zip};
    ghost use Rattle.early_source.specs.Variables.{Tables as Fields};

    ghost Value = { Fields };

    ghost view = { λ t. zip t.names.now t.tables.items };

    ghost invariant = { λ t. length t.tables.items ≡ length t.names.now };
}

impl<'a> Tables<'a> {
    /// A table without entries under each of the names.
    pub fn new(alloc: Global, names: &'a [Name]) -> Result<Tables<'a>, AllocError>
        ensures { IfOk result (λ tables. tables ≡ map (λ name. (name, [])) names.now) }
    {
        let mut tables = Vec::new(alloc);
        for _name in names {
            tables.push(Table::new(alloc))?;
        }
        Ok(Tables { names, tables })
    }

    /// The value of a field under a key.
    pub fn get(&self, field: &Name, key: i64) -> i64
        requires { Contains (names_in self.now) field.now }
        ensures { result ≡ value_at key (entries_of field.now self.now) }
    {
        self.tables[place_of(self.names, field)].get(key)
    }

    /// Sets the value of a field under a key.
    pub fn put(&mut self, field: &Name, key: i64, value: i64) -> Result<(), AllocError>
        requires { Contains (names_in self.old) field.now }
        ensures { OnOk result (self.new ≡ renewed field.now (with_value key value (entries_of field.now self.old)) self.old) }
    {
        let table = &mut self.tables[place_of(self.names, field)];
        table.put(key, value)
    }
}

/// The first place of a name.
fn place_of(names: &[Name], name: &Name) -> usize
    requires { Contains names.now name.now }
    ensures place { IsFirst names.now name.now result }
    ensures within { result < length names.now }
{
    for (at, other) in names.iter().enumerate() {
        if other.as_slice() == name.as_slice() {
            return at;
        }
    }
    unreachable!()
}
