//! The straight form of class, as its parts.

use java_tree::Place;
use sdg_base::Name;
use sqlite_items::Items;

/// A decimal literal of type `int`, or a variable of type `long`.
#[derive(Debug, Drop)]
pub enum Atom {
    Literal(u64),
    Variable(Name),
}

/// Atoms with `+` between them.
#[derive(Debug, Drop)]
pub struct Sum {
    pub first: Atom,
    pub others: Items<Atom>,
}

/// A statement before the end of a body.
#[derive(Debug, Drop)]
pub enum Statement {
    /// `long local = field.get(key);`
    Get { local: Name, field: Name, key: Sum },
    /// `long local = value;`
    Set { local: Name, value: Sum },
    /// `field.put(key, value);`
    Put { field: Name, key: Sum, value: Sum },
}

/// How a body ends: a method is `void` where nothing stands there, and else of type `long`.
#[derive(Debug, Drop)]
pub enum Ending {
    Nothing,
    /// `return field.get(key);`
    Get { field: Name, key: Sum },
    /// `return value;`
    Sum { value: Sum },
}

/// A method with parameters of type `long`, and a body that runs straight through.
#[derive(Debug, Drop)]
pub struct StraightMethod {
    pub name: Name,
    pub parameters: Items<Name>,
    pub statements: Items<Statement>,
    pub ending: Ending,
}

/// A class with partitioned fields of type `Table`, which stand before its methods, and where each
/// of its tokens begins.
#[derive(Debug, Drop)]
pub struct StraightClass {
    pub name: Name,
    pub fields: Items<Name>,
    pub methods: Items<StraightMethod>,
    pub places: Items<Place>,
}
