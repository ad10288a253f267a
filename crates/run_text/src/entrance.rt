//! Entry methods as the caller of a run sees them.

use sdg_base::Name;
use sqlite_items::Items;

/// A type of a value that a caller can give: Java's `int`, `long` and `boolean`, and the vector of
/// at most 4,096 `long` elements.
#[derive(Clone, Copy, Debug, PartialEq, Eq)]
pub enum ValueType {
    Int,
    Long,
    Boolean,
    Vector,
}

/// An entry method: its number among the methods of its class, its name, and the types of its parameters in their
/// order.
#[derive(Debug, Drop)]
pub struct Entrance {
    pub number: u16,
    pub name: Name,
    pub parameters: Items<ValueType>,
}
