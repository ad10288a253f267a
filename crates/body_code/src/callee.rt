//! What a caller knows of a method.

use java_tree::MethodKind;
use sdg_base::ValueType;
use sqlite_items::Items;

/// A method as its callers know it: who calls it, the types of its parameters, and that of its result. The
/// parameter of a merge method has the type of its members.
#[derive(Drop)]
pub struct Callee {
    pub kind: MethodKind,
    pub params: Items<ValueType>,
    pub result: ValueType,
}
