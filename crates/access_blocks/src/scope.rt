//! What holds in the whole class.

use java_tree::ExprType;
use sdg_base::ClassName;
use sqlite_items::Items;

/// What callers see of a method: whether it is a merge method, the types of its parameters and of its result.
#[derive(Drop)]
pub struct Header {
    pub is_merge: bool,
    pub params: Items<ExprType>,
    pub result: ExprType,
}

/// The classes of the fields and the headers of the methods, in text order.
#[derive(Drop)]
pub struct Scope {
    pub fields: Items<ClassName>,
    pub methods: Items<Header>,
}
