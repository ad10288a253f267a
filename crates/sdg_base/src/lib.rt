//! The values, operators, calls, ports, items and notes that every other crate speaks of.
#![tactic(auto)]

mod call;
mod ints;
mod item;
mod limits;
mod longs;
mod operation;
mod operator;
mod port;
mod store;
mod val;
mod value_type;

pub use call::{Call, Calls, Step, Steps};
pub use item::{Entry, Item, Line, Note, Notes, copy_item};
pub use limits::TURNS_AT_START;
pub use operation::{bin, cast, un};
pub use operator::{BinOp, UnOp, add, widen};
pub use port::{Port, Ports, same_port};
pub use store::{Blink, ClassName, KeepError, Set, Widths};
pub use val::{
    Bytes, Exn, Longs, Name, Num, Outcome, Outcomes, Val, Vals, copy_of, copy_outcome, copy_values,
};
pub use value_type::{ValueType, binary_type, type_of, unary_type};

#[cfg(test)]
mod tests;
