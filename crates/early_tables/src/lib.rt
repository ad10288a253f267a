//! The tables of the early forms of class.
#![tactic(auto)]

mod access;
mod method;
mod table;

pub use access::Access;
pub use method::Method;
pub use table::Table;

#[cfg(test)]
mod tests;
