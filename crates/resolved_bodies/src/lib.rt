//! What the statements that a method is resolved to keep of the method that the rules passed.
#![tactic(auto)]

mod law;

pub use law::headers_are_kept;
