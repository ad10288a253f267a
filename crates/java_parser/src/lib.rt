//! Reads the tokens of a class, and gives its syntax tree.
#![tactic(auto)]

mod classes;
mod error;
mod expressions;
mod forms;
mod headers;
mod lists;
mod members;
mod operands;
mod parsing;
mod rows;
mod simples;
mod statements;
mod words;

pub use error::ParseError;
pub use parsing::parse;
