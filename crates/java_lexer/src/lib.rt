//! The tokens of a text, with their places.
#![tactic(auto)]

mod element;
mod lexer;
mod number;
mod place;
mod run;
mod space;
mod table;

pub use lexer::{LexError, lex, one_answer};
