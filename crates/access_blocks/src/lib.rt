//! Where blocks begin, and the bodies of methods as every meaning of a class reads them.
#![tactic(auto)]

mod body;
mod calls;
mod conversions;
mod copies;
mod cursor;
mod expressions;
mod halt;
mod marking;
mod place;
mod programs;
mod resolved;
mod scope;
mod simples;
mod statements;
mod units;
mod values;

pub use body::{
    Access, Body, Choice, Expression, Gather, Holder, Mark, Program, Statement, Target,
};
pub use halt::Halt;
pub use programs::{Marked, marks};
