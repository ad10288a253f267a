//! The engine: what an item does at a port, by the flat code of its task.
#![tactic(auto)]

mod calls;
mod collections;
mod ends;
mod engine;
mod fits;
mod frame;
mod joins;
mod out;
mod perform;
mod run;
mod sender;
mod sending;
mod signatures;
mod stack;
mod step;
mod tasks;
mod values;
mod variables;
mod vectors;

pub use fits::item_fits;
pub use out::Out;
pub use tasks::{Parts, run_task};
