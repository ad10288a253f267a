//! The stateful dataflow graph of a class: its methods as flat code, and the tasks that the code is cut
//! into.
#![tactic(auto)]

mod graph;

pub use graph::graph_of;
