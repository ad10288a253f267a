//! What holds of every item on a verified graph.
#![tactic(auto)]

mod law;

pub use law::verified_graphs_never_go_wrong;
