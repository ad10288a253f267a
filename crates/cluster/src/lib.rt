//! The cluster: cells that take items as a schedule says, and run to completion after it.
#![tactic(auto)]

mod cells;
mod cluster;
mod items;
mod offer;
mod past;

pub use cells::{Cells, PortCell};
pub use cluster::Cluster;
pub use past::{Commits, Committed, Ended, Past, Pasts};
