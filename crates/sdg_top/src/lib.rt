//! What the program answers: from its words, files and output to a status, by one definition.
#![tactic(auto)]

mod accept;
mod answer;
mod called;
mod command;
mod graph;
mod lines;
mod machine;
mod plain;
mod replay;
mod reply;
mod report;
mod results;
mod run;
mod scheduled;
mod status;

pub use report::print_report;
pub use run::java2sdg;
pub use status::Status;
