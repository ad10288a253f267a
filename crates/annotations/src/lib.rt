//! Annotations and the rules on them: how each field holds its state, and where each access to state goes.
#![tactic(auto)]

mod accesses;
mod checking;
mod class;
mod environment;
mod error;
mod expressions;
mod laws;
mod members;
mod position;
mod simples;
mod site;
mod statements;
mod walk;

pub use checking::annotated;
pub use class::Annotated;
pub use error::AnnotError;
pub use laws::passes_each_token;
pub use members::kind_of_field;
pub use site::{FieldKind, Key, Kinds, Reach, Site, Sites};
