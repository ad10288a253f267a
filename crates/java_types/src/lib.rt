//! Names, types and the rules on them.
#![tactic(auto)]

mod calls;
mod checking;
mod declarations;
mod error;
mod expressions;
mod fits;
mod laws;
mod members;
mod methods;
mod names;
mod simples;
mod statements;
mod walk;

pub use checking::check;
pub use error::TypeError;
pub use laws::{first_is_least, methods_have_their_signatures, passes_each_token};
