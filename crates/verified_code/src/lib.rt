//! What holds of the code and the graph of every class whose bodies are typed.
#![tactic(auto)]

mod law;

pub use law::{typed_classes_are_sound, typed_classes_are_verified};
