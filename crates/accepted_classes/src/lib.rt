//! What accepted classes are beside the statements of their bodies.
#![tactic(auto)]

mod law;

pub use law::{
    bodies_begin_with_parameters, bodies_have_parameters, classes_are_named,
    classes_are_resolved_whole, classes_of_typed_statements_are_typed, members_are_known,
    no_method_calls_itself, spelled_classes_have_identifiers,
};
