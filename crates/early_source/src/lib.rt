//! The meaning of the annotated source: expressions, sites, marks and steps. It stands in `specs/`.
#![tactic(auto)]
