//! Why every history of the graph's cells is a legal history of the annotated source, with the same
//! outcomes. It stands in `specs/` and `proofs/`.
#![tactic(auto)]
