//! A class with its sites.

use crate::site::{Kinds, Sites};
use java_tree::{Place, Typed};

/// A class with its types, the kinds of its fields, where its accesses to state go, and where its first partial field
/// begins, if it has one.
#[derive(Drop)]
pub struct Annotated {
    pub typed: Typed,
    pub kinds: Kinds,
    pub sites: Sites,
    pub partial: Option<Place>,
}
