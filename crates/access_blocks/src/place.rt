//! The sites of accesses, and statements in their lists.

use crate::body::{Choice, Statement};

/// The field of an access, and how it chooses the part of it. An access to each instance has no part.
#[derive(Clone, Copy)]
pub struct Site {
    pub field: usize,
    pub choice: Option<Choice>,
}

/// What is known of accesses, as they come: whether there are any, and to which part they all are, if they are to one.
#[derive(Clone, Copy)]
pub enum Reached {
    Nothing,
    One(Site),
    Several,
}

/// What stands in the place of a statement of a list, and the site after it.
#[derive(Drop)]
pub struct Placed {
    pub statement: Statement,
    pub site: Option<Site>,
}
