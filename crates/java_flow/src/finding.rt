//! What the rules on flow refuse.

use java_tree::Place;

/// A rule on flow (JLS 14.22, 8.4.7, 16), in the order of their numbers.
#[derive(Clone, Copy)]
pub enum Rule {
    Unreachable,
    MissingReturn,
    Unassigned,
}

/// Where a rule is broken.
#[derive(Clone, Copy)]
pub struct Finding {
    pub rule: Rule,
    pub place: Place,
}
