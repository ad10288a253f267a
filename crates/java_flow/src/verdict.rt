//! What is known behind an expression.

use crate::constants::Constant;

/// The value of an expression, if it is constant, whether that is a `long`, and whether every variable
/// is assigned after it when true, and when false.
#[derive(Drop)]
pub struct Verdict {
    pub constant: Constant,
    pub is_long: bool,
    pub when_true: bool,
    pub when_false: bool,
}
