//! The classes that hold state as variants of one type.

use crate::counter::Counter;
use crate::matrix::Matrix;
use crate::table::Table;

/// An object of one of the classes.
#[derive(Drop)]
pub(crate) enum Object {
    Table(Table),
    Matrix(Matrix),
    Counter(Counter),
}
