//! The methods of the classes that hold state and of vectors.

ghost use Rattle.std.specs.Prelude.{◌≡◌};
ghost use Rattle.java_types.specs.Methods as spec;

use crate::fits::{BOOLEAN, INT, LONG, VECTOR};
use java_tree::words::is_text;
use java_tree::{ExprType, ValueType};
use sdg_base::ClassName;

/// The parameters of a method.
#[derive(Clone, Copy)]
pub enum Params {
    Nothing,
    Key,
    KeyAndValue,
    RowColumnAndValue,
    RowAndCount,
    Vector,
    Index,
    IndexAndValue,
}

/// The parameters and the type of the result.
#[derive(Clone, Copy)]
pub struct Shape {
    pub params: Params,
    pub result: ExprType,
}

/// The types of the parameters.
pub fn params_of(params: Params) -> &'static [ExprType]
    ensures { result.now ≡ spec.params_of params }
{
    match params {
        Params::Nothing => &[],
        Params::Key => &[LONG],
        Params::KeyAndValue => &[LONG, LONG],
        Params::RowColumnAndValue => &[LONG, LONG, LONG],
        Params::RowAndCount => &[LONG, INT],
        Params::Vector => &[VECTOR],
        Params::Index => &[INT],
        Params::IndexAndValue => &[INT, LONG],
    }
}

fn some_shape(params: Params, found: ExprType) -> Option<Shape>
    ensures { result ≡ spec.shape params found }
{
    Some(Shape {
        params,
        result: found,
    })
}

fn table_method(name: &[u8]) -> Option<Shape>
    ensures { result ≡ spec.table_method name.now }
{
    if is_text(name, b"get") {
        some_shape(Params::Key, LONG)
    } else if is_text(name, b"has") {
        some_shape(Params::Key, BOOLEAN)
    } else if is_text(name, b"put") {
        some_shape(Params::KeyAndValue, ExprType::Void)
    } else if is_text(name, b"add") {
        some_shape(Params::KeyAndValue, ExprType::Void)
    } else if is_text(name, b"remove") {
        some_shape(Params::Key, ExprType::Void)
    } else if is_text(name, b"size") {
        some_shape(Params::Nothing, LONG)
    } else {
        None
    }
}

fn matrix_method(name: &[u8]) -> Option<Shape>
    ensures { result ≡ spec.matrix_method name.now }
{
    if is_text(name, b"getElement") {
        some_shape(Params::KeyAndValue, LONG)
    } else if is_text(name, b"setElement") {
        some_shape(Params::RowColumnAndValue, ExprType::Void)
    } else if is_text(name, b"addElement") {
        some_shape(Params::RowColumnAndValue, ExprType::Void)
    } else if is_text(name, b"getRow") {
        some_shape(Params::RowAndCount, VECTOR)
    } else if is_text(name, b"multiply") {
        some_shape(Params::Vector, VECTOR)
    } else if is_text(name, b"size") {
        some_shape(Params::Nothing, LONG)
    } else {
        None
    }
}

fn counter_method(name: &[u8]) -> Option<Shape>
    ensures { result ≡ spec.counter_method name.now }
{
    if is_text(name, b"get") {
        some_shape(Params::Nothing, LONG)
    } else if is_text(name, b"add") {
        some_shape(Params::Key, ExprType::Void)
    } else if is_text(name, b"set") {
        some_shape(Params::Key, ExprType::Void)
    } else {
        None
    }
}

fn vector_method(name: &[u8]) -> Option<Shape>
    ensures { result ≡ spec.vector_method name.now }
{
    if is_text(name, b"size") {
        some_shape(Params::Nothing, INT)
    } else if is_text(name, b"get") {
        some_shape(Params::Index, LONG)
    } else if is_text(name, b"set") {
        some_shape(Params::IndexAndValue, ExprType::Void)
    } else {
        None
    }
}

/// The method of this name of what an expression stands for.
pub fn method_of(owner: ExprType, name: &[u8]) -> Option<Shape>
    ensures { result ≡ spec.method_of owner name.now }
{
    match owner {
        ExprType::State(ClassName::Table) => table_method(name),
        ExprType::State(ClassName::Matrix) => matrix_method(name),
        ExprType::State(ClassName::Counter) => counter_method(name),
        ExprType::Value(ValueType::Vector) => vector_method(name),
        _ => None,
    }
}
