//! The types of values, and of what operators make of them.

ghost use Rattle.std.specs.Prelude.{◌≡◌};
ghost use Rattle.sdg_base.specs.Types.{type_of, arithmetic_type, shift_type, order_type, equality_type, bitwise_type, condition_type, binary_type, unary_type};

use crate::operator::{BinOp, UnOp};
use crate::val::Val;

/// The type of a value of a Java expression. `Void` is the result of a method that gives none.
#[derive(Clone, Copy, Debug, PartialEq, Eq)]
pub enum ValueType {
    Int,
    Long,
    Boolean,
    Vector,
    Void,
}

/// The type of a value.
pub fn type_of(value: &Val) -> ValueType
    ensures { result ≡ type_of value.now }
{
    match value {
        Val::Int(_) => ValueType::Int,
        Val::Long(_) => ValueType::Long,
        Val::Bool(_) => ValueType::Boolean,
        Val::Vector(_) => ValueType::Vector,
        Val::Unit => ValueType::Void,
    }
}

/// The type of a binary operator's value on operands of two types, after binary numeric promotion
/// (JLS 5.6); `None` where it does not take them (JLS 15.17 to 15.24).
pub fn binary_type(op: BinOp, left: ValueType, right: ValueType) -> Option<ValueType>
    ensures { result ≡ binary_type op left right }
{
    match op {
        BinOp::Mul | BinOp::Div | BinOp::Rem | BinOp::Add | BinOp::Sub => {
            arithmetic_type(left, right)
        }
        BinOp::Shl | BinOp::Shr | BinOp::UShr => shift_type(left, right),
        BinOp::Lt | BinOp::Le | BinOp::Gt | BinOp::Ge => order_type(left, right),
        BinOp::Eq | BinOp::Ne => equality_type(left, right),
        BinOp::And | BinOp::Xor | BinOp::Or => bitwise_type(left, right),
        BinOp::AndAlso | BinOp::OrElse => condition_type(left, right),
    }
}

/// The type of a unary operator's value on an operand of a type; `None` where it does not take it
/// (JLS 15.15).
pub fn unary_type(op: UnOp, operand: ValueType) -> Option<ValueType>
    ensures { result ≡ unary_type op operand }
{
    match (op, operand) {
        (UnOp::Not, ValueType::Boolean) => Some(ValueType::Boolean),
        (UnOp::Plus | UnOp::Minus | UnOp::Complement, ValueType::Int) => Some(ValueType::Int),
        (UnOp::Plus | UnOp::Minus | UnOp::Complement, ValueType::Long) => Some(ValueType::Long),
        _ => None,
    }
}

fn arithmetic_type(left: ValueType, right: ValueType) -> Option<ValueType>
    ensures { result ≡ arithmetic_type left right }
{
    match (left, right) {
        (ValueType::Int, ValueType::Int) => Some(ValueType::Int),
        (ValueType::Long, ValueType::Long) => Some(ValueType::Long),
        _ => None,
    }
}

fn shift_type(left: ValueType, right: ValueType) -> Option<ValueType>
    ensures { result ≡ shift_type left right }
{
    match (left, right) {
        (ValueType::Int, ValueType::Int) => Some(ValueType::Int),
        (ValueType::Long, ValueType::Int) => Some(ValueType::Long),
        _ => None,
    }
}

fn order_type(left: ValueType, right: ValueType) -> Option<ValueType>
    ensures { result ≡ order_type left right }
{
    match (left, right) {
        (ValueType::Int, ValueType::Int) | (ValueType::Long, ValueType::Long) => {
            Some(ValueType::Boolean)
        }
        _ => None,
    }
}

fn equality_type(left: ValueType, right: ValueType) -> Option<ValueType>
    ensures { result ≡ equality_type left right }
{
    match (left, right) {
        (ValueType::Boolean, ValueType::Boolean) => Some(ValueType::Boolean),
        _ => order_type(left, right),
    }
}

fn bitwise_type(left: ValueType, right: ValueType) -> Option<ValueType>
    ensures { result ≡ bitwise_type left right }
{
    match (left, right) {
        (ValueType::Boolean, ValueType::Boolean) => Some(ValueType::Boolean),
        _ => arithmetic_type(left, right),
    }
}

fn condition_type(left: ValueType, right: ValueType) -> Option<ValueType>
    ensures { result ≡ condition_type left right }
{
    match (left, right) {
        (ValueType::Boolean, ValueType::Boolean) => Some(ValueType::Boolean),
        _ => None,
    }
}
