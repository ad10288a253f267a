//! The types of expressions (JLS 15).

ghost use Rattle.std.specs.Prelude.{◌≡◌, IfOk};
ghost use Rattle.std.specs.Option.{option_copied};
ghost use Rattle.flat_code.specs.Types.{same_type, same_types};
ghost use Rattle.body_code.specs.Typing as spec;
ghost use Rattle.body_code.specs.ExpressionCode.{operand_of};
ghost use Rattle.sdg_base.specs.Types as types;
ghost use Rattle.task_lower.specs.Pushing.{snoc_type};

use crate::scope::Scope;
use body_code::Callee;
use flat_code::OperandType;
use java_tree::{MethodKind, ValueType as VariableType};
use sdg_base::{BinOp, Num, UnOp, ValueType, binary_type, unary_type};
use sqlite_items::Items;
use std::alloc::AllocError;

/// The type of the values of a declared one.
pub fn type_by(found: VariableType) -> ValueType
    ensures { result ≡ spec.type_by found }
{
    match found {
        VariableType::Int => ValueType::Int,
        VariableType::Long => ValueType::Long,
        VariableType::Boolean => ValueType::Boolean,
        VariableType::Vector => ValueType::Vector,
    }
}

fn one_type(found: Option<VariableType>) -> Option<ValueType>
    ensures { result ≡ spec.one_type found }
{
    match found {
        None => None,
        Some(found) => Some(type_by(found)),
    }
}

/// The type of the value of a variable; a collection is none.
pub fn variable_type(scope: &Scope<'_>, variable: usize) -> Option<ValueType>
    ensures { result ≡ spec.variable_type scope.now.context variable }
{
    if variable == 0 && scope.members().is_some() {
        return None;
    }
    one_type(scope.variable(variable))
}

fn same_type(left: ValueType, right: ValueType) -> bool
    ensures { result ≡ same_type left right }
{
    match (left, right) {
        (ValueType::Int, ValueType::Int)
        | (ValueType::Long, ValueType::Long)
        | (ValueType::Boolean, ValueType::Boolean)
        | (ValueType::Vector, ValueType::Vector)
        | (ValueType::Void, ValueType::Void) => true,
        _ => false,
    }
}

/// A type, where an operand has the one that is taken.
pub fn where_type(found: Option<ValueType>, taken: ValueType, given: ValueType) -> Option<ValueType>
    ensures { result ≡ spec.where_type found taken given }
{
    match found {
        None => None,
        Some(found) => {
            if same_type(found, taken) {
                Some(given)
            } else {
                None
            }
        }
    }
}

/// The type of a unary operator's value.
pub fn unary_by(op: UnOp, operand: Option<ValueType>) -> Option<ValueType>
    ensures { result ≡ spec.of_one (types.unary_type op) operand }
{
    match operand {
        None => None,
        Some(operand) => unary_type(op, operand),
    }
}

/// The type of a binary operator's value.
pub fn binary_by(op: BinOp, left: Option<ValueType>, right: Option<ValueType>) -> Option<ValueType>
    ensures { result ≡ spec.of_two (types.binary_type op) left right }
{
    match (left, right) {
        (Some(left), Some(right)) => binary_type(op, left, right),
        _ => None,
    }
}

fn type_named(name: Num) -> ValueType
    ensures { result ≡ types.type_named name }
{
    match name {
        Num::Int => ValueType::Int,
        Num::Long => ValueType::Long,
    }
}

/// The type of a cast.
pub fn cast_type(to: Num, operand: Option<ValueType>) -> Option<ValueType>
    ensures { result ≡ spec.cast_type to operand }
{
    match operand {
        Some(ValueType::Int) => Some(type_named(to)),
        Some(ValueType::Long) => Some(type_named(to)),
        _ => None,
    }
}

fn alike(left: Option<ValueType>, right: Option<ValueType>) -> Option<ValueType>
    ensures { result ≡ spec.of_two spec.alike left right }
{
    match (left, right) {
        (Some(left), Some(right)) => {
            if same_type(left, right) {
                Some(left)
            } else {
                None
            }
        }
        _ => None,
    }
}

/// The type of one of two of one type (JLS 15.25).
pub fn chosen_type(
    test: Option<ValueType>,
    first: Option<ValueType>,
    second: Option<ValueType>,
) -> Option<ValueType>
    ensures { result ≡ spec.chosen_type test first second }
{
    match test {
        Some(ValueType::Boolean) => alike(first, second),
        _ => None,
    }
}

/// The second type, where there is the first.
pub fn and_then(first: Option<ValueType>, second: Option<ValueType>) -> Option<ValueType>
    ensures { result ≡ spec.and_then first second }
{
    match first {
        None => None,
        Some(_) => second,
    }
}

fn same_types(left: &[ValueType], right: &[ValueType]) -> bool
    ensures { result ≡ same_types left.now right.now }
{
    let mut rest = right;
    for found in left {
        let [other, others @ ..] = rest else {
            return false;
        };
        if !same_type(*found, *other) {
            return false;
        }
        rest = others;
    }
    rest.is_empty()
}

/// The type of a call of a method on arguments of these types.
pub fn called_type(method: Option<&Callee>, args: &Option<Items<ValueType>>) -> Option<ValueType>
    ensures { result ≡ spec.called_type (option_copied method.entry) args.now }
{
    match (method, args) {
        (Some(method), Some(args)) => called_by(method, args.as_slice()),
        _ => None,
    }
}

fn called_by(method: &Callee, args: &[ValueType]) -> Option<ValueType>
    ensures { result ≡ spec.called_by method.now.kind method.now.params method.now.result args.now }
{
    match method.kind {
        MethodKind::Helper => {
            if same_types(args, method.params.as_slice()) {
                Some(method.result)
            } else {
                None
            }
        }
        MethodKind::Entry | MethodKind::Merge => None,
    }
}

/// The type of what a merge method gives.
pub fn merged_type(method: Option<&Callee>) -> Option<ValueType>
    ensures { result ≡ spec.merged_type (option_copied method.entry) }
{
    match method {
        None => None,
        Some(method) => match method.kind {
            MethodKind::Merge => Some(method.result),
            MethodKind::Entry | MethodKind::Helper => None,
        },
    }
}

/// One type more, where all before it are known.
pub fn with_type(
    all: Option<Items<ValueType>>,
    more: Option<ValueType>,
) -> Result<Option<Items<ValueType>>, AllocError>
    ensures { IfOk result (λ types. types ≡ snoc_type all more) }
{
    match (all, more) {
        (Some(mut all), Some(more)) => {
            all.push(more)?;
            Ok(Some(all))
        }
        _ => Ok(None),
    }
}

/// The type of the operands of a binary operator, by that of the left one.
pub fn operand_of(left: Option<ValueType>) -> OperandType
    ensures { result ≡ operand_of left }
{
    match left {
        Some(ValueType::Long) => OperandType::Long,
        Some(ValueType::Boolean) => OperandType::Boolean,
        _ => OperandType::Int,
    }
}
