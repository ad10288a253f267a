//! Where Java converts, a cast stands (JLS 5.6, 15.25).

ghost use Rattle.std.specs.Prelude.{◌≡◌, IfOk};
ghost use Rattle.access_blocks.specs.Resolving as spec;

use crate::body::Expression;
use crate::resolved::Resolved;
use java_tree::{ExprType, ValueType};
use sdg_base::{BinOp, Num, UnOp, Val};
use sqlite_items::Boxed;
use std::alloc::{AllocError, Global};

/// The type `int`.
pub const INT: ExprType = ExprType::Value(ValueType::Int);

/// The type `long`.
pub const LONG: ExprType = ExprType::Value(ValueType::Long);

pub fn is_long(found: ExprType) -> bool
    ensures { result ≡ spec.is_long found }
{
    matches!(found, ExprType::Value(ValueType::Long))
}

/// A number of one type where a number of another is wanted.
pub fn converted_to(
    alloc: Global,
    wanted: ExprType,
    found: ExprType,
    a: Expression,
) -> Result<Expression, AllocError>
    ensures { IfOk result (λ e. e ≡ spec.converted_to wanted found a) }
{
    match (wanted, found) {
        (ExprType::Value(ValueType::Long), ExprType::Value(ValueType::Int)) => {
            cast(alloc, Num::Long, a)
        }
        (ExprType::Value(ValueType::Int), ExprType::Value(ValueType::Long)) => {
            cast(alloc, Num::Int, a)
        }
        _ => Ok(a),
    }
}

fn cast(alloc: Global, to: Num, a: Expression) -> Result<Expression, AllocError>
    ensures { IfOk result (λ e. e ≡ Expression.Cast to a) }
{
    Ok(Expression::Cast(to, Boxed::new(alloc, a)?))
}

/// Where one of two operands is a `long`, both are (JLS 5.6).
pub fn promoted(a: ExprType, b: ExprType) -> ExprType
    ensures { result ≡ spec.promoted a b }
{
    if is_long(a) || is_long(b) { LONG } else { a }
}

/// An expression as one of a type, in a box.
fn boxed_as(alloc: Global, wanted: ExprType, r: Resolved) -> Result<Boxed<Expression>, AllocError>
    ensures { IfOk result (λ e. e ≡ spec.taken wanted r) }
{
    let a = taken(alloc, wanted, r)?;
    Boxed::new(alloc, a)
}

/// An expression as one of a type.
pub fn taken(alloc: Global, wanted: ExprType, r: Resolved) -> Result<Expression, AllocError>
    ensures { IfOk result (λ e. e ≡ spec.taken wanted r) }
{
    converted_to(alloc, wanted, r.found, r.expression)
}

pub fn resolved(expression: Expression, found: ExprType) -> Resolved
    ensures { result ≡ spec.resolved expression found }
{
    Resolved {
        expression,
        found,
        is_minimum: false,
    }
}

fn is_shift(op: BinOp) -> bool
    ensures { result ≡ spec.is_shift op }
{
    matches!(op, BinOp::Shl | BinOp::Shr | BinOp::UShr)
}

/// A binary operator on two operands, as it takes them.
pub fn operated(
    alloc: Global,
    op: BinOp,
    a: Resolved,
    b: Resolved,
) -> Result<Expression, AllocError>
    ensures { IfOk result (λ e. e ≡ spec.operated op a b) }
{
    if is_shift(op) {
        let left = Boxed::new(alloc, a.expression)?;
        let right = boxed_as(alloc, INT, b)?;
        Ok(Expression::Binary(op, left, right))
    } else {
        let both = promoted(a.found, b.found);
        let left = boxed_as(alloc, both, a)?;
        let right = boxed_as(alloc, both, b)?;
        Ok(Expression::Binary(op, left, right))
    }
}

/// The type of what an operator gives where it isn't a comparison.
pub fn operated_type(op: BinOp, a: ExprType, b: ExprType) -> ExprType
    ensures { result ≡ spec.operated_type op a b }
{
    if is_shift(op) { a } else { promoted(a, b) }
}

/// A unary operator. The literal that a minus alone may stand before has its value already.
pub fn negated(alloc: Global, op: UnOp, a: Resolved) -> Result<Expression, AllocError>
    ensures { IfOk result (λ e. e ≡ spec.negated op a) }
{
    match op {
        UnOp::Plus => Ok(a.expression),
        UnOp::Minus if a.is_minimum => Ok(a.expression),
        _ => Ok(Expression::Unary(op, Boxed::new(alloc, a.expression)?)),
    }
}

/// The type of a cast.
pub fn number_type(to: Num) -> ExprType
    ensures { result ≡ spec.number_type to }
{
    match to {
        Num::Int => INT,
        Num::Long => LONG,
    }
}

/// A literal is what its digits write in two's complement (JLS 3.10.1).
pub fn literal(digits: u64, long: bool) -> Expression
    ensures { result ≡ spec.literal digits long }
{
    let number = digits.cast_signed();
    if long {
        return Expression::Long(number);
    }
    match sdg_base::cast(Num::Int, &Val::Long(number)) {
        Val::Int(number) => Expression::Int(number),
        _ => unreachable!(),
    }
}

/// Whether it is the decimal literal of a least number.
pub fn is_minimum(digits: u64, decimal: bool, long: bool) -> bool
    ensures { result ≡ spec.is_minimum digits decimal long }
{
    let least = if long {
        0x8000_0000_0000_0000
    } else {
        0x8000_0000
    };
    decimal && digits == least
}

/// `test ? first : second` of some type.
pub fn conditional(
    alloc: Global,
    found: ExprType,
    test: Resolved,
    first: Resolved,
    second: Resolved,
) -> Result<Expression, AllocError>
    ensures { IfOk result (λ e. e ≡ spec.chosen_between found test first second) }
{
    let test = Boxed::new(alloc, test.expression)?;
    let first = boxed_as(alloc, found, first)?;
    let second = boxed_as(alloc, found, second)?;
    Ok(Expression::Conditional(test, first, second))
}

/// `new Vector(..)`
pub fn new_vector(alloc: Global, size: Resolved) -> Result<Expression, AllocError>
    ensures { IfOk result (λ e. e ≡ spec.vector_of size) }
{
    Ok(Expression::NewVector(boxed_as(alloc, INT, size)?))
}

/// One of the gathered values.
pub fn gathered(alloc: Global, at: Resolved) -> Result<Expression, AllocError>
    ensures { IfOk result (λ e. e ≡ spec.gathered_at at) }
{
    Ok(Expression::Gathered(boxed_as(alloc, INT, at)?))
}
