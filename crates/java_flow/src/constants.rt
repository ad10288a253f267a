//! The values of constant expressions (JLS 15.28).

ghost use Rattle.std.specs.Prelude.{◌≡◌, Some};
ghost use Rattle.sdg_base.specs.Operations.{operation};
ghost use Rattle.java_flow.specs.Constants.{literal, is_shift, beside, distance_of, of_one_type, promoted_operation, answered, of_both, of_and, of_or, binary_constant, unary_constant, cast_constant, long_if, conditional_constant, is_long_number, binary_is_long, is_true, is_false};

use sdg_base::{BinOp, Exn, Num, UnOp, Val, bin, binary_type, cast, type_of, un, unary_type};

/// What an expression of literals, parentheses, casts and operators gives: `Some(None)` where it
/// throws, and `None` of any other expression.
pub type Constant = Option<Option<Val>>;

pub fn literal(digits: u64, long: bool) -> Constant
    ensures { result ≡ literal digits long }
{
    let value = Val::Long(digits.cast_signed());
    if long {
        Some(Some(value))
    } else {
        Some(Some(cast(Num::Int, &value)))
    }
}

#[tactic(auto, using(crate::proofs::Operands::no_unary))]
pub fn unary(op: UnOp, operand: Constant) -> Constant
    ensures { result ≡ unary_constant op operand }
{
    match operand {
        Some(Some(value)) => {
            if unary_type(op, type_of(&value)).is_some() {
                Some(Some(un(op, &value)))
            } else {
                None
            }
        }
        Some(None) => Some(None),
        None => None,
    }
}

pub fn converted(to: Num, operand: Constant) -> Constant
    ensures { result ≡ cast_constant to operand }
{
    match operand {
        Some(Some(Val::Int(n))) => Some(Some(cast(to, &Val::Int(n)))),
        Some(Some(Val::Long(n))) => Some(Some(cast(to, &Val::Long(n)))),
        Some(Some(_)) => None,
        Some(None) => Some(None),
        None => None,
    }
}

fn is_shift(op: BinOp) -> bool
    ensures { result ≡ is_shift op }
{
    matches!(op, BinOp::Shl | BinOp::Shr | BinOp::UShr)
}

fn beside(other: &Val, value: Val) -> Val
    ensures { result ≡ beside other.now value }
{
    match (other, value) {
        (Val::Long(_), Val::Int(n)) => Val::Long(i64::from(n)),
        (_, value) => value,
    }
}

fn distance_of(value: Val) -> Val
    ensures { result ≡ distance_of value }
{
    match value {
        Val::Long(n) => cast(Num::Int, &Val::Long(n)),
        value => value,
    }
}

#[tactic(auto, using(crate::proofs::Operands::no_binary))]
fn operated(op: BinOp, a: &Val, b: &Val) -> Constant
    ensures { result ≡ answered (operation op a.now b.now) }
{
    if binary_type(op, type_of(a), type_of(b)).is_some() {
        Some(bin(op, a, b).ok())
    } else {
        None
    }
}

fn promoted(op: BinOp, a: Val, b: Val) -> Constant
    ensures { result ≡ answered (promoted_operation op a b) }
{
    if is_shift(op) {
        operated(op, &a, &distance_of(b))
    } else {
        let a = beside(&b, a);
        let b = beside(&a, b);
        operated(op, &a, &b)
    }
}

fn of_both(op: BinOp, a: Constant, b: Constant) -> Constant
    ensures { result ≡ of_both op a b }
{
    match (a, b) {
        (Some(Some(a)), Some(Some(b))) => promoted(op, a, b),
        (Some(_), Some(_)) => Some(None),
        _ => None,
    }
}

fn of_and(a: Constant, b: Constant) -> Constant
    ensures { result ≡ of_and a b }
{
    match (a, b) {
        (Some(Some(Val::Bool(true))), Some(b)) => Some(b),
        (Some(Some(Val::Bool(false))), Some(_)) => Some(Some(Val::Bool(false))),
        (Some(None), Some(_)) => Some(None),
        _ => None,
    }
}

fn of_or(a: Constant, b: Constant) -> Constant
    ensures { result ≡ of_or a b }
{
    match (a, b) {
        (Some(Some(Val::Bool(true))), Some(_)) => Some(Some(Val::Bool(true))),
        (Some(Some(Val::Bool(false))), Some(b)) => Some(b),
        (Some(None), Some(_)) => Some(None),
        _ => None,
    }
}

pub fn binary(op: BinOp, a: Constant, b: Constant) -> Constant
    ensures { result ≡ binary_constant op a b }
{
    match op {
        BinOp::AndAlso => of_and(a, b),
        BinOp::OrElse => of_or(a, b),
        _ => of_both(op, a, b),
    }
}

fn long_if(is_long: bool, value: Constant) -> Constant
    ensures { result ≡ long_if is_long value }
{
    if is_long {
        converted(Num::Long, value)
    } else {
        value
    }
}

pub fn conditional(is_long: bool, test: Constant, first: Constant, second: Constant) -> Constant
    ensures { result ≡ conditional_constant is_long test first second }
{
    match (test, first, second) {
        (Some(Some(Val::Bool(true))), Some(first), Some(_)) => long_if(is_long, Some(first)),
        (Some(Some(Val::Bool(false))), Some(_), Some(second)) => long_if(is_long, Some(second)),
        (Some(None), Some(_), Some(_)) => Some(None),
        _ => None,
    }
}

pub fn is_long_number(to: Num) -> bool
    ensures { result ≡ is_long_number to }
{
    matches!(to, Num::Long)
}

/// Whether a binary operator on numbers gives a `long`.
pub fn binary_is_long(op: BinOp, a: bool, b: bool) -> bool
    ensures { result ≡ binary_is_long op a b }
{
    match op {
        BinOp::Shl | BinOp::Shr | BinOp::UShr => a,
        BinOp::Mul | BinOp::Div | BinOp::Rem | BinOp::Add | BinOp::Sub => a || b,
        BinOp::And | BinOp::Xor | BinOp::Or => a || b,
        _ => false,
    }
}

pub fn is_true(constant: &Constant) -> bool
    ensures { result ≡ is_true constant.now }
{
    matches!(constant, Some(Some(Val::Bool(true))))
}

pub fn is_false(constant: &Constant) -> bool
    ensures { result ≡ is_false constant.now }
{
    matches!(constant, Some(Some(Val::Bool(false))))
}
