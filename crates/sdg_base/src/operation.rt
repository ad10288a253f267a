//! The values of Java's operators and casts.

ghost use Rattle.std.specs.Prelude.{◌≡◌, ◌↔◌, Some, IsSome, IfOk, IfErr};
ghost use Rattle.sdg_base.specs.Operators.{IsNumber};
ghost use Rattle.sdg_base.specs.Types.{Takes, TakesOne, binary_type, unary_type, type_of, type_named};
ghost use Rattle.sdg_base.specs.Operations.{operation, unary_operation, converted, DividesByZero};

use crate::operator::{BinOp, UnOp};
use crate::val::{Exn, Num, Val};
use crate::{ints, longs};

/// The value of a binary operator on two values that it takes: two numbers of one type, two
/// booleans, or under a shift a number and an `int` (JLS 15.17 to 15.24). Both operands of `&&` and
/// `||` have a value here; which of them is evaluated is for the caller to say.
///
/// # Errors
/// `Arithmetic`, exactly where `/` or `%` has a zero divisor.
pub fn bin(op: BinOp, a: &Val, b: &Val) -> Result<Val, Exn>
    requires { Takes op a.now b.now }
    ensures value { Some result ≡ operation op a.now b.now }
    ensures typed { IfOk result (λ v. Some (type_of v) ≡ binary_type op (type_of a.now) (type_of b.now)) }
    ensures zero_divisor { (result ≡ Err Exn.Arithmetic) ↔ DividesByZero op b.now }
    ensures no_other { IfErr result (λ e. e ≡ Exn.Arithmetic) }
{
    match (a, b) {
        (Val::Int(a), Val::Int(b)) => on_ints(op, *a, *b),
        (Val::Long(a), Val::Long(b)) => on_longs(op, *a, *b),
        (Val::Long(a), Val::Int(b)) => shift_long(op, *a, *b),
        (Val::Bool(a), Val::Bool(b)) => on_booleans(op, *a, *b),
        _ => unreachable!(),
    }
}

/// The value of a unary operator on a value that it takes: a number, or a boolean under `!`
/// (JLS 15.15).
pub fn un(op: UnOp, a: &Val) -> Val
    requires { TakesOne op a.now }
    ensures value { Some result ≡ unary_operation op a.now }
    ensures typed { Some (type_of result) ≡ unary_type op (type_of a.now) }
{
    match (op, a) {
        (UnOp::Plus, Val::Int(a)) => Val::Int(*a),
        (UnOp::Plus, Val::Long(a)) => Val::Long(*a),
        (UnOp::Minus, Val::Int(a)) => Val::Int(ints::negate(*a)),
        (UnOp::Minus, Val::Long(a)) => Val::Long(longs::negate(*a)),
        (UnOp::Complement, Val::Int(a)) => Val::Int(ints::complement(*a)),
        (UnOp::Complement, Val::Long(a)) => Val::Long(longs::complement(*a)),
        (UnOp::Not, Val::Bool(a)) => Val::Bool(!*a),
        _ => unreachable!(),
    }
}

/// A number as one of the other type, or of its own (JLS 5.1.2, 5.1.3, 15.16): an `int` keeps its
/// number, and a `long` keeps its low 32 bits.
pub fn cast(to: Num, a: &Val) -> Val
    requires { IsNumber a.now }
    ensures value { Some result ≡ converted to a.now }
    ensures typed { type_of result ≡ type_named to }
{
    match (to, a) {
        (Num::Int, Val::Int(a)) => Val::Int(*a),
        (Num::Int, Val::Long(a)) => Val::Int(ints::low_half(*a)),
        (Num::Long, Val::Int(a)) => Val::Long(i64::from(*a)),
        (Num::Long, Val::Long(a)) => Val::Long(*a),
        _ => unreachable!(),
    }
}

/// The value of an operator on two `int`s.
fn on_ints(op: BinOp, a: i32, b: i32) -> Result<Val, Exn>
    requires { Takes op (Val.Int a) (Val.Int b) }
    ensures { Some result ≡ operation op (Val.Int a) (Val.Int b) }
{
    match op {
        BinOp::Mul => Ok(Val::Int(ints::multiply(a, b))),
        BinOp::Div => divide_ints(a, b),
        BinOp::Rem => remainder_ints(a, b),
        BinOp::Add => Ok(Val::Int(ints::add(a, b))),
        BinOp::Sub => Ok(Val::Int(ints::subtract(a, b))),
        BinOp::Shl => Ok(Val::Int(ints::shift_left(a, b))),
        BinOp::Shr => Ok(Val::Int(ints::shift_right(a, b))),
        BinOp::UShr => Ok(Val::Int(ints::shift_right_unsigned(a, b))),
        BinOp::Lt => Ok(Val::Bool(a < b)),
        BinOp::Le => Ok(Val::Bool(a <= b)),
        BinOp::Gt => Ok(Val::Bool(a > b)),
        BinOp::Ge => Ok(Val::Bool(a >= b)),
        BinOp::Eq => Ok(Val::Bool(a == b)),
        BinOp::Ne => Ok(Val::Bool(a != b)),
        BinOp::And => Ok(Val::Int(ints::and(a, b))),
        BinOp::Xor => Ok(Val::Int(ints::xor(a, b))),
        BinOp::Or => Ok(Val::Int(ints::or(a, b))),
        BinOp::AndAlso | BinOp::OrElse => unreachable!(),
    }
}

/// The value of an operator on two `long`s.
fn on_longs(op: BinOp, a: i64, b: i64) -> Result<Val, Exn>
    requires { Takes op (Val.Long a) (Val.Long b) }
    ensures { Some result ≡ operation op (Val.Long a) (Val.Long b) }
{
    match op {
        BinOp::Mul => Ok(Val::Long(longs::multiply(a, b))),
        BinOp::Div => divide_longs(a, b),
        BinOp::Rem => remainder_longs(a, b),
        BinOp::Add => Ok(Val::Long(longs::add(a, b))),
        BinOp::Sub => Ok(Val::Long(longs::subtract(a, b))),
        BinOp::Lt => Ok(Val::Bool(a < b)),
        BinOp::Le => Ok(Val::Bool(a <= b)),
        BinOp::Gt => Ok(Val::Bool(a > b)),
        BinOp::Ge => Ok(Val::Bool(a >= b)),
        BinOp::Eq => Ok(Val::Bool(a == b)),
        BinOp::Ne => Ok(Val::Bool(a != b)),
        BinOp::And => Ok(Val::Long(longs::and(a, b))),
        BinOp::Xor => Ok(Val::Long(longs::xor(a, b))),
        BinOp::Or => Ok(Val::Long(longs::or(a, b))),
        BinOp::Shl | BinOp::Shr | BinOp::UShr | BinOp::AndAlso | BinOp::OrElse => unreachable!(),
    }
}

/// The value of a shift of a `long` by an `int`.
fn shift_long(op: BinOp, a: i64, b: i32) -> Result<Val, Exn>
    requires { Takes op (Val.Long a) (Val.Int b) }
    ensures { Some result ≡ operation op (Val.Long a) (Val.Int b) }
{
    match op {
        BinOp::Shl => Ok(Val::Long(longs::shift_left(a, b))),
        BinOp::Shr => Ok(Val::Long(longs::shift_right(a, b))),
        BinOp::UShr => Ok(Val::Long(longs::shift_right_unsigned(a, b))),
        _ => unreachable!(),
    }
}

/// The value of an operator on two booleans.
fn on_booleans(op: BinOp, a: bool, b: bool) -> Result<Val, Exn>
    requires { Takes op (Val.Bool a) (Val.Bool b) }
    ensures { Some result ≡ operation op (Val.Bool a) (Val.Bool b) }
{
    match op {
        BinOp::Eq => Ok(Val::Bool(a == b)),
        BinOp::Ne | BinOp::Xor => Ok(Val::Bool(a != b)),
        BinOp::And | BinOp::AndAlso => Ok(Val::Bool(a && b)),
        BinOp::Or | BinOp::OrElse => Ok(Val::Bool(a || b)),
        _ => unreachable!(),
    }
}

fn divide_ints(a: i32, b: i32) -> Result<Val, Exn>
    ensures { Some result ≡ operation BinOp.Div (Val.Int a) (Val.Int b) }
{
    if b == 0 {
        Err(Exn::Arithmetic)
    } else {
        Ok(Val::Int(ints::divide(a, b)))
    }
}

fn remainder_ints(a: i32, b: i32) -> Result<Val, Exn>
    ensures { Some result ≡ operation BinOp.Rem (Val.Int a) (Val.Int b) }
{
    if b == 0 {
        Err(Exn::Arithmetic)
    } else {
        Ok(Val::Int(ints::remainder(a, b)))
    }
}

fn divide_longs(a: i64, b: i64) -> Result<Val, Exn>
    ensures { Some result ≡ operation BinOp.Div (Val.Long a) (Val.Long b) }
{
    if b == 0 {
        Err(Exn::Arithmetic)
    } else {
        Ok(Val::Long(longs::divide(a, b)))
    }
}

fn remainder_longs(a: i64, b: i64) -> Result<Val, Exn>
    ensures { Some result ≡ operation BinOp.Rem (Val.Long a) (Val.Long b) }
{
    if b == 0 {
        Err(Exn::Arithmetic)
    } else {
        Ok(Val::Long(longs::remainder(a, b)))
    }
}
