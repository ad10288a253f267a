//! Constant expressions (JLS 15.28).

ghost use Rattle.std.specs.Prelude.{◌≡◌, None, Some};
ghost use Rattle.sdg_base.specs.Operations.{operation, unary_operation, converted};
ghost use Rattle.body_code.specs.Completing as spec;
ghost use Rattle.task_lower.specs.Shown.{constant_by};

use access_blocks::Expression;
use sdg_base::{BinOp, Num, UnOp, Val, bin, binary_type, cast, type_of, un, unary_type};
use sqlite_items::Boxed;

/// Whether an expression is built of literals, casts and operators, and its value, unless it throws.
#[derive(Drop)]
pub enum Constant {
    IsNone,
    HasNoValue,
    Is(Val),
}

fn unary(op: UnOp, operand: Constant) -> Constant
    ensures { constant_by result ≡ spec.on_one (unary_operation op) (constant_by operand) }
{
    match operand {
        Constant::IsNone => Constant::IsNone,
        Constant::HasNoValue => Constant::HasNoValue,
        Constant::Is(value) => unary_value(op, &value),
    }
}

fn unary_value(op: UnOp, value: &Val) -> Constant
    ensures { constant_by result ≡ spec.given (unary_operation op value.now) }
{
    if unary_type(op, type_of(value)).is_some() {
        Constant::Is(un(op, value))
    } else {
        Constant::IsNone
    }
}

fn converted(to: Num, operand: Constant) -> Constant
    ensures { constant_by result ≡ spec.on_one (converted to) (constant_by operand) }
{
    match operand {
        Constant::IsNone => Constant::IsNone,
        Constant::HasNoValue => Constant::HasNoValue,
        Constant::Is(value) => converted_value(to, &value),
    }
}

fn converted_value(to: Num, value: &Val) -> Constant
    ensures { constant_by result ≡ spec.given (converted to value.now) }
{
    match value {
        Val::Int(_) | Val::Long(_) => Constant::Is(cast(to, value)),
        _ => Constant::IsNone,
    }
}

fn both(op: BinOp, left: Constant, right: Constant) -> Constant
    ensures { constant_by result ≡ spec.on_two op (constant_by left) (constant_by right) }
{
    match (left, right) {
        (Constant::IsNone, _) => Constant::IsNone,
        (_, Constant::IsNone) => Constant::IsNone,
        (Constant::Is(left), Constant::Is(right)) => binary_value(op, &left, &right),
        _ => Constant::HasNoValue,
    }
}

#[tactic(auto, using(crate::proofs::Untaken::untaken))]
fn binary_value(op: BinOp, left: &Val, right: &Val) -> Constant
    ensures { constant_by result ≡ spec.answered (operation op left.now right.now) }
{
    if binary_type(op, type_of(left), type_of(right)).is_none() {
        return Constant::IsNone;
    }
    match bin(op, left, right) {
        Ok(value) => Constant::Is(value),
        Err(_) => Constant::HasNoValue,
    }
}

fn chosen(test: Constant, first: Constant, second: Constant) -> Constant
    ensures { constant_by result ≡ spec.chosen (constant_by test) (constant_by first) (constant_by second) }
{
    match (test, first, second) {
        (Constant::IsNone, _, _) => Constant::IsNone,
        (_, _, Constant::IsNone) => Constant::IsNone,
        (_, Constant::IsNone, _) => Constant::IsNone,
        (Constant::Is(Val::Bool(true)), first, _) => first,
        (Constant::Is(Val::Bool(false)), _, second) => second,
        (Constant::HasNoValue, _, _) => Constant::HasNoValue,
        _ => Constant::IsNone,
    }
}

fn operated(op: BinOp, left: Constant, right: Constant) -> Constant
    ensures { constant_by result ≡ spec.operated op (constant_by left) (constant_by right) }
{
    match op {
        BinOp::AndAlso => chosen(left, right, Constant::Is(Val::Bool(false))),
        BinOp::OrElse => chosen(left, Constant::Is(Val::Bool(true)), right),
        _ => both(op, left, right),
    }
}

/// The constant that an expression is.
#[cycle(constants)]
fn constant_of(e: &Expression) -> Constant
    ensures { constant_by result ≡ spec.constant_of e.now }
{
    match e {
        Expression::Int(number) => Constant::Is(Val::Int(*number)),
        Expression::Long(number) => Constant::Is(Val::Long(*number)),
        Expression::Bool(truth) => Constant::Is(Val::Bool(*truth)),
        Expression::Unary(op, a) => unary(*op, constant_of(a.get())),
        Expression::Binary(op, a, b) => operated(*op, constant_of(a.get()), constant_of(b.get())),
        Expression::Cast(to, a) => converted(*to, constant_of(a.get())),
        Expression::Conditional(test, a, b) => {
            chosen(
                constant_of(test.get()),
                constant_of(a.get()),
                constant_of(b.get()),
            )
        }
        Expression::Nothing
        | Expression::Variable(_)
        | Expression::CarriedKey
        | Expression::NewVector(_)
        | Expression::VectorSize(_)
        | Expression::VectorElement(_, _)
        | Expression::GatheredLength
        | Expression::Gathered(_)
        | Expression::GatheredSize(_)
        | Expression::GatheredElement(_, _)
        | Expression::Call(_, _)
        | Expression::Merge(_) => Constant::IsNone,
    }
}

fn is_constant_true(constant: Constant) -> bool
    ensures { result ≡ spec.is_constant_true (constant_by constant) }
{
    match constant {
        Constant::Is(Val::Bool(truth)) => truth,
        _ => false,
    }
}

/// Whether a loop goes on, as far as its condition is constant.
pub fn goes_on(test: &Option<Boxed<Expression>>) -> bool
    ensures { result ≡ spec.goes_on test.now }
{
    match test {
        None => true,
        Some(test) => is_constant_true(constant_of(test.get())),
    }
}
