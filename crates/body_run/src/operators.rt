//! Operators on operands of any type.

ghost use Rattle.std.specs.Prelude.{◌≡◌, unwrap_or, replicate, pos};
ghost use Rattle.sdg_base.specs.Operations.{operation, unary_operation, converted};
ghost use Rattle.access_blocks.specs.Expressions as spec;
ghost use Rattle.body_run.specs.Seen.{Evaluates};

use crate::stop::Stop;
use access_blocks::Halt;
use sdg_base::{BinOp, Exn, Num, UnOp, Val, bin, binary_type, cast, type_of, un, unary_type};

/// Whether a value is the condition `true`.
pub fn is_true(value: Val) -> bool
    ensures { result ≡ spec.is_true value }
{
    match value {
        Val::Bool(holds) => holds,
        _ => false,
    }
}

/// The value of a unary operator (JLS 15.15); `Unit` where it does not take the operand.
pub fn unary(op: UnOp, operand: &Val) -> Val
    ensures { result ≡ unwrap_or (unary_operation op operand.now) Val.Unit }
{
    if unary_type(op, type_of(operand)).is_some() {
        un(op, operand)
    } else {
        Val::Unit
    }
}

/// A number as one of a type (JLS 5.1.2, 5.1.3); `Unit` where the operand is no number.
pub fn converted(to: Num, operand: &Val) -> Val
    ensures { result ≡ unwrap_or (converted to operand.now) Val.Unit }
{
    match operand {
        Val::Int(_) | Val::Long(_) => cast(to, operand),
        _ => Val::Unit,
    }
}

/// The value of a binary operator, both of whose operands are evaluated (JLS 15.17 to 15.22), with the turns that are left;
/// `Unit` where it does not take the operands. A zero divisor throws.
#[inline(never)]
#[tactic(auto, using(crate::proofs::Untaken::untaken))]
pub fn binary(op: BinOp, left: &Val, right: &Val, turns: u32) -> Result<(Val, u32), Stop>
    ensures { Evaluates (λ v. v) result (spec.answered (operation op left.now right.now) turns) }
{
    if binary_type(op, type_of(left), type_of(right)).is_none() {
        return Ok((Val::Unit, turns));
    }
    match bin(op, left, right) {
        Ok(value) => Ok((value, turns)),
        Err(exception) => Err(Stop::Halt(Halt::Threw(exception))),
    }
}
