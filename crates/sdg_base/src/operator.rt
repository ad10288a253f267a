//! Java's operators on numbers.

ghost use Rattle.std.specs.Prelude.{◌≡◌};
ghost use Rattle.sdg_base.specs.Operators.{IsNumber, widened, sum_of};

use crate::val::Val;
use crate::{ints, longs};

/// A binary operator (JLS 15.17 to 15.24).
#[derive(Clone, Copy, Debug, PartialEq, Eq)]
pub enum BinOp {
    Mul,
    Div,
    Rem,
    Add,
    Sub,
    Shl,
    Shr,
    UShr,
    Lt,
    Le,
    Gt,
    Ge,
    Eq,
    Ne,
    And,
    Xor,
    Or,
    AndAlso,
    OrElse,
}

/// A unary operator (JLS 15.15).
#[derive(Clone, Copy, Debug, PartialEq, Eq)]
pub enum UnOp {
    Plus,
    Minus,
    Complement,
    Not,
}

/// A number as a `long`: the widening of JLS 5.1.2, which keeps its value.
pub fn widen(value: &Val) -> i64
    requires { IsNumber value.now }
    ensures { Val.Long result ≡ widened value.now }
{
    match value {
        Val::Int(n) => i64::from(*n),
        Val::Long(n) => *n,
        _ => unreachable!(),
    }
}

/// The sum of two numbers (JLS 15.18.2) after binary numeric promotion (JLS 5.6): two `int` add up
/// to an `int` and wrap around at 32 bits, and where one is a `long` both are, and wrap around at 64.
pub fn add(left: &Val, right: &Val) -> Val
    requires left { IsNumber left.now }
    requires right { IsNumber right.now }
    ensures { result ≡ sum_of left.now right.now }
{
    match (left, right) {
        (Val::Int(a), Val::Int(b)) => Val::Int(ints::add(*a, *b)),
        (Val::Int(a), Val::Long(b)) => Val::Long(longs::add(i64::from(*a), *b)),
        (Val::Long(a), Val::Int(b)) => Val::Long(longs::add(*a, i64::from(*b))),
        (Val::Long(a), Val::Long(b)) => Val::Long(longs::add(*a, *b)),
        _ => unreachable!(),
    }
}
