//! What is known behind an expression, from what is known behind its parts (JLS 15.28, 16.1).

ghost use Rattle.std.specs.Prelude.{◌≡◌};
ghost use Rattle.java_flow.specs.Expressions.{cut_between, settled, binary_verdict, conditional_verdict};

use crate::constants::{Constant, binary, binary_is_long, conditional, is_false, is_true};
use crate::verdict::Verdict;
use sdg_base::BinOp;

/// After a constant `false` every variable is assigned when true, and after a constant `true` when
/// false (JLS 16.1.1).
pub fn settled(constant: Constant, is_long: bool, when_true: bool, when_false: bool) -> Verdict
    ensures { result ≡ settled constant is_long when_true when_false }
{
    let when_true = is_false(&constant) || when_true;
    let when_false = is_true(&constant) || when_false;
    Verdict {
        constant,
        is_long,
        when_true,
        when_false,
    }
}

/// Whether every variable is assigned before the second operand.
pub fn cut_between(op: BinOp, when_true: bool, when_false: bool, cut: bool) -> bool
    ensures { result ≡ cut_between op when_true when_false cut }
{
    match op {
        BinOp::AndAlso => when_true,
        BinOp::OrElse => when_false,
        _ => cut,
    }
}

pub fn binary_verdict(op: BinOp, a: Verdict, b: Verdict, cut: bool) -> Verdict
    ensures { result ≡ binary_verdict op a b cut }
{
    let is_long = binary_is_long(op, a.is_long, b.is_long);
    let constant = binary(op, a.constant, b.constant);
    match op {
        BinOp::AndAlso => settled(
            constant,
            is_long,
            a.when_true || b.when_true,
            a.when_false && b.when_false,
        ),
        BinOp::OrElse => settled(
            constant,
            is_long,
            a.when_true && b.when_true,
            a.when_false || b.when_false,
        ),
        _ => settled(constant, is_long, cut, cut),
    }
}

pub fn conditional_verdict(test: Verdict, first: Verdict, second: Verdict) -> Verdict
    ensures { result ≡ conditional_verdict test first second }
{
    let is_long = first.is_long || second.is_long;
    let when_true = first.when_true && second.when_true;
    let when_false = first.when_false && second.when_false;
    let constant = conditional(is_long, test.constant, first.constant, second.constant);
    settled(constant, is_long, when_true, when_false)
}
