//! What a method is to answer and to change, before the change is made.

ghost use Rattle.std.specs.Prelude.{◌≡◌};
ghost use Rattle.state_classes.specs.Plans.{ends, gives, sets, removes, sum_of, product_of};

use sdg_base::{Outcome, Val};

/// How a call of a method ends, and its change of at most one entry: the key, and the value from then
/// on, `None` where the entry is removed.
#[derive(Debug, Drop)]
pub struct Plan<Q, V> {
    pub outcome: Outcome,
    pub change: Option<(Q, Option<V>)>,
}

/// An outcome, and no change.
pub(crate) fn ends<Q>(outcome: Outcome) -> Plan<Q, i64>
    ensures { result ≡ ends outcome }
{
    Plan {
        outcome,
        change: None,
    }
}

/// A value, and no change.
pub(crate) fn gives<Q>(value: Val) -> Plan<Q, i64>
    ensures { result ≡ gives value }
{
    ends(Outcome::Value(value))
}

/// The entry of a key set.
pub(crate) fn sets<Q>(key: Q, value: i64) -> Plan<Q, i64>
    ensures { result ≡ sets key value }
{
    Plan {
        outcome: Outcome::Value(Val::Unit),
        change: Some((key, Some(value))),
    }
}

/// The entry of a key removed.
pub(crate) fn removes<Q>(key: Q) -> Plan<Q, i64>
    ensures { result ≡ removes key }
{
    Plan {
        outcome: Outcome::Value(Val::Unit),
        change: Some((key, None)),
    }
}

/// The sum of two `long`s, which wraps around at 64 bits (JLS 15.18.2).
#[tactic(auto, using(sdg_base::proofs::Machine::on_longs))]
pub(crate) fn sum_of(a: i64, b: i64) -> i64
    ensures { result ≡ sum_of a b }
{
    a.wrapping_add(b)
}

/// The product of two `long`s, which wraps around at 64 bits (JLS 15.17.1).
#[tactic(auto, using(sdg_base::proofs::Machine::on_longs))]
fn product_of(a: i64, b: i64) -> i64
    ensures { result ≡ product_of a b }
{
    a.wrapping_mul(b)
}

/// A sum with a product of two `long`s added.
pub(crate) fn plus_product(sum: &i64, a: &i64, b: &i64) -> i64
    ensures { result ≡ sum_of sum.now (product_of a.now b.now) }
{
    sum_of(*sum, product_of(*a, *b))
}
