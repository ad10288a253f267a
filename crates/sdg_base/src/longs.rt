//! Java's operators on `long`s.
#![tactic(auto, using(crate::proofs::Machine::on_longs))]

ghost use Rattle.std.specs.Prelude.{◌≡◌, pos, ◌+ℤ◌, ◌-ℤ◌, ◌*ℤ◌, ◌/◌, ◌^◌, ◌<◌, ◌≢◌, neg_ℤ, bit_and, bit_or, bit_xor};
ghost use Rattle.std.specs.Int.RustNames.{int_div};
ghost use Rattle.sdg_base.specs.declared.val.Num.TheVariants as num;
ghost use Rattle.sdg_base.specs.Arithmetic.{wrap, remainder, distance, floor_shift, digits, by_digits, inverted, from_digits};

pub(crate) fn add(a: i64, b: i64) -> i64
    ensures { result ≡ wrap num.Long (a +ℤ b) }
{
    a.wrapping_add(b)
}

pub(crate) fn subtract(a: i64, b: i64) -> i64
    ensures { result ≡ wrap num.Long (a -ℤ b) }
{
    a.wrapping_sub(b)
}

pub(crate) fn multiply(a: i64, b: i64) -> i64
    ensures { result ≡ wrap num.Long (a *ℤ b) }
{
    a.wrapping_mul(b)
}

pub(crate) fn negate(a: i64) -> i64
    ensures { result ≡ wrap num.Long (neg_ℤ a) }
{
    a.wrapping_neg()
}

pub(crate) fn divide(a: i64, b: i64) -> i64
    requires { b ≢ pos 0 }
    ensures { result ≡ wrap num.Long (int_div a b) }
{
    a.wrapping_div(b)
}

pub(crate) fn remainder(a: i64, b: i64) -> i64
    requires { b ≢ pos 0 }
    ensures { result ≡ remainder a b }
{
    a.wrapping_rem(b)
}

pub(crate) fn shift_left(a: i64, b: i32) -> i64
    ensures { result ≡ wrap num.Long (a *ℤ pos (2 ^ distance num.Long b)) }
{
    a.wrapping_shl(b.cast_unsigned())
}

pub(crate) fn shift_right(a: i64, b: i32) -> i64
    ensures { result ≡ floor_shift a (distance num.Long b) }
{
    a.wrapping_shr(b.cast_unsigned())
}

pub(crate) fn shift_right_unsigned(a: i64, b: i32) -> i64
    ensures { result ≡ from_digits num.Long (digits num.Long a / 2 ^ distance num.Long b) }
{
    a.cast_unsigned()
        .wrapping_shr(b.cast_unsigned())
        .cast_signed()
}

pub(crate) fn and(a: i64, b: i64) -> i64
    ensures { result ≡ by_digits bit_and num.Long a b }
{
    a & b
}

pub(crate) fn or(a: i64, b: i64) -> i64
    ensures { result ≡ by_digits bit_or num.Long a b }
{
    a | b
}

pub(crate) fn xor(a: i64, b: i64) -> i64
    ensures { result ≡ by_digits bit_xor num.Long a b }
{
    a ^ b
}

pub(crate) fn complement(a: i64) -> i64
    ensures { result ≡ inverted num.Long a }
{
    !a
}
