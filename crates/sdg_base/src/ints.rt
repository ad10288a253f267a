//! Java's operators on `int`s.
#![tactic(auto, using(crate::proofs::Machine::on_ints))]

ghost use Rattle.std.specs.Prelude.{◌≡◌, pos, ◌+ℤ◌, ◌-ℤ◌, ◌*ℤ◌, ◌/◌, ◌^◌, ◌<◌, ◌≢◌, neg_ℤ, bit_and, bit_or, bit_xor};
ghost use Rattle.std.specs.Int.RustNames.{int_div};
ghost use Rattle.sdg_base.specs.declared.val.Num.TheVariants as num;
ghost use Rattle.sdg_base.specs.Arithmetic.{wrap, remainder, distance, floor_shift, digits, by_digits, inverted, from_digits};

pub(crate) fn add(a: i32, b: i32) -> i32
    ensures { result ≡ wrap num.Int (a +ℤ b) }
{
    a.wrapping_add(b)
}

pub(crate) fn subtract(a: i32, b: i32) -> i32
    ensures { result ≡ wrap num.Int (a -ℤ b) }
{
    a.wrapping_sub(b)
}

pub(crate) fn multiply(a: i32, b: i32) -> i32
    ensures { result ≡ wrap num.Int (a *ℤ b) }
{
    a.wrapping_mul(b)
}

pub(crate) fn negate(a: i32) -> i32
    ensures { result ≡ wrap num.Int (neg_ℤ a) }
{
    a.wrapping_neg()
}

pub(crate) fn divide(a: i32, b: i32) -> i32
    requires { b ≢ pos 0 }
    ensures { result ≡ wrap num.Int (int_div a b) }
{
    a.wrapping_div(b)
}

pub(crate) fn remainder(a: i32, b: i32) -> i32
    requires { b ≢ pos 0 }
    ensures { result ≡ remainder a b }
{
    a.wrapping_rem(b)
}

pub(crate) fn shift_left(a: i32, b: i32) -> i32
    ensures { result ≡ wrap num.Int (a *ℤ pos (2 ^ distance num.Int b)) }
{
    a.wrapping_shl(b.cast_unsigned())
}

pub(crate) fn shift_right(a: i32, b: i32) -> i32
    ensures { result ≡ floor_shift a (distance num.Int b) }
{
    a.wrapping_shr(b.cast_unsigned())
}

pub(crate) fn shift_right_unsigned(a: i32, b: i32) -> i32
    ensures { result ≡ from_digits num.Int (digits num.Int a / 2 ^ distance num.Int b) }
{
    a.cast_unsigned()
        .wrapping_shr(b.cast_unsigned())
        .cast_signed()
}

pub(crate) fn and(a: i32, b: i32) -> i32
    ensures { result ≡ by_digits bit_and num.Int a b }
{
    a & b
}

pub(crate) fn or(a: i32, b: i32) -> i32
    ensures { result ≡ by_digits bit_or num.Int a b }
{
    a | b
}

pub(crate) fn xor(a: i32, b: i32) -> i32
    ensures { result ≡ by_digits bit_xor num.Int a b }
{
    a ^ b
}

pub(crate) fn complement(a: i32) -> i32
    ensures { result ≡ inverted num.Int a }
{
    !a
}

pub(crate) fn low_half(a: i64) -> i32
    ensures { result ≡ wrap num.Int a }
{
    ((a.cast_unsigned() % 0x1_0000_0000) as u32).cast_signed()
}
