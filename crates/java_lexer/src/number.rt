//! Integer literals (JLS 3.10.1).

ghost use Rattle.std.specs.Prelude.{◌≡◌, ◌+◌, ◌*◌, ◌<◌, ◌≤◌, ◌^◌, ◌&&◌, nat_lt, if◌then◌else◌, SomeIff, Option, Some, None, length, take, drop};
ghost use Rattle.std.specs.Char.{is_digit, digit_value};
ghost use Rattle.java_lexer.specs.Numbers as literals;
ghost use Rattle.java_lexer.specs.Reading as spec;

use java_tree::Kind;

/// How a numeral is written.
#[derive(Clone, Copy, Debug)]
pub enum Base {
    Decimal,
    Hexadecimal,
    Octal,
    Binary,
}

fn radix(base: Base) -> u32
    ensures value { result ≡ literals.radix base }
    ensures range { (2 ≤ result) × (result ≤ 16) }
{
    match base {
        Base::Decimal => 10,
        Base::Hexadecimal => 16,
        Base::Octal => 8,
        Base::Binary => 2,
    }
}

fn is_decimal(base: Base) -> bool
    ensures { result ≡ literals.is_decimal base }
{
    matches!(base, Base::Decimal)
}

/// The largest value of a literal. In base 10 it is the magnitude of the least value of the type,
/// which a minus may stand before.
fn largest(decimal: bool, long: bool) -> u64
    ensures { result ≡ literals.largest decimal long }
{
    match (decimal, long) {
        (true, false) => 2_147_483_648,
        (true, true) => 9_223_372_036_854_775_808,
        (false, false) => 4_294_967_295,
        (false, true) => 18_446_744_073_709_551_615,
    }
}

/// The number that a digit writes behind those of the value, if it is below 2^64.
fn with_digit(radix: u32, value: u64, byte: u8) -> Option<u64>
    requires { (2 ≤ radix) × (radix ≤ 16) }
    ensures { result ≡ spec.with_digit radix value byte }
{
    let digit = char::from(byte).to_digit(radix)?;
    value
        .checked_mul(u64::from(radix))?
        .checked_add(u64::from(digit))
}

fn value_from(radix: u32, text: &[u8]) -> Option<u64>
    requires { (2 ≤ radix) × (radix ≤ 16) }
    ensures { result ≡ spec.value_from radix 0 text.now }
{
    let mut value = 0;
    for byte in text {
        if *byte != b'_' {
            let Some(more) = with_digit(radix, value, *byte) else {
                return None;
            };
            value = more;
        }
    }
    Some(value)
}

/// The number of digits with `_` between them, if it is below 2^64.
fn value_of(radix: u32, text: &[u8]) -> Option<u64>
    requires { (2 ≤ radix) × (radix ≤ 16) }
    ensures { result ≡ spec.value_of radix text.now }
{
    if text.is_empty() || text.starts_with(b"_") || text.ends_with(b"_") {
        None
    } else {
        value_from(radix, text)
    }
}

/// The base of a numeral, and how many bytes stand before its digits.
fn base_of(text: &[u8]) -> (Base, usize)
    ensures value { result ≡ spec.base_of text.now }
    ensures within { result.1 ≤ length text.now }
{
    if text.starts_with(b"0x") || text.starts_with(b"0X") {
        (Base::Hexadecimal, 2)
    } else if text.starts_with(b"0b") || text.starts_with(b"0B") {
        (Base::Binary, 2)
    } else if text.starts_with(b"0") && text.len() > 1 {
        (Base::Octal, 0)
    } else {
        (Base::Decimal, 0)
    }
}

/// The literal of a numeral.
fn literal(text: &[u8], long: bool) -> Option<Kind>
    ensures { result ≡ spec.numeral long text.now }
{
    let (base, prefix) = base_of(text);
    let (_, body) = text.split_at(prefix);
    let decimal = is_decimal(base);
    let digits = value_of(radix(base), body)?;
    if digits <= largest(decimal, long) {
        Some(Kind::Number {
            digits,
            decimal,
            long,
        })
    } else {
        None
    }
}

fn has_suffix(text: &[u8]) -> bool
    ensures value { result ≡ spec.has_suffix text.now }
{
    text.ends_with(b"L") || text.ends_with(b"l")
}

/// The literal that the whole text is, if it is one.
pub fn number_of(text: &[u8]) -> Option<Kind>
    ensures { result ≡ spec.number_of text.now }
{
    let long = has_suffix(text);
    if long {
        let (numeral, _) = text.split_at(text.len() - 1);
        literal(numeral, long)
    } else {
        literal(text, long)
    }
}
