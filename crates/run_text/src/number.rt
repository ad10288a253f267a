//! Numbers in their one decimal form.

ghost use Rattle.std.specs.Prelude.{◌≡◌, ◌≢◌, ◌<◌, ◌≤◌, ◌↔◌, ℕ, ℤ, drop, decimal, All, IsTrue, MatchOption, FitsSigned};
ghost use Rattle.std.specs.Fmt.{signed_decimal};
ghost use Rattle.std.specs.Int.{w32, w64};
ghost use Rattle.run_text.specs.Numbers.{begins_above_zero, begins_as_number, IsNumber};
ghost use Rattle.run_text.specs.Histories.{IsCallNumber, IsCount};
ghost use Rattle.std.specs.Prelude.{slice_index};

/// The `int` that the bytes write, where they write one.
pub(crate) fn int_of(bytes: &[u8]) -> Option<i32>
    ensures { MatchOption result ((n : ℤ) → FitsSigned w32 n → signed_decimal n ≢ bytes.now) (λ n. FitsSigned w32 n × (signed_decimal n ≡ bytes.now)) }
{
    match long_of(bytes) {
        Some(n) => i32::try_from(n).ok(),
        None => None,
    }
}

/// The `long` that the bytes write, where they write one.
pub(crate) fn long_of(bytes: &[u8]) -> Option<i64>
    ensures { MatchOption result ((n : ℤ) → FitsSigned w64 n → signed_decimal n ≢ bytes.now) (λ n. FitsSigned w64 n × (signed_decimal n ≡ bytes.now)) }
{
    if !is_one_form(bytes) {
        return None;
    }
    match str::from_utf8(bytes) {
        Ok(text) => text.parse::<i64>().ok(),
        Err(_) => None,
    }
}

/// Whether no other text of digits would write the same number.
fn is_one_form(bytes: &[u8]) -> bool
    ensures { result ≡ begins_as_number bytes.now }
{
    match bytes {
        [b'0', rest @ ..] => rest.is_empty(),
        [b'-', rest @ ..] => has_first_digit(rest),
        _ => has_first_digit(bytes),
    }
}

/// Whether a digit above zero stands first.
fn has_first_digit(bytes: &[u8]) -> bool
    ensures { result ≡ begins_above_zero bytes.now }
{
    match bytes {
        [first, ..] => (b'1'..=b'9').contains(first),
        [] => false,
    }
}

/// The number from `low` to `high` that the bytes write, where they write one.
pub(crate) fn number_within(bytes: &[u8], low: u8, high: u8) -> Option<u8>
    ensures { MatchOption result ((n : ℕ) → low ≤ n → n ≤ high → decimal n ≢ bytes.now) (λ n. (low ≤ n) × (n ≤ high) × (decimal n ≡ bytes.now)) }
{
    let number = byte_of(bytes)?;
    if number < low || high < number {
        return None;
    }
    Some(number)
}

/// The number below 256 that the bytes write, where they write one.
fn byte_of(bytes: &[u8]) -> Option<u8>
    ensures { MatchOption result ((n : ℕ) → n < 256 → decimal n ≢ bytes.now) (λ n. (n < 256) × (decimal n ≡ bytes.now)) }
{
    match long_of(bytes) {
        Some(n) => u8::try_from(n).ok(),
        None => None,
    }
}

/// The number from 1 to `most` that the bytes write, where they write one.
pub(crate) fn number_upto(bytes: &[u8], most: u32) -> Option<u32>
    ensures { MatchOption result ((n : ℕ) → IsCallNumber most n → decimal n ≢ bytes.now) (λ n. IsCallNumber most n × (decimal n ≡ bytes.now)) }
{
    let number = long_of(bytes)?;
    if number < 1 {
        return None;
    }
    if i64::from(most) < number {
        return None;
    }
    Some(number as u32)
}

/// The number below `limit` that the bytes write, where they write one.
pub(crate) fn number_below(bytes: &[u8], limit: u8) -> Option<u8>
    ensures { MatchOption result ((n : ℕ) → n < limit → decimal n ≢ bytes.now) (λ n. (n < limit) × (decimal n ≡ bytes.now)) }
{
    if limit == 0 {
        return None;
    }
    number_within(bytes, 0, limit - 1)
}

/// Whether the bytes write a number of any size that isn't negative.
pub(crate) fn is_count(bytes: &[u8]) -> bool
    ensures { IsTrue result ↔ IsCount bytes.now }
{
    is_number(bytes) && !has_minus(bytes)
}

/// Whether a minus stands first.
fn has_minus(bytes: &[u8]) -> bool
    ensures { IsTrue result ↔ (slice_index bytes.now 0 ≡ 45) }
{
    match bytes {
        [first, ..] => *first == b'-',
        [] => false,
    }
}

/// Whether the bytes write a number of any size.
pub(crate) fn is_number(bytes: &[u8]) -> bool
    ensures { IsTrue result ↔ IsNumber bytes.now }
{
    is_one_form(bytes) && has_digits(bytes)
}

/// Whether the bytes behind the first are digits.
fn has_digits(bytes: &[u8]) -> bool
    ensures { IsTrue result ↔ All (λ b. (48 ≤ b) × (b ≤ 57)) (drop 1 bytes.now) }
{
    match bytes {
        [_, rest @ ..] => rest.iter().all(|b| b.is_ascii_digit()),
        [] => true,
    }
}
