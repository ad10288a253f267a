//! Sets of numbers: each word has 64 of them as its bits.

ghost use Rattle.std.specs.Prelude.{◌≡◌, ◌≤◌, ℕ, not, ◌&&◌, ◌||◌, nat_eq, get_or, length, OnOk, bit_or};
ghost use Rattle.java_flow.specs.Sets.{bit};

use std::alloc::AllocError;

/// Whether a number is in a set.
#[tactic(auto, unfolding(crate::specs::Sets::bit))]
pub fn has(words: &[u64], number: usize) -> bool
    ensures { result ≡ bit words.now number }
{
    let at = number / 64;
    at < words.len() && (words[at] >> (number % 64)) & 1 == 1
}

/// As many words at least, with no more numbers.
fn grow(words: &mut Vec<u64>, len: usize) -> Result<(), AllocError>
    ensures long { OnOk result (len ≤ length words.new.items) }
    ensures same { OnOk result ((at : ℕ) → get_or words.new.items at 0 ≡ get_or words.old.items at 0) }
{
    for _ in words.len()..len {
        words.push(0)?;
    }
    Ok(())
}

/// Puts a number in.
pub fn put(words: &mut Vec<u64>, number: usize) -> Result<(), AllocError>
    ensures { OnOk result ((other : ℕ) → bit words.new.items other ≡ (nat_eq other number || bit words.old.items other)) }
{
    let at = number / 64;
    grow(words, at + 1)?;
    words[at] |= 1 << (number % 64);
    Ok(())
}

/// Takes a number out.
pub fn take(words: &mut Vec<u64>, number: usize)
    ensures { (other : ℕ) → bit words.new.items other ≡ (not (nat_eq other number) && bit words.old.items other) }
{
    let at = number / 64;
    if at < words.len() {
        words[at] &= !(1 << (number % 64));
    }
}

/// Puts in what is in another set.
pub fn join(words: &mut Vec<u64>, others: &[u64]) -> Result<(), AllocError>
    ensures { OnOk result ((other : ℕ) → bit words.new.items other ≡ (bit words.old.items other || bit others.now other)) }
{
    grow(words, others.len())?;
    for at in 0..others.len() {
        words[at] |= others[at];
    }
    Ok(())
}
