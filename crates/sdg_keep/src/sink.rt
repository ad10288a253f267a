//! A place that takes bytes.

ghost use Rattle.std.specs.Prelude.{◌≡◌, ℕ, ◌<◌, ◌≤◌, List, Option, length, take, IfOk};
ghost use Rattle.sdg_keep.specs.Faults.{HasCause};
ghost use Rattle.sdg_keep.specs.Writes.{Appends, TakesOnFault};

use sdg_base::KeepError;

/// A place that takes bytes, in their order.
pub trait Sink {
    /// How often a write has failed, at most 2^64 - 1. A count that stands there stays.
    ghost faults: { Self → ℕ };

    /// The bytes that were written, where they are told.
    ghost written: { Self → Option (List ℕ) };

    /// Takes first bytes of `piece`, at least one, and answers how many. After `Failed` some first
    /// bytes of `piece` may have been taken too, after `Memory` none.
    fn write(&mut self, piece: &[u8]) -> Result<usize, KeepError>
        requires { 0 < length piece.now }

        ensures count { IfOk result (λ n. (0 < n) × (n ≤ length piece.now)) }
        ensures took { IfOk result (λ n. Appends (written self.old) (written self.new) (take n piece.now)) }
        ensures failed { TakesOnFault (written self.old) (written self.new) piece.now result }
        ensures cause { HasCause (faults self.old) (faults self.new) result };
}
