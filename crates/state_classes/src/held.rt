//! Whatever holds entries under keys.

ghost use Rattle.std.specs.Prelude.{◌≡◌, ◌<◌, ◌^◌, List, length};
ghost use Rattle.std.specs.Option.{option_map};
ghost use Rattle.std.specs.List.Sorted.{IsStrictlySortedBy};
ghost use Rattle.std.specs.Map.{keys_of};
ghost use Rattle.state_classes.specs.Entries.{entry_at, key_after};

/// Whatever holds values under keys, each key once. It is seen as the list of its entries in rising
/// key order.
pub trait Held {
    type Key: Ord;

    type Value;

    /// The entries in rising key order.
    ghost entries: { Self → List (Self.Key × Self.Value) };

    /// The value under a key. `None` exactly where there is no entry.
    fn read(&self, key: &Self::Key) -> Option<Self::Value>
        ensures { result ≡ entry_at Self.Key.cmp key.now (entries self.now) };

    /// The least key above the given one, or the least of all where none is given. `None` exactly
    /// where there is no such key.
    fn after(&self, key: Option<&Self::Key>) -> Option<Self::Key>
        ensures key { result ≡ key_after Self.Key.cmp (option_map (λ k. k.now) key.entry) (entries self.now) }
        ensures rising { IsStrictlySortedBy Self.Key.cmp (keys_of (entries self.now)) };

    /// The number of entries, which is below 2^63.
    fn size(&self) -> usize
        ensures small { result < 2 ^ 63 }
        ensures count { result ≡ length (entries self.now) }
        ensures rising { IsStrictlySortedBy Self.Key.cmp (keys_of (entries self.now)) };
}
