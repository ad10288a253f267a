//! Ordered maps as what a class holds.

ghost use Rattle.std.specs.Prelude.{◌≡◌, OnOk, OnErr};
ghost use Rattle.std.specs.Option.{option_map};
ghost use Rattle.std.specs.List.Sorted.{IsStrictlySortedBy};
ghost use Rattle.std.specs.Map.{keys_of};
ghost use Rattle.state_classes.specs.Entries.{key_after, with_entry, changed};

use std::alloc::{AllocError, Global};
use std::collections::BTreeMap;
use std::ops::Bound;

/// The least key above the given one, or the least of all where none is given.
pub(crate) fn key_after<K: Ord + Copy>(entries: &BTreeMap<K, i64>, key: Option<&K>) -> Option<K>
    ensures key { result ≡ key_after K.cmp (option_map (λ k. k.now) key.entry) entries.now.entries }
    ensures rising { IsStrictlySortedBy K.cmp (keys_of entries.now.entries) }
{
    match key {
        None => least(entries),
        Some(key) => least_above(entries, *key),
    }
}

fn least<K: Ord + Copy>(entries: &BTreeMap<K, i64>) -> Option<K>
    ensures key { result ≡ key_after K.cmp None entries.now.entries }
    ensures rising { IsStrictlySortedBy K.cmp (keys_of entries.now.entries) }
{
    match entries.iter().next() {
        Some((key, _)) => Some(*key),
        None => None,
    }
}

fn least_above<K: Ord + Copy>(entries: &BTreeMap<K, i64>, key: K) -> Option<K>
    ensures key { result ≡ key_after K.cmp (Some key) entries.now.entries }
    ensures rising { IsStrictlySortedBy K.cmp (keys_of entries.now.entries) }
{
    match entries
        .range((Bound::Excluded(key), Bound::Unbounded))
        .next()
    {
        Some((key, _)) => Some(*key),
        None => None,
    }
}

/// Sets the entry of a key, or removes it.
pub(crate) fn set_entry<K: Ord + Drop>(
    entries: &mut BTreeMap<K, i64>,
    key: K,
    value: Option<i64>,
) -> Result<(), AllocError>
    ensures ok { OnOk result (entries.new.entries ≡ with_entry K.cmp key value entries.old.entries) }
    ensures err { OnErr result (entries.new.entries ≡ entries.old.entries) }
{
    match value {
        Some(value) => {
            entries.insert(key, value)?;
        }
        None => {
            entries.remove(&key);
        }
    }
    Ok(())
}

/// Makes a change of at most one entry.
pub(crate) fn make_change<K: Ord + Drop>(
    entries: &mut BTreeMap<K, i64>,
    change: Option<(K, Option<i64>)>,
) -> Result<(), AllocError>
    ensures ok { OnOk result (entries.new.entries ≡ changed K.cmp change entries.old.entries) }
    ensures err { OnErr result (entries.new.entries ≡ entries.old.entries) }
{
    match change {
        Some((key, value)) => set_entry(entries, key, value),
        None => Ok(()),
    }
}
