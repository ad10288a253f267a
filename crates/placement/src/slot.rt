//! Which slot of a partitioned field holds a key.

ghost use Rattle.std.specs.Prelude.{◌≡◌, ◌≤◌, ◌<◌};
ghost use Rattle.placement.specs.Slots.{slot};

/// The slot of a key, from 0, among so many slots of a partitioned field: the six top bits of the key
/// times 2^64 divided by the golden ratio, modulo the number of slots.
pub fn slot_of(key: i64, slots: u8) -> u8
    requires some { 1 ≤ slots }
    requires most { slots ≤ 64 }
    ensures value { result ≡ slot key slots }
    ensures below { result < slots }
{
    let product = key.cast_unsigned().wrapping_mul(0x9E37_79B9_7F4A_7C15);
    ((product >> 58) % u64::from(slots)) as u8
}
