//! Limits that several meanings share.

/// How many turns each call starts with. A turn is spent at each entry into a loop's body, at each
/// mark and at each call of a helper; where none is left the call ends with `limit`.
pub const TURNS_AT_START: u32 = 100_000;
