//! What a history gives.

use sdg_base::Outcome;
use sqlite_items::Items;

/// How calls ended, beside their numbers, from 1.
pub type Results = Items<(u32, Outcome)>;

/// What a history gives: how the calls that ended did, in the order in which they ended, and how many steps it has.
#[derive(Drop)]
pub struct Replayed {
    pub results: Results,
    pub steps: usize,
}
