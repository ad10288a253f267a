//! The steps of a history with the lines that told them.

use sdg_base::Steps;
use sqlite_items::Items;

/// Numbers of lines of a text, from 1.
pub type LineNumbers = Items<u32>;

/// The steps that a text tells: how many instances each partial field has at the start, from 1 to 64, the
/// steps in their order, and for each step the number of its line.
#[derive(Debug, Drop)]
pub struct History {
    pub width: u8,
    pub steps: Steps,
    pub lines: LineNumbers,
}
