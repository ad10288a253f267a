//! Fields as the texts of a run name them.

use sdg_base::Name;

/// A field of a class: its name, and whether it is partial, so that each of its instances has a state of
/// its own. A field that isn't partial is partitioned.
#[derive(Debug, Drop)]
pub struct Field {
    pub name: Name,
    pub partial: bool,
}
