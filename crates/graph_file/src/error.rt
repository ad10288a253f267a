//! Why a graph file was refused.

ghost use Rattle.std.specs.Prelude.{◌≡◌};
ghost use Rattle.graph_file.specs.declared.error.GraphError.TheVariants.{Memory};

use sdg_base::Name;
use std::alloc::AllocError;
use thiserror::Error;

/// Why bytes could not be read as a graph.
#[derive(Debug, Drop, Error)]
pub enum GraphError {
    /// They are no JSON.
    #[error("the file is no JSON")]
    NotJson,
    /// They are JSON, but no graph: its form first fails at this path, which has `/` and a key or an
    /// index for each level. It is empty for the whole, and where only the spelling is another one.
    #[error("the file is no graph")]
    NotGraph { path: Name },
    /// Memory ran out.
    #[error("out of memory")]
    Memory,
}

impl From<AllocError> for GraphError {
    ghost from_gives = { λ _ e. e ≡ Memory };

    fn from(_e: AllocError) -> GraphError {
        GraphError::Memory
    }
}
