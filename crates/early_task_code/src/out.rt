//! What an item gives.

ghost use Rattle.std.specs.Prelude.{◌≡◌, [], ◌∷◌};
ghost use Rattle.early_task_code.specs.Steps.{outputs_of};

use sdg_base::{Item, Port};

/// An item for the cell at a port, or the result of a call, which is for the sink.
#[derive(Debug, Drop)]
pub enum Out {
    Send(Port, Item),
    Result(Item),
}

impl Out {
    /// The port that it is for, and the item.
    pub fn addressed(self) -> (Port, Item)
        ensures { outputs_of self ≡ result ∷ [] }
    {
        match self {
            Out::Send(to, item) => (to, item),
            Out::Result(item) => (Port::Sink, item),
        }
    }
}
