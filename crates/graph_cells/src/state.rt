//! What a cell holds.

ghost use Rattle.std.specs.Prelude.{◌≡◌, IfOk, OnOk, IsTrue};
ghost use Rattle.flat_code.specs.Fits.{fits};
ghost use Rattle.flat_code.specs.Items.{runs};
ghost use Rattle.flat_code.specs.Verified.{IsVerified};
ghost use Rattle.graph_safety.specs.Safe.{AreWidths, ArePartsBeside, OutputFits};
ghost use Rattle.task_code.specs.Given.{output_of};
ghost use Rattle.graph_cells.specs.Held.{held, standing, first_held, IsHeldAt};
ghost use Rattle.graph_cells.specs.Processing.{out_of, ran_from, ran_so};

use flat_code::Graph;
use sdg_base::{Item, Port, Widths};
use sqlite_items::at;
use state_classes::{AnyState, Counter};
use std::alloc::{AllocError, Global};
use task_code::{Out, Parts, run_task};

/// Nothing, as in a cell without a field, or an object of the class of its field.
#[derive(Drop)]
pub enum CellState {
    Nothing,
    Object(AnyState),
}

impl CellState {
    /// What the cell of a port holds before its first item: in a slot and in an instance an empty
    /// object of the class of its field. It takes no memory.
    pub fn new(alloc: Global, graph: &Graph, port: Port) -> CellState
        ensures { held result ≡ first_held graph.now port }
    {
        match port {
            Port::Slot { field, .. } | Port::Inst { field, .. } => {
                match at(graph.fields.as_slice(), usize::from(field)) {
                    Some(field) => CellState::Object(AnyState::new(alloc, field.class)),
                    None => CellState::Nothing,
                }
            }
            Port::Caller | Port::Sink | Port::Front | Port::Join => CellState::Nothing,
        }
    }

    /// Runs an item that fits, beside the parts of its call that wait. In a cell that holds nothing
    /// its code accesses nothing. After an `Err` some accesses may have been made.
    pub(crate) fn run(
        &mut self,
        alloc: Global,
        graph: &Graph,
        port: Port,
        item: &Item,
        parts: &Parts,
        pick: u8,
        widths: &Widths,
    ) -> Result<Out, AllocError>
        requires graph { IsVerified graph.now }
        requires widths { AreWidths graph.now widths.now }
        requires item { IsTrue (fits graph.now widths.now port item.now) }
        requires parts { ArePartsBeside graph.now widths.now item.now parts.now }
        requires state { IsHeldAt graph.now port (held self.old) }
        ensures ran { IfOk result (λ out. ran_from (held self.old) (runs graph.now port item.now parts.now (standing (held self.old)) pick widths.now) ≡ ran_so (out_of (output_of out)) (held self.new)) }
        ensures fits { IfOk result (λ out. OutputFits graph.now widths.now port item.now parts.now (output_of out)) }
        ensures state { OnOk result (IsHeldAt graph.now port (held self.new)) }
    {
        match self {
            CellState::Nothing => {
                let mut nothing = Counter::new(alloc);
                let out = run_task(alloc, graph, port, item, parts, &mut nothing, pick, widths)?;
                Ok(out)
            }
            CellState::Object(state) => {
                let out = run_task(alloc, graph, port, item, parts, state, pick, widths)?;
                Ok(out)
            }
        }
    }
}
