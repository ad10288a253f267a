//! What a cell does with an item that it takes.

ghost use Rattle.std.specs.Prelude.{◌≡◌, [], IfOk, OnOk, IsTrue};
ghost use Rattle.flat_code.specs.Fits.{fits};
ghost use Rattle.flat_code.specs.Verified.{IsVerified};
ghost use Rattle.graph_safety.specs.Safe.{AreWidths};
ghost use Rattle.task_code.specs.Given.{output_of};
ghost use Rattle.graph_cells.specs.Held.{held, IsHeldAt};
ghost use Rattle.graph_cells.specs.Gathered.{found_by, IsGathered};
ghost use Rattle.graph_cells.specs.Processing.{out_of, outcome_of, processed, ran_so};
ghost use Rattle.graph_cells.specs.Sending.{HasRoom, IsSent};
ghost use Rattle.graph_cells.specs.Sound.{AllJoinable};

use crate::gather::Gather;
use crate::parts::all_beside;
use crate::sending::send_out;
use crate::state::CellState;
use channels::Outboxes;
use flat_code::Graph;
use sdg_base::{Item, Port, Widths, copy_item};
use sqlite_items::Items;
use std::alloc::{AllocError, Global};
use task_code::{Out, Parts};

/// The parts that an item finds waiting: of a part those of its call, and of any other item none.
fn found_by<'g>(gather: &'g Gather, item: &Item, none: &'g Parts) -> &'g Parts
    requires { none.now ≡ [] }
    ensures { result.now ≡ found_by item.now gather.now }
{
    match item {
        Item::Part { call, .. } => gather.parts_or(*call, none),
        _ => none,
    }
}

/// Runs an item that fits. Nothing is given by a part that does not belong to those that wait.
pub(crate) fn process(
    alloc: Global,
    graph: &Graph,
    port: Port,
    item: &Item,
    gather: &Gather,
    state: &mut CellState,
    pick: u8,
    widths: &Widths,
) -> Result<Option<Out>, AllocError>
    requires graph { IsVerified graph.now }
    requires widths { AreWidths graph.now widths.now }
    requires item { IsTrue (fits graph.now widths.now port item.now) }
    requires state { IsHeldAt graph.now port (held state.old) }
    requires parts { AllJoinable graph.now gather.now }
    ensures ran { IfOk result (λ out. processed graph.now port item.now (found_by item.now gather.now) (held state.old) pick widths.now ≡ ran_so (outcome_of out) (held state.new)) }
    ensures state { OnOk result (IsHeldAt graph.now port (held state.new)) }
{
    let none = Items::new(alloc);
    let others = found_by(gather, item, &none);
    if all_beside(item, others.as_slice()) {
        let out = state.run(alloc, graph, port, item, others, pick, widths)?;
        Ok(Some(out))
    } else {
        Ok(None)
    }
}

/// Keeps a part that waits, and drops those that a join has used up.
fn keep(gather: &mut Gather, alloc: Global, item: &Item, out: &Out) -> Result<(), AllocError>
    ensures { OnOk result (IsGathered item.now (out_of (output_of out.now)) gather.old gather.new) }
{
    match (item, out) {
        (Item::Part { call, .. }, Out::Wait) => {
            let copy = copy_item(alloc, item)?;
            gather.add(alloc, *call, copy)?;
            Ok(())
        }
        (Item::Part { call, .. }, _) => {
            gather.remove(*call);
            Ok(())
        }
        _ => Ok(()),
    }
}

/// Keeps or drops parts as what an item gave says, and sends it.
pub(crate) fn pass_on(
    gather: &mut Gather,
    outboxes: &mut Outboxes,
    alloc: Global,
    item: &Item,
    out: Option<Out>,
) -> Result<(), AllocError>
    requires { HasRoom outboxes.old }
    ensures gathers { OnOk result (IsGathered item.now (outcome_of out) gather.old gather.new) }
    ensures sends { OnOk result (IsSent (outcome_of out) outboxes.old outboxes.new) }
{
    match out {
        Some(out) => {
            keep(gather, alloc, item, &out)?;
            send_out(outboxes, alloc, out)?;
            Ok(())
        }
        None => Ok(()),
    }
}
