//! Sending what an item gave.

ghost use Rattle.std.specs.Prelude.{◌-◌, ◌^◌, ◌<◌, OnOk};
ghost use Rattle.channels.specs.Outboxes.{outbox_of};
ghost use Rattle.tagged_agreement.specs.Machine.{one_to, each_to};
ghost use Rattle.task_code.specs.Given.{output_of};
ghost use Rattle.graph_cells.specs.Processing.{out_of};
ghost use Rattle.graph_cells.specs.Sending.{AreSent, HasRoom, IsSent};

use channels::Outboxes;
use sdg_base::{Item, Port, copy_item};
use std::alloc::{AllocError, Global};
use task_code::Out;

/// Sends an item to a port.
fn send_one(outboxes: &mut Outboxes, alloc: Global, to: Port, item: Item) -> Result<(), AllocError>
    requires { (outbox_of outboxes.old to).last < 2 ^ 64 - 1 }
    ensures { OnOk result (AreSent (one_to to item) outboxes.old outboxes.new) }
{
    outboxes.send(alloc, to, item)?;
    Ok(())
}

/// Sends an item to each of so many instances of a field.
fn send_each(
    outboxes: &mut Outboxes,
    alloc: Global,
    field: u16,
    width: u8,
    item: &Item,
) -> Result<(), AllocError>
    requires { HasRoom outboxes.old }
    ensures { OnOk result (AreSent (each_to field width item.now) outboxes.old outboxes.new) }
{
    for number in 0..width {
        let copy = copy_item(alloc, item)?;
        send_one(outboxes, alloc, Port::Inst { field, number }, copy)?;
    }
    Ok(())
}

/// Sends what an item gave to where it goes.
pub(crate) fn send_out(outboxes: &mut Outboxes, alloc: Global, out: Out) -> Result<(), AllocError>
    requires { HasRoom outboxes.old }
    ensures { OnOk result (IsSent (out_of (output_of out)) outboxes.old outboxes.new) }
{
    match out {
        Out::Send(to, item) => send_one(outboxes, alloc, to, item),
        Out::Broadcast(field, width, item) => send_each(outboxes, alloc, field, width, &item),
        Out::Part(part) => send_one(outboxes, alloc, Port::Join, part),
        Out::Result(end) => send_one(outboxes, alloc, Port::Sink, end),
        Out::Wait => Ok(()),
    }
}
