//! The cells of a cluster.

ghost use Rattle.std.specs.Prelude.{◌≡◌, ◌++◌, ◌∷◌, [], ◌≤◌, map, IfOk, OnOk};
ghost use Rattle.std.specs.List.{AllByRecursion, flat_map};
ghost use Rattle.sdg_base.specs.declared.port.Port.{Port};
ghost use Rattle.cluster.specs.World.{numbers_from};
ghost use Rattle.cluster.specs.Beginning.{port_in, IsFirst, row};
ghost use Rattle.cluster.specs.Standing.{place_of};

use cell_machine::Cell;
use sdg_base::Port;
use std::alloc::{AllocError, Global};

/// A cell and the port at which it stands.
#[derive(Drop)]
pub struct PortCell {
    pub port: Port,
    pub cell: Cell,
}

/// Cells in port order.
pub type Cells = Vec<PortCell>;

/// One more cell, which took nothing yet.
fn push_cell(alloc: Global, cells: &mut Cells, port: Port) -> Result<(), AllocError>
    ensures ports { OnOk result (map port_in cells.new.items ≡ map port_in cells.old.items ++ port ∷ []) }
    ensures first { OnOk result (AllByRecursion IsFirst cells.old.items → AllByRecursion IsFirst cells.new.items) }
{
    let cell = Cell::new(alloc, port);
    cells.push(PortCell { port, cell })?;
    Ok(())
}

/// The slots of a field, which took nothing yet.
fn push_row(alloc: Global, cells: &mut Cells, field: u16, slots: u8) -> Result<(), AllocError>
    ensures ports { OnOk result (map port_in cells.new.items ≡ map port_in cells.old.items ++ row slots field) }
    ensures first { OnOk result (AllByRecursion IsFirst cells.old.items → AllByRecursion IsFirst cells.new.items) }
{
    for slot in 0..slots {
        push_cell(alloc, cells, Port::Slot { field, slot })?;
    }
    Ok(())
}

/// The cells of so many fields with so many slots each, in port order, which took nothing yet.
pub fn first_cells(alloc: Global, fields: usize, slots: u8) -> Result<Cells, AllocError>
    requires { fields ≤ 65536 }
    ensures ports { IfOk result (λ cells. map port_in cells.items ≡ Port.Front ∷ Port.Join ∷ flat_map (row slots) (numbers_from 0 fields)) }
    ensures first { IfOk result (λ cells. AllByRecursion IsFirst cells.items) }
{
    let mut cells = Vec::new(alloc);
    push_cell(alloc, &mut cells, Port::Front)?;
    push_cell(alloc, &mut cells, Port::Join)?;
    for field in 0..fields {
        push_row(alloc, &mut cells, field as u16, slots)?;
    }
    Ok(cells)
}

/// The place of a cell in port order, where each field has so many slots.
pub fn place_of(port: Port, slots: u8) -> usize
    ensures { result ≡ place_of slots port }
{
    match port {
        Port::Join => 1,
        Port::Slot { field, slot } => {
            2 + usize::from(field) * usize::from(slots) + usize::from(slot)
        }
        _ => 0,
    }
}
