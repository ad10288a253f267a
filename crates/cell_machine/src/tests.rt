use super::*;
use channels::Accept;
use sdg_base::Port;
use std::test::*;

#[test]
fn a_cell_begins_empty(rt: HostRuntime) {
    let cell = Cell::new(rt.alloc(), Port::Slot { field: 0, slot: 1 });
    assert!(rt; matches!(cell.state, CellState::Table(_)));
    assert_eq!(rt; cell.marks.accept(Port::Front, 1), Accept::Next);
    assert_eq!(rt; cell.outboxes.last(Port::Sink), 0);
    assert_eq!(rt; cell.position, 0);
    let front = Cell::new(rt.alloc(), Port::Front);
    assert!(rt; matches!(front.state, CellState::Nothing));
}
