//! The cells of a graph, which take one item after the other.

ghost use Rattle.std.specs.Prelude.{◌≡◌, ℕ, IfOk, IsTrue, Some, slice_get, true};
ghost use Rattle.sdg_base.specs.declared.item.Item.{Item};
ghost use Rattle.flat_code.specs.Fits.{fits};
ghost use Rattle.flat_code.specs.Verified.{IsVerified};
ghost use Rattle.graph_safety.specs.Safe.{ArePartsBeside, AreWidths, IsBeside, IsStateAt};
ghost use Rattle.state_classes.specs.States.{class_of};

use flat_code::{FieldKind, Graph};
use sdg_base::{ClassName, Exn, Item, Outcome, Port, Val, Vals, Widths, copy_item};
use sqlite_items::{Items, at};
use state_classes::AnyState;
use std::alloc::{AllocError, AllocFailed, Global};
use std::collections::VecDeque;
use task_code::{Out, Parts, item_fits, run_task};

/// How many items' steps are kept.
pub(crate) const SHOWN: usize = 100;

/// A slot or an instance, with its state.
#[derive(Drop)]
struct Cell {
    port: Port,
    state: AnyState,
}

/// An item that is on its way.
#[derive(Drop)]
struct Mail {
    to: Port,
    item: Item,
}

/// The cells of a graph, and what they have taken.
#[derive(Drop)]
pub(crate) struct Cells {
    cells: Vec<Cell>,
    /// Stands in the place of a state where a cell has none.
    spare: AnyState,
    /// The parts of the visit that is under way.
    parts: Parts,
    queue: VecDeque<Mail>,
    steps: String,
    count: usize,
}

/// Why an item is not taken.
#[derive(Clone, Copy, Debug)]
pub(crate) enum Stuck {
    Misfit,
    Empty,
    Unended,
    Memory,
}

impl From<AllocFailed<Mail>> for Stuck {
    fn from(_: AllocFailed<Mail>) -> Stuck {
        Stuck::Memory
    }
}

impl From<AllocError> for Stuck {
    fn from(_: AllocError) -> Stuck {
        Stuck::Memory
    }
}

fn cell_at(class: ClassName, alloc: Global, port: Port) -> Cell {
    Cell {
        port,
        state: AnyState::new(alloc, class),
    }
}

/// A cell for each slot and each instance.
fn all_cells(alloc: Global, graph: &Graph, widths: &[u8]) -> Result<Vec<Cell>, AllocError> {
    let mut cells = Vec::new(alloc);
    let mut number = 0;
    for field in graph.fields.as_slice() {
        let width = widths.get(usize::from(number)).copied().unwrap_or(1);
        for n in 0..width {
            let port = match field.kind {
                FieldKind::Partitioned => Port::Slot {
                    field: number,
                    slot: n,
                },
                FieldKind::Partial => Port::Inst {
                    field: number,
                    number: n,
                },
            };
            cells.push(cell_at(field.class, alloc, port))?;
        }
        number = number.saturating_add(1);
    }
    Ok(cells)
}

/// The name of a step, where an item that is taken at a port makes one.
fn add_step(steps: &mut String, port: Port, item: &Item, waits: bool) -> Result<(), AllocError> {
    match (port, item) {
        (Port::Front, Item::Start { call, .. }) => write!(steps, "begin {call}; "),
        (Port::Inst { number, .. }, Item::Work { call, .. }) => {
            write!(steps, "block {call} {number}; ")
        }
        (_, Item::Work { call, .. }) => write!(steps, "block {call}; "),
        (Port::Inst { number, .. }, Item::Visit { call, .. }) => {
            write!(steps, "visit {call} {number}; ")
        }
        (_, Item::Part { call, .. }) => {
            if waits {
                Ok(())
            } else {
                write!(steps, "join {call}; ")
            }
        }
        _ => Ok(()),
    }
}

/// Whether a part fits, and is of another instance of the same join.
fn is_beside(graph: &Graph, widths: &Widths, part: &Item, other: &Item) -> bool
    requires widths { AreWidths graph.now widths.now }
    ensures { IsTrue result → IsBeside graph.now widths.now part.now other.now }
{
    match (part, other) {
        (
            Item::Part {
                call,
                task,
                width,
                instance,
                ..
            },
            Item::Part {
                call: c,
                task: t,
                width: w,
                instance: i,
                ..
            },
        ) => {
            c == call
                && t == task
                && w == width
                && i != instance
                && item_fits(graph, widths, Port::Join, other)
        }
        _ => false,
    }
}

/// Whether each of some parts is beside one.
fn all_beside(graph: &Graph, widths: &Widths, item: &Item, parts: &[Item]) -> bool
    requires widths { AreWidths graph.now widths.now }
    ensures { IsTrue result → (n : ℕ) (other : Item) → slice_get parts.now n ≡ Some other → IsBeside graph.now widths.now item.now other }
{
    let mut n = 0;
    while n < parts.len() {
        if !is_beside(graph, widths, item, &parts[n]) {
            return false;
        }
        n += 1;
    }
    true
}

/// Whether parts are those of the other instances of a part's join; another item has none.
fn are_beside(graph: &Graph, widths: &Widths, item: &Item, parts: &[Item]) -> bool
    requires widths { AreWidths graph.now widths.now }
    ensures { IsTrue result → ArePartsBeside graph.now widths.now item.now parts.now }
{
    match item {
        Item::Part { .. } => all_beside(graph, widths, item, parts),
        _ => parts.is_empty(),
    }
}

/// Whether a state is one that a port may have.
fn is_at(graph: &Graph, port: Port, state: &AnyState) -> bool
    ensures { IsTrue result → IsStateAt graph.now port state.now }
{
    match port {
        Port::Slot { field, .. } | Port::Inst { field, .. } => {
            match at(graph.fields.as_slice(), usize::from(field)) {
                Some(field) => field.class == state.class(),
                None => false,
            }
        }
        _ => true,
    }
}

/// Whether there is a width for each field, from 1 to 64.
pub(crate) fn are_widths(graph: &Graph, widths: &Widths) -> bool
    ensures { IsTrue result → AreWidths graph.now widths.now }
{
    widths.len() == graph.fields.len()
        && widths
            .as_slice()
            .iter()
            .all(|width| *width > 0 && *width <= 64)
}

/// A graph, how many slots or instances each field has, and where its cells take their memory.
#[derive(Clone, Copy)]
pub(crate) struct Machine<'g> {
    pub(crate) alloc: Global,
    pub(crate) graph: &'g Graph,
    pub(crate) widths: &'g Widths,
}

impl Cells {
    pub(crate) fn new(alloc: Global, graph: &Graph, widths: &Widths) -> Result<Cells, AllocError> {
        Ok(Cells {
            cells: all_cells(alloc, graph, widths.as_slice())?,
            spare: AnyState::new(alloc, ClassName::Counter),
            parts: Items::new(alloc),
            queue: VecDeque::new(alloc),
            steps: String::new(alloc),
            count: 0,
        })
    }

    /// The steps so far.
    pub(crate) fn steps(&self) -> &str {
        self.steps.as_str().trim_end()
    }

    /// How many items were taken.
    pub(crate) fn count(&self) -> usize {
        self.count
    }
}

/// The state of the cell at a port, or the spare one.
fn state_at<'a>(cells: &'a mut [Cell], spare: &'a mut AnyState, port: Port) -> &'a mut AnyState {
    match cells.iter_mut().find(|cell| cell.port == port) {
        Some(cell) => &mut cell.state,
        None => spare,
    }
}

impl Machine<'_> {
    /// Takes one item beside parts, on a state, where they fit.
    fn taken(
        &self,
        port: Port,
        item: &Item,
        parts: &Parts,
        state: &mut AnyState,
        pick: u8,
    ) -> Result<Out, Stuck>
        requires graph { IsVerified self.now.graph.now }
        requires widths { AreWidths self.now.graph.now self.now.widths.now }
    {
        if !item_fits(self.graph, self.widths, port, item) || !is_at(self.graph, port, state) {
            return Err(Stuck::Misfit);
        }
        if !are_beside(self.graph, self.widths, item, parts.as_slice()) {
            return Err(Stuck::Misfit);
        }
        let out = run_task(
            self.alloc,
            self.graph,
            port,
            item,
            parts,
            state,
            pick,
            self.widths,
        )?;
        Ok(out)
    }

    /// Takes one item at its cell.
    fn cell_takes(&self, cells: &mut Cells, port: Port, item: &Item, pick: u8) -> Result<Out, Stuck>
        requires graph { IsVerified self.now.graph.now }
        requires widths { AreWidths self.now.graph.now self.now.widths.now }
    {
        let state = state_at(cells.cells.as_mut_slice(), &mut cells.spare, port);
        self.taken(port, item, &cells.parts, state, pick)
    }

    /// What a taken item gave is on its way, or it is the result.
    fn sent(&self, cells: &mut Cells, item: Item, out: Out) -> Result<Option<Outcome>, AllocError> {
        match out {
            Out::Send(to, item) => cells.queue.push_back(Mail { to, item })?,
            Out::Broadcast(field, width, item) => {
                for number in 0..width {
                    cells.queue.push_back(Mail {
                        to: Port::Inst { field, number },
                        item: copy_item(self.alloc, &item)?,
                    })?;
                }
            }
            Out::Part(item) => cells.queue.push_back(Mail {
                to: Port::Join,
                item,
            })?,
            Out::Wait => cells.parts.push(item)?,
            Out::Result(Item::Done { outcome, .. }) => return Ok(Some(outcome)),
            Out::Result(_) => {}
        }
        Ok(None)
    }

    /// Takes the next item, and says how the call ended where it did.
    fn step(&self, cells: &mut Cells, pick: u8) -> Result<Option<Outcome>, Stuck>
        requires graph { IsVerified self.now.graph.now }
        requires widths { AreWidths self.now.graph.now self.now.widths.now }
    {
        let Some(Mail { to, item }) = cells.queue.pop_front() else {
            return Err(Stuck::Empty);
        };
        if !matches!(item, Item::Part { .. }) {
            cells.parts = Items::new(self.alloc);
        }
        let out = self.cell_takes(cells, to, &item, pick)?;
        cells.count = cells.count.saturating_add(1);
        if cells.count < SHOWN {
            add_step(&mut cells.steps, to, &item, matches!(out, Out::Wait))?;
        }
        Ok(self.sent(cells, item, out)?)
    }

    /// Runs one call alone to its end, by as many items at most.
    pub(crate) fn run(
        &self,
        cells: &mut Cells,
        start: Item,
        pick: u8,
        most: usize,
    ) -> Result<Outcome, Stuck>
        requires graph { IsVerified self.now.graph.now }
        requires widths { AreWidths self.now.graph.now self.now.widths.now }
    {
        cells.queue.push_back(Mail {
            to: Port::Front,
            item: start,
        })?;
        for _ in 0..most {
            if let Some(outcome) = self.step(cells, pick)? {
                return Ok(outcome);
            }
        }
        Err(Stuck::Unended)
    }
}

/// A value as a call's result shows it.
fn add_value(line: &mut String, value: &Val) -> Result<(), AllocError> {
    match value {
        Val::Int(n) => write!(line, "{n}"),
        Val::Long(n) => write!(line, "{n}"),
        Val::Bool(b) => write!(line, "{b}"),
        Val::Vector(elements) => {
            line.push('[')?;
            let mut first = true;
            for element in elements.as_slice() {
                if !first {
                    line.push(',')?;
                }
                first = false;
                write!(line, "{element}")?;
            }
            line.push(']')
        }
        Val::Unit => line.push_str("void"),
    }
}

/// An outcome as a call's result shows it.
pub(crate) fn add_outcome(line: &mut String, outcome: &Outcome) -> Result<(), AllocError> {
    match outcome {
        Outcome::Value(value) => add_value(line, value),
        Outcome::Throws(Exn::Arithmetic) => line.push_str("throws ArithmeticException"),
        Outcome::Throws(Exn::Index) => line.push_str("throws IndexOutOfBoundsException"),
        Outcome::Throws(Exn::NegativeSize) => line.push_str("throws NegativeArraySizeException"),
        Outcome::Limit => line.push_str("limit"),
    }
}
