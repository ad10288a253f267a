//! The cluster of a run, and the events that it takes.

ghost use Rattle.std.specs.Prelude.{◌≡◌, ◌≤◌, length, IfOk, slice_get};
ghost use Rattle.std.specs.Option.{option_map};
ghost use Rattle.sdg_base.specs.declared.port.Port.{Port};
ghost use Rattle.cluster.specs.History.{call_of, shown_entry, given_at_start};

use crate::cells::{Cells, first_cells, place_of};
use crate::items::{call_of, ended_of};
use crate::offer::{Offer, lower_of};
use crate::past::{Commits, Committed, Ended, Past, Pasts};
use early_task_code::Graph;
use placement::{Event, Header, Word};
use sdg_base::{Calls, Entry, Item, Line, Note, Port, Step, copy_item, copy_values};
use sqlite_items::Items;
use std::alloc::{AllocError, Global};

/// What a run has come to. Step numbers begin at 1.
///
/// It is spent once memory was short: its cells may then have come to different moments of the run,
/// and it answers nothing but that.
#[derive(Drop)]
pub struct Cluster {
    pub calls: Calls,
    pub header: Header,
    pub cells: Cells,
    pub history: Pasts,
    pub commits: Commits,
    pub next_step: u64,
    pub spent: bool,
}

impl Cluster {
    ghost use Rattle.std.specs.Prelude.{◌-◌, ◌+◌, ◌^◌, ◌<◌, ◌++◌, ◌∷◌, [], min, Some, OnOk, OnErr, IsTrue, IsErr, Option, false, true, map};
    ghost use Rattle.std.specs.List.{filter_map};
    ghost use Rattle.std.specs.Vec.{vec_len};
    ghost use Rattle.placement.specs.declared.event.Event.{Event};
    ghost use Rattle.cluster.specs.History.{Setup};
    ghost use Rattle.cluster.specs.World.{World, first_world, next_item, next_result, event_of, with_entry, with_commit, drained, lowest, lowest_from, offers, sink_offer, cell_offer, cells_of, kept, kept_by};
    ghost use Rattle.cluster.specs.Standing.{Holds, HasWorld, IsSound, IsReady, NamesPorts};
    ghost use Rattle.cluster.specs.Offering.{offered, IsLive, MayTake, Takes, MayCommit, Commits};
    ghost use Rattle.cluster.specs.Results.{done};

    /// The cluster of a graph before the first event.
    pub fn new(
        alloc: Global,
        graph: &Graph,
        calls: Calls,
        header: Header,
    ) -> Result<Cluster, AllocError>
        requires { IsReady (record { graph = graph.now; calls = calls; header = header }) }
        ensures { IfOk result (λ cluster. Holds cluster (record { graph = graph.now; calls = calls; header = header }) first_world) }
    {
        let cells = first_cells(alloc, graph.fields.len(), header.slots)?;
        Ok(Cluster {
            calls,
            header,
            cells,
            history: Items::new(alloc),
            commits: Items::new(alloc),
            next_step: 1,
            spent: false,
        })
    }

    /// An event, and its word. After an `Err` the cluster is spent.
    pub fn event(&mut self, alloc: Global, graph: &Graph, event: Event) -> Result<Word, AllocError>
        requires sound { IsSound graph.now self.old }
        requires named { NamesPorts graph.now self.old.header event }
        ensures world { (s : Setup) (w : World) → s.graph ≡ graph.now → Holds self.old s w → OnOk result (Holds self.new s (event_of s w event).0) }
        ensures word { (s : Setup) (w : World) → s.graph ≡ graph.now → Holds self.old s w → IfOk result (λ word. word ≡ (event_of s w event).1) }
        ensures going { OnOk result (self.new.spent ≡ false) }
        ensures spent { OnErr result (self.new.spent ≡ true) }
        ensures over { self.old.spent ≡ true → IsErr result }
    {
        if self.spent {
            return Err(AllocError);
        }
        let answer = match event {
            Event::Take { to, from, pick } => self.take(alloc, graph, to, from, pick),
            Event::Sink { from } => self.commit(alloc, from),
        };
        match answer {
            Ok(word) => Ok(word),
            Err(error) => {
                self.spent = true;
                Err(error)
            }
        }
    }

    fn take(
        &mut self,
        alloc: Global,
        graph: &Graph,
        to: Port,
        from: Port,
        pick: u8,
    ) -> Result<Word, AllocError>
        requires live { HasWorld graph.now self.old }
        requires named { NamesPorts graph.now self.old.header (Event.Take to from pick) }
        ensures world { (s : Setup) (w : World) → s.graph ≡ graph.now → Holds self.old s w → OnOk result (Holds self.new s (event_of s w (Event.Take to from pick)).0) }
        ensures word { (s : Setup) (w : World) → s.graph ≡ graph.now → Holds self.old s w → IfOk result (λ word. word ≡ (event_of s w (Event.Take to from pick)).1) }
        ensures going { OnOk result (self.new.spent ≡ false) }
    {
        if self.next_step == u64::MAX {
            return Ok(Word::Held);
        }
        match self.next_item(alloc, to, from)? {
            None => Ok(Word::Empty),
            Some(item) => {
                self.take_item(alloc, graph, to, from, pick, &item)?;
                Ok(Word::Done)
            }
        }
    }

    /// The item after the last that a cell took from a port, where it was given.
    fn next_item(&self, alloc: Global, to: Port, from: Port) -> Result<Option<Item>, AllocError>
        requires { MayTake self.now to from }
        ensures { (s : Setup) (w : World) → Holds self.now s w → IfOk result (λ item. item ≡ next_item s w to from) }
    {
        let taker = &self.cells[place_of(to, self.header.slots)];
        let taken = taker.cell.marks.get(from);
        match from {
            Port::Caller => start_of(alloc, &self.calls, to, taken),
            _ => {
                let sender = &self.cells[place_of(from, self.header.slots)];
                match sender.cell.outboxes.kept_at(to, taken) {
                    Some(item) => Ok(Some(copy_item(alloc, item)?)),
                    None => Ok(None),
                }
            }
        }
    }

    /// A cell takes the next item from a port.
    fn take_item(
        &mut self,
        alloc: Global,
        graph: &Graph,
        to: Port,
        from: Port,
        pick: u8,
        item: &Item,
    ) -> Result<(), AllocError>
        requires { Takes self.old graph.now to from item.now }
        ensures { (s : Setup) (w : World) → s.graph ≡ graph.now → Holds self.old s w → next_item s w to from ≡ Some item.now → OnOk result (Holds self.new s (with_entry s w to from pick item.now)) }
    {
        let slots = self.header.slots;
        let held = &mut self.cells[place_of(to, slots)];
        let seq = held.cell.marks.get(from) + 1;
        held.cell.take(alloc, graph, slots, to, from, item)?;
        let entry = Entry {
            from,
            seq,
            pick,
            growths: 0,
            step: self.next_step,
        };
        self.history.push(Past {
            line: Line::Cell(to),
            note: Note::Take(entry),
            shown: shown_of(to, call_of(item)),
        })?;
        self.next_step += 1;
        Ok(())
    }

    fn commit(&mut self, alloc: Global, from: Port) -> Result<Word, AllocError>
        requires { MayCommit self.old from }
        ensures world { (s : Setup) (w : World) → Holds self.old s w → OnOk result (Holds self.new s (event_of s w (Event.Sink from)).0) }
        ensures word { (s : Setup) (w : World) → Holds self.old s w → IfOk result (λ word. word ≡ (event_of s w (Event.Sink from)).1) }
        ensures going { OnOk result (self.new.spent ≡ false) }
    {
        match self.next_result(alloc, from)? {
            None => Ok(Word::Empty),
            Some(shown) => {
                self.commit_result(from, shown)?;
                Ok(Word::Done)
            }
        }
    }

    /// The next result of a cell is committed.
    fn commit_result(&mut self, from: Port, shown: Ended) -> Result<(), AllocError>
        requires { Commits self.old from (done shown) }
        ensures { (s : Setup) (w : World) → Holds self.old s w → next_result s w from ≡ Some (done shown) → OnOk result (Holds self.new s (with_commit w from)) }
    {
        let held = &mut self.cells[place_of(from, self.header.slots)];
        let seq = held.cell.outboxes.trimmed(Port::Sink) + 1;
        held.cell.trim(Port::Sink, seq);
        self.commits.push(Committed { from, seq, shown })?;
        Ok(())
    }

    /// The result of a cell after the last that was committed, where there is one.
    fn next_result(&self, alloc: Global, from: Port) -> Result<Option<Ended>, AllocError>
        requires { MayCommit self.now from }
        ensures { (s : Setup) (w : World) → Holds self.now s w → IfOk result (λ shown. option_map done shown ≡ next_result s w from) }
    {
        let held = &self.cells[place_of(from, self.header.slots)];
        match held.cell.outboxes.kept_at(Port::Sink, 0) {
            Some(item) => Ok(Some(ended_of(alloc, item)?)),
            None => Ok(None),
        }
    }

    /// Runs to completion: the lowest call that has an item or a result goes next, until none has. No call
    /// of a class needs more than 100,002 events, and a drain makes no more a call, whatever the graph.
    /// After an `Err` the cluster is spent.
    pub fn drain(&mut self, alloc: Global, graph: &Graph) -> Result<(), AllocError>
        requires { IsSound graph.now self.old }
        ensures world { (s : Setup) (w : World) → s.graph ≡ graph.now → Holds self.old s w → OnOk result (Holds self.new s (drained s w)) }
        ensures going { OnOk result (self.new.spent ≡ false) }
        ensures spent { OnErr result (self.new.spent ≡ true) }
        ensures over { self.old.spent ≡ true → IsErr result }
    {
        if self.spent {
            return Err(AllocError);
        }
        let most = self.calls.len() * 100_002;
        for _turn in 0..most {
            match self.lowest() {
                Some(offer) => {
                    self.event(alloc, graph, offer.event())?;
                }
                None => return Ok(()),
            }
        }
        Ok(())
    }

    /// The lowest call that has an item or a result, by the port that takes it and the one that gave it.
    fn lowest(&self) -> Option<Offer>
        requires { IsLive self.now }
        ensures { (s : Setup) (w : World) → Holds self.now s w → option_map offered result ≡ lowest (offers s w) }
    {
        let mut best = None;
        for giver in 0..self.cells.len() {
            best = lower_of(best, self.result_offer(giver));
        }
        for taker in 0..self.cells.len() {
            best = self.lowest_for(best, taker);
        }
        best
    }

    /// The lower of one and of what the cell at a place may take.
    fn lowest_for(&self, best: Option<Offer>, taker: usize) -> Option<Offer>
        requires live { IsLive self.now }
        requires within { taker < vec_len self.now.cells }
        ensures { (s : Setup) (w : World) (to : Port) → Holds self.now s w → slice_get (cells_of s) taker ≡ Some to → option_map offered result ≡ lowest_from (option_map offered best) (filter_map (cell_offer s w to) (Port.Caller ∷ cells_of s)) }
    {
        let mut best = lower_of(best, self.call_offer(taker));
        for giver in 0..self.cells.len() {
            best = lower_of(best, self.item_offer(taker, giver));
        }
        best
    }

    /// The next result of the cell at a place.
    fn result_offer(&self, giver: usize) -> Option<Offer>
        requires { giver < vec_len self.now.cells }
        ensures { (s : Setup) (w : World) (from : Port) → Holds self.now s w → slice_get (cells_of s) giver ≡ Some from → option_map offered result ≡ sink_offer s w from }
    {
        let held = &self.cells[giver];
        match held.cell.outboxes.kept_at(Port::Sink, 0) {
            Some(item) => Some(Offer {
                call: call_of(item),
                to: Port::Sink,
                from: held.port,
            }),
            None => None,
        }
    }

    /// The next call, where the cell at a place begins calls.
    fn call_offer(&self, taker: usize) -> Option<Offer>
        requires live { IsLive self.now }
        requires within { taker < vec_len self.now.cells }
        ensures { (s : Setup) (w : World) (to : Port) → Holds self.now s w → slice_get (cells_of s) taker ≡ Some to → option_map offered result ≡ cell_offer s w to Port.Caller }
    {
        if self.next_step == u64::MAX {
            return None;
        }
        let held = &self.cells[taker];
        let taken = held.cell.marks.get(Port::Caller);
        match next_call(&self.calls, held.port, taken) {
            Some(call) => Some(Offer {
                call,
                to: held.port,
                from: Port::Caller,
            }),
            None => None,
        }
    }

    /// The next item for the cell at a place from the cell at another.
    fn item_offer(&self, taker: usize, giver: usize) -> Option<Offer>
        requires taker { taker < vec_len self.now.cells }
        requires giver { giver < vec_len self.now.cells }
        ensures { (s : Setup) (w : World) (to from : Port) → Holds self.now s w → slice_get (cells_of s) taker ≡ Some to → slice_get (cells_of s) giver ≡ Some from → option_map offered result ≡ cell_offer s w to from }
    {
        if self.next_step == u64::MAX {
            return None;
        }
        let held = &self.cells[taker];
        let sender = &self.cells[giver];
        let taken = held.cell.marks.get(sender.port);
        match sender.cell.outboxes.kept_at(held.port, taken) {
            Some(item) => Some(Offer {
                call: call_of(item),
                to: held.port,
                from: sender.port,
            }),
            None => None,
        }
    }

    /// How many items are kept: each call, the items between cells, and the results that are not
    /// committed. It is 2^64 - 1 where there are more.
    pub fn kept(&self) -> u64
        ensures { (s : Setup) (w : World) → Holds self.now s w → result ≡ min (kept s w) (2 ^ 64 - 1) }
    {
        let mut kept = self.calls.len() as u64;
        for giver in 0..self.cells.len() {
            kept = kept.saturating_add(self.kept_by(giver));
        }
        kept
    }

    fn kept_by(&self, giver: usize) -> u64
        requires { giver < vec_len self.now.cells }
        ensures { (s : Setup) (w : World) (from : Port) → Holds self.now s w → slice_get (cells_of s) giver ≡ Some from → result ≡ min (kept_by s w from) (2 ^ 64 - 1) }
    {
        let sender = &self.cells[giver];
        let mut kept = sender.cell.outboxes.kept(Port::Sink);
        for taker in 0..self.cells.len() {
            let receiver = self.cells[taker].port;
            kept = kept.saturating_add(sender.cell.outboxes.kept(receiver));
        }
        kept
    }
}

/// The step that an item at a cell is printed as, where it is one.
fn shown_of(to: Port, call: u32) -> Option<Step>
    ensures { result ≡ slice_get (shown_entry to call) 0 }
{
    match to {
        Port::Front => Some(Step::Begin { call }),
        Port::Slot { .. } => Some(Step::Block {
            call,
            instance: None,
        }),
        _ => None,
    }
}

/// The item of the call after so many, where a port begins calls.
fn start_of(alloc: Global, calls: &Calls, to: Port, taken: u64) -> Result<Option<Item>, AllocError>
    requires { length calls.now ≤ 65536 }
    ensures { IfOk result (λ item. item ≡ slice_get (given_at_start calls.now Port.Caller to) taken) }
{
    match to {
        Port::Front => match calls.get(taken as usize) {
            Some(call) => Ok(Some(Item::Start {
                call: taken as u32 + 1,
                method: call.method,
                args: copy_values(alloc, call.args.as_slice())?,
            })),
            None => Ok(None),
        },
        _ => Ok(None),
    }
}

/// The number of the call after so many, where a port begins calls.
fn next_call(calls: &Calls, to: Port, taken: u64) -> Option<u32>
    requires { length calls.now ≤ 65536 }
    ensures { result ≡ option_map call_of (slice_get (given_at_start calls.now Port.Caller to) taken) }
{
    match to {
        Port::Front => match calls.get(taken as usize) {
            Some(_) => Some(taken as u32 + 1),
            None => None,
        },
        _ => None,
    }
}
