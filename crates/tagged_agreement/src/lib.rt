//! Why every history of cells that do what a program does, an item and a step at a time, is a legal
//! history of the annotated source, with the same outcomes: with work that is sent, items that are
//! broadcast to instances, parts that wait, joins and growth.
//!
//! The definitions are over any machine and any program. What a cell holds, what a call waits with,
//! the fields, what a piece of a field holds, and which items agree with which waiting calls are
//! parameters; a relation is given here by the pairs that are in it, and the same laws stand in
//! `proofs/` for any relation. A history says nothing of events: an event is right where the history
//! stays one, or gains an entry that follows.
//!
//! They are met by a small class by hand. No class's graph is shown to meet them yet: the graphs of
//! the straight form stand on `agreement`, and nothing that runs depends on this crate.
#![tactic(auto)]

ghost use Rattle.tagged_agreement.specs.Laws.{CellsAreTheirEntries, CellsAreReplayed, ReplayFindsItems, HistoriesGrow, ItemsAreTaken, LateEntriesFollow, NotesDetermine, EveryHistoryIsExplained, EveryCallEndsOnce, EveryCallEnds, HistoriesAreShort, VisitsAreOfTheNoted};
ghost use Rattle.tagged_agreement.specs.Example.{ExampleSimulates, ExampleRuns, ExampleRefuses};

/// A cell is what its own entries make of it, one after the other.
pub fn cells_are_their_entries<State>()
    ensures { CellsAreTheirEntries State }
{}

/// A cell that is brought from entry to entry is at the number of them, and comes to the same.
pub fn cells_are_replayed<State>()
    ensures { CellsAreReplayed State }
{}

/// Where cells are behind their entries, the earliest entry that is not replayed finds its item.
pub fn replay_finds_items<State>()
    ensures { ReplayFindsItems State }
{}

/// A history that gains a happening that follows from it stays one.
pub fn histories_grow<State>()
    ensures { HistoriesGrow State }
{}

/// A cell may take the next item of each of its channels, and what was given stays given.
pub fn items_are_taken<State>()
    ensures { ItemsAreTaken State }
{}

/// An entry that becomes known late goes in front of what other cells did since, and all of it
/// stays a history.
pub fn late_entries_follow<State>()
    ensures { LateEntriesFollow State }
{}

/// What a log notes of a history, numbers alone, determines the history with its items.
pub fn notes_determine<State>()
    ensures { NotesDetermine State }
{}

/// The steps that are shown of a history are legal for the source, and each result is the source's
/// outcome of its call.
pub fn every_history_is_explained<State, Waiting, Fields, Contents, Link>()
    ensures { EveryHistoryIsExplained State Waiting Fields Contents Link }
{}

/// No call has two results.
pub fn every_call_ends_once<State, Waiting, Fields, Contents, Link>()
    ensures { EveryCallEndsOnce State Waiting Fields Contents Link }
{}

/// Where no cell has an item left to take, every call has its result.
pub fn every_call_ends<State, Waiting, Fields, Contents, Link>()
    ensures { EveryCallEnds State Waiting Fields Contents Link }
{}

/// Where what waits falls from mark to mark, a history has a bounded number of entries.
pub fn histories_are_short<State, Waiting, Fields, Contents, Link>()
    ensures { HistoriesAreShort State Waiting Fields Contents Link }
{}

/// A call visits each instance that there was when it came to the mark, once, and none that was
/// grown since.
pub fn visits_are_of_the_noted<Waiting, Fields>()
    ensures { VisitsAreOfTheNoted Waiting Fields }
{}

/// A small class by hand, with counters by key and a partial counter: its machine does what it says.
pub fn example_simulates()
    ensures { ExampleSimulates }
{}

/// A history of it, with a broadcast, a growth, a part that waits and a join: its steps and results.
pub fn example_runs()
    ensures { ExampleRuns }
{}

/// Histories of it that are none: a visit of the grown instance, a wrong width, a part twice, a join
/// before the last part, and others.
pub fn example_refuses()
    ensures { ExampleRefuses }
{}
